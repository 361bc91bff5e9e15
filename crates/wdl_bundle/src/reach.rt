//! What the calls of a workflow may name.

ghost use Rattle.std.specs.Prelude.{◌≡◌, ◌++◌, map, slice_get, IfOk, OnOk};
ghost use Rattle.wdl_bundle.specs.Called as spec;

use sqlite_items::at;
use std::alloc::Global;
use wdl_ast::CallTarget;
use wdl_library::Link;
use wdl_names::{Indexed, Named};
use wdl_value::{Name, NoMemory};

/// What a call names: a task, by its place among all tasks of the library, or a workflow.
#[derive(Clone, Copy, Debug, PartialEq, Eq)]
pub enum Callee {
    Task(usize),
    Workflow,
}

/// A task or a workflow of a document, under its name.
#[derive(Clone, Copy)]
pub struct Offer<'a> {
    pub name: &'a Name,
    pub callee: Callee,
}

impl Named for Offer<'_> {
    ghost named = { λ o. o.name.now };

    fn name(&self) -> &Name {
        self.name
    }
}

/// The name of an import, with what its document offers.
#[derive(Clone, Copy)]
pub struct Space<'a> {
    pub name: &'a Name,
    pub offers: &'a Indexed<'a, Offer<'a>>,
}

impl Named for Space<'_> {
    ghost named = { λ s. s.name.now };

    fn name(&self) -> &Name {
        self.name
    }
}

/// What the calls of a document may name: what it offers itself, and what its imports offer
/// (OpenWDL 1.1, "Call Statement").
#[derive(Clone, Copy)]
pub struct Reach<'a> {
    pub own: &'a Indexed<'a, Offer<'a>>,
    pub spaces: &'a Indexed<'a, Space<'a>>,
}

impl<'a> Reach<'a> {
    ghost use Rattle.std.specs.Prelude.{◌≡◌, option_map};
    ghost use Rattle.std.specs.Option.{option_copied};
    ghost use Rattle.wdl_bundle.specs.Called.{callee_of, named_in, offer_of, reach_of};

    fn find(&self, target: &CallTarget) -> Option<&'a Offer<'a>>
        ensures { option_map offer_of (option_copied result) ≡ named_in (reach_of self.now) target.now.first target.now.second }
    {
        match &target.second {
            Some(member) => {
                let space = self.spaces.find(&target.first.name)?;
                space.offers.find(&member.name.name)
            }
            None => self.own.find(&target.first.name),
        }
    }

    /// What a call names.
    pub fn callee_of(&self, target: &CallTarget) -> Option<Callee>
        ensures { result ≡ callee_of (reach_of self.now) target.now }
    {
        let offer = self.find(target)?;
        Some(offer.callee)
    }
}

/// Puts an import behind the others, with what the document offers that it names.
fn push_space<'a>(
    spaces: &mut Vec<Space<'a>>,
    all: &'a [Indexed<'a, Offer<'a>>],
    link: &'a Link,
) -> Result<(), NoMemory>
    ensures { OnOk result (map spec.space_of spaces.new.items ≡ map spec.space_of spaces.old.items ++ spec.space_at link.now.namespace (slice_get (map (map spec.offer_of) all.now) link.now.doc)) }
{
    let offers = match at(all, link.doc as usize) {
        Some(offers) => offers,
        None => return Ok(()),
    };
    spaces.push(Space {
        name: &link.namespace,
        offers,
    })?;
    Ok(())
}

/// The imports of a document, with what each of all documents offers.
pub fn spaces_of<'a>(
    alloc: Global,
    all: &'a [Indexed<'a, Offer<'a>>],
    links: &'a [Link],
) -> Result<Vec<Space<'a>>, NoMemory>
    ensures { IfOk result (λ ss. map spec.space_of ss.items ≡ spec.spaces (map (map spec.offer_of) all.now) links.now) }
{
    let mut spaces = Vec::new(alloc);
    for link in links {
        push_space(&mut spaces, all, link)?;
    }
    Ok(spaces)
}
