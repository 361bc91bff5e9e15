use wdl_ast::CallTarget;
use wdl_check_decls::Seeing;
use wdl_names::{Indexed, Named};
use wdl_typed::{TInput, Target};
use wdl_value::{Member, Name};

/// A task or a workflow that a call may name, with its inputs, and the names and types of its
/// outputs in their order.
#[derive(Clone, Copy)]
pub struct Callable<'a> {
    pub name: &'a Name,
    pub target: Target,
    pub inputs: &'a Indexed<'a, TInput>,
    pub outputs: &'a [Member],
}

impl Named for Callable<'_> {
    ghost named = { λ c. c.name.now };

    fn name(&self) -> &Name {
        self.name
    }
}

/// The name of an import, with the tasks and the workflow of the document that it names.
#[derive(Clone, Copy)]
pub struct Namespace<'a> {
    pub name: &'a Name,
    pub callables: &'a Indexed<'a, Callable<'a>>,
}

impl Named for Namespace<'_> {
    ghost named = { λ n. n.name.now };

    fn name(&self) -> &Name {
        self.name
    }
}

/// What the calls of a document may name: its own tasks, and those of its imports with their
/// workflows (OpenWDL 1.1, "Call Statement").
#[derive(Clone, Copy)]
pub struct Targets<'a> {
    pub own: &'a Indexed<'a, Callable<'a>>,
    pub namespaces: &'a Indexed<'a, Namespace<'a>>,
}

impl<'a> Targets<'a> {
    ghost use Rattle.std.specs.Prelude.{◌≡◌, option_map};
    ghost use Rattle.std.specs.Option.{option_copied};
    ghost use Rattle.wdl_check_flow.specs.Targets.{offer_of, reach_of, target_of};

    /// What a call names.
    pub fn find(&self, target: &CallTarget) -> Option<&'a Callable<'a>>
        ensures { option_map offer_of (option_copied result) ≡ target_of (reach_of self.now) target.now }
    {
        match &target.second {
            Some(member) => {
                let namespace = self.namespaces.find(&target.first.name)?;
                namespace.callables.find(&member.name.name)
            }
            None => self.own.find(&target.first.name),
        }
    }
}

/// What the statements of a document see besides names.
#[derive(Clone, Copy)]
pub struct Context<'a> {
    pub seeing: Seeing<'a>,
    pub targets: Targets<'a>,
}
