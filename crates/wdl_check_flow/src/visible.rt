//! What statements see.

ghost use Rattle.std.specs.Prelude.{◌≡◌, ◌≤◌, ◌++◌, drop, length, reverse, take, IfOk, OnOk};
ghost use Rattle.wdl_typed.specs.Bodies as bodies;
ghost use Rattle.wdl_check_flow.specs.Given as spec;

use sqlite_items::Items;
use std::alloc::Global;
use wdl_names::{NameStack, TypedNames};
use wdl_typed::{Bound, TDecl};
use wdl_value::{Key, Member, Name, NoMemory, Ty};

/// The names that statements see with their types, and the calls that `after` may name.
#[derive(Drop)]
pub struct Visible {
    pub names: TypedNames,
    pub calls: NameStack,
}

/// What a block makes of the types of the names that its body gives out.
#[derive(Clone, Copy)]
pub enum Gathering {
    /// A list, which is not empty where the collection of the scatter is not.
    List { some: bool },
    /// A value that may be undefined.
    Optional,
}

fn gathered(alloc: Global, gathering: Gathering, t: Ty) -> Result<Ty, NoMemory>
    ensures { IfOk result (λ u. u ≡ spec.gathered gathering t) }
{
    match gathering {
        Gathering::List { some } => Ty::array_of(alloc, t, some),
        Gathering::Optional => Ty::optional_of(alloc, t),
    }
}

/// The name of an output of a call.
fn output_bound(alloc: Global, call: &Name, output: &Member) -> Result<Bound, NoMemory>
    ensures { IfOk result (λ b. b ≡ spec.output_bound call.now output.now) }
{
    let first = call.copy(alloc)?;
    let second = output.name.copy(alloc)?;
    let ty = output.ty.copy(alloc)?;
    Ok(Bound {
        key: Key {
            first,
            second: Some(second),
        },
        ty,
    })
}

impl Visible {
    /// Adds a plain name.
    pub fn enter(&mut self, alloc: Global, name: &Name, t: &Ty) -> Result<(), NoMemory>
        ensures { OnOk result (spec.seen_of self.new ≡ bodies.with_item (spec.seen_of self.old) name.now t.now) }
    {
        let key = Key::plain(alloc, name)?;
        let ty = t.copy(alloc)?;
        self.names.enter(Bound { key, ty })
    }

    /// Adds what a declaration gives.
    pub fn enter_decl(&mut self, alloc: Global, decl: &TDecl) -> Result<(), NoMemory>
        ensures { OnOk result (spec.seen_of self.new ≡ bodies.joined (spec.seen_of self.old) (spec.decl_gives decl.now)) }
    {
        self.enter(alloc, &decl.name, &decl.ty)
    }

    /// Adds the outputs of a call.
    fn enter_outputs(
        &mut self,
        alloc: Global,
        call: &Name,
        outputs: &[Member],
    ) -> Result<(), NoMemory>
        ensures { OnOk result (spec.seen_of self.new ≡ bodies.joined (spec.seen_of self.old) (spec.outputs_give call.now outputs.now)) }
    {
        for output in outputs {
            self.names.enter(output_bound(alloc, call, output)?)?;
        }
        Ok(())
    }

    /// Adds what a call gives: its outputs, and its own name for `after`.
    pub fn enter_call(
        &mut self,
        alloc: Global,
        call: &Name,
        outputs: &[Member],
    ) -> Result<(), NoMemory>
        ensures { OnOk result (spec.seen_of self.new ≡ bodies.joined (spec.seen_of self.old) (spec.call_gives call.now outputs.now)) }
    {
        self.enter_outputs(alloc, call, outputs)?;
        self.calls.enter(call.copy(alloc)?)
    }

    /// Takes away the names behind the first `count`, the last one first.
    fn take_behind(&mut self, alloc: Global, count: usize) -> Result<Items<Bound>, NoMemory>
        requires { count ≤ length self.old.names }
        ensures given { IfOk result (λ bs. reverse bs ≡ drop count self.old.names) }
        ensures names { OnOk result (self.new.names ≡ take count self.old.names) }
        ensures calls { OnOk result (self.new.calls ≡ self.old.calls) }
    {
        let mut given = Items::new(alloc);
        while self.names.len() > count {
            if let Some(bound) = self.names.leave() {
                given.push(bound)?;
            }
        }
        Ok(given)
    }

    /// Adds names from the last one to the first, with the types that a block makes of theirs.
    fn put_back(
        &mut self,
        alloc: Global,
        given: Items<Bound>,
        gathering: Gathering,
    ) -> Result<(), NoMemory>
        ensures names { OnOk result (self.new.names ≡ self.old.names ++ spec.retyped_names (spec.gathered gathering) (reverse given)) }
        ensures calls { OnOk result (self.new.calls ≡ self.old.calls) }
    {
        let mut waiting = given;
        while let Some(Bound { key, ty }) = waiting.pop() {
            let ty = gathered(alloc, gathering, ty)?;
            self.names.enter(Bound { key, ty })?;
        }
        Ok(())
    }

    /// What a block gives out: the first `kept` names stay, and those behind the first `from` ones
    /// are gathered.
    pub fn gather(
        &mut self,
        alloc: Global,
        kept: usize,
        from: usize,
        gathering: Gathering,
    ) -> Result<(), NoMemory>
        requires kept { kept ≤ from }
        requires from { from ≤ length self.old.names }
        ensures { OnOk result (spec.seen_of self.new ≡ spec.gathered_behind gathering kept from (spec.seen_of self.old)) }
    {
        let given = self.take_behind(alloc, from)?;
        self.names.keep(kept);
        self.put_back(alloc, given, gathering)
    }
}
