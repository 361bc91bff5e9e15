//! The names and calls that statements give out.

ghost use Rattle.std.specs.Prelude.{◌≡◌, ◌++◌, OnOk, IfOk};
ghost use Rattle.wdl_typed.specs.Flow as flow;
ghost use Rattle.wdl_flow.specs.Given as spec;
ghost use Rattle.wdl_flow.specs.Views.{given_of};

use std::alloc::Global;
use wdl_typed::{Checked, Statement, TCall, TDecl, Target};
use wdl_value::{Items, Key, Name, NoMemory};

/// Names and calls.
#[derive(Debug, Drop)]
pub struct Yielded {
    pub keys: Items<Key>,
    pub calls: Items<Name>,
}

/// The key of an output of a call.
pub fn output_key(alloc: Global, call: &Name, output: &Name) -> Result<Key, NoMemory>
    ensures { IfOk result (λ k. k ≡ spec.output_key call.now output.now) }
{
    let first = call.copy(alloc)?;
    let second = output.copy(alloc)?;
    Ok(Key {
        first,
        second: Some(second),
    })
}

fn push_outputs(
    alloc: Global,
    call: &Name,
    outputs: &[TDecl],
    keys: &mut Items<Key>,
) -> Result<(), NoMemory>
    ensures { OnOk result (keys.new ≡ keys.old ++ flow.output_keys call.now outputs.now) }
{
    for output in outputs {
        keys.push(output_key(alloc, call, &output.name)?)?;
    }
    Ok(())
}

/// The outputs of a target.
fn outputs_of<'a>(checked: &'a Checked, target: Target) -> &'a [TDecl]
    ensures { result.now ≡ spec.outputs_of checked.now.tasks checked.now.flows target }
{
    match target {
        Target::Task(k) => match checked.tasks.get(k as usize) {
            Some(task) => task.outputs.as_slice(),
            None => &[],
        },
        Target::Flow(k) => match checked.flows.get(k as usize) {
            Some(flow) => flow.outputs.as_slice(),
            None => &[],
        },
    }
}

impl Yielded {
    /// No names and no calls.
    pub fn empty(alloc: Global) -> Yielded
        ensures { given_of result ≡ spec.none }
    {
        Yielded {
            keys: Items::new(alloc),
            calls: Items::new(alloc),
        }
    }

    /// Adds the key of a declaration.
    fn add_decl(&mut self, alloc: Global, name: &Name) -> Result<(), NoMemory>
        ensures { OnOk result (given_of self.new ≡ spec.with_decl (given_of self.old) name.now) }
    {
        self.keys.push(Key::plain(alloc, name)?)?;
        Ok(())
    }

    /// Adds the outputs of a call, and the call.
    pub fn add_call(
        &mut self,
        alloc: Global,
        call: &TCall,
        checked: &Checked,
    ) -> Result<(), NoMemory>
        ensures { OnOk result (given_of self.new ≡ spec.with_call (given_of self.old) call.now.name (spec.outputs_of checked.now.tasks checked.now.flows call.now.target)) }
    {
        let outputs = outputs_of(checked, call.target);
        push_outputs(alloc, &call.name, outputs, &mut self.keys)?;
        self.calls.push(call.name.copy(alloc)?)?;
        Ok(())
    }

    /// Adds what a statement gives out.
    #[cycle(given)]
    fn add_statement(
        &mut self,
        alloc: Global,
        statement: &Statement,
        checked: &Checked,
    ) -> Result<(), NoMemory>
        ensures { OnOk result (given_of self.new ≡ spec.both (given_of self.old) (spec.names_in checked.now.tasks checked.now.flows statement.now)) }
    {
        match statement {
            Statement::Decl(decl) => self.add_decl(alloc, &decl.name),
            Statement::Call(call) => self.add_call(alloc, call, checked),
            Statement::Scatter(scatter) => self.add_body(alloc, scatter.body.as_slice(), checked),
            Statement::If(condition) => self.add_body(alloc, condition.body.as_slice(), checked),
        }
    }

    /// Adds what the statements of a body give out.
    #[cycle(given)]
    pub fn add_body(
        &mut self,
        alloc: Global,
        body: &[Statement],
        checked: &Checked,
    ) -> Result<(), NoMemory>
        ensures { OnOk result (given_of self.new ≡ spec.both (given_of self.old) (spec.all_names checked.now.tasks checked.now.flows body.now)) }
    {
        for statement in body {
            self.add_statement(alloc, statement, checked)?;
        }
        Ok(())
    }
}
