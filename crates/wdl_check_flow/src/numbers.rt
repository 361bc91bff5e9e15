//! The numbers of blocks.

ghost use Rattle.std.specs.Prelude.{◌≡◌, map, IfOk, OnOk};
ghost use Rattle.wdl_ast.specs.declared.workflow.Statement.{out-Statement};
ghost use Rattle.wdl_check_flow.specs.Numbers as spec;

use std::alloc::Global;
use wdl_ast::Statement;
use wdl_value::{Items, NoMemory};

/// How many scatters and conditions stand before a statement in its body.
#[derive(Clone, Copy, Debug)]
pub struct Counts {
    pub scatters: u32,
    pub conditions: u32,
}

impl Counts {
    /// The number of the next statement, which is then counted.
    fn next(&mut self, statement: &Statement) -> Result<u32, NoMemory>
        ensures number { IfOk result (λ n. n ≡ spec.number_at (out-Statement statement.now) self.old) }
        ensures counts { OnOk result (self.new ≡ spec.counted (out-Statement statement.now) self.old) }
    {
        match statement {
            Statement::Scatter(_) => {
                let number = self.scatters;
                self.scatters = number.checked_add(1).ok_or(NoMemory)?;
                Ok(number)
            }
            Statement::Conditional(_) => {
                let number = self.conditions;
                self.conditions = number.checked_add(1).ok_or(NoMemory)?;
                Ok(number)
            }
            _ => Ok(0),
        }
    }
}

/// The numbers of the statements of a body: blocks of one kind are counted from 0 in the order of
/// the text.
pub fn numbers_of(alloc: Global, body: &[&Statement]) -> Result<Items<u32>, NoMemory>
    ensures { IfOk result (λ ns. ns ≡ spec.numbers_of (map (λ s. s.now) body.now)) }
{
    let mut numbers = Items::new(alloc);
    let mut counts = Counts {
        scatters: 0,
        conditions: 0,
    };
    for statement in body {
        numbers.push(counts.next(statement)?)?;
    }
    Ok(numbers)
}
