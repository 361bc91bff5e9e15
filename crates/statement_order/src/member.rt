ghost use Rattle.std.specs.Prelude.{◌≡◌, IfOk};
ghost use Rattle.wdl_typed.specs.Order.{Needing, statement_needing, input_needing};
ghost use Rattle.wdl_base.specs.declared.span.Span.{Span};
ghost use Rattle.statement_order.specs.Members.{input_span, statement_span};
ghost use Rattle.wdl_order.specs.Names.{as_needing};

use crate::needing::{input_uses, statement_uses};
use std::alloc::Global;
use wdl_order::Uses;
use wdl_typed::{Statement, TInput};
use wdl_value::{NoMemory, Span};

/// What stands in a list that is ordered.
pub trait Member: Drop + Sized {
    ghost needing: { Self → Needing };

    ghost span_of: { Self → Span };

    /// The names that it gives, and those that it refers to.
    fn uses(&self, alloc: Global) -> Result<Uses, NoMemory>
        ensures { IfOk result (λ u. as_needing u ≡ needing self.now) };

    /// Where it stands.
    fn span(&self) -> Span
        ensures { result ≡ span_of self.now };
}

impl Member for Statement {
    ghost needing = { statement_needing };

    ghost span_of = { statement_span };

    fn uses(&self, alloc: Global) -> Result<Uses, NoMemory> {
        statement_uses(alloc, self)
    }

    fn span(&self) -> Span {
        match self {
            Statement::Decl(decl) => decl.span,
            Statement::Call(call) => call.span,
            Statement::Scatter(scatter) => scatter.span,
            Statement::If(condition) => condition.span,
        }
    }
}

impl Member for TInput {
    ghost needing = { input_needing };

    ghost span_of = { input_span };

    fn uses(&self, alloc: Global) -> Result<Uses, NoMemory> {
        input_uses(alloc, self)
    }

    fn span(&self) -> Span {
        self.span
    }
}
