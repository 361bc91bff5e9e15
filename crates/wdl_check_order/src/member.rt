ghost use Rattle.std.specs.Prelude.{◌≡◌, IfOk};
ghost use Rattle.wdl_base.specs.declared.span.Span.{Span};
ghost use Rattle.wdl_typed.specs.Order.{Needing};
ghost use Rattle.wdl_order.specs.Names.{as_needing};
ghost use Rattle.wdl_check_types.specs.Places as place;
ghost use Rattle.wdl_check_order.specs.Needs as spec;

use crate::needing::{declaration_uses, input_uses, statement_uses};
use std::alloc::Global;
use wdl_ast::{Declaration, InputDeclaration, Statement};
use wdl_check_types::{declaration_span, input_span, statement_span};
use wdl_order::Uses;
use wdl_value::{NoMemory, Span};

/// What stands in a list that is put into its dependency order.
pub trait Member {
    ghost needing: { Self → Needing };

    ghost span_of: { Self → Span };

    /// The names that it gives, and those that it refers to.
    fn uses(&self, alloc: Global) -> Result<Uses, NoMemory>
        ensures { IfOk result (λ u. as_needing u ≡ needing self.now) };

    /// Where it stands.
    fn span(&self) -> Span
        ensures { result ≡ span_of self.now };
}

impl Member for InputDeclaration {
    ghost needing = { spec.input_needing };

    ghost span_of = { place.input_span };

    fn uses(&self, alloc: Global) -> Result<Uses, NoMemory> {
        input_uses(alloc, self)
    }

    fn span(&self) -> Span {
        input_span(self)
    }
}

impl Member for Declaration {
    ghost needing = { spec.declaration_needing };

    ghost span_of = { place.declaration_span };

    fn uses(&self, alloc: Global) -> Result<Uses, NoMemory> {
        declaration_uses(alloc, self)
    }

    fn span(&self) -> Span {
        declaration_span(self)
    }
}

impl Member for Statement {
    ghost needing = { spec.statement_needing };

    ghost span_of = { place.statement_span };

    fn uses(&self, alloc: Global) -> Result<Uses, NoMemory> {
        statement_uses(alloc, self)
    }

    fn span(&self) -> Span {
        statement_span(self)
    }
}
