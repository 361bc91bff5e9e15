ghost use Rattle.std.specs.Prelude.{◌≡◌};
ghost use Rattle.statement_order.specs.declared.fault.OrderFault.TheVariants.{NoMemory as OutOfMemory};

use thiserror::Error;
use wdl_value::{NoMemory, Span};

/// Why a list is not ordered.
#[derive(Clone, Copy, Debug, PartialEq, Eq, Error)]
pub enum OrderFault {
    /// No order of the list has each member after those that it needs; the span is that of a
    /// member.
    #[error("a declaration depends on itself")]
    Circular { span: Span },
    #[error("out of memory")]
    NoMemory,
}

impl From<NoMemory> for OrderFault {
    ghost from_gives = { λ _ e. e ≡ OutOfMemory };

    fn from(_e: NoMemory) -> OrderFault {
        OrderFault::NoMemory
    }
}
