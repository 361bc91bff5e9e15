ghost use Rattle.std.specs.Prelude.{◌≡◌};
ghost use Rattle.wdl_bundle.specs.declared.fault.BundleFault.TheVariants.{NoMemory as OutOfMemory};

use thiserror::Error;
use wdl_value::{NoMemory, Span};

/// Why a library has no bundle: `rule` is broken at the span, or memory ran out.
#[derive(Clone, Copy, Debug, PartialEq, Eq, Error)]
pub enum BundleFault {
    #[error("rule {rule}")]
    Bad { rule: u16, span: Span },
    #[error("out of memory")]
    NoMemory,
}

impl From<NoMemory> for BundleFault {
    ghost from_gives = { λ _ e. e ≡ OutOfMemory };

    fn from(_fault: NoMemory) -> BundleFault {
        BundleFault::NoMemory
    }
}
