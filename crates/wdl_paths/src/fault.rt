ghost use Rattle.std.specs.Prelude.{◌≡◌};
ghost use Rattle.wdl_paths.specs.declared.fault.ResolveFault.TheVariants.{NoMemory as OutOfMemory};

use thiserror::Error;
use wdl_base::NoMemory;

/// Why a uri has no path.
#[derive(Clone, Copy, Debug, PartialEq, Eq, Error)]
pub enum ResolveFault {
    /// The uri names a scheme: it holds `://`. Nothing is imported over a network.
    #[error("the import names a scheme; nothing is imported over a network")]
    Scheme,
    #[error("out of memory")]
    NoMemory,
}

impl From<NoMemory> for ResolveFault {
    ghost from_gives = { λ _ e. e ≡ OutOfMemory };

    fn from(_e: NoMemory) -> ResolveFault {
        ResolveFault::NoMemory
    }
}
