ghost use Rattle.std.specs.Prelude.{◌≡◌};
ghost use Rattle.wdl_files.specs.declared.fault.WrittenFault.TheVariants.{NoMemory as OutOfMemory};

use thiserror::Error;
use wdl_value::NoMemory;

/// Why a file has no text.
#[derive(Clone, Copy, Debug, PartialEq, Eq, Error)]
pub enum WrittenFault {
    /// A text has more than 65,536 bytes, or the file more than 4,194,304.
    #[error("a text has more than 65,536 bytes, or the file more than 4,194,304")]
    TooLarge,
    #[error("out of memory")]
    NoMemory,
}

impl From<NoMemory> for WrittenFault {
    ghost from_gives = { λ _ e. e ≡ OutOfMemory };

    fn from(_e: NoMemory) -> WrittenFault {
        WrittenFault::NoMemory
    }
}
