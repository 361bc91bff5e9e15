ghost use Rattle.std.specs.Prelude.{◌≡◌};
ghost use Rattle.wdl_print.specs.declared.fault.PrintFault.TheVariants.{NoMemory as OutOfMemory};

use thiserror::Error;
use wdl_value::NoMemory;

/// Why there is no text of a document.
#[derive(Clone, Copy, Debug, PartialEq, Eq, Error)]
pub enum PrintFault {
    /// It is longer than [`PRINT_LIMIT`](crate::PRINT_LIMIT).
    #[error("the text of the document is longer than 1,048,576 bytes")]
    TooLong,
    #[error("out of memory")]
    NoMemory,
}

impl From<NoMemory> for PrintFault {
    ghost from_gives = { λ _ e. e ≡ OutOfMemory };

    fn from(_fault: NoMemory) -> PrintFault {
        PrintFault::NoMemory
    }
}
