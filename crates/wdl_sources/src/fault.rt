ghost use Rattle.std.specs.Prelude.{◌≡◌};
ghost use Rattle.wdl_sources.specs.declared.fault.ImportFault.TheVariants.{NoMemory as OutOfMemory};

use std::alloc::AllocFailed;
use thiserror::Error;
use wdl_value::{NoMemory, Span, Text};

/// Why a library was not gathered.
///
/// `Read` has the path that the shelf refused. `Bad` has a code, the path of the document and where
/// in it the code holds: 101 to 123 as the lexer and the parser say; 201 an import whose uri names
/// a scheme; 202 an import that leads to a document that is being read; 203 two imports of a
/// document with one namespace; 204 a struct name that a document sees with another list of
/// members; 205 a 65th document; 206 an alias for a struct that the imported document does not see;
/// 207 an import without `as` of a file whose name without `.wdl` is no name.
#[derive(Debug, Drop, Error)]
pub enum ImportFault {
    #[error("a document could not be read")]
    Read { path: Text },
    #[error("error {code}")]
    Bad { code: u16, path: Text, span: Span },
    #[error("out of memory")]
    NoMemory,
}

impl From<NoMemory> for ImportFault {
    ghost from_gives = { λ _ e. e ≡ OutOfMemory };

    fn from(_e: NoMemory) -> ImportFault {
        ImportFault::NoMemory
    }
}

impl<T: Drop> From<AllocFailed<T>> for ImportFault {
    ghost from_gives = { λ _ e. e ≡ OutOfMemory };

    fn from(_e: AllocFailed<T>) -> ImportFault {
        ImportFault::NoMemory
    }
}
