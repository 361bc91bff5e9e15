ghost use Rattle.std.specs.Prelude.{◌≡◌};
ghost use Rattle.wdl_json.specs.declared.fault.InputFault.TheVariants.{NoMemory as OutOfMemory};

use thiserror::Error;
use wdl_base::{NoMemory, Text};

/// Why a text gives no inputs.
#[derive(Debug, Drop, Error)]
pub enum InputFault {
    /// The code is the first of these that applies:
    ///
    /// - 407: the text has more than 1,048,576 bytes;
    /// - 401: it is no JSON;
    /// - 402: it is no JSON object;
    /// - 403: a member is no `workflow.input`, and its name does not begin with `##` as that of a
    ///   comment; the first such in byte order is named, unless it holds NUL;
    /// - 404: a required input has no member; the first such in the text of the document is named;
    /// - 406, 405: a member is no value of its input's type, or passes a limit of values; the first
    ///   such input in the text of the document is named. It is 406 where a number in the member is
    ///   neither an i64 nor a u64, and else 405.
    #[error("error {code} in the inputs")]
    Bad { code: u16, name: Option<Text> },
    #[error("out of memory")]
    NoMemory,
}

impl From<NoMemory> for InputFault {
    ghost from_gives = { λ _ e. e ≡ OutOfMemory };

    fn from(_e: NoMemory) -> InputFault {
        InputFault::NoMemory
    }
}
