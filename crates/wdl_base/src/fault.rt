ghost use Rattle.std.specs.Prelude.{◌≡◌, IfOk};

use crate::error::NoMemory;
use crate::place::{Place, copy_place};
use crate::text::Text;
use std::alloc::Global;

/// Why an expression has no value. The numbers 501 to 516 are those of these variants, in this
/// order.
#[derive(Clone, Copy, Debug, PartialEq, Eq)]
pub enum EvalCode {
    Overflow,
    ZeroDivisor,
    IndexOut,
    KeyMissing,
    EmptyArray,
    NothingDefined,
    RepeatedKey,
    LengthsDiffer,
    NegativeRange,
    TooLarge,
    FileMissing,
    NotText,
    NotAnInteger,
    NotABoolean,
    NotTwoColumns,
    BodyLong,
}

/// Why a declaration or a call failed: an expression without a value, or a status that is no
/// success.
#[derive(Clone, Copy, Debug, PartialEq, Eq)]
pub enum Why {
    Code(EvalCode),
    Status(u8),
}

/// A declaration or a call that failed: where it stands, its name, and why.
#[derive(Debug, Drop)]
pub struct Fault {
    pub place: Place,
    pub name: Text,
    pub why: Why,
}

impl Fault {
    /// A copy of the fault.
    pub fn copy(&self, alloc: Global) -> Result<Fault, NoMemory>
        ensures { IfOk result (λ f. f ≡ self.now) }
    {
        Ok(Fault {
            place: copy_place(alloc, &self.place)?,
            name: self.name.copy(alloc)?,
            why: self.why,
        })
    }
}
