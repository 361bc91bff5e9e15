ghost use Rattle.std.specs.Prelude.{◌≡◌, IfOk};
ghost use Rattle.wdl_typed.specs.Requests as spec;
ghost use Rattle.wdl_typed.specs.Statuses.{successes_of};

use std::alloc::Global;
use wdl_value::{Items, NoMemory};

/// Which statuses are successes, by the value of `returnCodes` (OpenWDL 1.1, "Runtime Section"): 0
/// alone, any, or those of a list.
#[derive(Debug, Drop)]
pub enum Success {
    Zero,
    Any,
    Only(Items<i64>),
}

fn is_among(status: u8, listed: &[i64]) -> bool
    ensures { result ≡ spec.is_among status listed.now }
{
    for n in listed {
        if *n == i64::from(status) {
            return true;
        }
    }
    false
}

fn copy_numbers(alloc: Global, numbers: &[i64]) -> Result<Items<i64>, NoMemory>
    ensures { IfOk result (λ all. all ≡ numbers.now) }
{
    Ok(Items::from_slice(alloc, numbers)?)
}

impl Success {
    /// Whether the status is a success. It takes no memory.
    pub fn holds(&self, status: u8) -> bool
        ensures value { result ≡ spec.is_success (successes_of self.now) status }
    {
        match self {
            Success::Zero => status == 0,
            Success::Any => true,
            Success::Only(listed) => is_among(status, listed.as_slice()),
        }
    }

    /// A copy of the value.
    pub fn copy(&self, alloc: Global) -> Result<Success, NoMemory>
        ensures { IfOk result (λ s. s ≡ self.now) }
    {
        match self {
            Success::Zero => Ok(Success::Zero),
            Success::Any => Ok(Success::Any),
            Success::Only(listed) => Ok(Success::Only(copy_numbers(alloc, listed.as_slice())?)),
        }
    }
}
