ghost use Rattle.std.specs.Prelude.{◌≡◌, IfOk, Some};
ghost use Rattle.std.specs.List.{range_with_len};
ghost use Rattle.cwl_image.specs.Image as image;

use crate::literals::{number_of, numbers_of};
use std::alloc::Global;
use wdl_typed::TCodes;
use wdl_value::{Items, NoMemory};

fn is_among(numbers: &[i64], status: u8) -> bool
    ensures { result ≡ image.is_code numbers.now status }
{
    for number in numbers {
        if *number == i64::from(status) {
            return true;
        }
    }
    false
}

/// The numbers from 0 to 255 among these, ascending and distinct.
fn statuses_among(alloc: Global, numbers: &[i64]) -> Result<Items<u8>, NoMemory>
    ensures { IfOk result (λ cs. cs ≡ image.among numbers.now (range_with_len 0 256)) }
{
    let mut statuses = Items::new(alloc);
    for status in 0..=u8::MAX {
        if is_among(numbers, status) {
            statuses.push(status)?;
        }
    }
    Ok(statuses)
}

fn all_statuses(alloc: Global) -> Result<Items<u8>, NoMemory>
    ensures { IfOk result (λ cs. cs ≡ range_with_len 0 256) }
{
    let mut statuses = Items::new(alloc);
    for status in 0..=u8::MAX {
        statuses.push(status)?;
    }
    Ok(statuses)
}

/// The statuses of success; none where 0 alone is one.
pub fn codes_of(alloc: Global, codes: &TCodes) -> Result<Option<Items<u8>>, NoMemory>
    ensures { IfOk result (λ cs. cs ≡ image.codes_of codes.now) }
{
    match codes {
        TCodes::Zero => Ok(None),
        TCodes::Any => Ok(Some(all_statuses(alloc)?)),
        TCodes::One(expr) => Ok(Some(statuses_among(alloc, &[number_of(expr)])?)),
        TCodes::Many(expr) => {
            let numbers = numbers_of(alloc, expr)?;
            Ok(Some(statuses_among(alloc, numbers.as_slice())?))
        }
    }
}
