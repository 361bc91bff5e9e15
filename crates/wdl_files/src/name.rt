ghost use Rattle.std.specs.Prelude.{◌≡◌, IfOk};
ghost use Rattle.wdl_value.specs.Written as spec;

use std::alloc::Global;
use wdl_value::{NoMemory, Text};

/// The name of the file that the write of that number lays down, `.written-` and the number in
/// decimal.
pub fn written_name(alloc: Global, k: u32) -> Result<Text, NoMemory>
    ensures value { IfOk result (λ t. t ≡ spec.written_name k) }
{
    let digits = k.to_string(alloc)?;
    let mut name = Text::from_plain(alloc, ".written-")?;
    name.push_str(digits.as_str())?;
    Ok(name)
}
