ghost use Rattle.std.specs.Prelude.{◌≡◌, ◌≤◌, ◌<◌, IfOk, map};
ghost use Rattle.std.specs.List.{range_with_len};
ghost use Rattle.wdl_load.specs.Loads.{load_value};

use std::alloc::Global;
use wdl_value::NoMemory;

/// The value of a call, by those of the calls before it.
fn next_value(values: &[u32], number: u32) -> u32
    requires few { number < 10000 }
    requires before { values.now ≡ map load_value (range_with_len 0 number) }
    ensures value { result ≡ load_value number }
{
    if number == 0 {
        return 2;
    }
    (values[((number - 1) / 2) as usize] + number) % 1000
}

/// The values of so many calls, by their numbers.
pub fn load_values(alloc: Global, count: u32) -> Result<Vec<u32>, NoMemory>
    requires few { count ≤ 10000 }
    ensures values { IfOk result (λ v. v.items ≡ map load_value (range_with_len 0 count)) }
{
    let mut values = Vec::new(alloc);
    for number in 0..count {
        let value = next_value(values.as_slice(), number);
        values.push(value)?;
    }
    Ok(values)
}
