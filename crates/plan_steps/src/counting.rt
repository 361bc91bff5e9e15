//! How many instances of statements there may be.

ghost use Rattle.std.specs.Prelude.{◌≡◌, ◌≤◌, ◌<◌, ◌+◌, ◌*◌};
ghost use Rattle.plan_steps.specs.Passes.{Passes};

use crate::fault::PlanFault;

/// The most instances of statements that a plan may have.
pub const COUNT_LIMIT: u64 = 1_000_000;

/// Counts so many statements of so many instances of a body, before these are made.
pub fn add_count(count: &mut u64, instances: usize, statements: usize) -> Result<(), PlanFault>
    requires { count.old ≤ COUNT_LIMIT }
    ensures count { Passes ((count.new ≡ count.old + instances * statements) × (count.new ≤ COUNT_LIMIT)) (COUNT_LIMIT < count.old + instances * statements) result }
{
    let limit = COUNT_LIMIT - *count;
    if statements == 0 {
        return Ok(());
    }
    if instances as u64 > limit / statements as u64 {
        return Err(PlanFault::TooMany);
    }
    *count += instances as u64 * statements as u64;
    Ok(())
}
