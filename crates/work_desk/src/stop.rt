ghost use Rattle.std.specs.Prelude.{◌≡◌};
ghost use Rattle.work_desk.specs.Stops as spec;

use ready_core::Core;
use wdl_port::KeepFault;
use wdl_value::Place;

/// Why a run stopped. What was out then was awaited, and nothing new was taken.
#[derive(Debug, Drop)]
pub enum Stop {
    /// The flow over the journal has a fault.
    Failed,
    NoMemory,
    /// The launcher refused the job of that place.
    Launch(Place),
    /// The keeper failed.
    Keep,
    /// The flow over the journal is past its limits.
    TooMany,
}

/// Why a run stops at a fault of the keeper.
pub(crate) fn stop_of(fault: KeepFault) -> Stop
    ensures { result ≡ spec.stop_of fault }
{
    match fault {
        KeepFault::Failed => Stop::Keep,
        KeepFault::NoMemory => Stop::NoMemory,
    }
}

/// Stops the run, unless it has stopped: the first stop stays, and the core notes its moment.
pub(crate) fn halt(core: &mut Core, stop: &mut Option<Stop>, why: Stop)
    ensures halted { stop.new ≡ spec.halted stop.old why }
    ensures noted { core.new ≡ spec.noted stop.old (spec.halted stop.old why) core.old }
{
    if stop.is_none() {
        core.stop();
        *stop = Some(why);
    }
}

/// Stops where the flow over the journal has a fault or is past its limits.
pub(crate) fn judge(core: &mut Core, stop: &mut Option<Stop>)
    ensures judged { spec.Judges core.old stop.old stop.new }
    ensures noted { core.new ≡ spec.noted stop.old stop.new core.old }
{
    if stop.is_some() {
        return;
    }
    if core.fault().is_some() {
        halt(core, stop, Stop::Failed);
    } else if core.too_many() {
        halt(core, stop, Stop::TooMany);
    }
}
