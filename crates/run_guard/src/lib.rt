//! What keeps a run apart from others and ends what its jobs left running: the lock on its root, the
//! jobs that an earlier run left there, and a second process that outlives the run. None of it is
//! proved, since no contract speaks of locks, signals and other processes: it is tested with real
//! ones.
#![tactic(auto)]

mod guard;
mod left;
mod lock;
mod removal;

pub use guard::{Guard, SESSION, add_mark, fresh_mark, start};
pub use left::jobs_in;
pub use lock::{RootLock, Taken, take};
pub use removal::remove;
