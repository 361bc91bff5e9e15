//! What sees a run from its beginning to its end, for a person.
#![tactic(auto)]

mod silent;
mod watch;

pub use silent::Silent;
pub use watch::Watch;
