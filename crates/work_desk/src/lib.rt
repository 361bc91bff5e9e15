//! A run of a core by several workers: the caller takes jobs and puts them on a desk under one
//! lock, workers pick them, launch them and lay down the answers, and the caller collects, keeps
//! and settles these.
#![tactic(auto)]

mod caller;
mod desk;
mod lent;
mod pact;
mod placed;
mod progress;
mod rows;
mod run;
mod state;
mod stop;
mod unkept;
mod worker;

pub use desk::{Desk, Opened};
pub use pact::{CollectedOf, Pact, PutOf, Shares};
pub use progress::Progress;
pub use run::{Ran, run_all, run_kept};
pub use state::{DeskState, Finished};
pub use stop::Stop;
