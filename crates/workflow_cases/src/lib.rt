//! Cases of the top call as its tests write them.
//!
//! A case is lines of a word and what follows it. These make files of the shelf:
//!
//! - `say SECTION` begins a text with the task `say` that has that section too, and `version TEXT`
//!   one with that text;
//! - `text TEXT`, `line TEXT` with a newline, and `times NUMBER PIECE` append to the text, and
//!   `file PATH` puts it on the shelf;
//! - `inputs TEXT` puts that text on the shelf as `i.json`; `lost NUMBER` lets the read of that
//!   number fail, and `unkept NUMBER` the call of that number of the journal's keeper;
//! - `lapsed PLACE` says that the rows of that place no longer stand for their files.
//!
//! These make answers of the launcher:
//!
//! - `left NAME TEXT` is a file of the next answer;
//! - `answer PLACE ATTEMPT STATUS OUT` is the answer of that status with that line as standard
//!   output; `letters PLACE NUMBER` has so many letters there, `odd PLACE` a byte that is no text,
//!   and `long PLACE` more than is kept;
//! - `refuse PLACE` refuses that place.
//!
//! `$ WORDS` are the words of the call, and `room OUT ERR` the bytes that the two sinks take. The
//! sink of the notes and that of the lines of a run take nothing, so that each write there fails,
//! or each the bytes of `notes NUMBER`. What is to be seen stands behind `>`.
#![tactic(auto)]

mod answers;
mod counted;
mod expecting;
mod files;
mod reading;
mod run;
mod showing;
mod sinks;

pub use expecting::first_mistake;
pub use reading::{Case, read_case};
pub use run::{Outcome, run_case};
pub use showing::shown;
pub use sinks::Sinks;
