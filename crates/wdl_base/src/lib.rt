//! Texts, names, places and jobs: plain data, which contracts see as texts, numbers and lists.
#![tactic(auto)]

mod answer;
mod body;
mod entry;
mod error;
mod fault;
mod laws;
mod name;
mod place;
mod place_reading;
mod request;
mod reserved;
mod same;
mod span;
mod step;
mod steps;
mod template;
mod text;

pub use answer::{
    Answer, CUT_NAME, ERR_LIMIT, FILE_BODY_BYTES, FILE_BYTES, FILE_COUNT, FILE_NAME_BYTES,
    FILE_NAMES_BYTES, OUT_LIMIT,
};
pub use body::{BODY_LIMIT, Body, Laid, Seen};
pub use entry::{Entry, Source};
pub use error::{AnswerFault, NameFault, NoMemory, TextFault};
pub use fault::{EvalCode, Fault, Why};
pub use laws::places_are_read;
pub use name::{Key, Name, is_identifier};
pub use place::{Place, Segment, copy_place, place_text};
pub use place_reading::{PlaceFault, place_of};
pub use request::{Attribute, Request, copy_attributes, copy_texts};
pub use reserved::{RESERVED, is_reserved};
pub use same::{same_place, same_request};
pub use span::Span;
pub use sqlite_items::{Boxed, Items};
pub use step::{Counts, Step};
pub use steps::Steps;
pub use template::{Part, Template};
pub use text::{Text, holds_nul};
