//! All that the program does, from the words of its command line to what it writes, and the real
//! files and streams.
#![tactic(auto)]

mod asking;
mod ended;
mod file_shelf;
mod finish;
mod journal;
mod laws;
mod load;
mod load_line;
mod printing;
mod run;
mod stream_sink;
mod top;
mod work;

pub use ended::Ended;
pub use file_shelf::FileShelf;
pub use laws::{bundles_agree, documents_mean};
pub use stream_sink::StreamSink;
pub use top::workflow;
