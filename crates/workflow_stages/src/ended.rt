use report_text::Status;
use wdl_value::{Items, Text};

/// Why a command does no more: its status, the paths of the documents by their numbers, where its
/// line names one, and what a person is told of it.
#[derive(Debug, Drop)]
pub struct CommandStop {
    pub status: Status,
    pub paths: Items<Text>,
    pub note: Option<String>,
}

/// What the work of a command comes to before anything is written: the text for the output, or
/// another status.
#[derive(Debug, Drop)]
pub enum Work {
    Text(Text),
    Stop(CommandStop),
}
