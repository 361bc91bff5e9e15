use wdl_value::Text;

/// A command of the program that has a page of help.
#[derive(Clone, Copy, Debug, PartialEq, Eq)]
pub enum Command {
    Run,
    Check,
    Inputs,
    Cwl,
    Load,
    Bundle,
    Explain,
    Help,
}

/// What the words of the command line ask for.
#[derive(Debug, Drop)]
pub enum Wants {
    /// Run the workflow of a document.
    Run {
        /// The document's path, not empty.
        file: Text,
        /// The path of the inputs, not empty.
        inputs: Option<Text>,
        /// How many jobs may run at once, 1 to 64.
        workers: u32,
        /// The directory below which jobs get their own directories: it begins with `/`, has at
        /// most 512 bytes, and does not end with `/`.
        root: Text,
        /// The path of the journal, not empty.
        journal: Option<Text>,
    },
    /// Check a document.
    Check {
        file: Text,
    },
    /// Write the inputs of the workflow of a document, to be filled in.
    Inputs {
        /// The document's path, not empty.
        file: Text,
    },
    /// Translate a document to CWL, or the inputs of its workflow where they are named.
    Cwl {
        /// The document's path, not empty.
        file: Text,
        /// The path of the inputs, not empty.
        inputs: Option<Text>,
    },
    /// Make and run a workflow of that many calls, 1 to 10,000.
    Load {
        number: u32,
    },
    /// Write a document and its imports as one.
    Bundle {
        file: Text,
    },
    /// Write what a status, a code or a rule means.
    Explain {
        /// The number of one: see `read_words`.
        code: u32,
    },
    /// Write the help of a command, or of the whole program where none is named.
    Help {
        about: Option<Command>,
    },
    /// Write the version of the program.
    Version,
}
