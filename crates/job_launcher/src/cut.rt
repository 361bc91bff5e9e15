use std::alloc::{AllocError, Global};
use std::fmt;
use std::fmt::Formatter;
use std::io::ErrorKind;

/// Why some of the files that a command left are not known by their names.
#[derive(Clone, Copy, Debug)]
pub(crate) enum Lack {
    /// There are more than 65,536.
    Files,
    /// Their names have more than 1,048,576 bytes together.
    Bytes,
    /// A name in the folder has more than 1,024 bytes.
    LongName,
    /// A name in the folder is not UTF-8.
    NotText,
    /// The folder is below 64 levels.
    Deep,
    /// The folder, or something in it, cannot be looked at.
    Unread(ErrorKind),
}

/// The first reason that was met, and the folder where it was: `./d/e/`, and `./` for the directory
/// of the job itself.
#[derive(Drop)]
pub(crate) struct Cut {
    pub(crate) lack: Lack,
    pub(crate) folder: String,
}

impl Lack {
    /// Whether a limit of an answer is passed, wherever the files are.
    fn is_limit(self) -> bool {
        matches!(self, Lack::Files | Lack::Bytes)
    }
}

impl fmt::Display for Lack {
    fn fmt<W: fmt::Write>(&self, f: &mut Formatter<W>) -> fmt::Result {
        match *self {
            Lack::Files => f.write_str("an answer has at most 65,536 files"),
            Lack::Bytes => f.write_str("the names of an answer have at most 1,048,576 bytes"),
            Lack::LongName => f.write_str("a name has more than 1,024 bytes"),
            Lack::NotText => f.write_str("a name is not UTF-8"),
            Lack::Deep => f.write_str("a folder is below 64 levels"),
            Lack::Unread(kind) => write!(f, "something cannot be read ({kind})"),
        }
    }
}

impl Cut {
    /// The sentence on the job at a place that left so many files, of which so many are kept by
    /// their names.
    pub(crate) fn sentence(
        &self,
        alloc: Global,
        place: &str,
        count: u64,
        kept: usize,
    ) -> Result<String, AllocError> {
        let (lack, folder) = (self.lack, self.folder.as_str());
        let mut sentence = format!(in alloc; "{place}: the command left {count} files, ")?;
        let known = format!(in alloc; "of which {kept} are known by name: {lack}")?;
        sentence.push_str(known.as_str())?;
        if !lack.is_limit() {
            let place = format!(in alloc; ", in {folder:?}")?;
            sentence.push_str(place.as_str())?;
        }
        sentence.push_str("; an output that needs another one fails (516), and so does glob")?;
        Ok(sentence)
    }
}
