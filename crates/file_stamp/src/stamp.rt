use std::fmt;

/// What stands at a path: of a file, its length and the time of its last change. A file that was
/// changed or replaced mostly has another stamp.
#[derive(Clone, Copy, Debug, PartialEq, Eq)]
pub enum Stamp {
    /// Nothing that can be found.
    Missing,
    File {
        bytes: u64,
        /// The whole seconds of the time, counted from 1970, and before it below 0.
        seconds: i64,
        /// The nanoseconds after those seconds.
        nanoseconds: i64,
    },
    /// A folder, or what else is no file.
    Other,
}

/// `-` where nothing is, `*` of what is no file, and else the three numbers with a blank between
/// two. Stamps of one text are equal.
impl fmt::Display for Stamp {
    ghost use Rattle.std.specs.Prelude.{Some};
    ghost use Rattle.file_stamp.specs.Stamps.{stamp_text};

    ghost output = { λ s. Some (stamp_text s) };

    fn fmt<W: fmt::Write>(&self, f: &mut fmt::Formatter<W>) -> fmt::Result {
        match *self {
            Stamp::Missing => f.write_str("-"),
            Stamp::File {
                bytes,
                seconds,
                nanoseconds,
            } => write!(f, "{bytes} {seconds} {nanoseconds}"),
            Stamp::Other => f.write_str("*"),
        }
    }
}
