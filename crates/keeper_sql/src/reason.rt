//! Why a journal cannot be kept, as the notes tell it.

use sqlite::{Error as SqliteError, ErrorCode};
use std::fmt;
use std::fmt::Formatter;

/// Why a step of the keeper failed, for another cause than memory.
#[derive(Clone, Copy, Debug, PartialEq, Eq)]
pub enum Reason {
    /// Another process has the file open.
    Locked,
    /// The file cannot be opened, made or locked.
    NotOpened,
    /// The file is no database, or none that the keeper reads.
    NotADatabase,
    /// The database is damaged.
    Damaged,
    /// The database has other tables than a journal.
    OtherTables,
    /// A row is no row of a journal, is of another place or attempt than its body, or is out of
    /// order.
    OtherRow,
    /// There is no room for what is written.
    Full,
    /// The system failed to read or write the file.
    Device,
    /// The journal was not opened, or an earlier failure closed it.
    Closed,
    /// The database refused a statement.
    Refused,
}

fn reason_of_code(code: ErrorCode) -> Reason {
    match code {
        ErrorCode::DatabaseBusy => Reason::Locked,
        ErrorCode::CannotOpen => Reason::NotOpened,
        ErrorCode::NotADatabase => Reason::NotADatabase,
        ErrorCode::DatabaseCorrupt => Reason::Damaged,
        ErrorCode::DiskFull => Reason::Full,
        ErrorCode::SystemIoFailure => Reason::Device,
        ErrorCode::Closed => Reason::Closed,
        _ => Reason::Refused,
    }
}

/// Returns the reason for which the database refused something.
pub(crate) fn reason_of(e: SqliteError) -> Reason {
    match e {
        SqliteError::SqliteFailure(code) => reason_of_code(code),
        _ => Reason::Refused,
    }
}

impl fmt::Display for Reason {
    fn fmt<W: fmt::Write>(&self, f: &mut Formatter<W>) -> fmt::Result {
        f.write_str(match *self {
            Reason::Locked => "another run, or sqlite3, has it open",
            Reason::NotOpened => "it, or the log beside it, cannot be opened or locked",
            Reason::NotADatabase => "it is not a journal: no SQLite database, or none of wdl",
            Reason::Damaged => "the database is damaged",
            Reason::OtherTables => "it is not a journal: the database has other tables",
            Reason::OtherRow => "it is not a journal: a row is none that wdl writes",
            Reason::Full => "no space is left on the device",
            Reason::Device => "the system failed to read or write it",
            Reason::Closed => "it is not open",
            Reason::Refused => "the database refused a statement",
        })
    }
}
