use keeper_sql::Trouble;
use run_keeper::RowFault;
use std::alloc::AllocError;
use wdl_port::KeepFault;
use wdl_value::NoMemory;

/// What a test's own steps want, which is memory or a file.
#[derive(Debug, Drop)]
pub(crate) struct Want;

impl From<AllocError> for Want {
    fn from(_e: AllocError) -> Want {
        Want
    }
}

impl From<NoMemory> for Want {
    fn from(_e: NoMemory) -> Want {
        Want
    }
}

impl From<KeepFault> for Want {
    fn from(_e: KeepFault) -> Want {
        Want
    }
}

impl From<RowFault> for Want {
    fn from(_e: RowFault) -> Want {
        Want
    }
}

impl From<Trouble> for Want {
    fn from(_e: Trouble) -> Want {
        Want
    }
}

impl From<std::io::Error> for Want {
    fn from(_e: std::io::Error) -> Want {
        Want
    }
}
