//! Laws of the definitions, which say nothing of code.

ghost use Rattle.cwl_records.specs.WideLaws.{RecordsAreWritten};

/// The JSON value that stands for a process with record inputs is what is written for it: so at
/// most one does.
pub fn records_are_written()
    ensures law { RecordsAreWritten }
{}
