use crate::note::Note;
use std::time::Duration;
use wdl_value::NoMemory;

/// Appends a duration of less than a minute, as `3.2 s`.
fn push_seconds(note: &mut Note, time: Duration) -> Result<(), NoMemory> {
    note.push_number(time.as_secs())?;
    note.push(".")?;
    note.push_number(u64::from(time.subsec_millis() / 100))?;
    note.push(" s")
}

/// Appends two numbers with their units.
fn push_units(
    note: &mut Note,
    large: u64,
    unit: &str,
    small: u64,
    part: &str,
) -> Result<(), NoMemory> {
    note.push_number(large)?;
    note.push(unit)?;
    note.push_number(small)?;
    note.push(part)
}

/// Appends a duration as `3.2 s`, `12 min 5 s` or `3 h 12 min`, cut to the last unit.
pub(crate) fn push_time(note: &mut Note, time: Duration) -> Result<(), NoMemory> {
    let seconds = time.as_secs();
    let minutes = seconds / 60;
    if minutes == 0 {
        return push_seconds(note, time);
    }
    if minutes < 60 {
        return push_units(note, minutes, " min ", seconds % 60, " s");
    }
    push_units(note, minutes / 60, " h ", minutes % 60, " min")
}
