use report_text::number_of;
use workflow_cases::Outcome;

/// The status of a run, how many jobs it launched, and how many entries it left in its journal and
/// rows in its keeper.
pub fn ends(outcome: &Outcome) -> (u8, u64, usize, usize) {
    let ended = &outcome.ended;
    let launched = outcome.launches as u64;
    let rows = outcome.keeper.rows.len();
    (
        number_of(&ended.status),
        launched,
        ended.journal.len(),
        rows,
    )
}

/// Whether a run wrote this to its output and to its error stream.
pub fn wrote(outcome: &Outcome, out: &str, err: &str) -> bool {
    let sinks = &outcome.sinks;
    sinks.out.bytes.as_slice() == out.as_bytes() && sinks.err.bytes.as_slice() == err.as_bytes()
}

/// Whether a run ended with this status before it took a job or asked its keeper anything.
pub fn is_idle(outcome: &Outcome, status: u8) -> bool {
    let is_unasked = outcome.keeper.calls == 0;
    ends(outcome) == (status, 0, 0, 0) && outcome.ended.steps.is_empty() && is_unasked
}
