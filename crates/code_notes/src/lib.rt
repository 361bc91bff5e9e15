//! What a person is told of a status, a code or a rule: when it comes, a smallest example, and what
//! to do. docs/CODES.md says the same; no contract speaks of it.
#![tactic(auto)]

mod checks;
mod imports;
mod inputs;
mod rules;
mod statuses;
mod texts;
mod values;

use checks::of_check;
use imports::of_import;
use inputs::of_inputs;
use rules::of_rule;
use statuses::of_status;
use texts::of_text;
use values::of_value;

/// What is said where nothing has the number.
const NOTHING: &str = "No status, code or rule has this number.\n";

/// Returns what is said of the status, the code or the rule of a number, with a newline at its end.
/// It takes no memory.
pub fn code_text(number: u32) -> &'static str {
    let found = match number / 100 {
        0 => of_status(number),
        1 => of_text(number),
        2 => of_import(number),
        3 => of_check(number),
        4 => of_inputs(number),
        5 => of_value(number),
        _ => of_rule(number),
    };
    found.unwrap_or(NOTHING)
}
