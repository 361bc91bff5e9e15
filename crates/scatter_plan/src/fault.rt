//! Why there is no plan.

use wdl_typed::Checked;
use wdl_value::{Env, Text};

/// Why there is no plan: it is past a limit, with what was given, or out of memory.
#[derive(Debug, Drop)]
pub enum Unplanned {
    TooMany {
        checked: Checked,
        inputs: Env,
        site: Text,
    },
    NoMemory,
}
