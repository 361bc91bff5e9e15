//! The stages that the commands of the program share: a document is read with its imports and
//! checked, its main workflow is found, and the inputs of that are read. A stage that does no more
//! gives a `CommandStop`.
#![tactic(auto)]

mod alone;
mod checking;
mod ended;
mod exclusion;
mod explain;
mod inputs;
mod note;
mod prepare;
mod writing;

pub use alone::shelf_of;
pub use checking::{Located, checked_of, gathered, linted_of, stop_of};
pub use ended::{CommandStop, Work};
pub use exclusion::outside;
pub use explain::Explain;
pub use note::{tell, write_note};
pub use prepare::{Prepared, main_flow, main_in, main_of, start_of};
pub use writing::write_all;
