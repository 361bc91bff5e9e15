//! Where the cells of a workflow's instances stand: the slots of each body, and what each
//! expression needs, as cells.
#![tactic(auto)]

mod body;
mod flows;
mod laws;
mod layout;
mod needs;
mod scope;
mod spots;
mod walk;

pub use body::body_of;
pub use laws::{flows_see, layouts_see, needs_resolve};
pub use layout::{BodyLayout, FlowLayout, Layout, Need, StatementLayout};
