//! What the steps of a plan mean, what entering a body makes of it, and that each step keeps the
//! plan in step with its flow.
#![tactic(auto)]

mod instance;
mod laws;
mod rule;

pub use instance::Instance;
pub use laws::{bodies_begin, plans_begin, plans_go_on};
pub use rule::Rule;
