//! The dependency order of inputs, declarations and statements as they are written. Types are found
//! in this order, since a name is typed only once those are that it depends on.
#![tactic(auto)]

mod call;
mod member;
mod names;
mod needing;
mod ordering;

pub use call::call_arguments;
pub use member::Member;
pub use ordering::order_of;
