//! The CWL process that stands for a checked form of the subset, and the rules of the subset:
//! definitions, and the types of which they speak.
#![tactic(auto)]

mod broken;
mod linkage;
mod literal;

pub use broken::Broken;
pub use linkage::Linkage;
pub use literal::Literal;
