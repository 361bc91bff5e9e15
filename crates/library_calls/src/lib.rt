//! Calls for users of the library that the program does not make: templates that are filled, rows
//! of a journal that are renewed, fields of CWL that are taken apart, tools of single tasks, and
//! expressions and types that stand alone.
#![tactic(auto)]

mod fields;
mod filling;
mod migration;
mod parsing;
mod tools;

pub use fields::{FieldFault, pieces_of};
pub use filling::{FillFault, fill};
pub use migration::{MigrateFault, migrate};
pub use parsing::{ParsedExpr, ParsedType, parse_expr, parse_type};
pub use tools::tool_of;
