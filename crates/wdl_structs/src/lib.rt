//! The struct names that the documents of a library see, which of them are one struct, and the
//! structs.
#![tactic(auto)]

mod class;
mod identity;
mod kept_members;
mod known;
mod member;
mod named;
mod renamed;
mod seen;
mod struct_names;
mod table;

pub use class::{join, least};
pub use identity::{Classes, classes_of};
pub use kept_members::{keep_all, structs_of};
pub use known::unknown_alias;
pub use member::{copy_members, members, same_members};
pub use named::name_structs;
pub use renamed::given;
pub use seen::tables_of;
pub use struct_names::{all_stands, with_stands};
pub use table::{Entry, Table};
