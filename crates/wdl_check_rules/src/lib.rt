//! The rules of the checker of expressions: what each form of expression makes of its typed parts,
//! and the code where it makes nothing.
#![tactic(auto)]

mod access;
mod call;
mod collection;
mod fault;
mod literal_members;
mod local;
mod name;
mod operator;
mod parts;
mod rule_or_code;
mod scope;
mod span;
mod string;
mod typed;

pub use call::callee;
pub use collection::{map_at, pair};
pub use fault::CheckFault;
pub use literal_members::{MemberValue, first_stray, given_value, struct_literal};
pub use local::{Local, stands_for, struct_named};
pub use name::{check_name, is_call_alone, output_named};
pub use parts::Parts;
pub use rule_or_code::{
    apply_at, binary_at, choose_at, condition_at, hole_at, item_at, list_at, member_at, unary_at,
};
pub use scope::Scope;
pub use span::{name_of, span_of};
pub use string::{choice_of, plain_text, string_literal, string_of_parts};
pub use typed::{Typed, coerced, int_literal, let_go, literal};
