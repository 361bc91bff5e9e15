use crate::bindings::Bindings;
use wdl_value::{Answer, Text};

/// What an expression is evaluated over: the values of its names, the directory of the job, and
/// what its command left.
#[derive(Drop)]
pub struct Setting<'s, 'a> {
    pub env: Bindings<'s, 'a>,
    pub dir: &'s Text,
    pub answer: Option<&'s Answer>,
}
