use crate::answers::Answers;
use wdl_typed::Checked;
use wdl_value::Text;

/// What a flow goes over: the checked library, the directory below which each job has its own, and
/// the answers.
#[derive(Drop)]
pub struct Ground<'a> {
    pub checked: &'a Checked,
    pub site: &'a Text,
    pub answers: Answers<'a>,
}
