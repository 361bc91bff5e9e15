use wdl_typed::Checked;

/// The library, and how deep workflows may still call workflows.
#[derive(Clone, Copy)]
pub struct Context<'a> {
    pub checked: &'a Checked,
    pub depth: u32,
}
