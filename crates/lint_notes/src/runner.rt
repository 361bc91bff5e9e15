/// What runs commands.
#[derive(Clone, Copy, Debug, PartialEq, Eq)]
pub enum Runner {
    /// `sh`.
    Sh,
    /// Another program, which may be Bash or start it.
    Other,
}
