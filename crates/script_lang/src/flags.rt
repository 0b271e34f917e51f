/// How a command comes that would rather not stand in the way, or wait.
#[derive(Clone, Copy, Debug, PartialEq, Eq)]
pub(crate) struct Flags {
    /// It may be ended by a command of another state.
    pub(crate) soft: bool,
    /// Where another state is live, it would rather be told than wait.
    pub(crate) refuse: bool,
}
