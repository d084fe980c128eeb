/// How a statement ends.
#[derive(Clone, Copy, Debug, PartialEq, Eq)]
pub enum Completion {
    Normal,
    Break,
    Continue,
    Return,
}
