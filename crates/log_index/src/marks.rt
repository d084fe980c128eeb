//! Where the effects of written revisions stand.

/// Where the effects of a written revision stand: the sequence of the entry that replaced the sync
/// function, and which of its marks has them, counted from 0.
#[derive(Clone, Copy, Debug, PartialEq, Eq)]
pub struct Marked {
    pub sync: u64,
    pub mark: u64,
}
