//! Looks at the history.

use sg_names::List;

/// What a look is for.
#[derive(Clone, Copy, PartialEq, Eq)]
pub enum Purpose {
    /// The rows of a feed.
    Feed,
    /// The bodies of rows that a device wants.
    Bodies,
    /// The judgement of a revision that a device proposes.
    Push,
    /// What is known of revisions that a device offers.
    Ask,
}

/// A look at the history: the length that it had then, and what the look was for.
#[derive(Clone, Copy, PartialEq, Eq)]
pub struct Look {
    pub front: u64,
    pub purpose: Purpose,
}

/// A list of looks.
pub type Looks = List<Look>;
