//! What a look at the history answers.

use sg_history::{Revs, Rows};
use sg_names::List;
use sg_outside::Bytes;

/// What a look for a feed answers. `front` is the length of the history that was looked at.
#[derive(Drop)]
pub enum Fed {
    /// The rows of the feed at this front.
    Rows { front: u64, rows: Rows },
    /// The since key is past this front.
    Future { front: u64 },
}

/// What a look answers for a row that a device wants.
#[derive(Drop)]
pub enum Body {
    /// What is shown still is the row's: the revision's ancestors, the nearest first, and its body.
    Rev { ancestors: Revs, bytes: Bytes },
    /// The document still is gone by the write that the row speaks of.
    Removed,
    /// Neither.
    NoRev,
}

/// A list of such answers.
pub type BodyList = List<Body>;

/// What a look for the bodies of rows answers: one answer a row, in the order of the rows. `front` is the
/// length of the history that was looked at.
#[derive(Drop)]
pub struct Bodies {
    pub front: u64,
    pub answers: BodyList,
}
