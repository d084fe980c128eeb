//! Extending a tree by a revision.

use crate::tree::Tree;
use sg_names::RevId;

/// The outcome of an extension.
#[derive(Drop)]
pub enum Extended {
    /// The tree with the revision, and how many of the listed ancestors are kept.
    NewTree { tree: Tree, kept: u64 },
    /// The revision is in the tree.
    Known,
    /// The generations of the revision and its ancestors don't fall strictly, or there are more than
    /// 1,000 ancestors.
    BadHistory400,
    /// The revision would make a conflict, where none is allowed, with the winner.
    Conflict409 { leaf: RevId },
    /// Memory ran out.
    Memory,
}
