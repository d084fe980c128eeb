//! Revision trees of documents: what a further revision does to one, which leaf wins, and the revision
//! that the gateway makes itself.
#![tactic(auto)]

mod bound;
mod extend;
mod history;
pub mod laws;
mod layer;
mod leaf;
mod own;
mod part;
mod rising;
mod row;
mod tree;

pub use extend::Extended;
pub use leaf::{Leaf, Leaves};
pub use own::own_rev;
pub use tree::{Node, Tree};
