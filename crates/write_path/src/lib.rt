//! Grounds: where a session looks at the history.
#![tactic(auto)]

mod ground;
pub mod laws;
mod looking;
mod proposing;
mod shared;
mod shelf;
mod solo;
mod storing;
mod trail;
mod turns;

pub use doc_board::{Kept0, Outcome, SetAnswer};
pub use ground::Ground;
pub use principals::Command;
pub use shared::SharedGround;
pub use shelf::Shelf;
pub use solo::SoloGround;
pub use sync_resolve::Resolved;
