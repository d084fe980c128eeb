//! Recorded sessions: a file that spells what a device's wire gave, line by line, and the wire in memory that
//! gives it again.
#![tactic(auto)]

mod item;
pub mod laws;
mod line;
mod owner;
mod record;

pub use item::{Item, Items};
pub use record::{Recorded, read_record};
