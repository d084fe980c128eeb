//! An index of a history: where its documents, its revisions and their effects stand, entry by entry as
//! they come.
#![tactic(auto)]

mod by_name;
mod documents;
mod entry_places;
mod index;
pub mod laws;
mod mark_places;
mod mark_reads;
mod marks;
mod revisions;
mod tables;
mod taken;

pub use documents::Document;
pub use index::LogIndex;
pub use mark_reads::{is_mark, mark_in};
pub use marks::Marked;
