//! The rows of a user's changes feed: the periods of the user's channels, and one pass over the writes of the log.
#![tactic(auto)]

mod asked;
mod by_channels;
mod document;
mod granted;
mod index;
mod last_change;
mod lasting;
pub mod laws;
mod pass;
mod scan;
mod shown;

pub use asked::rows_of_documents;
pub use document::{Change, Document, Latest, bring_up_at};
pub use granted::channels_of;
pub use last_change::{changed_last_at, latest_by};
pub use scan::{rows, viewer_of};
pub use shown::Viewer;
