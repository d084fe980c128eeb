//! Laws of the feeds of whole sessions, of what a device and a session exchange, and of how sessions end.
#![tactic(auto)]

pub mod batches;
pub mod ends;
pub mod exchanges;
pub mod laws;
