//! The session of one device, over any wire and any ground: frames are received and joined to messages, each
//! message is conducted through the session's machine and its reads of the history, and what is put goes out in
//! frames.
#![tactic(auto)]

mod ended;
pub mod laws;
pub(crate) mod listing;
pub(crate) mod putting;
pub(crate) mod reading;
mod serve;
pub(crate) mod session;

pub use ended::{End, Ended, Sequences};
pub use serve::{Setup, serve_session};
pub use session_mux::FrameWhy;
