//! The session of one device, as a machine over single events: what is put for each, and what is wanted of
//! the history. It touches neither wire nor history.
#![tactic(auto)]

pub mod act;
pub(crate) mod bodies;
pub mod event;
pub(crate) mod feed;
pub mod laws;
pub mod look;
pub mod machine;
pub mod replies;

pub use act::{Act, Acts, Want};
pub use event::Event;
pub use look::{Look, Looks, Purpose};
pub use machine::Core;
