//! Messages over the frames of one wire, in both directions: frames that are received are checked and joined to messages, and what
//! is put goes out in frames.
#![tactic(auto)]

pub mod frame_why;
pub mod laws;
pub mod mux;

pub use frame_why::FrameWhy;
pub use mux::{Mux, Took};
