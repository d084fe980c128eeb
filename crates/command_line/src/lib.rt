//! What the commands share: how the words of each are read, how a command ends, how its files are loaded and its text is printed, and
//! what its program does with the words and the status.
#![tactic(auto)]

mod channel_list;
mod command_lines;
mod feed_words;
mod files;
pub mod laws;
mod matches;
mod printing;
mod program;
mod replay_words;
mod serve_words;
mod status;
mod words_fault;

pub use feed_words::{FeedRequest, read_feed};
pub use files::load;
pub use printing::print;
pub use program::{end, words_of};
pub use replay_words::{ReplayRequest, read_replay};
pub use serve_words::read_serve;
pub use status::Status;
pub use words_fault::WordsFault;
