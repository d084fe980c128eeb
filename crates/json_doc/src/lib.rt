//! Documents read from JSON, exactly.
#![tactic(auto)]

mod convert;
mod doc;
pub mod node;
mod system;
mod text;

pub use doc::{Doc, DocFault, read_doc};
pub use node::{Members, Node, Nodes};
pub use system::with_system;
pub use text::DocText;

/// Memory ran out.
pub type Memory = std::alloc::AllocError;
