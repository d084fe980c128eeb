//! The tokens of the sync language, each with its place.
#![tactic(auto)]

mod blank;
pub mod laws;
mod literal;
mod place;
mod scan;
mod sign;
mod token;
mod word;

pub use place::{Place, SyntaxWhy};
pub use scan::tokens;
pub use token::{Kind, Sign, Token, Word};

/// Memory ran out.
pub type Memory = std::alloc::AllocError;
