//! Programs of the sync language as texts.
#![tactic(auto)]

mod expression;
pub mod laws;
mod printer;
mod program;
mod spelling;
mod statement;

pub use program::print;

/// Memory ran out.
pub type Memory = std::alloc::AllocError;
