//! The texts and trees of the sync language.
#![tactic(auto)]

mod behind;
mod cursor;
mod expression;
mod fault;
mod fitted;
pub mod laws;
mod operator;
mod parsed;
mod program;
mod simple;
mod statement;
pub mod tree;

pub use fault::{ParseFault, SyntaxFault};
pub use parsed::{Program, parse};
pub use sync_tokens::{Place, SyntaxWhy};

/// Memory ran out.
pub type Memory = std::alloc::AllocError;
