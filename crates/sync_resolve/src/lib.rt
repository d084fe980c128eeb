//! Programs of the sync language whose names stand for variables and functions.
#![tactic(auto)]

mod callee;
mod expression;
mod fault;
pub mod laws;
mod own;
mod program;
mod scope;
mod simple;
mod statement;

pub use fault::ResolveFault;
pub use program::{Resolved, resolve};

/// Memory ran out.
pub type Memory = std::alloc::AllocError;
