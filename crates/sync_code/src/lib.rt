//! The code of a program of the sync language: its tree, in which each use of a variable has the
//! number and the slot of that variable.
#![tactic(auto)]

mod both;
mod code;
mod expression;
mod program;
mod simple;
mod slots;
mod statement;

pub use code::{Begin, Code, Held, Opening, Plain, Step, Tail};
pub use program::{ProgramCode, code_of_program};

/// Memory ran out.
pub type Memory = std::alloc::AllocError;
