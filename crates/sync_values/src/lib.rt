//! Values of the sync language with their operators and methods, and the faults that they make.
#![tactic(auto)]

mod by_name;
mod callee;
mod fault;
mod methods;
mod operators;
mod shared;
mod text;
mod value;

pub use by_name::{ByName, last_named};
pub use callee::{Builtin, Method, Target};
pub use fault::{FaultKind, Rule, RuleKind, Stop};
pub use methods::{by_method, indexed, is_list, listed, member};
pub use operators::{added, bounded, combined, integer_in, prefixed, subtracted, truth};
pub use shared::Shared;
pub use text::Text;
pub use value::{Value, value_of};

/// Memory ran out.
pub type Memory = std::alloc::AllocError;
