//! What a program of the sync language means, and the parts that evaluate it: the functions that are
//! built in, variables, and what a run has made so far.
#![tactic(auto)]

mod arguments;
mod builtin;
mod completion;
mod effects;
pub mod laws;
mod scope;
mod state;
mod variables;

pub use arguments::text_in;
pub use builtin::built_in;
pub use completion::Completion;
pub use effects::{Effects, Gathered};
pub use scope::Scope;
pub use state::{Context, State};
pub use sync_values::{
    Builtin, ByName, FaultKind, Method, Rule, RuleKind, Shared, Stop, Target, Value, added,
    bounded, by_method, combined, indexed, integer_in, listed, member, prefixed, subtracted, truth,
    value_of,
};
pub use variables::{Literal, Slot, Variable, Variables};

/// Memory ran out.
pub type Memory = std::alloc::AllocError;
