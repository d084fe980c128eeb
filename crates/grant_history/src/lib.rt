//! Who had which channels and roles at which place of the log, kept entry by entry.
#![tactic(auto)]

mod changes;
mod channels;
mod facts;
mod gifts;
mod given;
mod givers;
mod history;
pub mod laws;
mod ledger;
mod periods;
mod states;
mod store;
mod whole;

pub use history::{GrantHistory, Periods};
pub use periods::Period;
pub use states::{NewState, NewStates, new_states};
pub use whole::periods_by;
