//! What documents are and what is shown, by look-ups in an index of the log, and names in their order.
#![tactic(auto)]

mod at;
mod documents;
mod effects;
mod filter;
mod sorted;
mod views;

pub use at::write_at;
pub use documents::{DocState, state, write_of_rev};
pub use effects::{EffectsOf, effects_at, effects_by, of_mark, recorded};
pub use filter::Filter;
pub use sorted::in_order;
pub use views::shown;
