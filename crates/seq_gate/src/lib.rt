//! A gate to one board for many passes: numbers are drawn outside of turns by one atomic step, what else changes the board is
//! done in a turn, turns go by tickets, and the front is loaded by one step.
#![tactic(auto)]

mod gate;
mod kept;
mod known;
pub mod laws;
mod pass;
mod steps;
mod turn;
mod waiting;

pub use gate::{Gate, close, open};
pub use kept::Kept;
pub use known::{Known, Shown, ShownSide, View};
pub use pass::Pass;
pub use turn::Turn;
