//! Who held which channels and roles at which places of a log: of each user and each role, for each thing
//! that it has or had, the spans of places in which any source gives it, with what is read of these: what
//! is held at a place, and the spells in which a user has a channel.
#![tactic(auto)]

mod blocks;
pub mod by_name;
mod changed;
mod events;
mod held;
pub mod holders;
mod places;
mod reads;
mod spells;
mod sweeps;
mod things;
mod track;
mod ways;

pub use changed::changed_of;
pub use events::Events;
pub use held::{Held, Holding};
pub use holders::Holders;
pub use reads::{channels_of, everyone, roles_of};
pub use spells::Spell;
pub use sweeps::spells_of;
pub use things::What;
pub use track::Track;
pub use ways::{ChannelTracks, Ways, way_by, ways_of};
