//! The documents of channels, kept between looks and bounded in number.
#![tactic(auto)]

mod asking;
mod caches;
mod channels;
mod filling;
mod forward;
mod found;
mod kept;
pub mod laws;
mod lists;
mod moved;
mod order;
mod sequences;
mod tidying;

pub use caches::Caches;
pub use found::{DocSeq, DocSeqs, Found, Listed};
pub use lists::Lists;
