//! The texts of the replication protocol: requests of a device, and what the gateway answers and sends.
#![tactic(auto)]

mod answers;
mod changes;
mod checkpoint;
pub mod error;
mod json_body;
pub mod laws;
pub mod looks;
pub mod offers;
pub mod profile;
mod properties;
pub mod request;
mod rev;
pub mod revision;
mod rows;
mod sub_changes;
mod texts;
mod wanted;

pub use answers::write_answers;
pub use changes::write_changes;
pub use checkpoint::write_checkpoint;
pub use error::{ErrorKind, write_error, write_ok};
pub use looks::{Bodies, Body, BodyList, Fed};
pub use offers::{Asked, Offer, OfferAnswer, OfferAnswers, Offers};
pub use profile::{Profile, profile_of};
pub use request::{Field, Request, RequestFault, Version, read_request};
pub use rev::{rev_message, write_norev, write_rev};
pub use revision::Revision;
pub use wanted::{Flags, Wanted, read_wanted};
