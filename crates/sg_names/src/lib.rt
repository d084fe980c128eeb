//! Names, keys and revisions, and lists of them, each with the grammar of its text.
#![tactic(auto)]

mod channels;
mod decimal;
mod fault;
pub mod grammar;
pub mod grants;
mod hex;
mod item_list;
pub mod key;
pub mod laws;
mod list;
mod named_texts;
mod names;
mod pieces;
pub mod rev_id;
pub mod role_grants;
mod text;

pub use channels::Channels;
pub use decimal::{is_decimal, read_decimal, write_decimal};
pub use fault::TextFault;
pub use grants::{Grant, Grantee, Grants};
pub use hex::{from_hex, write_hex};
pub use key::{Key, KeyFault};
pub use list::List;
pub use named_texts::{ChannelName, Client, Digest, DocId, Name};
pub use names::Names;
pub use rev_id::{RevId, Revs};
pub use role_grants::{RoleGrant, RoleGrants};
pub use text::{Text, TextGrammar};
