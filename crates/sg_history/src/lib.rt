//! The history of the gateway: entries, the log that keeps them in order, and what the history says of
//! users, documents and feeds.
#![tactic(auto)]

pub mod book;
pub mod config_fault;
pub mod entries;
pub mod fault;
pub mod field;
mod header;
mod journal;
mod journal_text;
pub mod laws;
mod line;
mod line_of_sync;
mod line_of_write;
pub mod line_reader;
mod log_reads;
pub mod number;
mod pieces;
mod put_fields;
mod puts;
mod replacement;
pub mod room;
pub mod row;
mod rules;
mod sync_text;
mod written;

pub use book::{Waiting, entry_at};
pub use config_fault::{ConfigWhy, Path};
pub use entries::{Entries, Entry, Log, Mark, Marks, Write};
pub use fault::{BadLine, LineFault, ReadLog, Why};
pub use header::{Header, read_header};
pub use journal::{read_journal, take_journal};
pub use journal_text::{write_journal, write_line};
pub use line::read_line;
pub use log_reads::LogReads;
pub use number::Number;
pub use pieces::{cut, fields_of};
pub use put_fields::{read_name_field, read_role_fields, read_user_fields};
pub use puts::{Given, Principal, Put};
pub use replacement::Replacement;
pub use room::RoomFor;
pub use row::{Options, Row, Rows};
pub use rules::broken;
pub use sg_names::{
    ChannelName, Channels, Client, Digest, DocId, Grant, Grantee, Grants, Key, KeyFault, Name,
    Names, RevId, Revs, RoleGrant, RoleGrants, TextFault, from_hex, is_decimal, read_decimal,
    write_decimal, write_hex,
};
pub use sync_text::SyncText;
