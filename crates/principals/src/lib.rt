//! Administrators' scripts: files that say, line by line, which users and roles are put and dropped, and which documents
//! the administrator writes.
#![tactic(auto)]

mod admin_line;
mod command;
mod doc_line;
mod kind;
pub mod laws;
mod line;
mod script;

pub use admin_line::{AdminLine, AdminLines};
pub use command::Command;
pub use script::read_admin;
