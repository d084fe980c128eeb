//! The gateway's configuration: a JSON object, read whole, or refused at its first bad member.
#![tactic(auto)]

mod config;
mod fault;
mod lists;
mod object;
mod program;
mod read;
mod role;
mod seen;
mod settings;
mod texts;
mod user;

pub use config::{Config, ConfigRole, ConfigRoles, ConfigUser, ConfigUsers};
pub use fault::ConfigFault;
pub use read::read_config;
