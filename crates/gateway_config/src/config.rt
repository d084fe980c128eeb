//! What a configuration says.

use json_doc::DocText;
use sg_history::{Channels, Name, Names};
use sg_names::List;
use std::sync::Arc;
use sync_resolve::Resolved;

/// A configuration.
#[derive(Drop)]
pub struct Config {
    /// The database's name: 1 to 100 lower-case letters, digits, `_` and `-`.
    pub database: DocText,
    /// Where the door waits for callers, as the door itself reads it.
    pub bind: DocText,
    /// How many callers are let in, from 1 to 4294967295.
    pub accepts: u64,
    /// Whether a device's revision may be put beside others, in conflict with them.
    pub conflicts: bool,
    /// The sync function.
    pub program: Arc<Resolved>,
    pub roles: ConfigRoles,
    pub users: ConfigUsers,
}

/// A role. Its channels may repeat, and stand in any order.
#[derive(Drop)]
pub struct ConfigRole {
    pub name: Name,
    pub channels: Channels,
}

/// The roles of a configuration, in its order, each name once.
pub type ConfigRoles = List<ConfigRole>;

/// A user. Its channels and roles may repeat, and stand in any order.
#[derive(Drop)]
pub struct ConfigUser {
    pub name: Name,
    pub channels: Channels,
    pub roles: Names,
    /// What the user's device shows to be let in, if it has one: 1 to 100 letters, digits, `-`, `_`.
    pub session: Option<DocText>,
}

/// The users of a configuration, in its order, each name and each session once.
pub type ConfigUsers = List<ConfigUser>;
