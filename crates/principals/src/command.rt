//! What an administrator says of a user or a role.

ghost use Rattle.std.specs.Prelude.{◌≡◌};
ghost use Rattle.principals.specs.Script.{entry_of};

use sg_history::{Channels, Entry, Name, Names};

/// The put or the drop of a user or a role.
#[derive(Drop)]
pub enum Command {
    /// A user, with channels and roles in place of those before.
    PutUser(Name, Channels, Names),
    /// A role, with channels in place of those before.
    PutRole(Name, Channels),
    DropUser(Name),
    DropRole(Name),
}

impl Command {
    /// The entry of a history that records it. Allocates nothing.
    pub fn into_entry(self) -> Entry
        ensures { result ≡ entry_of self }
    {
        match self {
            Command::PutUser(name, channels, roles) => Entry::PutUser(name, channels, roles),
            Command::PutRole(name, channels) => Entry::PutRole(name, channels),
            Command::DropUser(name) => Entry::DropUser(name),
            Command::DropRole(name) => Entry::DropRole(name),
        }
    }
}
