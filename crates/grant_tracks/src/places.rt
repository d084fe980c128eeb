//! Where things stand among what one user or role has or had.

ghost use Rattle.std.specs.Prelude.{◌≡◌, ℕ, List, Some, None, OnOk, OnErr, if◌then◌else◌};
ghost use Rattle.std.specs.BTreeMap.{get_by_text};
ghost use Rattle.std.specs.Str.{bytes_eq};
ghost use Rattle.grant_tracks.specs.declared.things.What.{What};
ghost use Rattle.grant_tracks.specs.What.{same_what};
ghost use Rattle.grant_tracks.specs.Places.{found};

use crate::by_name;
use crate::things::What;
use sg_history::ChannelName;
use sg_outside::Memory;
use std::alloc::Global;
use std::collections::BTreeMap;

/// Places by names.
pub type ByName = BTreeMap<String, usize>;

/// The place of each thing that has one.
#[derive(Drop)]
pub struct Places {
    exists: Option<usize>,
    channels: ByName,
    roles: ByName,
}

impl Places {
    /// None. Allocates nothing.
    pub fn new(alloc: Global) -> Places
        ensures { (what : What) → found result what ≡ None }
    {
        Places {
            exists: None,
            channels: BTreeMap::new(alloc),
            roles: BTreeMap::new(alloc),
        }
    }

    /// The place of something, if it has one.
    pub fn find(&self, what: &What) -> Option<usize>
        ensures { result ≡ found self.now what.now }
    {
        match what {
            What::Exists => self.exists,
            What::Channel(channel) => self.channel(channel),
            What::Role(role) => self.roles.get(role.as_str()).copied(),
        }
    }

    /// The place of a channel, if it has one.
    pub fn channel(&self, channel: &ChannelName) -> Option<usize>
        ensures { result ≡ get_by_text self.now.channels channel.now }
    {
        self.channels.get(channel.as_str()).copied()
    }

    /// The places of the roles that have one, by their names.
    pub fn roles(&self) -> &ByName
        ensures { result.now ≡ self.now.roles }
    {
        &self.roles
    }

    /// Puts something at a place.
    pub fn put(&mut self, alloc: Global, what: &What, place: usize) -> Result<(), Memory>
        ensures ok { OnOk result ((other : What) → found self.new other
            ≡ (if same_what what.now other then Some place else found self.old other)) }
        ensures err { OnErr result ((other : What) → found self.new other
            ≡ found self.old other) }
    {
        match what {
            What::Exists => {
                self.exists = Some(place);
                Ok(())
            }
            What::Channel(channel) => {
                by_name::put(alloc, &mut self.channels, channel.as_str(), place)
            }
            What::Role(role) => by_name::put(alloc, &mut self.roles, role.as_str(), place),
        }
    }
}
