//! What a user or a role may have.

ghost use Rattle.std.specs.Prelude.{◌≡◌, IfOk};
ghost use Rattle.grant_tracks.specs.What.{same_what};

use sg_history::{ChannelName, Name};
use sg_outside::Memory;
use std::alloc::Global;

/// That a user or a role exists, or one of its channels, or one of its roles.
#[derive(Drop)]
pub enum What {
    Exists,
    Channel(ChannelName),
    Role(Name),
}

impl What {
    /// Whether both are the same.
    pub fn equals(&self, other: &What) -> bool
        ensures { result ≡ same_what self.now other.now }
    {
        match (self, other) {
            (What::Exists, What::Exists) => true,
            (What::Channel(a), What::Channel(b)) => a.equals(b),
            (What::Role(a), What::Role(b)) => a.equals(b),
            _ => false,
        }
    }

    /// The same again.
    pub(crate) fn copy(&self, alloc: Global) -> Result<What, Memory>
        ensures { IfOk result (λ w. w ≡ self.now) }
    {
        match self {
            What::Exists => Ok(What::Exists),
            What::Channel(name) => Ok(What::Channel(name.copy(alloc)?)),
            What::Role(name) => Ok(What::Role(name.copy(alloc)?)),
        }
    }
}
