//! An object of a configuration, and its members.

ghost use Rattle.std.specs.Prelude.{◌≡◌, Some, map, option_map};
ghost use Rattle.serde_json.specs.Find.{get_member};
ghost use Rattle.serde_json.specs.View.{view, members_view};
ghost use Rattle.sg_history.specs.History.{among};
ghost use Rattle.gateway_config.specs.Faults.{IsResultOf, NamesFault, at_member, unknown};

use crate::fault::ConfigFault;
use serde_json::{Map, Value};
use sg_history::{ConfigWhy, Path};
use std::alloc::Global;

/// An object of a configuration.
#[derive(Clone, Copy)]
pub(crate) struct Object<'p, 'a> {
    /// The way to it.
    path: &'p str,
    members: &'a Map<String, Value>,
}

/// Whether a name is one of these.
fn is_among(name: &str, known: &[&str]) -> bool
    ensures { result ≡ among (map (λ k. k.now) known.now) name.now }
{
    for one in known {
        if *one == name {
            return true;
        }
    }
    false
}

/// The refusal of what stands at this path.
pub(crate) fn refuse_at(alloc: Global, path: &str, why: ConfigWhy) -> ConfigFault
    ensures { NamesFault (Some (record { path = path.now; why = why })) result }
{
    match String::from_str(alloc, path) {
        Ok(path) => ConfigFault::Bad {
            path: Path::from(path),
            why,
        },
        Err(_) => ConfigFault::Memory,
    }
}

impl<'p, 'a> Object<'p, 'a> {
    pub fn new(path: &'p str, members: &'a Map<String, Value>) -> Object<'p, 'a>
        ensures path { result.path.now ≡ path.now }
        ensures members { result.members.now ≡ members.now }
    {
        Object { path, members }
    }

    /// The value of the member with this name.
    pub fn get(&self, name: &str) -> Option<&'a Value>
        ensures { option_map (λ v. view v.now) result
            ≡ get_member name.now (members_view self.now.members.now.entries) }
    {
        self.members.get(name)
    }

    /// The refusal of the member with this name.
    pub fn refuse(&self, alloc: Global, name: &str, why: ConfigWhy) -> ConfigFault
        ensures { NamesFault (at_member self.now.path.now name.now (Some why)) result }
    {
        match format!(in alloc; "{}/{}", self.path, name) {
            Ok(path) => ConfigFault::Bad {
                path: Path::from(path),
                why,
            },
            Err(_) => ConfigFault::Memory,
        }
    }

    /// Refuses the first member, in the order of the names' bytes, that has none of these names.
    pub fn only(&self, alloc: Global, known: &[&str]) -> Result<(), ConfigFault>
        ensures { IsResultOf (unknown self.now.path.now (map (λ k. k.now) known.now)
            (members_view self.now.members.now.entries)) (λ _. Unit {0}) result }
    {
        for (name, _) in self.members.iter() {
            if !is_among(name.as_str(), known) {
                return Err(self.refuse(alloc, name.as_str(), ConfigWhy::Unknown));
            }
        }
        Ok(())
    }
}
