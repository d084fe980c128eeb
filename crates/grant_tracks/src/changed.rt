//! The last change of what a user has.

ghost use Rattle.std.specs.Prelude.{◌≡◌, ℕ, List, Some};
ghost use Rattle.std.specs.BTreeMap.{get_by_text};
ghost use Rattle.grant_tracks.specs.Changed.{AreNamesSettled, IsSettled, changed_by, names_changed, user_changed};
ghost use Rattle.grant_tracks.specs.Reads.{list_channel, role_channel, user_channel};

use crate::events::later;
use crate::held::Holding;
use crate::holders::Holders;
use crate::places::ByName;
use sg_history::Name;

/// The last change of a role.
fn changed_role(roles: &Holders, role: &str) -> u64
    ensures last { result ≡ changed_by (get_by_text roles.now role.now) }
    ensures settled { (x : List ℕ) → IsSettled result (λ k. role_channel roles.now role.now k x) }
{
    match roles.get(role) {
        None => 0,
        Some(all) => all.changed(),
    }
}

/// The last change of the roles of these names.
fn changed_roles(roles: &Holders, names: &ByName) -> u64
    ensures last { result ≡ names_changed roles.now names.now.entries }
    ensures settled { AreNamesSettled roles.now names.now.entries result }
{
    let mut last = 0;
    for (name, _) in names.iter() {
        last = later(last, changed_role(roles, name.as_str()));
    }
    last
}

/// The last change of a user that has or had these, and of its roles.
fn changed_in(roles: &Holders, all: &Holding) -> u64
    ensures last { result ≡ user_changed roles.now (Some all.now) }
    ensures settled { (x : List ℕ) → IsSettled result (λ k. list_channel roles.now all.now.items k x) }
{
    later(all.changed(), changed_roles(roles, all.roles()))
}

/// The last change of what a user has, and of what the roles have that it has or had: from there on
/// its channels are the same. Allocates nothing.
pub fn changed_of(users: &Holders, roles: &Holders, user: &Name) -> u64
    ensures last { result ≡ user_changed roles.now (get_by_text users.now user.now) }
    ensures settled { (x : List ℕ) → IsSettled result
        (λ k. user_channel roles.now (get_by_text users.now user.now) k x) }
{
    match users.get(user.as_str()) {
        None => 0,
        Some(all) => changed_in(roles, all),
    }
}
