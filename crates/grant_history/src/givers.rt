//! The roles that a user has or had.

ghost use Rattle.std.specs.Prelude.{◌≡◌, ◌&&◌, ◌||◌, ℕ, List, IfOk, OnOk};
ghost use Rattle.std.specs.List.{list_any};
ghost use Rattle.std.specs.Option.{option_copied};
ghost use Rattle.grant_history.specs.inner.Givers.{giver_has};
ghost use Rattle.grant_tracks.specs.Reads.{channel_by};
ghost use Rattle.grant_tracks.specs.Reads as reads;
ghost use Rattle.grant_tracks.specs.Tracks.{held_at};

use grant_tracks::{Held, Holders, Holding, Track, What};
use sg_outside::Memory;
use std::alloc::Global;

/// A role that a user has or had: when, and what the role has or had.
#[derive(Clone, Copy)]
pub struct Giver<'a> {
    pub track: &'a Track,
    pub of: &'a Holding,
}

/// What is kept of a role, where something is a role.
fn role_of<'a>(roles: &'a Holders, what: &What) -> Option<&'a Holding>
    ensures { (k : ℕ) (x : List ℕ) → channel_by (option_copied result) k x
        ≡ reads.gives_channel roles.now what.now k x }
{
    match what {
        What::Role(role) => roles.get(role.as_str()),
        _ => None,
    }
}

/// Puts one thing that a user has or had behind others, where it is a role of which something is kept.
fn add_giver<'a>(
    list: &mut Vec<Giver<'a>>,
    roles: &'a Holders,
    held: &'a Held,
) -> Result<(), Memory>
    ensures { OnOk result ((k : ℕ) (x : List ℕ) → list_any (λ g. giver_has g k x) list.new.items
        ≡ (list_any (λ g. giver_has g k x) list.old.items
        || (held_at held.now.track k && reads.gives_channel roles.now held.now.what k x))) }
{
    match role_of(roles, &held.what) {
        None => Ok(()),
        Some(of) => {
            let track = &held.track;
            list.push(Giver { track, of })?;
            Ok(())
        }
    }
}

/// The roles that a user has or had.
pub fn givers_of<'a>(
    alloc: Global,
    roles: &'a Holders,
    all: &'a [Held],
) -> Result<Vec<Giver<'a>>, Memory>
    ensures { IfOk result (λ list. (k : ℕ) (x : List ℕ)
        → list_any (λ g. giver_has g k x) list.items ≡ reads.by_roles roles.now all.now k x) }
{
    let mut list = Vec::new(alloc);
    for held in all {
        add_giver(&mut list, roles, held)?;
    }
    Ok(list)
}
