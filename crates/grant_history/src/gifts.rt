//! When the roles of a user give which channel: the channels of each role are gone over once.

ghost use Rattle.std.specs.Prelude.{◌≡◌, ◌&&◌, ◌||◌, ◌++◌, ℕ, List, None, IfOk, OnOk};
ghost use Rattle.std.specs.BTreeMap.{get_by_text};
ghost use Rattle.std.specs.List.{list_any};
ghost use Rattle.std.specs.Str.{bytes_eq};
ghost use Rattle.grant_tracks.specs.Events.{is_open};
ghost use Rattle.grant_history.specs.inner.Gifts.{gifts_have, held_gives};
ghost use Rattle.grant_history.specs.inner.Givers.{giver_has};
ghost use Rattle.grant_tracks.specs.Spells.{spells_have};
ghost use Rattle.grant_tracks.specs.Ways.{ways_have};

use crate::givers::Giver;
use grant_tracks::{
    ChannelTracks, Events, Held, Spell, Track, Ways, What, by_name, spells_of, way_by,
};
use sg_history::ChannelName;
use sg_outside::Memory;
use std::alloc::Global;
use std::collections::BTreeMap;

/// The spells in which roles give one channel, those of each role behind those of the one before.
#[derive(Drop)]
pub struct GiftList {
    pub list: Vec<Spell>,
}

/// The spells in which roles give channels, by the names of these.
pub type Gifts = BTreeMap<String, GiftList>;

fn add_to(gifts: &mut GiftList, spells: &[Spell]) -> Result<(), Memory>
    ensures { OnOk result (gifts.new.list.items ≡ gifts.old.list.items ++ spells.now) }
{
    gifts.list.extend_from_slice(spells)?;
    Ok(())
}

/// Keeps the spells in which a role gives a channel, where none are kept of that.
fn begin(alloc: Global, gifts: &mut Gifts, channel: &str, spells: &[Spell]) -> Result<(), Memory>
    requires { get_by_text gifts.old channel.now ≡ None }
    ensures { OnOk result ((x : List ℕ) (k : ℕ) → gifts_have gifts.new x k
        ≡ ((bytes_eq channel.now x && spells_have spells.now k) || gifts_have gifts.old x k)) }
{
    let mut begun = GiftList {
        list: Vec::new(alloc),
    };
    add_to(&mut begun, spells)?;
    by_name::put(alloc, gifts, channel, begun)
}

/// Keeps the spells in which a role gives a channel.
fn add_spells(
    alloc: Global,
    gifts: &mut Gifts,
    channel: &str,
    spells: &[Spell],
) -> Result<(), Memory>
    ensures { OnOk result ((x : List ℕ) (k : ℕ) → gifts_have gifts.new x k
        ≡ ((bytes_eq channel.now x && spells_have spells.now k) || gifts_have gifts.old x k)) }
{
    if let Some(kept) = gifts.get_mut(channel) {
        return add_to(kept, spells);
    }
    begin(alloc, gifts, channel, spells)
}

/// Keeps when a user has a channel by a role.
fn add_way(alloc: Global, gifts: &mut Gifts, channel: &str, way: &Ways<'_>) -> Result<(), Memory>
    ensures { OnOk result ((x : List ℕ) (k : ℕ) → gifts_have gifts.new x k
        ≡ ((bytes_eq channel.now x && ways_have way.now k) || gifts_have gifts.old x k)) }
{
    let spells = spells_of(alloc, way)?;
    add_spells(alloc, gifts, channel, spells.as_slice())
}

/// Keeps of a role, given when it exists, what one thing that it has or had gives, if that is a channel.
fn add_held(
    alloc: Global,
    gifts: &mut Gifts,
    giver: &Giver<'_>,
    exists: Option<&Track>,
    held: &Held,
) -> Result<(), Memory>
    ensures { OnOk result ((x : List ℕ) (k : ℕ) → gifts_have gifts.new x k
        ≡ (held_gives giver.now exists.entry x k held.now || gifts_have gifts.old x k)) }
{
    match &held.what {
        What::Channel(channel) => {
            let by = ChannelTracks {
                exists,
                channel: Some(&held.track),
            };
            let way = way_by(giver.track, by);
            add_way(alloc, gifts, channel.as_str(), &way)
        }
        _ => Ok(()),
    }
}

/// The same of all things that the role has or had.
fn add_all(
    alloc: Global,
    gifts: &mut Gifts,
    giver: &Giver<'_>,
    exists: Option<&Track>,
    all: &[Held],
) -> Result<(), Memory>
    ensures { OnOk result ((x : List ℕ) (k : ℕ) → gifts_have gifts.new x k
        ≡ (list_any (held_gives giver.now exists.entry x k) all.now
        || gifts_have gifts.old x k)) }
{
    for held in all {
        add_held(alloc, gifts, giver, exists, held)?;
    }
    Ok(())
}

/// Keeps what a role gives.
fn add_giver(alloc: Global, gifts: &mut Gifts, giver: &Giver<'_>) -> Result<(), Memory>
    ensures { OnOk result ((x : List ℕ) (k : ℕ) → gifts_have gifts.new x k
        ≡ (giver_has giver.now k x || gifts_have gifts.old x k)) }
{
    let of = giver.of;
    add_all(alloc, gifts, giver, of.existence(), of.all())
}

fn add_givers(alloc: Global, gifts: &mut Gifts, givers: &[Giver<'_>]) -> Result<(), Memory>
    ensures { OnOk result ((x : List ℕ) (k : ℕ) → gifts_have gifts.new x k
        ≡ (list_any (λ g. giver_has g k x) givers.now || gifts_have gifts.old x k)) }
{
    for giver in givers {
        add_giver(alloc, gifts, giver)?;
    }
    Ok(())
}

/// What these roles give.
pub fn gifts_of(alloc: Global, givers: &[Giver<'_>]) -> Result<Gifts, Memory>
    ensures { IfOk result (λ gifts. (x : List ℕ) (k : ℕ) → gifts_have gifts x k
        ≡ list_any (λ g. giver_has g k x) givers.now) }
{
    let mut gifts = BTreeMap::new(alloc);
    add_givers(alloc, &mut gifts, givers)?;
    Ok(gifts)
}

/// When roles give a channel.
pub fn events_in(alloc: Global, gifts: &Gifts, channel: &ChannelName) -> Result<Events, Memory>
    ensures { IfOk result (λ events. (k : ℕ)
        → is_open events k ≡ gifts_have gifts.now channel.now k) }
{
    match gifts.get(channel.as_str()) {
        None => Events::of(alloc, &[]),
        Some(kept) => Events::of(alloc, kept.list.as_slice()),
    }
}
