//! Spells by where they begin and where they end, which are counted up to a place.

ghost use Rattle.std.specs.Prelude.{◌≡◌, ℕ, max, OnOk};
ghost use Rattle.std.specs.List.Sorted.{IsNonDecreasingBy};
ghost use Rattle.grant_tracks.specs.Counts.{AddsSpell, up_to};

use crate::spells::Spell;
use sg_outside::Memory;
use std::alloc::Global;

/// Where spells begin and where they end, each by rising places.
#[derive(Drop)]
pub struct Events {
    begins: Vec<u64>,
    ends: Vec<u64>,
    ghost begins_rise: { IsNonDecreasingBy (λ (k : ℕ). k) begins.items },
    ghost ends_rise: { IsNonDecreasingBy (λ (k : ℕ). k) ends.items },
}

/// How many of these places are at most this one.
fn count_to(places: &[u64], k: u64) -> usize
    requires { IsNonDecreasingBy (λ (place : ℕ). place) places.now }
    ensures { result ≡ up_to places.now k }
{
    places.partition_point(|place| *place <= k)
}

/// The later one of two places.
pub(crate) fn later(a: u64, b: u64) -> u64
    ensures { result ≡ max a b }
{
    if b <= a {
        return a;
    }
    b
}

/// Adds where a spell begins, and where it ends.
fn add_spell(begins: &mut Vec<u64>, ends: &mut Vec<u64>, spell: &Spell) -> Result<(), Memory>
    ensures { OnOk result (AddsSpell begins.old.items ends.old.items
        begins.new.items ends.new.items spell.now) }
{
    begins.push(spell.from)?;
    match spell.to {
        None => Ok(()),
        Some(to) => {
            ends.push(later(spell.from, to))?;
            Ok(())
        }
    }
}

impl Events {
    ghost use Rattle.std.specs.Prelude.{IfOk};
    ghost use Rattle.grant_tracks.specs.Counts.{open_at};
    ghost use Rattle.grant_tracks.specs.inner.Cuts.{Covers};
    ghost use Rattle.grant_tracks.specs.Events.{is_open};
    ghost use Rattle.grant_tracks.specs.Spells.{spells_have};

    fn new(mut begins: Vec<u64>, mut ends: Vec<u64>) -> Events
        ensures { (k : ℕ) → is_open result k ≡ open_at begins.items ends.items k }
    {
        begins.sort_unstable();
        ends.sort_unstable();
        Events { begins, ends }
    }

    /// Those of these spells, in any order.
    pub fn of(alloc: Global, spells: &[Spell]) -> Result<Events, Memory>
        ensures { IfOk result (λ events. (k : ℕ)
            → is_open events k ≡ spells_have spells.now k) }
    {
        let mut begins = Vec::with_capacity(alloc, spells.len())?;
        let mut ends = Vec::with_capacity(alloc, spells.len())?;
        for spell in spells {
            add_spell(&mut begins, &mut ends, spell)?;
        }
        Ok(Events::new(begins, ends))
    }

    /// Whether one of the spells has a place: more have begun than have ended. Allocates nothing.
    pub(crate) fn has(&self, k: u64) -> bool
        ensures { result ≡ is_open self.now k }
    {
        count_to(self.ends.as_slice(), k) < count_to(self.begins.as_slice(), k)
    }

    /// Adds the places at which it may change whether one of the spells has a place.
    pub(crate) fn add_cuts(&self, cuts: &mut Vec<u64>) -> Result<(), Memory>
        ensures { OnOk result (Covers cuts.old.items cuts.new.items (is_open self.now)) }
    {
        cuts.extend_from_slice(self.begins.as_slice())?;
        cuts.extend_from_slice(self.ends.as_slice())?;
        Ok(())
    }
}
