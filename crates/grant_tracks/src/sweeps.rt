//! The spells in which a user has a channel.

ghost use Rattle.std.specs.Prelude.{◌≡◌, ◌≤◌, ℕ, max, IfOk};
ghost use Rattle.grant_tracks.specs.inner.Cuts.{IsSteady, Rise};
ghost use Rattle.grant_tracks.specs.Spells.{AreApart, Stays, Swept, spells_have};
ghost use Rattle.grant_tracks.specs.Ways.{ways_have};

use crate::spells::{Spell, Sweep};
use crate::ways::Ways;
use sg_outside::Memory;
use std::alloc::Global;

/// The places at which it may change whether a user has a channel in any of these ways, by rising
/// places.
fn cuts_of(alloc: Global, ways: &Ways<'_>) -> Result<Vec<u64>, Memory>
    ensures steady { IfOk result (λ cuts. IsSteady cuts.items (ways_have ways.now)) }
    ensures rise { IfOk result (λ cuts. Rise cuts.items) }
{
    let mut cuts = Vec::new(alloc);
    ways.add_cuts(&mut cuts)?;
    cuts.sort_unstable();
    Ok(cuts)
}

/// Goes on to a place, unless it is there, and answers where it is then.
fn sweep_to(sweep: &mut Sweep, at: u64, k: u64, ways: &Ways<'_>) -> Result<u64, Memory>
    ensures swept { IfOk result (λ now. Swept sweep.old (ways_have ways.now) at
        → Stays (ways_have ways.now) at k
        → Swept sweep.new (ways_have ways.now) now) }
    ensures place { IfOk result (λ now. now ≡ max at k) }
{
    if k <= at {
        return Ok(at);
    }
    sweep.turn(k, ways.has(k))?;
    Ok(k)
}

/// The spells in which a user has a channel in any of these ways, of which these places have each at
/// which that may change.
fn spells_by(alloc: Global, cuts: &[u64], ways: &Ways<'_>) -> Result<Vec<Spell>, Memory>
    requires steady { IsSteady cuts.now (ways_have ways.now) }
    requires rise { Rise cuts.now }
    ensures apart { IfOk result (λ list. AreApart list.items) }
    ensures says { IfOk result (λ list. (k : ℕ)
        → spells_have list.items k ≡ ways_have ways.now k) }
{
    let mut sweep = Sweep::new(alloc, ways.has(0));
    let mut at = 0;
    for k in cuts {
        at = sweep_to(&mut sweep, at, *k, ways)?;
    }
    sweep.finish()
}

/// The spells in which a user has a channel in any of these ways. These are asked together at each
/// place at which the answer may change.
pub fn spells_of(alloc: Global, ways: &Ways<'_>) -> Result<Vec<Spell>, Memory>
    ensures apart { IfOk result (λ list. AreApart list.items) }
    ensures says { IfOk result (λ list. (k : ℕ)
        → spells_have list.items k ≡ ways_have ways.now k) }
{
    let cuts = cuts_of(alloc, ways)?;
    spells_by(alloc, cuts.as_slice(), ways)
}
