//! What the users, or the roles, have or had, by their names.

ghost use Rattle.std.specs.Prelude.{◌≡◌, ◌<◌, ◌≤◌, [], None, IfOk, OnOk, OnErr};
ghost use Rattle.std.specs.BTreeMap.{get_by_text};
ghost use Rattle.grant_tracks.specs.Dated.{Dated};
ghost use Rattle.grant_tracks.specs.Holdings.{count_in, held_in, AreUpTo, one_more, count_of, held_of, AreAllUpTo, more_of, less_of};

use crate::by_name;
use crate::held::Holding;
use crate::things::What;
use sg_outside::Memory;
use std::alloc::Global;
use std::collections::BTreeMap;

/// What each has or had, by its name.
pub type Holders = BTreeMap<String, Holding>;

/// Whether the holder of a name has something at a place.
pub fn holds(holders: &Holders, name: &str, what: &What, k: u64) -> bool
    ensures { result ≡ held_of holders.now (name.now, what.now) k }
{
    match holders.get(name) {
        None => false,
        Some(holding) => holding.holds(what, k),
    }
}

/// One source more gives it to the holder of a name from a place of the log on. Answers where it
/// stands among all that the holder has or had.
pub fn give(
    alloc: Global,
    holders: &mut Holders,
    name: &str,
    what: &What,
    at: u64,
) -> Result<usize, Memory>
    requires { AreAllUpTo holders.old at }
    ensures ok { OnOk result (Dated count_of held_of AreAllUpTo holders.old holders.new at
        (more_of (count_of holders.old) name.now what.now)) }
    ensures err { OnErr result (Dated count_of held_of AreAllUpTo holders.old holders.new at
        (count_of holders.old)) }
{
    if let Some(holding) = holders.get_mut(name) {
        return holding.give(alloc, what, at);
    }
    add(alloc, holders, name, what, at)
}

/// What a holder has of which one source gives one thing from a place of the log on.
fn begun(alloc: Global, what: &What, at: u64) -> Result<Holding, Memory>
    ensures dated { IfOk result (λ holding. Dated count_in held_in AreUpTo [] holding.items at
        (one_more (count_in []) what.now)) }
    ensures since { IfOk result (λ holding. holding.since ≤ at) }
    ensures changed { IfOk result (λ holding. holding.changed ≡ at) }
{
    let mut holding = Holding::new(alloc);
    holding.give(alloc, what, at)?;
    Ok(holding)
}

/// The same where nothing is kept of the name: it stands at 0.
fn add(
    alloc: Global,
    holders: &mut Holders,
    name: &str,
    what: &What,
    at: u64,
) -> Result<usize, Memory>
    requires { get_by_text holders.old name.now ≡ None }
    ensures ok { OnOk result (Dated count_of held_of AreAllUpTo holders.old holders.new at
        (more_of (count_of holders.old) name.now what.now)) }
    ensures err { OnErr result (Dated count_of held_of AreAllUpTo holders.old holders.new at
        (count_of holders.old)) }
{
    let holding = begun(alloc, what, at)?;
    by_name::put(alloc, holders, name, holding)?;
    Ok(0)
}

/// One source that gave it to the holder of a name does not from a place of the log on. It is looked
/// for at `near` first.
pub fn take(alloc: Global, holders: &mut Holders, name: &str, what: &What, near: usize, at: u64)
    requires given { 0 < count_of holders.old (name.now, what.now) }
    requires up_to { AreAllUpTo holders.old at }
    ensures { Dated count_of held_of AreAllUpTo holders.old holders.new at
        (less_of (count_of holders.old) name.now what.now) }
{
    if let Some(holding) = holders.get_mut(name) {
        holding.take(alloc, what, near, at);
    }
}
