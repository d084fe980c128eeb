//! The periods in which a user has channels.

ghost use Rattle.std.specs.Prelude.{◌≡◌, ◌++◌, [], ℕ, List, map, IfOk, OnOk};
ghost use Rattle.std.specs.BTreeMap.{get_by_text};
ghost use Rattle.sg_history.specs.Principals as principals;
ghost use Rattle.sg_history.specs.History.{among};
ghost use Rattle.log_views.specs.Sorted.{AreSorted};
ghost use Rattle.grant_history.specs.Periods.{period_of, names_of, may_have, Adds, AreAllPeriods, AreSoFar};
ghost use Rattle.grant_history.specs.inner.Gifts.{has_at_by};
ghost use Rattle.grant_tracks.specs.Reads.{list_channel, user_channel};
ghost use Rattle.grant_tracks.specs.Spells.{AreApart, spells_have};

use crate::channels::channels_ever;
use crate::gifts::{Gifts, events_in, gifts_of};
use crate::givers::givers_of;
use grant_tracks::{Holders, Holding, Spell, everyone, spells_of, ways_of};
use sg_history::{ChannelName, Name};
use sg_outside::Memory;
use std::alloc::Global;

/// A user has a channel from one entry on, up to before another or still.
#[derive(Drop)]
pub struct Period {
    pub channel: ChannelName,
    pub from: u64,
    pub to: Option<u64>,
}

/// The spells in which a user that has or had these things has a channel, by what its roles give.
fn spells_with(
    alloc: Global,
    all: &Holding,
    gifts: &Gifts,
    channel: &ChannelName,
) -> Result<Vec<Spell>, Memory>
    ensures apart { IfOk result (λ list. AreApart list.items) }
    ensures says { IfOk result (λ list. (k : ℕ)
        → spells_have list.items k ≡ has_at_by gifts.now all.now.items channel.now k) }
{
    let events = events_in(alloc, gifts, channel)?;
    let ways = ways_of(all, &events, channel);
    spells_of(alloc, &ways)
}

/// A spell of a channel as a period.
fn make_period(alloc: Global, channel: &ChannelName, spell: &Spell) -> Result<Period, Memory>
    ensures { IfOk result (λ period. period ≡ period_of channel.now spell.now) }
{
    let channel = channel.copy(alloc)?;
    Ok(Period {
        channel,
        from: spell.from,
        to: spell.to,
    })
}

/// Puts the spells of a channel behind the periods.
fn add_spells(
    alloc: Global,
    periods: &mut Vec<Period>,
    channel: &ChannelName,
    spells: &[Spell],
) -> Result<(), Memory>
    ensures { OnOk result (periods.new.items
        ≡ periods.old.items ++ map (period_of channel.now) spells.now) }
{
    for spell in spells {
        periods.push(make_period(alloc, channel, spell)?)?;
    }
    Ok(())
}

/// Puts the periods of a channel behind the others.
fn add_channel(
    alloc: Global,
    periods: &mut Vec<Period>,
    all: &Holding,
    gifts: &Gifts,
    channel: &ChannelName,
) -> Result<(), Memory>
    ensures { OnOk result (Adds periods.old.items periods.new.items channel.now
        (has_at_by gifts.now all.now.items channel.now)) }
{
    let spells = spells_with(alloc, all, gifts, channel)?;
    add_spells(alloc, periods, channel, spells.as_slice())
}

/// Puts the periods of these channels behind none.
fn add_periods(
    alloc: Global,
    periods: &mut Vec<Period>,
    all: &Holding,
    gifts: &Gifts,
    channels: &[&ChannelName],
) -> Result<(), Memory>
    requires sorted { AreSorted (names_of channels.now) }
    requires none { periods.old.items ≡ [] }
    ensures { OnOk result (AreSoFar (names_of channels.now) periods.new.items
        (has_at_by gifts.now all.now.items)) }
{
    for channel in channels {
        add_channel(alloc, periods, all, gifts, channel)?;
    }
    Ok(())
}

/// The periods of these channels.
fn periods_for(
    alloc: Global,
    all: &Holding,
    gifts: &Gifts,
    channels: &[&ChannelName],
) -> Result<Vec<Period>, Memory>
    requires { AreSorted (names_of channels.now) }
    ensures { IfOk result (λ list. AreSoFar (names_of channels.now) list.items
        (has_at_by gifts.now all.now.items)) }
{
    // most channels have one period
    let room = channels.len().saturating_add(channels.len() / 4);
    let mut periods = Vec::with_capacity(alloc, room)?;
    add_periods(alloc, &mut periods, all, gifts, channels)?;
    Ok(periods)
}

/// The periods of a user that has or had these, given the channels that it may ever have had.
fn periods_among(
    alloc: Global,
    roles: &Holders,
    all: &Holding,
    channels: &[&ChannelName],
) -> Result<Vec<Period>, Memory>
    requires sorted { AreSorted (names_of channels.now) }
    requires among { (x : List ℕ) → among (names_of channels.now) x
        ≡ may_have roles.now all.now.items x }
    ensures { IfOk result (λ list. AreAllPeriods list.items
        (λ c k. list_channel roles.now all.now.items k c)) }
{
    let givers = givers_of(alloc, roles, all.all())?;
    let gifts = gifts_of(alloc, givers.as_slice())?;
    periods_for(alloc, all, &gifts, channels)
}

/// The periods of a user that has or had these, given the channel that every user has.
fn periods_with(
    alloc: Global,
    roles: &Holders,
    all: &Holding,
    everyone: &ChannelName,
) -> Result<Vec<Period>, Memory>
    requires { everyone.now ≡ principals.everyone }
    ensures { IfOk result (λ list. AreAllPeriods list.items
        (λ c k. list_channel roles.now all.now.items k c)) }
{
    let channels = channels_ever(alloc, roles, all.all(), everyone)?;
    periods_among(alloc, roles, all, channels.as_slice())
}

/// The periods of a user that has or had these.
fn periods_in(alloc: Global, roles: &Holders, all: &Holding) -> Result<Vec<Period>, Memory>
    ensures { IfOk result (λ list. AreAllPeriods list.items
        (λ c k. list_channel roles.now all.now.items k c)) }
{
    let everyone = everyone(alloc)?;
    periods_with(alloc, roles, all, &everyone)
}

/// The periods in which a user has channels.
pub fn periods_of(
    alloc: Global,
    users: &Holders,
    roles: &Holders,
    user: &Name,
) -> Result<Vec<Period>, Memory>
    ensures { IfOk result (λ list. AreAllPeriods list.items
        (λ c k. user_channel roles.now (get_by_text users.now user.now) k c)) }
{
    match users.get(user.as_str()) {
        None => Ok(Vec::new(alloc)),
        Some(all) => periods_in(alloc, roles, all),
    }
}
