//! The channels that a user gained or lost in a segment of the log.

ghost use Rattle.std.specs.Prelude.{◌≡◌, ◌≤◌, ◌<◌, ◌||◌, ◌&&◌, ◌++◌, ◌∷◌, ℕ, Bool, List, true, IfOk, OnOk};
ghost use Rattle.std.specs.List.{list_any};
ghost use Rattle.std.specs.Str.{bytes_eq};
ghost use Rattle.sg_history.specs.declared.entries.Entry.{Entry};
ghost use Rattle.sg_history.specs.History.{among};
ghost use Rattle.log_views.specs.Sorted.{AreSorted};
ghost use Rattle.grant_history.specs.Periods.{ArePeriods};
ghost use Rattle.changes_feed.specs.Switches.{AreSwitches, has_at};
ghost use Rattle.changes_feed.specs.inner.Bounds as bounds;

use grant_history::Period;
use log_views::in_order;
use sg_history::ChannelName;
use sg_outside::Memory;
use std::alloc::Global;

/// Whether a place is one from one to another.
fn is_within(start: u64, front: u64, place: u64) -> bool
    ensures { result ≡ bounds.is_within start front place }
{
    start <= place && place <= front
}

/// Whether a period ends at a place from one to another.
fn ends_within(start: u64, front: u64, end: Option<u64>) -> bool
    ensures { result ≡ bounds.ends_within start front end }
{
    match end {
        None => false,
        Some(place) => is_within(start, front, place),
    }
}

/// Whether a period begins or ends at a place from one to another.
fn is_bound(start: u64, front: u64, period: &Period) -> bool
    ensures { result ≡ bounds.is_bound start front period.now }
{
    is_within(start, front, period.from) || ends_within(start, front, period.to)
}

/// Puts the channel of a period behind others, where it begins or ends at a place from one to another.
fn add_bound(
    alloc: Global,
    channels: &mut Vec<ChannelName>,
    period: &Period,
    start: u64,
    front: u64,
) -> Result<(), Memory>
    ensures { OnOk result ((c : List ℕ) → among channels.new.items c
        ≡ (among channels.old.items c || bounds.is_bound_of start front c period.now)) }
{
    if is_bound(start, front, period) {
        let channel = period.channel.copy(alloc)?;
        channels.push(channel)?;
    }
    Ok(())
}

/// The channels of the periods that begin or end at a place from one to another, some more than once.
fn bounds(
    alloc: Global,
    periods: &[Period],
    start: u64,
    front: u64,
) -> Result<Vec<ChannelName>, Memory>
    ensures { IfOk result (λ channels. (c : List ℕ) → among channels.items c
        ≡ list_any (bounds.is_bound_of start front c) periods.now) }
{
    let mut channels = Vec::new(alloc);
    for period in periods {
        add_bound(alloc, &mut channels, period, start, front)?;
    }
    Ok(channels)
}

/// The channels that a user gained or lost in a segment, by the periods of the user's channels up to a place at the
/// front or behind it.
fn switched(
    alloc: Global,
    periods: &[Period],
    start: u64,
    front: u64,
) -> Result<Vec<ChannelName>, Memory>
    ensures { IfOk result (λ channels. (entries : List Entry) (user : List ℕ) (last : ℕ)
        → front ≤ last → ArePeriods periods.now (has_at entries user) last
        → AreSwitches channels.items entries user start front) }
{
    if start <= 1 {
        return Ok(Vec::new(alloc));
    }
    let found = bounds(alloc, periods, start, front)?;
    Ok(in_order(found))
}

/// The same, given a place from which on the user has the same channels.
pub fn switched_since(
    alloc: Global,
    periods: &[Period],
    changed: u64,
    start: u64,
    front: u64,
) -> Result<Vec<ChannelName>, Memory>
    ensures { IfOk result (λ channels. (entries : List Entry) (user : List ℕ) (last : ℕ)
        → front ≤ last → ArePeriods periods.now (has_at entries user) last
        → (steady : ℕ) → front ≤ steady → bounds.IsSteady entries user changed steady
        → AreSwitches channels.items entries user start front) }
{
    if changed < start {
        return Ok(Vec::new(alloc));
    }
    switched(alloc, periods, start, front)
}
