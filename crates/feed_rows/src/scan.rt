//! The rows of a feed.

ghost use Rattle.std.specs.Prelude.{◌≡◌, ◌≤◌, ℕ, List, length, reverse, IfOk, IsTrue};
ghost use Rattle.sg_history.specs.declared.entries.Entry.{Entry};
ghost use Rattle.sg_history.specs.History.{entries_of, past};
ghost use Rattle.sg_history.specs.Principals.{has_channel};
ghost use Rattle.sg_history.specs.Device.{plain};
ghost use Rattle.sg_history.specs.Feed as feed;
ghost use Rattle.grant_history.specs.Periods.{AreInOrder, ArePeriods};
ghost use Rattle.grant_history.specs.NewStates.{AreNewStates};
ghost use Rattle.feed_rows.specs.Laws.{IsBelow};
ghost use Rattle.feed_rows.specs.PassAt.{IsViewer};

use crate::asked::rows_of_pass;
use crate::laws;
use crate::shown::Viewer;
use grant_history::{NewStates, Period, new_states, periods_by};
use log_views::Filter;
use sg_history::{Entry, Key, Log, Name, Options, Rows};
use std::alloc::{AllocError, Global};
use std::cmp::Ordering;

/// A user with a filter, by the periods of the user's channels up to a place at the front or behind it. Allocates
/// nothing.
pub fn viewer_of<'a>(user: &'a Name, filter: &'a Filter<'a>, periods: &'a [Period]) -> Viewer<'a>
    ensures user { result.user.now ≡ user.now }
    ensures filter { result.filter.now ≡ filter.now }
    ensures viewer { (entries : List Entry) (front last : ℕ) → front ≤ length entries → front ≤ last
        → ArePeriods periods.now (λ c k. has_channel (past entries k) user.now c) last
        → AreInOrder periods.now → IsViewer result (past entries front) }
{
    Viewer {
        user,
        filter,
        periods,
    }
}

/// The rows of a user's changes feed at the end of some entries, given the new states from them on.
fn rows_of(
    alloc: Global,
    entries: &[Entry],
    states: &NewStates,
    user: &Name,
    filter: &Filter<'_>,
    since: &Key,
    options: &Options,
) -> Result<Rows, AllocError>
    requires states { AreNewStates entries.now states.now (length entries.now) }
    requires filter { options.now.filter ≡ filter.now }
    ensures { IfOk result (λ rows. rows ≡ feed.feed
        (reverse entries.now) user.now since.now options.now) }
{
    let periods = periods_by(alloc, entries, states, user)?;
    let viewer = viewer_of(user, filter, periods.as_slice());
    let rows = rows_of_pass(alloc, &viewer, entries, states, since, options);
    drop(periods);
    rows
}

/// Whether a since key is at a front or past it, where there are no rows yet.
fn is_past(since: &Key, front: u64) -> bool
    ensures { IsTrue result → ¬ (IsBelow since.now (plain front)) }
{
    since.order(&Key {
        by: front,
        seq: front,
    }) != Ordering::Less
}

/// The rows of a user's changes feed over the first `front` entries of a log, after a since key, in rising
/// order of their keys. Where the key is at the front or past it, it reads none of them.
pub fn rows(
    alloc: Global,
    log: &Log,
    front: u64,
    user: &Name,
    since: &Key,
    options: &Options,
) -> Result<Rows, AllocError>
    requires { front ≤ length (entries_of log.now) }
    ensures { IfOk result (λ rows. rows ≡ feed.feed
        (past (entries_of log.now) front) user.now since.now options.now) }
{
    laws::order();
    if is_past(since, front) {
        return Ok(Rows::new(alloc));
    }
    let entries = &log.entries.as_slice()[..front as usize];
    let states = new_states(alloc, entries)?;
    let filter = Filter::new(alloc, &options.filter)?;
    rows_of(alloc, entries, &states, user, &filter, since, options)
}
