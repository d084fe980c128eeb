//! Whether a user has a channel at a place, and since when, by the periods of the user's channels.

ghost use Rattle.std.specs.Prelude.{◌≡◌, ◌≤◌, ◌<◌, ℕ, Bool, true, false, not, length, slice_index_or, unwrap_or};
ghost use Rattle.grant_history.specs.Periods.{AreInOrder, periods_have};
ghost use Rattle.grant_tracks.specs.Spells.{ends_after};
ghost use Rattle.feed_rows.specs.Lasting.{AreToSearch, Lasts};
ghost use Rattle.feed_rows.specs.Lasting as lasting;

use grant_history::Period;
use std::cmp::Ordering;

/// Whether something holds at a place, and since which place that is the same.
#[derive(Clone, Copy)]
pub struct Lasting {
    pub holds: bool,
    pub since: u64,
}

/// Whether a period is of a channel before this one, by bytes, or is of it and begins at a place or before.
fn is_begun(period: &Period, channel: &str, k: u64) -> bool
    ensures { result ≡ lasting.is_begun channel.now k period.now }
{
    match period.channel.as_bytes().cmp(channel.as_bytes()) {
        Ordering::Less => true,
        Ordering::Equal => period.from <= k,
        Ordering::Greater => false,
    }
}

/// How many of these periods are of a channel before this one, or are of it and begin at a place or
/// before.
fn begun(periods: &[Period], channel: &str, k: u64) -> usize
    requires { AreInOrder periods.now }
    ensures within { result ≤ length periods.now }
    ensures before { (i : ℕ) (d : Period) → i < result
        → lasting.is_begun channel.now k (slice_index_or periods.now i d) ≡ true }
    ensures after { (i : ℕ) (d : Period) → result ≤ i → i < length periods.now
        → lasting.is_begun channel.now k (slice_index_or periods.now i d) ≡ false }
{
    periods.partition_point(|p| is_begun(p, channel, k))
}

fn has_ended(period: &Period, k: u64) -> bool
    ensures { result ≡ not (ends_after period.now.to k) }
{
    match period.to {
        None => false,
        Some(to) => to <= k,
    }
}

fn end_or(period: &Period, k: u64) -> u64
    ensures { result ≡ unwrap_or period.now.to k }
{
    match period.to {
        None => k,
        Some(to) => to,
    }
}

/// Whether the last period that has begun has a place.
fn lasting_by(last: &Period, k: u64) -> Lasting
    requires began { last.now.from ≤ k }
    requires has_places { ends_after last.now.to last.now.from ≡ true }
    ensures { (test : ℕ → Bool) → ((j : ℕ) → last.now.from ≤ j → j ≤ k
        → test j ≡ ends_after last.now.to j) → Lasts test k result }
{
    if has_ended(last, k) {
        return Lasting {
            holds: false,
            since: end_or(last, k),
        };
    }
    Lasting {
        holds: true,
        since: last.from,
    }
}

/// Whether the user has a channel at a place.
pub fn channel_lasting(periods: &[Period], channel: &str, k: u64) -> Lasting
    requires { AreToSearch periods.now }
    ensures { Lasts (λ j. periods_have periods.now channel.now j) k result }
{
    let begun = begun(periods, channel, k);
    if begun == 0 {
        return Lasting {
            holds: false,
            since: 0,
        };
    }
    let last = &periods[begun - 1];
    if last.channel.as_bytes() != channel.as_bytes() {
        return Lasting {
            holds: false,
            since: 0,
        };
    }
    lasting_by(last, k)
}
