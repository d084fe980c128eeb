//! When a document is shown to a user.

ghost use Rattle.std.specs.Prelude.{◌≡◌, ◌||◌, ◌∷◌, ℕ, Bool, false};
ghost use Rattle.std.specs.List.{list_any};
ghost use Rattle.sg_history.specs.View as view;
ghost use Rattle.grant_history.specs.Periods.{periods_have};
ghost use Rattle.feed_rows.specs.Lasting.{AreToSearch, Lasts};
ghost use Rattle.feed_rows.specs.inner.Shown as shown;
ghost use Rattle.feed_rows.specs.inner.Shown.{IsLastSwitch};

use crate::lasting::{Lasting, channel_lasting};
use grant_history::Period;
use log_views::Filter;
use sg_history::{ChannelName, Channels, Name};

/// A user, with the filter and the periods in which the user has channels.
#[derive(Clone, Copy)]
pub struct Viewer<'a> {
    pub user: &'a Name,
    pub filter: &'a Filter<'a>,
    pub periods: &'a [Period],
}

/// The last place at which it changed whether a document is shown, and whether it is shown from then on.
#[derive(Clone, Copy)]
pub struct Switch {
    pub by: u64,
    pub is_shown: bool,
}

/// Whether one of two tests holds at a place, the first of which does not.
fn either(first: Lasting, second: Lasting) -> Lasting
    requires { first.holds ≡ false }
    ensures { (p q : ℕ → Bool) (k : ℕ) → Lasts p k first → Lasts q k second
        → Lasts (λ j. p j || q j) k result }
{
    if second.holds || first.since <= second.since {
        return second;
    }
    first
}

/// Whether the user has one of these channels at a place.
fn lasting_of(periods: &[Period], channels: &[ChannelName], k: u64) -> Lasting
    requires { AreToSearch periods.now }
    ensures { Lasts (λ j. list_any (λ c. periods_have periods.now c j) channels.now) k result }
{
    let mut none = Lasting {
        holds: false,
        since: 0,
    };
    for channel in channels {
        let one = channel_lasting(periods, channel.as_str(), k);
        if one.holds {
            return one;
        }
        none = either(none, one);
    }
    none
}

/// Whether the user has `*` or one of these channels at a place.
fn lasting_of_every(periods: &[Period], channels: &[ChannelName], k: u64) -> Lasting
    requires { AreToSearch periods.now }
    ensures { Lasts (λ j. list_any (λ c. periods_have periods.now c j) (view.every ∷ channels.now))
        k result }
{
    let every = channel_lasting(periods, "*", k);
    if every.holds {
        return every;
    }
    either(every, lasting_of(periods, channels, k))
}

/// Whether a document in these channels is shown at a place.
pub fn lasting_shown(viewer: &Viewer<'_>, channels: &Channels, k: u64) -> Lasting
    requires { AreToSearch viewer.now.periods.now }
    ensures { Lasts (shown.is_shown viewer.now.periods.now viewer.now.filter.now channels.now)
        k result }
{
    let channels = channels.as_slice();
    if !viewer.filter.passes(channels) {
        return Lasting {
            holds: false,
            since: 0,
        };
    }
    lasting_of_every(viewer.periods, channels, k)
}

/// The last place after one, up to another, at which it changed whether a document in these channels is shown.
pub fn last_switch(viewer: &Viewer<'_>, channels: &Channels, from: u64, to: u64) -> Option<Switch>
    requires { AreToSearch viewer.now.periods.now }
    ensures { IsLastSwitch (shown.is_shown viewer.now.periods.now viewer.now.filter.now
        channels.now) from to result }
{
    let now = lasting_shown(viewer, channels, to);
    let mut since = now.since;
    while since > from {
        let before = lasting_shown(viewer, channels, since - 1);
        if before.holds != now.holds {
            return Some(Switch {
                by: since,
                is_shown: now.holds,
            });
        }
        since = before.since;
    }
    None
}
