//! The ways in which a user has one channel: by itself and by its roles. Each name is looked up
//! once, and the places are then asked of what was found.

ghost use Rattle.std.specs.Prelude.{◌≡◌, ◌&&◌, ℕ, OnOk};
ghost use Rattle.std.specs.Str.{bytes_eq};
ghost use Rattle.sg_history.specs.Principals.{everyone};
ghost use Rattle.grant_tracks.specs.inner.Cuts.{Covers};
ghost use Rattle.grant_tracks.specs.Events.{is_open};
ghost use Rattle.grant_tracks.specs.Reads.{has_by};
ghost use Rattle.grant_tracks.specs.Tracks.{held_at};
ghost use Rattle.grant_tracks.specs.Ways.{gifts_open, is_within, track_has, ways_have};

use crate::events::Events;
use crate::held::Holding;
use crate::track::Track;
use sg_history::ChannelName;
use sg_outside::Memory;

/// When one user or role exists, and when it holds one channel, where it ever did.
#[derive(Clone, Copy)]
pub struct ChannelTracks<'a> {
    pub exists: Option<&'a Track>,
    pub channel: Option<&'a Track>,
}

/// All ways in which a user has one channel, or has it by one role: only while it has the role.
#[derive(Clone, Copy)]
pub struct Ways<'a> {
    pub within: Option<&'a Track>,
    pub own: ChannelTracks<'a>,
    pub gifts: Option<&'a Events>,
    pub is_everyone: bool,
}

/// Whether something is held at a place.
fn holds(track: Option<&Track>, k: u64) -> bool
    ensures { result ≡ track_has track.entry k }
{
    match track {
        None => false,
        Some(track) => track.holds(k),
    }
}

/// The same, where what has no track is always held.
fn is_held(within: Option<&Track>, k: u64) -> bool
    ensures { result ≡ is_within within.entry k }
{
    match within {
        None => true,
        Some(track) => track.holds(k),
    }
}

/// Whether a role gives the channel at a place.
fn is_given(gifts: Option<&Events>, k: u64) -> bool
    ensures { result ≡ gifts_open gifts.entry k }
{
    match gifts {
        None => false,
        Some(events) => events.has(k),
    }
}

/// Adds the places at which it may change whether something is held.
fn add_track(cuts: &mut Vec<u64>, track: Option<&Track>) -> Result<(), Memory>
    ensures held { OnOk result (Covers cuts.old.items cuts.new.items (track_has track.entry)) }
    ensures within { OnOk result (Covers cuts.old.items cuts.new.items (is_within track.entry)) }
{
    match track {
        None => Ok(()),
        Some(track) => track.add_cuts(cuts),
    }
}

/// The same, whether a role gives the channel.
fn add_gifts(cuts: &mut Vec<u64>, gifts: Option<&Events>) -> Result<(), Memory>
    ensures { OnOk result (Covers cuts.old.items cuts.new.items (gifts_open gifts.entry)) }
{
    match gifts {
        None => Ok(()),
        Some(events) => events.add_cuts(cuts),
    }
}

fn is_everyone(channel: &ChannelName) -> bool
    ensures { result ≡ bytes_eq everyone channel.now }
{
    b"!".as_slice() == channel.as_bytes()
}

/// The ways in which a user that has or had these things has a channel, by when its roles give it.
pub fn ways_of<'a>(all: &'a Holding, gifts: &'a Events, channel: &ChannelName) -> Ways<'a>
    ensures { (k : ℕ) → ways_have result k
        ≡ has_by all.now.items channel.now k (is_open gifts.now k) }
{
    Ways {
        within: None,
        own: all.tracks_of(channel),
        gifts: Some(gifts),
        is_everyone: is_everyone(channel),
    }
}

/// The way in which a user has a channel by a role, given when it has the role.
pub fn way_by<'a>(held: &'a Track, by: ChannelTracks<'a>) -> Ways<'a>
    ensures { (k : ℕ) → ways_have result k
        ≡ (held_at held.now k && (track_has by.entry.exists k && track_has by.entry.channel k)) }
{
    Ways {
        within: Some(held),
        own: by,
        gifts: None,
        is_everyone: false,
    }
}

impl<'a> Ways<'a> {
    /// Whether the user has the channel at a place. Allocates nothing.
    pub(crate) fn has(&self, k: u64) -> bool
        ensures { result ≡ ways_have self.now k }
    {
        is_held(self.within, k)
            && holds(self.own.exists, k)
            && (is_given(self.gifts, k) || holds(self.own.channel, k) || self.is_everyone)
    }

    /// Adds the places at which that may change.
    pub(crate) fn add_cuts(&self, cuts: &mut Vec<u64>) -> Result<(), Memory>
        ensures { OnOk result (Covers cuts.old.items cuts.new.items (ways_have self.now)) }
    {
        add_track(cuts, self.within)?;
        add_track(cuts, self.own.exists)?;
        add_track(cuts, self.own.channel)?;
        add_gifts(cuts, self.gifts)
    }
}
