//! The lists of channels, by their names.

ghost use Rattle.std.specs.Prelude.{◌≡◌, ◌≤◌, ◌<◌, ◌∷◌, ◌&&◌, length, not, map, OnOk};
ghost use Rattle.std.specs.Str.{bytes_eq};
ghost use Rattle.sg_history.specs.History.{among};
ghost use Rattle.sg_history.specs.View.{every};
ghost use Rattle.channel_cache.specs.inner.Asking.{Apart, names_of};
ghost use Rattle.channel_cache.specs.Sequences.{Changed, entered, left};
ghost use Rattle.channel_cache.specs.inner.Moves.{left_by, move_in};

use crate::moved::Moved;
use crate::sequences::Sequences;
use lru::LruCache;
use sg_history::ChannelName;
use sg_outside::Memory;

/// The lists of channels, that of the channel asked for last first.
pub type Kept = LruCache<String, Sequences>;

/// How many lists there are. No channel has two.
pub fn count(lists: &Kept) -> usize
    ensures count { result ≡ length lists.now.entries }
    ensures apart { Apart (names_of lists.now.entries) }
    ensures within { length lists.now.entries ≤ lists.now.cap }
    ensures some { 0 < lists.now.cap }
    ensures fits { length lists.now.entries < 9223372036854775808 }
{
    lists.len()
}

/// A sequence enters the list of a channel, where there is one.
fn enter(lists: &mut Kept, channel: &str, seq: u64) -> Result<(), Memory>
    ensures cap { lists.new.cap ≡ lists.old.cap }
    ensures ok { OnOk result (Changed lists.old.entries lists.new.entries
        (entered (bytes_eq channel.now) seq)) }
{
    match lists.peek_mut(channel) {
        None => Ok(()),
        Some(list) => list.enter(seq),
    }
}

/// It enters those of each of these channels.
fn enter_each(lists: &mut Kept, channels: &[ChannelName], seq: u64) -> Result<(), Memory>
    ensures cap { lists.new.cap ≡ lists.old.cap }
    ensures ok { OnOk result (Changed lists.old.entries lists.new.entries
        (entered (among channels.now) seq)) }
{
    for channel in channels {
        enter(lists, channel.as_str(), seq)?;
    }
    Ok(())
}

/// It enters those of each of these channels and of `*`.
pub fn enter_all(lists: &mut Kept, channels: &[ChannelName], seq: u64) -> Result<(), Memory>
    ensures cap { lists.new.cap ≡ lists.old.cap }
    ensures ok { OnOk result (Changed lists.old.entries lists.new.entries
        (entered (among (every ∷ channels.now)) seq)) }
{
    enter(lists, "*", seq)?;
    enter_each(lists, channels, seq)
}

/// A sequence leaves the list of a channel, where there is one.
fn leave(lists: &mut Kept, channel: &str, seq: u64) -> Result<(), Memory>
    ensures cap { lists.new.cap ≡ lists.old.cap }
    ensures ok { OnOk result (Changed lists.old.entries lists.new.entries
        (left (bytes_eq channel.now) seq)) }
{
    match lists.peek_mut(channel) {
        None => Ok(()),
        Some(list) => list.leave(seq),
    }
}

/// Whether this is `*`, the channel that has every document.
fn is_every(channel: &ChannelName) -> bool
    ensures { result ≡ bytes_eq channel.now every }
{
    channel.as_str() == "*"
}

/// It leaves that of a channel other than `*`.
fn leave_named(lists: &mut Kept, channel: &ChannelName, seq: u64) -> Result<(), Memory>
    ensures cap { lists.new.cap ≡ lists.old.cap }
    ensures ok { OnOk result (Changed lists.old.entries lists.new.entries
        (left (λ c. bytes_eq channel.now c && not (bytes_eq every c)) seq)) }
{
    if is_every(channel) {
        return Ok(());
    }
    leave(lists, channel.as_str(), seq)
}

/// It leaves those of each of these channels other than `*`.
fn leave_each(lists: &mut Kept, channels: &[ChannelName], seq: u64) -> Result<(), Memory>
    ensures cap { lists.new.cap ≡ lists.old.cap }
    ensures ok { OnOk result (Changed lists.old.entries lists.new.entries
        (left (λ c. among channels.now c && not (bytes_eq every c)) seq)) }
{
    for channel in channels {
        leave_named(lists, channel, seq)?;
    }
    Ok(())
}

/// Documents leave the lists of the channels that they were in, other than `*`.
pub fn leave_moved(lists: &mut Kept, moved: &[Moved<'_>]) -> Result<(), Memory>
    ensures cap { lists.new.cap ≡ lists.old.cap }
    ensures ok { OnOk result (Changed lists.old.entries lists.new.entries
        (left_by (map move_in moved.now))) }
{
    for one in moved {
        leave_each(lists, one.before, one.last)?;
    }
    Ok(())
}
