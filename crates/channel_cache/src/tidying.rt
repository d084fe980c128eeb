//! A sequence enters lists, of which those that have grown are gone over.

ghost use Rattle.std.specs.Prelude.{◌≡◌, ◌∷◌, map, OnOk};
ghost use Rattle.std.specs.Str.{bytes_eq};
ghost use Rattle.sg_history.specs.History.{among};
ghost use Rattle.sg_history.specs.View.{every};
ghost use Rattle.channel_cache.specs.inner.Counting.{counts_at};
ghost use Rattle.channel_cache.specs.inner.Moves.{entered_by, move_in};
ghost use Rattle.channel_cache.specs.Sequences.{Counted, entered};

use crate::kept::Kept;
use crate::moved::Moved;
use log_index::LogIndex;
use sg_history::ChannelName;
use sg_outside::Memory;

/// A sequence enters the list of a channel, where there is one.
fn enter(
    lists: &mut Kept,
    index: &LogIndex,
    channel: &str,
    seq: u64,
    place: u64,
) -> Result<(), Memory>
    ensures cap { lists.new.cap ≡ lists.old.cap }
    ensures ok { OnOk result (Counted (counts_at index.now place) lists.old.entries
        lists.new.entries (entered (bytes_eq channel.now) seq)) }
{
    match lists.peek_mut(channel) {
        None => Ok(()),
        Some(list) => list.enter_and_tidy(index, seq, place),
    }
}

/// It enters those of each of these channels.
fn enter_each(
    lists: &mut Kept,
    index: &LogIndex,
    channels: &[ChannelName],
    seq: u64,
    place: u64,
) -> Result<(), Memory>
    ensures cap { lists.new.cap ≡ lists.old.cap }
    ensures ok { OnOk result (Counted (counts_at index.now place) lists.old.entries
        lists.new.entries (entered (among channels.now) seq)) }
{
    for channel in channels {
        enter(lists, index, channel.as_str(), seq, place)?;
    }
    Ok(())
}

/// It enters those of each of these channels and of `*`.
pub fn enter_all(
    lists: &mut Kept,
    index: &LogIndex,
    channels: &[ChannelName],
    seq: u64,
    place: u64,
) -> Result<(), Memory>
    ensures cap { lists.new.cap ≡ lists.old.cap }
    ensures ok { OnOk result (Counted (counts_at index.now place) lists.old.entries
        lists.new.entries (entered (among (every ∷ channels.now)) seq)) }
{
    enter(lists, index, "*", seq, place)?;
    enter_each(lists, index, channels, seq, place)
}

/// Documents enter the lists of the channels that they are in.
pub fn enter_moved(
    lists: &mut Kept,
    index: &LogIndex,
    moved: &[Moved<'_>],
    place: u64,
) -> Result<(), Memory>
    ensures cap { lists.new.cap ≡ lists.old.cap }
    ensures ok { OnOk result (Counted (counts_at index.now place) lists.old.entries
        lists.new.entries (entered_by (map move_in moved.now))) }
{
    for one in moved {
        enter_each(lists, index, one.after, one.last, place)?;
    }
    Ok(())
}
