//! The channels that documents are in.

ghost use Rattle.std.specs.Prelude.{◌≡◌, ◌≤◌, ◌<◌, ◌+◌, ◌-◌, length, slice_get};
ghost use Rattle.sg_history.specs.History.{as_sync, as_write, past};
ghost use Rattle.log_index.specs.Marks as marks;
ghost use Rattle.channel_cache.specs.inner.Moves.{channels_at};
ghost use Rattle.channel_cache.specs.inner.Read.{channels_marked, channels_written, marked_channels, written_channels};
ghost use Rattle.channel_cache.specs.Stands.{IndexesTo};

use log_index::{LogIndex, Marked, laws, mark_in};
use sg_history::{ChannelName, Entry, LogReads};

/// The channels that a write recorded, none where the entry is no write.
fn of_write(entry: &Entry) -> &[ChannelName]
    ensures { result.now ≡ written_channels (as_write entry.now) }
{
    match entry.as_write() {
        None => &[],
        Some(write) => write.channels.as_slice(),
    }
}

/// The channels of the mark at a place of an entry, none where it has none there.
fn of_mark(entry: &Entry, place: u64) -> &[ChannelName]
    ensures { result.now ≡ marked_channels (marks.mark_in_place (as_sync entry.now) place) }
{
    match mark_in(entry, place) {
        None => &[],
        Some(mark) => mark.channels.as_slice(),
    }
}

/// The channels that the write of a sequence recorded, read from the log.
fn read_write<'a>(log: &mut LogReads<'a>, write: u64) -> &'a [ChannelName]
    requires low { 0 < write }
    requires high { write ≤ length log.old.entries }
    ensures channels { result.now ≡ channels_written (slice_get log.old.entries (write - 1)) }
    ensures log { log.new.entries ≡ log.old.entries }
    ensures reads { log.new.reads ≤ log.old.reads + 1 }
{
    of_write(log.entry(write))
}

/// The channels of a mark, read from the log.
fn read_mark<'a>(log: &mut LogReads<'a>, marked: Marked) -> &'a [ChannelName]
    requires low { 0 < marked.sync }
    requires high { marked.sync ≤ length log.old.entries }
    ensures channels { result.now
        ≡ channels_marked (slice_get log.old.entries (marked.sync - 1)) marked.mark }
    ensures log { log.new.entries ≡ log.old.entries }
    ensures reads { log.new.reads ≤ log.old.reads + 1 }
{
    of_mark(log.entry(marked.sync), marked.mark)
}

/// The channels of the revision that the entry of a sequence writes, after the entries up to a place. It reads the
/// log once.
pub fn channels_of<'a>(
    index: &LogIndex,
    log: &mut LogReads<'a>,
    write: u64,
    up_to: u64,
) -> &'a [ChannelName]
    requires low { 0 < write }
    requires high { write ≤ up_to }
    requires index { IndexesTo index.now log.old.entries up_to }
    ensures channels { result.now ≡ channels_at (past log.old.entries up_to) write }
    ensures log { log.new.entries ≡ log.old.entries }
    ensures reads { log.new.reads ≤ log.old.reads + 1 }
{
    laws::marks();
    match index.marked(write, up_to) {
        None => read_write(log, write),
        Some(marked) => read_mark(log, marked),
    }
}
