//! Lists are brought forward over entries.

ghost use Rattle.std.specs.Prelude.{◌≡◌, ◌≤◌, ◌<◌, ◌+◌, ◌-◌, None, Some, length, option_map, OnOk};
ghost use Rattle.sg_history.specs.CountedLog.{marks_between};
ghost use Rattle.log_index.specs.Places.{after_at};
ghost use Rattle.channel_cache.specs.inner.Forward.{IsForward, replaced_at};
ghost use Rattle.channel_cache.specs.Reads.{passed};
ghost use Rattle.channel_cache.specs.Stands.{IndexesTo};

use crate::channels::channels_of;
use crate::kept::{Kept, leave_moved};
use crate::moved::moved_by_all;
use crate::tidying::{enter_all, enter_moved};
use log_index::LogIndex;
use sg_history::{LogReads, Mark, laws};
use sg_outside::Memory;
use std::alloc::Global;

/// Lists are brought forward over the write at the next place, by the sequence of its document's winner.
fn take_write(
    lists: &mut Kept,
    index: &LogIndex,
    log: &mut LogReads<'_>,
    winning: u64,
    at: u64,
) -> Result<(), Memory>
    requires low { 0 < at }
    requires index { IndexesTo index.now log.old.entries at }
    requires winning { option_map (λ d. d.winning) (after_at index.now at) ≡ Some winning }
    ensures ok { OnOk result (IsForward log.old.entries (at - 1) at
        lists.old.entries lists.new.entries) }
    ensures cap { lists.new.cap ≡ lists.old.cap }
    ensures log { log.new.entries ≡ log.old.entries }
    ensures reads { log.new.reads ≤ log.old.reads + 1 }
{
    laws::currents();
    let channels = channels_of(index, log, winning, at);
    enter_all(lists, index, channels, at, at)
}

/// The same over the replaced sync function there, by its marks.
fn take_marks<'a>(
    alloc: Global,
    lists: &mut Kept,
    index: &LogIndex,
    log: &mut LogReads<'a>,
    marks: &'a [Mark],
    at: u64,
) -> Result<(), Memory>
    requires low { 0 < at }
    requires index { IndexesTo index.now log.old.entries at }
    requires marks { option_map (λ s. s.marks) (replaced_at log.old.entries at) ≡ Some marks.now }
    ensures ok { OnOk result (IsForward log.old.entries (at - 1) at
        lists.old.entries lists.new.entries) }
    ensures cap { lists.new.cap ≡ lists.old.cap }
    ensures log { log.new.entries ≡ log.old.entries }
    ensures reads { log.new.reads ≤ log.old.reads + length marks.now }
{
    laws::currents();
    log_index::laws::marks();
    let moved = moved_by_all(alloc, index, log, marks, at)?;
    let all = moved.as_slice();
    leave_moved(lists, all)?;
    enter_moved(lists, index, all, at)
}

/// The same over an entry there that is no write.
fn take_other(
    alloc: Global,
    lists: &mut Kept,
    index: &LogIndex,
    log: &mut LogReads<'_>,
    at: u64,
) -> Result<(), Memory>
    requires low { 0 < at }
    requires index { IndexesTo index.now log.old.entries at }
    requires other { after_at index.now at ≡ None }
    ensures ok { OnOk result (IsForward log.old.entries (at - 1) at
        lists.old.entries lists.new.entries) }
    ensures cap { lists.new.cap ≡ lists.old.cap }
    ensures log { log.new.entries ≡ log.old.entries }
    ensures reads { log.new.reads ≤ log.old.reads + 1 + marks_between log.old.entries (at - 1) at }
{
    laws::currents();
    match log.entry(at).as_sync() {
        None => Ok(()),
        Some(replaced) => take_marks(alloc, lists, index, log, replaced.marks.as_slice(), at),
    }
}

/// The same over the entry there.
fn take_entry(
    alloc: Global,
    lists: &mut Kept,
    index: &LogIndex,
    log: &mut LogReads<'_>,
    at: u64,
) -> Result<(), Memory>
    requires low { 0 < at }
    requires index { IndexesTo index.now log.old.entries at }
    ensures ok { OnOk result (IsForward log.old.entries (at - 1) at
        lists.old.entries lists.new.entries) }
    ensures cap { lists.new.cap ≡ lists.old.cap }
    ensures log { log.new.entries ≡ log.old.entries }
    ensures reads { log.new.reads ≤ log.old.reads + passed log.old.entries (at - 1) at }
{
    match index.after(at) {
        None => take_other(alloc, lists, index, log, at),
        Some(document) => take_write(lists, index, log, document.winning, at),
    }
}

/// Lists are brought forward from a place of the log to another.
fn bring_forward(
    alloc: Global,
    lists: &mut Kept,
    index: &LogIndex,
    log: &mut LogReads<'_>,
    from: u64,
    to: u64,
) -> Result<(), Memory>
    requires order { from ≤ to }
    requires index { IndexesTo index.now log.old.entries to }
    ensures ok { OnOk result (IsForward log.old.entries from to
        lists.old.entries lists.new.entries) }
    ensures cap { lists.new.cap ≡ lists.old.cap }
    ensures log { log.new.entries ≡ log.old.entries }
    ensures reads { log.new.reads ≤ log.old.reads + passed log.old.entries from to }
{
    for place in from..to {
        take_entry(alloc, lists, index, log, place + 1)?;
    }
    Ok(())
}

/// The same where there are any lists.
pub fn bring_any(
    alloc: Global,
    lists: &mut Kept,
    index: &LogIndex,
    log: &mut LogReads<'_>,
    from: u64,
    to: u64,
) -> Result<(), Memory>
    requires order { from ≤ to }
    requires index { IndexesTo index.now log.old.entries to }
    ensures ok { OnOk result (IsForward log.old.entries from to
        lists.old.entries lists.new.entries) }
    ensures cap { lists.new.cap ≡ lists.old.cap }
    ensures log { log.new.entries ≡ log.old.entries }
    ensures reads { log.new.reads ≤ log.old.reads + passed log.old.entries from to }
{
    if lists.is_empty() {
        return Ok(());
    }
    bring_forward(alloc, lists, index, log, from, to)
}
