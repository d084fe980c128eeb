//! Lists are filled by one pass over the index.

ghost use Rattle.std.specs.Prelude.{◌≡◌, ◌≤◌, ◌<◌, ◌+◌, ◌-◌, None, OnOk, if◌then◌else◌};
ghost use Rattle.sg_history.specs.History.{past};
ghost use Rattle.log_index.specs.Places.{after_at};
ghost use Rattle.channel_cache.specs.inner.Asking.{IsFilledFrom};
ghost use Rattle.channel_cache.specs.inner.Counting.{counts_at};
ghost use Rattle.channel_cache.specs.Stands.{IndexesTo};

use crate::channels::channels_of;
use crate::kept::{Kept, enter_all};
use crate::sequences::counts;
use log_index::{Document, LogIndex};
use sg_history::LogReads;
use sg_outside::Memory;

/// Where the document of the write of a sequence stands up to a place, if it was not written again up to there.
fn last_document(index: &LogIndex, seq: u64, to: u64) -> Option<Document>
    ensures { result ≡ (if counts_at index.now to seq then after_at index.now seq else None) }
{
    if counts(index, to, seq) {
        return index.after(seq);
    }
    None
}

/// The next entry enters the lists of its document's channels up to a place, where it is the last write of that up to
/// there.
fn fill_entry(
    lists: &mut Kept,
    index: &LogIndex,
    log: &mut LogReads<'_>,
    seq: u64,
    to: u64,
) -> Result<(), Memory>
    requires low { 0 < seq }
    requires high { seq ≤ to }
    requires index { IndexesTo index.now log.old.entries to }
    ensures ok { OnOk result (IsFilledFrom (past log.old.entries to) (seq - 1) seq
        lists.old.entries lists.new.entries) }
    ensures cap { lists.new.cap ≡ lists.old.cap }
    ensures log { log.new.entries ≡ log.old.entries }
    ensures reads { log.new.reads ≤ log.old.reads + 1 }
{
    match last_document(index, seq, to) {
        None => Ok(()),
        Some(document) => {
            let channels = channels_of(index, log, document.winning, to);
            enter_all(lists, channels, seq)
        }
    }
}

/// Lists of nothing are filled with what is in their channels after the entries up to a place.
pub fn fill(
    lists: &mut Kept,
    index: &LogIndex,
    log: &mut LogReads<'_>,
    to: u64,
) -> Result<(), Memory>
    requires index { IndexesTo index.now log.old.entries to }
    ensures ok { OnOk result (IsFilledFrom (past log.old.entries to) 0 to
        lists.old.entries lists.new.entries) }
    ensures cap { lists.new.cap ≡ lists.old.cap }
    ensures log { log.new.entries ≡ log.old.entries }
    ensures reads { log.new.reads ≤ log.old.reads + to }
{
    for place in 0..to {
        fill_entry(lists, index, log, place + 1, to)?;
    }
    Ok(())
}
