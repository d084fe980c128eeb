//! What documents are at a place of a log, by its index and what is read of it.

ghost use Rattle.std.specs.Prelude.{◌≡◌, ◌≤◌, ◌<◌, ◌+◌, ℕ, List, Some, length};
ghost use Rattle.sg_history.specs.declared.entries.Write as writes;
ghost use Rattle.sg_history.specs.Current.{current, effects_or, recorded_effects};
ghost use Rattle.sg_history.specs.History.{as_sync, past};
ghost use Rattle.log_index.specs.Marks as marks;
ghost use Rattle.log_index.specs.Places.{document_at};
ghost use Rattle.log_views.specs.At as at;
ghost use Rattle.log_views.specs.States.{effects_in};
ghost use Rattle.channel_cache.specs.Stands.{IndexesTo};
ghost use Rattle.feed_rows.specs.Known.{since_renewed};
ghost use Rattle.feed_rows.specs.LastChange.{IsWinning};
ghost use Rattle.feed_rows.specs.Latest.{current_in, since_in, winner_in};

use feed_rows::{Latest, latest_by};
use log_index::{Document, LogIndex, Marked, mark_in};
use log_views::{EffectsOf, of_mark, recorded};
use sg_history::{Entry, LogReads, Write};

/// The effects of a mark of an entry, those that the write recorded where it has none there.
fn of_marked<'a>(entry: &'a Entry, marked: Marked, write: &'a Write) -> EffectsOf<'a>
    ensures effects { effects_in result ≡ effects_or
        (marks.mark_in_place (as_sync entry.now) marked.mark) (recorded_effects write.now) }
    ensures since { result.since ≡ marked.sync }
{
    match mark_in(entry, marked.mark) {
        None => recorded(write, marked.sync),
        Some(mark) => of_mark(mark, marked.sync),
    }
}

/// The effects that the revision written at a sequence has after the entries up to a place.
fn effects_up_to<'a>(
    index: &LogIndex,
    log: &mut LogReads<'a>,
    seq: u64,
    write: &'a Write,
    to: u64,
) -> EffectsOf<'a>
    requires low { 0 < seq }
    requires high { seq ≤ to }
    requires index { IndexesTo index.now log.old.entries to }
    requires write { at.write_at log.old.entries seq ≡ Some write.now }
    ensures effects { IsWinning (past log.old.entries to) seq write.now result }
    ensures log { log.new.entries ≡ log.old.entries }
    ensures reads { log.new.reads ≤ log.old.reads + 1 }
{
    log_index::laws::marks();
    match index.marked(seq, to) {
        None => recorded(write, seq),
        Some(place) => of_marked(log.entry(place.sync), place, write),
    }
}

/// The write of a sequence.
fn write_at<'a>(log: &mut LogReads<'a>, seq: u64) -> &'a Write
    requires low { 0 < seq }
    requires high { seq ≤ length log.old.entries }
    requires is_write { (w : writes.Write) × (at.write_at log.old.entries seq ≡ Some w) }
    ensures write { at.write_at log.old.entries seq ≡ Some result.now }
    ensures log { log.new.entries ≡ log.old.entries }
    ensures reads { log.new.reads ≤ log.old.reads + 1 }
{
    match log.entry(seq).as_write() {
        None => unreachable!(),
        Some(write) => write,
    }
}

/// What a document is after the entries up to a place, which stands there so: its winner's write and that one's
/// effects, with at most two reads.
pub fn latest_at<'a>(
    index: &LogIndex,
    log: &mut LogReads<'a>,
    document: Document,
    to: u64,
) -> Latest<'a>
    requires index { IndexesTo index.now log.old.entries to }
    requires stands { (doc : List ℕ) × (Some document ≡ document_at (past log.old.entries to) doc) }
    ensures latest { (doc : List ℕ) → Some document ≡ document_at (past log.old.entries to) doc
        → (Some (winner_in result) ≡ current (past log.old.entries to) doc)
        × (result.since ≡ length (since_renewed (past log.old.entries to) doc))
        × (result.write.now.doc ≡ doc) }
    ensures log { log.new.entries ≡ log.old.entries }
    ensures reads { log.new.reads ≤ log.old.reads + 2 }
{
    let write = write_at(log, document.winning);
    let effects = effects_up_to(index, log, document.winning, write, to);
    latest_by(document, write, effects)
}

/// The same of a document that may stand nowhere.
pub fn latest_of<'a>(
    index: &LogIndex,
    log: &mut LogReads<'a>,
    stood: Option<Document>,
    to: u64,
) -> Option<Latest<'a>>
    requires index { IndexesTo index.now log.old.entries to }
    requires stands { (doc : List ℕ) × (stood ≡ document_at (past log.old.entries to) doc) }
    ensures latest { (doc : List ℕ) → stood ≡ document_at (past log.old.entries to) doc
        → (current_in result ≡ current (past log.old.entries to) doc)
        × (since_in result ≡ length (since_renewed (past log.old.entries to) doc)) }
    ensures log { log.new.entries ≡ log.old.entries }
    ensures reads { log.new.reads ≤ log.old.reads + 2 }
{
    feed_rows::laws::known();
    match stood {
        None => None,
        Some(document) => Some(latest_at(index, log, document, to)),
    }
}
