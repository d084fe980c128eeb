//! The documents of some channels that no entry of a segment renews.

ghost use Rattle.std.specs.Prelude.{◌≡◌, ◌≤◌, ◌<◌, ◌+◌, ◌*◌, ℕ, List, Some, true, length, OnOk};
ghost use Rattle.sg_history.specs.History.{among, past};
ghost use Rattle.log_index.specs.declared.documents.Document as places;
ghost use Rattle.log_index.specs.Places.{document_at};
ghost use Rattle.channel_cache.specs.Listed.{listed_in, sequences_of};
ghost use Rattle.channel_cache.specs.Stands.{IndexesTo, has};
ghost use Rattle.feed_rows.specs.KnownDocuments.{names_in};
ghost use Rattle.changes_feed.specs.inner.Segment.{SegmentAt};
ghost use Rattle.changes_feed.specs.inner.Amid.{HasLast, HasMore};

use crate::latest::latest_at;
use crate::segment::{Segment, add, place_of};
use feed_rows::{Document, Viewer};
use log_index::LogIndex;
use sg_history::LogReads;
use sg_outside::Memory;

/// Adds a document that stands there as it is, where it is new.
fn add_document<'a>(
    viewer: &Viewer<'_>,
    index: &LogIndex,
    log: &mut LogReads<'a>,
    segment: &mut Segment<'a>,
    document: log_index::Document,
    start: u64,
    front: u64,
) -> Result<(), Memory>
    requires low { 0 < start }
    requires index { IndexesTo index.now log.old.entries front }
    requires stands { (doc : List ℕ) × (Some document ≡ document_at (past log.old.entries front) doc) }
    requires segment { SegmentAt viewer.now start log.old.entries front segment.old }
    ensures ok { OnOk result (SegmentAt viewer.now start log.old.entries front segment.new) }
    ensures more { OnOk result (HasMore (names_in segment.old.documents.items)
        (names_in segment.new.documents.items)) }
    ensures has { OnOk result ((doc : List ℕ)
        → Some document ≡ document_at (past log.old.entries front) doc
        → among (names_in segment.new.documents.items) doc ≡ true) }
    ensures log { log.new.entries ≡ log.old.entries }
    ensures reads { log.new.reads ≤ log.old.reads + 2 }
{
    feed_rows::laws::known();
    match place_of(&segment.places, document.first) {
        Some(_) => Ok(()),
        None => {
            let latest = latest_at(index, log, document, front);
            add(
                segment,
                document.first,
                Document {
                    name: &latest.write.doc,
                    latest: Some(latest),
                    change: None,
                },
            )?;
            Ok(())
        }
    }
}

/// Adds the document whose last write is that of a sequence, where it is new. One that was written from the start on is there.
fn add_one<'a>(
    viewer: &Viewer<'_>,
    index: &LogIndex,
    log: &mut LogReads<'a>,
    segment: &mut Segment<'a>,
    seq: u64,
    start: u64,
    front: u64,
) -> Result<(), Memory>
    requires low { 0 < start }
    requires index { IndexesTo index.now log.old.entries front }
    requires last { HasLast (past log.old.entries front) seq }
    requires segment { SegmentAt viewer.now start log.old.entries front segment.old }
    ensures ok { OnOk result (SegmentAt viewer.now start log.old.entries front segment.new) }
    ensures more { OnOk result (HasMore (names_in segment.old.documents.items)
        (names_in segment.new.documents.items)) }
    ensures has { OnOk result ((doc : List ℕ) (d : places.Document)
        → document_at (past log.old.entries front) doc ≡ Some d → d.last ≡ seq
        → among (names_in segment.new.documents.items) doc ≡ true) }
    ensures log { log.new.entries ≡ log.old.entries }
    ensures reads { log.new.reads ≤ log.old.reads + 2 }
{
    if start <= seq {
        return Ok(());
    }
    match index.after(seq) {
        None => Ok(()),
        Some(document) => { add_document(viewer, index, log, segment, document, start, front) }
    }
}

/// Adds the documents of these sequences, which are those of some channels: each that is new, as it is, with two reads at most.
pub fn add_listed<'a>(
    viewer: &Viewer<'_>,
    index: &LogIndex,
    log: &mut LogReads<'a>,
    segment: &mut Segment<'a>,
    sequences: &[u64],
    start: u64,
    front: u64,
) -> Result<(), Memory>
    requires low { 0 < start }
    requires high { start ≤ front }
    requires within { front ≤ length log.old.entries }
    requires index { IndexesTo index.now log.old.entries front }
    requires segment { SegmentAt viewer.now start log.old.entries front segment.old }
    requires listed { (channels : List (List ℕ))
        × (sequences.now ≡ sequences_of (listed_in (past log.old.entries front) channels)) }
    ensures ok { OnOk result (SegmentAt viewer.now start log.old.entries front segment.new) }
    ensures has { OnOk result ((doc : List ℕ) (d : places.Document)
        → document_at (past log.old.entries front) doc ≡ Some d
        → has sequences.now d.last ≡ true
        → among (names_in segment.new.documents.items) doc ≡ true) }
    ensures log { log.new.entries ≡ log.old.entries }
    ensures reads { log.new.reads ≤ log.old.reads + 2 * length sequences.now }
{
    for seq in sequences {
        add_one(viewer, index, log, segment, *seq, start, front)?;
    }
    Ok(())
}
