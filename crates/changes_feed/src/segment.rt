//! One pass over the entries of a log from a place on: what the documents are that they renew, and where what is shown of
//! each changed last from that place on.

ghost use Rattle.std.specs.Prelude.{◌≡◌, ◌≤◌, ◌<◌, ◌+◌, ◌*◌, ◌-◌, ◌++◌, ◌∷◌, [], ℕ, Bool, List, Option, None, Some, true, false, ◌||◌, length, map, nat_eq, option_map, slice_get, if◌then◌else◌, IfOk, OnOk};
ghost use Rattle.std.specs.BTreeMap.{get};
ghost use Rattle.std.specs.Ordering.{nat_cmp};
ghost use Rattle.std.specs.Str.{bytes_eq};
ghost use Rattle.sg_history.specs.declared.entries.Mark as kinds;
ghost use Rattle.sg_history.specs.CountedLog.{marks_between};
ghost use Rattle.sg_history.specs.History.{past};
ghost use Rattle.log_index.specs.Places.{after_at, before_at, document_at};
ghost use Rattle.channel_cache.specs.inner.Forward.{replaced_at};
ghost use Rattle.channel_cache.specs.Reads.{passed};
ghost use Rattle.channel_cache.specs.Stands.{IndexesTo};
ghost use Rattle.feed_rows.specs.KnownDocuments.{names_in};
ghost use Rattle.feed_rows.specs.PassAt.{IsViewer};
ghost use Rattle.feed_rows.specs.declared.shown.Viewer as shown;
ghost use Rattle.changes_feed.specs.inner.Amid.{PartAt, Renewing, taken, with_one};
ghost use Rattle.changes_feed.specs.inner.Segment.{SegmentAt};

use crate::latest::{latest_at, latest_of};
use feed_rows::{Document, Viewer, bring_up_at};
use log_index::{LogIndex, is_mark};
use sg_history::{DocId, LogReads, Mark};
use sg_outside::Memory;
use std::alloc::Global;
use std::collections::BTreeMap;

/// Documents, and the place of each under the sequence of its first write.
#[derive(Drop)]
pub struct Segment<'a> {
    pub documents: Vec<Document<'a>>,
    pub places: BTreeMap<u64, usize>,
}

/// A document stands behind the others, under the sequence of its first write.
pub fn add<'a>(
    segment: &mut Segment<'a>,
    first: u64,
    document: Document<'a>,
) -> Result<usize, Memory>
    ensures documents { OnOk result (segment.new.documents.items
        ≡ segment.old.documents.items ++ document.entry ∷ []) }
    ensures places { OnOk result ((seq : ℕ) → get nat_cmp segment.new.places seq
        ≡ (if nat_eq first seq then Some (length segment.old.documents.items)
        else get nat_cmp segment.old.places seq)) }
    ensures place { IfOk result (λ place. place ≡ length segment.old.documents.items) }
{
    let place = segment.documents.len();
    segment.documents.push(document)?;
    segment.places.insert(first, place)?;
    Ok(place)
}

/// The place of the document of a first write.
pub fn place_of(places: &BTreeMap<u64, usize>, first: u64) -> Option<usize>
    ensures { result ≡ get nat_cmp places.now first }
{
    places.get(&first).copied()
}

/// The place of a document, which is added as it was before an entry where it is new.
fn place_for<'a>(
    index: &LogIndex,
    log: &mut LogReads<'a>,
    segment: &mut Segment<'a>,
    before: Option<log_index::Document>,
    after: log_index::Document,
    name: &'a DocId,
    at: u64,
) -> Result<usize, Memory>
    requires low { 0 < at }
    requires index { IndexesTo index.now log.old.entries at }
    requires before { (doc : List ℕ)
        × (before ≡ document_at (past log.old.entries (at - 1)) doc) }
    ensures ok { IfOk result (λ place. (viewer : shown.Viewer) (start : ℕ) (doc : List ℕ)
        (done : List ℕ → Bool) → 0 < start → name.now ≡ doc
        → Renewing viewer start log.old.entries at before after segment.old doc done
        → PartAt viewer start log.old.entries at done segment.new
        × (slice_get (names_in segment.new.documents.items) place ≡ Some doc)) }
    ensures log { log.new.entries ≡ log.old.entries }
    ensures reads { log.new.reads ≤ log.old.reads + 2 }
{
    feed_rows::laws::known();
    match place_of(&segment.places, after.first) {
        Some(place) => Ok(place),
        None => {
            let latest = latest_of(index, log, before, at - 1);
            add(
                segment,
                after.first,
                Document {
                    name,
                    latest,
                    change: None,
                },
            )
        }
    }
}

/// Takes what the entry at a place renews: a document that stands so after it, and stood so before it.
fn renew<'a>(
    viewer: &Viewer<'_>,
    index: &LogIndex,
    log: &mut LogReads<'a>,
    segment: &mut Segment<'a>,
    before: Option<log_index::Document>,
    after: log_index::Document,
    start: u64,
    at: u64,
) -> Result<(), Memory>
    requires low { 0 < start }
    requires high { start ≤ at }
    requires index { IndexesTo index.now log.old.entries at }
    requires viewer { IsViewer viewer.now (past log.old.entries at) }
    requires known { (doc : List ℕ) × (done : List ℕ → Bool)
        × Renewing viewer.now start log.old.entries at before after segment.old doc done }
    ensures ok { OnOk result ((doc : List ℕ) (done : List ℕ → Bool)
        → Renewing viewer.now start log.old.entries at before after segment.old doc done
        → PartAt viewer.now start log.old.entries at (with_one doc done) segment.new) }
    ensures log { log.new.entries ≡ log.old.entries }
    ensures reads { log.new.reads ≤ log.old.reads + 4 }
{
    let latest = latest_at(index, log, after, at);
    let place = place_for(index, log, segment, before, after, &latest.write.doc, at)?;
    bring_up_at(viewer, &mut segment.documents, place, start, latest);
    Ok(())
}

/// Takes a mark of the entry at a place, given where the document that it is of stands: where the mark has the effects of
/// the document's winner, it renews that.
fn take_moved<'a>(
    viewer: &Viewer<'_>,
    index: &LogIndex,
    log: &mut LogReads<'a>,
    segment: &mut Segment<'a>,
    marks: &'a [Mark],
    document: log_index::Document,
    number: usize,
    start: u64,
    at: u64,
) -> Result<(), Memory>
    requires low { 0 < start }
    requires high { start ≤ at }
    requires index { IndexesTo index.now log.old.entries at }
    requires viewer { IsViewer viewer.now (past log.old.entries at) }
    requires marks { option_map (λ s. s.marks) (replaced_at log.old.entries at) ≡ Some marks.now }
    requires stands { (mark : kinds.Mark) × (slice_get marks.now number ≡ Some mark)
        × (Some document ≡ document_at (past log.old.entries at) mark.doc) }
    requires known { PartAt viewer.now start log.old.entries at
        (taken (past log.old.entries (at - 1)) marks.now number) segment.old }
    ensures ok { OnOk result (PartAt viewer.now start log.old.entries at
        (taken (past log.old.entries (at - 1)) marks.now (number + 1)) segment.new) }
    ensures log { log.new.entries ≡ log.old.entries }
    ensures reads { log.new.reads ≤ log.old.reads + 4 }
{
    log_index::laws::marks();
    if is_mark(index.marked(document.winning, at), at, number) {
        return renew(
            viewer,
            index,
            log,
            segment,
            Some(document),
            document,
            start,
            at,
        );
    }
    Ok(())
}

/// Takes a mark of the entry at a place.
fn take_mark<'a>(
    viewer: &Viewer<'_>,
    index: &LogIndex,
    log: &mut LogReads<'a>,
    segment: &mut Segment<'a>,
    marks: &'a [Mark],
    number: usize,
    start: u64,
    at: u64,
) -> Result<(), Memory>
    requires low { 0 < start }
    requires high { start ≤ at }
    requires index { IndexesTo index.now log.old.entries at }
    requires viewer { IsViewer viewer.now (past log.old.entries at) }
    requires marks { option_map (λ s. s.marks) (replaced_at log.old.entries at) ≡ Some marks.now }
    requires number { number < length marks.now }
    requires known { PartAt viewer.now start log.old.entries at
        (taken (past log.old.entries (at - 1)) marks.now number) segment.old }
    ensures ok { OnOk result (PartAt viewer.now start log.old.entries at
        (taken (past log.old.entries (at - 1)) marks.now (number + 1)) segment.new) }
    ensures log { log.new.entries ≡ log.old.entries }
    ensures reads { log.new.reads ≤ log.old.reads + 4 }
{
    let mark = &marks[number];
    match index.document_up_to(&mark.doc, at) {
        None => Ok(()),
        Some(document) => {
            take_moved(
                viewer, index, log, segment, marks, document, number, start, at,
            )
        }
    }
}

/// Takes the entry at a place, which replaces the sync function, by its marks.
fn take_marks<'a>(
    viewer: &Viewer<'_>,
    index: &LogIndex,
    log: &mut LogReads<'a>,
    segment: &mut Segment<'a>,
    marks: &'a [Mark],
    start: u64,
    at: u64,
) -> Result<(), Memory>
    requires low { 0 < start }
    requires high { start ≤ at }
    requires index { IndexesTo index.now log.old.entries at }
    requires viewer { IsViewer viewer.now (past log.old.entries at) }
    requires marks { option_map (λ s. s.marks) (replaced_at log.old.entries at) ≡ Some marks.now }
    requires known { SegmentAt viewer.now start log.old.entries (at - 1) segment.old }
    ensures ok { OnOk result (SegmentAt viewer.now start log.old.entries at segment.new) }
    ensures log { log.new.entries ≡ log.old.entries }
    ensures reads { log.new.reads ≤ log.old.reads + 4 * length marks.now }
{
    feed_rows::laws::known();
    for i in 0..marks.len() {
        take_mark(viewer, index, log, segment, marks, i, start, at)?;
    }
    Ok(())
}

/// Takes the entry at a place, which is no write.
fn take_other<'a>(
    viewer: &Viewer<'_>,
    index: &LogIndex,
    log: &mut LogReads<'a>,
    segment: &mut Segment<'a>,
    start: u64,
    at: u64,
) -> Result<(), Memory>
    requires low { 0 < start }
    requires high { start ≤ at }
    requires index { IndexesTo index.now log.old.entries at }
    requires viewer { IsViewer viewer.now (past log.old.entries at) }
    requires other { after_at index.now at ≡ None }
    requires known { SegmentAt viewer.now start log.old.entries (at - 1) segment.old }
    ensures ok { OnOk result (SegmentAt viewer.now start log.old.entries at segment.new) }
    ensures log { log.new.entries ≡ log.old.entries }
    ensures reads { log.new.reads ≤ log.old.reads + 4 * passed log.old.entries (at - 1) at }
{
    feed_rows::laws::known();
    match log.entry(at).as_sync() {
        None => Ok(()),
        Some(replaced) => {
            take_marks(
                viewer,
                index,
                log,
                segment,
                replaced.marks.as_slice(),
                start,
                at,
            )
        }
    }
}

/// Takes the write at a place, by where its document stands after it.
fn take_write<'a>(
    viewer: &Viewer<'_>,
    index: &LogIndex,
    log: &mut LogReads<'a>,
    segment: &mut Segment<'a>,
    document: log_index::Document,
    start: u64,
    at: u64,
) -> Result<(), Memory>
    requires low { 0 < start }
    requires high { start ≤ at }
    requires index { IndexesTo index.now log.old.entries at }
    requires viewer { IsViewer viewer.now (past log.old.entries at) }
    requires after { after_at index.now at ≡ Some document }
    requires known { SegmentAt viewer.now start log.old.entries (at - 1) segment.old }
    ensures ok { OnOk result (SegmentAt viewer.now start log.old.entries at segment.new) }
    ensures log { log.new.entries ≡ log.old.entries }
    ensures reads { log.new.reads ≤ log.old.reads + 4 }
{
    feed_rows::laws::known();
    let stood = index.before(at);
    renew(viewer, index, log, segment, stood, document, start, at)
}

/// Takes the entry at a place.
fn take_entry<'a>(
    viewer: &Viewer<'_>,
    index: &LogIndex,
    log: &mut LogReads<'a>,
    segment: &mut Segment<'a>,
    start: u64,
    at: u64,
) -> Result<(), Memory>
    requires low { 0 < start }
    requires high { start ≤ at }
    requires index { IndexesTo index.now log.old.entries at }
    requires viewer { IsViewer viewer.now (past log.old.entries at) }
    requires known { SegmentAt viewer.now start log.old.entries (at - 1) segment.old }
    ensures ok { OnOk result (SegmentAt viewer.now start log.old.entries at segment.new) }
    ensures log { log.new.entries ≡ log.old.entries }
    ensures reads { log.new.reads ≤ log.old.reads + 4 * passed log.old.entries (at - 1) at }
{
    match index.after(at) {
        None => take_other(viewer, index, log, segment, start, at),
        Some(document) => take_write(viewer, index, log, segment, document, start, at),
    }
}

fn empty<'a>(alloc: Global) -> Segment<'a>
    ensures documents { result.documents.items ≡ [] }
    ensures places { (seq : ℕ) → get nat_cmp result.places seq ≡ None }
{
    Segment {
        documents: Vec::new(alloc),
        places: BTreeMap::new(alloc),
    }
}

/// Passes over the entries from a place on, up to another, with at most four reads for each and for each mark in it.
pub fn pass<'a>(
    alloc: Global,
    viewer: &Viewer<'_>,
    index: &LogIndex,
    log: &mut LogReads<'a>,
    start: u64,
    front: u64,
) -> Result<Segment<'a>, Memory>
    requires low { 0 < start }
    requires high { start ≤ front }
    requires within { front ≤ length log.old.entries }
    requires index { IndexesTo index.now log.old.entries front }
    requires viewer { IsViewer viewer.now (past log.old.entries front) }
    ensures ok { IfOk result (λ segment. SegmentAt viewer.now start log.old.entries front segment) }
    ensures log { log.new.entries ≡ log.old.entries }
    ensures reads { log.new.reads ≤ log.old.reads + 4 * passed log.old.entries (start - 1) front }
{
    let mut segment = empty(alloc);
    for place in start - 1..front {
        take_entry(viewer, index, log, &mut segment, start, place + 1)?;
    }
    Ok(segment)
}
