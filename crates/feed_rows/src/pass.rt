//! One pass over the entries of a log for a user: what every document is, and where what is shown of it changed
//! last up to the place from which on it is that.

ghost use Rattle.std.specs.Prelude.{◌≡◌, ◌+◌, ◌<◌, ◌^◌, ◌∷◌, ◌++◌, [], ◌&&◌, not, nat_eq, ℕ, List, length, map, reverse, slice_get, Some, None, OnOk, IfOk};
ghost use Rattle.std.specs.Borrow.{Bor};
ghost use Rattle.std.specs.BTreeMap as maps;
ghost use Rattle.sg_history.specs.declared.entries.Entry.{Entry};
ghost use Rattle.sg_history.specs.declared.entries.Entry.TheVariants as kinds;
ghost use Rattle.sg_history.specs.declared.entries.Mark as marks;
ghost use Rattle.sg_history.specs.declared.entries.Write as writes;
ghost use Rattle.sg_names.specs.RevId.{same_rev};
ghost use Rattle.sg_history.specs.Current.{current, marked_state};
ghost use Rattle.sg_history.specs.History.{as_write, past};
ghost use Rattle.grant_history.specs.NewStates.{AreNewStates, written_at};
ghost use Rattle.feed_rows.specs.inner.Index.{IsIndex};
ghost use Rattle.feed_rows.specs.Lasting.{AreToSearch};
ghost use Rattle.feed_rows.specs.Latest.{current_in, since_in, winner_in};
ghost use Rattle.feed_rows.specs.Known.{add_blank, known_in, written_names};
ghost use Rattle.feed_rows.specs.PassAt.{AmidAt, HasMarks, IsViewer, PassAt};
ghost use Rattle.feed_rows.specs.declared.shown.Viewer.{Viewer};

use crate::document::{Document, Latest, bring_up_at};
use crate::index::{add_place, place_of};
use crate::shown::Viewer;
use grant_history::{NewState, NewStates};
use log_views::{EffectsOf, effects_by, write_at};
use sg_history::laws::currents;
use sg_history::{DocId, Entry, Mark, Write};
use std::alloc::{AllocError, Global};
use std::collections::BTreeMap;

/// What is known after some entries: all documents that were written, with the place of each.
#[derive(Drop)]
pub struct Pass<'a> {
    pub documents: Vec<Document<'a>>,
    pub places: BTreeMap<&'a str, usize>,
}

/// The place of a document, at the end where it was never written.
fn place_for<'a>(
    documents: &mut Vec<Document<'a>>,
    places: &mut BTreeMap<&'a str, usize>,
    name: &'a DocId,
) -> Result<usize, AllocError>
    requires { IsIndex (map (λ d. d.name.now) documents.old.items) places.old }
    ensures documents { OnOk result (map known_in documents.new.items
        ≡ add_blank name.now (map known_in documents.old.items)) }
    ensures places { OnOk result (IsIndex (map (λ d. d.name.now) documents.new.items) places.new) }
    ensures place { IfOk result (λ k. slice_get (map (λ d. d.name.now) documents.new.items) k
        ≡ Some name.now) }
{
    if let Some(place) = place_of(places, name) {
        return Ok(place);
    }
    let place = documents.len();
    documents.push(Document {
        name,
        latest: None,
        change: None,
    })?;
    add_place(places, name, place)?;
    Ok(place)
}

/// Takes a write, after which its document is this.
fn take_write<'a>(
    viewer: &Viewer<'_>,
    pass: &mut Pass<'a>,
    older: &[Entry],
    write: &'a Write,
    latest: Option<Latest<'a>>,
) -> Result<(), AllocError>
    requires viewer { IsViewer viewer.now (kinds.Write write.now ∷ reverse older.now) }
    requires since { since_in latest ≡ length older.now + 1 }
    requires state { current_in latest
        ≡ current (kinds.Write write.now ∷ reverse older.now) write.now.doc }
    requires known { PassAt (reverse older.now) viewer.now pass.old }
    ensures { OnOk result (PassAt (kinds.Write write.now ∷ reverse older.now) viewer.now
        pass.new) }
{
    currents();
    let Some(latest) = latest else {
        return Ok(());
    };
    let place = place_for(&mut pass.documents, &mut pass.places, &write.doc)?;
    bring_up_at(viewer, &mut pass.documents, place, 1, latest);
    Ok(())
}

/// Whether a mark of the entry of a sequence is of the winner of a document that is this, and the first such mark of that
/// entry.
fn is_first_mark(latest: Latest<'_>, seq: u64, mark: &Mark) -> bool
    ensures { result ≡ (not (nat_eq latest.entry.since seq)
        && same_rev latest.entry.write.now.rev mark.now.rev) }
{
    latest.since != seq && latest.write.rev.equals(&mark.rev)
}

/// What a document is from a mark of its winner on, which stands in the entry of a sequence.
fn marked<'a>(latest: Latest<'a>, seq: u64, mark: &'a Mark) -> Latest<'a>
    ensures since { result.since ≡ seq }
    ensures state { winner_in result ≡ marked_state (Some mark.now) (winner_in latest.entry) }
{
    Latest {
        seq: latest.seq,
        since: seq,
        write: latest.write,
        effects: EffectsOf {
            since: seq,
            channels: &mark.channels,
            grants: &mark.grants,
            roles: &mark.roles,
        },
    }
}

/// Takes a mark of the entry of a sequence, whose document stands in this place: where it is the first one of the winner,
/// the document has its effects from there on.
fn take_mark_at<'a>(
    viewer: &Viewer<'_>,
    documents: &mut Vec<Document<'a>>,
    place: usize,
    seq: u64,
    mark: &'a Mark,
)
    requires seq { 0 < seq }
    requires to_search { AreToSearch viewer.now.periods.now }
    requires within { place < length documents.old.items }
    ensures { (e : Entry) (es : List Entry) (done rest : List marks.Mark)
        (places : maps.BTreeMap (Bor (List ℕ)) ℕ) → seq ≡ length es + 1
        → IsViewer viewer.now (e ∷ es) → HasMarks e (done ++ mark.now ∷ rest)
        → slice_get (written_names es) place ≡ Some mark.now.doc
        → AmidAt done e es viewer.now (record { documents = documents.old; places = places })
        → AmidAt (done ++ mark.now ∷ []) e es viewer.now
        (record { documents = documents.new; places = places }) }
{
    currents();
    let known = documents.as_slice();
    let document = known[place];
    let Some(latest) = document.latest else {
        return;
    };
    if !is_first_mark(latest, seq, mark) {
        return;
    }
    bring_up_at(viewer, documents, place, 1, marked(latest, seq, mark));
}

/// Takes a mark of the entry of a sequence.
fn take_mark<'a>(viewer: &Viewer<'_>, pass: &mut Pass<'a>, seq: u64, mark: &'a Mark)
    requires seq { 0 < seq }
    requires to_search { AreToSearch viewer.now.periods.now }
    requires places { IsIndex (map (λ d. d.name.now) pass.old.documents.items) pass.old.places }
    ensures { (e : Entry) (es : List Entry) (done rest : List marks.Mark) → seq ≡ length es + 1
        → IsViewer viewer.now (e ∷ es) → HasMarks e (done ++ mark.now ∷ rest)
        → AmidAt done e es viewer.now pass.old
        → AmidAt (done ++ mark.now ∷ []) e es viewer.now pass.new }
{
    currents();
    let Some(place) = place_of(&pass.places, &mark.doc) else {
        return;
    };
    take_mark_at(viewer, &mut pass.documents, place, seq, mark);
}

/// Takes an entry that is no write: of a replacement of the sync function, its marks.
fn take_marks<'a>(viewer: &Viewer<'_>, pass: &mut Pass<'a>, older: &[Entry], entry: &'a Entry)
    requires fits { length older.now + 1 < 2 ^ 64 }
    requires unwritten { as_write entry.now ≡ None }
    requires viewer { IsViewer viewer.now (entry.now ∷ reverse older.now) }
    requires known { PassAt (reverse older.now) viewer.now pass.old }
    ensures { PassAt (entry.now ∷ reverse older.now) viewer.now pass.new }
{
    currents();
    let Some(sync) = entry.as_sync() else {
        return;
    };
    let seq = older.len() as u64 + 1;
    let marks = sync.marks.as_slice();
    for mark in marks {
        take_mark(viewer, pass, seq, mark);
    }
}

/// What the document of the write at a place, counted from 0, is after it, given the state that it has there.
fn latest_after<'a>(entries: &'a [Entry], i: usize, state: Option<NewState>) -> Option<Latest<'a>>
    requires within { i < length entries.now }
    requires fits { i + 1 < 2 ^ 64 }
    ensures { (w : writes.Write) → slice_get entries.now i ≡ Some (kinds.Write w)
        → state ≡ written_at entries.now i
        → (current_in result ≡ current (kinds.Write w ∷ past entries.now i) w.doc)
        × (since_in result ≡ i + 1) }
{
    log_index::laws::marks();
    let state = state?;
    let upto = &entries[..i + 1];
    let write = write_at(upto, state.winning)?;
    let effects = effects_by(upto, state.winning, state.marked)?;
    let seq = i as u64 + 1;
    Some(Latest {
        seq,
        since: seq,
        write,
        effects,
    })
}

/// Takes the entry at a place, counted from 0, given the state that its document has after it, where it is a write.
fn take<'a>(
    viewer: &Viewer<'_>,
    pass: &mut Pass<'a>,
    entries: &'a [Entry],
    i: usize,
    state: Option<NewState>,
) -> Result<(), AllocError>
    requires within { i < length entries.now }
    requires fits { i + 1 < 2 ^ 64 }
    requires state { state ≡ written_at entries.now i }
    requires viewer { IsViewer viewer.now (past entries.now (i + 1)) }
    requires known { PassAt (past entries.now i) viewer.now pass.old }
    ensures { OnOk result (PassAt (past entries.now (i + 1)) viewer.now pass.new) }
{
    let entry = &entries[i];
    let older = &entries[..i];
    match entry.as_write() {
        None => {
            take_marks(viewer, pass, older, entry);
            Ok(())
        }
        Some(write) => take_write(viewer, pass, older, write, latest_after(entries, i, state)),
    }
}

fn start<'a>(alloc: Global) -> Pass<'a>
    ensures { (viewer : Viewer) → PassAt [] viewer result }
{
    Pass {
        documents: Vec::new(alloc),
        places: BTreeMap::new(alloc),
    }
}

/// Passes over entries, given the new states from them on.
pub fn pass_over<'a>(
    alloc: Global,
    viewer: &Viewer<'_>,
    entries: &'a [Entry],
    states: &NewStates,
) -> Result<Pass<'a>, AllocError>
    requires states { AreNewStates entries.now states.now (length entries.now) }
    requires viewer { IsViewer viewer.now (reverse entries.now) }
    ensures { IfOk result (PassAt (reverse entries.now) viewer.now) }
{
    let mut pass = start(alloc);
    for i in 0..entries.len() {
        take(viewer, &mut pass, entries, i, states.written(i))?;
    }
    Ok(pass)
}
