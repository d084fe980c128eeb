//! Where what is shown of one document changed last: going back from where it was last renewed, with no pass
//! over the log.

ghost use Rattle.std.specs.Prelude.{◌≡◌, ◌≤◌, ◌∷◌, ℕ, List, Option, Some, length, reverse, nat_eq, if◌then◌else◌};
ghost use Rattle.sg_history.specs.declared.entries.Entry.{Entry};
ghost use Rattle.sg_history.specs.History.{past};
ghost use Rattle.sg_history.specs.Current.{current};
ghost use Rattle.sg_history.specs.Feed.{row_of};
ghost use Rattle.log_index.specs.declared.documents.Document.{Document};
ghost use Rattle.log_index.specs.Index.{Indexes};
ghost use Rattle.log_index.specs.Places.{before_at, document_at};
ghost use Rattle.log_views.specs.At.{write_at};
ghost use Rattle.feed_rows.specs.Known.{row_before, since_renewed};
ghost use Rattle.feed_rows.specs.LastChange.{IsFound, IsWinning, Stood, place_in};
ghost use Rattle.feed_rows.specs.Latest.{current_in, since_in, winner_in};
ghost use Rattle.feed_rows.specs.PassAt.{IsViewer};
ghost use Rattle.feed_rows.specs.Lasting.{AreToSearch};

use crate::document::{Latest, shows_write, was_shown};
use crate::shown::{Viewer, last_switch, lasting_shown};
use log_index::{Document, LogIndex};
use log_views::{EffectsOf, effects_at, write_at};
use sg_history::laws::currents;
use sg_history::{DocId, Entry, Write};

/// The place of the last change, or that it is the last one up to an earlier place, after which the
/// document stood so.
#[derive(Clone, Copy)]
pub enum Found {
    At(u64),
    Before(Option<Document>, u64),
}

/// What a document is that stands there, by its winner's write and the effects of that.
pub fn latest_by<'a>(document: Document, write: &'a Write, effects: EffectsOf<'a>) -> Latest<'a>
    ensures { (entries : List Entry) (to : ℕ) (doc : List ℕ) → to ≤ length entries
        → Some document ≡ document_at (past entries to) doc
        → IsWinning (past entries to) document.winning write.now effects.entry
        → write_at entries document.winning ≡ Some write.now
        → (Some (winner_in result) ≡ current (past entries to) doc)
        × (result.since ≡ length (since_renewed (past entries to) doc))
        × (result.write.now.doc ≡ doc) }
{
    Latest {
        seq: document.last,
        since: document.last.max(effects.since),
        write,
        effects,
    }
}

fn latest_at<'a>(
    index: &LogIndex,
    entries: &'a [Entry],
    document: Document,
    to: u64,
) -> Option<Latest<'a>>
    requires index { Indexes index.now (reverse entries.now) }
    requires within { to ≤ length entries.now }
    ensures { (doc : List ℕ) → Some document ≡ document_at (past entries.now to) doc
        → (current_in result ≡ current (past entries.now to) doc)
        × (since_in result ≡ length (since_renewed (past entries.now to) doc)) }
{
    let write = write_at(entries, document.winning)?;
    let effects = effects_at(index, entries, document.winning, to)?;
    Some(latest_by(document, write, effects))
}

/// A document by where it stood after some entries.
fn latest_of<'a>(
    index: &LogIndex,
    entries: &'a [Entry],
    stood: Option<Document>,
    to: u64,
) -> Option<Latest<'a>>
    requires index { Indexes index.now (reverse entries.now) }
    requires within { to ≤ length entries.now }
    ensures { (doc : List ℕ) → stood ≡ document_at (past entries.now to) doc
        → (current_in result ≡ current (past entries.now to) doc)
        × (since_in result ≡ length (since_renewed (past entries.now to) doc)) }
{
    currents();
    match stood {
        None => None,
        Some(document) => latest_at(index, entries, document, to),
    }
}

/// Where a document stood before it was last renewed, given where it stood after that.
fn stood_before(index: &LogIndex, stood: Option<Document>, latest: Latest<'_>) -> Option<Document>
    ensures { result ≡ (if nat_eq latest.entry.seq latest.entry.since
        then before_at index.now latest.entry.seq else stood) }
{
    if latest.seq == latest.since {
        return index.before(latest.seq);
    }
    stood
}

/// The same where what is shown did not change since it was last renewed.
fn found_by_renewal(
    viewer: &Viewer<'_>,
    index: &LogIndex,
    entries: &[Entry],
    stood: Option<Document>,
    latest: Latest<'_>,
) -> Found
    requires to_search { AreToSearch viewer.now.periods.now }
    requires index { Indexes index.now (reverse entries.now) }
    requires within { latest.since ≤ length entries.now }
    ensures { (doc : List ℕ) (to : ℕ)
        → Stood entries.now index.now viewer.now doc to stood
        → current_in (Some latest.entry) ≡ current (past entries.now to) doc
        → latest.entry.since ≡ length (since_renewed (past entries.now to) doc)
        → row_before (past entries.now to) viewer.now.user.now viewer.now.filter.now doc
        ≡ row_of (past entries.now to) viewer.now.user.now viewer.now.filter.now doc
        → IsFound entries.now viewer.now doc to result }
{
    currents();
    let is_shown = lasting_shown(viewer, latest.effects.channels, latest.since).holds;
    if shows_write(latest, is_shown) {
        return Found::At(latest.since);
    }
    let before = stood_before(index, stood, latest);
    let earlier = latest.since.saturating_sub(1);
    if is_shown != was_shown(viewer, latest_of(index, entries, before, earlier), earlier) {
        return Found::At(latest.since);
    }
    Found::Before(before, earlier)
}

/// Goes back from a place, after which the document stood so, to where it was last renewed before that.
fn go_back(
    viewer: &Viewer<'_>,
    index: &LogIndex,
    entries: &[Entry],
    stood: Option<Document>,
    to: u64,
) -> Found
    requires to_search { AreToSearch viewer.now.periods.now }
    requires stood { (doc : List ℕ) × Stood entries.now index.now viewer.now doc to stood }
    ensures { (doc : List ℕ) → Stood entries.now index.now viewer.now doc to stood
        → IsFound entries.now viewer.now doc to result }
{
    currents();
    match latest_of(index, entries, stood, to) {
        None => Found::At(0),
        Some(latest) => {
            match last_switch(viewer, latest.effects.channels, latest.since, to) {
                Some(switch) => Found::At(switch.by),
                None => found_by_renewal(viewer, index, entries, stood, latest),
            }
        }
    }
}

/// Whether what is shown of a document changed last at a place, by an index of the log. It goes back
/// from where the document was last renewed to where it was before, and no further than that place.
pub fn changed_last_at(
    viewer: &Viewer<'_>,
    index: &LogIndex,
    entries: &[Entry],
    doc: &DocId,
    place: u64,
) -> bool
    requires viewer { IsViewer viewer.now (reverse entries.now) }
    requires index { Indexes index.now (reverse entries.now) }
    ensures { result ≡ nat_eq (place_in (reverse entries.now) viewer.now doc.now) place }
{
    let mut stood = index.document(doc);
    let mut to = entries.len() as u64;
    while place <= to {
        match go_back(viewer, index, entries, stood, to) {
            Found::At(by) => return by == place,
            Found::Before(before, earlier) => {
                stood = before;
                to = earlier;
            }
        }
    }
    false
}
