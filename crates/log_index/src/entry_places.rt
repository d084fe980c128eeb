//! Where the documents of entries stand, entry by entry.

ghost use Rattle.std.specs.Prelude.{◌≡◌, ◌≢◌, ◌<◌, ◌≤◌, ◌+◌, ◌∷◌, ℕ, List, None, length, vec_capacity, vec_len};
ghost use Rattle.sg_history.specs.declared.entries.Entry.{Entry};
ghost use Rattle.sg_history.specs.History.{as_write};
ghost use Rattle.log_index.specs.Places.{document_before};
ghost use Rattle.log_index.specs.Representation.{KeepsPlaces, behind_by, kept_at, places_by};

use crate::documents::{Document, last_of};

/// What is kept of an entry, by sequences, 0 for none: the first write of its document, the one before
/// this, the next one, and the write of the winner right behind the entry.
#[derive(Clone, Copy, Debug, PartialEq, Eq)]
pub struct EntryPlaces {
    pub first: u64,
    pub before: u64,
    pub next: u64,
    pub winning: u64,
}

/// What is to be kept of the last entry, by where its document stood before it and right behind it.
fn newest(before: Option<Document>, after: Option<Document>) -> EntryPlaces
    ensures { result ≡ places_by before after None }
{
    match after {
        None => EntryPlaces {
            first: 0,
            before: last_of(before),
            next: 0,
            winning: 0,
        },
        Some(after) => EntryPlaces {
            first: after.first,
            before: last_of(before),
            next: 0,
            winning: after.winning,
        },
    }
}

/// What is kept of the entry of a sequence; of one that is not there, that of no write.
pub fn of_entry(list: &[EntryPlaces], seq: u64) -> EntryPlaces
    ensures { result ≡ kept_at list.now seq }
{
    let none = EntryPlaces {
        first: 0,
        before: 0,
        next: 0,
        winning: 0,
    };
    if seq == 0 {
        return none;
    }
    match list.get((seq - 1) as usize) {
        None => none,
        Some(places) => *places,
    }
}

/// Where its document stood right behind the entry of a sequence, by what is kept of it.
pub fn behind(list: &[EntryPlaces], seq: u64) -> Option<Document>
    ensures { result ≡ behind_by (kept_at list.now seq) seq }
{
    let places = of_entry(list, seq);
    if places.first == 0 {
        return None;
    }
    Some(Document {
        first: places.first,
        last: seq,
        winning: places.winning,
    })
}

/// Keeps at an entry, where its sequence is not 0, that this one is the next write of its document.
fn put_next(list: &mut [EntryPlaces], seq: u64, next: u64)
    ensures count { length list.new ≡ length list.old }
    ensures own { 0 < seq → seq ≤ length list.old → kept_at list.new seq
        ≡ record (kept_at list.old seq) { next = next } }
    ensures others { (other : ℕ) → other ≢ seq → kept_at list.new other ≡ kept_at list.old other }
{
    if seq == 0 {
        return;
    }
    let place = (seq - 1) as usize;
    if place < list.len() {
        let places = list[place];
        list[place] = EntryPlaces {
            first: places.first,
            before: places.before,
            next,
            winning: places.winning,
        };
    }
}

/// Keeps the places of the entry of the next sequence, by where its document stood before it and right
/// behind it. Allocates nothing.
pub fn add(list: &mut Vec<EntryPlaces>, before: Option<Document>, after: Option<Document>, seq: u64)
    requires { vec_len list.old < vec_capacity list.old }
    ensures { (es : List Entry) (e : Entry) → seq ≡ length es + 1
        → before ≡ document_before es (as_write e)
        → after ≡ document_before (e ∷ es) (as_write e)
        → KeepsPlaces list.old.items es → KeepsPlaces list.new.items (e ∷ es) }
{
    list.push_reserved(newest(before, after));
    put_next(list.as_mut_slice(), last_of(before), seq);
}
