//! The index.

ghost use Rattle.std.specs.Prelude.{◌≡◌, ◌<◌, [], ◌∷◌, length, OnOk, OnErr, IfOk};
ghost use Rattle.sg_history.specs.History.{as_write};
ghost use Rattle.log_index.specs.Marks.{entries_up_to, marked_up_to};
ghost use Rattle.log_index.specs.Places.{document_at, revision_seq, document_before, before_at, after_at, next_at};

use crate::documents::{Document, last_of};
use crate::entry_places::{EntryPlaces, add, behind, of_entry};
use crate::marks::Marked;
use crate::tables::Tables;
use crate::taken::Taken;
use sg_history::{DocId, Entry, RevId};
use std::alloc::{AllocError, Global};
use std::marker::Model;

/// An index of a history, which contracts see as its entries, the newest first. For each entry, and
/// for each mark of a replaced sync function, it keeps at most a name, a digest and some numbers.
#[derive(Drop)]
pub struct LogIndex {
    tables: Tables,
    places: Vec<EntryPlaces>,
    taken: Taken,
}

impl Model for LogIndex {
    ghost use Rattle.std.specs.Prelude.{List};
    ghost use Rattle.sg_history.specs.declared.entries.Entry.{Entry};
    ghost use Rattle.log_index.specs.Representation.{HasPlaces, KeepsPlaces};

    ghost Value = { List Entry };

    ghost view = { λ i. i.taken };

    ghost invariant = { λ i. HasPlaces i.tables i.taken
        × KeepsPlaces i.places.items i.taken };
}

impl LogIndex {
    /// The index of no entries. Allocates nothing.
    pub fn new(alloc: Global) -> LogIndex
        ensures { result ≡ [] }
    {
        LogIndex {
            tables: Tables::new(alloc),
            places: Vec::new(alloc),
            taken: Taken::new(),
        }
    }

    /// How many entries it has.
    pub fn count(&self) -> u64
        ensures { result ≡ length self.now }
    {
        self.tables.count
    }

    /// Where a document stands, if it was written. Allocates nothing.
    pub fn document(&self, doc: &DocId) -> Option<Document>
        ensures { result ≡ document_at self.now doc.now }
    {
        self.tables.document(doc)
    }

    /// The sequence of the write of a document's revision, if it was written.
    pub fn revision(&self, doc: &DocId, rev: &RevId) -> Result<Option<u64>, AllocError>
        ensures { IfOk result (λ found. found ≡ revision_seq self.now doc.now rev.now) }
    {
        self.tables.revision(doc, rev)
    }

    /// Where the document that the entry of a sequence writes stood before that entry: none where it
    /// was never written before, and where the entry is no write. Allocates nothing.
    pub fn before(&self, seq: u64) -> Option<Document>
        ensures { result ≡ before_at self.now seq }
    {
        let places = self.places.as_slice();
        behind(places, of_entry(places, seq).before)
    }

    /// Where the document that the entry of a sequence writes stood right behind that entry: none where
    /// the entry is no write. Allocates nothing.
    pub fn after(&self, seq: u64) -> Option<Document>
        ensures { result ≡ after_at self.now seq }
    {
        behind(self.places.as_slice(), seq)
    }

    /// The sequence of the next write of the document that the entry of a sequence writes: none where the
    /// index has no later one, and where the entry is no write. Allocates nothing.
    pub fn next(&self, seq: u64) -> Option<u64>
        ensures { result ≡ next_at self.now seq }
    {
        let next = of_entry(self.places.as_slice(), seq).next;
        if next == 0 {
            return None;
        }
        Some(next)
    }

    /// Where a document stood after the entries up to a place, if it was written by then. It goes back from the
    /// document's last write, write by write. Allocates nothing.
    pub fn document_up_to(&self, doc: &DocId, place: u64) -> Option<Document>
        ensures { result ≡ document_at (entries_up_to self.now place) doc.now }
    {
        let mut found = self.document(doc);
        let mut last = last_of(found);
        while last > place {
            found = self.before(last);
            last = last_of(found);
        }
        found
    }

    /// Where the effects of the revision that the entry of a sequence writes stand after the entries up to a
    /// place: none where they are those that it has itself, and where the entry is no write. Allocates
    /// nothing.
    pub fn marked(&self, write: u64, up_to: u64) -> Option<Marked>
        ensures { result ≡ marked_up_to self.now write up_to }
    {
        self.tables.marked(write, up_to)
    }

    /// Takes the next entry, and answers where the document that it writes stands after it: none
    /// where it is no write. Out of memory leaves the index as it was.
    pub fn push(&mut self, entry: &Entry) -> Result<Option<Document>, AllocError>
        requires { length self.old < 18446744073709551615 }
        ensures document { IfOk result (λ document. document
            ≡ document_before (entry.now ∷ self.old) (as_write entry.now)) }
        ensures ok { OnOk result (self.new ≡ entry.now ∷ self.old) }
        ensures err { OnErr result (self.new ≡ self.old) }
    {
        let seq = self.tables.count + 1;
        let before = self.tables.place_of_write(entry.as_write());
        self.places.reserve(1)?;
        let document = self.tables.keep(entry, before, seq)?;
        self.tables.count = seq;
        add(&mut self.places, before, document, seq);
        self.taken.add(entry);
        Ok(document)
    }
}
