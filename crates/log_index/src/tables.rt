//! The tables of an index.

ghost use Rattle.std.specs.Prelude.{◌≡◌, ◌+◌, ℕ, List, [], ◌∷◌, length, Some, None, option_map, OnOk, OnErr, IfOk};
ghost use Rattle.std.specs.Option.{option_copied};
ghost use Rattle.std.specs.BTreeMap.{get_by_text};
ghost use Rattle.sg_history.specs.declared.entries.Entry.{Entry};
ghost use Rattle.sg_history.specs.declared.entries.Entry.TheVariants as kinds;
ghost use Rattle.sg_history.specs.History.{as_sync, as_write};
ghost use Rattle.sg_history.specs.Puts.{replacement_in};
ghost use Rattle.log_index.specs.Marks.{marked_up_to};
ghost use Rattle.log_index.specs.Places.{document_at, document_before, revision_seq};
ghost use Rattle.log_index.specs.Representation.{HasPlaces, first_rev, firsts_of, kept_of, winning_seq};

use crate::by_name::put;
use crate::documents::{Document, Documents, document_of, first_or, put_back};
use crate::mark_places::{MarkPlaces, last_place, put_places};
use crate::marks::Marked;
use crate::revisions::{Repeats, Revisions, first_of, put_revision, seq_of};
use sg_history::{DocId, Entry, Mark, Replacement, RevId, Write};
use std::alloc::{AllocError, Global};
use std::collections::BTreeMap;

/// Where documents, revisions and marks stand, and how many entries there are.
#[derive(Drop)]
pub struct Tables {
    alloc: Global,
    pub count: u64,
    documents: Documents,
    revisions: Revisions,
    repeats: Repeats,
    marks: MarkPlaces,
}

impl Tables {
    /// Those of no entries. Allocates nothing.
    pub fn new(alloc: Global) -> Tables
        ensures { HasPlaces result [] }
    {
        Tables {
            alloc,
            count: 0,
            documents: BTreeMap::new(alloc),
            revisions: BTreeMap::new(alloc),
            repeats: BTreeMap::new(alloc),
            marks: BTreeMap::new(alloc),
        }
    }

    /// Where a document stands, if it was written. Allocates nothing.
    pub fn document(&self, doc: &DocId) -> Option<Document>
        ensures { (es : List Entry) → HasPlaces self.now es → result ≡ document_at es doc.now }
    {
        document_of(&self.documents, doc)
    }

    /// The sequence of the write of a document's revision, if it was written.
    pub fn revision(&self, doc: &DocId, rev: &RevId) -> Result<Option<u64>, AllocError>
        ensures { IfOk result (λ found. (es : List Entry) → HasPlaces self.now es
            → found ≡ revision_seq es doc.now rev.now) }
    {
        match document_of(&self.documents, doc) {
            None => Ok(None),
            Some(document) => seq_of(self.alloc, &self.revisions, document.first, rev),
        }
    }

    /// The last mark up to a place of the revision written at a sequence. Allocates nothing.
    pub fn marked(&self, write: u64, up_to: u64) -> Option<Marked>
        ensures { (es : List Entry) → HasPlaces self.now es → result ≡ marked_up_to es write up_to }
    {
        if up_to < write {
            return None;
        }
        let first = first_of(&self.repeats, write);
        last_place(&self.marks, first, write, up_to)
    }

    /// Where the document of a write stands, if there is a write and its document was written.
    pub fn place_of_write(&self, write: Option<&Write>) -> Option<Document>
        ensures kept { result ≡ kept_of self.now (option_copied write.entry) }
        ensures before { (es : List Entry) → HasPlaces self.now es
            → result ≡ document_before es (option_copied write.entry) }
    {
        match write {
            None => None,
            Some(write) => document_of(&self.documents, &write.doc),
        }
    }

    /// Keeps what an entry of this sequence says, by where its document stood before it, and answers
    /// where that stands now.
    pub fn keep(
        &mut self,
        entry: &Entry,
        before: Option<Document>,
        seq: u64,
    ) -> Result<Option<Document>, AllocError>
        requires { before ≡ kept_of self.old (as_write entry.now) }
        ensures kept { IfOk result (λ document. document
            ≡ kept_of self.new (as_write entry.now)) }
        ensures ok { OnOk result ((es : List Entry) → seq ≡ length es + 1 → HasPlaces self.old es
            → HasPlaces (record self.new { count = seq }) (entry.now ∷ es)) }
        ensures err { OnErr result ((es : List Entry) → seq ≡ length es + 1 → HasPlaces self.old es
            → HasPlaces self.new es) }
        ensures count { self.new.count ≡ self.old.count }
    {
        match entry.as_write() {
            Some(write) => Ok(Some(self.keep_write(write, before, seq)?)),
            None => {
                self.keep_sync(entry.as_sync(), seq)?;
                Ok(None)
            }
        }
    }

    /// The sequence of the first write of a mark's revision, if it was written.
    fn first_of_mark(&self, mark: &Mark) -> Result<Option<u64>, AllocError>
        ensures { IfOk result (λ first. (es : List Entry) → HasPlaces self.now es
            → first ≡ first_rev es mark.now.doc mark.now.rev) }
    {
        match self.revision(&mark.doc, &mark.rev)? {
            None => Ok(None),
            Some(seq) => Ok(Some(first_of(&self.repeats, seq))),
        }
    }

    /// The sequences of the first writes of the revisions of marks.
    fn firsts(&self, marks: &[Mark]) -> Result<Vec<Option<u64>>, AllocError>
        ensures { IfOk result (λ list. (es : List Entry) → HasPlaces self.now es
            → list.items ≡ firsts_of es marks.now) }
    {
        let mut list = Vec::with_capacity(self.alloc, marks.len())?;
        for mark in marks {
            let first = self.first_of_mark(mark)?;
            list.push(first)?;
        }
        Ok(list)
    }

    /// Keeps the places of the marks of the replacement of this sequence, if there is one.
    fn keep_sync(
        &mut self,
        replacement: Option<Replacement<'_>>,
        seq: u64,
    ) -> Result<(), AllocError>
        ensures ok { OnOk result ((es : List Entry) (e : Entry) → as_write e ≡ None
            → as_sync e ≡ option_map replacement_in replacement.entry → seq ≡ length es + 1
            → HasPlaces self.old es → HasPlaces (record self.new { count = seq }) (e ∷ es)) }
        ensures err { OnErr result ((es : List Entry) → seq ≡ length es + 1 → HasPlaces self.old es
            → HasPlaces self.new es) }
        ensures count { self.new.count ≡ self.old.count }
    {
        match replacement {
            None => Ok(()),
            Some(replacement) => {
                let firsts = self.firsts(replacement.marks.as_slice())?;
                put_places(&mut self.marks, firsts.as_slice(), seq)
            }
        }
    }

    /// The sequence of the winner's write after a write of this sequence.
    fn winning(&self, write: &Write, first: u64, seq: u64) -> Result<u64, AllocError>
        ensures { IfOk result (λ winning. winning ≡ winning_seq self.now write.now first seq) }
    {
        if write.rev.equals(&write.winner) {
            return Ok(seq);
        }
        let found = seq_of(self.alloc, &self.revisions, first, &write.winner)?;
        Ok(found.unwrap_or(seq))
    }

    fn keep_write(
        &mut self,
        write: &Write,
        before: Option<Document>,
        seq: u64,
    ) -> Result<Document, AllocError>
        requires { before ≡ get_by_text self.old.documents write.now.doc }
        ensures kept { IfOk result (λ document. get_by_text self.new.documents write.now.doc
            ≡ Some document) }
        ensures ok { OnOk result ((es : List Entry) (e : Entry) → e ≡ kinds.Write write.now
            → seq ≡ length es + 1 → HasPlaces self.old es
            → HasPlaces (record self.new { count = seq }) (e ∷ es)) }
        ensures err { OnErr result ((es : List Entry) → HasPlaces self.old es
            → HasPlaces self.new es) }
        ensures count { self.new.count ≡ self.old.count }
    {
        let first = first_or(before, seq);
        let document = Document {
            first,
            last: seq,
            winning: self.winning(write, first, seq)?,
        };
        put(
            self.alloc,
            &mut self.documents,
            write.doc.as_str(),
            document,
        )?;
        match put_revision(
            self.alloc,
            &mut self.revisions,
            &mut self.repeats,
            first,
            &write.rev,
            seq,
        ) {
            Ok(()) => Ok(document),
            Err(fault) => {
                put_back(&mut self.documents, &write.doc, before);
                Err(fault)
            }
        }
    }
}
