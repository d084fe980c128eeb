//! Where documents stand, by their names.

ghost use Rattle.std.specs.Prelude.{◌≡◌, ℕ, List, Some, if◌then◌else◌};
ghost use Rattle.log_index.specs.declared.documents.Document.{Document};
ghost use Rattle.log_index.specs.Places as places;
ghost use Rattle.log_index.specs.Representation.{last_kept};
ghost use Rattle.std.specs.BTreeMap.{get_by_text};
ghost use Rattle.std.specs.Str.{bytes_eq};

use sg_history::DocId;
use std::collections::BTreeMap;

/// Where a document stands, by sequences: its first write, its last one, and that of its winner.
#[derive(Clone, Copy, Debug, PartialEq, Eq)]
pub struct Document {
    pub first: u64,
    pub last: u64,
    pub winning: u64,
}

/// The documents by name.
pub type Documents = BTreeMap<String, Document>;

/// Where a document stands, if it was written.
pub fn document_of(documents: &Documents, doc: &DocId) -> Option<Document>
    ensures { result ≡ get_by_text documents.now doc.now }
{
    documents.get(doc.as_str()).copied()
}

/// The sequence of a document's first write, this one where it was never written.
pub fn first_or(document: Option<Document>, seq: u64) -> u64
    ensures { result ≡ places.first_or document seq }
{
    match document {
        None => seq,
        Some(document) => document.first,
    }
}

/// The sequence of a document's last write, 0 where it stands nowhere.
pub fn last_of(document: Option<Document>) -> u64
    ensures { result ≡ last_kept document }
{
    match document {
        None => 0,
        Some(document) => document.last,
    }
}

/// Keeps of a document that is there what it was before, or nothing. Allocates nothing.
pub fn put_back(documents: &mut Documents, doc: &DocId, before: Option<Document>)
    requires { (document : Document) × (get_by_text documents.old doc.now ≡ Some document) }
    ensures { (name : List ℕ) → get_by_text documents.new name
        ≡ (if bytes_eq doc.now name then before else get_by_text documents.old name) }
{
    match before {
        None => {
            documents.remove(doc.as_str());
        }
        Some(document) => {
            if let Some(kept) = documents.get_mut(doc.as_str()) {
                *kept = document;
            }
        }
    }
}
