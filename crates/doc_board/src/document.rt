//! What a board keeps of each document.

ghost use Rattle.std.specs.Prelude.{◌≡◌, ℕ, List, Some, is_some, OnOk, OnErr, IsTrue, if◌then◌else◌};
ghost use Rattle.std.specs.Str.{bytes_eq};
ghost use Rattle.std.specs.BTreeMap.{get_by_text};
ghost use Rattle.std.specs.Option.{option_copied};
ghost use Rattle.doc_board.specs.Kept as kept;

use rev_tree::Tree;
use sg_history::DocId;
use std::alloc::{AllocError, Global};
use std::collections::BTreeMap;

/// A document: the sequence of its last write, 0 where it was never written, and its tree.
#[derive(Drop)]
pub struct Document {
    pub last: u64,
    pub tree: Tree,
}

/// The documents by name.
pub type Documents = BTreeMap<String, Document>;

/// The document of a name.
pub fn document_of<'a>(documents: &'a Documents, doc: &DocId) -> Option<&'a Document>
    ensures { option_copied result ≡ get_by_text documents.now doc.now }
{
    documents.get(doc.as_str())
}

/// The sequence of a document's last write, 0 where there is none.
pub fn last_of(document: Option<&Document>) -> u64
    ensures { result ≡ kept.kept_last (option_copied document.entry) }
{
    match document {
        None => 0,
        Some(document) => document.last,
    }
}

/// A document's tree, where it was written.
pub fn tree_of(document: Option<&Document>) -> Option<&Tree>
    ensures { option_copied result ≡ kept.kept_tree (option_copied document.entry) }
{
    match document {
        Some(document) if document.last != 0 => Some(&document.tree),
        _ => None,
    }
}

/// Makes a place for a document, unless it has one.
fn make_place(alloc: Global, documents: &mut Documents, doc: &DocId) -> Result<(), AllocError>
    ensures ok { OnOk result ((name : List ℕ) → get_by_text documents.new name ≡ kept.placed
        (Some doc.now) documents.old name) }
    ensures err { OnErr result ((name : List ℕ) → get_by_text documents.new name
        ≡ get_by_text documents.old name) }
{
    if document_of(documents, doc).is_some() {
        return Ok(());
    }
    let name = String::from_str(alloc, doc.as_str())?;
    let blank = Document {
        last: 0,
        tree: Tree::new(alloc),
    };
    match documents.insert(name, blank) {
        Ok(old) => {
            drop(old);
            Ok(())
        }
        Err(refused) => {
            drop(refused);
            Err(AllocError)
        }
    }
}

/// Makes a place for a document, where there is one to be made for, unless it has one.
pub fn make_place_for(
    alloc: Global,
    documents: &mut Documents,
    doc: Option<&DocId>,
) -> Result<(), AllocError>
    ensures ok { OnOk result ((name : List ℕ) → get_by_text documents.new name ≡ kept.placed
        (option_copied doc.entry) documents.old name) }
    ensures err { OnErr result ((name : List ℕ) → get_by_text documents.new name
        ≡ get_by_text documents.old name) }
{
    match doc {
        None => Ok(()),
        Some(doc) => make_place(alloc, documents, doc),
    }
}

/// Keeps this of a document that has a place. Allocates nothing.
pub fn put(documents: &mut Documents, doc: &DocId, document: Document)
    requires { IsTrue (is_some (get_by_text documents.old doc.now)) }
    ensures { (name : List ℕ) → get_by_text documents.new name
        ≡ (if bytes_eq doc.now name then Some document else get_by_text documents.old name) }
{
    if let Some(place) = documents.get_mut(doc.as_str()) {
        *place = document;
    }
}
