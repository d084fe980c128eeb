//! A board of a log that was recorded.

ghost use Rattle.std.specs.Prelude.{◌≡◌, ◌≢◌, [], ◌∷◌, ℕ, min, List, true, false, reverse, option_map, Some, Err, IfOk, IfSome, IfNone, OnOk};
ghost use Rattle.std.specs.BTreeMap.{get_by_text};
ghost use Rattle.sg_history.specs.declared.entries.Entry.TheVariants as kinds;
ghost use Rattle.sg_history.specs.History.{as_write};
ghost use Rattle.rev_tree.specs.Tree.{winner_of};
ghost use Rattle.rev_tree.specs.Writes.{AreAccepted};
ghost use Rattle.doc_board.specs.Boards.{body_size, bytes_stored};
ghost use Rattle.doc_board.specs.Candidates.{ExtendsTree};
ghost use Rattle.doc_board.specs.Kept.{AreKept, kept_nodes};
ghost use Rattle.doc_board.specs.Recorded.{HasDocument, IsFollowingWrite, MayFollow, FollowsTree, AreFollowing, IsFirstRefused};
ghost use Rattle.rev_tree.specs.Documents.{writes_of};

use crate::document::{self, Document, Documents};
use json_doc::{DocFault, read_doc};
use rev_tree::{Extended, Tree};
use sg_history::{Entry, RevId, Write};
use std::alloc::{AllocError, Global};
use std::collections::BTreeMap;

/// Why a log is that of no board. `Memory` says that memory ran out, which may come at any log.
#[derive(Clone, Copy, Debug, PartialEq, Eq)]
pub enum OpenFault {
    /// The entry of this sequence is the first that replaces the sync function, or that is a write whose body is no document, that is
    /// no accepted extension of the tree of its document's writes before it, or that names another winner than the tree then has.
    Bad { sequence: u64 },
    Memory,
}

/// Whether a body is a document.
fn is_document(alloc: Global, body: &[u8]) -> Result<bool, AllocError>
    ensures yes { IfOk result (λ found. found ≡ true → HasDocument body.now) }
    ensures no { IfOk result (λ found. found ≡ false → ¬ HasDocument body.now) }
{
    match read_doc(alloc, body) {
        Ok(doc) => {
            drop(doc);
            Ok(true)
        }
        Err(DocFault::Memory) => Err(AllocError),
        Err(_) => Ok(false),
    }
}

/// Whether the tree's winner is this revision.
fn wins(tree: &Tree, rev: &RevId) -> bool
    ensures yes { result ≡ true → option_map (λ l. l.rev) (winner_of tree.now) ≡ Some rev.now }
    ensures no { result ≡ false → option_map (λ l. l.rev) (winner_of tree.now) ≢ Some rev.now }
{
    match tree.winner() {
        None => false,
        Some(winner) => winner.rev.equals(rev),
    }
}

/// The tree after a write, where that write is an accepted extension with all its ancestors, and names the winner.
fn extended(tree: &Tree, write: &Write) -> Result<Option<Tree>, AllocError>
    ensures some { IfOk result (λ found. IfSome found
        (λ after. ExtendsTree tree.now write.now after)) }
    ensures follows { IfOk result (λ found. IfSome found (λ after. FollowsTree tree.now write.now)) }
    ensures none { IfOk result (λ found. IfNone found (¬ FollowsTree tree.now write.now)) }
{
    let ancestors = write.ancestors.as_slice();
    match tree.extend(&write.rev, write.deleted, ancestors, false) {
        Extended::NewTree { tree, kept } => {
            if kept == ancestors.len() as u64 && wins(&tree, &write.winner) {
                Ok(Some(tree))
            } else {
                drop(tree);
                Ok(None)
            }
        }
        Extended::Memory => Err(AllocError),
        _ => Ok(None),
    }
}

impl From<AllocError> for OpenFault {
    ghost use Rattle.std.specs.Prelude.{◌≡◌};
    ghost use Rattle.doc_board.specs.declared.open.OpenFault.{OpenFault};
    ghost use Rattle.doc_board.specs.declared.open.OpenFault.TheVariants.{Memory};

    ghost from_gives = { λ _ fault. fault ≡ Memory };

    fn from(_refused: AllocError) -> OpenFault {
        OpenFault::Memory
    }
}

/// The tree of a document after a write.
fn tree_after(
    alloc: Global,
    documents: &Documents,
    write: &Write,
) -> Result<Option<Tree>, AllocError>
    ensures some { IfOk result (λ found. IfSome found
        (λ after. ExtendsTree (kept_nodes
        (get_by_text documents.now write.now.doc)) write.now after)) }
    ensures next { IfOk result (λ found. IfSome found
        (λ after. IsFollowingWrite (kept_nodes (get_by_text documents.now write.now.doc)) write.now)) }
    ensures none { IfOk result (λ found. IfNone found
        (¬ IsFollowingWrite (kept_nodes (get_by_text documents.now write.now.doc)) write.now)) }
{
    if !is_document(alloc, write.body.as_slice())? {
        return Ok(None);
    }
    let empty = Tree::new(alloc);
    let tree = match document::document_of(documents, &write.doc) {
        None => &empty,
        Some(document) => &document.tree,
    };
    let after = extended(tree, write);
    drop(empty);
    after
}

/// Takes a write after older entries: false where no board has it after them.
fn take_write(
    alloc: Global,
    documents: &mut Documents,
    older: &[Entry],
    write: &Write,
) -> Result<bool, AllocError>
    requires kept { AreKept (reverse older.now) documents.old }
    requires accepted { (doc : List ℕ) → AreAccepted (writes_of (reverse older.now) doc) }
    ensures kept { IfOk result (λ follows. follows ≡ true → AreKept
        (kinds.Write write.now ∷ reverse older.now) documents.new) }
    ensures accepted { IfOk result (λ follows. follows ≡ true → (doc : List ℕ) → AreAccepted
        (writes_of (kinds.Write write.now ∷ reverse older.now) doc)) }
    ensures yes { IfOk result (λ follows. follows ≡ true → MayFollow
        (reverse older.now) (kinds.Write write.now)) }
    ensures no { IfOk result (λ follows. follows ≡ false → ¬ MayFollow
        (reverse older.now) (kinds.Write write.now)) }
{
    let Some(tree) = tree_after(alloc, documents, write)? else {
        return Ok(false);
    };
    match document::make_place_for(alloc, documents, Some(&write.doc)) {
        Ok(()) => {
            let last = older.len() as u64 + 1;
            document::put(documents, &write.doc, Document { last, tree });
            Ok(true)
        }
        Err(error) => {
            drop(tree);
            Err(error)
        }
    }
}

/// Takes an entry after older ones: false where no board has it after them.
fn take(
    alloc: Global,
    documents: &mut Documents,
    older: &[Entry],
    entry: &Entry,
) -> Result<bool, AllocError>
    requires kept { AreKept (reverse older.now) documents.old }
    requires accepted { (doc : List ℕ) → AreAccepted (writes_of (reverse older.now) doc) }
    ensures kept { IfOk result (λ follows. follows ≡ true → AreKept
        (entry.now ∷ reverse older.now) documents.new) }
    ensures accepted { IfOk result (λ follows. follows ≡ true → (doc : List ℕ) → AreAccepted
        (writes_of (entry.now ∷ reverse older.now) doc)) }
    ensures yes { IfOk result (λ follows. follows ≡ true → MayFollow
        (reverse older.now) entry.now) }
    ensures no { IfOk result (λ follows. follows ≡ false → ¬ MayFollow
        (reverse older.now) entry.now) }
{
    match entry {
        Entry::Write(write) => take_write(alloc, documents, older, write),
        Entry::Sync(_, _) => Ok(false),
        _ => Ok(true),
    }
}

/// Takes recorded entries, one after the other.
fn take_all(alloc: Global, documents: &mut Documents, entries: &[Entry]) -> Result<(), OpenFault>
    requires { AreKept [] documents.old }
    ensures kept { OnOk result (AreKept (reverse entries.now) documents.new) }
    ensures accepted { OnOk result ((doc : List ℕ) → AreAccepted
        (writes_of (reverse entries.now) doc)) }
    ensures following { OnOk result (AreFollowing (reverse entries.now)) }
    ensures bad { (sequence : ℕ) → result ≡ Err (OpenFault.Bad sequence)
        → IsFirstRefused entries.now sequence }
{
    for (i, entry) in entries.iter().enumerate() {
        let older = &entries[..i];
        if !take(alloc, documents, older, entry)? {
            return Err(OpenFault::Bad {
                sequence: i as u64 + 1,
            });
        }
    }
    Ok(())
}

/// The documents of recorded entries.
pub(crate) fn documents_of(alloc: Global, entries: &[Entry]) -> Result<Documents, OpenFault>
    ensures kept { IfOk result (λ documents. AreKept (reverse entries.now) documents) }
    ensures accepted { IfOk result (λ documents. (doc : List ℕ) → AreAccepted
        (writes_of (reverse entries.now) doc)) }
    ensures following { IfOk result (λ documents. AreFollowing (reverse entries.now)) }
    ensures bad { (sequence : ℕ) → result ≡ Err (OpenFault.Bad sequence)
        → IsFirstRefused entries.now sequence }
{
    let mut documents = BTreeMap::new(alloc);
    match take_all(alloc, &mut documents, entries) {
        Ok(()) => Ok(documents),
        Err(fault) => {
            drop(documents);
            Err(fault)
        }
    }
}

/// How many bytes the body of an entry has, where it is a write.
fn size_of(entry: &Entry) -> u64
    ensures { result ≡ body_size (as_write entry.now) }
{
    match entry.as_write() {
        None => 0,
        Some(write) => write.body.len() as u64,
    }
}

/// The bytes of all bodies of recorded entries, or the greatest number of 64 bits.
pub(crate) fn bytes_of(entries: &[Entry]) -> u64
    ensures { result ≡ min (bytes_stored entries.now) 18446744073709551615 }
{
    let mut bytes: u64 = 0;
    for entry in entries {
        bytes = bytes.saturating_add(size_of(entry));
    }
    bytes
}
