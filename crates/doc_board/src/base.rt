//! The write on which a revision is based, among those that wait and those of the log.

ghost use Rattle.std.specs.Prelude.{◌≡◌, ℕ, nat_eq, List, reverse, unwrap_or, IfOk};
ghost use Rattle.std.specs.HashMap.{get};
ghost use Rattle.std.specs.Option.{option_copied};
ghost use Rattle.sg_history.specs.Book.{waiting_at};
ghost use Rattle.sg_history.specs.History.{entries_of};
ghost use Rattle.log_index.specs.Index.{Indexes};
ghost use Rattle.rev_tree.specs.Documents.{last_in, base_in};
ghost use Rattle.doc_board.specs.inner.Based.{IsFound, entry_write, written_rev};
ghost use Rattle.doc_board.specs.Storage.{StandsWith, book_in, top_in};

use crate::storage::Storage;
use crate::waiting::Bases;
use log_index::LogIndex;
use log_views::write_of_rev;
use pending_front::Pending;
use sg_history::laws::books;
use sg_history::{DocId, RevId, Write};
use sg_outside::Memory;

/// The write that waits under a number, if one does.
fn write_at(pending: &Pending, number: u64) -> Option<&Write>
    ensures { option_copied result ≡ entry_write (waiting_at pending.now.waiting number) }
{
    match pending.at(number) {
        None => None,
        Some(entry) => entry.as_write(),
    }
}

/// The number that is kept for a write that waits.
fn base_at(bases: &Bases, number: u64) -> u64
    ensures { result ≡ unwrap_or (get nat_eq bases.now number) 0 }
{
    match bases.get(&number) {
        None => 0,
        Some(base) => *base,
    }
}

/// The write of a revision among those that wait, from the last write of its document down, each by the number of the one before
/// it.
fn waiting_write<'a>(storage: &'a Storage, last: u64, rev: &RevId) -> Option<&'a Write>
    requires { StandsWith storage.now 0 }
    ensures { (doc : List ℕ) → last ≡ last_in (book_in storage.now) (top_in storage.now) doc
        → IsFound (entries_of storage.now.log) storage.now.pending.waiting doc rev.now
        (option_copied result) }
{
    let front = storage.log.entries.as_slice().len() as u64;
    let mut number = last;
    for _ in front..last {
        if number <= front {
            return None;
        }
        let Some(write) = write_at(&storage.pending, number) else {
            return None;
        };
        if write.rev.equals(rev) {
            return Some(write);
        }
        number = base_at(&storage.bases, number);
    }
    None
}

/// The write of a revision of a document, whose last write has this number, in a board's book.
fn write_of<'a>(
    storage: &'a Storage,
    index: &LogIndex,
    last: u64,
    doc: &DocId,
    rev: &RevId,
) -> Result<Option<&'a Write>, Memory>
    requires stands { StandsWith storage.now 0 }
    requires index { Indexes index.now (reverse (entries_of storage.now.log)) }
    requires last { last ≡ last_in (book_in storage.now) (top_in storage.now) doc.now }
    ensures { IfOk result (λ found. option_copied found
        ≡ written_rev (entries_of storage.now.log) storage.now.pending.waiting doc.now rev.now) }
{
    books();
    match waiting_write(storage, last, rev) {
        Some(write) => Ok(Some(write)),
        None => write_of_rev(index, storage.log.entries.as_slice(), doc, rev),
    }
}

/// The write of the first of these ancestors in a board's book; none where that one was never written. The document's last write has
/// this number.
pub fn base_of<'a>(
    storage: &'a Storage,
    index: &LogIndex,
    last: u64,
    doc: &DocId,
    ancestors: &[RevId],
) -> Result<Option<&'a Write>, Memory>
    requires stands { StandsWith storage.now 0 }
    requires index { Indexes index.now (reverse (entries_of storage.now.log)) }
    requires last { last ≡ last_in (book_in storage.now) (top_in storage.now) doc.now }
    ensures { IfOk result (λ found. option_copied found
        ≡ base_in (book_in storage.now) (top_in storage.now) doc.now ancestors.now) }
{
    match ancestors.first() {
        None => Ok(None),
        Some(parent) => write_of(storage, index, last, doc, parent),
    }
}
