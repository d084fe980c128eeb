//! Rows of a feed, and what a feed is asked for.

ghost use Rattle.std.specs.Prelude.{◌≡◌, IfOk};

use sg_names::{Channels, DocId, Key, List, RevId};
use std::alloc::{AllocError, Global};

/// One row of a feed: a document that changed.
///
/// `bits` is 0 for a document, 1 for a deleted one; 4 where the document left the user's channels by a
/// write of its own (5 where that winner is deleted), and 2 where it left otherwise.
#[derive(Drop)]
pub struct Row {
    pub key: Key,
    pub doc: DocId,
    pub rev: RevId,
    pub bits: u8,
}

impl Row {
    pub fn copy(&self, alloc: Global) -> Result<Row, AllocError>
        ensures { IfOk result (λ r. r ≡ self.now) }
    {
        Ok(Row {
            key: self.key,
            doc: self.doc.copy(alloc)?,
            rev: self.rev.copy(alloc)?,
            bits: self.bits,
        })
    }
}

/// A list of rows.
pub type Rows = List<Row>;

/// What a feed is asked for.
#[derive(Drop)]
pub struct Options {
    /// Only documents in one of these channels; `*` names every document.
    pub filter: Option<Channels>,
    /// From the start, no deleted documents.
    pub active_only: bool,
    /// Also the documents that left by the end of a grant.
    pub revocations: bool,
}

impl Options {
    pub fn copy(&self, alloc: Global) -> Result<Options, AllocError>
        ensures { IfOk result (λ o. o ≡ self.now) }
    {
        Ok(Options {
            filter: match &self.filter {
                Some(filter) => Some(filter.copy(alloc)?),
                None => None,
            },
            active_only: self.active_only,
            revocations: self.revocations,
        })
    }
}
