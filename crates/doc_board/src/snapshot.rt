//! What a board says of a revision that is proposed.

ghost use Rattle.std.specs.Prelude.{◌≡◌, option_map, IfOk};
ghost use Rattle.std.specs.Option.{option_copied};
ghost use Rattle.doc_board.specs.Answers.{IsStep};
ghost use Rattle.doc_board.specs.Kept as kept;
ghost use Rattle.rev_tree.specs.Documents.{deletes};

use crate::document::{self, Document};
use repl_messages::Revision;
use rev_tree::{Extended, Tree};
use sg_history::Write;
use sg_outside::{Bytes, Memory};
use std::alloc::{AllocError, Global};
use sync_meaning::Context;

/// A board at one moment, for a revision that is proposed.
#[derive(Drop)]
pub struct Snapshot {
    /// The log's length.
    pub at: u64,
    /// The sequence of the document's last write, 0 where there is none.
    pub last: u64,
    /// The outcome of the revision in the document's tree; never lack of memory.
    pub step: Extended,
    /// The body of the write on which the revision is based, which is a document; none where its first ancestor was never written.
    pub old: Option<Bytes>,
    /// Whether that write is a deletion.
    pub old_deleted: bool,
    /// Whether the user exists who proposes it; the administrator does.
    pub user_exists: bool,
    /// Who proposes it, with the roles and channels of a user at `at`, by rising bytes; the administrator has none.
    pub context: Context,
}

/// The outcome of a revision in a document's tree, or in the tree without revisions where there is no document.
fn step_in(
    alloc: Global,
    document: Option<&Document>,
    revision: &Revision,
    strict: bool,
) -> Result<Extended, AllocError>
    ensures { IfOk result (IsStep (kept.kept_nodes
        (option_copied document.entry)) revision.now strict) }
{
    let empty = Tree::new(alloc);
    let tree = match document {
        None => &empty,
        Some(document) => &document.tree,
    };
    let step = step_of(tree, revision, strict);
    drop(empty);
    step
}

fn step_of(tree: &Tree, revision: &Revision, strict: bool) -> Result<Extended, AllocError>
    ensures { IfOk result (IsStep tree.now revision.now strict) }
{
    let ancestors = revision.ancestors.as_slice();
    match tree.extend(&revision.rev, revision.deleted, ancestors, strict) {
        Extended::Memory => Err(AllocError),
        step => Ok(step),
    }
}

fn body_of(alloc: Global, write: Option<&Write>) -> Result<Option<Bytes>, AllocError>
    ensures { IfOk result (λ body. body ≡ option_map (λ w. w.body) (option_copied write.entry)) }
{
    match write {
        None => Ok(None),
        Some(write) => Ok(Some(write.body.copy(alloc)?)),
    }
}

fn is_deletion(write: Option<&Write>) -> bool
    ensures { result ≡ deletes (option_copied write.entry) }
{
    match write {
        None => false,
        Some(write) => write.deleted,
    }
}

/// The outcome of a revision in a document's tree, and the body of the write on which the revision is based.
#[derive(Drop)]
struct Found {
    step: Extended,
    old: Option<Bytes>,
}

fn outcome_of(
    alloc: Global,
    document: Option<&Document>,
    base: Option<&Write>,
    revision: &Revision,
    strict: bool,
) -> Result<Found, AllocError>
    ensures step { IfOk result (λ o. IsStep (kept.kept_nodes (option_copied document.entry))
        revision.now strict o.step) }
    ensures old { IfOk result (λ o. o.old ≡ option_map (λ w. w.body) (option_copied base.entry)) }
{
    let step = step_in(alloc, document, revision, strict)?;
    match body_of(alloc, base) {
        Ok(old) => Ok(Found { step, old }),
        Err(error) => {
            drop(step);
            Err(error)
        }
    }
}

/// Whether the one who proposes a revision exists, and who that is.
#[derive(Drop)]
pub(crate) struct Proposer {
    pub(crate) exists: bool,
    pub(crate) context: Context,
}

/// What a board says of a revision that is proposed, at a front, with what it keeps of the document, the write on which the revision
/// is based, and the one who proposes it.
pub(crate) fn snapshot_of(
    alloc: Global,
    at: u64,
    document: Option<&Document>,
    base: Option<&Write>,
    revision: &Revision,
    strict: bool,
    by: Proposer,
) -> Result<Snapshot, Memory>
    ensures at { IfOk result (λ s. s.at ≡ at) }
    ensures last { IfOk result (λ s. s.last ≡ kept.kept_last (option_copied document.entry)) }
    ensures step { IfOk result (λ s. IsStep (kept.kept_nodes (option_copied document.entry))
        revision.now strict s.step) }
    ensures old { IfOk result (λ s. s.old ≡ option_map (λ w. w.body) (option_copied base.entry)) }
    ensures old_deleted { IfOk result (λ s. s.old_deleted ≡ deletes (option_copied base.entry)) }
    ensures user { IfOk result (λ s. s.user_exists ≡ by.exists) }
    ensures context { IfOk result (λ s. s.context ≡ by.context) }
{
    match outcome_of(alloc, document, base, revision, strict) {
        Ok(Found { step, old }) => Ok(Snapshot {
            at,
            last: document::last_of(document),
            step,
            old,
            old_deleted: is_deletion(base),
            user_exists: by.exists,
            context: by.context,
        }),
        Err(error) => {
            drop(by);
            Err(error)
        }
    }
}
