//! Proposals: a revision is read, judged by the board, and stored.

ghost use Rattle.std.specs.Prelude.{◌≡◌, ◌≤◌, ◌+◌, ◌++◌, ◌∷◌, ◌||◌, [], true, length, Some, Ok, IfOk, IfErr, OnErr};
ghost use Rattle.std.specs.Option.{option_copied};
ghost use Rattle.sg_names.specs.RevId as names;
ghost use Rattle.sg_names.specs.Revs as lists;
ghost use Rattle.sg_history.specs.declared.entries.Entry.TheVariants as kinds;
ghost use Rattle.json_doc.specs.Reading.{IsDocument};
ghost use Rattle.json_doc.specs.View.{node_tree};
ghost use Rattle.rev_tree.specs.declared.extend.Extended.TheVariants as extended;
ghost use Rattle.rev_tree.specs.Extension.{extends_tree};
ghost use Rattle.rev_tree.specs.Writes.{AreAccepted};
ghost use Rattle.sync_syntax.specs.declared.tree.Program.{Program};
ghost use Rattle.doc_board.specs.Boards.{board_of};
ghost use Rattle.doc_board.specs.Lawful.{AreEntries};
ghost use Rattle.doc_board.specs.Limits.{refusal};
ghost use Rattle.doc_board.specs.Outcomes.{IsByLimits, IsJudged, IsOutcome, IsWellFormed, bytes_of};
ghost use Rattle.doc_board.specs.State.{book_on, writes_on};
ghost use Rattle.board_steps.specs.After.{IsBoardCommanded, IsAsBefore, IsBoardAfter};
ghost use Rattle.board_steps.specs.Retry.{IsHeldReady, IsReady, IsTurnedDown};
ghost use Rattle.board_steps.specs.Shape.{IsAnsweredBy, IsRefusal, IsStoredBut};
ghost use Rattle.board_steps.specs.Verdicts.{IsExtension, IsExtensionAt, IsSnapshot, IsStoppedBy};

use crate::accepted::{Judged, accepted_of, ready_with};
use crate::fresh::put_next;
use crate::judging::{Basis, document_in};
use crate::refused::no_room_outcome;
use crate::retry::Ready;
use doc_board::laws::{alone, boards, few_ancestors, winners};
use doc_board::{Board, Candidate, MOST_BODY_BYTES, NoRoom, Outcome, Snapshot};
use json_doc::Doc;
use repl_messages::{Field, Revision};
use rev_tree::laws::extensions;
use rev_tree::{Extended, Tree};
use sg_history::{Name, RevId};
use sg_outside::Memory;
use std::alloc::Global;
use sync_resolve::Resolved;

fn is_rev(rev: &RevId) -> bool
    ensures { result ≡ names.is_rev rev.now }
{
    let _ = rev.digest.as_bytes();
    rev.generation >= 1
}

fn are_revs(revs: &[RevId]) -> bool
    ensures { result ≡ lists.is_revs revs.now }
{
    revs.iter().all(|r| is_rev(r))
}

/// The document of a revision that is well formed, or its refusal: of its names, its size, or its body.
fn document_of(alloc: Global, revision: &Revision) -> Result<Doc, Outcome>
    ensures formed { IfOk result (λ doc. IsWellFormed revision.now) }
    ensures document { IfOk result (λ doc. IsDocument revision.now.body (node_tree doc)) }
    ensures refusal { IfErr result (IsRefusal revision.now) }
{
    let _ = revision.doc.as_str();
    if !is_rev(&revision.rev) {
        return Err(Outcome::Bad400 { field: Field::Rev });
    }
    if !are_revs(revision.ancestors.as_slice()) {
        return Err(Outcome::Bad400 {
            field: Field::History,
        });
    }
    let bytes = revision.body.len() as u64;
    if bytes > MOST_BODY_BYTES {
        return Err(Outcome::TooLarge413 { bytes });
    }
    match document_in(alloc, revision.body.as_slice()) {
        Ok(Some(doc)) => Ok(doc),
        Ok(None) => Err(Outcome::Bad400 { field: Field::Body }),
        Err(_) => Err(Outcome::Memory507),
    }
}

/// The same for a revision whose body copies then share.
pub fn share_and_read(alloc: Global, revision: &mut Revision) -> Result<Doc, Outcome>
    ensures same { revision.new ≡ revision.old }
    ensures formed { IfOk result (λ doc. IsWellFormed revision.old) }
    ensures document { IfOk result (λ doc. IsDocument revision.old.body (node_tree doc)) }
    ensures refusal { IfErr result (IsRefusal revision.old) }
{
    match revision.body.share() {
        Ok(()) => document_of(alloc, revision),
        Err(_) => Err(Outcome::Memory507),
    }
}

/// What is needed to judge a revision, by the trees of the board, which has the same log and rooms then.
fn snapshot_of(
    board: &mut Board,
    revision: &Revision,
    strict: bool,
    by: Option<&Name>,
) -> Result<Snapshot, Memory>
    ensures same { IsAsBefore board.old board.new }
    ensures snapshot { IfOk result
        (IsSnapshot board.old strict (option_copied by.entry) revision.now) }
{
    boards();
    board.snapshot(revision, strict, by)
}

/// The tree of a document with a revision, and how many of its ancestors are kept.
#[derive(Drop)]
pub(crate) struct Extension {
    pub tree: Tree,
    pub kept: u64,
}

/// The tree of a document with a revision, by its outcome there, or why the revision is turned down at this front.
fn new_tree_of(at: u64, user_exists: bool, step: Extended) -> Result<Extension, Outcome>
    ensures tree { IfOk result
        (λ new. (user_exists ≡ true) × (step ≡ extended.NewTree new.tree new.kept)) }
    ensures stopped { IfErr result (IsStoppedBy at user_exists step) }
{
    if !user_exists {
        return Err(Outcome::UserGone401 { at });
    }
    match step {
        Extended::Known => Err(Outcome::Known { at }),
        Extended::BadHistory400 => Err(Outcome::BadHistory400 { at }),
        Extended::Conflict409 { leaf } => Err(Outcome::Conflict409 { at, leaf }),
        Extended::Memory => Err(Outcome::Memory507),
        Extended::NewTree { tree, kept } => Ok(Extension { tree, kept }),
    }
}

/// What a revision is judged on that extends its document's tree, or why it is turned down.
fn extension_in(snapshot: Snapshot) -> Result<Judged, Outcome>
    ensures extends { IfOk result (IsExtension snapshot) }
    ensures stopped { IfErr result
        (IsStoppedBy snapshot.at snapshot.user_exists snapshot.step) }
{
    let Snapshot {
        at,
        last: base,
        step,
        old,
        old_deleted,
        user_exists,
        context,
    } = snapshot;
    match new_tree_of(at, user_exists, step) {
        Ok(Extension { tree, kept }) => Ok(Judged {
            at,
            base,
            tree,
            kept,
            basis: Basis {
                old,
                old_deleted,
                context,
            },
        }),
        Err(outcome) => Err(outcome),
    }
}

/// Has the board judge a revision that is well formed: what it is judged on where it extends its document's tree.
pub fn extension_of(
    board: &mut Board,
    revision: &Revision,
    strict: bool,
    by: Option<&Name>,
) -> Result<Judged, Outcome>
    requires { IsWellFormed revision.now }
    ensures same { IsAsBefore board.old board.new }
    ensures extends { IfOk result
        (IsExtensionAt board.old (option_copied by.entry) revision.now) }
    ensures judged { IfOk result (λ judged. IsJudged strict (option_copied by.entry)
        revision.now (board_of board.old) extends_tree judged.at) }
    ensures stopped { (program : Program) → IfErr result (λ outcome. IsOutcome program strict
        (option_copied by.entry) revision.now (board_of board.old) outcome × IsTurnedDown outcome) }
    ensures entries { AreEntries (book_on board.old) }
    ensures writes { AreAccepted (writes_on board.old revision.now.doc) }
{
    few_ancestors();
    let _ = board.log();
    match snapshot_of(board, revision, strict, by) {
        Ok(snapshot) => extension_in(snapshot),
        Err(_) => Err(Outcome::Memory507),
    }
}

/// Has the board and the program judge a revision that is well formed, and makes its write where it extends its document's tree
/// and the program accepts it.
pub(crate) fn judge(
    alloc: Global,
    board: &mut Board,
    program: &Resolved,
    by: Option<&Name>,
    strict: bool,
    revision: Revision,
    doc: Doc,
) -> Result<Ready, Outcome>
    requires formed { IsWellFormed revision }
    requires document { IsDocument revision.body (node_tree doc) }
    ensures same { IsAsBefore board.old board.new }
    ensures ready { IfOk result
        (IsReady board.old program.now strict (option_copied by.entry) revision) }
    ensures refused { IfErr result (λ outcome. IsOutcome program.now strict
        (option_copied by.entry) revision (board_of board.old) outcome × IsTurnedDown outcome) }
{
    boards();
    winners();
    extensions();
    let judged = match extension_of(board, &revision, strict, by) {
        Ok(judged) => judged,
        Err(outcome) => {
            drop(revision);
            drop(doc);
            return Err(outcome);
        }
    };
    match accepted_of(alloc, program, by, &revision, doc, judged) {
        Ok(accepted) => Ok(ready_with(revision, accepted)),
        Err(outcome) => {
            drop(revision);
            Err(outcome)
        }
    }
}

/// Stores a write that the board judged in this turn: its sequence, or why there is no room for it.
fn store(board: &mut Board, ready: Ready) -> Result<u64, NoRoom>
    requires pending { board.old.pending ≡ [] }
    requires rooms { board.old.rooms ≡ [] }
    requires size { length ready.entry.body ≤ 20971520 }
    requires ready { IsHeldReady board.old ready }
    ensures sequence { IfOk result (λ sequence. sequence ≡ length board.old.log + 1) }
    ensures stored { IfOk result
        (λ sequence. board.new.log ≡ board.old.log ++ kinds.Write ready.entry ∷ []) }
    ensures none { OnErr result (board.new.log ≡ board.old.log) }
    ensures refused { IsStoredBut (refusal (board_of board.old) (length ready.entry.body)) result }
    ensures pending { board.new.pending ≡ [] }
    ensures rooms { board.new.rooms ≡ [] }
    ensures checkpoints { board.new.checkpoints ≡ board.old.checkpoints }
{
    alone();
    let bytes = ready.entry.body.len() as u64;
    match board.room(Some(&ready.entry.doc), bytes) {
        Ok(room) => {
            let Ready { entry, tree, base } = ready;
            Ok(put_next(board, room, Candidate::Write { entry, tree, base }))
        }
        Err(why) => {
            drop(ready);
            Err(why)
        }
    }
}

/// Stores a write that the board judged in this turn, unless the board has no room for it.
fn store_ready(board: &mut Board, ready: Ready) -> Outcome
    requires pending { board.old.pending ≡ [] }
    requires rooms { board.old.rooms ≡ [] }
    requires size { length ready.entry.body ≤ 20971520 }
    requires ready { IsHeldReady board.old ready }
    ensures board { IsBoardCommanded board.old board.new (kinds.Write ready.entry) result }
    ensures limits { IsByLimits (length ready.entry.body) (board_of board.old) result }
{
    let at = ready.entry.at;
    match store(board, ready) {
        Ok(sequence) => Outcome::Stored { sequence, at },
        Err(why) => no_room_outcome(at, why),
    }
}

/// Has the board and the program judge a revision that is well formed, and stores it where it extends its document's tree, the
/// program accepts it, and the board has room for it.
fn propose_formed(
    alloc: Global,
    board: &mut Board,
    program: &Resolved,
    by: Option<&Name>,
    strict: bool,
    revision: Revision,
    doc: Doc,
) -> Outcome
    requires pending { board.old.pending ≡ [] }
    requires rooms { board.old.rooms ≡ [] }
    requires formed { IsWellFormed revision }
    requires document { IsDocument revision.body (node_tree doc) }
    ensures { IsAnsweredBy board.old board.new program.now strict (option_copied by.entry)
        revision result }
{
    match judge(alloc, board, program, by, strict, revision, doc) {
        Ok(ready) => store_ready(board, ready),
        Err(outcome) => outcome,
    }
}

/// Proposes a revision to a board, by a user or by the administrator: it is stored where it is well formed, its proposer
/// exists, it extends its document's tree, the program accepts it, and the board has room for it; under `strict` it may make no
/// conflict, nor where the revision says so.
pub fn propose_to(
    alloc: Global,
    board: &mut Board,
    program: &Resolved,
    by: Option<&Name>,
    strict: bool,
    mut revision: Revision,
) -> Outcome
    requires pending { board.old.pending ≡ [] }
    requires rooms { board.old.rooms ≡ [] }
    ensures outcome { IsOutcome program.now (strict || revision.noconflicts)
        (option_copied by.entry) revision (board_of board.old) result }
    ensures limits { IsByLimits (bytes_of revision) (board_of board.old) result }
    ensures board { IsBoardAfter board.old board.new program.now (option_copied by.entry)
        revision result }
{
    let strict = strict || revision.noconflicts;
    match share_and_read(alloc, &mut revision) {
        Ok(doc) => propose_formed(alloc, board, program, by, strict, revision, doc),
        Err(refusal) => {
            drop(revision);
            refusal
        }
    }
}
