//! What the program says of a revision that is proposed.

ghost use Rattle.std.specs.Prelude.{option_map, IfOk, IfSome, IfNone};
ghost use Rattle.json_doc.specs.Reading.{IsDocument};
ghost use Rattle.json_doc.specs.View.{node_tree};
ghost use Rattle.doc_board.specs.Judging.{IsTreeOf};
ghost use Rattle.doc_board.specs.Recorded.{HasDocument};
ghost use Rattle.board_steps.specs.Verdicts.{IsOldBody, IsSaidOfDocument, IsSaidOn, IsVerdict};

use doc_board::Context;
use json_doc::{Doc, DocFault, read_doc, with_system};
use repl_messages::Revision;
use sg_history::DocId;
use sg_outside::Bytes;
use std::alloc::{AllocError, Global};
use sync_eval::{Verdict, judge};
use sync_meaning::laws::old_is_not_asked;
use sync_resolve::Resolved;

/// What a revision is judged on besides its own document.
#[derive(Drop)]
pub struct Basis {
    /// The body of the write on which it is based, where there is one.
    pub old: Option<Bytes>,
    /// Whether that write is a deletion.
    pub old_deleted: bool,
    /// Who proposes it.
    pub context: Context,
}

/// The document that a body is; none where it is none.
pub(crate) fn document_in(alloc: Global, body: &[u8]) -> Result<Option<Doc>, AllocError>
    ensures some { IfOk result
        (λ found. IfSome found (λ doc. IsDocument body.now (node_tree doc))) }
    ensures none { IfOk result (λ found. IfNone found (¬ HasDocument body.now)) }
{
    match read_doc(alloc, body) {
        Ok(doc) => Ok(Some(doc)),
        Err(DocFault::Memory) => Err(AllocError),
        Err(_) => Ok(None),
    }
}

/// The document of a body that is one, with its identifier and the deleted mark.
fn system_document(alloc: Global, body: &[u8], id: &DocId, deleted: bool) -> Result<Doc, AllocError>
    requires { HasDocument body.now }
    ensures { IfOk result (λ doc. IsTreeOf body.now id.now deleted (node_tree doc)) }
{
    match document_in(alloc, body)? {
        Some(doc) => with_system(alloc, doc, id.as_str(), deleted),
        None => unreachable!(),
    }
}

/// The document on which a revision is based, where there is one.
fn old_document(alloc: Global, basis: &Basis, id: &DocId) -> Result<Option<Doc>, AllocError>
    requires { IfSome basis.now.old (λ body. HasDocument body) }
    ensures { IfOk result (λ old. IsOldBody basis.now.old basis.now.old_deleted id.now
        (option_map (λ doc. node_tree doc) old)) }
{
    match &basis.old {
        None => Ok(None),
        Some(body) => {
            let doc = system_document(alloc, body.as_slice(), id, basis.old_deleted)?;
            Ok(Some(doc))
        }
    }
}

/// What a program says of a document that has its identifier and the deleted mark, judged on this.
/// The body before is read where the program has a second parameter.
fn said_of_document(
    alloc: Global,
    program: &Resolved,
    id: &DocId,
    doc: &Doc,
    basis: &Basis,
) -> Verdict
    requires { IfSome basis.now.old (λ body. HasDocument body) }
    ensures { IsVerdict (IsSaidOfDocument program.now id.now (node_tree doc.now) basis.now) result }
{
    if !program.takes_old() {
        old_is_not_asked();
        return judge(alloc, program, doc, None, &basis.context);
    }
    match old_document(alloc, basis, id) {
        Ok(old) => {
            let said = judge(alloc, program, doc, old.as_ref(), &basis.context);
            drop(old);
            said
        }
        Err(_) => Verdict::Memory,
    }
}

/// What a program says of a revision with this document.
pub(crate) fn said_of(
    alloc: Global,
    program: &Resolved,
    revision: &Revision,
    doc: Doc,
    basis: &Basis,
) -> Verdict
    requires document { IsDocument revision.now.body (node_tree doc) }
    requires old { IfSome basis.now.old (λ body. HasDocument body) }
    ensures { IsVerdict (IsSaidOn program.now revision.now basis.now) result }
{
    match with_system(alloc, doc, revision.doc.as_str(), revision.deleted) {
        Ok(doc) => {
            let said = said_of_document(alloc, program, &revision.doc, &doc, basis);
            drop(doc);
            said
        }
        Err(_) => Verdict::Memory,
    }
}
