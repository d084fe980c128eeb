//! Revisions that a device proposes.

ghost use Rattle.std.specs.Prelude.{◌≡◌, ◌≢◌, Ok, Err, IfOk, IfErr, option_and_then};
ghost use Rattle.std.specs.Option.{option_copied};
ghost use Rattle.repl_messages.specs.Fields as fields;
ghost use Rattle.repl_messages.specs.Revisions as revisions;
ghost use Rattle.repl_messages.specs.Revisions.{IsRevision, IsHistory, IsProposal};

use crate::properties::is_set;
use crate::request::{Field, Request, RequestFault, or_bad};
use blip_frame::Payload;
use sg_history::{DocId, RevId, Revs, TextFault};
use sg_names::laws::revision_lists;
use sg_outside::Bytes;
use std::alloc::{AllocError, Global};

/// A revision of a document that is proposed, with its history.
#[derive(Drop)]
pub struct Revision {
    pub doc: DocId,
    pub rev: RevId,
    /// The ancestors, from the nearest.
    pub ancestors: Revs,
    pub deleted: bool,
    /// Whether it is to be refused where it makes a conflict.
    pub noconflicts: bool,
    /// The document's JSON; no bytes stand for `{}`.
    pub body: Bytes,
}

/// The document that a property names; where it names none, the property is refused.
fn document_of(alloc: Global, value: Option<&str>) -> Result<DocId, RequestFault>
    ensures { result ≢ Err RequestFault.Memory → result
        ≡ fields.or_bad Field.Id
        (option_and_then revisions.document_named (option_copied value.entry)) }
{
    let Some(text) = value else {
        return Err(RequestFault::Bad400 { field: Field::Id });
    };
    match DocId::parse(alloc, text) {
        Ok(doc) => Ok(doc),
        Err(TextFault::Bad) => Err(RequestFault::Bad400 { field: Field::Id }),
        Err(TextFault::Memory) => Err(RequestFault::Memory),
    }
}

/// The revision that a property names.
fn revision_of(alloc: Global, value: Option<&str>) -> Result<Option<RevId>, AllocError>
    ensures { IfOk result (λ rev. IsRevision (option_copied value.entry) rev) }
{
    let Some(text) = value else {
        return Ok(None);
    };
    match RevId::parse(alloc, text) {
        Ok(rev) => Ok(Some(rev)),
        Err(TextFault::Bad) => Ok(None),
        Err(TextFault::Memory) => Err(AllocError),
    }
}

/// The ancestors that a property names.
fn history_of(alloc: Global, value: Option<&str>) -> Result<Option<Revs>, AllocError>
    ensures { IfOk result (λ revs. IsHistory (option_copied value.entry) revs) }
{
    let Some(text) = value else {
        return Ok(Some(Revs::new(alloc)));
    };
    if text.is_empty() {
        return Ok(Some(Revs::new(alloc)));
    }
    if text == "-" {
        revision_lists();
        return Ok(None);
    }
    match Revs::parse(alloc, text) {
        Ok(revs) => Ok(Some(revs)),
        Err(TextFault::Bad) => Ok(None),
        Err(TextFault::Memory) => Err(AllocError),
    }
}

/// Reads a rev.
pub(crate) fn read_proposal(alloc: Global, payload: &Payload) -> Result<Request, RequestFault>
    ensures ok { IfOk result (λ request. IsProposal payload.now (Ok request)) }
    ensures refused { IfErr result (λ fault. fault ≢ RequestFault.Memory
        → IsProposal payload.now (Err fault)) }
{
    let rev = revision_of(alloc, payload.props.get("rev"))?;
    let history = history_of(alloc, payload.props.get("history"))?;
    proposal(alloc, rev, history, payload)
}

/// Reads a rev whose revision and ancestors are read so.
fn proposal(
    alloc: Global,
    rev: Option<RevId>,
    history: Option<Revs>,
    payload: &Payload,
) -> Result<Request, RequestFault>
    ensures { result ≢ Err RequestFault.Memory
        → result ≡ revisions.revision rev history payload.now }
{
    let doc = document_of(alloc, payload.props.get("id"))?;
    let rev = or_bad(Field::Rev, rev)?;
    let ancestors = or_bad(Field::History, history)?;
    Ok(Request::Rev(with_marks(alloc, doc, rev, ancestors, payload)?))
}

/// The revision of these names, with the marks and the body of the message.
fn with_marks(
    alloc: Global,
    doc: DocId,
    rev: RevId,
    ancestors: Revs,
    payload: &Payload,
) -> Result<Revision, AllocError>
    ensures { IfOk result (λ r. r ≡ revisions.revision_of doc rev ancestors payload.now) }
{
    let body = payload.body.copy(alloc)?;
    Ok(Revision {
        doc,
        rev,
        ancestors,
        deleted: is_set("deleted", &payload.props),
        noconflicts: is_set("noconflicts", &payload.props),
        body,
    })
}
