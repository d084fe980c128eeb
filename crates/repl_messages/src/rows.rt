//! Reading the rows of changes and proposeChanges.

ghost use Rattle.std.specs.Prelude.{◌≡◌, ◌≢◌, Ok, Err, IfOk, IfErr, map};
ghost use Rattle.std.specs.Option.{option_copied};
ghost use Rattle.serde_json.specs.View.{view};
ghost use Rattle.repl_messages.specs.Fields.{IsFound};
ghost use Rattle.repl_messages.specs.Offers as rows;
ghost use Rattle.repl_messages.specs.Offers.{NamesDocument, NamesRevision, NamesParent, IsParent, AreOfChange, AreOfProposal, IsRow, AreRows, AreOffers, AreOffered};
ghost use Rattle.repl_messages.specs.Requests.{IsChanges, IsProposeChanges};

use crate::json_body::value_of;
use crate::offers::{Offer, Offers};
use crate::request::{Field, Request, RequestFault, or_bad};
use serde_json::Value;
use sg_history::{DocId, RevId, TextFault};
use std::alloc::{AllocError, Global};

/// What a row is of: a change that a device has, or a revision that it wants to propose.
#[derive(Clone, Copy, Debug, PartialEq, Eq)]
pub enum Form {
    Change,
    Proposal,
}

/// How many rows a message may have.
const MOST_ROWS: usize = 10_000;

/// The document that an item names.
fn doc_of(alloc: Global, item: &Value) -> Result<Option<DocId>, AllocError>
    ensures { IfOk result (λ found. IsFound (λ doc. NamesDocument (view item.now) doc) found) }
{
    let Some(text) = item.as_str() else {
        return Ok(None);
    };
    match DocId::parse(alloc, text) {
        Ok(doc) => Ok(Some(doc)),
        Err(TextFault::Bad) => Ok(None),
        Err(TextFault::Memory) => Err(AllocError),
    }
}

/// The revision that an item names.
fn rev_of(alloc: Global, item: &Value) -> Result<Option<RevId>, AllocError>
    ensures { IfOk result (λ found. IsFound (λ rev. NamesRevision (view item.now) rev) found) }
{
    let Some(text) = item.as_str() else {
        return Ok(None);
    };
    match RevId::parse(alloc, text) {
        Ok(rev) => Ok(Some(rev)),
        Err(TextFault::Bad) => Ok(None),
        Err(TextFault::Memory) => Err(AllocError),
    }
}

/// The parent that an item names.
fn named_parent(alloc: Global, item: &Value) -> Result<Option<Option<RevId>>, AllocError>
    ensures { IfOk result (λ found. IsFound (λ parent. NamesParent (view item.now) parent) found) }
{
    if item.as_str() == Some("") {
        return Ok(Some(None));
    }
    Ok(rev_of(alloc, item)?.map(|rev| Some(rev)))
}

/// The parent that a row names after its document and revision.
fn parent_of(alloc: Global, others: &[Value]) -> Result<Option<Option<RevId>>, AllocError>
    ensures { IfOk result
        (λ found. IsFound (λ parent. IsParent (map view others.now) parent) found) }
{
    match others.first() {
        None => Ok(Some(None)),
        Some(item) => named_parent(alloc, item),
    }
}

fn is_sequence(item: &Value) -> bool
    ensures { result ≡ rows.is_sequence (view item.now) }
{
    item.is_number() || item.is_string()
}

/// The change that the items are of.
fn change_of(alloc: Global, items: &[Value]) -> Result<Option<Offer>, AllocError>
    ensures { IfOk result
        (λ found. IsFound (λ offer. AreOfChange (map view items.now) offer) found) }
{
    let Some((sequence, items)) = items.split_first() else {
        return Ok(None);
    };
    let Some((doc, items)) = items.split_first() else {
        return Ok(None);
    };
    let Some(rev) = items.first() else {
        return Ok(None);
    };
    if !is_sequence(sequence) {
        return Ok(None);
    }
    let Some(doc) = doc_of(alloc, doc)? else {
        return Ok(None);
    };
    let Some(rev) = rev_of(alloc, rev)? else {
        return Ok(None);
    };
    Ok(Some(Offer {
        doc,
        rev,
        parent: None,
    }))
}

/// The proposal that the items are of.
fn proposal_of(alloc: Global, items: &[Value]) -> Result<Option<Offer>, AllocError>
    ensures { IfOk result
        (λ found. IsFound (λ offer. AreOfProposal (map view items.now) offer) found) }
{
    let Some((doc, items)) = items.split_first() else {
        return Ok(None);
    };
    let Some((rev, others)) = items.split_first() else {
        return Ok(None);
    };
    let Some(doc) = doc_of(alloc, doc)? else {
        return Ok(None);
    };
    let Some(rev) = rev_of(alloc, rev)? else {
        return Ok(None);
    };
    let Some(parent) = parent_of(alloc, others)? else {
        return Ok(None);
    };
    Ok(Some(Offer { doc, rev, parent }))
}

/// The offer of a row.
fn offer_of(alloc: Global, form: Form, row: &Value) -> Result<Option<Offer>, AllocError>
    ensures { IfOk result (λ found. IsFound (λ offer. IsRow form (view row.now) offer) found) }
{
    let Some(items) = row.as_array() else {
        return Ok(None);
    };
    match form {
        Form::Change => change_of(alloc, items.as_slice()),
        Form::Proposal => proposal_of(alloc, items.as_slice()),
    }
}

/// The offers of rows, in order.
fn offers_of(alloc: Global, form: Form, rows: &[Value]) -> Result<Option<Offers>, AllocError>
    ensures { IfOk result
        (λ found. IsFound (λ offers. AreRows form (map view rows.now) offers) found) }
{
    let mut offers = Vec::new(alloc);
    for row in rows {
        match offer_of(alloc, form, row)? {
            Some(offer) => offers.push(offer)?,
            None => return Ok(None),
        }
    }
    Ok(Some(Offers::from_vec(offers)))
}

/// The offers of a body.
fn offered(alloc: Global, form: Form, body: &[u8]) -> Result<Option<Offers>, AllocError>
    ensures { IfOk result (λ found. AreOffered form body.now found) }
{
    match value_of(alloc, body)? {
        Some(value) => offered_in(alloc, form, &value),
        None => Ok(None),
    }
}

/// The offers of a JSON value.
fn offered_in(alloc: Global, form: Form, value: &Value) -> Result<Option<Offers>, AllocError>
    ensures { IfOk result
        (λ found. IsFound (λ offers. AreOffers form (view value.now) offers) found) }
{
    let Some(rows) = value.as_array() else {
        return Ok(None);
    };
    let items = rows.as_slice();
    if items.len() > MOST_ROWS {
        return Ok(None);
    }
    offers_of(alloc, form, items)
}

/// Reads the body of changes.
pub(crate) fn read_changes(alloc: Global, body: &[u8]) -> Result<Request, RequestFault>
    ensures ok { IfOk result (λ read. IsChanges body.now (Ok read)) }
    ensures refused { IfErr result (λ fault. fault ≢ RequestFault.Memory
        → IsChanges body.now (Err fault)) }
{
    let offers = or_bad(Field::Rows, offered(alloc, Form::Change, body)?)?;
    Ok(Request::Changes { offers })
}

/// Reads the body of proposeChanges.
pub(crate) fn read_propose_changes(alloc: Global, body: &[u8]) -> Result<Request, RequestFault>
    ensures ok { IfOk result (λ read. IsProposeChanges body.now (Ok read)) }
    ensures refused { IfErr result (λ fault. fault ≢ RequestFault.Memory
        → IsProposeChanges body.now (Err fault)) }
{
    let offers = or_bad(Field::Rows, offered(alloc, Form::Proposal, body)?)?;
    Ok(Request::ProposeChanges { offers })
}
