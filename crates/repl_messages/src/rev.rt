//! The messages `rev` and `norev`, which answer a wanted row.

ghost use Rattle.std.specs.Prelude.{◌≡◌, ◌++◌, ◌∷◌, [], IfOk, OnOk, codes};
ghost use Rattle.blip_frame.specs.Props.{pairs_of};
ghost use Rattle.sg_names.specs.Key.{key_text};
ghost use Rattle.repl_messages.specs.Rev.{rev_payload, norev_payload, row_pairs, deleted_pairs, history_pairs};

use crate::texts::{history_string, key_string, push, push_text, rev_string};
use blip_frame::{Payload, Prop, Props};
use sg_history::{Key, RevId, Row};
use sg_outside::{Bytes, Memory};
use std::alloc::Global;

/// The message of a row's revision, with its ancestors, the nearest first, and its body, which it takes.
pub fn rev_message(
    alloc: Global,
    row: &Row,
    ancestors: &[RevId],
    body: Bytes,
) -> Result<Payload, Memory>
    ensures { IfOk result (λ payload. payload ≡ rev_payload row.now ancestors.now body) }
{
    let mut props = Vec::new(alloc);
    match push_rev(alloc, &mut props, row, ancestors) {
        Ok(()) => Ok(Payload {
            props: Props::from_vec(props),
            body,
        }),
        Err(refused) => {
            drop(body);
            Err(refused)
        }
    }
}

/// The same with a copy of a body.
pub fn write_rev(
    alloc: Global,
    row: &Row,
    ancestors: &[RevId],
    body: &[u8],
) -> Result<Payload, Memory>
    ensures { IfOk result (λ payload. payload ≡ rev_payload row.now ancestors.now body.now) }
{
    rev_message(alloc, row, ancestors, Bytes::from_slice(alloc, body)?)
}

/// The message that a row's revision is not there any more.
pub fn write_norev(alloc: Global, row: &Row) -> Result<Payload, Memory>
    ensures { IfOk result (λ payload. payload ≡ norev_payload row.now) }
{
    let mut props = Vec::new(alloc);
    push_norev(alloc, &mut props, row)?;
    Ok(Payload {
        props: Props::from_vec(props),
        body: Bytes::new(alloc),
    })
}

/// Puts the properties of `rev` at the end.
fn push_rev(
    alloc: Global,
    props: &mut Vec<Prop>,
    row: &Row,
    ancestors: &[RevId],
) -> Result<(), Memory>
    ensures { OnOk result (pairs_of props.new.items ≡ pairs_of props.old.items
        ++ row_pairs (codes "rev") row.now ++ deleted_pairs row.now.bits
        ++ (codes "sequence", key_text row.now.key) ∷ history_pairs ancestors.now) }
{
    push_row(alloc, props, "rev", row)?;
    push_deleted(alloc, props, row.bits)?;
    push_key(alloc, props, &row.key)?;
    push_history(alloc, props, ancestors)
}

/// Puts the properties of `norev` at the end.
fn push_norev(alloc: Global, props: &mut Vec<Prop>, row: &Row) -> Result<(), Memory>
    ensures { OnOk result (pairs_of props.new.items ≡ pairs_of props.old.items
        ++ row_pairs (codes "norev") row.now
        ++ (codes "sequence", key_text row.now.key) ∷ (codes "error", codes "404")
        ∷ (codes "reason", codes "not available") ∷ []) }
{
    push_row(alloc, props, "norev", row)?;
    push_key(alloc, props, &row.key)?;
    push_text(alloc, props, "error", "404")?;
    push_text(alloc, props, "reason", "not available")
}

/// Puts the message's name at the end, and the document and the revision of the row.
fn push_row(alloc: Global, props: &mut Vec<Prop>, profile: &str, row: &Row) -> Result<(), Memory>
    ensures { OnOk result (pairs_of props.new.items ≡ pairs_of props.old.items
        ++ row_pairs profile.now row.now) }
{
    push_text(alloc, props, "Profile", profile)?;
    push_text(alloc, props, "id", row.doc.as_str())?;
    push(alloc, props, "rev", rev_string(alloc, &row.rev)?)
}

fn push_key(alloc: Global, props: &mut Vec<Prop>, key: &Key) -> Result<(), Memory>
    ensures { OnOk result (pairs_of props.new.items
        ≡ pairs_of props.old.items ++ (codes "sequence", key_text key.now) ∷ []) }
{
    push(alloc, props, "sequence", key_string(alloc, key)?)
}

fn push_deleted(alloc: Global, props: &mut Vec<Prop>, bits: u8) -> Result<(), Memory>
    ensures { OnOk result (pairs_of props.new.items
        ≡ pairs_of props.old.items ++ deleted_pairs bits) }
{
    if bits == 1 || bits == 5 {
        push_text(alloc, props, "deleted", "1")?;
    }
    Ok(())
}

fn push_history(alloc: Global, props: &mut Vec<Prop>, ancestors: &[RevId]) -> Result<(), Memory>
    ensures { OnOk result (pairs_of props.new.items
        ≡ pairs_of props.old.items ++ history_pairs ancestors.now) }
{
    match ancestors {
        [] => Ok(()),
        [first, others @ ..] => {
            push(
                alloc,
                props,
                "history",
                history_string(alloc, first, others)?,
            )
        }
    }
}
