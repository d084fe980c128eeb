//! The message `changes`, which offers rows to a device.

ghost use Rattle.std.specs.Prelude.{◌≡◌, Some, IfOk, OnOk, ◌++◌, map};
ghost use Rattle.serde_json.specs.View.{view};
ghost use Rattle.serde_json.specs.Written.{compact_text};
ghost use Rattle.repl_messages.specs.Changes as changes;
ghost use Rattle.repl_messages.specs.Changes.{changes_payload};
ghost use Rattle.repl_messages.specs.Json.{json_of};
ghost use Rattle.repl_messages.specs.ReadAgain.{IsReadAsOffers};

use crate::request::Version;
use crate::texts::{key_string, push_text, rev_string};
use blip_frame::{Payload, Props};
use serde_json::Value;
use sg_history::{Key, Row};
use sg_outside::{Bytes, Memory};
use std::alloc::Global;

/// The message that offers these rows: a JSON array of rows, each an array of sequence, document and
/// revision. A plain key is written as a number, another as a text. In version three the bits follow
/// where one is set, in version two `true` where the winner is deleted.
pub fn write_changes(alloc: Global, rows: &[Row], version: Version) -> Result<Payload, Memory>
    ensures text { IfOk result (λ payload. payload ≡ changes_payload rows.now version) }
    ensures read { IfOk result (λ payload. IsReadAsOffers payload rows.now version) }
{
    let mut props = Vec::new(alloc);
    push_text(alloc, &mut props, "Profile", "changes")?;
    Ok(Payload {
        props: Props::from_vec(props),
        body: changes_body(alloc, rows, version)?,
    })
}

fn changes_body(alloc: Global, rows: &[Row], version: Version) -> Result<Bytes, Memory>
    ensures text { IfOk result
        (λ body. body ≡ compact_text (changes.changes_data version rows.now)) }
    ensures read { IfOk result
        (λ body. json_of body ≡ Some (changes.changes_data version rows.now)) }
{
    let value = changes_value(alloc, rows, version)?;
    let text = value.to_vec(alloc)?;
    Ok(Bytes::from_vec(text))
}

fn changes_value(alloc: Global, rows: &[Row], version: Version) -> Result<Value, Memory>
    ensures { IfOk result (λ value. view value ≡ changes.changes_data version rows.now) }
{
    let mut values = Vec::new(alloc);
    for row in rows {
        values.push(row_value(alloc, row, version)?)?;
    }
    Ok(Value::from(values))
}

fn row_value(alloc: Global, row: &Row, version: Version) -> Result<Value, Memory>
    ensures { IfOk result (λ value. view value ≡ changes.row_data version row.now) }
{
    let mut items = Vec::new(alloc);
    items.push(sequence_value(alloc, &row.key)?)?;
    items.push(Value::from(String::from_str(alloc, row.doc.as_str())?))?;
    items.push(Value::from(rev_string(alloc, &row.rev)?))?;
    push_mark(&mut items, row.bits, version)?;
    Ok(Value::from(items))
}

fn sequence_value(alloc: Global, key: &Key) -> Result<Value, Memory>
    ensures { IfOk result (λ value. view value ≡ changes.sequence_data key.now) }
{
    if key.by == key.seq {
        Ok(Value::from(key.seq))
    } else {
        Ok(Value::from(key_string(alloc, key)?))
    }
}

/// Puts what stands after the names at the end.
fn push_mark(items: &mut Vec<Value>, bits: u8, version: Version) -> Result<(), Memory>
    ensures { OnOk result (map view items.new.items
        ≡ map view items.old.items ++ changes.mark version bits) }
{
    match version {
        Version::Two if bits == 1 || bits == 5 => items.push(Value::from(true))?,
        Version::Three if bits != 0 => items.push(Value::from(bits))?,
        _ => {}
    }
    Ok(())
}
