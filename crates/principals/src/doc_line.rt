//! The line of a revision that the administrator writes.

ghost use Rattle.std.specs.Prelude.{◌≡◌, ◌≢◌, ◌∷◌, map, codes, Some, IsTrue, IsUtf8, IfOk, IfErr};
ghost use Rattle.sg_history.specs.Faults.{HasReason};
ghost use Rattle.sg_names.specs.RevId.{rev_text};
ghost use Rattle.principals.specs.Script.{IsScriptLine, script_fields, may_be_parent, script_parent};
ghost use Rattle.principals.specs.Faults as faults;
ghost use Rattle.principals.specs.Faults.{IsScriptFault, IsScriptField};

use crate::admin_line::AdminLine;
use sg_history::fault::LineFault;
use sg_history::{RevId, Why, field};
use std::alloc::Global;

/// Reads a revision that another one may follow.
fn read_followed(alloc: Global, field: &[u8]) -> Result<RevId, LineFault>
    requires { field.now ≢ codes "-" }
    ensures ok { IfOk result (λ rev. (field.now ≡ rev_text rev) × IsTrue (may_be_parent (Some rev))
        × IsUtf8 field.now) }
    ensures reason { IfErr result (HasReason
        (λ why. (why ≡ Why.Field 3) × (¬ IsScriptField faults.parent field.now))) }
{
    let rev: RevId = field::read(alloc, field, 3)?;
    if rev.generation == u32::MAX {
        return Err(LineFault::Bad(Why::Field(3)));
    }
    Ok(rev)
}

/// Reads the revision that another one follows, or `-`.
fn read_parent(alloc: Global, field: &[u8]) -> Result<Option<RevId>, LineFault>
    ensures ok { IfOk result
        (λ v. (field.now ≡ script_parent v) × IsTrue (may_be_parent v) × IsUtf8 field.now) }
    ensures reason { IfErr result (HasReason
        (λ why. (why ≡ Why.Field 3) × (¬ IsScriptField faults.parent field.now))) }
{
    match field {
        b"-" => Ok(None),
        _ => Ok(Some(read_followed(alloc, field)?)),
    }
}

/// Reads the fields after the kind `doc`.
pub fn read_doc(alloc: Global, fields: &[&[u8]]) -> Result<AdminLine, LineFault>
    ensures ok { IfOk result (λ line. IsScriptLine line
        × (codes "doc" ∷ map (λ p. p.now) fields.now ≡ script_fields line)) }
    ensures reason { IfErr result
        (HasReason (IsScriptFault (codes "doc" ∷ map (λ p. p.now) fields.now))) }
{
    let [doc, parent, deleted, body] = fields else {
        return Err(LineFault::Bad(Why::Fields));
    };
    let doc = field::read(alloc, doc, 2)?;
    let parent = read_parent(alloc, parent)?;
    let (deleted, body) = field::read_two(alloc, deleted, body, 4)?;
    Ok(AdminLine::Doc {
        doc,
        parent,
        deleted,
        body,
    })
}
