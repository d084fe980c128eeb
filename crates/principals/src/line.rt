//! The lines of a script behind the header.

ghost use Rattle.std.specs.Prelude.{◌≡◌, ◌∷◌, ◌<◌, List, ℕ, map, length, codes, IfOk, IfErr};
ghost use Rattle.sg_history.specs.Faults.{HasReason};
ghost use Rattle.sg_history.specs.Pieces.{pieces};
ghost use Rattle.principals.specs.Script.{IsScriptLine, script_fields, script_line};
ghost use Rattle.principals.specs.Faults.{IsScriptFault};
ghost use Rattle.principals.specs.inner.Kinds.{kind_text};

use crate::admin_line::AdminLine;
use crate::command::Command;
use crate::doc_line::read_doc;
use crate::kind::{Kind, kind_of};
use sg_history::fault::LineFault;
use sg_history::{Why, cut, fields_of, read_name_field, read_role_fields, read_user_fields};
use std::alloc::Global;

/// The most fields that a line of a script has.
const MOST: usize = 5;

/// Reads the fields after this kind.
fn read_kind(alloc: Global, kind: Kind, fields: &[&[u8]]) -> Result<AdminLine, LineFault>
    ensures ok { IfOk result (λ line. IsScriptLine line
        × (kind_text kind ∷ map (λ p. p.now) fields.now ≡ script_fields line)) }
    ensures reason { IfErr result
        (HasReason (IsScriptFault (kind_text kind ∷ map (λ p. p.now) fields.now))) }
{
    match kind {
        Kind::User => {
            let (name, channels, roles) = read_user_fields(alloc, fields)?;
            Ok(AdminLine::Command(Command::PutUser(name, channels, roles)))
        }
        Kind::Role => {
            let (name, channels) = read_role_fields(alloc, fields)?;
            Ok(AdminLine::Command(Command::PutRole(name, channels)))
        }
        Kind::DropUser => {
            let name = read_name_field(alloc, fields)?;
            Ok(AdminLine::Command(Command::DropUser(name)))
        }
        Kind::DropRole => {
            let name = read_name_field(alloc, fields)?;
            Ok(AdminLine::Command(Command::DropRole(name)))
        }
        Kind::Doc => read_doc(alloc, fields),
    }
}

/// Reads the fields of a line.
fn read_fields(alloc: Global, fields: &[&[u8]]) -> Result<AdminLine, LineFault>
    ensures ok { IfOk result
        (λ line. IsScriptLine line × (map (λ p. p.now) fields.now ≡ script_fields line)) }
    ensures reason { IfErr result (HasReason (IsScriptFault (map (λ p. p.now) fields.now))) }
{
    let [kind, further @ ..] = fields else {
        return Err(LineFault::Bad(Why::Kind));
    };
    match kind_of(kind) {
        Some(kind) => read_kind(alloc, kind, further),
        None => Err(LineFault::Bad(Why::Kind)),
    }
}

/// What is wrong with a line of this kind that has more fields than any kind.
fn fault_of_kind(kind: &[u8]) -> Why
    ensures { (texts : List (List ℕ)) → 4 < length texts → IsScriptFault (kind.now ∷ texts) result }
{
    match kind_of(kind) {
        Some(_) => Why::Fields,
        None => Why::Kind,
    }
}

/// What is wrong with a line of more fields than any kind has.
fn fault_of_many(line: &[u8]) -> Why
    requires { 5 < length (pieces 9 line.now) }
    ensures { IsScriptFault (pieces 9 line.now) result }
{
    match cut(line, b'\t') {
        Some((kind, _)) => fault_of_kind(kind),
        None => fault_of_kind(line),
    }
}

/// Reads a line, without its line feed.
pub fn read_line(alloc: Global, line: &[u8]) -> Result<AdminLine, LineFault>
    ensures ok { IfOk result (λ read. IsScriptLine read × (line.now ≡ script_line read)) }
    ensures reason { IfErr result (HasReason (IsScriptFault (pieces 9 line.now))) }
{
    let mut fields: [&[u8]; MOST] = [&[]; MOST];
    match fields_of(line, &mut fields) {
        Some(count) => read_fields(alloc, &fields[..count]),
        None => Err(LineFault::Bad(fault_of_many(line))),
    }
}
