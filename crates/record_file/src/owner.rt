//! The line that says whose session was recorded.

ghost use Rattle.std.specs.Prelude.{◌≡◌, ◌++◌, ◌∷◌, [], codes, IsTrue, IsUtf8, IfOk, IfErr};
ghost use Rattle.sg_history.specs.Faults.{HasReason};
ghost use Rattle.sg_history.specs.Pieces.{pieces};
ghost use Rattle.sg_names.specs.Grammar.{is_name};
ghost use Rattle.record_file.specs.Record.{owner_text, version_text};
ghost use Rattle.record_file.specs.Faults as faults;
ghost use Rattle.record_file.specs.Faults.{IsOwnerFault, IsRecordField};

use repl_messages::Version;
use sg_history::fault::LineFault;
use sg_history::{Name, Why, cut, field};
use std::alloc::Global;

/// Whose session was recorded, and the version that its device speaks.
#[derive(Drop)]
pub struct Owner {
    pub user: Name,
    pub version: Version,
}

/// Reads the version, which is field 3.
fn read_version(field: &[u8]) -> Result<Version, LineFault>
    ensures ok { IfOk result (λ version. field.now ≡ version_text version) }
    ensures reason { IfErr result (HasReason
        (λ why. (why ≡ Why.Field 3) × (¬ IsRecordField faults.version field.now))) }
{
    match field {
        b"2" => Ok(Version::Two),
        b"3" => Ok(Version::Three),
        _ => Err(LineFault::Bad(Why::Field(3))),
    }
}

/// Reads the fields after the kind `user`.
fn read_fields(alloc: Global, fields: &[u8]) -> Result<Owner, LineFault>
    ensures ok { IfOk result (λ owner. fields.now ≡ owner.user ++ 9 ∷ version_text owner.version) }
    ensures name { IfOk result (λ owner. IsTrue (is_name owner.user) × IsUtf8 owner.user) }
    ensures reason { IfErr result (HasReason (IsOwnerFault (codes "user" ∷ pieces 9 fields.now))) }
{
    let Some((name, version)) = cut(fields, b'\t') else {
        return Err(LineFault::Bad(Why::Fields));
    };
    if cut(version, b'\t').is_some() {
        return Err(LineFault::Bad(Why::Fields));
    }
    let user: Name = field::read(alloc, name, 2)?;
    let version = read_version(version)?;
    Ok(Owner { user, version })
}

/// What is wrong with a line of one field.
fn fault_of_one(kind: &[u8]) -> Why
    ensures { IsOwnerFault (kind.now ∷ []) result }
{
    match kind {
        b"user" => Why::Fields,
        _ => Why::Kind,
    }
}

/// Reads the line, without its line feed.
pub fn read_owner(alloc: Global, line: &[u8]) -> Result<Owner, LineFault>
    ensures ok { IfOk result (λ owner. line.now ≡ owner_text owner.user owner.version) }
    ensures name { IfOk result (λ owner. IsTrue (is_name owner.user) × IsUtf8 owner.user) }
    ensures reason { IfErr result (HasReason (IsOwnerFault (pieces 9 line.now))) }
{
    let Some((kind, fields)) = cut(line, b'\t') else {
        return Err(LineFault::Bad(fault_of_one(line)));
    };
    match kind {
        b"user" => read_fields(alloc, fields),
        _ => Err(LineFault::Bad(Why::Kind)),
    }
}
