//! The fields that put or drop a user or a role, behind a line's kind: those of a journal, and of a script.

ghost use Rattle.std.specs.Prelude.{◌≡◌, ◌∷◌, [], map, IsTrue, IsUtf8, IfOk, IfErr};
ghost use Rattle.sg_names.specs.Grammar.{is_name};
ghost use Rattle.sg_names.specs.Channels.{channels_text};
ghost use Rattle.sg_names.specs.Names.{names_text};
ghost use Rattle.sg_history.specs.Journal.{IsPutUser, IsPutRole};
ghost use Rattle.sg_history.specs.FieldFaults.{IsTextsFault};
ghost use Rattle.sg_history.specs.Faults.{IsText, HasReason, user_grammars, role_grammars, drop_grammars};

use crate::fault::{LineFault, Why};
use crate::field;
use sg_names::{Channels, Name, Names};
use std::alloc::Global;

/// Reads what a user is put with: its name, channels and roles.
pub fn read_user_fields(
    alloc: Global,
    fields: &[&[u8]],
) -> Result<(Name, Channels, Names), LineFault>
    ensures ok { IfOk result (λ v. IsPutUser v.0 v.1 v.2
        × (map (λ p. p.now) fields.now ≡ v.0 ∷ channels_text v.1 ∷ names_text v.2 ∷ [])) }
    ensures reason { IfErr result
        (HasReason (IsTextsFault IsText user_grammars (map (λ p. p.now) fields.now))) }
{
    let [name, channels, roles] = fields else {
        return Err(LineFault::Bad(Why::Fields));
    };
    let (name, channels, roles) = field::read_three(alloc, name, channels, roles, 2)?;
    Ok((name, channels, roles))
}

/// Reads what a role is put with: its name and channels.
pub fn read_role_fields(alloc: Global, fields: &[&[u8]]) -> Result<(Name, Channels), LineFault>
    ensures ok { IfOk result (λ v. IsPutRole v.0 v.1
        × (map (λ p. p.now) fields.now ≡ v.0 ∷ channels_text v.1 ∷ [])) }
    ensures reason { IfErr result
        (HasReason (IsTextsFault IsText role_grammars (map (λ p. p.now) fields.now))) }
{
    let [name, channels] = fields else {
        return Err(LineFault::Bad(Why::Fields));
    };
    let (name, channels) = field::read_two(alloc, name, channels, 2)?;
    Ok((name, channels))
}

/// Reads whom a drop names, a user or a role.
pub fn read_name_field(alloc: Global, fields: &[&[u8]]) -> Result<Name, LineFault>
    ensures ok { IfOk result (λ name. (IsTrue (is_name name) × IsUtf8 name)
        × (map (λ p. p.now) fields.now ≡ name ∷ [])) }
    ensures reason { IfErr result
        (HasReason (IsTextsFault IsText drop_grammars (map (λ p. p.now) fields.now))) }
{
    let [name] = fields else {
        return Err(LineFault::Bad(Why::Fields));
    };
    let name = field::read(alloc, name, 2)?;
    Ok(name)
}
