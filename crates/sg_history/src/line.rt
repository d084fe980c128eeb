//! The lines of a journal, each read as an entry.

ghost use Rattle.std.specs.Prelude.{◌≡◌, ◌≢◌, ◌∷◌, ◌<◌, [], List, ℕ, map, length, codes, IfOk, IfErr, IfSome, IfNone};
ghost use Rattle.std.specs.Str.{bytes_eq};
ghost use Rattle.sg_history.specs.Line.{texts_of, AreRead, IsLine, NoLine};
ghost use Rattle.sg_history.specs.Faults.{IsFault, HasReason};
ghost use Rattle.sg_history.specs.Pieces.{pieces};

use crate::entries::Entry;
use crate::fault::{LineFault, Why};
use crate::line_of_sync::read_sync;
use crate::line_of_write::{WriteTexts, read_write};
use crate::pieces::{cut, fields_of};
use crate::put_fields::{read_name_field, read_role_fields, read_user_fields};
use std::alloc::Global;

/// The most fields behind the kind of a line that has no marks.
const MOST: usize = 11;

/// The fields of a write after its kind, if they are eleven.
fn write_texts<'a>(fields: &[&'a [u8]]) -> Option<WriteTexts<'a>>
    ensures some { IfSome result (λ t. map (λ p. p.now) fields.now ≡ texts_of t) }
    ensures none { IfNone result (length fields.now ≢ 11) }
{
    let [
        doc,
        rev,
        ancestors,
        deleted,
        body,
        by,
        at,
        winner,
        channels,
        grants,
        roles,
    ] = fields
    else {
        return None;
    };
    Some(WriteTexts {
        doc,
        rev,
        ancestors,
        deleted,
        body,
        by,
        at,
        winner,
        channels,
        grants,
        roles,
    })
}

/// Reads the fields after the kind `W`.
fn read_write_entry(alloc: Global, fields: &[&[u8]]) -> Result<Entry, LineFault>
    ensures ok { IfOk result (λ e. AreRead (codes "W" ∷ map (λ p. p.now) fields.now) e) }
    ensures reason { IfErr result (HasReason (IsFault (codes "W" ∷ map (λ p. p.now) fields.now))) }
{
    let Some(texts) = write_texts(fields) else {
        return Err(LineFault::Bad(Why::Fields));
    };
    Ok(Entry::Write(read_write(alloc, texts)?))
}

/// Reads the fields after the kind `U`.
fn read_put_user(alloc: Global, fields: &[&[u8]]) -> Result<Entry, LineFault>
    ensures ok { IfOk result (λ e. AreRead (codes "U" ∷ map (λ p. p.now) fields.now) e) }
    ensures reason { IfErr result (HasReason (IsFault (codes "U" ∷ map (λ p. p.now) fields.now))) }
{
    let (name, channels, roles) = read_user_fields(alloc, fields)?;
    Ok(Entry::PutUser(name, channels, roles))
}

/// Reads the fields after the kind `R`.
fn read_put_role(alloc: Global, fields: &[&[u8]]) -> Result<Entry, LineFault>
    ensures ok { IfOk result (λ e. AreRead (codes "R" ∷ map (λ p. p.now) fields.now) e) }
    ensures reason { IfErr result (HasReason (IsFault (codes "R" ∷ map (λ p. p.now) fields.now))) }
{
    let (name, channels) = read_role_fields(alloc, fields)?;
    Ok(Entry::PutRole(name, channels))
}

/// Reads the fields after the kind `DU`.
fn read_drop_user(alloc: Global, fields: &[&[u8]]) -> Result<Entry, LineFault>
    ensures ok { IfOk result (λ e. AreRead (codes "DU" ∷ map (λ p. p.now) fields.now) e) }
    ensures reason { IfErr result (HasReason (IsFault (codes "DU" ∷ map (λ p. p.now) fields.now))) }
{
    Ok(Entry::DropUser(read_name_field(alloc, fields)?))
}

/// Reads the fields after the kind `DR`.
fn read_drop_role(alloc: Global, fields: &[&[u8]]) -> Result<Entry, LineFault>
    ensures ok { IfOk result (λ e. AreRead (codes "DR" ∷ map (λ p. p.now) fields.now) e) }
    ensures reason { IfErr result (HasReason (IsFault (codes "DR" ∷ map (λ p. p.now) fields.now))) }
{
    Ok(Entry::DropRole(read_name_field(alloc, fields)?))
}

/// Reads the fields after the kind `X`, which has none.
fn read_unused(fields: &[&[u8]]) -> Result<Entry, LineFault>
    ensures ok { IfOk result (λ e. AreRead (codes "X" ∷ map (λ p. p.now) fields.now) e) }
    ensures reason { IfErr result (HasReason (IsFault (codes "X" ∷ map (λ p. p.now) fields.now))) }
{
    let [] = fields else {
        return Err(LineFault::Bad(Why::Fields));
    };
    Ok(Entry::Unused)
}

/// Reads what stands behind a kind, of which a line of the kind `S` has nothing here.
fn read_texts(alloc: Global, kind: &[u8], texts: &[&[u8]]) -> Result<Entry, LineFault>
    requires { kind.now ≡ codes "S" → length texts.now ≡ 0 }
    ensures ok { IfOk result (λ e. AreRead (kind.now ∷ map (λ p. p.now) texts.now) e) }
    ensures reason { IfErr result
        (HasReason (IsFault (kind.now ∷ map (λ p. p.now) texts.now))) }
{
    match kind {
        b"W" => read_write_entry(alloc, texts),
        b"U" => read_put_user(alloc, texts),
        b"R" => read_put_role(alloc, texts),
        b"DU" => read_drop_user(alloc, texts),
        b"DR" => read_drop_role(alloc, texts),
        b"X" => read_unused(texts),
        b"S" => Err(LineFault::Bad(Why::Fields)),
        _ => Err(LineFault::Bad(Why::Kind)),
    }
}

/// What is wrong with a line of this kind that has more fields than any kind without marks.
fn fault_of_kind(kind: &[u8]) -> Why
    requires { kind.now ≢ codes "S" }
    ensures { (texts : List (List ℕ)) → 11 < length texts → IsFault (kind.now ∷ texts) result }
{
    match kind {
        b"W" | b"U" | b"R" | b"DU" | b"DR" | b"X" => Why::Fields,
        b"S" => unreachable!(),
        _ => Why::Kind,
    }
}

/// Reads the text behind a kind that has no marks.
fn read_behind(alloc: Global, kind: &[u8], line: &[u8]) -> Result<Entry, LineFault>
    requires { kind.now ≢ codes "S" }
    ensures ok { IfOk result (λ e. AreRead (kind.now ∷ pieces 9 line.now) e) }
    ensures reason { IfErr result (HasReason (IsFault (kind.now ∷ pieces 9 line.now))) }
{
    let mut fields: [&[u8]; MOST] = [&[]; MOST];
    match fields_of(line, &mut fields) {
        Some(count) => read_texts(alloc, kind, &fields[..count]),
        None => Err(LineFault::Bad(fault_of_kind(kind))),
    }
}

/// Whether a line of this kind replaces the sync function.
fn is_sync(kind: &[u8]) -> bool
    ensures { result ≡ bytes_eq kind.now (codes "S") }
{
    matches!(kind, b"S")
}

/// Reads the fields of a line.
fn read_fields(alloc: Global, line: &[u8]) -> Result<Entry, LineFault>
    ensures ok { IfOk result (λ e. AreRead (pieces 9 line.now) e) }
    ensures reason { IfErr result (HasReason (IsFault (pieces 9 line.now))) }
{
    let Some((kind, behind)) = cut(line, b'\t') else {
        return read_texts(alloc, line, &[]);
    };
    if is_sync(kind) {
        read_sync(alloc, behind)
    } else {
        read_behind(alloc, kind, behind)
    }
}

/// Reads a line, without its line feed, as an entry, or names what is wrong with it: the first of `Kind`, `Fields` and `Field`.
pub fn read_line(alloc: Global, line: &[u8]) -> Result<Entry, LineFault>
    ensures ok { IfOk result (λ e. IsLine line.now e) }
    ensures reason { IfErr result (HasReason (IsFault (pieces 9 line.now))) }
    ensures none { IfErr result (HasReason (λ why. NoLine line.now)) }
{
    read_fields(alloc, line)
}
