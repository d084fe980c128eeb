//! The fields of a journal's lines, each read by its grammar.

ghost use Rattle.std.specs.Prelude.{◌≡◌, ◌^◌, ◌<◌, ◌-◌, ◌∷◌, [], ℕ, List, decimal, IsTrue, IsUtf8, IfOk, IfErr};
ghost use Rattle.sg_names.specs.Grammar.{is_name, is_doc_id};
ghost use Rattle.sg_names.specs.RevId.{rev_text, is_rev};
ghost use Rattle.sg_names.specs.Revs.{revs_text, is_revs};
ghost use Rattle.sg_names.specs.Channels.{channels_text, is_channels};
ghost use Rattle.sg_names.specs.Names.{names_text, is_names};
ghost use Rattle.sg_names.specs.Grants.{grants_text, is_grants};
ghost use Rattle.sg_names.specs.RoleGrants.{role_grants_text, is_role_grants};
ghost use Rattle.sg_names.specs.Hex.{hex_text, is_hex};
ghost use Rattle.sg_history.specs.Journal.{deleted_text, by_text, is_by};
ghost use Rattle.sg_history.specs.SyncText.{is_sync_text};
ghost use Rattle.sg_history.specs.Faults as faults;
ghost use Rattle.sg_history.specs.Faults.{AreTexts, IsText, IsBadTextAmong, IsBadField};

use crate::fault::{LineFault, Why};
use crate::sync_text::SyncText;
use sg_names::{
    Channels, DocId, Grants, Name, Names, RevId, Revs, RoleGrants, TextFault, from_hex,
    read_decimal,
};
use sg_outside::Bytes;
use std::alloc::Global;

/// What a field spells.
pub trait Field: Drop {
    ghost grammar: { faults.Grammar };

    ghost reads: { List ℕ → Self → Type 0 };

    /// Reads the value that the bytes spell: `Bad` where they are outside the grammar.
    fn read_field(alloc: Global, field: &[u8]) -> Result<Self, TextFault>
    where
        Self: Sized,
        ensures ok { IfOk result (λ v. reads field.now v) }
        ensures text { IfOk result (λ _. IsText grammar field.now) }
        ensures bad { result ≡ Err TextFault.Bad → ¬ (IsText grammar field.now) };
}

/// Reads the field of this number, counted from 1 with the kind as the first.
pub fn read<T: Field>(alloc: Global, field: &[u8], number: u64) -> Result<T, LineFault>
    ensures ok { IfOk result (λ v. T.reads field.now v) }
    ensures text { IfOk result (λ _. IsText T.grammar field.now) }
    ensures fault { IfErr result (IsBadField number T.grammar field.now) }
{
    match T::read_field(alloc, field) {
        Ok(value) => Ok(value),
        Err(TextFault::Bad) => Err(LineFault::Bad(Why::Field(number))),
        Err(TextFault::Memory) => Err(LineFault::Memory),
    }
}

/// Reads two fields side by side, of which the first has this number.
pub fn read_two<A: Field, B: Field>(
    alloc: Global,
    first: &[u8],
    second: &[u8],
    number: u64,
) -> Result<(A, B), LineFault>
    requires { number < 2 ^ 64 - 1 }
    ensures first { IfOk result (λ v. A.reads first.now v.0) }
    ensures second { IfOk result (λ v. B.reads second.now v.1) }
    ensures texts { IfOk result (λ _. AreTexts (A.grammar ∷ B.grammar ∷ [])
        (first.now ∷ second.now ∷ [])) }
    ensures fault { IfErr result (IsBadTextAmong number (A.grammar ∷ B.grammar ∷ [])
        (first.now ∷ second.now ∷ [])) }
{
    let a = read(alloc, first, number)?;
    let b = read(alloc, second, number + 1)?;
    Ok((a, b))
}

/// Reads three fields side by side, of which the first has this number.
pub fn read_three<A: Field, B: Field, C: Field>(
    alloc: Global,
    first: &[u8],
    second: &[u8],
    third: &[u8],
    number: u64,
) -> Result<(A, B, C), LineFault>
    requires { number < 2 ^ 64 - 2 }
    ensures first { IfOk result (λ v. A.reads first.now v.0) }
    ensures second { IfOk result (λ v. B.reads second.now v.1) }
    ensures third { IfOk result (λ v. C.reads third.now v.2) }
    ensures texts { IfOk result (λ _. AreTexts (A.grammar ∷ B.grammar ∷ C.grammar ∷ [])
        (first.now ∷ second.now ∷ third.now ∷ [])) }
    ensures fault { IfErr result (IsBadTextAmong number (A.grammar ∷ B.grammar ∷ C.grammar ∷ [])
        (first.now ∷ second.now ∷ third.now ∷ [])) }
{
    let a = read(alloc, first, number)?;
    let (b, c) = read_two(alloc, second, third, number + 1)?;
    Ok((a, b, c))
}

/// The text of a field.
pub(crate) fn text_of(field: &[u8]) -> Result<&str, TextFault>
    ensures ok { IfOk result (λ s. (s.now ≡ field.now) × IsUtf8 field.now) }
    ensures bad { IfErr result (λ e. (e ≡ TextFault.Bad) × (¬ IsUtf8 field.now)) }
{
    match std::str::from_utf8(field) {
        Ok(text) => Ok(text),
        Err(_) => Err(TextFault::Bad),
    }
}

impl Field for Name {
    ghost grammar = { faults.name };

    ghost reads = { λ text v. (v ≡ text) × IsTrue (is_name v) × IsUtf8 text };

    fn read_field(alloc: Global, field: &[u8]) -> Result<Name, TextFault> {
        let text = text_of(field)?;
        Name::parse(alloc, text)
    }
}

impl Field for DocId {
    ghost grammar = { faults.document };

    ghost reads = { λ text v. (v ≡ text) × IsTrue (is_doc_id v) × IsUtf8 text };

    fn read_field(alloc: Global, field: &[u8]) -> Result<DocId, TextFault> {
        let text = text_of(field)?;
        DocId::parse(alloc, text)
    }
}

impl Field for RevId {
    ghost grammar = { faults.revision };

    ghost reads = { λ text v. (text ≡ rev_text v) × IsTrue (is_rev v) × IsUtf8 text };

    fn read_field(alloc: Global, field: &[u8]) -> Result<RevId, TextFault> {
        let text = text_of(field)?;
        RevId::parse(alloc, text)
    }
}

impl Field for Revs {
    ghost grammar = { faults.revisions };

    ghost reads = { λ text v. (text ≡ revs_text v) × IsTrue (is_revs v) × IsUtf8 text };

    fn read_field(alloc: Global, field: &[u8]) -> Result<Revs, TextFault> {
        let text = text_of(field)?;
        Revs::parse(alloc, text)
    }
}

impl Field for Channels {
    ghost grammar = { faults.channels };

    ghost reads = { λ text v. (text ≡ channels_text v) × IsTrue (is_channels v) × IsUtf8 text };

    fn read_field(alloc: Global, field: &[u8]) -> Result<Channels, TextFault> {
        let text = text_of(field)?;
        Channels::parse(alloc, text)
    }
}

impl Field for Names {
    ghost grammar = { faults.names };

    ghost reads = { λ text v. (text ≡ names_text v) × IsTrue (is_names v) × IsUtf8 text };

    fn read_field(alloc: Global, field: &[u8]) -> Result<Names, TextFault> {
        let text = text_of(field)?;
        Names::parse(alloc, text)
    }
}

impl Field for Grants {
    ghost grammar = { faults.grants };

    ghost reads = { λ text v. (text ≡ grants_text v) × IsTrue (is_grants v) × IsUtf8 text };

    fn read_field(alloc: Global, field: &[u8]) -> Result<Grants, TextFault> {
        let text = text_of(field)?;
        Grants::parse(alloc, text)
    }
}

impl Field for RoleGrants {
    ghost grammar = { faults.role_grants };

    ghost reads = { λ text v. (text ≡ role_grants_text v) × IsTrue (is_role_grants v)
        × IsUtf8 text };

    fn read_field(alloc: Global, field: &[u8]) -> Result<RoleGrants, TextFault> {
        let text = text_of(field)?;
        RoleGrants::parse(alloc, text)
    }
}

/// A mark: `0` or `1`.
impl Field for bool {
    ghost grammar = { faults.deleted };

    ghost reads = { λ text v. text ≡ deleted_text v };

    fn read_field(_alloc: Global, field: &[u8]) -> Result<bool, TextFault> {
        match field {
            b"0" => Ok(false),
            b"1" => Ok(true),
            _ => Err(TextFault::Bad),
        }
    }
}

/// A body: at least one byte, in lower-case hexadecimal.
impl Field for Bytes {
    ghost grammar = { faults.body };

    ghost reads = { λ text v. (text ≡ hex_text v) × IsTrue (is_hex text) };

    fn read_field(alloc: Global, field: &[u8]) -> Result<Bytes, TextFault> {
        let mut bytes = Bytes::new(alloc);
        from_hex(field, &mut bytes)?;
        bytes.share()?;
        Ok(bytes)
    }
}

/// A writer: a name, or `-` for the administrator.
impl Field for Option<Name> {
    ghost grammar = { faults.writer };

    ghost reads = { λ text v. (text ≡ by_text v) × IsTrue (is_by v) × IsUtf8 text };

    fn read_field(alloc: Global, field: &[u8]) -> Result<Option<Name>, TextFault> {
        let text = text_of(field)?;
        if text == "-" {
            return Ok(None);
        }
        Ok(Some(Name::parse(alloc, text)?))
    }
}

/// A decimal below 2^64.
impl Field for u64 {
    ghost grammar = { faults.number };

    ghost reads = { λ text v. (v < 2 ^ 64) × (text ≡ decimal v) };

    fn read_field(_alloc: Global, field: &[u8]) -> Result<u64, TextFault> {
        let text = text_of(field)?;
        match read_decimal(text) {
            Some(number) => Ok(number),
            None => Err(TextFault::Bad),
        }
    }
}

/// The text of a sync function, in lower-case hexadecimal.
impl Field for SyncText {
    ghost grammar = { faults.sync_text };

    ghost reads = { λ text v. (text ≡ hex_text v) × IsTrue (is_sync_text v) × IsUtf8 v };

    fn read_field(alloc: Global, field: &[u8]) -> Result<SyncText, TextFault> {
        let mut bytes = Bytes::new(alloc);
        from_hex(field, &mut bytes)?;
        read_sync_text(alloc, bytes.as_slice())
    }
}

/// Reads the text of a sync function of its bytes.
fn read_sync_text(alloc: Global, bytes: &[u8]) -> Result<SyncText, TextFault>
    ensures ok { IfOk result (λ t. (t ≡ bytes.now) × IsTrue (is_sync_text t) × IsUtf8 t) }
    ensures bad { result ≡ Err TextFault.Bad
        → ¬ (IsUtf8 bytes.now × IsTrue (is_sync_text bytes.now)) }
{
    let text = text_of(bytes)?;
    SyncText::parse(alloc, text)
}
