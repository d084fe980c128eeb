//! The transcript's lines of a script.

ghost use Rattle.std.specs.Prelude.{◌≡◌, ◌++◌, OnOk, codes, decimal};
ghost use Rattle.sync_values.specs.Texts.{rule_text};
ghost use Rattle.transcripts.specs.Transcript as transcript;

use doc_board::{Outcome, Rule};
use sg_history::write_decimal;
use sg_outside::{Bytes, Memory};
use std::alloc::Global;

/// Puts a text at the end in one line: a space for each line feed.
fn write_in_line(text: &[u8], out: &mut Bytes) -> Result<(), Memory>
    ensures { OnOk result (out.new ≡ out.old ++ transcript.in_one_line text.now) }
{
    for byte in text {
        out.push(if *byte == b'\n' { b' ' } else { *byte })?;
    }
    Ok(())
}

fn write_denied(alloc: Global, rule: &Rule, out: &mut Bytes) -> Result<(), Memory>
    ensures { OnOk result (out.new
        ≡ out.old ++ codes "403 " ++ transcript.in_one_line (rule_text rule.now)) }
{
    let text = rule.text(alloc)?;
    out.extend_from_slice(b"403 ")?;
    write_in_line(text.as_str().as_bytes(), out)
}

fn write_stored(sequence: u64, out: &mut Bytes) -> Result<(), Memory>
    ensures { OnOk result (out.new ≡ out.old ++ codes "stored " ++ decimal sequence) }
{
    out.extend_from_slice(b"stored ")?;
    write_decimal(sequence, out)
}

/// Puts the outcome of a line at the end: where it was stored, that it was known, or the code of its refusal.
fn write_answer(alloc: Global, outcome: &Outcome, out: &mut Bytes) -> Result<(), Memory>
    ensures { OnOk result (out.new ≡ out.old ++ transcript.outcome_text outcome.now) }
{
    let word: &[u8] = match outcome {
        Outcome::Denied403 { rule, .. } => return write_denied(alloc, rule, out),
        Outcome::Stored { sequence, .. } => return write_stored(*sequence, out),
        Outcome::Bad400 { .. } | Outcome::BadHistory400 { .. } => b"400",
        Outcome::TooLarge413 { .. } => b"413",
        Outcome::UserGone401 { .. } => b"401",
        Outcome::Known { .. } => b"known",
        Outcome::Conflict409 { .. } => b"409",
        Outcome::Full503 { .. } => b"503",
        Outcome::LogFull509 { .. } => b"509",
        Outcome::Memory507 => b"507",
    };
    out.extend_from_slice(word)
}

/// Puts the line of the script's line with this number at the end.
pub fn write_outcome(
    alloc: Global,
    number: u64,
    outcome: &Outcome,
    out: &mut Bytes,
) -> Result<(), Memory>
    ensures { OnOk result (out.new ≡ out.old ++ transcript.outcome_line number outcome.now) }
{
    write_decimal(number, out)?;
    out.push(b' ')?;
    write_answer(alloc, outcome, out)?;
    out.push(b'\n')
}
