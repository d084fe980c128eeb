//! The line that says a verdict.

ghost use Rattle.std.specs.Prelude.{◌≡◌, ◌++◌, IfOk, OnOk, map};
ghost use Rattle.config_check.specs.Line as lines;

use crate::function::FunctionFault;
use crate::verdict::{Refusal, Verdict};
use crate::words::{config_words, function_words};
use sg_history::write_decimal;
use sg_outside::{Bytes, Memory};
use std::alloc::Global;
use sync_syntax::Place;

/// A byte as it is shown: a `?` for a control character.
fn shown(byte: u8) -> u8
    ensures { result ≡ lines.shown byte }
{
    if byte < 32 || byte == 127 { b'?' } else { byte }
}

/// Puts a path at the end, with no control character.
fn write_shown(path: &str, out: &mut Bytes) -> Result<(), Memory>
    ensures { OnOk result (out.new ≡ out.old ++ map (λ b. lines.shown b) path.now) }
{
    for byte in path.as_bytes() {
        out.push(shown(*byte))?;
    }
    Ok(())
}

/// Puts the path of a member at the end, if it has one, and a colon and a blank.
fn write_path(path: &str, out: &mut Bytes) -> Result<(), Memory>
    ensures { OnOk result (out.new ≡ out.old ++ lines.path_text path.now) }
{
    if path.is_empty() {
        return Ok(());
    }
    write_shown(path, out)?;
    out.extend_from_slice(b": ")
}

/// Puts a place at the end, and a colon and a blank.
fn write_place(place: Place, out: &mut Bytes) -> Result<(), Memory>
    ensures { OnOk result (out.new ≡ out.old ++ lines.shown_place place) }
{
    out.extend_from_slice(b"line ")?;
    write_decimal(u64::from(place.line), out)?;
    out.extend_from_slice(b", column ")?;
    write_decimal(u64::from(place.column), out)?;
    out.extend_from_slice(b": ")
}

/// Puts the fault of a sync function's text at the end.
fn write_fault(fault: &FunctionFault, out: &mut Bytes) -> Result<(), Memory>
    ensures { OnOk result (out.new ≡ out.old ++ lines.fault_text fault.now) }
{
    write_place(fault.place, out)?;
    out.extend_from_slice(function_words(fault.why).as_bytes())
}

/// Puts what is wrong with a configuration at the end.
fn write_refusal(refusal: &Refusal, out: &mut Bytes) -> Result<(), Memory>
    ensures { OnOk result (out.new ≡ out.old ++ lines.refused_text refusal.now) }
{
    write_path(refusal.path.as_str(), out)?;
    match &refusal.function {
        Some(fault) => write_fault(fault, out),
        None => out.extend_from_slice(config_words(refusal.why).as_bytes()),
    }
}

/// Puts a verdict at the end.
fn write_verdict(verdict: &Verdict, out: &mut Bytes) -> Result<(), Memory>
    ensures { OnOk result (out.new ≡ out.old ++ lines.verdict_text verdict.now) }
{
    match verdict {
        Verdict::Good => out.extend_from_slice(b"good"),
        Verdict::Long => out.extend_from_slice(b"more than 1073741824 bytes"),
        Verdict::Bad(refusal) => write_refusal(refusal, out),
    }
}

/// The line that says a verdict.
pub(crate) fn line_of(alloc: Global, verdict: &Verdict) -> Result<Bytes, Memory>
    ensures { IfOk result (λ line. line ≡ lines.verdict_line verdict.now) }
{
    let mut out = Bytes::new(alloc);
    write_verdict(verdict, &mut out)?;
    out.push(b'\n')?;
    Ok(out)
}
