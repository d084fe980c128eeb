//! The lines of what the wire gave.

ghost use Rattle.std.specs.Prelude.{◌≡◌, None, MatchResult, IsTrue, IfOk};
ghost use Rattle.sg_names.specs.Hex.{hex_text, is_hex};
ghost use Rattle.record_file.specs.Record.{item_text, is_item};
ghost use Rattle.record_file.specs.Faults.{frame_fault, item_fault, NamesReason};

use crate::item::Item;
use repl_messages::Version;
use sg_history::fault::LineFault;
use sg_history::{Name, Why, cut};
use sg_outside::Bytes;
use std::alloc::Global;

/// A line behind the first.
#[derive(Drop)]
pub enum Line {
    /// Whose session it is, and the version that its device speaks.
    Owner(Name, Version),
    /// What one call of `recv` gave.
    Item(Item),
}

/// Reads a frame: at least one byte, in lower-case hexadecimal.
fn read_frame(alloc: Global, line: &[u8]) -> Result<Bytes, LineFault>
    ensures ok { IfOk result (λ frame. (line.now ≡ hex_text frame) × IsTrue (is_hex line.now)) }
    ensures fault { MatchResult result
        (λ _. frame_fault line.now ≡ None) (NamesReason (frame_fault line.now)) }
{
    sg_history::field::read(alloc, line, 1)
}

/// Reads a line of what the wire gave, without its line feed.
pub fn read_item(alloc: Global, line: &[u8]) -> Result<Item, LineFault>
    ensures ok { IfOk result (λ item. (line.now ≡ item_text item) × IsTrue (is_item item)) }
    ensures fault { MatchResult result
        (λ _. item_fault line.now ≡ None) (NamesReason (item_fault line.now)) }
{
    if cut(line, b'\t').is_some() {
        return Err(LineFault::Bad(Why::Fields));
    }
    match line {
        b"idle" => Ok(Item::Idle),
        _ => Ok(Item::Frame(read_frame(alloc, line)?)),
    }
}
