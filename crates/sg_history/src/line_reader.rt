//! Reads a file of lines, or names its first bad line: the same for each grammar of lines.

ghost use Rattle.std.specs.Prelude.{◌≡◌, ◌≤◌, ◌⊎◌, ◌+◌, ◌∷◌, ◌++◌, List, ℕ, [], drop, length, reverse, IsTrue, MatchBool, IfOk, IfErr, OnOk, OnErr};
ghost use Rattle.sg_history.specs.BadLine.{NamesLine, refusal_at};
ghost use Rattle.sg_history.specs.Faults.{HasReason};
ghost use Rattle.sg_history.specs.Files.{LineGrammar, IsBadFile, IsFileOf, Stops};
ghost use Rattle.sg_history.specs.Pieces.{pieces};
ghost use Rattle.sg_history.specs.inner.Reading.{EndsAs, FailsIn, Reaches};

use crate::fault::{BadLine, LineFault, ReadLog, Why};
use crate::pieces::cut;
use sg_outside::Bytes;
use std::alloc::Global;

/// What lines are read into.
pub trait ReadsLines: Drop {
    type Item;

    ghost grammar: { LineGrammar Self.Item };

    ghost items: { Self → List Self.Item };

    /// Whether this is a first line, without its line feed.
    fn is_title(line: &[u8]) -> bool
        ensures { MatchBool result (grammar.IsTitle line.now) (¬ (grammar.IsTitle line.now)) };

    /// Reads the next line, without its line feed. An error leaves what was read.
    fn read_line(&mut self, alloc: Global, line: &[u8]) -> Result<(), LineFault>
        ensures ok { OnOk result ((x : Self.Item)
            × grammar.Says (reverse (items self.old)) line.now x
            × (items self.new ≡ items self.old ++ x ∷ [])) }
        ensures reason { IfErr result (HasReason
            (grammar.Fails (reverse (items self.old)) line.now)) }
        ensures err { OnErr result (items self.new ≡ items self.old) };

    /// Whether a file may end behind what was read.
    fn may_end(&self) -> bool
        ensures { result ≡ grammar.may_end (reverse (items self.now)) };

    /// The number of the next line, counted from 1 with the first line.
    fn next_place(&self) -> u64
        ensures { result ≡ length (items self.now) + 2 };
}

/// The refusal that names this line and what is wrong with it.
pub(crate) fn bad(place: u64, why: Why) -> ReadLog
    ensures { result ≡ ReadLog.Bad (record { place = place; why = why }) }
{
    ReadLog::Bad(BadLine { place, why })
}

/// The refusal of the line at this place.
pub(crate) fn refuse(place: u64, fault: LineFault) -> ReadLog
    ensures { result ≡ refusal_at place fault }
{
    match fault {
        LineFault::Bad(why) => bad(place, why),
        LineFault::Memory => ReadLog::Memory,
    }
}

/// Reads lines until so many bytes are passed over, and says how many are.
fn read_part<L: ReadsLines>(
    alloc: Global,
    text: &[u8],
    enough: usize,
    into: &mut L,
) -> Result<usize, LineFault>
    ensures within { IfOk result (λ passed. passed ≤ length text.now) }
    ensures enough { IfOk result (λ passed. (passed ≡ length text.now) ⊎ (enough ≤ passed)) }
    ensures read { IfOk result (λ passed. Reaches L.grammar (L.items into.old) text.now
        (L.items into.new) (drop passed text.now)) }
    ensures reason { IfErr result (HasReason (FailsIn L.grammar (L.items into.old) text.now
        (L.items into.new))) }
{
    let mut passed = 0;
    'lines: while passed < text.len() && passed < enough {
        let Some((line, _)) = cut(&text[passed..], b'\n') else {
            return Err(LineFault::Bad(Why::Ending));
        };
        into.read_line(alloc, line)?;
        passed += line.len() + 1;
    }
    Ok(passed)
}

/// Refuses an end where no file may have one.
fn end<L: ReadsLines>(into: &L) -> Result<(), LineFault>
    ensures ok { IfOk result (λ _. IsTrue (L.grammar.may_end (reverse (L.items into.now)))) }
    ensures reason { IfErr result (HasReason (Stops L.grammar
        (reverse (L.items into.now)) ([] ∷ []))) }
{
    if !into.may_end() {
        return Err(LineFault::Bad(Why::Ending));
    }
    Ok(())
}

/// Reads lines that stay.
pub(crate) fn read_lines<L: ReadsLines>(
    alloc: Global,
    lines: &[u8],
    into: &mut L,
) -> Result<(), LineFault>
    requires { L.items into.old ≡ [] }
    ensures { EndsAs L.grammar (pieces 10 lines.now) (L.items into.new) result }
{
    read_part(alloc, lines, lines.len(), into)?;
    end(into)
}

/// Reads lines. What was read of them is let go, each time that it is half of what there was.
pub(crate) fn take_lines<L: ReadsLines>(
    alloc: Global,
    lines: Bytes,
    into: &mut L,
) -> Result<(), LineFault>
    requires { L.items into.old ≡ [] }
    ensures { EndsAs L.grammar (pieces 10 lines) (L.items into.new) result }
{
    let mut rest = lines;
    'parts: while !rest.is_empty() {
        let passed = read_part(alloc, rest.as_slice(), rest.len() / 2 + 1, into)?;
        rest.drop_front(passed);
    }
    end(into)
}

/// What is wrong with a first line that has no line feed.
fn fault_of_title<L: ReadsLines>(line: &[u8]) -> Why
    requires { pieces 10 line.now ≡ line.now ∷ [] }
    ensures { IsBadFile L.grammar line.now (record { place = 1; why = result }) }
{
    if L::is_title(line) {
        Why::Ending
    } else {
        Why::Head
    }
}

/// The lines behind the first one, or what is wrong with that.
fn behind_title<L: ReadsLines>(bytes: &[u8]) -> Result<&[u8], Why>
    ensures ok { IfOk result (λ lines. (first : List ℕ) × L.grammar.IsTitle first
        × (pieces 10 bytes.now ≡ first ∷ pieces 10 lines.now)) }
    ensures bad { IfErr result
        (λ why. IsBadFile L.grammar bytes.now (record { place = 1; why = why })) }
{
    let Some((first, lines)) = cut(bytes, b'\n') else {
        return Err(fault_of_title::<L>(bytes));
    };
    if !L::is_title(first) {
        return Err(Why::Head);
    }
    Ok(lines)
}

/// Reads a file, or names its first bad line and what is wrong with it.
pub fn read_file<L: ReadsLines>(alloc: Global, bytes: &[u8], into: &mut L) -> Result<(), ReadLog>
    requires { L.items into.old ≡ [] }
    ensures ok { OnOk result (IsFileOf L.grammar bytes.now (L.items into.new)) }
    ensures line { IfErr result (NamesLine (IsBadFile L.grammar bytes.now)) }
{
    let lines = match behind_title::<L>(bytes) {
        Ok(lines) => lines,
        Err(why) => return Err(bad(1, why)),
    };
    match read_lines(alloc, lines, into) {
        Ok(()) => Ok(()),
        Err(fault) => Err(refuse(into.next_place(), fault)),
    }
}
