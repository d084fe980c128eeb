//! The journal: reads the text of a history, or names its first bad line.
//!
//! First the lines are read as entries, up to one that is none's; then the first entry is looked for that breaks a rule.
//! So the text may be let go, piece by piece, while it is read.

ghost use Rattle.std.specs.Prelude.{◌≡◌, ◌++◌, ◌∷◌, ◌+◌, ◌-◌, ◌<◌, ◌^◌, List, ℕ, [], length, IfOk, IfErr};
ghost use Rattle.sg_history.specs.BadLine.{IsBadJournal, NamesLine, journal_lines};
ghost use Rattle.sg_history.specs.Files.{AreSaid, IsBadBehind};
ghost use Rattle.sg_history.specs.History.{History, history, entries_of};
ghost use Rattle.sg_history.specs.Journal.{Spells};
ghost use Rattle.sg_history.specs.inner.Reading.{EndsAs, journal_texts, ran_out};
ghost use Rattle.sg_history.specs.Refusal.{RefusesLog};

use crate::entries::{Entries, Entry, Log};
use crate::fault::{LineFault, ReadLog};
use crate::header::{read_header, read_title, take_header};
use crate::line::read_line;
use crate::line_reader::{ReadsLines, bad, read_lines, refuse, take_lines};
use crate::rules::first_broken;
use sg_outside::Bytes;
use std::alloc::Global;

/// Entries as the lines of a journal say them; whether they keep the rules is not asked.
impl ReadsLines for Entries {
    type Item = Entry;

    ghost grammar = { journal_texts };

    ghost items = { λ e. e.list };

    fn is_title(line: &[u8]) -> bool {
        read_title(line).is_some()
    }

    fn read_line(&mut self, alloc: Global, line: &[u8]) -> Result<(), LineFault> {
        let entry = read_line(alloc, line)?;
        self.push(entry)?;
        Ok(())
    }

    fn may_end(&self) -> bool {
        true
    }

    fn next_place(&self) -> u64 {
        self.as_slice().len() as u64 + 2
    }
}

fn is_out(end: &Result<(), LineFault>) -> bool
    ensures { result ≡ ran_out end.now }
{
    matches!(end, Err(LineFault::Memory))
}

/// The log of lines that were read, with this limit, if none of them breaks a rule.
fn log_of(
    alloc: Global,
    limit: Option<u32>,
    entries: Entries,
    end: Result<(), LineFault>,
) -> Result<Log, ReadLog>
    ensures ok { (lines : List (List ℕ)) → EndsAs journal_texts lines entries.list end
        → IfOk result (λ log. AreSaid journal_lines lines (entries_of log)) }
    ensures limit { IfOk result (λ log. log.limit ≡ limit) }
    ensures line { (lines : List (List ℕ)) → EndsAs journal_texts lines entries.list end
        → IfErr result (NamesLine (IsBadBehind journal_lines lines)) }
{
    let next = entries.next_place();
    if is_out(&end) {
        return Err(ReadLog::Memory);
    }
    if let Some(line) = first_broken(alloc, entries.as_slice())? {
        return Err(ReadLog::Bad(line));
    }
    match end {
        Ok(()) => Ok(Log { entries, limit }),
        Err(fault) => Err(refuse(next, fault)),
    }
}

/// Reads a journal, or names its first bad line and what is wrong with it, which is the first of: `Head` (line 1 is no
/// header), `Ending` (no line feed), `Kind`, `Fields`, `Field` and `Rule`.
pub fn read_journal(alloc: Global, bytes: &[u8]) -> Result<Log, ReadLog>
    ensures ok { IfOk result (λ log. Spells bytes.now (history log)) }
    ensures bad { IfErr result (λ e. RefusesLog e ((h : History) → ¬ (Spells bytes.now h))) }
    ensures line { IfErr result (NamesLine (IsBadJournal bytes.now)) }
{
    match read_header(bytes) {
        Ok(header) => {
            let mut entries = Entries::new(alloc);
            let end = read_lines(alloc, header.lines, &mut entries);
            log_of(alloc, header.limit, entries, end)
        }
        Err(why) => Err(bad(1, why)),
    }
}

/// Reads a journal as `read_journal` does, and lets its bytes go while it is read.
pub fn take_journal(alloc: Global, bytes: Bytes) -> Result<Log, ReadLog>
    ensures ok { IfOk result (λ log. Spells bytes (history log)) }
    ensures bad { IfErr result (λ e. RefusesLog e ((h : History) → ¬ (Spells bytes h))) }
    ensures line { IfErr result (NamesLine (IsBadJournal bytes)) }
{
    match take_header(bytes) {
        Ok((limit, lines)) => {
            let mut entries = Entries::new(alloc);
            let end = take_lines(alloc, lines, &mut entries);
            log_of(alloc, limit, entries, end)
        }
        Err(why) => Err(bad(1, why)),
    }
}
