//! A recorded session, read from its file.

ghost use Rattle.std.specs.Prelude.{◌≡◌, IfOk, IfErr};
ghost use Rattle.sg_history.specs.BadLine.{NamesLine};
ghost use Rattle.sg_history.specs.Refusal.{RefusesLog};
ghost use Rattle.record_file.specs.declared.record.Recorded.{Recorded};
ghost use Rattle.record_file.specs.Lines.{IsBadRecord, lines_in, record_lines};
ghost use Rattle.record_file.specs.Record.{SpellsRecord};

use crate::item::Items;
use crate::line::{Line, read_item};
use crate::owner::{Owner, read_owner};
use repl_messages::Version;
use sg_history::fault::LineFault;
use sg_history::line_reader::{ReadsLines, read_file};
use sg_history::{BadLine, Name, ReadLog, Why};
use std::alloc::Global;

/// The first line of a recorded session.
const HEADER: &str = "sgsession 1";

/// A recorded session: whose it is, and what the wire gave.
#[derive(Drop)]
pub struct Recorded {
    pub user: Name,
    pub version: Version,
    pub items: Items,
}

/// What was read of a session, once it was said whose it is.
#[derive(Drop)]
struct Reading {
    session: Option<Recorded>,
}

impl ReadsLines for Reading {
    type Item = Line;

    ghost grammar = { record_lines };

    ghost items = { λ r. lines_in r.session };

    fn is_title(line: &[u8]) -> bool {
        line == HEADER.as_bytes()
    }

    fn read_line(&mut self, alloc: Global, line: &[u8]) -> Result<(), LineFault> {
        if let Some(session) = &mut self.session {
            session.items.push(read_item(alloc, line)?)?;
            return Ok(());
        }
        let Owner { user, version } = read_owner(alloc, line)?;
        self.session = Some(Recorded {
            user,
            version,
            items: Items::new(alloc),
        });
        Ok(())
    }

    fn may_end(&self) -> bool {
        self.session.is_some()
    }

    fn next_place(&self) -> u64 {
        match &self.session {
            Some(session) => session.items.as_slice().len() as u64 + 3,
            None => 2,
        }
    }
}

/// Reads a recorded session, or names its first bad line.
///
/// A line's faults are named in this order: `Head` (the first line), `Ending`, then `Kind` (the second line), `Fields`
/// and the first `Field`.
pub fn read_record(alloc: Global, bytes: &[u8]) -> Result<Recorded, ReadLog>
    ensures ok { IfOk result (λ r. SpellsRecord bytes.now r) }
    ensures bad { IfErr result (λ e. RefusesLog e ((r : Recorded) → ¬ (SpellsRecord bytes.now r))) }
    ensures line { IfErr result (NamesLine (IsBadRecord bytes.now)) }
{
    let mut reading = Reading { session: None };
    read_file(alloc, bytes, &mut reading)?;
    match reading.session {
        Some(session) => Ok(session),
        None => Err(ReadLog::Bad(BadLine {
            place: 2,
            why: Why::Ending,
        })),
    }
}
