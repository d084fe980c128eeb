//! A script, read from its file.

ghost use Rattle.std.specs.Prelude.{◌≡◌, List, IfOk, IfErr};
ghost use Rattle.sg_history.specs.BadLine.{NamesLine};
ghost use Rattle.sg_history.specs.Refusal.{RefusesLog};
ghost use Rattle.principals.specs.declared.admin_line.AdminLine.{AdminLine};
ghost use Rattle.principals.specs.Script.{SpellsScript};
ghost use Rattle.principals.specs.Faults.{IsBadScript, script_lines};

use crate::admin_line::{AdminLine, AdminLines};
use crate::line::read_line;
use sg_history::ReadLog;
use sg_history::fault::LineFault;
use sg_history::line_reader::{ReadsLines, read_file};
use std::alloc::Global;

/// The first line of a script.
const HEADER: &str = "sgadmin 1";

/// The lines that were read.
#[derive(Drop)]
struct Script {
    lines: AdminLines,
}

impl ReadsLines for Script {
    type Item = AdminLine;

    ghost grammar = { script_lines };

    ghost items = { λ s. s.lines };

    fn is_title(line: &[u8]) -> bool {
        line == HEADER.as_bytes()
    }

    fn read_line(&mut self, alloc: Global, line: &[u8]) -> Result<(), LineFault> {
        let read = read_line(alloc, line)?;
        self.lines.push(read)?;
        Ok(())
    }

    fn may_end(&self) -> bool {
        true
    }

    fn next_place(&self) -> u64 {
        self.lines.as_slice().len() as u64 + 2
    }
}

/// Reads a script, or names its first bad line, counted from 1 with the header as line 1, and what is wrong with it, which
/// is the first of: `Head` (line 1 is not the header), `Ending` (no line feed), `Kind`, `Fields` and `Field`, of which the
/// first field is the kind.
pub fn read_admin(alloc: Global, bytes: &[u8]) -> Result<AdminLines, ReadLog>
    ensures ok { IfOk result (λ lines. SpellsScript bytes.now lines) }
    ensures bad { IfErr result
        (λ e. RefusesLog e ((lines : List AdminLine) → ¬ (SpellsScript bytes.now lines))) }
    ensures line { IfErr result (NamesLine (IsBadScript bytes.now)) }
{
    let mut script = Script {
        lines: AdminLines::new(alloc),
    };
    read_file(alloc, bytes, &mut script)?;
    Ok(script.lines)
}
