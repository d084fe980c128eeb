//! Why a journal is refused.

use crate::config_fault::{ConfigWhy, Path};
use std::alloc::AllocError;

/// What is wrong with a line, or with a whole file.
#[derive(Debug, Drop)]
pub enum Why {
    /// The first line isn't the header.
    Head,
    /// The line has no line feed.
    Ending,
    /// Its first field is no kind of line.
    Kind,
    /// It has another number of fields.
    Fields,
    /// This field, counted from 1, is outside its grammar.
    Field(u64),
    /// The line breaks the rule of this field.
    Rule(u64),
    /// The file is longer than a file may be.
    Long,
    /// The file is a configuration, and what is at this path is refused.
    Config { path: Path, why: ConfigWhy },
}

/// The first bad line, counted from 1 with the header as line 1; 0 stands for a whole file.
#[derive(Debug, Drop)]
pub struct BadLine {
    pub place: u64,
    pub why: Why,
}

/// Why a file of lines is refused.
#[derive(Debug, Drop)]
pub enum ReadLog {
    Bad(BadLine),
    /// Memory ran out.
    Memory,
}

impl From<AllocError> for ReadLog {
    ghost use Rattle.std.specs.Prelude.{◌≡◌};
    ghost use Rattle.sg_history.specs.declared.fault.ReadLog.{ReadLog};
    ghost use Rattle.sg_history.specs.declared.fault.ReadLog.TheVariants.{Memory};

    ghost from_gives = { λ _ r. r ≡ Memory };

    fn from(_: AllocError) -> ReadLog {
        ReadLog::Memory
    }
}

/// Why one line is refused.
#[derive(Debug, Drop)]
pub enum LineFault {
    Bad(Why),
    /// Memory ran out.
    Memory,
}

impl From<AllocError> for LineFault {
    ghost use Rattle.std.specs.Prelude.{◌≡◌};
    ghost use Rattle.sg_history.specs.declared.fault.LineFault.{LineFault};
    ghost use Rattle.sg_history.specs.declared.fault.LineFault.TheVariants.{Memory};

    ghost from_gives = { λ _ r. r ≡ Memory };

    fn from(_: AllocError) -> LineFault {
        LineFault::Memory
    }
}
