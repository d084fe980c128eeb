//! Why a run does not go on, and the files that it takes.

use doc_board::OpenFault;
use sg_history::{ReadLog, TextFault};
use sg_outside::{Bytes, Files, Loaded};
use std::alloc::{AllocError, Global};

/// Why a run does not go on.
#[derive(Debug, Drop)]
pub enum Stop {
    File,
    Memory,
    Text,
    Journal,
    Board,
    Program,
}

impl From<AllocError> for Stop {
    fn from(_refused: AllocError) -> Stop {
        Stop::Memory
    }
}

impl From<TextFault> for Stop {
    fn from(_fault: TextFault) -> Stop {
        Stop::Text
    }
}

impl From<ReadLog> for Stop {
    fn from(_bad: ReadLog) -> Stop {
        Stop::Journal
    }
}

impl From<OpenFault> for Stop {
    fn from(_fault: OpenFault) -> Stop {
        Stop::Board
    }
}

/// The bytes of a file.
pub fn load<F: Files>(alloc: Global, files: &mut F, path: &str) -> Result<Bytes, Stop> {
    let mut bytes = Bytes::new(alloc);
    match files.load(path, &mut bytes) {
        Loaded::Whole => Ok(bytes),
        _ => Err(Stop::File),
    }
}
