//! The head of a request, read from a link.

ghost use Rattle.std.specs.Prelude.{◌≡◌, ◌<◌, ◌≤◌, IfOk, IsTrue};
ghost use Rattle.ws_door.specs.Heads.{is_whole, ReadsHeadIfRecorded};

use crate::head_reader::HeadReader;
use sg_lines::Link;
use sg_outside::Bytes;
use std::alloc::Global;

/// Why no head was read.
#[derive(Clone, Copy, Debug, PartialEq, Eq)]
pub enum HeadFault {
    /// The link ended before the head did.
    Ended,
    /// The link was idle too often.
    Slow,
    /// The link failed.
    LinkFault,
    /// Memory ran out: nothing was read.
    Memory,
}

/// Reads the head of a request, byte by byte, up to its first empty line or to 8,192 bytes. Nothing
/// is written.
pub fn read_head<L: Link>(alloc: Global, link: &mut L) -> Result<Bytes, HeadFault>
    ensures recorded { ReadsHeadIfRecorded (L.recorded link.old) result (L.recorded link.new) }
    ensures whole { IfOk result (λ head. IsTrue (is_whole head)) }
    ensures counted { L.faults link.old ≤ L.faults link.new }
    ensures fault { result ≡ Err HeadFault.LinkFault → L.faults link.old < L.faults link.new }
{
    let mut head = HeadReader::new(alloc)?;
    'reads: loop {
        let whole = head.read_on(link)?;
        if whole {
            return Ok(head.into_bytes());
        }
    }
}
