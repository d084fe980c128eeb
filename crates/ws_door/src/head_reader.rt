//! A head, as far as it was read.

ghost use Rattle.std.specs.Prelude.{◌≡◌, ◌<◌, ◌≤◌, IfOk, IfErr, IsTrue};
ghost use Rattle.sg_lines.specs.Link.{ReadsIfRecorded};
ghost use Rattle.ws_door.specs.Heads.{ends_empty_line, is_whole, is_single};
ghost use Rattle.ws_door.specs.inner.HeadReader.{line_read, ReadsOn, Adds, HasRoom, IsAtFirst};

use crate::heads::HeadFault;
use sg_lines::{Link, Took};
use sg_outside::Bytes;
use std::alloc::Global;

/// Heads have at most so many bytes.
const MOST_BYTES: usize = 8192;

/// Idle results before a link is given up.
const MOST_IDLE: u64 = 1000;

/// What reading one byte gave.
#[derive(Clone, Copy)]
enum ByteRead {
    Byte(u8),
    Idle,
    End,
    Failed,
}

/// A head, as far as it was read, with room for all that may come, and how often the link was idle.
#[derive(Drop)]
pub(crate) struct HeadReader {
    bytes: Vec<u8>,
    idle: u64,
}

fn read_byte<L: Link>(link: &mut L) -> ByteRead
    ensures recorded { ReadsIfRecorded (L.recorded link.old) (line_read result)
        (L.recorded link.new) }
    ensures single { IsTrue (is_single (line_read result)) }
    ensures counted { L.faults link.old ≤ L.faults link.new }
    ensures fault { result ≡ ByteRead.Failed → L.faults link.old < L.faults link.new }
{
    let mut byte = [0];
    match link.read(&mut byte) {
        Took::Read(_) => ByteRead::Byte(byte[0]),
        Took::Idle => ByteRead::Idle,
        Took::End => ByteRead::End,
        Took::Failed => ByteRead::Failed,
    }
}

/// Whether the last byte ends an empty line.
fn ends_line(bytes: &[u8]) -> bool
    ensures { result ≡ ends_empty_line bytes.now }
{
    bytes.ends_with(b"\n\n") || bytes.ends_with(b"\n\r\n")
}

fn is_head(bytes: &[u8]) -> bool
    ensures { result ≡ is_whole bytes.now }
{
    ends_line(bytes) || bytes.len() == MOST_BYTES
}

impl HeadReader {
    /// Nothing was read yet.
    pub(crate) fn new(alloc: Global) -> Result<HeadReader, HeadFault>
        ensures ok { IfOk result IsAtFirst }
        ensures room { IfOk result HasRoom }
        ensures err { IfErr result (λ e. e ≡ HeadFault.Memory) }
    {
        match Vec::with_capacity(alloc, MOST_BYTES) {
            Ok(bytes) => Ok(HeadReader { bytes, idle: 0 }),
            Err(_) => Err(HeadFault::Memory),
        }
    }

    /// Adds what was read; gives whether the head is whole.
    fn add(&mut self, read: ByteRead) -> Result<bool, HeadFault>
        requires { HasRoom self.old }
        ensures { Adds self.old (line_read read) result self.new }
    {
        match read {
            ByteRead::Byte(byte) => {
                self.bytes.push_reserved(byte);
                Ok(is_head(self.bytes.as_slice()))
            }
            ByteRead::Idle => {
                self.idle += 1;
                if self.idle == MOST_IDLE {
                    return Err(HeadFault::Slow);
                }
                Ok(false)
            }
            ByteRead::End => Err(HeadFault::Ended),
            ByteRead::Failed => Err(HeadFault::LinkFault),
        }
    }

    /// Reads once more; gives whether the head is whole.
    pub(crate) fn read_on<L: Link>(&mut self, link: &mut L) -> Result<bool, HeadFault>
        requires { HasRoom self.old }
        ensures read { ReadsOn (L.recorded link.old) self.old result (L.recorded link.new)
            self.new }
        ensures counted { L.faults link.old ≤ L.faults link.new }
        ensures fault { result ≡ Err HeadFault.LinkFault → L.faults link.old < L.faults link.new }
    {
        let read = read_byte(link);
        self.add(read)
    }

    pub(crate) fn into_bytes(self) -> Bytes
        ensures { result ≡ self.bytes.items }
    {
        Bytes::from_vec(self.bytes)
    }
}
