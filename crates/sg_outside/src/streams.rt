//! Reading a whole file and writing all bytes, over any reader and any writer.

ghost use Rattle.std.specs.Prelude.{◌≡◌, ◌⊎◌, ◌<◌, ◌^◌, ◌+◌, ◌-◌};
ghost use Rattle.std.specs.IoError.{error_kind};
ghost use Rattle.std.specs.Io.KnownBytes.{IsAtEnd};
ghost use Rattle.sg_outside.specs.Files.{CountsLoad};
ghost use Rattle.sg_outside.specs.Sink.{Counts};
ghost use Rattle.sg_outside.specs.Streams.{LoadsRest, Writes};

use crate::bytes::Bytes;
use crate::files::{LARGEST_FILE, Loaded, count_fault};
use crate::sink::Gave;
use std::io::{Error, ErrorKind, Read, Write};

/// What an error of a file answers: that memory ran out is no fault, and all else is counted.
pub(crate) fn load_fault(error: &Error, faults: &mut u64) -> Loaded
    ensures counted { CountsLoad faults.old result faults.new }
    ensures answer { (result ≡ Loaded.Failed) ⊎ (result ≡ Loaded.Memory) }
    ensures memory { error_kind error.now ≡ ErrorKind.OutOfMemory
        → (result ≡ Loaded.Memory) × (faults.new ≡ faults.old) }
{
    if error.kind() == ErrorKind::OutOfMemory {
        return Loaded::Memory;
    }
    count_fault(faults)
}

/// Appends what a reader has left, up to its end; every answer but `Whole` leaves `into` as it was.
///
/// `Whole` comes only at the reader's end, and `Longer` only where more bytes came than a file may have. Reads that
/// were interrupted are tried again.
pub fn read_whole<F: Read>(file: &mut F, faults: &mut u64, into: &mut Bytes) -> Loaded
    ensures counted { CountsLoad faults.old result faults.new }
    ensures loaded { LoadsRest (F.remaining file.old) result into.old into.new }
    ensures end { result ≡ Loaded.Whole → IsAtEnd (F.remaining file.new) }
{
    let start = into.len();
    let mut piece = [0u8; 16384];
    let mut count: usize = 0;
    for _ in 0..u64::MAX {
        match file.read(&mut piece) {
            Ok(0) => return Loaded::Whole,
            Ok(n) => {
                if n > LARGEST_FILE - count {
                    into.truncate(start);
                    return Loaded::Longer;
                }
                if into.extend_from_slice(&piece[..n]).is_err() {
                    into.truncate(start);
                    return Loaded::Memory;
                }
                count += n;
            }
            Err(error) => {
                if error.kind() != ErrorKind::Interrupted {
                    into.truncate(start);
                    return load_fault(&error, faults);
                }
            }
        }
    }
    into.truncate(start);
    count_fault(faults)
}

/// Counts a fault of a writer.
fn give_fault(faults: &mut u64) -> Gave
    requires { faults.old < 2 ^ 64 - 1 }
    ensures failed { result ≡ Gave.Failed }
    ensures counted { faults.new ≡ faults.old + 1 }
{
    *faults += 1;
    Gave::Failed
}

/// Gives all bytes to a writer; at a fault it took a beginning of them. Where no further fault can be counted,
/// nothing is written. Writes that were interrupted are tried again.
pub fn write_whole<W: Write>(writer: &mut W, faults: &mut u64, bytes: &[u8]) -> Gave
    ensures counted { Counts faults.old result faults.new }
    ensures written { Writes (W.contents writer.old) bytes.now result (W.contents writer.new) }
{
    if *faults == u64::MAX {
        return Gave::Memory;
    }
    let mut count: usize = 0;
    for _ in 0..u64::MAX {
        if count == bytes.len() {
            return Gave::Done;
        }
        match writer.write(&bytes[count..]) {
            Ok(0) => return give_fault(faults),
            Ok(n) => count += n,
            Err(error) => {
                if error.kind() != ErrorKind::Interrupted {
                    return give_fault(faults);
                }
            }
        }
    }
    give_fault(faults)
}
