//! Text that is written to the output.

ghost use Rattle.command_line.specs.Run.{Prints};

use crate::status::Status;
use sg_outside::{Gave, Sink};

/// Writes a text to the output at once.
pub fn print<O: Sink>(text: &[u8], out: &mut O) -> Status
    ensures { Prints result text.now
        (O.faults out.old) (O.faults out.new) (O.taken out.old) (O.taken out.new) }
{
    match out.give(text) {
        Gave::Done => Status::Ok,
        Gave::Failed => Status::WriteFault,
        Gave::Memory => Status::Memory,
    }
}
