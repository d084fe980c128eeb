//! How a fault is counted: at the counter's end, where it can't be, another answer comes.

ghost use Rattle.std.specs.Prelude.{◌≡◌, ℕ};
ghost use Rattle.sg_outside.specs.Sink.{Counts};
ghost use Rattle.sg_outside.specs.Wire.{CountsGot};
ghost use Rattle.sg_lines.specs.Link.{CountsTook, Fits};
ghost use Rattle.sg_lines.specs.Door.{CountsMet};

use sg_lines::{Met, Took};
use sg_outside::{Gave, Got};

/// Counts a fault of reading.
pub(crate) fn took_fault(faults: &mut u64) -> Took
    ensures counted { CountsTook faults.old result faults.new }
    ensures fits { (room : ℕ) → Fits result room }
{
    if *faults == u64::MAX {
        return Took::End;
    }
    *faults += 1;
    Took::Failed
}

/// Counts a fault of sending.
pub(crate) fn gave_fault(faults: &mut u64) -> Gave
    ensures { Counts faults.old result faults.new }
{
    if *faults == u64::MAX {
        return Gave::Memory;
    }
    *faults += 1;
    Gave::Failed
}

/// Counts a fault of receiving.
pub(crate) fn got_fault(faults: &mut u64) -> Got
    ensures { CountsGot faults.old result faults.new }
{
    if *faults == u64::MAX {
        return Got::Memory;
    }
    *faults += 1;
    Got::Failed
}

/// Counts a fault of accepting.
pub(crate) fn met_fault<L>(faults: &mut u64) -> Met<L>
    ensures { CountsMet faults.old result faults.new }
{
    if *faults == u64::MAX {
        return Met::Memory;
    }
    *faults += 1;
    Met::Failed
}
