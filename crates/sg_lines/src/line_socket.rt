//! The socket of a line in memory, and what is left of such a line.

ghost use Rattle.std.specs.Prelude.{◌≡◌};
ghost use Rattle.std.specs.Option.{option_copied};
ghost use Rattle.sg_outside.specs.Scripts.{SendsByScript, fails_at, one_more, sendings_of};
ghost use Rattle.sg_outside.specs.Sink.{Counts};
ghost use Rattle.sg_outside.specs.Wire.{CountsGot, ReceivesIfRecorded, SendsIfRecorded};
ghost use Rattle.sg_lines.specs.LineSocket.{taken_in, wire_at, wire_in};

use crate::line_log::LineLog;
use sg_outside::{Gave, Got, MemWire, ScriptedWire, Wire};

/// A wire in memory as the socket of a line: it records what the line did besides.
#[derive(Drop)]
pub struct LineSocket<W: Drop> {
    pub(crate) wire: W,
    pub(crate) log: LineLog,
}

impl Wire for LineSocket<MemWire> {
    ghost use Rattle.sg_lines.specs.Line.{of_line};

    ghost faults = { λ s. ⟦<MemWire as Wire>⟧.faults s.wire };

    ghost recorded = { λ s. of_line s.log (⟦<MemWire as Wire>⟧.recorded s.wire) };

    fn recv(&mut self) -> Got {
        self.wire.recv()
    }

    fn send(&mut self, frame: &[u8]) -> Gave {
        self.wire.send(frame)
    }
}

impl Wire for LineSocket<ScriptedWire> {
    ghost use Rattle.sg_lines.specs.Line.{of_line};

    ghost faults = { λ s. ⟦<ScriptedWire as Wire>⟧.faults s.wire };

    ghost recorded = { λ s. of_line s.log (⟦<ScriptedWire as Wire>⟧.recorded s.wire) };

    fn recv(&mut self) -> Got
        ensures counted { CountsGot (⟦<ScriptedWire as Wire>⟧.faults self.old.wire) result
            (⟦<ScriptedWire as Wire>⟧.faults self.new.wire) }
        ensures recorded { ReceivesIfRecorded
            (of_line self.old.log (⟦<ScriptedWire as Wire>⟧.recorded self.old.wire)) result
            (of_line self.new.log (⟦<ScriptedWire as Wire>⟧.recorded self.new.wire)) }
        ensures sendings { sendings_of (wire_at self.new) ≡ sendings_of (wire_at self.old) }
        ensures kept { (wire_at self.new).send_fails ≡ (wire_at self.old).send_fails }
    {
        self.wire.recv()
    }

    fn send(&mut self, frame: &[u8]) -> Gave
        ensures counted { Counts (⟦<ScriptedWire as Wire>⟧.faults self.old.wire) result
            (⟦<ScriptedWire as Wire>⟧.faults self.new.wire) }
        ensures recorded { SendsIfRecorded
            (of_line self.old.log (⟦<ScriptedWire as Wire>⟧.recorded self.old.wire)) frame.now result
            (of_line self.new.log (⟦<ScriptedWire as Wire>⟧.recorded self.new.wire)) }
        ensures script { SendsByScript (fails_at (wire_at self.old).send_fails.items
            (sendings_of (wire_at self.old))) result }
        ensures sendings { sendings_of (wire_at self.new)
            ≡ one_more (sendings_of (wire_at self.old)) }
        ensures kept { (wire_at self.new).send_fails ≡ (wire_at self.old).send_fails }
    {
        self.wire.send(frame)
    }
}

/// What is left of a line in memory.
#[derive(Drop)]
pub enum LineTrace<W: Drop> {
    /// It had no socket.
    Shut(LineLog),
    /// It had this one.
    Served(LineSocket<W>),
}

impl<W: Drop> LineTrace<W> {
    /// The bytes that the line took.
    pub fn taken(&self) -> &[u8]
        ensures { result.now ≡ taken_in self.now }
    {
        match self {
            LineTrace::Shut(log) => log.taken(),
            LineTrace::Served(socket) => socket.log.taken(),
        }
    }

    /// The wire of the line's socket, if it had one.
    pub fn wire(&self) -> Option<&W>
        ensures { option_copied result ≡ wire_in self.now }
    {
        match self {
            LineTrace::Shut(_) => None,
            LineTrace::Served(socket) => Some(&socket.wire),
        }
    }
}
