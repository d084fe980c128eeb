//! A line in memory that never fails.

ghost use Rattle.std.specs.Prelude.{◌≡◌, ◌≤◌, Some, length, map, IfOk, IfErr, IsOk};
ghost use Rattle.sg_outside.specs.MemWire.{got_of};
ghost use Rattle.sg_outside.specs.Sink.{Counts};
ghost use Rattle.sg_outside.specs.Wire.{no_line};
ghost use Rattle.sg_lines.specs.Link.{CountsTook, Fits, read_of, ReadsIfRecorded, WritesIfRecorded};
ghost use Rattle.sg_lines.specs.Inputs.{next_read, after_read};
ghost use Rattle.sg_lines.specs.Line.{BeginsIfRecorded, new_socket, shut_trace};
ghost use Rattle.sg_lines.specs.MemLink.{coming_by, frames_by, taken_by, renewed_link};

use crate::inputs::{Inputs, LineInput};
use crate::line::Line;
use crate::line_log::LineLog;
use crate::line_socket::{LineSocket, LineTrace};
use crate::link::{Link, Took};
use sg_outside::{Gave, Input, MemWire, Wire};
use std::alloc::Global;

/// A line in memory, which never fails and records what was read and taken: its inputs come one after
/// another, and then its end. Its socket is a wire in memory with inputs of its own, and is never refused.
#[derive(Drop)]
pub struct MemLink {
    inputs: Inputs,
    frames: Vec<Input>,
    log: LineLog,
    alloc: Global,
}

impl MemLink {
    /// A line with these inputs, of which none has come yet, whose socket has those frames. Allocates
    /// nothing.
    pub fn new(alloc: Global, inputs: Vec<LineInput>, frames: Vec<Input>) -> MemLink
        ensures coming { coming_by result ≡ inputs.items }
        ensures frames { frames_by result ≡ map got_of frames.items }
        ensures recorded { ⟦<MemLink as Link>⟧.recorded result ≡ Some no_line }
    {
        MemLink {
            inputs: Inputs::new(inputs),
            frames,
            log: LineLog::new(alloc),
            alloc,
        }
    }

    /// The bytes that it took.
    pub fn taken(&self) -> &[u8]
        ensures { result.now ≡ taken_by self.now }
    {
        self.log.taken()
    }

    /// The same line, which has recorded nothing yet.
    pub(crate) fn renewed(self) -> MemLink
        ensures { result ≡ renewed_link self }
    {
        let alloc = self.alloc;
        MemLink {
            inputs: self.inputs,
            frames: self.frames,
            log: LineLog::new(alloc),
            alloc,
        }
    }
}

impl Link for MemLink {
    ghost faults = { λ _. 0 };

    ghost recorded = { λ l. Some l.log };

    fn read(&mut self, into: &mut [u8]) -> Took
        requires { 1 ≤ length into.old }
        ensures counted { CountsTook 0 result 0 }
        ensures fits { Fits result (length into.old) }
        ensures recorded { ReadsIfRecorded (Some self.old.log) (read_of result into.new)
            (Some self.new.log) }
        ensures read { read_of result into.new ≡ next_read (length into.old) (coming_by self.old) }
        ensures later { coming_by self.new ≡ after_read (length into.old) (coming_by self.old) }
        ensures frames { frames_by self.new ≡ frames_by self.old }
    {
        self.inputs.read(into, &mut self.log)
    }

    fn write(&mut self, bytes: &[u8]) -> Gave
        ensures counted { Counts 0 result 0 }
        ensures recorded { WritesIfRecorded (Some self.old.log) bytes.now result
            (Some self.new.log) }
        ensures coming { coming_by self.new ≡ coming_by self.old }
        ensures frames { frames_by self.new ≡ frames_by self.old }
    {
        self.log.write(bytes)
    }
}

impl Line for MemLink {
    type Socket = LineSocket<MemWire>;

    type Trace = LineTrace<MemWire>;

    ghost use Rattle.sg_lines.specs.LineSocket.{trace_of};

    ghost traced = { λ t. trace_of ⟦<LineSocket<MemWire> as Wire>⟧.recorded t };

    fn socket(self) -> Result<LineSocket<MemWire>, LineTrace<MemWire>>
        ensures begun { IfOk result (λ socket. BeginsIfRecorded (Some self.log)
            (⟦<LineSocket<MemWire> as Wire>⟧.recorded socket)) }
        ensures shut { IfErr result (λ trace.
            trace_of ⟦<LineSocket<MemWire> as Wire>⟧.recorded trace ≡ shut_trace (Some self.log)) }
        ensures fine { IsOk result }
        ensures coming { IfOk result (λ socket. ⟦<LineSocket<MemWire> as Wire>⟧.recorded socket
            ≡ Some (new_socket self.log (frames_by self))) }
    {
        let wire = MemWire::new(self.alloc, self.frames);
        Ok(LineSocket {
            wire,
            log: self.log,
        })
    }

    fn shut(self) -> LineTrace<MemWire> {
        LineTrace::Shut(self.log)
    }

    fn shut_socket(socket: LineSocket<MemWire>) -> LineTrace<MemWire> {
        LineTrace::Served(socket)
    }
}
