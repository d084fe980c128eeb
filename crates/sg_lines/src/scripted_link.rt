//! A line in memory with a script of the calls that fail.

ghost use Rattle.std.specs.Prelude.{◌≡◌, ◌≤◌, Some, length, IfOk, IfErr};
ghost use Rattle.sg_outside.specs.Sink.{Counts};
ghost use Rattle.sg_outside.specs.Wire.{no_line};
ghost use Rattle.sg_outside.specs.Scripts.{fault_at, one_more, GivesByScript};
ghost use Rattle.sg_lines.specs.Link.{CountsTook, Fits, read_of, ReadsIfRecorded, WritesIfRecorded};
ghost use Rattle.sg_lines.specs.Line.{BeginsIfRecorded, new_socket, shut_trace};
ghost use Rattle.sg_lines.specs.LineSocket.{wire_at};
ghost use Rattle.sg_lines.specs.Scripts.{ReadsByScript, ReadsComing, SocketByScript, KeepsScripts, FailsAtFirst, calls_of, scripted_coming_by, scripted_frames_by, send_fails_by, renewed_scripted};

use crate::inputs::{Inputs, LineInput};
use crate::line::Line;
use crate::line_log::LineLog;
use crate::line_socket::{LineSocket, LineTrace};
use crate::link::{Link, Took};
use crate::scripts::next_fault;
use sg_outside::{Gave, Got, ScriptedWire, Wire};
use std::alloc::Global;

/// A line in memory, which records what was read and taken: its inputs come one after another, and then
/// its end. Of its calls, `read`, `write` and `socket` alike, the k-th fails where the script's k-th item
/// is some number: a write after that many of its bytes were taken, and a socket is refused. A call past
/// the script's end does not fail.
#[derive(Drop)]
pub struct ScriptedLink {
    pub script: Vec<Option<usize>>,
    inputs: Inputs,
    frames: Vec<Got>,
    send_fails: Vec<bool>,
    log: LineLog,
    alloc: Global,
    calls: usize,
    faults: u64,
}

impl ScriptedLink {
    /// A line with this script and these inputs, of which none has come yet; its socket has this script
    /// of what comes and of the sendings that fail. Allocates nothing.
    pub fn new(
        alloc: Global,
        script: Vec<Option<usize>>,
        inputs: Vec<LineInput>,
        frames: Vec<Got>,
        send_fails: Vec<bool>,
    ) -> ScriptedLink
        ensures script { result.script.items ≡ script.items }
        ensures coming { scripted_coming_by result ≡ inputs.items }
        ensures frames { scripted_frames_by result ≡ frames.items }
        ensures send_fails { send_fails_by result ≡ send_fails.items }
        ensures calls { calls_of result ≡ 0 }
        ensures faults { ⟦<ScriptedLink as Link>⟧.faults result ≡ 0 }
        ensures recorded { ⟦<ScriptedLink as Link>⟧.recorded result ≡ Some no_line }
    {
        ScriptedLink {
            script,
            inputs: Inputs::new(inputs),
            frames,
            send_fails,
            log: LineLog::new(alloc),
            alloc,
            calls: 0,
            faults: 0,
        }
    }

    /// The faults so far; the count stands still at its type's end.
    pub fn faults(&self) -> u64
        ensures { result ≡ ⟦<ScriptedLink as Link>⟧.faults self.now }
    {
        self.faults
    }

    /// The same line, which has recorded nothing yet.
    pub(crate) fn renewed(self) -> ScriptedLink
        ensures { result ≡ renewed_scripted self }
    {
        let alloc = self.alloc;
        ScriptedLink {
            log: LineLog::new(alloc),
            script: self.script,
            inputs: self.inputs,
            frames: self.frames,
            send_fails: self.send_fails,
            alloc,
            calls: self.calls,
            faults: self.faults,
        }
    }
}

impl Link for ScriptedLink {
    ghost faults = { λ l. l.faults };

    ghost recorded = { λ l. Some l.log };

    fn read(&mut self, into: &mut [u8]) -> Took
        requires { 1 ≤ length into.old }
        ensures counted { CountsTook self.old.faults result self.new.faults }
        ensures fits { Fits result (length into.old) }
        ensures recorded { ReadsIfRecorded (Some self.old.log) (read_of result into.new)
            (Some self.new.log) }
        ensures script { ReadsByScript (fault_at self.old.script.items (calls_of self.old))
            result }
        ensures coming { ReadsComing (fault_at self.old.script.items (calls_of self.old))
            (length into.old) (scripted_coming_by self.old) (read_of result into.new)
            (scripted_coming_by self.new) }
        ensures kept { KeepsScripts self.old self.new }
        ensures calls { calls_of self.new ≡ one_more (calls_of self.old) }
    {
        match next_fault(self.script.as_slice(), &mut self.calls) {
            Some(_) => {
                if self.faults == u64::MAX {
                    self.log.add_end();
                    return Took::End;
                }
                self.faults += 1;
                self.log.add_failed();
                Took::Failed
            }
            None => self.inputs.read(into, &mut self.log),
        }
    }

    fn write(&mut self, bytes: &[u8]) -> Gave
        ensures counted { Counts self.old.faults result self.new.faults }
        ensures recorded { WritesIfRecorded (Some self.old.log) bytes.now result
            (Some self.new.log) }
        ensures script { GivesByScript (fault_at self.old.script.items (calls_of self.old))
            self.old.log.taken bytes.now result self.new.log.taken }
        ensures coming { scripted_coming_by self.new ≡ scripted_coming_by self.old }
        ensures kept { KeepsScripts self.old self.new }
        ensures calls { calls_of self.new ≡ one_more (calls_of self.old) }
    {
        match next_fault(self.script.as_slice(), &mut self.calls) {
            Some(most) => self.log.write_part(bytes, most, &mut self.faults),
            None => self.log.write(bytes),
        }
    }
}

impl Line for ScriptedLink {
    type Socket = LineSocket<ScriptedWire>;

    type Trace = LineTrace<ScriptedWire>;

    ghost use Rattle.sg_lines.specs.LineSocket.{trace_of};

    ghost traced = { λ t. trace_of ⟦<LineSocket<ScriptedWire> as Wire>⟧.recorded t };

    fn socket(self) -> Result<LineSocket<ScriptedWire>, LineTrace<ScriptedWire>>
        ensures begun { IfOk result (λ socket. BeginsIfRecorded (Some self.log)
            (⟦<LineSocket<ScriptedWire> as Wire>⟧.recorded socket)) }
        ensures shut { IfErr result (λ trace.
            trace_of ⟦<LineSocket<ScriptedWire> as Wire>⟧.recorded trace
            ≡ shut_trace (Some self.log)) }
        ensures script { SocketByScript (fault_at self.script.items (calls_of self)) result }
        ensures coming { IfOk result (λ socket.
            ⟦<LineSocket<ScriptedWire> as Wire>⟧.recorded socket
            ≡ Some (new_socket self.log (scripted_frames_by self))) }
        ensures fails { IfOk result (λ socket.
            FailsAtFirst (send_fails_by self) (wire_at socket)) }
    {
        let mut calls = self.calls;
        match next_fault(self.script.as_slice(), &mut calls) {
            Some(_) => Err(LineTrace::Shut(self.log)),
            None => {
                let wire = ScriptedWire::new(self.alloc, self.frames, self.send_fails);
                Ok(LineSocket {
                    wire,
                    log: self.log,
                })
            }
        }
    }

    fn shut(self) -> LineTrace<ScriptedWire> {
        LineTrace::Shut(self.log)
    }

    fn shut_socket(socket: LineSocket<ScriptedWire>) -> LineTrace<ScriptedWire> {
        LineTrace::Served(socket)
    }
}
