//! A line over a connection of the system.

ghost use Rattle.std.specs.Prelude.{◌≡◌, ◌≤◌, length, None, IfOk};
ghost use Rattle.sg_outside.specs.Sink.{Counts};
ghost use Rattle.sg_lines.specs.Link.{CountsTook, Fits};

use crate::faults::took_fault;
use crate::tcp_socket::TcpSocket;
use crate::ws_wire::WsWire;
use sg_lines::{Line, Link, Took};
use sg_outside::{Gave, write_whole};
use std::alloc::Global;
use std::io;
use std::io::{ErrorKind, Read};
use std::net::{Shutdown, TcpStream};
use std::time::Duration;

/// How long one read waits: no byte in this time is an idle moment.
const READ_MILLIS: u64 = 50;

/// How long one write waits: a peer that takes nothing in this time makes it a fault.
const WRITE_SECONDS: u64 = 30;

/// The reads that are made of a line that is shut: a second at most.
const LAST_READS: u32 = 20;

/// What is left of a connection: nothing that is recorded.
#[derive(Drop)]
pub struct TcpTrace {}

/// A connection as a link, whose socket is a WebSocket.
#[derive(Drop)]
pub struct TcpLink {
    stream: TcpStream,
    alloc: Global,
    faults: u64,
}

impl TcpLink {
    /// A link over this connection, whose reads wait 50 ms and whose writes 30 s at most, and which sends
    /// without delay. At an error one of the three can't be set.
    pub fn new(alloc: Global, stream: TcpStream) -> io::Result<TcpLink>
        ensures { IfOk result (λ link. ⟦<TcpLink as Link>⟧.faults link ≡ 0) }
    {
        stream.set_read_timeout(Some(Duration::from_millis(READ_MILLIS)))?;
        stream.set_write_timeout(Some(Duration::from_secs(WRITE_SECONDS)))?;
        stream.set_nodelay(true)?;
        Ok(TcpLink {
            stream,
            alloc,
            faults: 0,
        })
    }
}

impl Link for TcpLink {
    ghost faults = { λ l. l.faults };

    ghost recorded = { λ _. None };

    fn read(&mut self, into: &mut [u8]) -> Took {
        for _ in 0..u64::MAX {
            match self.stream.read(into) {
                Ok(0) => return Took::End,
                Ok(count) => return Took::Read(count),
                Err(error) => match error.kind() {
                    ErrorKind::WouldBlock => return Took::Idle,
                    ErrorKind::Interrupted => {}
                    _ => return took_fault(&mut self.faults),
                },
            }
        }
        Took::Idle
    }

    fn write(&mut self, bytes: &[u8]) -> Gave {
        write_whole(&mut self.stream, &mut self.faults, bytes)
    }
}

/// Reads until the end, for a second at most.
fn read_to_end(link: &mut TcpLink) {
    let mut bytes = [0u8; 65536];
    for _ in 0..LAST_READS {
        match link.read(&mut bytes) {
            Took::Read(_) | Took::Idle => {}
            Took::End | Took::Failed => return,
        }
    }
}

impl Line for TcpLink {
    type Socket = TcpSocket;

    type Trace = TcpTrace;

    ghost traced = { λ _. None };

    fn socket(self) -> Result<TcpSocket, TcpTrace> {
        let alloc = self.alloc;
        match WsWire::new(alloc, self) {
            Ok(wire) => Ok(TcpSocket { wire }),
            Err(_) => Err(TcpTrace {}),
        }
    }

    /// Ends what is written, and reads to the end, so that the peer sees all that was written before its
    /// connection is closed.
    fn shut(self) -> TcpTrace {
        let mut link = self;
        drop(link.stream.shutdown(Shutdown::Write));
        read_to_end(&mut link);
        TcpTrace {}
    }

    /// Sends a close, if none was sent, and shuts the line.
    fn shut_socket(socket: TcpSocket) -> TcpTrace {
        socket.wire.into_link().shut()
    }
}
