//! A wire over a WebSocket.

ghost use Rattle.std.specs.Prelude.{◌≡◌, ◌≤◌, ℕ, None, IfOk, IsOk};
ghost use Rattle.sg_outside.specs.Sink.{Counts};
ghost use Rattle.sg_outside.specs.Wire.{CountsGot};

use crate::faults::{gave_fault, got_fault};
use crate::stream::Stream;
use bytes::Bytes as Payload;
use sg_lines::Link;
use sg_outside::{Bytes, Gave, Got, Memory, Wire};
use std::alloc::Global;
use std::io::ErrorKind;
use tungstenite::{Error, Message, NoMask, Role, WebSocket, WebSocketConfig};

/// The bytes that one read asks for.
const READ_SIZE: usize = 16_384;

/// The bytes that a message, and a frame of it, may have.
const MOST: usize = 2_097_152;

/// After so many idle reads in a row the device is sent a ping: half a minute, where each lasts 50 ms.
const PING_AFTER: u64 = 600;

/// After so many the device is taken for gone.
const GONE_AFTER: u64 = 1_800;

/// The server's end of a WebSocket over a link whose upgrade is done.
///
/// A binary message is a frame, and a close the end, once the reply to it was sent. A ping, whose reply is
/// sent by the next call, a pong, and a read at which nothing is there are idle moments. Whatever else breaks
/// the protocol is a fault.
#[derive(Drop)]
pub struct WsWire<L: Link> {
    socket: WebSocket<Stream<L>, NoMask>,
    alloc: Global,
    faults: u64,
    /// Whether a message came for which there was no memory.
    lost: bool,
}

/// Why nothing was received or sent.
#[derive(Clone, Copy, PartialEq, Eq)]
enum Halt {
    Waits,
    Closed,
    Memory,
    Fault,
}

fn halt_of(error: &Error) -> Halt {
    match error {
        Error::Io(error) => {
            if error.kind() == ErrorKind::WouldBlock {
                Halt::Waits
            } else {
                Halt::Fault
            }
        }
        Error::ConnectionClosed => Halt::Closed,
        Error::OutOfMemory => Halt::Memory,
        _ => Halt::Fault,
    }
}

/// What receiving gives where it was halted so.
fn got_of(halt: Halt, faults: &mut u64) -> Got
    ensures { CountsGot faults.old result faults.new }
{
    match halt {
        Halt::Waits => Got::Idle,
        Halt::Closed => Got::End,
        Halt::Memory => Got::Memory,
        Halt::Fault => got_fault(faults),
    }
}

/// What sending gives where it was halted so.
fn gave_of(halt: Halt, faults: &mut u64) -> Gave
    ensures { Counts faults.old result faults.new }
{
    match halt {
        Halt::Memory => Gave::Memory,
        Halt::Waits | Halt::Closed | Halt::Fault => gave_fault(faults),
    }
}

fn config() -> WebSocketConfig {
    WebSocketConfig::default()
        .read_buffer_size(READ_SIZE)
        .max_message_size(Some(MOST))
        .max_frame_size(Some(MOST))
}

impl<L: Link> WsWire<L> {
    /// A wire over this link. Allocates nothing.
    pub fn new(alloc: Global, link: L) -> Result<WsWire<L>, Memory>
        ensures fine { IsOk result }
        ensures faults { IfOk result (λ wire. ⟦<WsWire<L> as Wire>⟧.faults wire ≡ 0) }
    {
        let stream = Stream::new(link);
        Ok(WsWire {
            socket: WebSocket::from_raw_socket(alloc, stream, NoMask, Role::Server, Some(config())),
            alloc,
            faults: 0,
            lost: false,
        })
    }

    /// The link.
    pub fn link(&self) -> &L {
        &self.socket.get_ref().link
    }

    /// Sends a close, if none was sent, and gives the link.
    pub fn into_link(self) -> L {
        let mut socket = self.socket;
        drop(socket.close(None));
        socket.into_inner().link
    }

    fn frame(&mut self, payload: &[u8]) -> Got
        ensures { CountsGot self.old.faults result self.new.faults }
    {
        match Bytes::from_slice(self.alloc, payload) {
            Ok(frame) => Got::Frame(frame),
            Err(_) => {
                self.lost = true;
                Got::Memory
            }
        }
    }

    fn end(&mut self) -> Got
        ensures { CountsGot self.old.faults result self.new.faults }
    {
        drop(self.socket.flush());
        Got::End
    }

    fn take(&mut self, message: Message) -> Got
        ensures { CountsGot self.old.faults result self.new.faults }
    {
        match message {
            Message::Binary(payload) => self.frame(payload.as_slice()),
            Message::Text(_) => Got::Text,
            Message::Ping(_) | Message::Pong(_) => Got::Idle,
            Message::Close(_) => self.end(),
        }
    }

    /// Sends a message; what halts it, if anything does.
    fn put(&mut self, message: Message) -> Option<Halt>
        ensures { self.new.faults ≡ self.old.faults }
    {
        match self.socket.send(message) {
            Ok(()) => None,
            Err(error) => Some(halt_of(&error)),
        }
    }

    fn ping(&mut self) -> Got
        ensures { CountsGot self.old.faults result self.new.faults }
    {
        match self.put(Message::Ping(Payload::new())) {
            None => Got::Idle,
            Some(halt) => got_of(halt, &mut self.faults),
        }
    }

    /// What receiving gives where nothing is there yet.
    fn wait(&mut self) -> Got
        ensures { CountsGot self.old.faults result self.new.faults }
    {
        let idles = self.socket.get_ref().idles;
        if idles >= GONE_AFTER {
            return got_fault(&mut self.faults);
        }
        if idles == PING_AFTER {
            return self.ping();
        }
        Got::Idle
    }

    fn halt(&mut self, halt: Halt) -> Got
        ensures { CountsGot self.old.faults result self.new.faults }
    {
        if halt == Halt::Waits {
            return self.wait();
        }
        got_of(halt, &mut self.faults)
    }
}

impl<L: Link> Wire for WsWire<L> {
    ghost faults = { λ w. w.faults };

    ghost recorded = { λ _. None };

    fn recv(&mut self) -> Got {
        if self.lost {
            return got_fault(&mut self.faults);
        }
        match self.socket.read() {
            Ok(message) => self.take(message),
            Err(error) => self.halt(halt_of(&error)),
        }
    }

    fn send(&mut self, frame: &[u8]) -> Gave {
        match Message::binary(self.alloc, frame) {
            Ok(message) => match self.put(message) {
                None => Gave::Done,
                Some(halt) => gave_of(halt, &mut self.faults),
            },
            Err(_) => Gave::Memory,
        }
    }
}
