//! The WebSocket of a connection.

ghost use Rattle.std.specs.Prelude.{◌≡◌, None};

use crate::tcp_link::TcpLink;
use crate::ws_wire::WsWire;
use sg_outside::{Gave, Got, Wire};

/// The socket of a connection: a WebSocket over it.
#[derive(Drop)]
pub struct TcpSocket {
    pub(crate) wire: WsWire<TcpLink>,
}

impl Wire for TcpSocket {
    ghost faults = { λ s. ⟦<WsWire<TcpLink> as Wire>⟧.faults s.wire };

    ghost recorded = { λ _. None };

    fn recv(&mut self) -> Got {
        self.wire.recv()
    }

    fn send(&mut self, frame: &[u8]) -> Gave {
        self.wire.send(frame)
    }
}
