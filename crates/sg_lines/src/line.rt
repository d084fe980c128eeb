//! A line, which becomes the socket of a device.

ghost use Rattle.std.specs.Prelude.{◌≡◌, Option, IfOk, IfErr};
ghost use Rattle.sg_lines.specs.Line.{TraceRecord, BeginsIfRecorded, shut_trace, socket_trace};

use crate::link::Link;
use sg_outside::Wire;

/// A link that becomes a socket, and that leaves a trace once it or its socket is shut.
pub trait Line: Link {
    type Socket: Wire + Send;

    type Trace: Send + Drop;

    /// What the line and its socket did, where they recorded it.
    ghost traced: { Self.Trace → Option TraceRecord };

    /// Makes the socket; at an error memory ran out, and the line is shut.
    fn socket(self) -> Result<Self::Socket, Self::Trace>
    where
        Self: Sized,
        ensures begun { IfOk result (λ socket. BeginsIfRecorded (Self.recorded self)
            (Self.Socket.recorded socket)) }
        ensures shut { IfErr result (λ trace. traced trace ≡ shut_trace (Self.recorded self)) };

    fn shut(self) -> Self::Trace
    where
        Self: Sized,
        ensures { traced result ≡ shut_trace (Self.recorded self) };

    fn shut_socket(socket: Self::Socket) -> Self::Trace
        ensures { traced result ≡ socket_trace (Self.Socket.recorded socket) };
}
