//! Real lines to devices: links and a door over the system's sockets, and wires over WebSockets. Each
//! counts its faults and records nothing.
#![tactic(auto)]

mod faults;
mod stream;
mod tcp_door;
mod tcp_link;
mod tcp_socket;
mod ws_wire;

pub use tcp_door::TcpDoor;
pub use tcp_link::{TcpLink, TcpTrace};
pub use tcp_socket::TcpSocket;
pub use ws_wire::WsWire;
