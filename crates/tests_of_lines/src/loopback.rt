//! A link, a door and a wire over the system's sockets.

use crate::words::{write_gave, write_met, write_opened, write_read, write_received, write_sent};
use sg_lines::{Line, Link};
use sg_outside::Bytes;
use sg_sockets::{TcpDoor, TcpLink};
use std::io;
use std::io::{Read, Write};
use std::net::{Shutdown, TcpListener, TcpStream};
use std::test::Fail;

/// A message with the word `Hello`, and a close with the number 1000, as a client sends them.
const HELLO: &[u8] = b"\x82\x85\x37\xfa\x21\x3d\x7f\x9f\x4d\x51\x58";

const CLOSE: &[u8] = b"\x88\x82\0\0\0\0\x03\xe8";

/// A client's end of a connection, and a link over the other.
fn connected(rt: &HostRuntime) -> io::Result<(TcpStream, TcpLink)> {
    let listener = TcpListener::bind(rt, "127.0.0.1:0")?;
    let near = TcpStream::connect(rt, listener.local_addr()?)?;
    let (far, _) = listener.accept()?;
    Ok((near, TcpLink::new(rt.alloc(), far)?))
}

/// All bytes that the client has not read yet.
fn rest(rt: &HostRuntime, near: &mut TcpStream) -> io::Result<Vec<u8>> {
    let mut bytes = Vec::new(rt.alloc());
    near.read_to_end(&mut bytes)?;
    Ok(bytes)
}

/// Reads before, in the middle and behind the end of what the client wrote, and writes `xy`.
fn use_link(near: &mut TcpStream, link: &mut TcpLink, text: &mut Bytes) -> io::Result<()> {
    write_read(link, text)?;
    near.write_all(b"abc")?;
    near.shutdown(Shutdown::Write)?;
    for _ in 0..3 {
        write_read(link, text)?;
    }
    write_gave(link, b"xy", text)?;
    Ok(())
}

/// What the client reads, where the link is then shut.
fn over_a_connection(rt: &HostRuntime, text: &mut Bytes) -> io::Result<Vec<u8>> {
    let (mut near, mut link) = connected(rt)?;
    use_link(&mut near, &mut link, text)?;
    link.shut();
    rest(rt, &mut near)
}

/// Receives twice, and sends `Hello` between.
fn use_socket(link: TcpLink, text: &mut Bytes) -> io::Result<()> {
    if let Ok(socket) = link.socket() {
        let mut socket = socket;
        write_received(&mut socket, text)?;
        write_sent(&mut socket, b"Hello", text)?;
        write_received(&mut socket, text)?;
        TcpLink::shut_socket(socket);
    }
    Ok(())
}

/// What the client reads, which writes a message and a close.
fn over_a_websocket(rt: &HostRuntime, text: &mut Bytes) -> io::Result<Vec<u8>> {
    let (mut near, link) = connected(rt)?;
    near.write_all(HELLO)?;
    near.write_all(CLOSE)?;
    near.shutdown(Shutdown::Write)?;
    use_socket(link, text)?;
    rest(rt, &mut near)
}

/// Opens two doors at one port, calls once at the first, and accepts there twice.
fn at_a_door(rt: &HostRuntime, text: &mut Bytes) -> io::Result<Option<u16>> {
    let mut door = TcpDoor::new(rt, rt.alloc());
    write_opened(&mut door, "127.0.0.1:0", 1, text)?;
    let port = door.port().unwrap_or(0);
    let address = format!(in rt.alloc(); "127.0.0.1:{port}")?;
    let mut other = TcpDoor::new(rt, rt.alloc());
    write_opened(&mut other, address.as_str(), 1, text)?;
    let near = TcpStream::connect(rt, address.as_str())?;
    near.shutdown(Shutdown::Write)?;
    for _ in 0..2 {
        write_met(&mut door, text)?;
    }
    Ok(door.port())
}

#[test]
fn lines_and_doors_of_the_system(rt: HostRuntime) -> Result<(), Fail> {
    let mut text = Bytes::new(rt.alloc());
    let read = over_a_connection(&rt, &mut text)?;
    assert!(rt; read.as_slice() == b"xy".as_slice());
    assert!(rt; text.as_slice() == b"idle ab c end done ".as_slice());
    text.truncate(0);
    let read = over_a_websocket(&rt, &mut text)?;
    assert!(rt; read.as_slice() == b"\x82\x05Hello\x88\x02\x03\xe8".as_slice());
    assert!(rt; text.as_slice() == b"Hello done end ".as_slice());
    text.truncate(0);
    let port = at_a_door(&rt, &mut text)?;
    assert!(rt; port == None);
    assert!(rt; text.as_slice() == b"done failed caller end ".as_slice());
    Ok(())
}
