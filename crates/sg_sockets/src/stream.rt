//! A link as a stream of bytes.

ghost use Rattle.std.specs.Prelude.{◌≡◌};

use sg_lines::{Link, Took};
use sg_outside::Gave;
use std::io;
use std::io::{ErrorKind, Read, Write};

/// A link as a stream: where nothing is there yet, reading would block. Behind a fault nothing is read or
/// written any more.
#[derive(Drop)]
pub(crate) struct Stream<L: Link> {
    pub(crate) link: L,
    /// How often in a row nothing was there.
    pub(crate) idles: u64,
    broken: bool,
}

impl<L: Link> Stream<L> {
    pub(crate) fn new(link: L) -> Stream<L> {
        Stream {
            link,
            idles: 0,
            broken: false,
        }
    }
}

impl<L: Link> Read for Stream<L> {
    fn read(&mut self, buf: &mut [u8]) -> io::Result<usize> {
        if buf.is_empty() {
            return Ok(0);
        }
        if self.broken {
            return Err(io::Error::from(ErrorKind::Other));
        }
        match self.link.read(buf) {
            Took::Read(count) => {
                self.idles = 0;
                Ok(count)
            }
            Took::End => Ok(0),
            Took::Idle => {
                self.idles = self.idles.saturating_add(1);
                Err(io::Error::from(ErrorKind::WouldBlock))
            }
            Took::Failed => {
                self.broken = true;
                Err(io::Error::from(ErrorKind::Other))
            }
        }
    }
}

impl<L: Link> Write for Stream<L> {
    fn write(&mut self, buf: &[u8]) -> io::Result<usize> {
        if self.broken {
            return Err(io::Error::from(ErrorKind::Other));
        }
        match self.link.write(buf) {
            Gave::Done => Ok(buf.len()),
            Gave::Failed | Gave::Memory => {
                self.broken = true;
                Err(io::Error::from(ErrorKind::Other))
            }
        }
    }

    fn flush(&mut self) -> io::Result<()> {
        Ok(())
    }
}
