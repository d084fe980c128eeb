//! A session that takes all its looks.

use crate::ends::{end_at, ground};
use blip_frame::{Crc, Frame, Kind, write_frame};
use session_run::End;
use sg_outside::{Bytes, Gave, Got, Wire};
use std::alloc::{AllocError, Global};
use std::test::Fail;

/// A device that asks for the changes from the start again and again; how often, and how many frames it is sent.
#[derive(Drop)]
struct AskingWire {
    alloc: Global,
    checksum: Crc,
    asked: u64,
    sent: u64,
}

impl AskingWire {
    fn ask(&mut self) -> Result<Bytes, AllocError> {
        let number = self.asked.saturating_add(1);
        let request = Frame {
            number,
            kind: Kind::Msg,
            urgent: false,
            no_reply: false,
            more: false,
            payload: b"\x1bProfile\0subChanges\0since\x000\0",
        };
        let mut bytes = Bytes::new(self.alloc);
        write_frame(&mut self.checksum, &request, &mut bytes)?;
        self.asked = number;
        Ok(bytes)
    }
}

impl Wire for AskingWire {
    ghost use Rattle.std.specs.Prelude.{None};

    ghost faults = { λ w. 0 };

    ghost recorded = { λ w. None };

    fn recv(&mut self) -> Got {
        match self.ask() {
            Ok(frame) => Got::Frame(frame),
            Err(_) => Got::Memory,
        }
    }

    fn send(&mut self, _frame: &[u8]) -> Gave {
        self.sent = self.sent.saturating_add(1);
        Gave::Done
    }
}

/// How the session ends, after how many looks, and how often was asked.
fn served(alloc: Global) -> Result<(End, usize, u64), Fail> {
    let mut wire = AskingWire {
        alloc,
        checksum: Crc::new(),
        asked: 0,
        sent: 0,
    };
    let (end, looks) = end_at(alloc, ground(alloc)?, &mut wire)?;
    Ok((end, looks, wire.asked))
}

#[test]
fn the_request_behind_the_last_look_ends_a_session(rt: HostRuntime) -> Result<(), Fail> {
    assert!(rt; served(rt.alloc())? == (End::LooksFull, 1_000_000, 1_000_001));
    Ok(())
}
