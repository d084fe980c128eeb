//! A large message that is sent beside eight others and once more, or many small ones, whose frames are joined on the other side;
//! and hostile messages that are taken.

use blip_frame::{Crc, Frame, FrameFault, Kind, Payload, Props, read_frame, write_varint};
use blip_mux::{BadAck, Inbox, Next, Outbox, TakeFault, Taken};
use sg_outside::{Bytes, Memory};
use std::alloc::{AllocError, Global};

/// How many messages go beside the large one, and the bytes of each of their bodies.
const BESIDE: usize = 8;

const SMALL: usize = 1 << 20;

/// The two ends of a direction, and a buffer for the frame that goes.
#[derive(Drop)]
struct Direction {
    outbox: Outbox,
    inbox: Inbox,
    sent: Crc,
    received: Crc,
    frame: Bytes,
}

/// What went, and the largest payload that came.
#[derive(Drop)]
pub struct Came {
    pub frames: u64,
    pub messages: u64,
    largest: Option<Payload>,
}

/// Why frames do not go on.
#[derive(Debug, Drop)]
pub enum Stop {
    Memory,
    Frame(FrameFault),
    Message(TakeFault),
    Acknowledgement(BadAck),
}

impl From<AllocError> for Stop {
    fn from(_refused: AllocError) -> Stop {
        Stop::Memory
    }
}

impl Direction {
    fn new(alloc: Global) -> Direction {
        Direction {
            outbox: Outbox::new(alloc),
            inbox: Inbox::new(alloc),
            sent: Crc::new(),
            received: Crc::new(),
            frame: Bytes::new(alloc),
        }
    }

    fn put(&mut self, payload: Payload) -> Result<(), Memory> {
        if self.outbox.requests() < u64::MAX {
            self.outbox.put_request(payload, true)?;
        }
        Ok(())
    }

    /// Puts so many messages of so many zeros.
    fn put_zeros(&mut self, alloc: Global, size: usize, count: usize) -> Result<(), Memory> {
        for _ in 0..count {
            self.put(zeros(alloc, size)?)?;
        }
        Ok(())
    }

    /// Sends the next frame, and answers what it gave where there was one.
    fn carry(&mut self) -> Result<Option<Taken>, Stop> {
        self.frame.truncate(0);
        if self.outbox.next_frame(&mut self.sent, &mut self.frame)? == Next::Idle {
            return Ok(None);
        }
        let frame = match read_frame(&mut self.received, self.frame.as_slice()) {
            Ok(frame) => frame,
            Err(fault) => return Err(Stop::Frame(fault)),
        };
        match self.inbox.take(&frame) {
            Ok(taken) => Ok(Some(taken)),
            Err(fault) => Err(Stop::Message(fault)),
        }
    }

    /// Sends all, and acknowledges what is owed at once.
    fn carry_all(&mut self) -> Result<Came, Stop> {
        let mut came = Came::new();
        for _ in 0..u32::MAX {
            let Some(taken) = self.carry()? else {
                return Ok(came);
            };
            came.frames = came.frames.saturating_add(1);
            match taken {
                Taken::Whole(message) => came.note(message.payload),
                Taken::Owed {
                    kind,
                    number,
                    bytes,
                } => self.acknowledge(kind, number, bytes)?,
                Taken::Nothing | Taken::Ack { .. } => {}
            }
        }
        Ok(came)
    }

    /// Puts a message, where there is one, and so many others of so many zeros, and sends all.
    fn carry_with(
        &mut self,
        alloc: Global,
        first: Option<Payload>,
        size: usize,
        count: usize,
    ) -> Result<Came, Stop> {
        if let Some(payload) = first {
            self.put(payload)?;
        }
        self.put_zeros(alloc, size, count)?;
        self.carry_all()
    }

    fn acknowledge(&mut self, kind: Kind, number: u64, bytes: u64) -> Result<(), Stop> {
        if kind.has_checksum() {
            return Ok(());
        }
        match self.outbox.acked(kind, number, bytes) {
            Ok(()) => Ok(()),
            Err(bad) => Err(Stop::Acknowledgement(bad)),
        }
    }
}

impl Came {
    fn new() -> Came {
        Came {
            frames: 0,
            messages: 0,
            largest: None,
        }
    }

    fn note(&mut self, payload: Payload) {
        self.messages = self.messages.saturating_add(1);
        let largest = self
            .largest
            .as_ref()
            .map_or(0, |payload| payload.body.len());
        if payload.body.len() > largest {
            self.largest = Some(payload);
        }
    }
}

fn zeros(alloc: Global, size: usize) -> Result<Payload, AllocError> {
    Ok(Payload {
        props: Props::new(alloc),
        body: Bytes::from_vec(vec![in alloc; 0; size]?),
    })
}

/// Sends a message, where there is one, beside so many others of so many zeros.
fn carried(alloc: Global, first: Option<Payload>, size: usize, count: usize) -> Result<Came, Stop> {
    Direction::new(alloc).carry_with(alloc, first, size, count)
}

/// Sends one message of so many bytes beside the others, and then once more, alone.
fn large(alloc: Global, size: usize) -> Result<Came, Stop> {
    let payload = zeros(alloc, size)?;
    let came = carried(alloc, Some(payload), SMALL, BESIDE)?;
    again(alloc, came)
}

/// Sends the largest message that came once more, alone.
fn again(alloc: Global, first: Came) -> Result<Came, Stop> {
    let mut came = carried(alloc, first.largest, 0, 0)?;
    came.frames = came.frames.saturating_add(first.frames);
    came.messages = came.messages.saturating_add(first.messages);
    Ok(came)
}

/// Sends so many messages of a hundred bytes, which all wait before the first goes.
fn small(alloc: Global, count: usize) -> Result<Came, Stop> {
    carried(alloc, None, 99, count)
}

/// A message whose property block is this text so many times.
fn repeated(alloc: Global, text: &[u8], times: usize) -> Result<Bytes, AllocError> {
    let mut bytes = Bytes::new(alloc);
    let length = (text.len() as u64).saturating_mul(times as u64);
    write_varint(length, &mut bytes)?;
    for _ in 0..times {
        bytes.extend_from_slice(text)?;
    }
    Ok(bytes)
}

/// Takes a frame with this payload.
fn hostile(alloc: Global, kind: Kind, payload: &[u8]) -> Result<Came, Stop> {
    let frame = Frame {
        number: 1,
        kind,
        urgent: false,
        no_reply: true,
        more: false,
        payload,
    };
    match Inbox::new(alloc).take(&frame) {
        Ok(_) => Ok(Came::new()),
        Err(fault) => Err(Stop::Message(fault)),
    }
}

/// Does the job of this name.
pub fn job(alloc: Global, name: &str, size: usize) -> Result<Came, Stop> {
    match name {
        "large" => large(alloc, size),
        "small" => small(alloc, size),
        "nuls" => hostile(alloc, Kind::Msg, repeated(alloc, b"\0", size)?.as_slice()),
        "twice" => hostile(
            alloc,
            Kind::Msg,
            repeated(alloc, b"key\0value\0", size)?.as_slice(),
        ),
        "nothing" => hostile(alloc, Kind::AckMsg, b""),
        _ => Ok(Came::new()),
    }
}
