//! A door at an address of the system.

ghost use Rattle.std.specs.Prelude.{◌≡◌, ◌≤◌, None};
ghost use Rattle.sg_outside.specs.Sink.{Counts};
ghost use Rattle.sg_lines.specs.Door.{CountsMet};

use crate::faults::{gave_fault, met_fault};
use crate::tcp_link::{TcpLink, TcpTrace};
use sg_lines::{Door, Met};
use sg_outside::Gave;
use std::alloc::Global;
use std::net::{Net, TcpListener, TcpStream};
use std::thread;
use std::time::{Clock, Duration};

/// How long the door waits where the system refuses a caller.
const PAUSE_MILLIS: u64 = 100;

/// So many refusals in a row are a fault: a minute of pauses.
const MOST_REFUSALS: u32 = 600;

/// A door at an address, whose callers are connections. A caller whose connection can't be set up is passed
/// over; once no more are accepted, or at a fault, nobody waits at the door any more.
#[derive(Drop)]
pub struct TcpDoor<'r, R: Net<Listener = TcpListener, Stream = TcpStream> + Clock + Drop> {
    rt: &'r R,
    alloc: Global,
    listener: Option<TcpListener>,
    /// How many callers more are accepted.
    left: u64,
    faults: u64,
}

/// What accepting gave.
enum Call {
    Taken(TcpLink),
    /// A caller whose connection can't be set up.
    Spoiled,
    /// The system refused a caller.
    Refused,
}

fn next_call(alloc: Global, listener: &TcpListener) -> Call {
    match listener.accept() {
        Ok((stream, _)) => match TcpLink::new(alloc, stream) {
            Ok(link) => Call::Taken(link),
            Err(_) => Call::Spoiled,
        },
        Err(_) => Call::Refused,
    }
}

/// The next caller whose connection can be set up; none where too many were refused in a row.
fn wait_for_call<R: Clock>(rt: &R, alloc: Global, listener: &TcpListener) -> Option<TcpLink> {
    let mut refusals: u32 = 0;
    for _ in 0..u64::MAX {
        match next_call(alloc, listener) {
            Call::Taken(link) => return Some(link),
            Call::Spoiled => refusals = 0,
            Call::Refused => {
                if refusals >= MOST_REFUSALS {
                    return None;
                }
                refusals += 1;
                thread::sleep(rt, Duration::from_millis(PAUSE_MILLIS));
            }
        }
    }
    None
}

impl<'r, R: Net<Listener = TcpListener, Stream = TcpStream> + Clock + Drop> TcpDoor<'r, R> {
    /// A door that is not open yet.
    pub fn new(rt: &'r R, alloc: Global) -> TcpDoor<'r, R>
        ensures { ⟦<TcpDoor<'r, R> as Door>⟧.faults result ≡ 0 }
    {
        TcpDoor {
            rt,
            alloc,
            listener: None,
            left: 0,
            faults: 0,
        }
    }

    /// The port of the address at which it is open.
    pub fn port(&self) -> Option<u16> {
        match &self.listener {
            Some(listener) => match listener.local_addr() {
                Ok(address) => Some(address.port()),
                Err(_) => None,
            },
            None => None,
        }
    }
}

impl<'r, R: Net<Listener = TcpListener, Stream = TcpStream> + Clock + Drop> Door
    for TcpDoor<'r, R> {
    type Line = TcpLink;

    ghost faults = { λ d. d.faults };

    ghost recorded = { λ _. None };

    fn open(&mut self, bind: &str, accepts: u64) -> Gave {
        match TcpListener::bind(self.rt, bind) {
            Ok(listener) => {
                self.listener = Some(listener);
                self.left = accepts;
                Gave::Done
            }
            Err(_) => gave_fault(&mut self.faults),
        }
    }

    fn accept(&mut self) -> Met<TcpLink> {
        if self.left == 0 {
            self.listener = None;
            return Met::End;
        }
        let Some(listener) = &self.listener else {
            return Met::End;
        };
        match wait_for_call(self.rt, self.alloc, listener) {
            Some(link) => {
                self.left -= 1;
                Met::Caller(link)
            }
            None => {
                self.listener = None;
                self.left = 0;
                met_fault(&mut self.faults)
            }
        }
    }

    fn back(&mut self, _trace: TcpTrace) {}
}
