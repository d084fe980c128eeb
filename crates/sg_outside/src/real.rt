//! The real files and the real standard output: the trusted edge. They count their faults and record nothing
//! of content.

ghost use Rattle.std.specs.Prelude.{◌≡◌, [], None};
ghost use Rattle.sg_outside.specs.Files.{Appends, CountsLoad};

use crate::bytes::Bytes;
use crate::files::{Files, Loaded};
use crate::load_trail::LoadTrail;
use crate::sink::{Gave, Sink};
use crate::streams::{load_fault, read_whole, write_whole};
use std::rt::Files as RuntimeFiles;
use std::{fs, io};

/// The files of the system, by path.
#[derive(Drop)]
pub struct RealFiles<'r, R: RuntimeFiles + Drop> {
    rt: &'r R,
    faults: u64,
    trail: LoadTrail,
}

impl<'r, R: RuntimeFiles + Drop> RealFiles<'r, R> {
    pub fn new(rt: &'r R) -> RealFiles<'r, R>
        ensures faults { ⟦<RealFiles<'r, R> as Files>⟧.faults result ≡ 0 }
        ensures loads { ⟦<RealFiles<'r, R> as Files>⟧.loads result ≡ [] }
    {
        RealFiles {
            rt,
            faults: 0,
            trail: LoadTrail::new(),
        }
    }
}

fn load_path<R: RuntimeFiles>(rt: &R, path: &str, faults: &mut u64, into: &mut Bytes) -> Loaded
    ensures counted { CountsLoad faults.old result faults.new }
    ensures loaded { Appends result into.old into.new }
{
    match fs::open(rt, path) {
        Ok(file) => {
            let mut file = file;
            read_whole(&mut file, faults, into)
        }
        Err(error) => load_fault(&error, faults),
    }
}

impl<'r, R: RuntimeFiles + Drop> Files for RealFiles<'r, R> {
    ghost faults = { λ f. f.faults };

    ghost recorded = { λ _. None };

    ghost loads = { λ f. f.trail };

    fn load(&mut self, name: &str, into: &mut Bytes) -> Loaded {
        let answer = load_path(self.rt, name, &mut self.faults, into);
        self.trail.add(name, answer);
        answer
    }
}

/// Standard output.
#[derive(Drop)]
pub struct StdoutSink<'r, R: Print + Drop> {
    rt: &'r R,
    faults: u64,
}

impl<'r, R: Print + Drop> StdoutSink<'r, R> {
    pub fn new(rt: &'r R) -> StdoutSink<'r, R>
        ensures { ⟦<StdoutSink<'r, R> as Sink>⟧.faults result ≡ 0 }
    {
        StdoutSink { rt, faults: 0 }
    }
}

impl<'r, R: Print + Drop> Sink for StdoutSink<'r, R> {
    ghost faults = { λ s. s.faults };

    ghost taken = { λ _. None };

    fn give(&mut self, bytes: &[u8]) -> Gave {
        write_whole(&mut io::writer(self.rt), &mut self.faults, bytes)
    }
}
