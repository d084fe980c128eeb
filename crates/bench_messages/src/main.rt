//! Sends, joins and reads messages, so that what it takes can be measured from outside. The first word is the job, the second how
//! often or of how many bytes: `frames`, `plain`; `large`, `small`, `nuls`, `twice`, `nothing`; `make`, `read`.
#![tactic(auto)]

mod frames;
mod joining;
mod texts;

use std::alloc::{AllocError, Global};
use std::{env, io};

/// What the program prints of a job that was done so often.
fn told(alloc: Global, name: &str, count: u32) -> Result<String, AllocError> {
    match name {
        "frames" | "plain" => told_of_frames(alloc, name, count),
        "make" | "read" => told_of_texts(alloc, name),
        _ => told_of_joining(alloc, name, count),
    }
}

fn told_of_frames(alloc: Global, name: &str, count: u32) -> Result<String, AllocError> {
    let found = frames::job(alloc, name, count)?;
    format!(in alloc; "{count} payloads: {found:08x}")
}

fn told_of_texts(alloc: Global, name: &str) -> Result<String, AllocError> {
    let (bytes, offers) = texts::job(alloc, name)?;
    format!(in alloc; "{bytes} bytes, {offers} offers")
}

fn told_of_joining(alloc: Global, name: &str, count: u32) -> Result<String, AllocError> {
    match joining::job(alloc, name, count as usize) {
        Ok(came) => format!(in alloc; "{} frames, {} messages", came.frames, came.messages),
        Err(stop) => format!(in alloc; "{stop:?}"),
    }
}

fn main(rt: HostRuntime) -> io::Result<()> {
    let mut words = env::args(&rt)?;
    let _program = words.next();
    let Some(name) = words.next() else {
        return Ok(());
    };
    let count = words
        .next()
        .map_or(1, |word| word.parse::<u32>().unwrap_or(1));
    match told(rt.alloc(), name.as_str(), count) {
        Ok(text) => println!(rt; "{text}"),
        Err(_) => println!(rt; "no memory"),
    }
}
