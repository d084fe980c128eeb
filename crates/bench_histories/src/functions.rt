//! A function of the sync language that is read, printed or resolved, or whose fault is told.

use crate::judging::resolved;
use json_doc::DocText;
use std::alloc::{AllocError, Global};
use sync_print::print;
use sync_resolve::{ResolveFault, resolve};
use sync_syntax::{ParseFault, Place, Program, SyntaxWhy, parse};

/// How many of so many printings gave a text.
fn write(alloc: Global, program: &Program, count: u32) -> u32 {
    let mut found: u32 = 0;
    for _ in 0..count {
        let mut out = DocText::new(alloc);
        if print(alloc, program, &mut out).is_ok() {
            found = found.saturating_add(1);
        }
    }
    found
}

/// The text is read once, and printed so often.
fn written(alloc: Global, text: &str, count: u32) -> u32 {
    match parse(alloc, text) {
        Ok(program) => write(alloc, &program, count),
        Err(_) => 0,
    }
}

/// How many of so many readings gave a program.
fn read(alloc: Global, text: &str, count: u32) -> u32 {
    let mut found: u32 = 0;
    for _ in 0..count {
        if parse(alloc, text).is_ok() {
            found = found.saturating_add(1);
        }
    }
    found
}

/// How many of so many readings gave a program that was printed.
fn read_and_written(alloc: Global, text: &str, count: u32) -> u32 {
    let mut found: u32 = 0;
    for _ in 0..count {
        found = found.saturating_add(written(alloc, text, 1));
    }
    found
}

/// How many of so many readings gave a program that was resolved.
fn read_and_resolved(alloc: Global, text: &str, count: u32) -> u32 {
    let mut found: u32 = 0;
    for _ in 0..count {
        if resolved(alloc, text).is_some() {
            found = found.saturating_add(1);
        }
    }
    found
}

fn why_text(why: SyntaxWhy) -> &'static str {
    match why {
        SyntaxWhy::Range => "range",
        SyntaxWhy::BadText => "bad text",
        SyntaxWhy::Unexpected => "unexpected",
        SyntaxWhy::TooDeep => "too deep",
        SyntaxWhy::TooLong => "too long",
    }
}

fn at(alloc: Global, why: &str, place: Place) -> Result<String, AllocError> {
    let line = place.line;
    let column = place.column;
    format!(in alloc; "{why} at {line}:{column}")
}

fn at_name(alloc: Global, fault: ResolveFault) -> Result<String, AllocError> {
    match fault {
        ResolveFault::UnknownName(place) => at(alloc, "unknown name", place),
        ResolveFault::WrongCount(place) => at(alloc, "wrong count", place),
        ResolveFault::Redeclared(place) => at(alloc, "redeclared", place),
        ResolveFault::ConstWritten(place) => at(alloc, "const written", place),
        ResolveFault::Memory => Err(AllocError),
    }
}

/// The first fault of a program's names, if they have one.
fn name_fault(alloc: Global, program: Program) -> Result<String, AllocError> {
    match resolve(alloc, program).err() {
        Some(fault) => at_name(alloc, fault),
        None => String::from_str(alloc, "no fault"),
    }
}

/// The fault of a text, if it has one: the first of its names, where it is a program.
fn fault_text(alloc: Global, text: &str) -> Result<String, AllocError> {
    match parse(alloc, text) {
        Ok(program) => name_fault(alloc, program),
        Err(ParseFault::Bad(fault)) => at(alloc, why_text(fault.why), fault.place),
        Err(ParseFault::Memory) => Err(AllocError),
    }
}

/// How often a text of the sync language was read, printed or resolved, and its fault.
pub fn told(alloc: Global, job: &str, text: &str, count: u32) -> Result<String, AllocError> {
    let len = text.len();
    let found = match job {
        "parse" => read(alloc, text, count),
        "print" => written(alloc, text, count),
        "resolve" => read_and_resolved(alloc, text, count),
        _ => read_and_written(alloc, text, count),
    };
    let fault = fault_text(alloc, text)?;
    format!(in alloc; "{len} bytes: {found} times, {fault}")
}
