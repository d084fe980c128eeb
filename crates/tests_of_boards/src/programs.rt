//! The sync functions of the tests, and ann's device.

use repl_messages::Version;
use session_run::Setup;
use sg_history::Name;
use std::alloc::Global;
use std::sync::Arc;
use std::test::Fail;
use sync_resolve::{Resolved, resolve};
use sync_syntax::{Program, parse};

/// Puts each document into the channel of every user.
pub const OPEN: &str = "function(doc) { channel(\"!\"); }";

/// Puts each document into the channels that it names.
pub const NAMED: &str = "function(doc, oldDoc) { channel(doc.channels); }";

fn parsed(alloc: Global, function: &str) -> Result<Program, Fail> {
    match parse(alloc, function) {
        Ok(program) => Ok(program),
        Err(_) => Err(Fail::from("no program")),
    }
}

fn program_of(alloc: Global, function: &str) -> Result<Resolved, Fail> {
    match resolve(alloc, parsed(alloc, function)?) {
        Ok(program) => Ok(program),
        Err(_) => Err(Fail::from("a name stands for nothing")),
    }
}

/// The program that puts each document into the channel of every user.
pub fn open(alloc: Global) -> Result<Resolved, Fail> {
    program_of(alloc, OPEN)
}

/// Ann's device, by version 3, whose documents this function judges.
pub fn setup(alloc: Global, function: &str) -> Result<Setup, Fail> {
    let user = Name::parse(alloc, "ann")?;
    let program = Arc::new(alloc, program_of(alloc, function)?)?;
    Ok(Setup {
        user,
        version: Version::Three,
        strict: false,
        program,
    })
}
