//! What a program does besides its command: it takes the words, and says how the command ended.

ghost use Rattle.std.specs.Prelude.{◌≡◌, ◌⊎◌, IfErr};
ghost use Rattle.command_line.specs.Exit.{exit_number};

use crate::status::Status;
use std::alloc::AllocError;
use std::io::ErrorKind;
use std::rt::Env;
use std::{env, io};

/// The words after the program's name; bad words where one of them isn't UTF-8.
pub fn words_of(rt: &(impl Env + AllocGlobal)) -> Result<Vec<String>, Status>
    ensures { IfErr result (λ status. (status ≡ Status.BadWords) ⊎ (status ≡ Status.Memory)) }
{
    let args = match env::args(rt) {
        Ok(args) => args,
        Err(error) if error.kind() == ErrorKind::OutOfMemory => return Err(Status::Memory),
        Err(_) => return Err(Status::BadWords),
    };
    let mut words = Vec::new(rt.alloc());
    for word in args.skip(1) {
        if words.push(word).is_err() {
            return Err(Status::Memory);
        }
    }
    Ok(words)
}

/// The exit number of a status.
fn number_of(status: &Status) -> u8
    ensures { result ≡ exit_number status.now }
{
    match status {
        Status::Ok => 0,
        Status::BadWords => 1,
        Status::BadInput { .. } => 2,
        Status::ReadFault => 3,
        Status::WriteFault => 4,
        Status::DoorFault => 5,
        Status::Memory => 6,
    }
}

/// Prints the line of a status on standard error; Ok has none.
fn print_status(rt: &impl Eprint, status: &Status) -> io::Result<()> {
    match status {
        Status::Ok => Ok(()),
        Status::BadWords => eprintln!(rt; "sgate: bad words"),
        Status::BadInput { file, place, .. } => eprintln!(rt; "sgate: bad input {file} {place}"),
        Status::ReadFault => eprintln!(rt; "sgate: read fault"),
        Status::WriteFault => eprintln!(rt; "sgate: write fault"),
        Status::DoorFault => eprintln!(rt; "sgate: door fault"),
        Status::Memory => eprintln!(rt; "sgate: no memory"),
    }
}

/// Prints the line of a status, if that can be done, and gives its number in any case.
pub fn end(rt: &impl Eprint, status: &Status) -> u8
    ensures { result ≡ exit_number status.now }
{
    let _ = print_status(rt, status);
    number_of(status)
}
