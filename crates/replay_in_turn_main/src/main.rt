//! The program `sgate` with its command `replay` alone, in which the script is run before all sessions, and these one after another: what
//! it prints is one text alone, with which the tables of worked cases are compared.
#![tactic(auto)]

use command_line::{end, words_of};
use replay_command::run_in_turn;
use sg_outside::{RealFiles, StdoutSink};
use std::process::ExitCode;

fn main(rt: HostRuntime) -> ExitCode {
    let status = match words_of(&rt) {
        Ok(words) => {
            let mut files = RealFiles::new(&rt);
            let mut out = StdoutSink::new(&rt);
            run_in_turn(rt.alloc(), words.as_slice(), &mut files, &mut out)
        }
        Err(status) => status,
    };
    ExitCode::from(end(&rt, &status))
}
