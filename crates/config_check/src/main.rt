//! The program `config_check`: says in one line on standard output whether the gateway takes a configuration, and else what is
//! wrong with it, and where.
#![tactic(auto)]

mod command;
mod function;
mod line;
mod verdict;
mod words;

use command::run;
use command_line::{end, words_of};
use sg_outside::{RealFiles, StdoutSink};
use std::process::ExitCode;

fn main(rt: HostRuntime) -> ExitCode {
    let status = match words_of(&rt) {
        Ok(words) => {
            let mut files = RealFiles::new(&rt);
            let mut out = StdoutSink::new(&rt);
            run(rt.alloc(), words.as_slice(), &mut files, &mut out)
        }
        Err(status) => status,
    };
    ExitCode::from(end(&rt, &status))
}
