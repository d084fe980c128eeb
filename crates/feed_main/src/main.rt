//! The program `sgate` with its command `feed` alone: it stands on a few crates, and so is soon built.
#![tactic(auto)]

use command_line::{end, words_of};
use feed_command::run;
use sg_outside::{RealFiles, StdoutSink};
use std::process::ExitCode;

fn main(rt: HostRuntime) -> ExitCode {
    let status = match words_of(&rt) {
        Ok(words) => {
            let mut files = RealFiles::new(&rt);
            let mut out = StdoutSink::new(&rt);
            run(rt.alloc(), words.as_slice(), &mut files, &mut out)
        }
        Err(status) => status,
    };
    ExitCode::from(end(&rt, &status))
}
