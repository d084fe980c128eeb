//! The program `sgate`: passes its words to the gateway's commands, with the real files, door and standard output,
//! and says how they ended: one line on standard error for each status but Ok, and the exit number.
#![tactic(auto)]

use command_line::{end, words_of};
use gateway_app::run;
use sg_outside::{RealFiles, StdoutSink};
use sg_sockets::TcpDoor;
use std::process::ExitCode;

fn main(rt: HostRuntime) -> ExitCode {
    let status = match words_of(&rt) {
        Ok(words) => {
            let mut files = RealFiles::new(&rt);
            let mut door = TcpDoor::new(&rt, rt.alloc());
            let mut out = StdoutSink::new(&rt);
            run(
                &rt,
                rt.alloc(),
                words.as_slice(),
                &mut files,
                &mut door,
                &mut out,
            )
        }
        Err(status) => status,
    };
    ExitCode::from(end(&rt, &status))
}
