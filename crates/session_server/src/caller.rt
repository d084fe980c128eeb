//! A caller: its line is read and greeted, and then its device is served a session over the line's socket.

ghost use Rattle.std.specs.Prelude.{◌≡◌, ◌≤◌, List, Some, Ok};
ghost use Rattle.std.specs.Arc.{arc_value};
ghost use Rattle.sg_outside.specs.Wire.{LineRead, no_line};
ghost use Rattle.ws_door.specs.Heads.{head_in};
ghost use Rattle.session_server.specs.inner.Runs.{IsCallerDone, IsLetIn, IsSetupOf, read_line};

use gateway_config::Config;
use gateway_server::Job;
use session_run::{Setup, serve_session};
use sg_lines::{Line, Link};
use std::alloc::Global;
use std::sync::{Arc, Wait};
use write_path::{Resolved, SharedGround};
use ws_door::{Upgrade, greet, read_head};

/// A caller's line, and the ground at which its device is to be served.
#[derive(Drop)]
pub struct Caller<'g, R: Wait + Sync, L: Line + Send> {
    pub alloc: Global,
    pub ground: SharedGround<'g, R>,
    pub config: &'g Config,
    pub line: L,
    ghost draws: { 2000000 ≤ ground.knows.left },
}

/// What is left of a caller: its ground, and the line's trace.
#[derive(Drop)]
pub struct Left<'g, R: Wait + Sync, T: Drop> {
    pub ground: SharedGround<'g, R>,
    pub trace: T,
}

/// The setup of the session of an upgrade.
fn setup_of(upgrade: Upgrade, config: &Config, program: Arc<Resolved>) -> Setup
    requires { arc_value program ≡ arc_value config.now.program }
    ensures { IsSetupOf config.now upgrade result }
{
    let Upgrade {
        user,
        version,
        reply,
    } = upgrade;
    drop(reply);
    Setup {
        user,
        version,
        strict: !config.conflicts,
        program,
    }
}

/// Answers a head; gives the setup of the session where that is let in.
fn answer<L: Link>(alloc: Global, link: &mut L, head: &[u8], config: &Config) -> Option<Setup>
    ensures { (results : List LineRead) → L.recorded link.old ≡ Some (read_line results)
        → head_in results ≡ Some (Ok head.now)
        → IsLetIn config.now result (L.recorded link.new) }
{
    let Ok(program) = config.program.clone() else {
        return None;
    };
    match greet(alloc, link, head, config) {
        Ok(upgrade) => Some(setup_of(upgrade, config, program)),
        Err(_) => {
            drop(program);
            None
        }
    }
}

/// Reads and answers the head of a caller; gives the setup of the session where that is let in.
fn let_in<L: Link>(alloc: Global, link: &mut L, config: &Config) -> Option<Setup>
    ensures { L.recorded link.old ≡ Some no_line
        → IsLetIn config.now result (L.recorded link.new) }
{
    match read_head(alloc, link) {
        Ok(head) => {
            let setup = answer(alloc, link, head.as_slice(), config);
            drop(head);
            setup
        }
        Err(_) => None,
    }
}

impl<'g, R: Wait + Sync, L: Line + Send> Job for Caller<'g, R, L> {
    type Done = Left<'g, R, L::Trace>;

    ghost relates = { λ j d. IsCallerDone j.config.now j.ground (L.recorded j.line) d.ground
        (L.traced d.trace) };

    fn run(self) -> Left<'g, R, L::Trace> {
        let Caller {
            alloc,
            ground,
            config,
            line,
        } = self;
        let mut line = line;
        let Some(setup) = let_in(alloc, &mut line, config) else {
            return Left {
                ground,
                trace: line.shut(),
            };
        };
        match line.socket() {
            Ok(socket) => {
                let mut socket = socket;
                let (ground, ended) = serve_session(alloc, ground, setup, &mut socket);
                drop(ended);
                Left {
                    ground,
                    trace: L::shut_socket(socket),
                }
            }
            Err(trace) => {
                drop(setup);
                Left { ground, trace }
            }
        }
    }
}
