//! Sessions, from a wire's first result to the end.

ghost use Rattle.std.specs.Prelude.{◌≡◌, ◌≤◌, ◌<◌, ◌+◌, Some};
ghost use Rattle.session_run.specs.declared.ended.End.{End};
ghost use Rattle.session_run.specs.Answered.{moment};
ghost use Rattle.session_run.specs.Served.{IsServed};

use crate::ended::{End, Ended};
use crate::session::Session;
use repl_messages::Version;
use sg_history::Name;
use sg_outside::Wire;
use std::alloc::Global;
use std::sync::Arc;
use write_path::{Ground, Resolved};

/// Whose device it is, the version of the protocol that it speaks, whether conflicts are off, and the sync function by which what it
/// proposes is judged.
#[derive(Drop)]
pub struct Setup {
    pub user: Name,
    pub version: Version,
    pub strict: bool,
    pub program: Arc<Resolved>,
}

/// How many results a session receives at most.
const MOST_RESULTS: u64 = 1_099_511_627_776;

/// Serves one device: receives its frames one after another, answers each message that they give, sends what is
/// put for it, and goes on until the wire ends, a fault ends the session, its looks or results are full, or memory runs out. At
/// idle moments a continuous feed goes on where the history has grown. All frames are sent from one buffer; where there is no
/// memory for it, nothing is received. At most two draws of sequences are made for a look. Gives the ground back.
pub fn serve_session<W: Wire, G: Ground>(
    alloc: Global,
    ground: G,
    setup: Setup,
    wire: &mut W,
) -> (G, Ended)
    requires draws { 2000000 ≤ G.left ground }
    ensures session { IsServed setup
        (moment (G.read ground) (G.lowest_front ground) (G.recorded ground)
        (G.checkpoints ground) (G.own ground))
        (moment (G.read result.0) (G.lowest_front result.0) (G.recorded result.0)
        (G.checkpoints result.0) (G.own result.0))
        (W.recorded wire.old) result.1 (W.recorded wire.new) }

    // At most so many draws are made as a session has for its looks.
    ensures origin { G.origin result.0 ≡ G.origin ground }
    ensures least { G.left result.0 ≤ G.left ground }
    ensures most { G.left ground ≤ G.left result.0 + 2000000 }

    // The wire is said to have failed only where it did.
    ensures fault { result.1.end ≡ End.WireFault → W.faults wire.old < W.faults wire.new }
{
    let mut ground = ground;
    let Setup {
        user,
        version,
        strict,
        program,
    } = setup;
    let mut session = Session::new(alloc, user, version, strict);
    write_path::laws::reads();
    session_mux::laws::traffic();
    if session.reserve().is_err() {
        drop(program);
        return (ground, session.ended(End::Memory));
    }
    for received in 0..MOST_RESULTS {
        if let Some(end) = session.step(alloc, &mut ground, &program, wire) {
            drop(program);
            return (ground, session.ended(end));
        }
    }
    drop(program);
    (ground, session.ended(End::TurnsFull))
}
