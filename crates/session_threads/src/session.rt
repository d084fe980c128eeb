//! A session that is to run in a thread.

ghost use Rattle.std.specs.Prelude.{◌≤◌};
ghost use Rattle.session_threads.specs.inner.Runs.{IsSessionDone};

use crate::job::Job;
use session_run::{Ended, Setup, serve_session};
use sg_outside::Wire;
use std::alloc::Global;
use std::sync::Wait;
use write_path::SharedGround;

/// A session to be served at a ground of its own.
#[derive(Drop)]
pub struct SessionJob<'g, R: Wait + Sync, W: Wire + Send> {
    pub alloc: Global,
    pub ground: SharedGround<'g, R>,
    pub setup: Setup,
    pub wire: W,
    ghost draws: { 2000000 ≤ ground.knows.left },
}

/// A session that was served: its ground, its wire, and how it ended.
#[derive(Drop)]
pub struct SessionDone<'g, R: Wait + Sync, W: Wire> {
    pub ground: SharedGround<'g, R>,
    pub wire: W,
    pub ended: Ended,
}

impl<'g, R: Wait + Sync, W: Wire + Send> Job for SessionJob<'g, R, W> {
    type Done = SessionDone<'g, R, W>;

    ghost relates = { λ j d. IsSessionDone j.ground j.setup (W.recorded j.wire)
        (W.faults j.wire) d.ground d.ended (W.recorded d.wire) (W.faults d.wire) };

    fn run(self) -> SessionDone<'g, R, W> {
        let SessionJob {
            alloc,
            ground,
            setup,
            wire,
        } = self;
        let mut wire = wire;
        let (ground, ended) = serve_session(alloc, ground, setup, &mut wire);
        SessionDone {
            ground,
            wire,
            ended,
        }
    }
}
