//! Turns in which a pass looks at a shelf, and leaves it as it was.

ghost use Rattle.std.specs.Prelude.{◌≡◌, IfOk};
ghost use Rattle.checkpoint_store.specs.Answers.{kept_at};
ghost use Rattle.checkpoint_store.specs.Checkpoints.{checkpoint_text};
ghost use Rattle.sg_history.specs.Board.{BoardState};
ghost use Rattle.board_steps.specs.Asks.{AskedAt};
ghost use Rattle.board_steps.specs.Bodies.{BodiesAt};
ghost use Rattle.board_steps.specs.Feed.{FeedAt};
ghost use Rattle.write_path.specs.Shared.{IsLookTurn, Rests};

use crate::shelf::Shelf;
use crate::turns::{enter, leave_as_found};
use doc_board::Kept0;
use repl_messages::{Asked, Bodies, Fed, Offer};
use seq_gate::{Gate, Pass};
use sg_history::{Client, Key, Name, Options, Row};
use sg_outside::Memory;
use std::alloc::Global;
use std::sync::Wait;

/// A turn for a user's feed.
pub(crate) fn feed_in_turn<R: Wait>(
    rt: &R,
    gate: &Gate<Shelf>,
    pass: Pass<Shelf>,
    user: &Name,
    since: &Key,
    options: &Options,
) -> (Pass<Shelf>, Result<Fed, Memory>)
    requires here { pass.gate ≡ gate.now }
    requires rests { Rests pass.knows }
    ensures gate { result.0.gate ≡ pass.gate }
    ensures looked { (found : BoardState) × IsLookTurn pass.knows result.0.knows found
        × IfOk result.1 (FeedAt found.log user.now since.now options.now) }
{
    doc_board::laws::after();
    let mut turn = enter(rt, gate, pass);
    let fed = turn.board().feed(user, since, options);
    (leave_as_found(gate, turn), fed)
}

/// A turn for bodies.
pub(crate) fn bodies_in_turn<R: Wait>(
    rt: &R,
    gate: &Gate<Shelf>,
    pass: Pass<Shelf>,
    alloc: Global,
    user: &Name,
    options: &Options,
    rows: &[Row],
    most: u64,
) -> (Pass<Shelf>, Result<Bodies, Memory>)
    requires here { pass.gate ≡ gate.now }
    requires rests { Rests pass.knows }
    ensures gate { result.0.gate ≡ pass.gate }
    ensures looked { (found : BoardState) × IsLookTurn pass.knows result.0.knows found
        × IfOk result.1 (BodiesAt found user.now options.now rows.now most) }
{
    doc_board::laws::after();
    let mut turn = enter(rt, gate, pass);
    let bodies = turn.board().bodies(alloc, user, options, rows, most);
    (leave_as_found(gate, turn), bodies)
}

/// A turn for revisions that a device offers.
pub(crate) fn ask_in_turn<R: Wait>(
    rt: &R,
    gate: &Gate<Shelf>,
    pass: Pass<Shelf>,
    alloc: Global,
    offers: &[Offer],
) -> (Pass<Shelf>, Result<Asked, Memory>)
    requires here { pass.gate ≡ gate.now }
    requires rests { Rests pass.knows }
    ensures gate { result.0.gate ≡ pass.gate }
    ensures looked { (found : BoardState) × IsLookTurn pass.knows result.0.knows found
        × IfOk result.1 (AskedAt found offers.now) }
{
    let mut turn = enter(rt, gate, pass);
    let asked = turn.board().ask(alloc, offers);
    (leave_as_found(gate, turn), asked)
}

/// A turn for the checkpoint of a user's client.
pub(crate) fn checkpoint_in_turn<R: Wait>(
    rt: &R,
    gate: &Gate<Shelf>,
    pass: Pass<Shelf>,
    user: &Name,
    client: &Client,
) -> (Pass<Shelf>, Result<Kept0, Memory>)
    requires here { pass.gate ≡ gate.now }
    requires rests { Rests pass.knows }
    ensures gate { result.0.gate ≡ pass.gate }
    ensures looked { (found : BoardState) × IsLookTurn pass.knows result.0.knows found
        × IfOk result.1 (λ kept. kept ≡ kept_at found.side (checkpoint_text user.now client.now)) }
{
    let mut turn = enter(rt, gate, pass);
    let kept = turn.board().get_checkpoint(user, client);
    (leave_as_found(gate, turn), kept)
}
