//! The gate, and how it is opened and closed.

ghost use Rattle.std.specs.Prelude.{◌≡◌, ◌≤◌, ◌^◌, [], length, IfOk};
ghost use Rattle.seq_gate.specs.Passes.{first_pass, share, Closes};

use crate::kept::Kept;
use crate::known::View;
use crate::pass::Pass;
use crate::steps::Rule;
use atomic_table::Table;
use sg_history::laws::boards;
use sg_outside::Memory;
use std::alloc::{AllocError, Global};
use std::marker::Model;
use std::snapshot::Snapshot;
use std::sync::Mutex;
use std::sync::atomic::AtomicU64;

/// A gate to a board: four words, and a slot for the board. Threads share it by reference. Of those that wait for a turn one looks
/// whether it has come, and sleeps on the word after some looks; the others sleep on the lock.
#[derive(Drop)]
pub struct Gate<B: Kept> {
    pub(crate) table: Table<Option<B>, View, Snapshot<B>, Rule<B>, Global>,
    pub(crate) next: Mutex<()>,
    // Where it is 0 nobody sleeps on the word, and a turn that is passed on wakes nobody.
    pub(crate) sleepers: AtomicU64,
}

impl<B: Kept> Model for Gate<B> {
    ghost use Rattle.std.specs.Prelude.{◌≡◌};
    ghost use Rattle.atomic_table.specs.Seated.{TableId, table_id_coded};

    ghost Value = { TableId };

    ghost coded = { table_id_coded };

    ghost view = { λ g. g.table.shared.table_id };

    ghost invariant = { λ g. (g.table.shared.table_id.words ≡ 4) × (g.table.shared.table_id.slots ≡ 1) };
}

/// A gate to a board at which nothing waits and no room is outstanding, and its first pass, which has 2^62 draws. Out of memory the
/// board is dropped.
pub fn open<B: Kept>(alloc: Global, board: B) -> Result<(Gate<B>, Pass<B>), Memory>
    requires pending { (B.seen board).pending ≡ [] }
    requires rooms { (B.seen board).rooms ≡ [] }
    requires short { length (B.seen board).log ≤ 2 ^ 62 }
    ensures gate { IfOk result (λ r. r.1.gate ≡ r.0) }
    ensures knows { IfOk result (λ r. r.1.knows ≡ first_pass (B.seen board)) }
{
    boards();
    let front = board.front();
    let about = Snapshot::of(&board);
    let mut slots = Vec::new(alloc);
    slots.push(Some(board))?;
    match Table::<Option<B>, View, Snapshot<B>, Rule<B>, Global>::new(
        alloc,
        &[front, 0, 0, front],
        slots,
        &about,
    ) {
        Ok((table, seat)) => Ok((
            Gate {
                table,
                next: Mutex::new(()),
                sleepers: AtomicU64::new(0),
            },
            Pass {
                seat,
                left: 1 << 62,
            },
        )),
        Err(_) => Err(AllocError),
    }
}

/// The board, once every pass that was split was joined, and no number or room is held.
pub fn close<B: Kept>(gate: Gate<B>, pass: Pass<B>) -> B
    requires here { pass.gate ≡ gate }
    requires whole { share pass.knows ≡ 2 ^ 62 }
    requires held { pass.knows.held ≡ [] }
    requires rooms { pass.knows.rooms ≡ [] }
    ensures { Closes pass.knows (B.seen result) }
{
    let Gate { table, .. } = gate;
    let Pass { seat, left: _ } = pass;
    let mut closed = table.close_with(seat);
    let board = closed.take(0);
    closed.free();
    board.unwrap()
}
