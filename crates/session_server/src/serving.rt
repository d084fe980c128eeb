//! The whole: the opening, the callers, and the gate that is closed behind them.

ghost use Rattle.std.specs.Prelude.{◌≡◌, ◌<◌, ◌≤◌, []};
ghost use Rattle.seq_gate.specs.Passes.{first_pass};
ghost use Rattle.write_path.specs.Shelf.{shelf_state};
ghost use Rattle.session_threads.specs.Opening.{IsOpening};
ghost use Rattle.session_server.specs.Served.{ServesIfRecorded};

use crate::server::Server;
use gateway_config::Config;
use gateway_server::{DoorEnd, serve_door};
use seq_gate::{Gate, Pass, close, open};
use session_threads::opened;
use sg_lines::Door;
use std::alloc::Global;
use std::snapshot::Snapshot;
use std::sync::Wait;
use std::thread::Threads;
use write_path::Shelf;

/// Serves the callers of a door behind a gate that was opened for them, and closes it.
fn serve_behind<R: Threads + Wait + Sync, D: Door>(
    rt: &R,
    alloc: Global,
    gate: Gate<Shelf>,
    pass: Pass<Shelf>,
    opened: Snapshot<Shelf>,
    config: &Config,
    door: &mut D,
) -> DoorEnd
    requires here { pass.gate ≡ gate }
    requires first { pass.knows ≡ first_pass (shelf_state opened.value) }
    requires opening { IsOpening config.now.roles config.now.users opened.value.board.log }
    requires bytes { (shelf_state opened.value).bytes ≡ 0 }
    ensures failed { result ≡ DoorEnd.Failed → D.faults door.old < D.faults door.new }
    ensures faults { D.faults door.old ≤ D.faults door.new }
    ensures served { ServesIfRecorded D.Line.traced config.now (D.recorded door.old) result
        (D.recorded door.new) }
{
    doc_board::laws::judged_writes();
    session_run::laws::sessions();
    checkpoint_store::laws::side_maps();
    write_path::laws::closing();
    write_path::laws::was_read();
    let mut server = Server::<'_, R, D::Line>::new(rt, alloc, &gate, config, opened, pass);
    let end = serve_door(rt, alloc, door, &mut server);
    let pass = server.into_pass();
    drop(close(gate, pass));
    end
}

/// Puts the roles and users of a configuration as the first entries of a history, and then serves each caller of a door by a session over it,
/// in a thread of its own: it reads the head of the caller's request, answers it, and serves the device of the user whose session the
/// head names. It may wait, for callers, for turns and for sockets, and ends once no more callers come and the last session has ended. What was
/// stored is lost then.
///
/// A fault of one caller, or want of memory for one, ends that caller's session alone.
pub fn serve_devices<R: Threads + Wait + Sync, D: Door>(
    rt: &R,
    alloc: Global,
    shelf: Shelf,
    config: &Config,
    door: &mut D,
) -> DoorEnd
    requires empty { shelf.board.log ≡ [] }
    requires pending { shelf.board.pending ≡ [] }
    requires rooms { shelf.board.rooms ≡ [] }
    ensures failed { result ≡ DoorEnd.Failed → D.faults door.old < D.faults door.new }
    ensures faults { D.faults door.old ≤ D.faults door.new }
    ensures served { ServesIfRecorded D.Line.traced config.now (D.recorded door.old) result
        (D.recorded door.new) }
{
    let shelf = match opened(alloc, shelf, config) {
        Ok(shelf) => shelf,
        Err(_) => return DoorEnd::Memory,
    };
    let first = Snapshot::of(&shelf);
    match open(alloc, shelf) {
        Ok((gate, pass)) => serve_behind(rt, alloc, gate, pass, first, config, door),
        Err(_) => DoorEnd::Memory,
    }
}
