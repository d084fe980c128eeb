//! The command `serve`: opens a door, and serves the devices that come there over one history.

ghost use Rattle.std.specs.Prelude.{◌≡◌, ◌≢◌, ◌≤◌, [], ℕ, List, IfOk};
ghost use Rattle.command_line.specs.Run.{HasFile};
ghost use Rattle.gateway_app.specs.Serves.{CountedAll, EndsServe, EndsServing, LoadsConfig, OpensAndServes, status_of};
ghost use Rattle.session_server.specs.Served.{ServesIfRecorded};
ghost use Rattle.gateway_server.specs.declared.stop.DoorEnd.{DoorEnd};

use command_line::Status;
use doc_board::Board;
use gateway_config::Config;
use gateway_server::DoorEnd;
use replay_command::load_config;
use session_server::serve_devices;
use sg_lines::Door;
use sg_outside::{Files, Gave, Memory};
use std::alloc::Global;
use std::sync::Wait;
use std::thread::Threads;
use write_path::Shelf;

/// How a run ends that serving ended so.
fn ended(end: DoorEnd) -> Status
    ensures { result ≡ status_of end }
{
    match end {
        DoorEnd::Ended => Status::Ok,
        DoorEnd::Failed => Status::DoorFault,
        DoorEnd::Memory => Status::Memory,
    }
}

/// A shelf without entries.
fn empty_shelf(alloc: Global) -> Result<Shelf, Memory>
    ensures log { IfOk result (λ shelf. shelf.board.log ≡ []) }
    ensures pending { IfOk result (λ shelf. shelf.board.pending ≡ []) }
    ensures rooms { IfOk result (λ shelf. shelf.board.rooms ≡ []) }
{
    Shelf::new(Board::new(alloc)?)
}

/// Serves the callers of a door that was opened.
fn serve_opened<R: Threads + Wait + Sync, D: Door>(
    rt: &R,
    alloc: Global,
    config: &Config,
    door: &mut D,
) -> Status
    ensures served { (ending : DoorEnd) × (result ≡ status_of ending)
        × ServesIfRecorded D.Line.traced config.now (D.recorded door.old) ending
        (D.recorded door.new) }
    ensures counted { CountedAll result 0 0 0 0 (D.faults door.old) (D.faults door.new) }
{
    match empty_shelf(alloc) {
        Ok(shelf) => ended(serve_devices(rt, alloc, shelf, config, door)),
        Err(_) => Status::Memory,
    }
}

/// Opens the door, and serves its callers.
fn serve_config<R: Threads + Wait + Sync, D: Door>(
    rt: &R,
    alloc: Global,
    config: &Config,
    door: &mut D,
) -> Status
    ensures served { OpensAndServes D.Line.traced config.now (D.recorded door.old) result
        (D.recorded door.new) }
    ensures status { EndsServing result }
    ensures counted { CountedAll result 0 0 0 0 (D.faults door.old) (D.faults door.new) }
{
    match door.open(config.bind.as_str(), config.accepts) {
        Gave::Done => serve_opened(rt, alloc, config, door),
        Gave::Failed => Status::DoorFault,
        Gave::Memory => Status::Memory,
    }
}

/// Runs `serve`.
pub(crate) fn run_serve<R: Threads + Wait + Sync, F: Files, D: Door>(
    rt: &R,
    alloc: Global,
    path: &str,
    files: &mut F,
    door: &mut D,
) -> Status
    ensures ends { (bytes : List ℕ) → HasFile (F.recorded files.old) path.now bytes
        → EndsServe D.Line.traced result bytes (D.recorded door.old) (D.recorded door.new) }
    ensures loads { LoadsConfig (F.recorded files.old) path.now (F.loads files.old)
        (F.loads files.new) result }
    ensures words { result ≢ Status.BadWords }
    ensures counted { CountedAll result (F.faults files.old) (F.faults files.new) 0 0
        (D.faults door.old) (D.faults door.new) }
    ensures kept { F.recorded files.new ≡ F.recorded files.old }
{
    match load_config(alloc, files, path) {
        Ok(config) => {
            let status = serve_config(rt, alloc, &config, door);
            drop(config);
            status
        }
        Err(status) => status,
    }
}
