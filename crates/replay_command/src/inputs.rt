//! The files of a replay, loaded in the order of the words.

ghost use Rattle.std.specs.Prelude.{◌≡◌, ◌≤◌, ◌<◌, ◌++◌, ◌∷◌, [], ℕ, List, IfOk, get_or, length, map};
ghost use Rattle.sg_outside.specs.Files.{Load};
ghost use Rattle.principals.specs.Script.{AreLines};
ghost use Rattle.replay_command.specs.Inputs.{Contents, HaveContents, HaveFiles, IsBadFileAt, IsGoodFile, paths_of};
ghost use Rattle.replay_command.specs.Loading.{AreInputsRead, AreSessionsRead, IsConfigRead, IsRefused, IsScriptRead, IsSessionRead, config_status};
ghost use Rattle.command_line.specs.Loads.{LoadsOf};
ghost use Rattle.command_line.specs.ReplayRequest.{replay_of};
ghost use Rattle.command_line.specs.Run.{EndsLoaded, HasFile};

use command_line::{ReplayRequest, Status, load};
use gateway_config::{Config, ConfigFault, read_config};
use principals::{AdminLines, read_admin};
use record_file::{Recorded, read_record};
use sg_history::{BadLine, ReadLog, Why};
use sg_outside::Files;
use std::alloc::Global;

/// The refusal of the file that has this number among the command's words.
fn refused(file: u64, fault: ReadLog) -> Status
    ensures { IsRefused file fault result }
{
    match fault {
        ReadLog::Bad(BadLine { place, why }) => Status::BadInput { file, place, why },
        ReadLog::Memory => Status::Memory,
    }
}

/// The refusal of a configuration, whose file is the first one.
fn config_refused(fault: ConfigFault) -> Status
    ensures { result ≡ config_status fault }
{
    match fault {
        ConfigFault::Bad { path, why } => Status::BadInput {
            file: 1,
            place: 0,
            why: Why::Config { path, why },
        },
        ConfigFault::Memory => Status::Memory,
    }
}

/// The configuration of a file, the first one.
pub fn load_config<F: Files>(alloc: Global, files: &mut F, path: &str) -> Result<Config, Status>
    ensures recorded { (bytes : List ℕ) → HasFile (F.recorded files.old) path.now bytes
        → IsConfigRead bytes result }
    ensures loads { (done : List Load) × (F.loads files.new ≡ F.loads files.old ++ done)
        × LoadsOf (F.recorded files.old) IsGoodFile IsBadFileAt 1 (path.now ∷ []) done result }
    ensures loaded { EndsLoaded result (F.faults files.old) (F.faults files.new) }
    ensures kept { F.recorded files.new ≡ F.recorded files.old }
{
    let bytes = load(alloc, files, path, 1)?;
    match read_config(alloc, bytes.as_slice()) {
        Ok(config) => Ok(config),
        Err(fault) => Err(config_refused(fault)),
    }
}

/// The lines of a script's file, the second one.
fn load_script<F: Files>(alloc: Global, files: &mut F, path: &str) -> Result<AdminLines, Status>
    ensures recorded { (bytes : List ℕ) → HasFile (F.recorded files.old) path.now bytes
        → IsScriptRead bytes result }
    ensures loads { (done : List Load) × (F.loads files.new ≡ F.loads files.old ++ done)
        × LoadsOf (F.recorded files.old) IsGoodFile IsBadFileAt 2 (path.now ∷ []) done result }
    ensures lines { IfOk result (λ lines. AreLines lines) }
    ensures loaded { EndsLoaded result (F.faults files.old) (F.faults files.new) }
    ensures kept { F.recorded files.new ≡ F.recorded files.old }
{
    let bytes = load(alloc, files, path, 2)?;
    match read_admin(alloc, bytes.as_slice()) {
        Ok(lines) => Ok(lines),
        Err(fault) => Err(refused(2, fault)),
    }
}

/// The recorded session of a file with this number.
fn load_session<F: Files>(
    alloc: Global,
    files: &mut F,
    path: &str,
    file: u64,
) -> Result<Recorded, Status>
    requires behind { 3 ≤ file }
    ensures recorded { (bytes : List ℕ) → HasFile (F.recorded files.old) path.now bytes
        → IsSessionRead file bytes result }
    ensures loads { (done : List Load) × (F.loads files.new ≡ F.loads files.old ++ done)
        × LoadsOf (F.recorded files.old) IsGoodFile IsBadFileAt file (path.now ∷ []) done result }
    ensures loaded { EndsLoaded result (F.faults files.old) (F.faults files.new) }
    ensures kept { F.recorded files.new ≡ F.recorded files.old }
{
    let bytes = load(alloc, files, path, file)?;
    match read_record(alloc, bytes.as_slice()) {
        Ok(recorded) => Ok(recorded),
        Err(fault) => Err(refused(file, fault)),
    }
}

/// The path at a place.
fn path_at<'a>(paths: &[&'a str], i: usize) -> &'a str
    requires { i < length paths.now }
    ensures { result.now ≡ get_or (map (λ p. p.now) paths.now) i result.now }
{
    paths[i]
}

/// The recorded sessions of files, of which the first is the third.
fn load_sessions<F: Files>(
    alloc: Global,
    files: &mut F,
    paths: &[&str],
) -> Result<Vec<Recorded>, Status>
    ensures recorded { (contents : List (List ℕ))
        → HaveFiles (F.recorded files.old) (map (λ p. p.now) paths.now) contents
        → AreSessionsRead contents result }
    ensures loads { (done : List Load) × (F.loads files.new ≡ F.loads files.old ++ done)
        × LoadsOf (F.recorded files.old) IsGoodFile IsBadFileAt 3 (map (λ p. p.now) paths.now)
        done result }
    ensures loaded { EndsLoaded result (F.faults files.old) (F.faults files.new) }
    ensures kept { F.recorded files.new ≡ F.recorded files.old }
{
    let mut sessions = Vec::new(alloc);
    for i in 0..paths.len() {
        let path = path_at(paths, i);
        let recorded = match load_session(alloc, files, path, i as u64 + 3) {
            Ok(recorded) => recorded,
            Err(status) => {
                drop(sessions);
                return Err(status);
            }
        };
        if let Err(refused) = sessions.push(recorded) {
            drop(refused);
            drop(sessions);
            return Err(Status::Memory);
        }
    }
    Ok(sessions)
}

/// What the files of a replay hold.
#[derive(Drop)]
pub(crate) struct LoadedInputs {
    pub config: Config,
    pub lines: AdminLines,
    pub sessions: Vec<Recorded>,
}

/// Loads the files in their order, each of which is read before the next is loaded.
pub(crate) fn load_inputs<F: Files>(
    alloc: Global,
    files: &mut F,
    request: &ReplayRequest<'_>,
) -> Result<LoadedInputs, Status>
    ensures recorded { (contents : Contents)
        → HaveContents (F.recorded files.old) (replay_of request.now) contents
        → AreInputsRead contents result }
    ensures loads { (done : List Load) × (F.loads files.new ≡ F.loads files.old ++ done)
        × LoadsOf (F.recorded files.old) IsGoodFile IsBadFileAt 1
        (paths_of (replay_of request.now)) done result }
    ensures lines { IfOk result (λ i. AreLines i.lines) }
    ensures loaded { EndsLoaded result (F.faults files.old) (F.faults files.new) }
    ensures kept { F.recorded files.new ≡ F.recorded files.old }
{
    let config = load_config(alloc, files, request.config)?;
    let lines = match load_script(alloc, files, request.admin) {
        Ok(lines) => lines,
        Err(status) => {
            drop(config);
            return Err(status);
        }
    };
    match load_sessions(alloc, files, request.sessions.as_slice()) {
        Ok(sessions) => Ok(LoadedInputs {
            config,
            lines,
            sessions,
        }),
        Err(status) => {
            drop(config);
            drop(lines);
            Err(status)
        }
    }
}
