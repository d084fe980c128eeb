//! The command `replay`: prints the transcript of a script and recorded sessions over a configuration.

ghost use Rattle.std.specs.Prelude.{◌≡◌, ◌≢◌, map, string_bytes};
ghost use Rattle.principals.specs.Script.{AreLines};
ghost use Rattle.replay_command.specs.Inputs.{Contents, HaveContents, LoadsInputs};
ghost use Rattle.replay_command.specs.Loading.{PrintsReplay, inputs_of};
ghost use Rattle.replay_command.specs.Replays.{EndsReplay};
ghost use Rattle.replay.specs.Replay.{IsReplay};
ghost use Rattle.replay_in_turn.specs.Replay as in_turn;
ghost use Rattle.command_line.specs.ReplayRequest.{replay_of};
ghost use Rattle.command_line.specs.ReplayWords.{IsReplayWords, ReplayWords};
ghost use Rattle.command_line.specs.Run.{Counted, IsRefusal, Silent};

use crate::inputs::{LoadedInputs, load_inputs};
use command_line::{ReplayRequest, Status, WordsFault, print, read_replay};
use replay::replay;
use replay_in_turn::replay_in_turn;
use sg_outside::{Files, Sink};
use std::alloc::Global;
use std::sync::Wait;
use std::thread::Threads;

/// Replays what the files hold, and prints the transcript.
fn print_replay<R: Threads + Wait + Sync, O: Sink>(
    rt: &R,
    alloc: Global,
    inputs: LoadedInputs,
    out: &mut O,
) -> Status
    requires { AreLines inputs.lines }
    ensures { PrintsReplay IsReplay result (inputs_of inputs)
        (O.faults out.old) (O.faults out.new) (O.taken out.old) (O.taken out.new) }
{
    let LoadedInputs {
        config,
        lines,
        sessions,
    } = inputs;
    let text = replay(rt, alloc, &config, lines, sessions);
    drop(config);
    match text {
        Ok(text) => print(text.as_slice(), out),
        Err(_) => Status::Memory,
    }
}

/// The same of a replay in which each waits for the one before.
fn print_in_turn<O: Sink>(alloc: Global, inputs: LoadedInputs, out: &mut O) -> Status
    requires { AreLines inputs.lines }
    ensures { PrintsReplay in_turn.IsReplay result (inputs_of inputs)
        (O.faults out.old) (O.faults out.new) (O.taken out.old) (O.taken out.new) }
{
    let LoadedInputs {
        config,
        lines,
        sessions,
    } = inputs;
    let text = replay_in_turn(alloc, &config, lines, sessions);
    drop(config);
    match text {
        Ok(text) => print(text.as_slice(), out),
        Err(_) => Status::Memory,
    }
}

/// Runs `replay`.
pub fn run_replay<R: Threads + Wait + Sync, F: Files, O: Sink>(
    rt: &R,
    alloc: Global,
    request: &ReplayRequest<'_>,
    files: &mut F,
    out: &mut O,
) -> Status
    ensures ends { (contents : Contents)
        → HaveContents (F.recorded files.old) (replay_of request.now) contents
        → EndsReplay IsReplay result contents (O.taken out.old) (O.taken out.new) }
    ensures loads { LoadsInputs (F.recorded files.old) (replay_of request.now) (F.loads files.old)
        (F.loads files.new) result }
    ensures words { result ≢ Status.BadWords }
    ensures counted { Counted result (F.faults files.old) (F.faults files.new)
        (O.faults out.old) (O.faults out.new) }
    ensures silent { Silent result (O.taken out.old) (O.taken out.new) }
    ensures kept { F.recorded files.new ≡ F.recorded files.old }
{
    match load_inputs(alloc, files, request) {
        Ok(inputs) => print_replay(rt, alloc, inputs, out),
        Err(status) => status,
    }
}

/// Runs `replay` in turn.
fn run_requested_in_turn<F: Files, O: Sink>(
    alloc: Global,
    request: &ReplayRequest<'_>,
    files: &mut F,
    out: &mut O,
) -> Status
    ensures ends { (contents : Contents)
        → HaveContents (F.recorded files.old) (replay_of request.now) contents
        → EndsReplay in_turn.IsReplay result contents (O.taken out.old) (O.taken out.new) }
    ensures loads { LoadsInputs (F.recorded files.old) (replay_of request.now) (F.loads files.old)
        (F.loads files.new) result }
    ensures words { result ≢ Status.BadWords }
    ensures counted { Counted result (F.faults files.old) (F.faults files.new)
        (O.faults out.old) (O.faults out.new) }
    ensures silent { Silent result (O.taken out.old) (O.taken out.new) }
    ensures kept { F.recorded files.new ≡ F.recorded files.old }
{
    match load_inputs(alloc, files, request) {
        Ok(inputs) => print_in_turn(alloc, inputs, out),
        Err(status) => status,
    }
}

/// Runs `replay` with the script before all sessions, and these one after another: the words are those after the program's name. What it
/// prints is one text alone, which tables of worked cases are compared with.
pub fn run_in_turn<F: Files, O: Sink>(
    alloc: Global,
    words: &[String],
    files: &mut F,
    out: &mut O,
) -> Status
    ensures words { result ≡ Status.BadWords
        → (r : ReplayWords) → ¬ IsReplayWords (map (λ w. string_bytes w) words.now) r }
    ensures outside { ((r : ReplayWords) → ¬ IsReplayWords (map (λ w. string_bytes w) words.now) r)
        → IsRefusal result × (files.new ≡ files.old) × (out.new ≡ out.old) }
    ensures untouched { result ≡ Status.BadWords → (files.new ≡ files.old) × (out.new ≡ out.old) }
    ensures replays { (r : ReplayWords) (contents : Contents)
        → IsReplayWords (map (λ w. string_bytes w) words.now) r
        → HaveContents (F.recorded files.old) r contents
        → EndsReplay in_turn.IsReplay result contents (O.taken out.old) (O.taken out.new) }
    ensures loads { (r : ReplayWords) → IsReplayWords (map (λ w. string_bytes w) words.now) r
        → LoadsInputs (F.recorded files.old) r (F.loads files.old) (F.loads files.new) result }
    ensures counted { Counted result (F.faults files.old) (F.faults files.new)
        (O.faults out.old) (O.faults out.new) }
    ensures silent { Silent result (O.taken out.old) (O.taken out.new) }
    ensures kept { F.recorded files.new ≡ F.recorded files.old }
{
    match read_replay(alloc, words) {
        Ok(request) => run_requested_in_turn(alloc, &request, files, out),
        Err(WordsFault::BadWords) => Status::BadWords,
        Err(WordsFault::Memory) => Status::Memory,
    }
}
