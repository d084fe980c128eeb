//! The commands, by their words.

ghost use Rattle.std.specs.Prelude.{◌≡◌, ℕ, List, map, string_bytes};
ghost use Rattle.replay_command.specs.Inputs.{Contents, HaveContents, LoadsInputs};
ghost use Rattle.replay_command.specs.Replays.{EndsReplay};
ghost use Rattle.gateway_app.specs.Serves.{CountedAll, EndsServe, LoadsConfig};
ghost use Rattle.command_line.specs.FeedWords.{FeedWords, IsFeedWords};
ghost use Rattle.feed_command.specs.FeedLoads.{LoadsJournal};
ghost use Rattle.command_line.specs.ReplayWords.{IsReplayWords, ReplayWords};
ghost use Rattle.command_line.specs.ServeWords.{IsServeWords};
ghost use Rattle.command_line.specs.Run.{Counted, EndsAbsent, HasFile, HasNoFile, IsRefusal, Silent};
ghost use Rattle.feed_command.specs.Run.{Ends};
ghost use Rattle.replay.specs.Replay.{IsReplay};

use crate::serve_command::run_serve;
use command_line::{Status, WordsFault, read_replay, read_serve};
use replay_command::run_replay;
use sg_lines::Door;
use sg_outside::{Files, Sink};
use std::alloc::Global;
use std::sync::Wait;
use std::thread::Threads;

/// Runs `feed` or `replay`, by the words.
fn run_on_files<R: Threads + Wait + Sync, F: Files, O: Sink>(
    rt: &R,
    alloc: Global,
    words: &[String],
    files: &mut F,
    out: &mut O,
) -> Status
    ensures words { result ≡ Status.BadWords
        → ((f : FeedWords) → ¬ IsFeedWords (map (λ w. string_bytes w) words.now) f)
        × ((r : ReplayWords) → ¬ IsReplayWords (map (λ w. string_bytes w) words.now) r) }
    ensures outside { ((f : FeedWords) → ¬ IsFeedWords (map (λ w. string_bytes w) words.now) f)
        → ((r : ReplayWords) → ¬ IsReplayWords (map (λ w. string_bytes w) words.now) r)
        → IsRefusal result × (files.new ≡ files.old) × (out.new ≡ out.old) }
    ensures untouched { result ≡ Status.BadWords → (files.new ≡ files.old) × (out.new ≡ out.old) }
    ensures ends { (f : FeedWords) (bytes : List ℕ)
        → IsFeedWords (map (λ w. string_bytes w) words.now) f
        → HasFile (F.recorded files.old) f.journal bytes
        → Ends result f bytes (O.taken out.old) (O.taken out.new) }
    ensures replays { (r : ReplayWords) (contents : Contents)
        → IsReplayWords (map (λ w. string_bytes w) words.now) r
        → HaveContents (F.recorded files.old) r contents
        → EndsReplay IsReplay result contents (O.taken out.old) (O.taken out.new) }
    ensures absent { (f : FeedWords) → IsFeedWords (map (λ w. string_bytes w) words.now) f
        → HasNoFile (F.recorded files.old) f.journal → EndsAbsent result }
    ensures feed_loads { (f : FeedWords) → IsFeedWords (map (λ w. string_bytes w) words.now) f
        → LoadsJournal (F.recorded files.old) f.journal (F.loads files.old) (F.loads files.new)
        result }
    ensures replay_loads { (r : ReplayWords)
        → IsReplayWords (map (λ w. string_bytes w) words.now) r
        → LoadsInputs (F.recorded files.old) r (F.loads files.old) (F.loads files.new) result }
    ensures counted { Counted result (F.faults files.old) (F.faults files.new)
        (O.faults out.old) (O.faults out.new) }
    ensures silent { Silent result (O.taken out.old) (O.taken out.new) }
    ensures kept { F.recorded files.new ≡ F.recorded files.old }
{
    match read_replay(alloc, words) {
        Ok(request) => run_replay(rt, alloc, &request, files, out),
        Err(WordsFault::BadWords) => feed_command::run(alloc, words, files, out),
        Err(WordsFault::Memory) => Status::Memory,
    }
}

/// Runs a command: the words are those after the program's name. `replay` and `serve` run in threads, and may wait; `serve` waits for callers,
/// and for the last of their sessions. It prints nothing.
pub fn run<R: Threads + Wait + Sync, F: Files, D: Door, O: Sink>(
    rt: &R,
    alloc: Global,
    words: &[String],
    files: &mut F,
    door: &mut D,
    out: &mut O,
) -> Status
    ensures words { result ≡ Status.BadWords
        → ((f : FeedWords) → ¬ IsFeedWords (map (λ w. string_bytes w) words.now) f)
        × ((r : ReplayWords) → ¬ IsReplayWords (map (λ w. string_bytes w) words.now) r)
        × ((c : List ℕ) → ¬ IsServeWords (map (λ w. string_bytes w) words.now) c) }
    ensures outside { ((f : FeedWords) → ¬ IsFeedWords (map (λ w. string_bytes w) words.now) f)
        → ((r : ReplayWords) → ¬ IsReplayWords (map (λ w. string_bytes w) words.now) r)
        → ((c : List ℕ) → ¬ IsServeWords (map (λ w. string_bytes w) words.now) c)
        → IsRefusal result × (files.new ≡ files.old) × (out.new ≡ out.old) }
    ensures untouched { result ≡ Status.BadWords → (files.new ≡ files.old) × (out.new ≡ out.old) }
    ensures ends { (f : FeedWords) (bytes : List ℕ)
        → IsFeedWords (map (λ w. string_bytes w) words.now) f
        → HasFile (F.recorded files.old) f.journal bytes
        → Ends result f bytes (O.taken out.old) (O.taken out.new) }
    ensures replays { (r : ReplayWords) (contents : Contents)
        → IsReplayWords (map (λ w. string_bytes w) words.now) r
        → HaveContents (F.recorded files.old) r contents
        → EndsReplay IsReplay result contents (O.taken out.old) (O.taken out.new) }
    ensures serves { (c : List ℕ) (bytes : List ℕ)
        → IsServeWords (map (λ w. string_bytes w) words.now) c
        → HasFile (F.recorded files.old) c bytes
        → EndsServe D.Line.traced result bytes (D.recorded door.old) (D.recorded door.new) }
    ensures absent { (f : FeedWords) → IsFeedWords (map (λ w. string_bytes w) words.now) f
        → HasNoFile (F.recorded files.old) f.journal → EndsAbsent result }
    ensures feed_loads { (f : FeedWords) → IsFeedWords (map (λ w. string_bytes w) words.now) f
        → LoadsJournal (F.recorded files.old) f.journal (F.loads files.old) (F.loads files.new)
        result }
    ensures replay_loads { (r : ReplayWords)
        → IsReplayWords (map (λ w. string_bytes w) words.now) r
        → LoadsInputs (F.recorded files.old) r (F.loads files.old) (F.loads files.new) result }
    ensures serve_loads { (c : List ℕ) → IsServeWords (map (λ w. string_bytes w) words.now) c
        → LoadsConfig (F.recorded files.old) c (F.loads files.old) (F.loads files.new) result }
    ensures counted { CountedAll result (F.faults files.old) (F.faults files.new)
        (O.faults out.old) (O.faults out.new) (D.faults door.old) (D.faults door.new) }
    ensures silent { Silent result (O.taken out.old) (O.taken out.new) }

    // Only `serve` touches the door, and it prints nothing.
    ensures closed { ((c : List ℕ) → ¬ IsServeWords (map (λ w. string_bytes w) words.now) c)
        → door.new ≡ door.old }
    ensures quiet { (c : List ℕ) → IsServeWords (map (λ w. string_bytes w) words.now) c
        → out.new ≡ out.old }
    ensures kept { F.recorded files.new ≡ F.recorded files.old }
{
    match read_serve(alloc, words) {
        Ok(config) => run_serve(rt, alloc, config, files, door),
        Err(WordsFault::BadWords) => run_on_files(rt, alloc, words, files, out),
        Err(WordsFault::Memory) => Status::Memory,
    }
}
