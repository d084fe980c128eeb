//! The command by its words.

ghost use Rattle.std.specs.Prelude.{◌≡◌, ℕ, List, map, string_bytes};
ghost use Rattle.command_line.specs.Run.{Counted, EndsAbsent, HasFile, HasNoFile, IsRefusal, Silent};
ghost use Rattle.feed_command.specs.Run.{Ends};
ghost use Rattle.feed_command.specs.FeedLoads.{LoadsJournal};
ghost use Rattle.command_line.specs.FeedWords.{FeedWords, IsFeedWords};

use crate::feed::run_feed;
use command_line::{Status, WordsFault, read_feed};
use sg_outside::{Files, Sink};
use std::alloc::Global;

/// Runs `feed`: the words are those after the program's name.
pub fn run<F: Files, O: Sink>(alloc: Global, words: &[String], files: &mut F, out: &mut O) -> Status
    ensures words { result ≡ Status.BadWords
        → (f : FeedWords) → ¬ IsFeedWords (map (λ w. string_bytes w) words.now) f }
    ensures outside { ((f : FeedWords) → ¬ IsFeedWords (map (λ w. string_bytes w) words.now) f)
        → IsRefusal result × (files.new ≡ files.old) × (out.new ≡ out.old) }
    ensures untouched { result ≡ Status.BadWords → (files.new ≡ files.old) × (out.new ≡ out.old) }
    ensures ends { (f : FeedWords) (bytes : List ℕ)
        → IsFeedWords (map (λ w. string_bytes w) words.now) f
        → HasFile (F.recorded files.old) f.journal bytes
        → Ends result f bytes (O.taken out.old) (O.taken out.new) }
    ensures absent { (f : FeedWords) → IsFeedWords (map (λ w. string_bytes w) words.now) f
        → HasNoFile (F.recorded files.old) f.journal → EndsAbsent result }
    ensures loads { (f : FeedWords) → IsFeedWords (map (λ w. string_bytes w) words.now) f
        → LoadsJournal (F.recorded files.old) f.journal (F.loads files.old) (F.loads files.new)
        result }
    ensures counted { Counted result (F.faults files.old) (F.faults files.new)
        (O.faults out.old) (O.faults out.new) }
    ensures silent { Silent result (O.taken out.old) (O.taken out.new) }
    ensures kept { F.recorded files.new ≡ F.recorded files.old }
{
    match read_feed(alloc, words) {
        Ok(request) => run_feed(alloc, &request, files, out),
        Err(WordsFault::BadWords) => Status::BadWords,
        Err(WordsFault::Memory) => Status::Memory,
    }
}
