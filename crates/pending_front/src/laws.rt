//! What holds of a world of sequences, and of an entry that is stored in it. The calls do nothing.

ghost use Rattle.std.specs.Prelude.{◌≡◌, ◌+◌, ℕ, List, length, Some, None, IsTrue, nat_eq, if◌then◌else◌};
ghost use Rattle.sg_history.specs.declared.entries.Entry.{Entry};
ghost use Rattle.sg_history.specs.declared.book.Waiting.{Waiting};
ghost use Rattle.sg_history.specs.Book.{IsAbove, Later, book_with, waiting_at};
ghost use Rattle.sg_history.specs.History.{Extends};
ghost use Rattle.sg_history.specs.World.{World, Step, IsSound, IsHeld, MayStep, put_waiting, release, rises_from, world_book, world_after};
ghost use Rattle.pending_front.specs.Pending.{AreBeyond};
ghost use Rattle.pending_front.specs.Runs.{world_of, world_after_all, MayRun};
ghost use Rattle.pending_front.specs.Storing.{MayStore};

use sg_history::laws::later;

/// The world of a log is sound, and so is each world after a list of steps, each of which may be made where it stands in the
/// list. Its log extends the first one, and its book is later; each single step leads to a later book. The number next to the
/// log's end is none under which an entry waits. A held number may be stored at: `Pending::put` and then `Pending::release` do so.
pub fn world()
    ensures start { (log : List Entry) → IsSound (world_of log) }
    ensures sound { (world : World) (steps : List Step) → IsSound world → MayRun world steps
        → IsSound (world_after_all world steps) }
    ensures log { (world : World) (steps : List Step) → IsSound world → MayRun world steps
        → Extends world.log (world_after_all world steps).log }
    ensures later { (world : World) (steps : List Step) → IsSound world → MayRun world steps
        → Later (world_book world) (world_book (world_after_all world steps)) }
    ensures step { (world : World) (step : Step) → IsSound world → MayStep world step
        → Later (world_book world) (world_book (world_after world step)) }
    ensures next { (world : World) → IsSound world
        → waiting_at world.pending (length world.log + 1) ≡ None }
    ensures held { (world : World) (number : ℕ) → IsSound world → IsHeld world number
        → MayStore world.log world.pending number }
{
    later();
}

/// An entry that is put where it may be stored: none waited there, no waiting entry then stands at a place of the log, the
/// book has this entry besides, and it is later where the entry stands above those to which it is tied. The numbers of
/// waiting entries rise then as before, and, once those that come next are moved to the log, above the place next to its end.
pub fn storing()
    ensures free { (log : List Entry) (waiting : List Waiting) (number : ℕ)
        → MayStore log waiting number → waiting_at waiting number ≡ None }
    ensures beyond { (log : List Entry) (waiting : List Waiting) (number : ℕ) (e : Entry)
        → MayStore log waiting number → AreBeyond log waiting
        → AreBeyond log (put_waiting (record { number = number; entry = e }) waiting) }
    ensures book { (log : List Entry) (waiting : List Waiting) (number : ℕ) (e : Entry) (other : ℕ)
        → MayStore log waiting number
        → book_with log (put_waiting (record { number = number; entry = e }) waiting) other
        ≡ (if nat_eq number other then Some e else book_with log waiting other) }
    ensures later { (log : List Entry) (waiting : List Waiting) (number : ℕ) (e : Entry)
        → MayStore log waiting number → IsAbove (book_with log waiting) number e
        → Later (book_with log waiting)
        (book_with log (put_waiting (record { number = number; entry = e }) waiting)) }
    ensures rises { (log : List Entry) (waiting : List Waiting) (number : ℕ) (e : Entry)
        → MayStore log waiting number → IsTrue (rises_from (length log) waiting)
        → IsTrue (rises_from (length log)
        (put_waiting (record { number = number; entry = e }) waiting)) }
    ensures released { (log : List Entry) (waiting : List Waiting)
        → IsTrue (rises_from (length log) waiting)
        → IsTrue (rises_from (length (release log waiting).log + 1)
        (release log waiting).pending) }
{}
