//! What holds of marks in histories. The calls do nothing.

ghost use Rattle.std.specs.Prelude.{◌≡◌, ◌≤◌, ◌<◌, List, length, Some, IsSome};
ghost use Rattle.sg_history.specs.declared.entries.Entry.{Entry};
ghost use Rattle.sg_history.specs.Current.{Sequenced, effects_of};
ghost use Rattle.log_index.specs.declared.marks.Marked.{Marked};
ghost use Rattle.log_index.specs.Marks.{effects_by, mark_at, marked_after};

/// The last mark of a revision after its write: the revision's effects are those of that mark, or of its write where there is
/// none. It stands in an entry after the write.
pub fn marks()
    ensures effects { (es : List Entry) (w : Sequenced)
        → effects_of es w ≡ effects_by es (marked_after es w) w.write }
    ensures there { (es : List Entry) (w : Sequenced) (m : Marked) → marked_after es w ≡ Some m
        → IsSome (mark_at es m) }
    ensures after { (es : List Entry) (w : Sequenced) (m : Marked) → marked_after es w ≡ Some m
        → w.seq < m.sync }
    ensures within { (es : List Entry) (w : Sequenced) (m : Marked) → marked_after es w ≡ Some m
        → m.sync ≤ length es }
{}
