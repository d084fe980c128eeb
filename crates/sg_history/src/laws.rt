//! What holds of journals, books and boards. The calls do nothing.

ghost use Rattle.std.specs.Prelude.{◌≡◌, ◌⊎◌, ◌≤◌, ◌∷◌, List, ℕ, length, Some, None};
ghost use Rattle.sg_names.specs.declared.rev_id.RevId.{RevId};
ghost use Rattle.sg_history.specs.declared.book.Waiting.{Waiting};
ghost use Rattle.sg_history.specs.declared.entries.Entry.{Entry};
ghost use Rattle.sg_history.specs.declared.fault.BadLine.{BadLine};
ghost use Rattle.sg_history.specs.BadLine.{IsBadJournal};
ghost use Rattle.sg_history.specs.Board.{BoardState, After};
ghost use Rattle.sg_history.specs.Book.{Book, SequencedSync, book_of, book_with, Later, IsLastSync, IsLastWrite, last_sync_up_to, last_write_up_to, syncs_up_to, write_of_rev_up_to, writes_up_to};
ghost use Rattle.sg_history.specs.Current.{Sequenced, current, effects_of, effects_or, last_write, mark_by, marked_by, recorded_effects, write_of_rev, writes_to};
ghost use Rattle.sg_history.specs.History.{History, Extends, past, write_to};
ghost use Rattle.sg_history.specs.Journal.{IsEntry, line_of, Spells};

/// A line is that of one entry.
pub fn lines()
    ensures { (e f : Entry) → IsEntry e → IsEntry f → line_of e ≡ line_of f → e ≡ f }
{}

/// A text is that of one history.
pub fn journals()
    ensures { (bytes : List ℕ) (g h : History) → Spells bytes g → Spells bytes h → g ≡ h }
{}

/// A text has one first bad line at most, and none where it is a journal. Each text is a journal or has one.
pub fn bad_lines()
    ensures one { (bytes : List ℕ) (a b : BadLine) → IsBadJournal bytes a → IsBadJournal bytes b
        → a ≡ b }
    ensures apart { (bytes : List ℕ) (bad : BadLine) → IsBadJournal bytes bad → (h : History)
        → ¬ (Spells bytes h) }
    ensures either { (bytes : List ℕ) → ((h : History) × Spells bytes h)
        ⊎ ((bad : BadLine) × IsBadJournal bytes bad) }
{}

/// Books and histories that are later than others. A history that extends another is later; and a history whose book is later than
/// that of a log, with what waits or without, extends the log, so that all that is said of a front of the log is said of
/// that history too.
pub fn later()
    ensures itself { (book : Book) → Later book book }
    ensures again { (a b c : Book) → Later a b → Later b c → Later a c }
    ensures extended { (g h : List Entry) → Extends g h → Later (book_of g) (book_of h) }
    ensures log { (log : List Entry) (waiting : List Waiting) (h : List Entry)
        → Later (book_with log waiting) (book_of h) → Extends log h }
    ensures fronts { (log h : List Entry) (front : ℕ) → Extends log h → front ≤ length log
        → past h front ≡ past log front }
{}

/// The writes of a document in later books: up to the number of the last write that the earlier book has, they are the same, and
/// that write is the last of them.
pub fn writes()
    ensures same { (earlier later : Book) (doc : List ℕ) (last : Sequenced) (number : ℕ)
        → Later earlier later → IsLastWrite earlier doc last → number ≤ last.seq
        → writes_up_to later number doc ≡ writes_up_to earlier number doc }
    ensures last { (earlier later : Book) (doc : List ℕ) (last : Sequenced) → Later earlier later
        → IsLastWrite earlier doc last → last_write_up_to later last.seq doc ≡ Some last }
{}

/// The book of a history up to a number says of a document's writes what the entries up to that number say.
pub fn books()
    ensures writes { (h : List Entry) (number : ℕ) (doc : List ℕ)
        → writes_up_to (book_of h) number doc ≡ writes_to (past h number) doc }
    ensures last { (h : List Entry) (number : ℕ) (doc : List ℕ)
        → last_write_up_to (book_of h) number doc ≡ last_write (past h number) doc }
    ensures is_last { (h : List Entry) (doc : List ℕ) (last : Sequenced)
        → last_write_up_to (book_of h) (length h) doc ≡ Some last
        → IsLastWrite (book_of h) doc last }
    ensures of_rev { (h : List Entry) (number : ℕ) (doc : List ℕ) (rev : RevId)
        → write_of_rev_up_to (book_of h) number doc rev ≡ write_of_rev (past h number) doc rev }
{}

/// The replacements of the sync function in later books: up to the number of the last one that the earlier book has, they are the
/// same, and that one is the last of them.
pub fn syncs()
    ensures same { (earlier later : Book) (last : SequencedSync) (number : ℕ) → Later earlier later
        → IsLastSync earlier last → number ≤ last.seq
        → syncs_up_to later number ≡ syncs_up_to earlier number }
    ensures last { (earlier later : Book) (last : SequencedSync) → Later earlier later
        → IsLastSync earlier last → last_sync_up_to later last.seq ≡ Some last }
{}

/// What one entry more makes of current states and of effects. Where it does not write a document, the document stays as it was, but
/// that it has the effects that the entry's mark of its winner gives, where there is one. So it is with the effects of each write
/// that was there; a write that is the last entry has its own.
pub fn currents()
    ensures unwritten { (e : Entry) (older : List Entry) (doc : List ℕ) → write_to e doc ≡ None
        → current (e ∷ older) doc ≡ marked_by e doc (current older doc) }
    ensures effects { (e : Entry) (older : List Entry) (w : Sequenced) → w.seq ≤ length older
        → effects_of (e ∷ older) w
        ≡ effects_or (mark_by e w.write.doc w.write.rev) (effects_of older w) }
    ensures own { (es : List Entry) (w : Sequenced) → length es ≤ w.seq
        → effects_of es w ≡ recorded_effects w.write }
{}

/// Each board comes after itself, and after all that the boards before it come after.
pub fn boards()
    ensures itself { (board : BoardState) → After board board }
    ensures again { (a b c : BoardState) → After a b → After b c → After a c }
{}
