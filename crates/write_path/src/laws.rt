//! Laws of reads. Each is the contract of a function that does nothing.

ghost use Rattle.std.specs.Prelude.{◌≡◌, ◌≤◌, ◌++◌, ℕ, List, length, Option};
ghost use Rattle.sg_history.specs.declared.book.Waiting.{Waiting};
ghost use Rattle.sg_history.specs.declared.entries.Entry.{Entry};
ghost use Rattle.repl_messages.specs.declared.revision.Revision.{Revision};
ghost use Rattle.sync_syntax.specs.declared.tree.Program.{Program};
ghost use Rattle.doc_board.specs.declared.outcome.Outcome.{Outcome};
ghost use Rattle.doc_board.specs.State.{State};
ghost use Rattle.seq_gate.specs.Passes.{Closes, joined_passes};
ghost use Rattle.seq_gate.specs.declared.known.Known.{Known};
ghost use Rattle.board_steps.specs.After.{IsBoardCommanded, IsBoardAfter};
ghost use Rattle.write_path.specs.Own.{own_in_order, own_after};
ghost use Rattle.sg_history.specs.History.{Extends};
ghost use Rattle.sg_history.specs.Board.{BoardState, board_book, IsAfterAll};
ghost use Rattle.sg_history.specs.Book.{Later, book_of};
ghost use Rattle.write_path.specs.Reads.{IsLaterThanAll, Reads, WasRead};

/// To read no further, or at first and then on, is to read; and a history that is later than all boards that were read since
/// is later than all that were read before.
pub fn reads()
    ensures reflexive { (read : List BoardState) (lowest : ℕ) → Reads read read lowest lowest }
    ensures transitive { (first second third : List BoardState) (low middle high : ℕ)
        → Reads first second low middle → Reads second third middle high
        → Reads first third low high }
    ensures before { (before after : List BoardState) (low high : ℕ) (h : List Entry)
        → Reads before after low high → IsLaterThanAll after h → IsLaterThanAll before h }
{}

/// What holds of each board that was read in between: it comes after all that were read before, the length of its log is between
/// the lowest fronts, and each history that is later than all that were read since is later than it and extends its log.
pub fn was_read()
    ensures before { (before after : List BoardState) (low high : ℕ) (b : BoardState)
        → Reads before after low high → WasRead before after b → IsAfterAll before b }
    ensures lowest { (before after : List BoardState) (low high : ℕ) (b : BoardState)
        → Reads before after low high → WasRead before after b → low ≤ length b.log }
    ensures front { (before after : List BoardState) (low high : ℕ) (b : BoardState)
        → Reads before after low high → WasRead before after b → length b.log ≤ high }
    ensures since { (before after : List BoardState) (b : BoardState) (h : List Entry)
        → WasRead before after b → IsLaterThanAll after h → Later (board_book b) (book_of h) }
    ensures extended { (before after : List BoardState) (b : BoardState) (h : List Entry)
        → WasRead before after b → IsLaterThanAll after h → Extends b.log h }
{
    sg_history::laws::later();
}

/// The log of a board with which a gate was closed is later than each board that the last pass has read; and a history that is later
/// than all that a joined pass has read is later than all that each of the two had read.
pub fn closing()
    ensures closed { (p : Known) (board : BoardState) → Closes p board
        → IsLaterThanAll p.read board.log }
    ensures joined { (p other : Known) (h : List Entry) → IsLaterThanAll (joined_passes p other).read h
        → IsLaterThanAll p.read h × IsLaterThanAll other.read h }
{}

/// A log that has, behind these entries, those that its one owner stored, in their order, has so after a proposal and after a command.
pub fn own_entries()
    ensures proposed { (opened : List Entry) (s t : State) (own : List Waiting) (program : Program)
        (by : Option (List ℕ)) (r : Revision) (answer : Outcome)
        → IsBoardAfter s t program by r answer → s.log ≡ opened ++ own_in_order own
        → t.log ≡ opened ++ own_in_order (own_after own t.log answer) }
    ensures commanded { (opened : List Entry) (s t : State) (own : List Waiting) (e : Entry)
        (answer : Outcome)
        → IsBoardCommanded s t e answer → s.log ≡ opened ++ own_in_order own
        → t.log ≡ opened ++ own_in_order (own_after own t.log answer) }
{}
