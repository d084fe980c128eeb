//! Laws of boards' logs. Each is the contract of a function that does nothing.

ghost use Rattle.std.specs.Prelude.{◌≡◌, ◌≢◌, ◌≤◌, ◌<◌, ◌+◌, ◌++◌, ◌∷◌, [], ℕ, Bool, false, length, reverse, List, Option, Some, None, IsTrue};
ghost use Rattle.checkpoint_store.specs.declared.answers.SetAnswer.{SetAnswer};
ghost use Rattle.checkpoint_store.specs.Answers.{Sets};
ghost use Rattle.sg_history.specs.declared.entries.Entry.{Entry};
ghost use Rattle.sg_history.specs.Board.{BoardState, After, board_book};
ghost use Rattle.sg_history.specs.Book.{Book, Later, book_of, write_at};
ghost use Rattle.sg_history.specs.Rooms.{without_room};
ghost use Rattle.sg_history.specs.declared.room.RoomFor.{RoomFor};
ghost use Rattle.pending_front.specs.Storing.{MayStore};
ghost use Rattle.sg_history.specs.World as step;
ghost use Rattle.sg_history.specs.World.{IsHeld, IsSound, MayStep, world_after, without_number};
ghost use Rattle.sg_history.specs.declared.entries.Entry.TheVariants as kinds;
ghost use Rattle.doc_board.specs.declared.candidate.Candidate.{Candidate};
ghost use Rattle.doc_board.specs.Rooms.{is_outstanding};
ghost use Rattle.doc_board.specs.Steps.{history_on, stored_at, swapped_to, with_entry, world_on};
ghost use Rattle.sg_history.specs.Journal.{IsRecord};
ghost use Rattle.sg_history.specs.declared.entries.Write.{Write};
ghost use Rattle.sg_names.specs.RevId.{is_rev};
ghost use Rattle.sg_names.specs.declared.rev_id.RevId.{RevId};
ghost use Rattle.rev_tree.specs.declared.tree.Node.{Node};
ghost use Rattle.rev_tree.specs.Documents.{tree_in, tree_when, last_at, base_in};
ghost use Rattle.rev_tree.specs.Extension.{extends_tree, verdict_of};
ghost use Rattle.rev_tree.specs.Writes.{AreAccepted};
ghost use Rattle.repl_messages.specs.declared.revision.Revision.{Revision};
ghost use Rattle.sync_syntax.specs.declared.tree.Program.{Program};
ghost use Rattle.sync_values.specs.Found.{Found};
ghost use Rattle.sync_meaning.specs.declared.effects.Effects.{Effects};
ghost use Rattle.doc_board.specs.Candidates.{ExtendsTree, Fits, MayBeStored, entry_of, is_stale};
ghost use Rattle.doc_board.specs.Lawful.{AreLawful, AreEntries};
ghost use Rattle.doc_board.specs.Boards.{board_of, board_last, board_tree};
ghost use Rattle.doc_board.specs.JudgedWrites.{IsJudgedWrite, IsNextWrite};
ghost use Rattle.doc_board.specs.Judging.{IsSaid, board_base};
ghost use Rattle.doc_board.specs.Offers.{nodes_or_none};
ghost use Rattle.doc_board.specs.Outcomes.{IsWriteOf};
ghost use Rattle.doc_board.specs.State.{State, book_on, writes_on, tree_on, last_on, base_on};

use rev_tree::laws::{later_books, trees_of_writes};

/// The entries of a journal are lawful.
pub fn recorded()
    ensures { (es : List Entry) → IsRecord es → AreLawful es }
{}

/// The winner that a write names is a revision in its grammar, where the write's own is one.
pub fn winners()
    ensures { (s : State) (w : Write) (after : List Node) → AreEntries (book_on s)
        → AreAccepted (writes_on s w.doc) → ExtendsTree (tree_on s w.doc) w after
        → IsTrue (is_rev w.rev) → IsTrue (is_rev w.winner) }
{
    trees_of_writes();
}

/// A revision that extends a tree has at most 1,000 ancestors.
pub fn few_ancestors()
    ensures { (tree : List Node) (rev : RevId) (ancestors : List RevId) (strict : Bool)
        → verdict_of tree rev ancestors strict ≡ extends_tree → length ancestors ≤ 1000 }
{}

/// A board as plain data says of a document what its book says: its last write, its tree, which has no
/// revisions where the document was never written, and the write on which a revision is based.
pub fn boards()
    ensures last { (s : State) (doc : List ℕ) → board_last (board_of s) doc ≡ last_on s doc }
    ensures trees { (s : State) (doc : List ℕ) → board_tree (board_of s) doc ≡ tree_on s doc }
    ensures bases { (s : State) (doc : List ℕ) (ancestors : List RevId)
        → board_base (board_of s) doc ancestors ≡ base_on s doc ancestors }
    ensures written { (s : State) (doc : List ℕ)
        → board_tree (board_of s) doc ≡ nodes_or_none (tree_when (writes_on s doc)) }
{}

/// Each book that is later than a board's says of a document, up to the number of its last write there, what the board says:
/// its tree, and the write on which a revision is based;
/// and that number is no less than the sequence of the document's last write in the board's log.
pub fn later_boards()
    ensures trees { (board : BoardState) (later : Book) (doc : List ℕ)
        → Later (board_book board) later
        → tree_in later (board_last board doc) doc ≡ board_tree board doc }
    ensures bases { (board : BoardState) (later : Book) (doc : List ℕ) (ancestors : List RevId)
        → Later (board_book board) later
        → base_in later (board_last board doc) doc ancestors ≡ board_base board doc ancestors }
    ensures least { (board : BoardState) (doc : List ℕ)
        → last_at (reverse board.log) doc ≤ board_last board doc }
{
    later_books();
    sg_history::laws::books();
}

/// No write of a document stands in a board's book above the number of the document's last one.
pub fn last_writes()
    ensures { (board : BoardState) (doc : List ℕ) (number : ℕ) → board_last board doc < number
        → write_at (board_book board) doc number ≡ None }
{}

/// The write of a revision that was judged by a board is a judged write of the book in which it stands next among those of its
/// document; and a judged write of a book is one of each later book.
pub fn judged_writes()
    ensures next { (program : Program) (by : Option (List ℕ)) (r : Revision) (judged : BoardState)
        (book : Book) (sequence : ℕ) (w : Write) → IsWriteOf program by r judged w
        → IsNextWrite judged book sequence w → IsJudgedWrite program book sequence w }
    ensures later { (program : Program) (earlier later : Book) (sequence : ℕ) (w : Write)
        → Later earlier later → earlier sequence ≡ Some (kinds.Write w)
        → IsJudgedWrite program earlier sequence w → IsJudgedWrite program later sequence w }
{}

/// What the calls of a board leave comes after what they found, with any entries that wait and any rooms that are outstanding: a look,
/// a room, a set of a checkpoint, a commit, a swap, and a number that is given up. What `Board::log` says of a board's entries is
/// given for a commit and a swap.
pub fn after()
    ensures looked { (s t : State) → t.log ≡ s.log → t.pending ≡ s.pending → t.rooms ≡ s.rooms
        → t.checkpoints ≡ s.checkpoints → board_of t ≡ board_of s }
    ensures room { (s t : State) (room : RoomFor) → t.log ≡ s.log → t.pending ≡ s.pending
        → t.rooms ≡ s.rooms ++ room ∷ [] → t.checkpoints ≡ s.checkpoints
        → room.bytes ≤ 20971520 → After (board_of s) (board_of t) }
    ensures set { (s t : State) (text : List ℕ) (rev : ℕ) (body : List ℕ) (answer : SetAnswer)
        → t.log ≡ s.log → t.pending ≡ s.pending → t.rooms ≡ s.rooms
        → Sets s.checkpoints text rev body answer t.checkpoints
        → After (board_of s) (board_of t) }
    ensures commit { (s t : State) (room : RoomFor) (number : ℕ) (c : Candidate)
        → MayStore s.log s.pending number → IsTrue (is_outstanding s.rooms room) → Fits room c
        → MayBeStored s number c → is_stale s c ≡ false → AreEntries (book_on s)
        → history_on t ≡ stored_at s number (entry_of c)
        → book_on t ≡ with_entry number (entry_of c) (book_on s)
        → t.rooms ≡ without_room room s.rooms → t.checkpoints ≡ s.checkpoints
        → After (board_of s) (board_of t) }
    ensures swap { (s t : State) (room : RoomFor) (spent number : ℕ) (c : Candidate)
        → MayStore s.log s.pending spent → MayStore s.log s.pending number → spent ≢ number
        → IsTrue (is_outstanding s.rooms room) → Fits room c
        → MayBeStored s number c → is_stale s c ≡ false → AreEntries (book_on s)
        → history_on t ≡ swapped_to s spent number (entry_of c)
        → book_on t ≡ with_entry number (entry_of c)
        (with_entry spent kinds.Unused (book_on s))
        → t.rooms ≡ without_room room s.rooms → t.checkpoints ≡ s.checkpoints
        → After (board_of s) (board_of t) }
    ensures void { (s t : State) (room : RoomFor) (number : ℕ)
        → MayStore s.log s.pending number → IsTrue (is_outstanding s.rooms room)
        → history_on t ≡ stored_at s number kinds.Unused
        → book_on t ≡ with_entry number kinds.Unused (book_on s)
        → t.rooms ≡ without_room room s.rooms → t.checkpoints ≡ s.checkpoints
        → After (board_of s) (board_of t) }
{
    checkpoint_store::laws::sets();
    sg_history::laws::later();
}

/// What a program says of a revision by a board is one verdict: the document, the one before it, and who proposes it with
/// the roles and channels are each determined.
pub fn verdicts()
    ensures { (program : Program) (by : Option (List ℕ)) (r : Revision) (board : BoardState)
        (first second : Found Effects)
        → IsSaid program by r board first → IsSaid program by r board second → first ≡ second }
{}

/// Where nothing waits at a board, the number next to its log's end may be stored at, and is above the last write of each document; an
/// entry that is stored there is the log's next one, and nothing waits then; and the board's book is that of its log.
pub fn alone()
    ensures next { (s : State) → s.pending ≡ [] → MayStore s.log s.pending (length s.log + 1) }
    ensures above { (s : State) (doc : List ℕ) → s.pending ≡ []
        → last_on s doc < length s.log + 1 }
    ensures stored { (s : State) (number : ℕ) (e : Entry) → s.pending ≡ []
        → number ≡ length s.log + 1
        → stored_at s number e ≡ record { log = s.log ++ e ∷ []; pending = [] } }
    ensures book { (s : State) → s.pending ≡ [] → book_on s ≡ book_of s.log }
{}

/// That a candidate which is not stale is stored at a held number, that a held number is given up, and that both are done at once, are
/// steps of the world of a board and the numbers that are held, and may be made there. A held number may be stored at.
pub fn steps()
    ensures stored { (s now : State) (count number : ℕ) (held : List ℕ) (e : Entry)
        → history_on now ≡ stored_at s number e
        → world_after (world_on s count held) (step.store number e)
        ≡ world_on now count (without_number number held) }
    ensures swapped { (s now : State) (count spent number : ℕ) (held : List ℕ) (e : Entry)
        → history_on now ≡ swapped_to s spent number e
        → world_after (world_on s count held) (step.swap spent number e)
        ≡ world_on now count (without_number number (without_number spent held)) }
    ensures store { (s : State) (count number : ℕ) (held : List ℕ) (c : Candidate)
        → IsHeld (world_on s count held) number → MayBeStored s number c
        → is_stale s c ≡ false → AreEntries (book_on s)
        → MayStep (world_on s count held) (step.store number (entry_of c)) }
    ensures give_up { (s : State) (count number : ℕ) (held : List ℕ)
        → IsHeld (world_on s count held) number
        → MayStep (world_on s count held) (step.store number kinds.Unused) }
    ensures swap { (s : State) (count spent number : ℕ) (held : List ℕ) (c : Candidate)
        → IsHeld (world_on s count held) spent → IsHeld (world_on s count held) number
        → spent ≢ number → MayBeStored s number c → is_stale s c ≡ false
        → AreEntries (book_on s)
        → MayStep (world_on s count held) (step.swap spent number (entry_of c)) }
    ensures held { (s : State) (count : ℕ) (held : List ℕ) (number : ℕ)
        → IsSound (world_on s count held) → IsHeld (world_on s count held) number
        → MayStore s.log s.pending number }
{
    pending_front::laws::world();
}
