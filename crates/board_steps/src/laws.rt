//! Laws of what a board answers. Each is the contract of a function that does nothing.

ghost use Rattle.std.specs.Prelude.{◌≡◌, ◌≤◌, ℕ, List, length, IsTrue, Option, Some, None};
ghost use Rattle.sg_names.specs.declared.key.Key.{Key};
ghost use Rattle.sg_names.specs.declared.rev_id.RevId.{RevId};
ghost use Rattle.sg_history.specs.declared.entries.Entry.{Entry};
ghost use Rattle.sg_history.specs.declared.entries.Write.{Write};
ghost use Rattle.sg_history.specs.declared.row.Options.{Options};
ghost use Rattle.sg_history.specs.declared.row.Row.{Row};
ghost use Rattle.rev_tree.specs.declared.tree.Node.{Node};
ghost use Rattle.rev_tree.specs.Tree.{ancestors_of};
ghost use Rattle.sg_history.specs.Current.{Current, Sequenced, current, current_by};
ghost use Rattle.sg_history.specs.View.{view, is_shown};
ghost use Rattle.sg_history.specs.Feed.{changed};
ghost use Rattle.repl_messages.specs.declared.looks.Body.TheVariants as answer;
ghost use Rattle.repl_messages.specs.declared.looks.Bodies.{Bodies};
ghost use Rattle.repl_messages.specs.declared.looks.Fed.{Fed};
ghost use Rattle.repl_messages.specs.Looks.{IsFed, AreBodies, winning_write, said_by, left_by_write, body_of};
ghost use Rattle.board_steps.specs.Feed.{FeedAt};
ghost use Rattle.board_steps.specs.Bodies.{BodiesAt};
ghost use Rattle.sg_history.specs.History.{Extends};
ghost use Rattle.sg_history.specs.Board.{BoardState, board_book};
ghost use Rattle.sg_history.specs.Book.{Later, book_of};

/// A history extends itself, and all that one extends which it extends; what a feed was answered of a history is said of
/// each that extends it, and what bodies were answered by a board of each history that is later.
pub fn later()
    ensures reflexive { (h : List Entry) → Extends h h }
    ensures transitive { (first second third : List Entry) → Extends first second
        → Extends second third → Extends first third }
    ensures feed { (earlier later : List Entry) (user : List ℕ) (since : Key) (options : Options)
        (fed : Fed)
        → Extends earlier later → FeedAt earlier user since options fed
        → IsFed later user since options fed }
    ensures bodies { (board : BoardState) (later : List Entry) (user : List ℕ)
        (options : Options) (rows : List Row) (most : ℕ) (bodies : Bodies)
        → Later (board_book board) (book_of later)
        → BodiesAt board user options rows most bodies
        → AreBodies later user options rows most bodies }
{
    sg_history::laws::later();
    doc_board::laws::later_boards();
}

/// A body is answered exactly for a row that says what is shown to the user, which is of a document of which the user
/// has a channel; and it is the body of the current revision's write, with that revision's first ancestors in the
/// document's tree.
pub fn no_foreign_body()
    ensures shown { (es : List Entry) (trees : List ℕ → List Node) (user : List ℕ)
        (filter : Option (List (List ℕ))) (most : ℕ) (row : Row) (ancestors : List RevId)
        (bytes : List ℕ)
        → body_of es trees user filter most row ≡ answer.Rev ancestors bytes
        → view es user filter row.doc ≡ Some (said_by row) }
    ensures granted { (es : List Entry) (trees : List ℕ → List Node) (user : List ℕ)
        (filter : Option (List (List ℕ))) (most : ℕ) (row : Row) (ancestors : List RevId)
        (bytes : List ℕ)
        → body_of es trees user filter most row ≡ answer.Rev ancestors bytes
        → (c : Current) × (current es row.doc ≡ Some c) × IsTrue (is_shown es user filter c) }
    ensures winner { (es : List Entry) (trees : List ℕ → List Node) (user : List ℕ)
        (filter : Option (List (List ℕ))) (most : ℕ) (row : Row) (ancestors : List RevId)
        (bytes : List ℕ)
        → body_of es trees user filter most row ≡ answer.Rev ancestors bytes
        → (w : Write) × (winning_write es row.doc ≡ Some w) × (w.doc ≡ row.doc)
        × (w.rev ≡ row.rev) × (ancestors ≡ ancestors_of (trees row.doc) w.rev most)
        × (bytes ≡ w.body) }
    ensures all { (es : List Entry) (trees : List ℕ → List Node) (user : List ℕ)
        (filter : Option (List (List ℕ))) (most : ℕ) (row : Row)
        → view es user filter row.doc ≡ Some (said_by row)
        → (w : Write) × (winning_write es row.doc ≡ Some w)
        × (body_of es trees user filter most row
        ≡ answer.Rev (ancestors_of (trees row.doc) w.rev most) w.body) }
    ensures current { (es : List Entry) (doc : List ℕ) (c : Current) → current es doc ≡ Some c
        → (winning : Sequenced) × (winning_write es doc ≡ Some winning.write)
        × (c ≡ current_by es c.seq winning) }
{}

/// A removal is answered exactly for a row that says that its document left by a write of its own, where nothing is
/// shown of the document and its last change is the row's, which is not at 0.
pub fn removals()
    ensures gone { (es : List Entry) (trees : List ℕ → List Node) (user : List ℕ)
        (filter : Option (List (List ℕ))) (most : ℕ) (row : Row)
        → body_of es trees user filter most row ≡ answer.Removed
        → IsTrue (left_by_write row.bits) × (view es user filter row.doc ≡ None)
        × (length (changed es user filter row.doc) ≡ row.key.by) }
    ensures change { (es : List Entry) (trees : List ℕ → List Node) (user : List ℕ)
        (filter : Option (List (List ℕ))) (most : ℕ) (row : Row)
        → body_of es trees user filter most row ≡ answer.Removed → 1 ≤ row.key.by }
    ensures all { (es : List Entry) (trees : List ℕ → List Node) (user : List ℕ)
        (filter : Option (List (List ℕ))) (most : ℕ) (row : Row)
        → IsTrue (left_by_write row.bits) → view es user filter row.doc ≡ None
        → length (changed es user filter row.doc) ≡ row.key.by
        → 1 ≤ row.key.by
        → body_of es trees user filter most row ≡ answer.Removed }
{}
