//! Laws of trees: what holds of them by the definitions alone.

ghost use Rattle.std.specs.Prelude.{◌≡◌, ◌≢◌, ◌≤◌, ◌&&◌, ◌||◌, not, ℕ, List, Some, None, ◌↔◌, [], IsTrue};
ghost use Rattle.std.specs.List.{list_any};
ghost use Rattle.std.specs.List.Sorted.{IsPermutation};
ghost use Rattle.sg_names.specs.declared.rev_id.RevId.{RevId};
ghost use Rattle.sg_names.specs.RevId.{same_rev};
ghost use Rattle.sg_history.specs.declared.entries.Entry.{Entry};
ghost use Rattle.sg_history.specs.Book.{Book, book_of, Later, IsLastWrite};
ghost use Rattle.sg_history.specs.Current.{Sequenced};
ghost use Rattle.sg_history.specs.History.{past};
ghost use Rattle.rev_tree.specs.declared.leaf.Leaf.{Leaf};
ghost use Rattle.rev_tree.specs.declared.tree.Node.{Node};
ghost use Rattle.rev_tree.specs.Order as order;
ghost use Rattle.rev_tree.specs.Tree as trees;
ghost use Rattle.rev_tree.specs.Documents.{writes_in, tree_in, last_in, base_in, writes_of, tree_at, last_at, base_write};
ghost use Rattle.rev_tree.specs.Extension.{Recorded, with_write};
ghost use Rattle.rev_tree.specs.Writes as writes;

/// The tree that a list of accepted extensions makes, one after another, has the revisions of their
/// lists, the pairs that stand next to each other there, so that each revision has one parent at most, the
/// leaves that these pairs leave, and their winner.
pub fn trees_of_writes()
    ensures revisions { (ws : List Recorded) (rev : RevId) → writes.AreAccepted ws → trees.knows
        (writes.tree_of ws) rev ≡ writes.rev_among (writes.revisions ws) rev }
    ensures pairs { (ws : List Recorded) (rev parent : RevId) → writes.AreAccepted ws
        → trees.has_pair (writes.tree_of ws) rev parent ≡ writes.has_pair_in ws rev parent }
    ensures parents { (ws : List Recorded) (rev parent : RevId) → writes.AreAccepted ws →
        ((trees.parent_of (writes.tree_of ws) rev ≡ Some parent) ↔ IsTrue
        (writes.has_pair_in ws rev parent)) }
    ensures leaves { (ws : List Recorded) → writes.AreAccepted ws → IsPermutation (trees.leaves_of
        (writes.tree_of ws)) (writes.leaves_in ws) }
    ensures winner { (ws : List Recorded) → writes.AreAccepted ws → trees.winner_of
        (writes.tree_of ws) ≡ writes.winner_in ws }
{}

/// The winner is a leaf before which none comes, and no other leaf is.
pub fn winners()
    ensures first { (tree : List Node) (winner : Leaf) → trees.winner_of tree ≡ Some winner
        → order.IsFirst (trees.leaves_of tree) winner }
    ensures alone { (tree : List Node) (winner other : Leaf) → trees.winner_of tree ≡ Some winner
        → order.IsFirst (trees.leaves_of tree) other → other ≡ winner }
{}

/// The leaves are the revisions that are no parent. In order they are the same leaves, by falling
/// generation, then by falling digest.
pub fn leaves()
    ensures no_parents { (tree : List Node) (rev : RevId) → list_any (λ l. same_rev l.rev rev)
        (trees.leaves_of tree) ≡ (trees.knows tree rev && not (trees.is_parent tree rev)) }
    ensures same { (ls : List Leaf) → IsPermutation ls (order.in_order ls) }
    ensures falling { (ls : List Leaf) → IsTrue (order.falls_by_rev (order.in_order ls)) }
{}

/// After an accepted extension the tree knows what it knew, the revision, and the ancestors kept; with a
/// write it is not empty.
pub fn extensions()
    ensures known { (tree : List Node) (w : Recorded) (rev : RevId)
        → IsTrue (writes.is_accepted tree w) → trees.knows (with_write tree w) rev
        ≡ (writes.rev_among (writes.path_of w) rev || trees.knows tree rev) }
    ensures some { (tree : List Node) (w : Recorded) → with_write tree w ≢ [] }
{}

/// The tree of a document, up to the number of the last write that a book has of it, is the same in each later book, and so are that
/// last write and the write on which a revision is based.
pub fn later_books()
    ensures trees { (earlier later : Book) (doc : List ℕ) (last : Sequenced) (number : ℕ)
        → Later earlier later → IsLastWrite earlier doc last → number ≤ last.seq
        → tree_in later number doc ≡ tree_in earlier number doc }
    ensures last { (earlier later : Book) (doc : List ℕ) (last : Sequenced) → Later earlier later
        → IsLastWrite earlier doc last → last_in later last.seq doc ≡ last.seq }
    ensures based { (earlier later : Book) (doc : List ℕ) (last : Sequenced)
        (ancestors : List RevId)
        → Later earlier later → IsLastWrite earlier doc last
        → base_in later last.seq doc ancestors ≡ base_in earlier last.seq doc ancestors }
{
    sg_history::laws::writes();
}

/// The book of a history says of a document, up to a number, what the entries up to that number say.
pub fn histories()
    ensures writes { (h : List Entry) (number : ℕ) (doc : List ℕ)
        → writes_in (book_of h) number doc ≡ writes_of (past h number) doc }
    ensures trees { (h : List Entry) (number : ℕ) (doc : List ℕ)
        → tree_in (book_of h) number doc ≡ tree_at (past h number) doc }
    ensures last { (h : List Entry) (number : ℕ) (doc : List ℕ)
        → last_in (book_of h) number doc ≡ last_at (past h number) doc }
    ensures based { (h : List Entry) (number : ℕ) (doc : List ℕ) (ancestors : List RevId)
        → base_in (book_of h) number doc ancestors ≡ base_write (past h number) doc ancestors }
{
    sg_history::laws::books();
}
