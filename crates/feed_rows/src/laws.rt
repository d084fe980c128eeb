//! Laws of the feed. Each is the contract of a function that does nothing.

ghost use Rattle.std.specs.Prelude.{◌≡◌, ◌⊎◌, ◌↔◌, ◌<◌, ◌≤◌, ◌++◌, ◌∷◌, [], ◌||◌, false, not, nat_eq, ℕ, List, length, IsTrue, Option, Some, None};
ghost use Rattle.sg_names.specs.declared.key.Key.{Key};
ghost use Rattle.sg_history.specs.declared.entries.Entry.{Entry};
ghost use Rattle.sg_history.specs.declared.row.Row.{Row};
ghost use Rattle.sg_history.specs.declared.row.Options.{Options};
ghost use Rattle.sg_history.specs.History.{past};
ghost use Rattle.sg_history.specs.Current.{current};
ghost use Rattle.sg_history.specs.Feed.{feed, row_of, is_gone};
ghost use Rattle.sg_history.specs.View.{view};
ghost use Rattle.sg_history.specs.Device.{held_after, shown_to, plain, DeviceTurn, IsRun, TakesAll, state_after, live};
ghost use Rattle.feed_rows.specs.Known.{from_on, known_from, renews, row_before, since_renewed};
ghost use Rattle.feed_rows.specs.Laws.{HasRow, IsAskedFor, IsBelow, Rising, all_of, WasSent, IsAhead};

use sg_history::laws::currents;

/// A feed has exactly the rows of documents that are asked for, and of each document at most one.
pub fn members()
    ensures exact { (es : List Entry) (user : List ℕ) (since : Key) (options : Options) (row : Row)
        → HasRow (feed es user since options) row ↔ IsAskedFor es user since options row }
    ensures one_each { (es : List Entry) (user : List ℕ) (since : Key) (options : Options)
        (row other : Row) → HasRow (feed es user since options) row → HasRow
        (feed es user since options) other → row.doc ≡ other.doc → row ≡ other }
{}

/// A row says what is shown of its document at the front: it is gone exactly where the document is not shown, and else it has the
/// winner and the deleted mark that are shown.
pub fn said()
    ensures gone { (es : List Entry) (user : List ℕ) (filter : Option (List (List ℕ)))
        (doc : List ℕ) (row : Row)
        → row_of es user filter doc ≡ Some row
        → IsTrue (is_gone row.bits) ↔ (view es user filter doc ≡ None) }
    ensures shown { (es : List Entry) (user : List ℕ) (filter : Option (List (List ℕ)))
        (doc : List ℕ) (row : Row)
        → row_of es user filter doc ≡ Some row → held_after row ≡ shown_to es user filter doc }
    ensures of_feed { (es : List Entry) (user : List ℕ) (since : Key) (options : Options)
        (row : Row)
        → HasRow (feed es user since options) row
        → held_after row ≡ shown_to es user options.filter row.doc }
{}

/// The keys of a feed rise. A plain number S is the key (S, S), and a since key at or past the last key gives
/// no row.
pub fn order()
    ensures rising { (es : List Entry) (user : List ℕ) (since : Key) (options : Options) → Rising
        (feed es user since options) }
    ensures plain_keys { (number : ℕ) (key : Key) → IsBelow (plain number) key ↔
        ((number < key.by) ⊎ ((number ≡ key.by) × (number < key.seq))) }
    ensures past_the_last { (es : List Entry) (user : List ℕ) (since : Key) (options : Options) →
        ((doc : List ℕ) (row : Row) → row_of es user options.filter doc ≡ Some row → ¬
        (IsBelow since row.key)) → feed es user since options ≡ [] }
    ensures past_the_front { (es : List Entry) (user : List ℕ) (since : Key) (options : Options)
        → ¬ (IsBelow since (plain (length es))) → feed es user since options ≡ [] }
{}

/// What a sent key leaves for later, in every history that extends the one that its feed was of: each row
/// of the later feed from the same since key was in the feed, at a key not above the sent one, or is above that
/// and stands in the later feed from it; and so does each row of a document past the sent key, also one that a
/// feed from the start omits, but for revocations that are not asked for.
pub fn resume()
    ensures sent_or_ahead { (entries more : List Entry) (front : ℕ) (user : List ℕ) (since : Key)
        (options : Options) (sent row : Row) → front ≤ length entries → HasRow
        (feed (past entries front) user since options) sent → HasRow
        (feed (all_of (entries ++ more)) user since options) row → WasSent
        (feed (past entries front) user since options) sent.key row ⊎ IsAhead
        (feed (all_of (entries ++ more)) user sent.key options) sent.key row }
    ensures none_lost { (entries more : List Entry) (front : ℕ) (user : List ℕ) (since : Key)
        (options : Options) (sent row : Row) (doc : List ℕ) → front ≤ length entries → HasRow
        (feed (past entries front) user since options) sent → row_of
        (all_of (entries ++ more)) user options.filter doc ≡ Some row → IsBelow sent.key row.key
        → IsTrue (options.revocations || not (nat_eq row.bits 2)) → HasRow
        (feed (all_of (entries ++ more)) user sent.key options) row }
{}

/// What a device holds that takes the first rows of its feed turn by turn, at fronts that don't fall of a
/// history that only goes on, with revocations: after a turn in which it took the whole feed, exactly what is
/// shown at that front, under active only but for what is deleted.
pub fn device()
    ensures { (user : List ℕ) (options : Options) (last : DeviceTurn) (earlier : List DeviceTurn)
        (doc : List ℕ) → IsTrue options.revocations → IsRun (last ∷ earlier)
        → TakesAll user options last earlier → live options
        ((state_after user options (last ∷ earlier)).copy doc) ≡ live options
        (shown_to (past last.history last.front) user options.filter doc) }
{}

/// Rising rows that are exactly those of documents that are asked for are the feed.
pub fn only()
    ensures { (es : List Entry) (user : List ℕ) (since : Key) (options : Options) (rows : List Row)
        → Rising rows → ((row : Row) → HasRow rows row ↔ IsAskedFor es user since options row)
        → rows ≡ feed es user since options }
{}

/// An entry that does not renew a document leaves what is known of it as it is. Of one that was not renewed from a
/// place on no change from there on is known. One that is nothing was never renewed.
pub fn known()
    ensures current { (e : Entry) (es : List Entry) (doc : List ℕ) → renews e es doc ≡ false
        → current (e ∷ es) doc ≡ current es doc }
    ensures same { (from : ℕ) (e : Entry) (es : List Entry) (user : List ℕ)
        (filter : Option (List (List ℕ))) (doc : List ℕ) → renews e es doc ≡ false
        → known_from from (e ∷ es) user filter doc ≡ known_from from es user filter doc }
    ensures none { (from : ℕ) (es : List Entry) (user : List ℕ)
        (filter : Option (List (List ℕ))) (doc : List ℕ) → length (since_renewed es doc) < from
        → from_on from (row_before es user filter doc) ≡ None }
    ensures never { (es : List Entry) (doc : List ℕ) → current es doc ≡ None
        → 0 ≡ length (since_renewed es doc) }
{
    currents();
}
