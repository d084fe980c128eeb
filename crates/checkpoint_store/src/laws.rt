//! What holds of checkpoints and of side maps. The calls do nothing.

ghost use Rattle.std.specs.Prelude.{◌≡◌, ◌≢◌, ◌≤◌, ◌⊎◌, ℕ, List, length, Some, IsTrue};
ghost use Rattle.sg_names.specs.Grammar.{is_name};
ghost use Rattle.sg_history.specs.Board.{SideEntry, SideValue, side_at, SideFollows};
ghost use Rattle.checkpoint_store.specs.declared.answers.SetAnswer.{SetAnswer};
ghost use Rattle.checkpoint_store.specs.SideMaps.{IsPut, IsRising};
ghost use Rattle.checkpoint_store.specs.Checkpoints.{checkpoint_text, checkpoint_at};
ghost use Rattle.checkpoint_store.specs.Answers.{Sets};

use sg_names::laws::plain_texts;

/// A text is that of one user and client. So a value that is put under their text is their checkpoint, and every other user and
/// client have what they had.
pub fn pairs()
    ensures one { (user other client another : List ℕ) → IsTrue (is_name user)
        → IsTrue (is_name other) → checkpoint_text user client ≡ checkpoint_text other another
        → (user ≡ other) × (client ≡ another) }
    ensures put { (before after : List SideEntry) (user client : List ℕ) (value : SideValue)
        → IsPut before (checkpoint_text user client) value after
        → checkpoint_at after user client ≡ Some value }
    ensures others { (before after : List SideEntry) (user client : List ℕ) (value : SideValue)
        (other another : List ℕ) → IsPut before (checkpoint_text user client) value after
        → IsTrue (is_name user) → IsTrue (is_name other)
        → (user ≢ other) ⊎ (client ≢ another)
        → checkpoint_at after other another ≡ checkpoint_at before other another }
{
    plain_texts();
}

/// What a set leaves follows what was there: each text is there still, with a number at least as great, and the same bytes where
/// it is equal.
pub fn sets()
    ensures { (before after : List SideEntry) (text : List ℕ) (rev : ℕ) (body : List ℕ)
        (answer : SetAnswer) → Sets before text rev body answer after → SideFollows before after }
{}

/// A rising side map is what it has under each text, and one that follows it has at least as many.
pub fn side_maps()
    ensures same { (one other : List SideEntry) → IsRising one → IsRising other
        → ((text : List ℕ) → side_at one text ≡ side_at other text) → one ≡ other }
    ensures count { (earlier later : List SideEntry) → IsRising earlier
        → SideFollows earlier later → length earlier ≤ length later }
{}
