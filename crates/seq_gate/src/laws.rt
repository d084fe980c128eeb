//! What holds of the rule of a gate. The calls do nothing.

ghost use Rattle.std.specs.Prelude.{◌≡◌, ℕ, List};
ghost use Rattle.sg_history.specs.Board.{BoardState, IsAfterAll};
ghost use Rattle.sg_history.specs.World as worlds;
ghost use Rattle.seq_gate.specs.Laws.{KeepsRule, Opens, ClosesWhole, world_of_gate};
ghost use Rattle.seq_gate.specs.Passes.{drawn_in_turn, joined_passes, Finds, StoresHeld, MayLeave};
ghost use Rattle.seq_gate.specs.Rule.{Sums};
ghost use Rattle.seq_gate.specs.declared.known.Known.{Known};
ghost use Rattle.seq_gate.specs.declared.known.View.{View};

use crate::kept::Kept;
use sg_history::laws::boards;

/// The rule holds of a gate that is opened, whatever board it keeps; each step keeps it; and what closes a gate finds the board in
/// the slot, with nothing that waits, no room outstanding, and each entry beyond the opening ones an own one of some pass.
pub fn rule<B: Kept>()
    ensures opens { Opens B.seen }
    ensures keeps { (opening slots id : ℕ) → KeepsRule B.seen opening slots id }
    ensures closes { ClosesWhole B.seen }
{
    boards();
}

/// The numbers that passes hold, the entries that wait and the log are a sound world, of as many sequences as were drawn.
pub fn world()
    ensures { (opening n given served : ℕ) (last : BoardState) (views : List View)
        → Sums opening n given served last views → worlds.IsSound (world_of_gate n last views) }
{}

/// A board may be left as it was found; and a draw in the turn takes nothing from what the board in hand may have.
pub fn turns()
    ensures untouched { (p : Known) (found : BoardState) → Finds p found → MayLeave p found found }
    ensures drawn { (p : Known) (found hand : BoardState) (n : ℕ) → StoresHeld p found hand
        → StoresHeld (drawn_in_turn p n) found hand }
{
    boards();
}

/// A board that comes after all that a joined pass has read comes after all that each of the two had read. So one that a gate is closed with
/// comes after each board that any pass has read which was joined.
pub fn joins()
    ensures { (p other : Known) (board : BoardState) → IsAfterAll (joined_passes p other).read board
        → IsAfterAll p.read board × IsAfterAll other.read board }
{}
