//! Laws of what a script and sessions leave that ran at the same time over one history. Each is the contract of a function that does
//! nothing.

ghost use Rattle.std.specs.Prelude.{◌≡◌, ◌⊎◌, ◌++◌, ◌∷◌, [], Bool, ℕ, List, IsTrue, map, reverse};
ghost use Rattle.gateway_config.specs.declared.config.Config.{Config};
ghost use Rattle.principals.specs.declared.admin_line.AdminLine.{AdminLine};
ghost use Rattle.sg_history.specs.declared.book.Waiting.{Waiting};
ghost use Rattle.sg_history.specs.declared.entries.Entry.{Entry};
ghost use Rattle.sg_history.specs.declared.row.Options.{Options};
ghost use Rattle.sg_history.specs.declared.row.Row.{Row};
ghost use Rattle.sg_history.specs.Board.{BoardState};
ghost use Rattle.sg_history.specs.Device.{DeviceTurn, TakesAll, live, shown_to, state_after};
ghost use Rattle.sg_history.specs.Feed.{feed};
ghost use Rattle.sg_history.specs.History.{past};
ghost use Rattle.feed_rows.specs.Laws.{HasRow, IsAhead, all_of};
ghost use Rattle.sync_syntax.specs.declared.tree.Program.{Program};
ghost use Rattle.session_core.specs.Feeds.{AreRowsOffered, RunsFeed, feed_looks, not_offered, feed_rows_at};
ghost use Rattle.session_core.specs.Right.{AreRight};
ghost use Rattle.session_core.specs.State.{Machine, new_machine};
ghost use Rattle.session_core.specs.Steps.{Leads, SessionStep, put_by};
ghost use Rattle.session_run.specs.Judged.{AreJudged};
ghost use Rattle.session_run.specs.Own.{HaveOwnBodies};
ghost use Rattle.session_run.specs.Turns.{steps_of};
ghost use Rattle.session_threads.specs.declared.played.LineOutcome.{LineOutcome};
ghost use Rattle.session_threads.specs.Devices.{AreAtLooks};
ghost use Rattle.session_threads.specs.Played.{Device, IsPlayed, IsSessionOf, Leaves};

/// Each session is one over the history: its steps lead on from a new session of the device's user and version, each answer in them is
/// that of this history, none of them puts a body that the user is not shown, and what the ground has of its own since are the entries
/// at the sequences that it lists as stored, each the write of a revision of the user with the effects with which the program accepts it.
pub fn sessions()
    ensures leads { (board : BoardState) (program : Program) (strict : Bool) (device : Device)
        (left : Leaves) → (is : IsSessionOf board program strict device left)
        → Leads (new_machine device.user device.version strict)
        (steps_of is.served.session.turns) is.served.session.machine }
    ensures right { (board : BoardState) (program : Program) (strict : Bool) (device : Device)
        (left : Leaves) → (is : IsSessionOf board program strict device left)
        → AreRight board.log device.user program strict (steps_of is.served.session.turns) }
    ensures own_bodies { (board : BoardState) (program : Program) (strict : Bool)
        (device : Device) (left : Leaves)
        → (is : IsSessionOf board program strict device left)
        → HaveOwnBodies board.log device.user
        (new_machine device.user device.version strict)
        (steps_of is.served.session.turns) }
    ensures own { (board : BoardState) (program : Program) (strict : Bool) (device : Device)
        (left : Leaves) → (is : IsSessionOf board program strict device left)
        → (added : List Waiting) × (is.final.own ≡ added ++ is.start.own)
        × (map (λ (w : Waiting). w.number) added ≡ reverse left.ended.stored)
        × AreJudged program device.user is.start.read is.final.read added }
{
    session_run::laws::sessions();
}

/// To resume at any key that a session sent misses none: while a feed runs in it, each row of the feed at the history's end, from the
/// session's own since key, was offered, or has a key above the sent one and stands in the feed from that.
pub fn resume()
    ensures { (board : BoardState) (program : Program) (strict : Bool) (device : Device)
        (left : Leaves) (earlier : List SessionStep) (begin : SessionStep) (more later : List SessionStep)
        (after : Machine)
        → (is : IsSessionOf board program strict device left)
        → steps_of is.served.session.turns ≡ later ++ (more ++ begin ∷ earlier)
        → (runs : RunsFeed device.user device.version strict earlier begin more after)
        → (offered : List Row)
        × AreRowsOffered device.version (put_by (more ++ begin ∷ [])) offered
        × (offered ++ not_offered after.feed
        ≡ feed_rows_at board.log device.user runs.asked.since runs.asked.options
        (feed_looks (more ++ begin ∷ [])))
        × ((sent row : Row) → HasRow offered sent
        → HasRow (feed (all_of board.log) device.user runs.asked.since runs.asked.options) row
        → HasRow offered row
        ⊎ IsAhead (feed (all_of board.log) device.user sent.key runs.asked.options)
        sent.key row) }
{
    session_laws::laws::resume();
}

/// What a device holds that takes feeds of the history with revocations, turn by turn at looks of any of the sessions, at fronts that
/// don't fall: after a turn in which it took the whole feed, exactly what is shown at that look, under active only but for what is
/// deleted.
pub fn device()
    ensures { (config : Config) (lines : List AdminLine) (devices : List Device)
        (board : BoardState) (outcomes : List LineOutcome) (left : List Leaves) (user : List ℕ)
        (options : Options) (last : DeviceTurn) (earlier : List DeviceTurn) (doc : List ℕ)
        → IsPlayed config lines devices board outcomes left
        → AreAtLooks board.log left (last ∷ earlier) → IsTrue options.revocations
        → TakesAll user options last earlier
        → live options ((state_after user options (last ∷ earlier)).copy doc)
        ≡ live options (shown_to (past board.log last.front) user options.filter doc) }
{
    feed_rows::laws::device();
    session_run::laws::answers();
}
