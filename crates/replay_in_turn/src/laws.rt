//! Laws of the sessions of a replay, which are served one after another over one history. Each is the contract of a function that
//! does nothing.

ghost use Rattle.std.specs.Prelude.{◌≡◌, ◌⊎◌, ◌++◌, ◌∷◌, [], Bool, ℕ, List, IsTrue, map, reverse};
ghost use Rattle.sg_history.specs.declared.book.Waiting.{Waiting};
ghost use Rattle.sg_history.specs.declared.entries.Entry.{Entry};
ghost use Rattle.sg_history.specs.declared.row.Options.{Options};
ghost use Rattle.sg_history.specs.declared.row.Row.{Row};
ghost use Rattle.sg_history.specs.Device.{DeviceTurn, TakesAll, live, shown_to, state_after};
ghost use Rattle.sg_history.specs.Feed.{feed};
ghost use Rattle.sg_history.specs.History.{past};
ghost use Rattle.feed_rows.specs.Laws.{HasRow, IsAhead, all_of};
ghost use Rattle.record_file.specs.declared.record.Recorded.{Recorded};
ghost use Rattle.sync_syntax.specs.declared.tree.Program.{Program};
ghost use Rattle.session_core.specs.Feeds.{AreRowsOffered, RunsFeed, feed_looks, not_offered, feed_rows_at};
ghost use Rattle.session_core.specs.Right.{AreRight};
ghost use Rattle.session_core.specs.State.{Machine, new_machine};
ghost use Rattle.session_core.specs.Steps.{Leads, SessionStep, put_by};
ghost use Rattle.session_run.specs.Answered.{Moment};
ghost use Rattle.session_run.specs.Judged.{AreJudged};
ghost use Rattle.session_run.specs.Own.{HaveOwnBodies};
ghost use Rattle.session_run.specs.Turns.{steps_of};
ghost use Rattle.replay_in_turn.specs.Devices.{AreAtLooks};
ghost use Rattle.replay_in_turn.specs.Sessions.{AreRuns, IsRun};
ghost use Rattle.transcripts.specs.Transcript.{Run};

/// Each session of a replay is one over the replay's history: its steps lead on from a new session of the recorded user and version,
/// each answer in them is that of this history, none of them puts a body that the user is not shown, and what the ground has of its
/// own since are the entries at the sequences that it lists as stored, each the write of a revision of the user with the effects with
/// which the configuration's program accepts it.
pub fn sessions()
    ensures leads { (history : List Entry) (program : Program) (strict : Bool)
        (start final : Moment) (recorded : Recorded) (run : Run)
        → (is : IsRun history program strict start recorded run final)
        → Leads (new_machine recorded.user recorded.version strict)
        (steps_of is.served.session.turns) is.served.session.machine }
    ensures right { (history : List Entry) (program : Program) (strict : Bool)
        (start final : Moment) (recorded : Recorded) (run : Run)
        → (is : IsRun history program strict start recorded run final)
        → AreRight history recorded.user program strict (steps_of is.served.session.turns) }
    ensures own_bodies { (history : List Entry) (program : Program) (strict : Bool)
        (start final : Moment) (recorded : Recorded) (run : Run)
        → (is : IsRun history program strict start recorded run final)
        → HaveOwnBodies history recorded.user
        (new_machine recorded.user recorded.version strict)
        (steps_of is.served.session.turns) }
    ensures own { (history : List Entry) (program : Program) (strict : Bool)
        (start final : Moment) (recorded : Recorded) (run : Run)
        → IsRun history program strict start recorded run final
        → (added : List Waiting) × (final.own ≡ added ++ start.own)
        × (map (λ (w : Waiting). w.number) added ≡ reverse run.ended.stored)
        × AreJudged program recorded.user start.read final.read added }
{
    session_run::laws::sessions();
}

/// To resume at any key that a session of a replay sent misses none: while a feed runs in it, each row of the feed at the end of the
/// replay's history, from the session's own since key, was offered, or has a key above the sent one and stands in the feed from that.
pub fn resume()
    ensures { (history : List Entry) (program : Program) (strict : Bool) (start final : Moment)
        (recorded : Recorded) (run : Run) (earlier : List SessionStep) (begin : SessionStep)
        (more later : List SessionStep) (after : Machine)
        → (is : IsRun history program strict start recorded run final)
        → steps_of is.served.session.turns ≡ later ++ (more ++ begin ∷ earlier)
        → (runs : RunsFeed recorded.user recorded.version strict earlier begin more after)
        → (offered : List Row)
        × AreRowsOffered recorded.version (put_by (more ++ begin ∷ [])) offered
        × (offered ++ not_offered after.feed
        ≡ feed_rows_at history recorded.user runs.asked.since runs.asked.options
        (feed_looks (more ++ begin ∷ [])))
        × ((sent row : Row) → HasRow offered sent
        → HasRow (feed (all_of history) recorded.user runs.asked.since runs.asked.options) row
        → HasRow offered row
        ⊎ IsAhead (feed (all_of history) recorded.user sent.key runs.asked.options)
        sent.key row) }
{
    session_laws::laws::resume();
}

/// What a device holds that takes feeds of a replay's history with revocations, turn by turn at looks of the replay's sessions, in
/// their order: after a turn in which it took the whole feed, exactly what is shown at that look, under active only but for what is
/// deleted.
pub fn device()
    ensures { (history : List Entry) (program : Program) (strict : Bool) (start final : Moment)
        (records : List Recorded) (runs : List Run) (user : List ℕ) (options : Options)
        (last : DeviceTurn) (earlier : List DeviceTurn) (doc : List ℕ)
        → AreRuns history program strict start records runs final
        → AreAtLooks history runs (last ∷ earlier) → IsTrue options.revocations
        → TakesAll user options last earlier
        → live options ((state_after user options (last ∷ earlier)).copy doc)
        ≡ live options (shown_to (past history last.front) user options.filter doc) }
{
    feed_rows::laws::device();
    session_run::laws::answers();
    session_run::laws::sessions();
}
