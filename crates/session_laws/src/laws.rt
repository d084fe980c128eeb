//! Laws of the feeds of whole sessions, over the rows that a feed is given at the fronts of its looks. Each is the contract of a
//! function that does nothing.

ghost use Rattle.std.specs.Prelude.{◌≡◌, ◌⊎◌, ◌++◌, ◌∷◌, [], ℕ, Bool, List};
ghost use Rattle.sg_names.specs.declared.key.Key.{Key};
ghost use Rattle.sg_history.specs.declared.entries.Entry.{Entry};
ghost use Rattle.sg_history.specs.declared.row.Row.{Row};
ghost use Rattle.sg_history.specs.declared.row.Options.{Options};
ghost use Rattle.sg_history.specs.Feed.{feed};
ghost use Rattle.feed_rows.specs.Laws.{HasRow, Rising, IsAhead, all_of};
ghost use Rattle.repl_messages.specs.declared.request.Version.{Version};
ghost use Rattle.sync_syntax.specs.declared.tree.Program.{Program};
ghost use Rattle.session_core.specs.Feeds.{AreRowsOffered, RunsFeed, not_offered, feed_rows_at, feed_looks};
ghost use Rattle.session_core.specs.Fronts.{fronts_of, RiseBetween};
ghost use Rattle.session_core.specs.State.{Machine};
ghost use Rattle.session_core.specs.Steps.{SessionStep, put_by};
ghost use Rattle.write_path.specs.Reads.{IsLaterThanAll};
ghost use Rattle.sg_outside.specs.declared.sink.Gave.{Gave};
ghost use Rattle.sg_outside.specs.declared.wire.Got.{Got};
ghost use Rattle.session_run.specs.Answered.{Moment, AreAnswered};
ghost use Rattle.session_run.specs.Served.{IsSession};
ghost use Rattle.session_run.specs.Turns.{steps_of};
ghost use Rattle.session_run.specs.declared.ended.Ended.{Ended};
ghost use Rattle.session_run.specs.declared.serve.Setup.{Setup};
ghost use Rattle.session_laws.specs.Rising.{AreFronts};

/// The rows that a feed is given, look after look, are in rising order of their keys, each once; and where the looks and loads of a
/// session don't fall, the fronts of a feed's looks don't.
pub fn order()
    ensures rising { (h : List Entry) (user : List ℕ) (since : Key) (options : Options)
        (fronts : List ℕ) (high : ℕ)
        → AreFronts 0 fronts high
        → Rising (feed_rows_at h user since options fronts) }
    ensures fronts { (steps : List SessionStep) (low high : ℕ)
        → RiseBetween low (fronts_of steps) high → AreFronts low (feed_looks steps) high }
{
    feed_rows::laws::order();
    feed_rows::laws::members();
}

/// To resume at any sent key misses none, over every history that is later than all boards that the session read by then: while a
/// feed runs, each row of the feed at the history's end, from its own since key, was offered, or has a key above the sent one and
/// stands in the feed from that.
pub fn resume()
    ensures { (start now : Moment) (h : List Entry) (user : List ℕ) (version : Version)
        (program : Program) (strict : Bool) (earlier : List SessionStep) (begin : SessionStep)
        (more : List SessionStep) (after : Machine)
        → (runs : RunsFeed user version strict earlier begin more after)
        → AreAnswered start user program strict (more ++ begin ∷ earlier) now
        → IsLaterThanAll now.read h
        → (offered : List Row) × AreRowsOffered version (put_by (more ++ begin ∷ [])) offered
        × (offered ++ not_offered after.feed
        ≡ feed_rows_at h user runs.asked.since runs.asked.options
        (feed_looks (more ++ begin ∷ [])))
        × ((sent row : Row) → HasRow offered sent
        → HasRow (feed (all_of h) user runs.asked.since runs.asked.options) row
        → HasRow offered row
        ⊎ IsAhead (feed (all_of h) user sent.key runs.asked.options) sent.key row) }
{
    feed_rows::laws::order();
    feed_rows::laws::members();
    session_core::laws::conduct();
    session_core::laws::feeds();
    session_run::laws::answers();
}

/// What a whole session offers of a feed in it, over every history that is later than all boards that were read: the rows that were
/// offered and those not offered yet are the feed at its looks, in rising order of their keys, each once.
pub fn offered()
    ensures { (setup : Setup) (start final : Moment) (ended : Ended) (results : List Got)
        (sent : List (List ℕ)) (failed : List Gave) (h : List Entry)
        (earlier : List SessionStep) (begin : SessionStep) (more later : List SessionStep) (after : Machine)
        → (session : IsSession setup start final ended results sent failed)
        → steps_of session.turns ≡ later ++ (more ++ begin ∷ earlier)
        → (runs : RunsFeed setup.user setup.version setup.strict earlier begin more after)
        → IsLaterThanAll final.read h
        → (offered : List Row) × AreRowsOffered setup.version (put_by (more ++ begin ∷ [])) offered
        × (offered ++ not_offered after.feed
        ≡ feed_rows_at h setup.user runs.asked.since runs.asked.options
        (feed_looks (more ++ begin ∷ [])))
        × Rising (offered ++ not_offered after.feed) }
{
    order();
    session_core::laws::feeds();
    session_run::laws::answers();
    session_run::laws::sessions();
}
