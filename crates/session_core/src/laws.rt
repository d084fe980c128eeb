//! Laws of sessions. Each is the contract of a function that does nothing.

ghost use Rattle.std.specs.Prelude.{◌≡◌, ◌<◌, ◌++◌, ◌∷◌, [], ℕ, Bool, true, List};
ghost use Rattle.sg_history.specs.declared.entries.Entry.{Entry};
ghost use Rattle.sg_history.specs.declared.row.Row.{Row};
ghost use Rattle.repl_messages.specs.declared.request.Version.{Version};
ghost use Rattle.sync_syntax.specs.declared.tree.Program.{Program};
ghost use Rattle.session_core.specs.Feeds.{AreRowsOffered, not_offered, feed_rows_at, feed_looks, RunsFeed};
ghost use Rattle.session_core.specs.Right.{AreRight};
ghost use Rattle.session_core.specs.Steps.{SessionStep, put_by};
ghost use Rattle.session_core.specs.declared.event.Event.{Event};
ghost use Rattle.session_core.specs.State.{Machine, Awaits};
ghost use Rattle.session_core.specs.Transitions.{Done, DoesForEvent};
ghost use Rattle.session_core.specs.Conduct.{AreAnswers, due_at, IsStillDue, WantsFor, most_answers, is_answer, IsKept};

/// What holds of each event that is awaited, for those who conduct a session: what is put are at most the reply that is due and
/// requests; what is wanted is what is then awaited; after an answer fewer answers are to come than before; and user, version and
/// strictness stay, and the requests are counted.
pub fn conduct()
    ensures puts { (m : Machine) (event : Event) (done : Done) → Awaits m event → DoesForEvent m event done
        → AreAnswers (due_at m.pending event) done.acts }
    ensures due { (m : Machine) (event : Event) (done : Done) → Awaits m event → DoesForEvent m event done
        → IsStillDue (due_at m.pending event) done }
    ensures wants { (m : Machine) (event : Event) (done : Done) → Awaits m event → DoesForEvent m event done
        → WantsFor done.after.feed done.after.pending done.want }
    ensures fewer { (m : Machine) (event : Event) (done : Done) → Awaits m event → DoesForEvent m event done
        → is_answer event ≡ true
        → most_answers done.after.pending < most_answers m.pending }
    ensures kept { (m : Machine) (event : Event) (done : Done) → Awaits m event → DoesForEvent m event done
        → IsKept m event done }
{}

/// While a feed runs, the rows that were offered and those that are not yet, and no others, are the rows that it was given: those of
/// the feed at its first look's front from its since key, then at each later look's front from the plain key of the front before,
/// in order, each once.
pub fn feeds()
    ensures { (h : List Entry) (user : List ℕ) (version : Version) (program : Program)
        (strict : Bool) (earlier : List SessionStep) (begin : SessionStep) (more : List SessionStep) (after : Machine)
        → (runs : RunsFeed user version strict earlier begin more after)
        → AreRight h user program strict (more ++ begin ∷ earlier)
        → (offered : List Row) × AreRowsOffered version (put_by (more ++ begin ∷ [])) offered
        × (offered ++ not_offered after.feed
        ≡ feed_rows_at h user runs.asked.since runs.asked.options
        (feed_looks (more ++ begin ∷ []))) }
{}
