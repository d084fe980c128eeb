//! Laws of the offers of whole sessions: offers are full batches, and one is open at a time. Each is the contract of a function that
//! does nothing.

ghost use Rattle.std.specs.Prelude.{◌≡◌, ◌≤◌, ◌++◌, ◌∷◌, [], ℕ, Bool, List, IsSome, flat_map};
ghost use Rattle.sg_names.specs.declared.key.Key.{Key};
ghost use Rattle.sg_history.specs.declared.entries.Entry.{Entry};
ghost use Rattle.sg_history.specs.declared.row.Row.{Row};
ghost use Rattle.sg_history.specs.declared.row.Options.{Options};
ghost use Rattle.repl_messages.specs.declared.request.Version.{Version};
ghost use Rattle.sync_syntax.specs.declared.tree.Program.{Program};
ghost use Rattle.session_core.specs.declared.machine.Pending.{Pending};
ghost use Rattle.session_core.specs.declared.machine.Subscription.{Subscription};
ghost use Rattle.session_core.specs.Feeds.{not_offered, feed_rows_at, feed_looks, RunsFeed};
ghost use Rattle.session_core.specs.Right.{AreRight};
ghost use Rattle.session_core.specs.State.{Machine, new_machine};
ghost use Rattle.session_core.specs.Steps.{SessionStep, Leads, put_by};
ghost use Rattle.session_laws.specs.Batches.{batches, AreFull, looks_at, AreOffers, with_rows, offers_among, WantReplies, closed_by, open_after};

/// While a feed runs, its offers that aren't empty, and then the batches of the rows that it has not offered yet, are the batches of
/// the rows of its looks, look after look. The batches of rows are all of them, in order: each of as many rows as the feed's request
/// says, from 1 to 10,000, but for the last batch of a look, which may have fewer.
pub fn full()
    ensures offers { (h : List Entry) (user : List ℕ) (version : Version) (program : Program)
        (strict : Bool) (earlier : List SessionStep) (begin : SessionStep) (more : List SessionStep) (after : Machine)
        → (runs : RunsFeed user version strict earlier begin more after)
        → AreRight h user program strict (more ++ begin ∷ earlier)
        → (offers : List (List Row)) × AreOffers version (put_by (more ++ begin ∷ [])) offers
        × (with_rows offers ++ batches runs.asked.batch (not_offered after.feed)
        ≡ flat_map (batches runs.asked.batch)
        (looks_at h user runs.asked.since runs.asked.options
        (feed_looks (more ++ begin ∷ [])))) }
    ensures size { (user : List ℕ) (version : Version) (strict : Bool)
        (steps : List SessionStep) (m : Machine) (asked : Subscription)
        → Leads (new_machine user version strict) steps m → m.pending ≡ Pending.Feed asked
        → (1 ≤ asked.batch) × (asked.batch ≤ 10000) }
    ensures cut { (size : ℕ) (rows : List Row) → 1 ≤ size
        → AreFull size (batches size rows)
        × (flat_map (λ piece. piece) (batches size rows) ≡ rows) }
    ensures looks { (h : List Entry) (user : List ℕ) (since : Key) (options : Options)
        (fronts : List ℕ)
        → flat_map (λ look. look) (looks_at h user since options fronts)
        ≡ feed_rows_at h user since options fronts }
{
    session_core::laws::conduct();
}

/// While an offer is open, none is put, and in one step at most one is. An offer that wants a reply is open until a reply to it comes,
/// and one that wants none has no rows.
pub fn one_open()
    ensures waits { (user : List ℕ) (version : Version) (strict : Bool)
        (s : SessionStep) (earlier : List SessionStep) (after : Machine)
        → Leads (new_machine user version strict) (s ∷ earlier) after
        → IsSome (closed_by s.event (open_after earlier)) → offers_among s.puts ≡ 0 }
    ensures one { (user : List ℕ) (version : Version) (strict : Bool)
        (s : SessionStep) (earlier : List SessionStep) (after : Machine)
        → Leads (new_machine user version strict) (s ∷ earlier) after
        → offers_among s.puts ≤ 1 }
    ensures replies { (user : List ℕ) (version : Version) (strict : Bool)
        (s : SessionStep) (earlier : List SessionStep) (after : Machine)
        → Leads (new_machine user version strict) (s ∷ earlier) after
        → WantReplies version s.puts }
{
    session_core::laws::conduct();
}
