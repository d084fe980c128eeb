//! Laws of what a device and a session exchange, over all steps of a session. Each is the contract of a function that does nothing.

ghost use Rattle.std.specs.Prelude.{◌≡◌, ◌≢◌, ◌↔◌, ◌++◌, ◌∷◌, [], ℕ, Bool, true, List, IsSome, if◌then◌else◌};
ghost use Rattle.repl_messages.specs.declared.request.Version.{Version};
ghost use Rattle.session_core.specs.declared.event.Event.{Event};
ghost use Rattle.session_core.specs.declared.machine.Pending.{Pending};
ghost use Rattle.session_core.specs.Feeds.{feed_looks, RunsFeed};
ghost use Rattle.session_core.specs.Running.{waits};
ghost use Rattle.session_core.specs.State.{Machine, new_machine};
ghost use Rattle.session_core.specs.Steps.{SessionStep, Steps, Leads, put_by};
ghost use Rattle.session_laws.specs.Exchanges.{asked_by, replied, owed, IsAboveLast, IsFromLast, empty_offers, has_caught_up};

/// Each request that wants a reply has one reply of its number, in the order in which the requests became whole, and no other reply
/// is put: the replies that were put, and the one that waits for an answer of the history, are those to the requests that came.
pub fn replies()
    ensures { (user : List ℕ) (version : Version) (strict : Bool) (steps : List SessionStep) (m : Machine)
        → Leads (new_machine user version strict) steps m
        → replied (put_by steps) ++ owed m.pending ≡ asked_by steps }
{}

/// At an idle moment the history is looked at exactly where the front that was loaded is above that of the last look for a feed, and
/// then for a feed from the plain key of that last front; and nothing is put.
pub fn idle()
    ensures looks { (user : List ℕ) (version : Version) (strict : Bool) (earlier : List SessionStep)
        (m after : Machine) (s : SessionStep) (front : ℕ)
        → Leads (new_machine user version strict) earlier m
        → s.event ≡ Event.Idle front → Steps m s after
        → IsSome s.want ↔ IsAboveLast (feed_looks earlier) front }
    ensures from { (user : List ℕ) (version : Version) (strict : Bool) (earlier : List SessionStep)
        (m after : Machine) (s : SessionStep) (front : ℕ)
        → Leads (new_machine user version strict) earlier m
        → s.event ≡ Event.Idle front → Steps m s after
        → IsFromLast (feed_looks earlier) s.want }
    ensures puts { (m after : Machine) (s : SessionStep) (front : ℕ)
        → s.event ≡ Event.Idle front → Steps m s after
        → s.puts ≡ [] }
{}

/// While a feed runs one empty offer is put at most: one where the feed has ended, or the device was informed that it caught up, and none
/// before. Where the feed waits, and no look for its next rows is awaited, it is one.
pub fn empties()
    ensures once { (user : List ℕ) (version : Version) (strict : Bool)
        (earlier : List SessionStep) (begin : SessionStep) (more : List SessionStep) (after : Machine)
        → RunsFeed user version strict earlier begin more after
        → empty_offers (put_by (more ++ begin ∷ [])) ≡ (if has_caught_up after.feed then 1 else 0) }
    ensures waiting { (user : List ℕ) (version : Version) (strict : Bool)
        (earlier : List SessionStep) (begin : SessionStep) (more : List SessionStep) (after : Machine)
        → RunsFeed user version strict earlier begin more after
        → waits after.feed ≡ true → after.pending ≢ Pending.More
        → empty_offers (put_by (more ++ begin ∷ [])) ≡ 1 }
{}
