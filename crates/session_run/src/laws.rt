//! Laws of what a ground answers to a session. Each is the contract of a function that does nothing.

ghost use Rattle.std.specs.Prelude.{◌≡◌, ◌+◌, ◌++◌, ◌∷◌, ℕ, Bool, List, Option, Some, length, map, reverse};
ghost use Rattle.std.specs.Arc.{arc_value};
ghost use Rattle.sg_history.specs.declared.book.Waiting.{Waiting};
ghost use Rattle.sg_history.specs.declared.entries.Entry.{Entry};
ghost use Rattle.sg_history.specs.Board.{BoardState, SideEntry, IsAfterAll};
ghost use Rattle.session_core.specs.Conduct.{AreWithin};
ghost use Rattle.session_core.specs.Fronts.{fronts_of, looks_of, stored_of, RiseBetween};
ghost use Rattle.session_core.specs.Right.{AreRight};
ghost use Rattle.repl_messages.specs.declared.request.Version.{Version};
ghost use Rattle.session_core.specs.State.{Machine, new_machine};
ghost use Rattle.session_core.specs.Steps.{SessionStep, Steps, Leads};
ghost use Rattle.session_core.specs.declared.event.Event.{Event};
ghost use Rattle.sync_syntax.specs.declared.tree.Program.{Program};
ghost use Rattle.write_path.specs.Reads.{Reads, IsLaterThanAll};
ghost use Rattle.session_run.specs.Own.{HasOwnBodies, HaveOwnBodies};
ghost use Rattle.session_run.specs.Answered.{Moment, AreAnswered, recorded_by, AreAtLength, AreLooksAt, AreOfStore, look_fronts};
ghost use Rattle.session_run.specs.Judged.{AreJudged};
ghost use Rattle.session_run.specs.Numbers.{named_of, AreNamedWithin, AreNamedRising};
ghost use Rattle.session_run.specs.Served.{IsSession};
ghost use Rattle.session_run.specs.Turns.{SessionTurn, AreLed, steps_of, undone};
ghost use Rattle.session_run.specs.declared.ended.Ended.{Ended};
ghost use Rattle.session_run.specs.declared.serve.Setup.{Setup};
ghost use Rattle.sg_outside.specs.declared.sink.Gave.{Gave};
ghost use Rattle.sg_outside.specs.declared.wire.Got.{Got};

/// What was answered to a session is right by every history that is later than all boards read; its looks and loads are at fronts that
/// don't fall, each the recorded length with what was stored by then, where a length is recorded; what the ground has of its own
/// since are the entries at the stored sequences, each the write of a revision of the user with the effects with which the program
/// accepts it; and each look is at the length of a board's log that was read for it, in order, which no such history is shorter than.
/// Where checkpoints are recorded, what was had of them is of one store, which has these at first. The numbers of checkpoints that are
/// named don't fall for any client, and none is above that of a board that comes after all that were read.
pub fn answers()
    ensures right { (start now : Moment) (user : List ℕ) (program : Program) (strict : Bool)
        (steps : List SessionStep) (h : List Entry)
        → AreAnswered start user program strict steps now → IsLaterThanAll now.read h
        → AreRight h user program strict steps }
    ensures reads { (start now : Moment) (user : List ℕ) (program : Program) (strict : Bool)
        (steps : List SessionStep)
        → AreAnswered start user program strict steps now
        → Reads start.read now.read start.lowest now.lowest }
    ensures rise { (start now : Moment) (user : List ℕ) (program : Program) (strict : Bool)
        (steps : List SessionStep)
        → AreAnswered start user program strict steps now
        → RiseBetween start.lowest (fronts_of steps) now.lowest }
    ensures recorded { (start now : Moment) (user : List ℕ) (program : Program) (strict : Bool)
        (steps : List SessionStep)
        → AreAnswered start user program strict steps now
        → now.recorded ≡ recorded_by start.recorded steps }
    ensures at_length { (start now : Moment) (user : List ℕ) (program : Program) (strict : Bool)
        (steps : List SessionStep)
        → AreAnswered start user program strict steps now → AreAtLength start.recorded steps }
    ensures own { (start now : Moment) (user : List ℕ) (program : Program) (strict : Bool)
        (steps : List SessionStep)
        → AreAnswered start user program strict steps now
        → (added : List Waiting) × (now.own ≡ added ++ start.own)
        × (map (λ (w : Waiting). w.number) added ≡ reverse (stored_of steps))
        × AreJudged program user start.read now.read added }
    ensures looks { (start now : Moment) (user : List ℕ) (program : Program) (strict : Bool)
        (steps : List SessionStep)
        → AreAnswered start user program strict steps now
        → AreLooksAt start.read (looks_of steps) now.read }
    ensures fronts { (start now : Moment) (user : List ℕ) (program : Program) (strict : Bool)
        (steps : List SessionStep)
        → AreAnswered start user program strict steps now
        → RiseBetween start.lowest (look_fronts (looks_of steps)) now.lowest }
    ensures within { (start now : Moment) (user : List ℕ) (program : Program) (strict : Bool)
        (steps : List SessionStep) (h : List Entry)
        → AreAnswered start user program strict steps now → IsLaterThanAll now.read h
        → AreWithin (length h) (look_fronts (looks_of steps)) }
    ensures checkpoints { (start now : Moment) (user : List ℕ) (program : Program) (strict : Bool)
        (steps : List SessionStep) (side : List SideEntry)
        → AreAnswered start user program strict steps now → start.checkpoints ≡ Some side
        → (left : List SideEntry) × (now.checkpoints ≡ Some left)
        × AreOfStore user side steps left }
    ensures numbers { (start now : Moment) (user : List ℕ) (program : Program) (strict : Bool)
        (steps : List SessionStep)
        → AreAnswered start user program strict steps now → AreNamedRising (named_of steps) }
    ensures closing { (start now : Moment) (user : List ℕ) (program : Program) (strict : Bool)
        (steps : List SessionStep) (board : BoardState)
        → AreAnswered start user program strict steps now → IsAfterAll now.read board
        → AreNamedWithin user board.side (named_of steps) }
{
    sg_history::laws::later();
    doc_board::laws::later_boards();
    write_path::laws::reads();
    board_steps::laws::later();
    write_path::laws::was_read();
    checkpoint_store::laws::pairs();
}

/// No body is put but one that is shown to the user at the look for it, by the filter of the feed that runs and for a row that it has
/// on offer, or one that says of such a row that its document is no longer shown.
pub fn own_bodies()
    ensures { (h : List Entry) (user : List ℕ) (version : Version) (program : Program)
        (strict : Bool) (earlier : List SessionStep) (before : Machine) (s : SessionStep) (after : Machine)
        → Leads (new_machine user version strict) earlier before → Steps before s after
        → AreRight h user program strict (s ∷ earlier) → HasOwnBodies h user before s }
{
    session_core::laws::conduct();
    board_steps::laws::no_foreign_body();
    board_steps::laws::removals();
}

/// Of a whole session: its steps lead on from a new one, so that what is said of such steps is said of these; by every history that is
/// later than all boards read none of them puts a foreign body; what the ground has of its own since are the entries at the listed
/// sequences, each the write of a revision of the user with the effects with which the setup's program accepts it; and the listed looks
/// are, in order, at the lengths of the logs of boards that were read, each for that look, and don't fall; the boards that were read
/// come after those before it; and a recorded length has grown by one for each stored revision; and where checkpoints are recorded, what was had of them is of one
/// store.
pub fn sessions()
    ensures leads { (user : List ℕ) (version : Version) (strict : Bool) (halted : Option Event)
        (turns : List SessionTurn) (m : Machine)
        → AreLed (new_machine user version strict) halted turns m
        → Leads (new_machine user version strict) (steps_of turns) m }
    ensures right { (setup : Setup) (start final : Moment) (ended : Ended) (results : List Got)
        (sent : List (List ℕ)) (failed : List Gave) (h : List Entry)
        → (session : IsSession setup start final ended results sent failed)
        → IsLaterThanAll final.read h
        → AreRight h setup.user (arc_value setup.program) setup.strict (steps_of session.turns) }
    ensures own_bodies { (setup : Setup) (start final : Moment) (ended : Ended) (results :
        List Got)
        (sent : List (List ℕ)) (failed : List Gave) (h : List Entry)
        → (session : IsSession setup start final ended results sent failed)
        → IsLaterThanAll final.read h
        → HaveOwnBodies h setup.user (new_machine setup.user setup.version setup.strict)
        (steps_of session.turns) }
    ensures own { (setup : Setup) (start final : Moment) (ended : Ended) (results : List Got)
        (sent : List (List ℕ)) (failed : List Gave)
        → IsSession setup start final ended results sent failed
        → (added : List Waiting) × (final.own ≡ added ++ start.own)
        × (map (λ (w : Waiting). w.number) added ≡ reverse ended.stored)
        × AreJudged (arc_value setup.program) setup.user start.read final.read added }
    ensures looks { (setup : Setup) (start final : Moment) (ended : Ended) (results : List Got)
        (sent : List (List ℕ)) (failed : List Gave)
        → IsSession setup start final ended results sent failed
        → AreLooksAt start.read ended.looks final.read }
    ensures fronts { (setup : Setup) (start final : Moment) (ended : Ended) (results : List Got)
        (sent : List (List ℕ)) (failed : List Gave)
        → IsSession setup start final ended results sent failed
        → RiseBetween start.lowest (look_fronts ended.looks) final.lowest }
    ensures reads { (setup : Setup) (start final : Moment) (ended : Ended) (results : List Got)
        (sent : List (List ℕ)) (failed : List Gave)
        → IsSession setup start final ended results sent failed
        → Reads start.read final.read start.lowest final.lowest }
    ensures recorded { (setup : Setup) (start final : Moment) (ended : Ended) (results : List Got)
        (sent : List (List ℕ)) (failed : List Gave) (n : ℕ)
        → IsSession setup start final ended results sent failed
        → start.recorded ≡ Some n → final.recorded ≡ Some (n + length ended.stored) }
    ensures checkpoints { (setup : Setup) (start final : Moment) (ended : Ended)
        (results : List Got) (sent : List (List ℕ)) (failed : List Gave) (side : List SideEntry)
        → (session : IsSession setup start final ended results sent failed)
        → start.checkpoints ≡ Some side
        → (left : List SideEntry) × (final.checkpoints ≡ Some left)
        × AreOfStore setup.user side (undone session.halted ++ steps_of session.turns) left }
    ensures numbers { (setup : Setup) (start final : Moment) (ended : Ended)
        (results : List Got) (sent : List (List ℕ)) (failed : List Gave)
        → (session : IsSession setup start final ended results sent failed)
        → AreNamedRising (named_of (undone session.halted ++ steps_of session.turns)) }
    ensures closing { (setup : Setup) (start final : Moment) (ended : Ended)
        (results : List Got) (sent : List (List ℕ)) (failed : List Gave) (board : BoardState)
        → (session : IsSession setup start final ended results sent failed)
        → IsAfterAll final.read board
        → AreNamedWithin setup.user board.side
        (named_of (undone session.halted ++ steps_of session.turns)) }
{
    answers();
    own_bodies();
    write_path::laws::reads();
    write_path::laws::was_read();
    checkpoint_store::laws::pairs();
}
