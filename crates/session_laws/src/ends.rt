//! Laws of how whole sessions end. Each is the contract of a function that does nothing.

ghost use Rattle.std.specs.Prelude.{◌≡◌, ◌≢◌, ◌⊎◌, ◌<◌, ◌+◌, ◌++◌, ◌∷◌, [], None, Err, false, ℕ, List, length};
ghost use Rattle.std.specs.List.{list_any};
ghost use Rattle.blip_frame.specs.Frame.{frames_at};
ghost use Rattle.blip_frame.specs.declared.frame.FrameFault.{FrameFault};
ghost use Rattle.blip_mux.specs.Sending.{picked};
ghost use Rattle.session_core.specs.Steps.{put_by};
ghost use Rattle.session_laws.specs.Ends.{is_faulty, AreAcksInOrder};
ghost use Rattle.session_laws.specs.Exchanges.{asked_by, replied};
ghost use Rattle.session_mux.specs.Frames.{why_of};
ghost use Rattle.session_mux.specs.declared.frame_why.FrameWhy.{FrameWhy};
ghost use Rattle.session_run.specs.Answered.{Moment};
ghost use Rattle.session_run.specs.Served.{IsSession, frame_bytes, most_results};
ghost use Rattle.session_run.specs.Spent.{most_looks, spent_of};
ghost use Rattle.session_run.specs.Turns.{steps_of};
ghost use Rattle.session_run.specs.declared.ended.End.{End};
ghost use Rattle.session_run.specs.declared.ended.Ended.{Ended};
ghost use Rattle.session_run.specs.declared.serve.Setup.{Setup};
ghost use Rattle.sg_outside.specs.declared.sink.Gave.{Gave};
ghost use Rattle.sg_outside.specs.declared.wire.Got.{Got};

/// What was received last decides the end: the wire's end closes the session; a fault of it, as it received or as it sent, is a wire
/// fault; a text message is at fault, counted behind all frames; and where what was received are not all frames, the last is
/// at fault, unless memory ran out.
pub fn ends()
    ensures closed { (setup : Setup) (start final : Moment) (ended : Ended) (results : List Got)
        (sent : List (List ℕ)) (failed : List Gave) (earlier : List Got)
        → IsSession setup start final ended results sent failed
        → results ≡ earlier ++ Got.End ∷ [] → ended.end ≡ End.Closed }
    ensures received { (setup : Setup) (start final : Moment) (ended : Ended) (results : List Got)
        (sent : List (List ℕ)) (failed : List Gave) (earlier : List Got)
        → IsSession setup start final ended results sent failed
        → results ≡ earlier ++ Got.Failed ∷ [] → ended.end ≡ End.WireFault }
    ensures sent { (setup : Setup) (start final : Moment) (ended : Ended) (results : List Got)
        (sent : List (List ℕ)) (failed : List Gave)
        → IsSession setup start final ended results sent failed
        → failed ≢ [] → ended.end ≡ End.WireFault }
    ensures text { (setup : Setup) (start final : Moment) (ended : Ended) (results : List Got)
        (sent : List (List ℕ)) (failed : List Gave) (earlier : List Got)
        → IsSession setup start final ended results sent failed
        → results ≡ earlier ++ Got.Text ∷ []
        → ended.end ≡ End.BadFrame (length (frame_bytes results) + 1) FrameWhy.NotBinary }
    ensures frames { (setup : Setup) (start final : Moment) (ended : Ended) (results : List Got)
        (sent : List (List ℕ)) (failed : List Gave) (fault : FrameFault)
        → IsSession setup start final ended results sent failed
        → frames_at 0 (frame_bytes results) ≡ Err fault
        → (ended.end ≡ End.BadFrame (length (frame_bytes results)) (why_of fault))
        ⊎ (ended.end ≡ End.Memory) }
{}

/// Where the wire did not fail and gave no text message, all that came are frames in order, and fewer results came and fewer looks were
/// spent than a session takes, the session ends with the wire, unless memory runs out. Where it does, all requests that came and want a
/// reply have theirs, in their order, and all was sent that may be sent.
pub fn complete()
    ensures ends { (setup : Setup) (start final : Moment) (ended : Ended) (results : List Got)
        (sent : List (List ℕ)) (failed : List Gave)
        → (session : IsSession setup start final ended results sent failed)
        → list_any is_faulty results ≡ false → failed ≡ []
        → length results < most_results → spent_of (steps_of session.turns) < most_looks
        → AreAcksInOrder session.turns session.left results
        → (ended.end ≡ End.Closed) ⊎ (ended.end ≡ End.Memory) }
    ensures replies { (setup : Setup) (start final : Moment) (ended : Ended) (results : List Got)
        (sent : List (List ℕ)) (failed : List Gave)
        → (session : IsSession setup start final ended results sent failed)
        → ended.end ≡ End.Closed
        → replied (put_by (steps_of session.turns)) ≡ asked_by (steps_of session.turns) }
    ensures sent { (setup : Setup) (start final : Moment) (ended : Ended) (results : List Got)
        (sent : List (List ℕ)) (failed : List Gave)
        → (session : IsSession setup start final ended results sent failed)
        → ended.end ≡ End.Closed → picked session.left ≡ None }
{
    crate::exchanges::replies();
    session_run::laws::sessions();
}
