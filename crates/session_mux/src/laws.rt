//! Laws of what a wire records. Each is the contract of a function that does nothing.

ghost use Rattle.std.specs.Prelude.{◌≡◌, ◌≢◌, ℕ, ◌++◌, ◌∷◌, [], List, Option};
ghost use Rattle.sg_outside.specs.Wire.{Traffic, ReceivesIfRecorded};
ghost use Rattle.sg_outside.specs.declared.sink.Gave.{Gave};
ghost use Rattle.sg_outside.specs.declared.wire.Got.{Got};
ghost use Rattle.session_mux.specs.Sent.{Records};

/// What a wire records of two stretches, one after the other; of a result that was received; and where none was, out of memory.
pub fn traffic()
    ensures none { (traffic : Option Traffic) → Records traffic [] [] [] traffic }
    ensures on { (traffic between after : Option Traffic) (got more_got : List Got)
        (sent more_sent : List (List ℕ)) (failed : List Gave)
        → Records traffic got sent [] between → Records between more_got more_sent failed after
        → Records traffic (got ++ more_got) (sent ++ more_sent) failed after }
    ensures received { (traffic after : Option Traffic) (result : Got)
        → ReceivesIfRecorded traffic result after → result ≢ Got.Memory
        → Records traffic (result ∷ []) [] [] after }
    ensures not_received { (traffic after : Option Traffic)
        → ReceivesIfRecorded traffic Got.Memory after → Records traffic [] [] [] after }
{}
