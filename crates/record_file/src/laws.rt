//! What holds of the texts of recorded sessions. The calls do nothing.

ghost use Rattle.std.specs.Prelude.{◌≡◌, ◌⊎◌, ℕ, List};
ghost use Rattle.sg_history.specs.declared.fault.BadLine.{BadLine};
ghost use Rattle.record_file.specs.declared.record.Recorded.{Recorded};
ghost use Rattle.record_file.specs.Lines.{IsBadRecord};
ghost use Rattle.record_file.specs.Record.{SpellsRecord};

/// A text is that of one recorded session at most, it has one first bad line at most, and it never is a session's that has one.
/// Each text is a session's or has a first bad line.
pub fn records()
    ensures one { (bytes : List ℕ) (r s : Recorded) → SpellsRecord bytes r → SpellsRecord bytes s → r ≡ s }
    ensures one_bad { (bytes : List ℕ) (a b : BadLine) → IsBadRecord bytes a → IsBadRecord bytes b
        → a ≡ b }
    ensures apart { (bytes : List ℕ) (bad : BadLine) (r : Recorded) → IsBadRecord bytes bad
        → ¬ (SpellsRecord bytes r) }
    ensures either { (bytes : List ℕ) → ((r : Recorded) × SpellsRecord bytes r)
        ⊎ ((bad : BadLine) × IsBadRecord bytes bad) }
{}
