//! What holds of the texts of scripts. The calls do nothing.

ghost use Rattle.std.specs.Prelude.{◌≡◌, ◌⊎◌, ℕ, List};
ghost use Rattle.sg_history.specs.declared.fault.BadLine.{BadLine};
ghost use Rattle.principals.specs.declared.admin_line.AdminLine.{AdminLine};
ghost use Rattle.principals.specs.Script.{SpellsScript};
ghost use Rattle.principals.specs.Faults.{IsBadScript};

/// A text is that of one list of lines at most, it has one first bad line at most, and it never is a script that has one. Each
/// text is a script or has a first bad line.
pub fn scripts()
    ensures one { (bytes : List ℕ) (a b : List AdminLine) → SpellsScript bytes a → SpellsScript bytes b
        → a ≡ b }
    ensures one_bad { (bytes : List ℕ) (a b : BadLine) → IsBadScript bytes a → IsBadScript bytes b
        → a ≡ b }
    ensures apart { (bytes : List ℕ) (bad : BadLine) (lines : List AdminLine)
        → IsBadScript bytes bad
        → ¬ (SpellsScript bytes lines) }
    ensures either { (bytes : List ℕ) → ((lines : List AdminLine) × SpellsScript bytes lines)
        ⊎ ((bad : BadLine) × IsBadScript bytes bad) }
{}
