//! What holds of every rule. The call does nothing.

ghost use Rattle.sync_eval.specs.Verdicts.{RulesHaveTextsOfTheirOwn};

/// A rule is known by its text: its kind, its place, and what was thrown.
pub fn rules_have_texts_of_their_own()
    ensures { RulesHaveTextsOfTheirOwn }
{}
