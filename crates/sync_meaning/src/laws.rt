//! What holds of every run, however the program is evaluated. The calls do nothing.

ghost use Rattle.sync_meaning.specs.Laws.{EffectsAreLawful, MoreVisitsChangeNothing, OldIsNotAsked};
ghost use Rattle.sync_meaning.specs.Laws.{PlacesChangeNoKind};

/// More visits change no verdict that was reached.
pub fn more_visits()
    ensures { MoreVisitsChangeNothing }
{}

/// What an accepted run does is in the grammars, in order, and not too much.
pub fn effects()
    ensures { EffectsAreLawful }
{}

/// The places of a program change nothing but the place of the rule.
pub fn places()
    ensures { PlacesChangeNoKind }
{}

/// A program of one parameter says the same whatever stood before.
pub fn old_is_not_asked()
    ensures { OldIsNotAsked }
{}
