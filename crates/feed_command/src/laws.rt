//! Laws of the words.

ghost use Rattle.std.specs.Prelude.{[], ◌∷◌, codes, true, false};
ghost use Rattle.feed_command.specs.PlainWords.{AskFor, ListsAskForFilters, whole_feed};

/// Three words that do not begin with `-` are the journal, the user and the since key; a flag or the option before them changes what it
/// names alone.
pub fn plain_words()
    ensures whole { AskFor [] whole_feed }
    ensures active_only { AskFor (codes "--active-only" ∷ [])
        (record whole_feed { active_only = true }) }
    ensures no_revocations { AskFor (codes "--no-revocations" ∷ [])
        (record whole_feed { revocations = false }) }
    ensures channels { ListsAskForFilters }
{}
