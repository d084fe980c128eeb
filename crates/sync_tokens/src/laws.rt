//! What holds of the tokens of every text. The calls do nothing.

ghost use Rattle.sync_tokens.specs.Rising.{TokensRise};
ghost use Rattle.sync_tokens.specs.Spellable.{TextsHaveTokens};

/// The tokens of a text but the last can be spelled, and the last is the end or no token.
pub fn texts_have_tokens()
    ensures { TextsHaveTokens }
{}

/// The tokens of a text stand one behind the other, where 32 bits count its lines and columns.
pub fn tokens_rise()
    ensures { TokensRise }
{}
