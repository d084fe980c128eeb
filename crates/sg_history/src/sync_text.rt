//! Texts of sync functions.

ghost use Rattle.std.specs.Prelude.{◌≡◌, ◌&&◌, length, nat_le, nat_lt};
ghost use Rattle.sg_history.specs.SyncText as texts;

use sg_names::{Text, TextGrammar};

/// The most bytes of a text.
const MOST: usize = 65_536;

fn has_length(text: &[u8]) -> bool
    ensures { result ≡ (nat_lt 0 (length text.now) && nat_le (length text.now) 65536) }
{
    text.len() > 0 && text.len() <= MOST
}

/// The grammar of the text of a sync function.
pub struct SyncTextGrammar;

impl TextGrammar for SyncTextGrammar {
    ghost admits = { λ t. texts.is_sync_text t };

    fn is_text(text: &[u8]) -> bool {
        has_length(text)
    }
}

/// The text of a sync function: 1 to 65,536 bytes of UTF-8.
pub type SyncText = Text<SyncTextGrammar>;
