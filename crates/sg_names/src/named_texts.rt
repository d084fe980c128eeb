//! Names of channels, users, roles, documents and clients, and digests of revisions.

ghost use Rattle.sg_names.specs.Grammar.{is_channel_name, is_name, is_doc_id, is_client, is_digest};

use crate::grammar;
use crate::text::{Text, TextGrammar};

/// The grammar of a channel's name.
pub struct ChannelNameGrammar;

impl TextGrammar for ChannelNameGrammar {
    ghost admits = { λ n. is_channel_name n };

    fn is_text(text: &[u8]) -> bool {
        grammar::is_channel_name(text)
    }
}

/// The name of a channel: 1 to 250 bytes of UTF-8 without a comma and control characters, and not `-`.
/// `!` is the channel of every user, and `*` has every document.
pub type ChannelName = Text<ChannelNameGrammar>;

/// The grammar of a user's or a role's name.
pub struct NameGrammar;

impl TextGrammar for NameGrammar {
    ghost admits = { λ n. is_name n };

    fn is_text(text: &[u8]) -> bool {
        grammar::is_name(text)
    }
}

/// The name of a user or a role: 1 to 250 bytes of UTF-8 without a comma, `:`, `=` and control characters, and not `-`.
pub type Name = Text<NameGrammar>;

/// The grammar of a document's name.
pub struct DocIdGrammar;

impl TextGrammar for DocIdGrammar {
    ghost admits = { λ n. is_doc_id n };

    fn is_text(text: &[u8]) -> bool {
        grammar::is_doc_id(text)
    }
}

/// The name of a document: 1 to 250 bytes of UTF-8 without control characters, not beginning with `_`.
pub type DocId = Text<DocIdGrammar>;

/// The grammar of a client's name.
pub struct ClientGrammar;

impl TextGrammar for ClientGrammar {
    ghost admits = { λ n. is_client n };

    fn is_text(text: &[u8]) -> bool {
        grammar::is_client(text)
    }
}

/// The name under which a client keeps its checkpoint: 1 to 250 bytes of UTF-8 without control characters.
pub type Client = Text<ClientGrammar>;

/// The grammar of a digest.
pub struct DigestGrammar;

impl TextGrammar for DigestGrammar {
    ghost admits = { λ n. is_digest n };

    fn is_text(text: &[u8]) -> bool {
        grammar::is_digest(text)
    }
}

/// The digest of a revision: 1 to 64 bytes from 0x21 to 0x7E without a comma.
pub type Digest = Text<DigestGrammar>;
