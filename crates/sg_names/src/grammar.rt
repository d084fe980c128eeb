//! The tests of bytes that the grammars of names are made of.

ghost use Rattle.std.specs.Prelude.{◌≡◌};
ghost use Rattle.std.specs.List.{list_all};
ghost use Rattle.sg_names.specs.Grammar as grammar;

fn is_plain_byte(byte: u8) -> bool
    ensures { result ≡ grammar.is_plain_byte byte }
{
    byte >= 32 && byte != 127
}

fn all_plain(text: &[u8]) -> bool
    ensures { result ≡ grammar.is_plain text.now }
{
    text.iter().all(|b| is_plain_byte(*b))
}

fn is_plain_text(text: &[u8]) -> bool
    ensures { result ≡ grammar.is_plain_text text.now }
{
    !text.is_empty() && text.len() <= 250 && all_plain(text)
}

fn lacks(text: &[u8], byte: u8) -> bool
    ensures { result ≡ grammar.lacks byte text.now }
{
    text.iter().all(|b| *b != byte)
}

fn is_dash(text: &[u8]) -> bool
    ensures { result ≡ grammar.is_dash text.now }
{
    text == b"-".as_slice()
}

/// Whether the text is a channel's name.
pub fn is_channel_name(text: &[u8]) -> bool
    ensures { result ≡ grammar.is_channel_name text.now }
{
    is_plain_text(text) && lacks(text, b',') && !is_dash(text)
}

/// Whether the text is a user's or a role's name.
pub fn is_name(text: &[u8]) -> bool
    ensures { result ≡ grammar.is_name text.now }
{
    is_channel_name(text) && lacks(text, b':') && lacks(text, b'=')
}

fn begins_with_underscore(text: &[u8]) -> bool
    ensures { result ≡ grammar.begins_with_underscore text.now }
{
    match text {
        [first, ..] => *first == b'_',
        [] => false,
    }
}

/// Whether the text is a document's name.
pub fn is_doc_id(text: &[u8]) -> bool
    ensures { result ≡ grammar.is_doc_id text.now }
{
    is_plain_text(text) && !begins_with_underscore(text)
}

/// Whether the text is a client's name.
pub fn is_client(text: &[u8]) -> bool
    ensures { result ≡ grammar.is_client text.now }
{
    is_plain_text(text)
}

fn is_digest_byte(byte: u8) -> bool
    ensures { result ≡ grammar.is_digest_byte byte }
{
    byte >= 0x21 && byte <= 0x7e && byte != b','
}

fn all_digest_bytes(text: &[u8]) -> bool
    ensures { result ≡ list_all (λ b. grammar.is_digest_byte b) text.now }
{
    text.iter().all(|b| is_digest_byte(*b))
}

/// Whether the text is a digest.
pub fn is_digest(text: &[u8]) -> bool
    ensures { result ≡ grammar.is_digest text.now }
{
    !text.is_empty() && text.len() <= 64 && all_digest_bytes(text)
}
