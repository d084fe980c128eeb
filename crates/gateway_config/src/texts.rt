//! Values that are texts in a grammar.

ghost use Rattle.std.specs.Prelude.{◌≡◌, option_map};
ghost use Rattle.std.specs.List.{list_all};
ghost use Rattle.serde_json.specs.View.{view};
ghost use Rattle.sg_names.specs.Grammar.{is_name};
ghost use Rattle.sg_names.specs.Decimal as decimal;
ghost use Rattle.gateway_config.specs.Grammar as grammar;
ghost use Rattle.gateway_config.specs.Members.{member_text};

use serde_json::Value;

fn is_joint(byte: u8) -> bool
    ensures { result ≡ grammar.is_joint byte }
{
    byte == b'-' || byte == b'_'
}

fn is_digit(byte: u8) -> bool
    ensures { result ≡ decimal.is_digit byte }
{
    b'0' <= byte && byte <= b'9'
}

fn is_lower(byte: u8) -> bool
    ensures { result ≡ grammar.is_lower byte }
{
    b'a' <= byte && byte <= b'z'
}

fn is_upper(byte: u8) -> bool
    ensures { result ≡ grammar.is_upper byte }
{
    b'A' <= byte && byte <= b'Z'
}

fn is_database_byte(byte: u8) -> bool
    ensures { result ≡ grammar.is_database_byte byte }
{
    is_lower(byte) || is_digit(byte) || is_joint(byte)
}

fn is_session_byte(byte: u8) -> bool
    ensures { result ≡ grammar.is_session_byte byte }
{
    is_lower(byte) || is_upper(byte) || is_digit(byte) || is_joint(byte)
}

fn is_short(text: &[u8]) -> bool
    ensures { result ≡ grammar.is_short text.now }
{
    !text.is_empty() && text.len() <= 100
}

fn all_database_bytes(text: &[u8]) -> bool
    ensures { result ≡ list_all (λ b. grammar.is_database_byte b) text.now }
{
    text.iter().all(|b| is_database_byte(*b))
}

fn all_session_bytes(text: &[u8]) -> bool
    ensures { result ≡ list_all (λ b. grammar.is_session_byte b) text.now }
{
    text.iter().all(|b| is_session_byte(*b))
}

fn is_database(text: &str) -> bool
    ensures { result ≡ grammar.is_database text.now }
{
    is_short(text.as_bytes()) && all_database_bytes(text.as_bytes())
}

fn is_session(text: &str) -> bool
    ensures { result ≡ grammar.is_session text.now }
{
    is_short(text.as_bytes()) && all_session_bytes(text.as_bytes())
}

/// The database's name that a value is.
pub(crate) fn database_in(value: &Value) -> Option<&str>
    ensures { option_map (λ t. t.now) result
        ≡ member_text (λ t. grammar.is_database t) (view value.now) }
{
    let text = value.as_str()?;
    if is_database(text) { Some(text) } else { None }
}

/// The session that a value is.
pub(crate) fn session_in(value: &Value) -> Option<&str>
    ensures { option_map (λ t. t.now) result
        ≡ member_text (λ t. grammar.is_session t) (view value.now) }
{
    let text = value.as_str()?;
    if is_session(text) { Some(text) } else { None }
}

/// The name of a user or a role that a value is.
pub(crate) fn name_in(value: &Value) -> Option<&str>
    ensures { option_map (λ t. t.now) result ≡ member_text (λ t. is_name t) (view value.now) }
{
    let text = value.as_str()?;
    if sg_names::grammar::is_name(text.as_bytes()) {
        Some(text)
    } else {
        None
    }
}
