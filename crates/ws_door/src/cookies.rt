//! The session in a cookie header.

ghost use Rattle.std.specs.Prelude.{◌≡◌, option_map};
ghost use Rattle.ws_door.specs.Items.{parted_at};
ghost use Rattle.ws_door.specs.Cookies as spec;

use crate::items::trim;
use sg_history::cut;

/// What stands before and behind the first `=`.
fn name_and_value(item: &[u8]) -> Option<(&[u8], &[u8])>
    ensures { option_map (λ p. (p.0.now, p.1.now)) result ≡ parted_at 61 item.now }
{
    cut(item, b'=')
}

fn session_in_item(item: &[u8]) -> Option<&[u8]>
    ensures { option_map (λ v. v.now) result ≡ spec.session_in_item item.now }
{
    match name_and_value(trim(item)) {
        Some((name, value)) if name == b"SyncGatewaySession".as_slice() => Some(value),
        _ => None,
    }
}

/// The session in a cookie header's value.
pub(crate) fn session_in_cookies(value: &[u8]) -> Option<&[u8]>
    ensures { option_map (λ v. v.now) result ≡ spec.session_in_cookies value.now }
{
    let mut rest = value;
    while let Some((item, later)) = cut(rest, b';') {
        if let Some(session) = session_in_item(item) {
            return Some(session);
        }
        rest = later;
    }
    session_in_item(rest)
}
