//! Who has a session.

ghost use Rattle.std.specs.Prelude.{◌≡◌, MatchResult, option_map};
ghost use Rattle.ws_door.specs.Upgrades as spec;

use crate::answer::Refused;
use gateway_config::ConfigUser;
use json_doc::DocText;
use sg_history::Name;

/// Whether a user's session, if it has one, is this one.
fn is_session(session: &[u8], own: &Option<DocText>) -> bool
    ensures { result ≡ spec.is_own_session session.now own.now }
{
    match own {
        Some(own) => own.as_str().as_bytes() == session,
        None => false,
    }
}

fn user_with<'a>(session: &[u8], users: &'a [ConfigUser]) -> Option<&'a Name>
    ensures { option_map (λ n. n.now) result ≡ spec.user_with session.now users.now }
{
    for user in users {
        if is_session(session, &user.session) {
            return Some(&user.name);
        }
    }
    None
}

/// The name of the user that has the session.
pub(crate) fn user_in<'a>(session: &[u8], users: &'a [ConfigUser]) -> Result<&'a Name, Refused>
    ensures { MatchResult result (λ n. spec.user_of_session users.now session.now ≡ Ok n.now)
        (λ e. spec.user_of_session users.now session.now ≡ Err e) }
{
    match user_with(session, users) {
        Some(name) => Ok(name),
        None => Err(Refused::UnknownCookie401),
    }
}
