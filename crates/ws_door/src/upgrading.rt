//! The upgrade to a WebSocket.

ghost use Rattle.std.specs.Prelude.{◌≡◌, ◌≢◌, MatchResult};
ghost use Rattle.ws_door.specs.inner.Shown.{shown};
ghost use Rattle.ws_door.specs.Upgrades.{upgrade_answer, IsUpgradeAnswer, switching_text};

use crate::answer::{Refused, Upgrade};
use crate::asked::{key_in, session_in, version_in};
use crate::reply::switching_text;
use crate::request::{Request, read_request};
use crate::users::user_in;
use gateway_config::Config;
use repl_messages::Version;
use sg_history::Name;
use std::alloc::Global;

/// The upgrade of a user.
fn upgrade_of(alloc: Global, user: &Name, version: Version, key: &[u8]) -> Result<Upgrade, Refused>
    ensures { MatchResult result
        (λ u. u ≡ record {
          user = user.now;
          version = version;
          reply = switching_text key.now version;
        })
        (λ e. e ≡ Refused.Memory) }
{
    match switching_text(alloc, key, version) {
        Ok(reply) => match user.copy(alloc) {
            Ok(user) => Ok(Upgrade {
                user,
                version,
                reply,
            }),
            Err(_) => Err(Refused::Memory),
        },
        Err(_) => Err(Refused::Memory),
    }
}

/// The answer to a request.
fn answer(alloc: Global, request: &Request<'_>, config: &Config) -> Result<Upgrade, Refused>
    ensures { result ≢ Err Refused.Memory
        → result ≡ upgrade_answer config.now.database config.now.users (shown request.now) }
{
    let key = key_in(request, config.database.as_str().as_bytes())?;
    let version = version_in(request)?;
    let session = session_in(request)?;
    let user = user_in(session, config.users.as_slice())?;
    upgrade_of(alloc, user, version, key)
}

/// Answers the head of a request: with the upgrade, or with the first refusal.
pub fn upgrade(alloc: Global, head: &[u8], config: &Config) -> Result<Upgrade, Refused>
    ensures { result ≢ Err Refused.Memory → IsUpgradeAnswer head.now config.now result }
{
    match read_request(head) {
        Some(request) => answer(alloc, &request, config),
        None => Err(Refused::Bad400),
    }
}
