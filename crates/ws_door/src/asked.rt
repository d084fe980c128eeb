//! What a request asks for.

ghost use Rattle.std.specs.Prelude.{◌≡◌, ◌≢◌, ◌++◌, ℕ, List, codes, option_map, MatchOption, MatchResult};
ghost use Rattle.std.specs.Str.{bytes_eq, str_eq_ignore_ascii_case};
ghost use Rattle.ws_door.specs.inner.Shown.{shown};
ghost use Rattle.ws_door.specs.Upgrades as spec;
ghost use Rattle.ws_door.specs.Upgrades.{target_of, passes_test, if_of_24};

use crate::answer::Refused;
use crate::cookies::session_in_cookies;
use crate::items::trim;
use crate::request::Request;
use repl_messages::Version;
use sg_history::cut;

/// What stands behind such a beginning.
fn behind<'a>(text: &'a [u8], front: &[u8]) -> Option<&'a [u8]>
    ensures { MatchOption result ((rest : List ℕ) → text.now ≢ front.now ++ rest)
        (λ r. text.now ≡ front.now ++ r.now) }
{
    text.strip_prefix(front)
}

/// Whether this is the target of the database's endpoint.
fn is_target(target: &[u8], database: &[u8]) -> bool
    ensures { result ≡ bytes_eq target.now (target_of database.now) }
{
    let Some(path) = behind(target, b"/") else {
        return false;
    };
    match behind(path, database) {
        Some(rest) => rest == b"/_blipsync".as_slice(),
        None => false,
    }
}

fn is_websocket(value: Option<&[u8]>) -> bool
    ensures { result ≡ passes_test (λ v. str_eq_ignore_ascii_case v (codes "websocket"))
        (option_map (λ v. v.now) value.entry) }
{
    match value {
        Some(value) => value.eq_ignore_ascii_case(b"websocket"),
        None => false,
    }
}

fn is_version_13(value: Option<&[u8]>) -> bool
    ensures { result ≡ passes_test (λ v. bytes_eq v (codes "13")) (option_map (λ v. v.now) value.entry) }
{
    match value {
        Some(value) => value == b"13".as_slice(),
        None => false,
    }
}

fn of_24(key: Option<&[u8]>) -> Option<&[u8]>
    ensures { option_map (λ k. k.now) result ≡ if_of_24 (option_map (λ k. k.now) key.entry) }
{
    match key {
        Some(key) if key.len() == 24 => Some(key),
        _ => None,
    }
}

fn websocket_key<'a>(request: &Request<'a>) -> Option<&'a [u8]>
    ensures { option_map (λ k. k.now) result ≡ spec.websocket_key (shown request.now) }
{
    if is_websocket(request.upgrade) && is_version_13(request.version) {
        of_24(request.key)
    } else {
        None
    }
}

/// The key of a request for the database's endpoint.
pub(crate) fn key_in<'a>(request: &Request<'a>, database: &[u8]) -> Result<&'a [u8], Refused>
    ensures { MatchResult result (λ k. spec.key_in database.now (shown request.now) ≡ Ok k.now)
        (λ e. spec.key_in database.now (shown request.now) ≡ Err e) }
{
    if request.method != b"GET".as_slice() {
        return Err(Refused::Bad400);
    }
    if !is_target(request.target, database) {
        return Err(Refused::Path404);
    }
    match websocket_key(request) {
        Some(key) => Ok(key),
        None => Err(Refused::Bad400),
    }
}

/// The name of the subprotocol in which a version is spoken.
pub(crate) fn protocol_of(version: Version) -> &'static [u8]
    ensures { result.now ≡ spec.protocol_of version }
{
    match version {
        Version::Two => b"BLIP_3+CBMobile_2",
        Version::Three => b"BLIP_3+CBMobile_3",
    }
}

fn version_named(name: &[u8]) -> Option<Version>
    ensures { result ≡ spec.version_named name.now }
{
    if name == b"BLIP_3+CBMobile_2".as_slice() {
        return Some(Version::Two);
    }
    if name == b"BLIP_3+CBMobile_3".as_slice() {
        return Some(Version::Three);
    }
    None
}

fn version_in_item(item: &[u8]) -> Option<Version>
    ensures { result ≡ spec.version_in_item item.now }
{
    version_named(trim(item))
}

fn version_in_protocols(value: &[u8]) -> Option<Version>
    ensures { result ≡ spec.version_in_protocols value.now }
{
    let mut rest = value;
    while let Some((item, later)) = cut(rest, b',') {
        if let Some(version) = version_in_item(item) {
            return Some(version);
        }
        rest = later;
    }
    version_in_item(rest)
}

/// The version of the first subprotocol that is offered and spoken.
pub(crate) fn version_in(request: &Request<'_>) -> Result<Version, Refused>
    ensures { result ≡ spec.version_in (shown request.now) }
{
    let Some(value) = request.protocols else {
        return Err(Refused::Protocol426);
    };
    match version_in_protocols(value) {
        Some(version) => Ok(version),
        None => Err(Refused::Protocol426),
    }
}

/// The session that the request shows.
pub(crate) fn session_in<'a>(request: &Request<'a>) -> Result<&'a [u8], Refused>
    ensures { MatchResult result (λ s. spec.session_in (shown request.now) ≡ Ok s.now)
        (λ e. spec.session_in (shown request.now) ≡ Err e) }
{
    let Some(value) = request.cookies else {
        return Err(Refused::NoCookie401);
    };
    match session_in_cookies(value) {
        Some(session) => Ok(session),
        None => Err(Refused::NoCookie401),
    }
}
