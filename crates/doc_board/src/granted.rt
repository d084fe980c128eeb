//! What a user is given by the history of grants.

ghost use Rattle.std.specs.Prelude.{◌≡◌, ℕ, List, is_some, length, reverse, IfOk, IfSome};
ghost use Rattle.std.specs.Option.{option_copied};
ghost use Rattle.doc_board.specs.Answers.{proposer_exists};
ghost use Rattle.doc_board.specs.Contexts.{IsContext, IsUserWith};
ghost use Rattle.sg_history.specs.declared.entries.Entry.{Entry};
ghost use Rattle.sg_history.specs.History.{among};
ghost use Rattle.sg_history.specs.Principals.{exists, user_at, has_channel};
ghost use Rattle.log_views.specs.Sorted.{AreSorted};
ghost use Rattle.grant_history.specs.Stands.{StandsFor};

use grant_history::GrantHistory;
use sg_history::{Channels, Name, Names};
use sg_outside::Memory;
use std::alloc::Global;
use sync_meaning::Context;

/// The channels that a user has at the end of a log that is applied to its end, by rising bytes; none where the user does not
/// exist there.
pub(crate) fn channels_at_end(
    grants: &GrantHistory,
    user: &Name,
) -> Result<Option<Channels>, Memory>
    ensures exists { IfOk result (λ found. (entries : List Entry) → StandsFor grants.now entries
        → grants.now.applied ≡ length entries
        → is_some found ≡ exists (user_at (reverse entries) user.now)) }
    ensures sorted { IfOk result (λ found. IfSome found (λ channels. AreSorted channels)) }
    ensures channels { IfOk result (λ found. (entries : List Entry) → StandsFor grants.now entries
        → grants.now.applied ≡ length entries → IfSome found (λ channels. (c : List ℕ)
        → among channels c ≡ has_channel (reverse entries) user.now c)) }
{
    let end = grants.applied();
    if !grants.exists_at(user, end) {
        return Ok(None);
    }
    Ok(Some(grants.channels_at(user, end)?))
}

/// Whether the one who proposes a revision exists at the end of a log that is applied to its end: the user, or the administrator, who
/// does.
pub(crate) fn exists_at_end(grants: &GrantHistory, by: Option<&Name>) -> bool
    ensures { (entries : List Entry) → StandsFor grants.now entries
        → grants.now.applied ≡ length entries
        → result ≡ proposer_exists (reverse entries) (option_copied by.entry) }
{
    match by {
        None => true,
        Some(user) => grants.exists_at(user, grants.applied()),
    }
}

/// A user with the roles and channels that it has at the end of a log that is applied to its end.
fn context_of_user(alloc: Global, grants: &GrantHistory, user: &Name) -> Result<Context, Memory>
    ensures { IfOk result (λ context. (entries : List Entry) → StandsFor grants.now entries
        → grants.now.applied ≡ length entries → IsUserWith (reverse entries) user.now context) }
{
    let end = grants.applied();
    let channels = grants.channels_at(user, end)?;
    let roles = match grants.roles_at(user, end) {
        Ok(roles) => roles,
        Err(error) => {
            drop(channels);
            return Err(error);
        }
    };
    match user.copy(alloc) {
        Ok(name) => Ok(Context {
            user: Some(name),
            roles,
            channels,
        }),
        Err(error) => {
            drop(roles);
            drop(channels);
            Err(error)
        }
    }
}

/// Who proposes a revision, a user or the administrator, at the end of a log that is applied to its end.
pub(crate) fn context_at_end(
    alloc: Global,
    grants: &GrantHistory,
    by: Option<&Name>,
) -> Result<Context, Memory>
    ensures { IfOk result (λ context. (entries : List Entry) → StandsFor grants.now entries
        → grants.now.applied ≡ length entries
        → IsContext (reverse entries) (option_copied by.entry) context) }
{
    match by {
        None => Ok(Context {
            user: None,
            roles: Names::new(alloc),
            channels: Channels::new(alloc),
        }),
        Some(user) => context_of_user(alloc, grants, user),
    }
}
