//! The history of grants of a log, and the channels of a user by it.

ghost use Rattle.std.specs.Prelude.{◌≡◌, ◌≤◌, ℕ, List, length, is_some, IfOk, IfSome};
ghost use Rattle.sg_history.specs.History.{entries_of, past, among};
ghost use Rattle.sg_history.specs.Principals as principals;
ghost use Rattle.log_views.specs.Sorted.{AreSorted};
ghost use Rattle.grant_history.specs.Stands.{StandsFor};

use grant_history::GrantHistory;
use sg_history::{Channels, Log, LogReads, Name};
use std::alloc::{AllocError, Global};

/// Applies the first `front` entries of a log to a history of which nothing is applied. The channels that a user
/// has then; none where the user does not exist.
fn channels_by(
    history: &mut GrantHistory,
    log: &Log,
    front: u64,
    user: &Name,
) -> Result<Option<Channels>, AllocError>
    requires stands { StandsFor history.old (entries_of log.now) }
    requires none { history.old.applied ≡ 0 }
    requires within { front ≤ length (entries_of log.now) }
    ensures exists { IfOk result (λ found. is_some found ≡ principals.exists
        (principals.user_at (past (entries_of log.now) front) user.now)) }
    ensures sorted { IfOk result (λ found. IfSome found (λ channels. AreSorted channels)) }
    ensures channels { IfOk result (λ found. IfSome found
        (λ channels. (channel : List ℕ) → among channels channel ≡ principals.has_channel
        (past (entries_of log.now) front) user.now channel)) }
{
    let mut reads = LogReads::new(log);
    history.apply(&mut reads, front)?;
    if !history.exists_at(user, front) {
        return Ok(None);
    }
    let channels = history.channels_at(user, front)?;
    Ok(Some(channels))
}

/// The channels that a user has at the end of the first `front` entries of a log, by rising bytes; none
/// where the user does not exist there.
pub fn channels_of(
    alloc: Global,
    log: &Log,
    front: u64,
    user: &Name,
) -> Result<Option<Channels>, AllocError>
    requires { front ≤ length (entries_of log.now) }
    ensures exists { IfOk result (λ found. is_some found ≡ principals.exists
        (principals.user_at (past (entries_of log.now) front) user.now)) }
    ensures sorted { IfOk result (λ found. IfSome found (λ channels. AreSorted channels)) }
    ensures channels { IfOk result (λ found. IfSome found
        (λ channels. (channel : List ℕ) → among channels channel ≡ principals.has_channel
        (past (entries_of log.now) front) user.now channel)) }
{
    let mut history = GrantHistory::new(alloc);
    channels_by(&mut history, log, front, user)
}
