//! The periods of the users that looked last.

ghost use Rattle.std.specs.Prelude.{◌≡◌, ◌≤◌, List, IfOk, IfSome, string_bytes};
ghost use Rattle.std.specs.List.{All};
ghost use Rattle.sg_history.specs.declared.entries.Entry.{Entry};
ghost use Rattle.grant_history.specs.Stands.{StandsFor};
ghost use Rattle.changes_feed.specs.inner.Bounds.{IsSteady};
ghost use Rattle.changes_feed.specs.Feeds.{ArePeriodsOf, of_user, of_users};

use grant_history::{GrantHistory, Periods};
use lru::LruCache;
use sg_history::Name;
use sg_outside::Memory;
use std::alloc::Global;

/// The periods of a user's channels, as they were taken up to a place of the log.
#[derive(Drop)]
pub struct TakenPeriods {
    pub place: u64,
    pub periods: Periods,
}

/// Periods by the names of users, those of the user that looked last first.
pub type KeptPeriods = LruCache<String, TakenPeriods>;

/// The periods of a user's channels up to the place to which a history is applied.
fn take_anew(grants: &GrantHistory, user: &Name) -> Result<TakenPeriods, Memory>
    ensures of { IfOk result (λ taken. (entries : List Entry) → StandsFor grants.now entries
        → ArePeriodsOf entries (of_user user.now taken)) }
    ensures up_to { IfOk result (λ taken. grants.now.applied ≤ taken.place) }
{
    let periods = grants.periods(user)?;
    Ok(TakenPeriods {
        place: grants.applied(),
        periods,
    })
}

/// Periods that were taken earlier, up to the place to which a history is applied, where the user has had the same
/// channels since, given a place from which on these are the same; else none.
fn renewed(
    grants: &GrantHistory,
    user: &Name,
    changed: u64,
    taken: TakenPeriods,
) -> Option<TakenPeriods>
    requires { (entries : List Entry) → StandsFor grants.now entries
        → IsSteady entries user.now changed grants.now.applied }
    ensures of { IfSome result (λ renewed. (entries : List Entry) → StandsFor grants.now entries
        → ArePeriodsOf entries (of_user user.now taken)
        → ArePeriodsOf entries (of_user user.now renewed)) }
    ensures up_to { IfSome result (λ renewed. grants.now.applied ≤ renewed.place) }
{
    if taken.place < changed {
        drop(taken);
        return None;
    }
    let TakenPeriods { place, periods } = taken;
    Some(TakenPeriods {
        place: place.max(grants.applied()),
        periods,
    })
}

/// The periods of a user's channels up to the place to which a history is applied or one behind it: those that are kept, where
/// the user has had the same channels since, given a place from which on these are the same, and else by the history. They are
/// kept no more.
pub fn take_periods(
    kept: &mut KeptPeriods,
    grants: &GrantHistory,
    user: &Name,
    changed: u64,
) -> Result<TakenPeriods, Memory>
    requires { (entries : List Entry) → StandsFor grants.now entries
        → IsSteady entries user.now changed grants.now.applied }
    ensures kept { (entries : List Entry) → All (ArePeriodsOf entries) (of_users kept.old.entries)
        → All (ArePeriodsOf entries) (of_users kept.new.entries) }
    ensures of { IfOk result (λ taken. (entries : List Entry) → StandsFor grants.now entries
        → All (ArePeriodsOf entries) (of_users kept.old.entries)
        → ArePeriodsOf entries (of_user user.now taken)) }
    ensures up_to { IfOk result (λ taken. grants.now.applied ≤ taken.place) }
{
    let Some(before) = kept.pop(user.as_str()) else {
        return take_anew(grants, user);
    };
    match renewed(grants, user, changed, before) {
        None => take_anew(grants, user),
        Some(taken) => Ok(taken),
    }
}

/// Keeps periods under a name. Out of memory they are not kept.
fn put(kept: &mut KeptPeriods, name: String, taken: TakenPeriods)
    ensures { (entries : List Entry) → ArePeriodsOf entries (of_user (string_bytes name) taken)
        → All (ArePeriodsOf entries) (of_users kept.old.entries)
        → All (ArePeriodsOf entries) (of_users kept.new.entries) }
{
    match kept.put(name, taken) {
        Ok(before) => drop(before),
        Err(failed) => drop(failed),
    }
}

/// Keeps the periods of a user. Out of memory they are not kept.
pub fn keep_periods(alloc: Global, kept: &mut KeptPeriods, user: &Name, taken: TakenPeriods)
    ensures { (entries : List Entry) → ArePeriodsOf entries (of_user user.now taken)
        → All (ArePeriodsOf entries) (of_users kept.old.entries)
        → All (ArePeriodsOf entries) (of_users kept.new.entries) }
{
    match String::from_str(alloc, user.as_str()) {
        Ok(name) => put(kept, name, taken),
        Err(_) => drop(taken),
    }
}
