//! A journal that is applied to a history of grants, and the channels, the roles or the periods of a user that it is asked for.

use crate::feeds::grants_of;
use crate::stop::Stop;
use grant_history::GrantHistory;
use sg_history::{Log, Name, take_journal};
use sg_outside::Bytes;
use std::alloc::Global;

/// How many channels the user has at so many places, from first to last.
fn channels(history: &GrantHistory, user: &Name, times: u64) -> Result<u64, Stop> {
    let mut count = 0u64;
    for time in 0..times {
        let k = (history.applied() / times).saturating_mul(time);
        if k <= history.applied() {
            let found = history.channels_at(user, k)?;
            count = count.saturating_add(found.as_slice().len() as u64);
        }
    }
    Ok(count)
}

/// How many roles the user has at so many places, from first to last.
fn roles(history: &GrantHistory, user: &Name, times: u64) -> Result<u64, Stop> {
    let mut count = 0u64;
    for time in 0..times {
        let k = (history.applied() / times).saturating_mul(time);
        if k <= history.applied() {
            let found = history.roles_at(user, k)?;
            count = count.saturating_add(found.as_slice().len() as u64);
        }
    }
    Ok(count)
}

/// What a job finds in a history.
fn asked(alloc: Global, history: &GrantHistory, job: &str, times: u64) -> Result<u64, Stop> {
    let user = Name::parse(alloc, "ann")?;
    match job {
        "channels" => channels(history, &user, times),
        "roles" => roles(history, &user, times),
        "periods" => Ok(history.periods(&user)?.as_slice().len() as u64),
        _ => Ok(history.applied()),
    }
}

/// Applies a log, and counts what a job finds.
fn applied(alloc: Global, log: &Log, job: &str, times: u64) -> Result<u64, Stop> {
    let history = grants_of(alloc, log)?;
    let found = asked(alloc, &history, job, times);
    drop(history);
    found
}

/// What a job finds in the history of a journal; the number of its entries where it is to be read alone.
pub fn job(alloc: Global, journal: Bytes, name: &str, times: u64) -> Result<u64, Stop> {
    let log = take_journal(alloc, journal)?;
    match name {
        "entries" => Ok(log.entries.len() as u64),
        _ => applied(alloc, &log, name, times),
    }
}
