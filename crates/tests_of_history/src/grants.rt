//! What users have at a place of a journal, and in which periods.

ghost use Rattle.std.specs.Prelude.{◌≡◌, length, IfOk};
ghost use Rattle.grant_history.specs.Stands.{StandsFor};

use crate::texts::{cut, number_of, write_all};
use grant_history::{GrantHistory, Period};
use sg_history::{Channels, Log, LogReads, Name, Names, TextFault, write_decimal};
use sg_outside::Bytes;
use std::alloc::{AllocError, Global};

/// The history of grants of a whole log.
pub fn applied(alloc: Global, log: &Log) -> Result<GrantHistory, AllocError>
    ensures stands { IfOk result (λ history. StandsFor history log.now.entries.list) }
    ensures all { IfOk result (λ history. history.applied ≡ length log.now.entries.list) }
{
    let mut history = GrantHistory::new(alloc);
    let mut reads = LogReads::new(log);
    let length = reads.length();
    if let Err(fault) = history.apply(&mut reads, length) {
        drop(history);
        return Err(fault);
    }
    Ok(history)
}

fn write_end(end: Option<u64>, text: &mut Bytes) -> Result<(), AllocError> {
    match end {
        Some(to) => write_decimal(to, text),
        None => Ok(()),
    }
}

/// A period as `CHANNEL FROM-TO;`, with nothing for an end that is not there.
fn write_period(period: &Period, text: &mut Bytes) -> Result<(), AllocError> {
    write_all(&[period.channel.as_bytes(), b" "], text)?;
    write_decimal(period.from, text)?;
    text.push(b'-')?;
    write_end(period.to, text)
}

fn write_periods(periods: &[Period], text: &mut Bytes) -> Result<(), AllocError> {
    for period in periods {
        write_period(period, text)?;
        text.push(b';')?;
    }
    Ok(())
}

/// The periods of a user.
pub fn write_periods_of(
    alloc: Global,
    log: &Log,
    user: &str,
    text: &mut Bytes,
) -> Result<(), TextFault> {
    let history = applied(alloc, log)?;
    let written = write_found_of(alloc, &history, user, text);
    drop(history);
    written
}

fn write_found_of(
    alloc: Global,
    history: &GrantHistory,
    user: &str,
    text: &mut Bytes,
) -> Result<(), TextFault> {
    let user = Name::parse(alloc, user)?;
    Ok(write_found(history, &user, text)?)
}

fn write_found(history: &GrantHistory, user: &Name, text: &mut Bytes) -> Result<(), AllocError> {
    let periods = history.periods(user)?;
    let written = write_periods(periods.as_slice(), text);
    drop(periods);
    written
}

/// Channels, each with a blank before it.
pub fn write_channels(channels: &Channels, text: &mut Bytes) -> Result<(), AllocError> {
    for channel in channels.as_slice() {
        write_all(&[b" ", channel.as_bytes()], text)?;
    }
    Ok(())
}

fn write_roles(roles: &Names, text: &mut Bytes) -> Result<(), AllocError> {
    for role in roles.as_slice() {
        write_all(&[b" ", role.as_bytes()], text)?;
    }
    Ok(())
}

/// Channels, a bar, and roles.
fn write_has(channels: &Channels, roles: &Names, text: &mut Bytes) -> Result<(), AllocError> {
    write_channels(channels, text)?;
    text.push(b'|')?;
    write_roles(roles, text)
}

/// What a user has at a place; `none` where the user does not exist.
fn write_state(
    history: &GrantHistory,
    user: &Name,
    k: u64,
    text: &mut Bytes,
) -> Result<(), AllocError> {
    if k > history.applied() {
        return text.extend_from_slice(b"the place is not applied");
    }
    if !history.exists_at(user, k) {
        return text.extend_from_slice(b"none");
    }
    let channels = history.channels_at(user, k)?;
    let roles = match history.roles_at(user, k) {
        Ok(roles) => roles,
        Err(fault) => {
            drop(channels);
            return Err(fault);
        }
    };
    let written = write_has(&channels, &roles, text);
    drop(roles);
    drop(channels);
    written
}

/// The same of a place and a user, with a blank between.
pub fn write_state_of(
    alloc: Global,
    log: &Log,
    asked: &str,
    text: &mut Bytes,
) -> Result<(), TextFault> {
    let history = applied(alloc, log)?;
    let written = write_asked(alloc, &history, asked, text);
    drop(history);
    written
}

fn write_asked(
    alloc: Global,
    history: &GrantHistory,
    asked: &str,
    text: &mut Bytes,
) -> Result<(), TextFault> {
    let (k, user) = cut(asked, ' ');
    let user = Name::parse(alloc, user)?;
    Ok(write_state(history, &user, number_of(k), text)?)
}
