//! Kept channels that are asked for at two places of a journal: how often the second ask reads the log, and how long it takes.

ghost use Rattle.std.specs.Prelude.{◌≡◌, ◌≤◌, length, IfOk};
ghost use Rattle.channel_cache.specs.Stands.{IndexesTo, StandsFor};

use crate::stop::Stop;
use channel_cache::Lists;
use grant_history::GrantHistory;
use log_index::LogIndex;
use sg_history::{ChannelName, Log, LogReads, TextFault, take_journal};
use sg_outside::Bytes;
use std::alloc::{AllocError, Global};
use std::cmp::min;
use std::io;
use std::time::{Clock, Instant};

/// How many channels are kept at most.
const KEPT: u64 = 1_000;

/// Channels that are asked for, and a place.
#[derive(Drop)]
struct Ask {
    channels: Vec<ChannelName>,
    to: u64,
}

/// How often the log was read, and how many nanoseconds that took.
#[derive(Drop)]
pub struct Took {
    pub reads: u64,
    pub nanoseconds: u64,
}

/// Channels with a comma between each two.
fn channels_of(alloc: Global, names: &str) -> Result<Vec<ChannelName>, TextFault> {
    let mut channels = Vec::new(alloc);
    for name in names.split(',') {
        channels.push(ChannelName::parse(alloc, name)?)?;
    }
    Ok(channels)
}

/// What `CHANNELS@PLACE` asks for, at most at the end of a log.
fn ask_of(alloc: Global, text: &str, end: u64) -> Result<Ask, TextFault>
    ensures { IfOk result (λ ask. ask.to ≤ end) }
{
    let (names, place) = text.split_once('@').unwrap_or((text, ""));
    let channels = channels_of(alloc, names)?;
    let to = min(place.parse::<u64>().unwrap_or(end), end);
    Ok(Ask { channels, to })
}

/// Asks so often.
fn ask_times(
    index: &LogIndex,
    log: &mut LogReads<'_>,
    lists: &mut Lists,
    ask: &Ask,
    times: u64,
) -> Result<(), AllocError>
    requires within { ask.now.to ≤ length log.old.entries }
    requires stands { StandsFor lists.old log.old.entries }
    requires index { IndexesTo index.now log.old.entries (length log.old.entries) }
    ensures stands { StandsFor lists.new log.new.entries }
    ensures log { log.new.entries ≡ log.old.entries }
{
    for _ in 0..times {
        let found = lists.ask(index, log, ask.channels.as_slice(), ask.to)?;
        drop(found);
    }
    Ok(())
}

/// How many nanoseconds have passed since then; none where the clock can't be read.
pub fn passed_since<R: Clock>(rt: &R, then: io::Result<Instant>) -> u64 {
    let passed = match then {
        Ok(start) => start.elapsed(rt).map_or(0, |time| time.as_nanos()),
        Err(_) => 0,
    };
    u64::try_from(passed).unwrap_or(u64::MAX)
}

/// What asking so often takes.
fn timed<R: Clock>(
    rt: &R,
    index: &LogIndex,
    log: &mut LogReads<'_>,
    lists: &mut Lists,
    ask: &Ask,
    times: u64,
) -> Result<Took, AllocError>
    requires within { ask.now.to ≤ length log.old.entries }
    requires stands { StandsFor lists.old log.old.entries }
    requires index { IndexesTo index.now log.old.entries (length log.old.entries) }
{
    let before = log.reads();
    let then = Instant::now(rt);
    let asked = ask_times(index, log, lists, ask, times);
    let nanoseconds = passed_since(rt, then);
    asked?;
    Ok(Took {
        reads: log.reads().saturating_sub(before),
        nanoseconds,
    })
}

/// Two asks, with a blank between.
fn asks_of(alloc: Global, asks: &str, end: u64) -> Result<(Ask, Ask), TextFault>
    ensures first { IfOk result (λ asks. asks.0.to ≤ end) }
    ensures second { IfOk result (λ asks. asks.1.to ≤ end) }
{
    let (first, second) = asks.split_once(' ').unwrap_or((asks, asks));
    Ok((ask_of(alloc, first, end)?, ask_of(alloc, second, end)?))
}

/// The same where other channels are asked for before.
fn by_index<R: Clock>(
    rt: &R,
    alloc: Global,
    log: &Log,
    index: &LogIndex,
    asks: &str,
    times: u64,
) -> Result<Took, Stop>
    requires { IndexesTo index.now log.now.entries.list (length log.now.entries.list) }
{
    let mut reads = LogReads::new(log);
    let (first, second) = asks_of(alloc, asks, reads.length())?;
    let mut lists = Lists::new(alloc, KEPT)?;
    ask_times(index, &mut reads, &mut lists, &first, 1)?;
    Ok(timed(rt, index, &mut reads, &mut lists, &second, times)?)
}

/// What it takes to ask so often as the second of two asks says, behind the first one, at places of a journal.
pub fn job<R: Clock>(
    rt: &R,
    alloc: Global,
    journal: Bytes,
    asks: &str,
    times: u64,
) -> Result<Took, Stop> {
    let log = take_journal(alloc, journal)?;
    let mut history = GrantHistory::new(alloc);
    history.apply(&mut LogReads::new(&log), log.entries.len() as u64)?;
    by_index(rt, alloc, &log, history.index(), asks, times)
}
