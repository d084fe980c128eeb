//! Looks for feeds by users who go on from the front of the look before: after each of some writes at a ground; or at each of the last places
//! of a journal, with how often they read its log; or of two users who both just gained a channel.

ghost use Rattle.std.specs.Prelude.{◌≡◌, ◌≤◌, length, IfOk};
ghost use Rattle.grant_history.specs.Stands.{StandsFor};
ghost use Rattle.changes_feed.specs.Feeds.{FeedsStandFor};

use crate::grounds::{
    IN_A, OPTIONS, ground_of, is_revision_stored, program_of, revision_with, rows_of,
};
use crate::lists::passed_since;
use crate::stop::{Stop, load};
use changes_feed::Feeds;
use grant_history::GrantHistory;
use repl_messages::Revision;
use sg_history::{Key, Log, LogReads, Name, take_journal};
use sg_outside::{Bytes, Files};
use std::alloc::{AllocError, Global};
use std::time::{Clock, Instant};
use sync_resolve::Resolved;
use write_path::{Ground, SoloGround};

/// A sync function that grants a user a channel where the document names them.
const GRANTING: &str =
    "function(doc, oldDoc) { channel(doc.channels); access(doc.user, doc.granted); }";

/// One of so many writes grants, where some do.
const GRANTS_EVERY: u64 = 10;

/// How many channels are kept at most, and of how many users the periods.
const KEPT: u64 = 1_024;

/// The place of a journal at which `u0` is put.
const FIRST_PUT: u64 = 2;

/// Where the system says how many nanoseconds this thread had a processor.
const PROCESSOR_TIME: &str = "/proc/self/schedstat";

/// How many rows looks had, and how many nanoseconds of the processor they and the writes between them took.
#[derive(Drop)]
pub struct Followed {
    pub rows: u64,
    pub nanoseconds: u64,
}

/// How many rows looks had, how often they read the log, and one of them at most, how many channels were looked up in the whole log, and how
/// many nanoseconds passed.
#[derive(Drop)]
pub struct Looked {
    pub rows: u64,
    pub reads: u64,
    pub most: u64,
    pub refills: u64,
    pub nanoseconds: u64,
}

/// The key of a front.
pub fn plain(front: u64) -> Key {
    Key {
        by: front,
        seq: front,
    }
}

fn add_user(users: &mut Vec<Name>, user: Name) -> Result<(), AllocError> {
    users.push(user)?;
    Ok(())
}

/// The users `u0`, `u1` and so on, so many of them.
fn users_of(alloc: Global, count: u64) -> Result<Vec<Name>, Stop> {
    let mut users = Vec::new(alloc);
    for number in 0..count {
        let name = format!(in alloc; "u{number}")?;
        add_user(&mut users, Name::parse(alloc, name.as_str())?)?;
    }
    Ok(users)
}

/// The nanoseconds of the processor so far; 0 where the system does not say.
fn processor_time<F: Files>(alloc: Global, files: &mut F) -> Result<u64, Stop> {
    let bytes = load(alloc, files, PROCESSOR_TIME)?;
    let Ok(text) = std::str::from_utf8(bytes.as_slice()) else {
        return Err(Stop::Text);
    };
    let (first, _) = text.split_once(' ').unwrap_or((text, ""));
    Ok(first.parse::<u64>().unwrap_or(0))
}

/// A revision of a document in channel A, which grants a user `g` where that is asked for.
fn revision_of(alloc: Global, number: u64, grants: bool) -> Result<Revision, Stop> {
    if !grants {
        return revision_with(alloc, number, IN_A);
    }
    let user = number / GRANTS_EVERY;
    let body = format!(in alloc;
        "{{\"channels\":[\"A\"],\"user\":\"u{user}\",\"granted\":\"g\"}}"
    )?;
    revision_with(alloc, number, body.as_bytes())
}

/// Whether such a revision is stored.
fn is_written(
    alloc: Global,
    ground: &mut SoloGround,
    program: &Resolved,
    number: u64,
    grants: bool,
) -> Result<bool, Stop> {
    let writer = Name::parse(alloc, "ann")?;
    let revision = revision_of(alloc, number, grants)?;
    Ok(is_revision_stored(alloc, ground, program, &writer, revision))
}

/// How many rows the users' looks after a key have.
fn looks(alloc: Global, ground: &mut SoloGround, users: &[Name], since: &Key) -> Result<u64, Stop> {
    let mut count = 0u64;
    for user in users {
        let rows = rows_of(alloc, ground, user, since)?;
        count = count.saturating_add(rows.as_slice().len() as u64);
    }
    Ok(count)
}

/// How many rows the users' looks have, of which each has one after each of so many writes under a program.
fn looks_under(
    alloc: Global,
    ground: &mut SoloGround,
    program: &Resolved,
    users: &[Name],
    granting: bool,
    writes: u64,
) -> Result<u64, Stop> {
    let mut count = 0u64;
    for number in 0..writes {
        let since = plain(ground.front());
        let grants = granting && number % GRANTS_EVERY == 0;
        if is_written(alloc, ground, program, number, grants)? {
            count = count.saturating_add(looks(alloc, ground, users, &since)?);
        }
    }
    Ok(count)
}

/// The same under a program that grants what a document says.
fn looks_after(
    alloc: Global,
    ground: &mut SoloGround,
    users: &[Name],
    granting: bool,
    writes: u64,
) -> Result<u64, Stop> {
    let program = program_of(alloc, GRANTING)?;
    let count = looks_under(alloc, ground, &program, users, granting, writes);
    drop(program);
    count
}

/// The rows and the time of the users' looks and of the writes between them, behind a first look of each.
fn timed<F: Files>(
    alloc: Global,
    files: &mut F,
    ground: &mut SoloGround,
    users: &[Name],
    granting: bool,
    writes: u64,
) -> Result<Followed, Stop> {
    let since = plain(ground.front());
    looks(alloc, ground, users, &since)?;
    let before = processor_time(alloc, files)?;
    let rows = looks_after(alloc, ground, users, granting, writes)?;
    let nanoseconds = processor_time(alloc, files)?.saturating_sub(before);
    Ok(Followed { rows, nanoseconds })
}

/// So many users look at the ground of a journal, and then each after each of so many writes, of which every tenth may grant one of them a
/// channel: the rows and the time of these looks and the writes.
pub fn follow<F: Files>(
    alloc: Global,
    files: &mut F,
    journal: Bytes,
    granting: bool,
    writes: u64,
    users: u64,
) -> Result<Followed, Stop> {
    let mut ground = ground_of(alloc, journal)?;
    let followed = match users_of(alloc, users.max(1)) {
        Ok(users) => {
            let found = timed(
                alloc,
                files,
                &mut ground,
                users.as_slice(),
                granting,
                writes,
            );
            drop(users);
            found
        }
        Err(stop) => Err(stop),
    };
    drop(ground);
    followed
}

/// No look.
fn none() -> Looked {
    Looked {
        rows: 0,
        reads: 0,
        most: 0,
        refills: 0,
        nanoseconds: 0,
    }
}

/// Adds what one look found.
fn add(all: &mut Looked, one: &Looked) {
    all.rows = all.rows.saturating_add(one.rows);
    all.reads = all.reads.saturating_add(one.reads);
    all.most = all.most.max(one.most);
    all.refills = all.refills.saturating_add(one.refills);
    all.nanoseconds = all.nanoseconds.saturating_add(one.nanoseconds);
}

/// A look after a key, at a front.
fn look_at<R: Clock>(
    rt: &R,
    feeds: &mut Feeds,
    grants: &GrantHistory,
    log: &mut LogReads<'_>,
    user: &Name,
    since: &Key,
    front: u64,
) -> Result<Looked, AllocError>
    requires within { front ≤ length log.old.entries }
    requires stands { FeedsStandFor feeds.old log.old.entries }
    requires grants { StandsFor grants.now log.old.entries }
    requires applied { grants.now.applied ≡ length log.old.entries }
    ensures stands { FeedsStandFor feeds.new log.new.entries }
    ensures log { log.new.entries ≡ log.old.entries }
{
    let before = log.reads();
    let then = Instant::now(rt);
    let found = feeds.advance_by(grants, log, user, since, front, &OPTIONS);
    let nanoseconds = passed_since(rt, then);
    let advanced = found?;
    let reads = log.reads().saturating_sub(before);
    Ok(Looked {
        rows: advanced.rows.as_slice().len() as u64,
        reads,
        most: reads,
        refills: advanced.refills,
        nanoseconds,
    })
}

/// A look of each user after a key, at a front.
fn look_each<R: Clock>(
    rt: &R,
    feeds: &mut Feeds,
    grants: &GrantHistory,
    log: &mut LogReads<'_>,
    users: &[Name],
    since: &Key,
    front: u64,
    all: &mut Looked,
) -> Result<(), AllocError>
    requires within { front ≤ length log.old.entries }
    requires stands { FeedsStandFor feeds.old log.old.entries }
    requires grants { StandsFor grants.now log.old.entries }
    requires applied { grants.now.applied ≡ length log.old.entries }
    ensures stands { FeedsStandFor feeds.new log.new.entries }
    ensures log { log.new.entries ≡ log.old.entries }
{
    for user in users {
        let one = look_at(rt, feeds, grants, log, user, since, front)?;
        add(all, &one);
    }
    Ok(())
}

/// The users' looks at each place of a journal behind one, each from the place before.
fn look_on<R: Clock>(
    rt: &R,
    feeds: &mut Feeds,
    grants: &GrantHistory,
    log: &mut LogReads<'_>,
    users: &[Name],
    from: u64,
) -> Result<Looked, AllocError>
    requires stands { FeedsStandFor feeds.old log.old.entries }
    requires grants { StandsFor grants.now log.old.entries }
    requires applied { grants.now.applied ≡ length log.old.entries }
{
    let mut all = none();
    for place in from..grants.applied() {
        let since = plain(place);
        look_each(rt, feeds, grants, log, users, &since, place + 1, &mut all)?;
    }
    Ok(all)
}

/// The users' looks at each place of a log behind one, behind a look of the first user there, since the user was put: the lists of the user's
/// channels are kept.
fn looks_behind_one<R: Clock>(
    rt: &R,
    alloc: Global,
    feeds: &mut Feeds,
    grants: &GrantHistory,
    log: &mut LogReads<'_>,
    users: &[Name],
    from: u64,
) -> Result<Looked, Stop>
    requires within { from ≤ length log.old.entries }
    requires stands { FeedsStandFor feeds.old log.old.entries }
    requires grants { StandsFor grants.now log.old.entries }
    requires applied { grants.now.applied ≡ length log.old.entries }
{
    let since = plain(FIRST_PUT);
    let first = Name::parse(alloc, "u0")?;
    look_at(rt, feeds, grants, log, &first, &since, from)?;
    Ok(look_on(rt, feeds, grants, log, users, from)?)
}

/// So many users' looks at the last so many places of a log, behind one of the first user before them.
fn last_looks<R: Clock>(
    rt: &R,
    alloc: Global,
    log: &Log,
    grants: &GrantHistory,
    places: u64,
    users: u64,
) -> Result<Looked, Stop>
    requires grants { StandsFor grants.now log.now.entries.list }
    requires applied { grants.now.applied ≡ length log.now.entries.list }
{
    let users = users_of(alloc, users)?;
    let from = grants.applied().saturating_sub(places);
    let mut feeds = Feeds::new(alloc, KEPT)?;
    let mut reads = LogReads::new(log);
    let all = users.as_slice();
    let found = looks_behind_one(rt, alloc, &mut feeds, grants, &mut reads, all, from);
    drop(feeds);
    found
}

/// The looks of `ann` and of `bob` at the end of a log since its last two entries, behind a look of `carol` at its end.
fn looks_of_both<R: Clock>(
    rt: &R,
    alloc: Global,
    feeds: &mut Feeds,
    grants: &GrantHistory,
    log: &mut LogReads<'_>,
) -> Result<(Looked, Looked), Stop>
    requires stands { FeedsStandFor feeds.old log.old.entries }
    requires grants { StandsFor grants.now log.old.entries }
    requires applied { grants.now.applied ≡ length log.old.entries }
{
    let (ann, bob) = (Name::parse(alloc, "ann")?, Name::parse(alloc, "bob")?);
    let carol = Name::parse(alloc, "carol")?;
    let end = grants.applied();
    let (last, since) = (plain(end), plain(end.saturating_sub(2)));
    look_at(rt, feeds, grants, log, &carol, &last, end)?;
    let first = look_at(rt, feeds, grants, log, &ann, &since, end)?;
    let second = look_at(rt, feeds, grants, log, &bob, &since, end)?;
    Ok((first, second))
}

/// The same with lists that nobody asked before.
fn both_looks<R: Clock>(
    rt: &R,
    alloc: Global,
    log: &Log,
    grants: &GrantHistory,
) -> Result<(Looked, Looked), Stop>
    requires grants { StandsFor grants.now log.now.entries.list }
    requires applied { grants.now.applied ≡ length log.now.entries.list }
{
    let mut feeds = Feeds::new(alloc, KEPT)?;
    let mut reads = LogReads::new(log);
    let found = looks_of_both(rt, alloc, &mut feeds, grants, &mut reads);
    drop(feeds);
    found
}

/// A history of grants that has applied a log.
pub fn grants_of(alloc: Global, log: &Log) -> Result<GrantHistory, AllocError>
    ensures stands { IfOk result (λ grants. StandsFor grants log.now.entries.list) }
    ensures applied { IfOk result (λ grants. grants.applied ≡ length log.now.entries.list) }
{
    let mut history = GrantHistory::new(alloc);
    history.apply(&mut LogReads::new(log), log.entries.len() as u64)?;
    Ok(history)
}

/// What so many users' looks at the last so many places of a journal find, each from the place before.
pub fn advance<R: Clock>(
    rt: &R,
    alloc: Global,
    journal: Bytes,
    places: u64,
    users: u64,
) -> Result<Looked, Stop> {
    let log = take_journal(alloc, journal)?;
    let history = grants_of(alloc, &log)?;
    let found = last_looks(rt, alloc, &log, &history, places, users);
    drop(history);
    found
}

/// What looks of `ann` and of `bob` at the end of a journal find since its last two entries.
pub fn gain<R: Clock>(rt: &R, alloc: Global, journal: Bytes) -> Result<(Looked, Looked), Stop> {
    let log = take_journal(alloc, journal)?;
    let history = grants_of(alloc, &log)?;
    let found = both_looks(rt, alloc, &log, &history);
    drop(history);
    found
}
