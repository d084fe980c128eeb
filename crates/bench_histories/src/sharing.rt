//! A board of a journal that threads share behind a gate: each proposes revisions at a ground of its own; or one does, and another pass
//! takes turn after turn, which tells how long a turn is held; or one looks for bodies, a turn each; or each looks for feeds.

ghost use Rattle.std.specs.Prelude.{◌≡◌, ◌≤◌, ◌^◌, [], length, IfOk};
ghost use Rattle.write_path.specs.Shared.{Rests};

use crate::feeds::plain;
use crate::grounds::{
    FUNCTION, START, bodies, ground_of, is_stored, log_of, look, program_of, rows_of,
};
use crate::lists::passed_since as nanoseconds_since;
use crate::stop::Stop;
use doc_board::Board;
use seq_gate::laws::turns;
use seq_gate::{Gate, Pass, open};
use sg_history::{Key, Name, Row, Rows};
use sg_outside::Bytes;
use std::alloc::Global;
use std::io;
use std::sync::Wait;
use std::thread::{JoinHandle, Scope, Threads, join, scope, scope_env};
use std::time::{Clock, Instant};
use sync_resolve::Resolved;
use write_path::{Ground, SharedGround, Shelf};

/// A sync function that takes some 1,000 visits.
const COSTLY: &str =
    "function(doc, oldDoc) { let n = 0; for (let i = 0; i < 110; i++) n = n + i; channel(doc.channels); }";

/// The largest board that is shared.
const MOST_ENTRIES: u64 = 10_000_000;

/// What a thread does with what it owns, and a number that it finds.
pub trait Job: Send + Drop {
    fn run(self) -> u64
    where
        Self: Sized;
}

/// Does both jobs, each in a thread of its own.
pub fn by_two<J: Job, K: Job>(rt: &impl Threads, one: J, two: K) -> (u64, u64) {
    join(rt, || -> u64 { one.run() }, || -> u64 { two.run() })
}

/// A job that was started in a thread, or what it found where no thread could be made.
type Started = Result<JoinHandle<u64>, u64>;

fn start<'s, E, J: Job + 's>(scope: &Scope<'s, E>, job: J) -> Started {
    match scope.spawn(move || -> u64 { job.run() }) {
        Ok(child) => Ok(child),
        Err(refused) => Err((refused.value)()),
    }
}

fn found(rt: &(impl Threads + Wait), started: Started) -> u64 {
    match started {
        Ok(child) => child.join(rt),
        Err(found) => found,
    }
}

/// Does all four jobs, the last of them in this thread.
fn by_four<J: Job>(
    rt: &(impl Threads + Wait),
    one: J,
    two: J,
    three: J,
    four: J,
) -> (u64, u64, u64, u64) {
    let (one, two, three, fourth) = scope(
        scope_env(),
        rt,
        move |scope| -> (Started, Started, Started, u64) {
            let one = start(scope, one);
            let two = start(scope, two);
            let three = start(scope, three);
            (one, two, three, four.run())
        },
    );
    (found(rt, one), found(rt, two), found(rt, three), fourth)
}

/// Whose revisions are proposed, under which program, and how many by each thread.
#[derive(Clone, Copy)]
struct Work<'p> {
    program: &'p Resolved,
    user: &'p Name,
    count: u64,
}

/// A ground at which so many revisions are proposed, from a number on.
#[derive(Drop)]
struct Proposing<'g, 'p, R: Wait + Sync> {
    alloc: Global,
    ground: SharedGround<'g, R>,
    program: &'p Resolved,
    user: &'p Name,
    from: u64,
    count: u64,
}

impl<'g, 'p, R: Wait + Sync> Job for Proposing<'g, 'p, R> {
    /// Counts those that are stored.
    fn run(self) -> u64 {
        let Proposing {
            alloc,
            mut ground,
            program,
            user,
            from,
            count,
        } = self;
        let mut stored = 0u64;
        for number in from..from.saturating_add(count) {
            if let Ok(true) = is_stored(alloc, &mut ground, program, user, number) {
                stored = stored.saturating_add(1);
            }
        }
        drop(ground);
        stored
    }
}

/// A pass that takes so many turns.
#[derive(Drop)]
struct Waiting<'g, R: Clock + Wait + Sync> {
    rt: &'g R,
    gate: &'g Gate<Shelf>,
    pass: Pass<Shelf>,
    count: u64,
    ghost here: { pass.gate ≡ gate.now },
}

/// How many microseconds have passed since then; none where the clock can't be read.
fn passed_since<R: Clock>(rt: &R, then: io::Result<Instant>) -> u64 {
    let passed = match then {
        Ok(start) => start.elapsed(rt).map_or(0, |time| time.as_micros()),
        Err(_) => 0,
    };
    u64::try_from(passed).unwrap_or(u64::MAX)
}

/// Takes a turn, and tells how many microseconds it was waited for.
fn turn_after<R: Clock + Wait>(rt: &R, gate: &Gate<Shelf>, pass: Pass<Shelf>) -> (Pass<Shelf>, u64)
    requires { pass.gate ≡ gate.now }
    ensures { result.0.gate ≡ pass.gate }
{
    turns();
    let before = Instant::now(rt);
    let turn = pass.enter(rt, gate);
    let waited = passed_since(rt, before);
    (turn.leave(gate), waited)
}

impl<'g, R: Clock + Wait + Sync> Job for Waiting<'g, R> {
    /// The most microseconds that a turn was waited for.
    fn run(self) -> u64 {
        let Waiting {
            rt,
            gate,
            mut pass,
            count,
        } = self;
        let mut longest = 0u64;
        for _ in 0..count {
            let (back, waited) = turn_after(rt, gate, pass);
            pass = back;
            longest = longest.max(waited);
        }
        drop(pass);
        longest
    }
}

/// The proposals of a thread at a place among the threads.
fn work_at<'g, 'p, R: Wait + Sync>(
    rt: &'g R,
    alloc: Global,
    gate: &'g Gate<Shelf>,
    pass: Pass<Shelf>,
    work: &Work<'p>,
    place: u64,
) -> Proposing<'g, 'p, R>
    requires here { pass.gate ≡ gate.now }
    requires rests { Rests pass.knows }
{
    Proposing {
        alloc,
        ground: SharedGround::new(rt, gate, pass),
        program: work.program,
        user: work.user,
        from: work.count.saturating_mul(place),
        count: work.count,
    }
}

/// How many revisions one thread, two or four store.
fn by_threads<R: Threads + Wait + Sync>(
    rt: &R,
    alloc: Global,
    gate: &Gate<Shelf>,
    pass: Pass<Shelf>,
    work: &Work<'_>,
    threads: u64,
) -> u64
    requires here { pass.gate ≡ gate.now }
    requires rests { Rests pass.knows }
    requires left { 2 ^ 35 ≤ pass.knows.left }
{
    let mut pass = pass;
    if threads < 2 {
        return work_at(rt, alloc, gate, pass, work, 0).run();
    }
    let second = pass.split(gate);
    let one = work_at(rt, alloc, gate, second, work, 1);
    if threads == 2 {
        let (first, second) = by_two(rt, one, work_at(rt, alloc, gate, pass, work, 0));
        return first.saturating_add(second);
    }
    let third = pass.split(gate);
    let two = work_at(rt, alloc, gate, third, work, 2);
    let fourth = pass.split(gate);
    let three = work_at(rt, alloc, gate, fourth, work, 3);
    let four = work_at(rt, alloc, gate, pass, work, 0);
    let (first, second, third, fourth) = by_four(rt, one, two, three, four);
    first
        .saturating_add(second)
        .saturating_add(third)
        .saturating_add(fourth)
}

/// The longest wait for a turn while another thread proposes.
fn wait_beside<R: Threads + Wait + Clock + Sync>(
    rt: &R,
    alloc: Global,
    gate: &Gate<Shelf>,
    pass: Pass<Shelf>,
    work: &Work<'_>,
) -> u64
    requires here { pass.gate ≡ gate.now }
    requires rests { Rests pass.knows }
    requires left { 2 ^ 35 ≤ pass.knows.left }
{
    let mut pass = pass;
    let other = pass.split(gate);
    let beside = work_at(rt, alloc, gate, other, work, 0);
    let waiting = Waiting {
        rt,
        gate,
        pass,
        count: work.count.saturating_mul(3),
    };
    by_two(rt, beside, waiting).1
}

fn shelf_of(alloc: Global, journal: Bytes) -> Result<Shelf, Stop>
    ensures pending { IfOk result (λ shelf. shelf.board.pending ≡ []) }
    ensures rooms { IfOk result (λ shelf. shelf.board.rooms ≡ []) }
    ensures short { IfOk result (λ shelf. length shelf.board.log ≤ 10000000) }
{
    let board = Board::open(alloc, log_of(alloc, journal)?)?;
    if board.front() > MOST_ENTRIES {
        drop(board);
        return Err(Stop::Board);
    }
    Ok(Shelf::new(board)?)
}

/// How many revisions are stored at a shelf, or how long a turn is waited for.
fn counted_at<R: Threads + Wait + Clock + Sync>(
    rt: &R,
    alloc: Global,
    shelf: Shelf,
    work: &Work<'_>,
    name: &str,
    threads: u64,
) -> Result<u64, Stop>
    requires pending { shelf.board.pending ≡ [] }
    requires rooms { shelf.board.rooms ≡ [] }
    requires short { length shelf.board.log ≤ 10000000 }
{
    let (gate, pass) = open(alloc, shelf)?;
    let counted = if name == "wait" {
        wait_beside(rt, alloc, &gate, pass, work)
    } else {
        by_threads(rt, alloc, &gate, pass, work, threads)
    };
    drop(gate);
    Ok(counted)
}

/// The same at the board of a journal.
fn counted_by<R: Threads + Wait + Clock + Sync>(
    rt: &R,
    alloc: Global,
    journal: Bytes,
    work: &Work<'_>,
    name: &str,
    threads: u64,
) -> Result<u64, Stop> {
    counted_at(rt, alloc, shelf_of(alloc, journal)?, work, name, threads)
}

/// How many of so many revisions for each of some threads are stored at the board of a journal; or how many microseconds a turn is
/// waited for at most while one thread proposes them.
pub fn counted<R: Threads + Wait + Clock + Sync>(
    rt: &R,
    alloc: Global,
    journal: Bytes,
    name: &str,
    threads: u64,
    count: u64,
) -> Result<u64, Stop> {
    let user = Name::parse(alloc, "ann")?;
    let function = if name == "share_costly" {
        COSTLY
    } else {
        FUNCTION
    };
    let program = program_of(alloc, function)?;
    let work = Work {
        program: &program,
        user: &user,
        count,
    };
    let counted = counted_by(rt, alloc, journal, &work, name, threads);
    drop(program);
    counted
}

/// How many microseconds a look for the bodies of these rows takes.
fn look_time<R: Clock, G: Ground>(
    rt: &R,
    alloc: Global,
    ground: &mut G,
    user: &Name,
    rows: &[Row],
) -> Result<u64, Stop> {
    let before = Instant::now(rt);
    let found = look(alloc, ground, user, rows);
    let took = passed_since(rt, before);
    drop(found?);
    Ok(took)
}

/// The most microseconds that one of so many looks for the bodies of all rows takes, behind a first one, which reads the log.
fn longest_of<R: Clock, G: Ground>(
    rt: &R,
    alloc: Global,
    ground: &mut G,
    user: &Name,
    count: u64,
) -> Result<u64, Stop> {
    let rows = rows_of(alloc, ground, user, &START)?;
    if bodies(alloc, ground, user, rows.as_slice())? != rows.as_slice().len() as u64 {
        return Err(Stop::Board);
    }
    let mut longest = 0u64;
    for _ in 0..count {
        longest = longest.max(look_time(rt, alloc, ground, user, rows.as_slice())?);
    }
    Ok(longest)
}

/// The most microseconds that one of so many looks takes for the bodies of all rows of a journal, each of which is one turn at a gate.
pub fn longest_look<R: Wait + Clock>(
    rt: &R,
    alloc: Global,
    journal: Bytes,
    count: u64,
) -> Result<u64, Stop> {
    let user = Name::parse(alloc, "ann")?;
    let (gate, pass) = open(alloc, shelf_of(alloc, journal)?)?;
    let mut ground = SharedGround::new(rt, &gate, pass);
    let longest = longest_of(rt, alloc, &mut ground, &user, count);
    drop(ground);
    drop(gate);
    longest
}

/// A ground at which a user looks so often for the feed behind the last entry but one.
#[derive(Drop)]
struct Looking<'g, 'p, R: Clock + Wait + Sync> {
    rt: &'g R,
    alloc: Global,
    ground: SharedGround<'g, R>,
    user: &'p Name,
    count: u64,
}

/// How many microseconds a look for a feed takes.
fn feed_time<R: Clock, G: Ground>(
    rt: &R,
    alloc: Global,
    ground: &mut G,
    user: &Name,
    since: &Key,
) -> u64 {
    let before = Instant::now(rt);
    let rows = rows_of(alloc, ground, user, since);
    let took = passed_since(rt, before);
    drop(rows);
    took
}

impl<'g, 'p, R: Clock + Wait + Sync> Job for Looking<'g, 'p, R> {
    /// The most microseconds that one of the looks takes.
    fn run(self) -> u64 {
        let Looking {
            rt,
            alloc,
            mut ground,
            user,
            count,
        } = self;
        let since = plain(ground.front().saturating_sub(1));
        let mut longest = 0u64;
        for _ in 0..count {
            longest = longest.max(feed_time(rt, alloc, &mut ground, user, &since));
        }
        drop(ground);
        longest
    }
}

/// The looks of a thread.
fn looking_at<'g, 'p, R: Clock + Wait + Sync>(
    rt: &'g R,
    alloc: Global,
    gate: &'g Gate<Shelf>,
    pass: Pass<Shelf>,
    user: &'p Name,
    count: u64,
) -> Looking<'g, 'p, R>
    requires here { pass.gate ≡ gate.now }
    requires rests { Rests pass.knows }
{
    Looking {
        rt,
        alloc,
        ground: SharedGround::new(rt, gate, pass),
        user,
        count,
    }
}

/// The most microseconds that one of so many looks of each of one thread or of four takes.
fn longest_by_threads<R: Threads + Wait + Clock + Sync>(
    rt: &R,
    alloc: Global,
    gate: &Gate<Shelf>,
    pass: Pass<Shelf>,
    user: &Name,
    threads: u64,
    count: u64,
) -> u64
    requires here { pass.gate ≡ gate.now }
    requires rests { Rests pass.knows }
    requires left { 2 ^ 35 ≤ pass.knows.left }
{
    let mut pass = pass;
    if threads < 4 {
        return looking_at(rt, alloc, gate, pass, user, count).run();
    }
    let second = pass.split(gate);
    let one = looking_at(rt, alloc, gate, second, user, count);
    let third = pass.split(gate);
    let two = looking_at(rt, alloc, gate, third, user, count);
    let fourth = pass.split(gate);
    let three = looking_at(rt, alloc, gate, fourth, user, count);
    let four = looking_at(rt, alloc, gate, pass, user, count);
    let (first, second, third, fourth) = by_four(rt, one, two, three, four);
    first.max(second).max(third).max(fourth)
}

/// Whether a look had rows, at a board that is short enough to be shared.
fn is_read(rows: Result<Rows, Stop>, front: u64) -> Result<(), Stop>
    ensures { IfOk result (λ _. front ≤ 10000000) }
{
    drop(rows?);
    if front > MOST_ENTRIES {
        return Err(Stop::Board);
    }
    Ok(())
}

/// The shelf of a journal, which has read its log for a user.
fn read_shelf_of(alloc: Global, journal: Bytes, user: &Name) -> Result<Shelf, Stop>
    ensures pending { IfOk result (λ shelf. shelf.board.pending ≡ []) }
    ensures rooms { IfOk result (λ shelf. shelf.board.rooms ≡ []) }
    ensures short { IfOk result (λ shelf. length shelf.board.log ≤ 10000000) }
{
    let mut ground = ground_of(alloc, journal)?;
    let since = plain(ground.front());
    let rows = rows_of(alloc, &mut ground, user, &since);
    let shelf = ground.into_inner();
    let read = is_read(rows, shelf.board().front());
    match read {
        Ok(()) => Ok(shelf),
        Err(stop) => {
            drop(shelf);
            Err(stop)
        }
    }
}

/// The most microseconds that one of so many looks of each of one thread or of four takes at a gate, and the nanoseconds that all take.
pub fn looked<R: Threads + Wait + Clock + Sync>(
    rt: &R,
    alloc: Global,
    journal: Bytes,
    threads: u64,
    count: u64,
) -> Result<(u64, u64), Stop> {
    let user = Name::parse(alloc, "ann")?;
    let (gate, pass) = open(alloc, read_shelf_of(alloc, journal, &user)?)?;
    let then = Instant::now(rt);
    let longest = longest_by_threads(rt, alloc, &gate, pass, &user, threads, count);
    let took = nanoseconds_since(rt, then);
    drop(gate);
    Ok((longest, took))
}
