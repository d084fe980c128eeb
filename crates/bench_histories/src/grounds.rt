//! A board of a journal, to which revisions are proposed, or from which all documents are pulled with their bodies, or all that left.

ghost use Rattle.std.specs.Prelude.{reverse, IfOk};
ghost use Rattle.sg_history.specs.History.{entries_of};
ghost use Rattle.doc_board.specs.Lawful.{AreLawful};

use crate::stop::Stop;
use doc_board::laws::recorded;
use doc_board::{Board, Outcome};
use repl_messages::{Bodies, Body, Fed, Revision};
use sg_history::{
    ChannelName, Channels, Digest, DocId, Key, Log, Name, Options, RevId, Revs, Row, Rows,
    take_journal,
};
use sg_outside::{Bytes, Memory};
use std::alloc::Global;
use sync_resolve::{Resolved, resolve};
use sync_syntax::{Program, parse};
use write_path::{Ground, Shelf, SoloGround};

/// The sync function by which revisions are judged: the one that a gateway has where its configuration has none.
pub const FUNCTION: &str = "function(doc, oldDoc) { channel(doc.channels); }";

/// The most ancestors that a body is asked for with.
const ANCESTORS: u64 = 100;

/// A body by which a document is in channel A.
pub const IN_A: &[u8] = b"{\"channels\":[\"A\"]}";

pub const START: Key = Key { by: 0, seq: 0 };

/// After the put of the user who pulls, so that what left since then is a row.
const AFTER_START: Key = Key { by: 1, seq: 1 };

pub const OPTIONS: Options = Options {
    filter: None,
    active_only: false,
    revocations: false,
};

pub fn log_of(alloc: Global, journal: Bytes) -> Result<Log, Stop>
    ensures { IfOk result (λ log. AreLawful (reverse (entries_of log))) }
{
    recorded();
    Ok(take_journal(alloc, journal)?)
}

pub fn ground_of(alloc: Global, journal: Bytes) -> Result<SoloGround, Stop> {
    let board = Board::open(alloc, log_of(alloc, journal)?)?;
    Ok(SoloGround::new(Shelf::new(board)?))
}

/// The name of a document that no journal has.
fn doc_of(alloc: Global, number: u64) -> Result<DocId, Stop> {
    let name = format!(in alloc; "p{number}")?;
    Ok(DocId::parse(alloc, name.as_str())?)
}

fn first_rev(alloc: Global) -> Result<RevId, Stop> {
    Ok(RevId {
        generation: 1,
        digest: Digest::parse(alloc, "a")?,
    })
}

/// The first revision of a document that no journal has, with a body.
pub fn revision_with(alloc: Global, number: u64, body: &[u8]) -> Result<Revision, Stop> {
    let doc = doc_of(alloc, number)?;
    let rev = first_rev(alloc)?;
    Ok(Revision {
        doc,
        rev,
        ancestors: Revs::new(alloc),
        deleted: false,
        noconflicts: true,
        body: Bytes::from_slice(alloc, body)?,
    })
}

/// The first revision of a document that no journal has.
pub fn revision_of(alloc: Global, number: u64) -> Result<Revision, Stop> {
    revision_with(alloc, number, IN_A)
}

fn parsed(alloc: Global, function: &str) -> Result<Program, Stop> {
    match parse(alloc, function) {
        Ok(program) => Ok(program),
        Err(_) => Err(Stop::Program),
    }
}

pub fn program_of(alloc: Global, function: &str) -> Result<Resolved, Stop> {
    match resolve(alloc, parsed(alloc, function)?) {
        Ok(program) => Ok(program),
        Err(_) => Err(Stop::Program),
    }
}

/// Whether a revision is stored; it is not proposed where no draws are left for it.
pub fn is_revision_stored<G: Ground>(
    alloc: Global,
    ground: &mut G,
    program: &Resolved,
    user: &Name,
    revision: Revision,
) -> bool {
    if ground.left() < 2 {
        drop(revision);
        return false;
    }
    let outcome = ground.propose(alloc, program, Some(user), true, revision);
    matches!(outcome, Outcome::Stored { .. })
}

/// The same of the revision of this number.
pub fn is_stored<G: Ground>(
    alloc: Global,
    ground: &mut G,
    program: &Resolved,
    user: &Name,
    number: u64,
) -> Result<bool, Stop> {
    let revision = revision_of(alloc, number)?;
    Ok(is_revision_stored(alloc, ground, program, user, revision))
}

/// Proposes so many revisions under a program, and counts those that are stored.
fn stored_under(
    alloc: Global,
    ground: &mut SoloGround,
    program: &Resolved,
    user: &Name,
    proposals: u64,
) -> Result<u64, Stop> {
    let mut count = 0u64;
    for number in 0..proposals {
        if is_stored(alloc, ground, program, user, number)? {
            count = count.saturating_add(1);
        }
    }
    Ok(count)
}

/// The same under the program that a gateway has where its configuration has none.
fn stored(
    alloc: Global,
    ground: &mut SoloGround,
    user: &Name,
    proposals: u64,
) -> Result<u64, Stop> {
    let program = program_of(alloc, FUNCTION)?;
    let count = stored_under(alloc, ground, &program, user, proposals);
    drop(program);
    count
}

/// What a look for the bodies of these rows answers.
pub fn look<G: Ground>(
    alloc: Global,
    ground: &mut G,
    user: &Name,
    rows: &[Row],
) -> Result<Bodies, Memory> {
    ground.bodies(alloc, user, &OPTIONS, rows, ANCESTORS)
}

/// How many of these rows are answered with a body, or as removed.
pub fn bodies<G: Ground>(
    alloc: Global,
    ground: &mut G,
    user: &Name,
    rows: &[Row],
) -> Result<u64, Stop> {
    let found = look(alloc, ground, user, rows)?;
    let mut count = 0u64;
    for answer in found.answers.as_slice() {
        if !matches!(answer, Body::NoRev) {
            count = count.saturating_add(1);
        }
    }
    Ok(count)
}

/// The rows of all documents after a key.
pub fn rows_of<G: Ground>(
    alloc: Global,
    ground: &mut G,
    user: &Name,
    since: &Key,
) -> Result<Rows, Stop> {
    match ground.feed(alloc, user, since, &OPTIONS)? {
        Fed::Rows { rows, .. } => Ok(rows),
        Fed::Future { .. } => Ok(Rows::new(alloc)),
    }
}

/// The rows, or of so many rows at a time the bodies, where that is not 0.
fn counted(
    alloc: Global,
    ground: &mut SoloGround,
    user: &Name,
    rows: &[Row],
    batch: u64,
) -> Result<u64, Stop> {
    if batch == 0 {
        return Ok(rows.len() as u64);
    }
    let mut count = 0u64;
    for some in rows.chunks(batch as usize) {
        count = count.saturating_add(bodies(alloc, ground, user, some)?);
    }
    Ok(count)
}

/// Pulls all documents after a key: their rows, and the bodies of so many rows at a time, where that is
/// not 0.
fn pulled(
    alloc: Global,
    ground: &mut SoloGround,
    user: &Name,
    since: &Key,
    batch: u64,
) -> Result<u64, Stop> {
    let rows = rows_of(alloc, ground, user, since)?;
    counted(alloc, ground, user, rows.as_slice(), batch)
}

/// The names `c0`, `c1` and so on, so many of them, and `A`.
fn names(alloc: Global, count: u64) -> Result<Channels, Stop> {
    let mut names = Channels::new(alloc);
    for number in 0..count {
        let name = format!(in alloc; "c{number}")?;
        names.push(ChannelName::parse(alloc, name.as_str())?)?;
    }
    names.push(ChannelName::parse(alloc, "A")?)?;
    Ok(names)
}

/// How many rows a feed from the start has under a filter of so many names and `A`; without one where there are none.
fn filtered(alloc: Global, ground: &mut SoloGround, user: &Name, count: u64) -> Result<u64, Stop> {
    let options = Options {
        filter: if count == 0 {
            None
        } else {
            Some(names(alloc, count)?)
        },
        active_only: false,
        revocations: false,
    };
    match ground.feed(alloc, user, &START, &options)? {
        Fed::Rows { rows, .. } => Ok(rows.as_slice().len() as u64),
        Fed::Future { .. } => Ok(0),
    }
}

/// What is done with a ground.
fn done(alloc: Global, ground: &mut SoloGround, name: &str, number: u64) -> Result<u64, Stop> {
    let user = Name::parse(alloc, "ann")?;
    match name {
        "propose" => stored(alloc, ground, &user, number),
        "lose" => pulled(alloc, ground, &user, &AFTER_START, number),
        "filter" => filtered(alloc, ground, &user, number),
        "names" => Ok(names(alloc, number)?.as_slice().len() as u64),
        _ => pulled(alloc, ground, &user, &START, number),
    }
}

/// What a job counts at the ground of a journal.
pub fn job(alloc: Global, journal: Bytes, name: &str, number: u64) -> Result<u64, Stop> {
    let mut ground = ground_of(alloc, journal)?;
    let count = done(alloc, &mut ground, name, number);
    drop(ground);
    count
}
