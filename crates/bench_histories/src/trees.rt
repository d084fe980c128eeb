//! A board with a document of many revisions, on which more are proposed, under which others are offered, or whose body is asked for
//! again and again.

use crate::grounds::{START, bodies, ground_of, program_of, rows_of};
use crate::stop::Stop;
use doc_board::Outcome;
use repl_messages::{Offer, Offers, Revision};
use sg_history::{Digest, DocId, Name, RevId, Revs};
use sg_outside::Bytes;
use std::alloc::Global;
use sync_resolve::Resolved;
use write_path::{Ground, SoloGround};

/// The document that the journal has.
const DOCUMENT: &str = "d";

/// A sync function that denies each revision.
const DENIES: &str = "function(doc, oldDoc) { throw({forbidden: \"no\"}); }";

/// A sync function that accepts each.
const ACCEPTS: &str = "function(doc, oldDoc) { channel(\"A\"); }";

/// The revision with the same digest so many generations later.
fn later(alloc: Global, rev: &RevId, generations: u32) -> Result<RevId, Stop> {
    Ok(RevId {
        generation: rev.generation.saturating_add(generations),
        digest: rev.digest.copy(alloc)?,
    })
}

/// A revision of the document as it is proposed, on its parent.
fn revision_of(alloc: Global, rev: RevId, ancestors: Revs) -> Result<Revision, Stop> {
    Ok(Revision {
        doc: DocId::parse(alloc, DOCUMENT)?,
        rev,
        ancestors,
        deleted: false,
        noconflicts: false,
        body: Bytes::from_slice(alloc, b"{}")?,
    })
}

/// The child of the revision that is so many generations later than a leaf.
fn child_of(alloc: Global, leaf: &RevId, generations: u32) -> Result<Revision, Stop> {
    let mut ancestors = Revs::new(alloc);
    ancestors.push(later(alloc, leaf, generations)?)?;
    let rev = later(alloc, leaf, generations.saturating_add(1))?;
    revision_of(alloc, rev, ancestors)
}

/// Whether an outcome is one that the job is to have.
fn is_of_job(job: &str, outcome: &Outcome) -> bool {
    match outcome {
        Outcome::Stored { .. } => job != "deny",
        Outcome::Known { .. } => job == "repeat",
        Outcome::Denied403 { .. } => job == "deny",
        _ => false,
    }
}

/// Proposes a revision, and says whether its outcome is one that the job is to have.
fn is_done(
    alloc: Global,
    ground: &mut SoloGround,
    program: &Resolved,
    user: &Name,
    job: &str,
    revision: Revision,
) -> bool {
    let outcome = ground.propose(alloc, program, Some(user), false, revision);
    is_of_job(job, &outcome)
}

/// Proposes so many children under a program, each of the one before where the job is to extend, and else all of the leaf.
fn proposed_under(
    alloc: Global,
    ground: &mut SoloGround,
    program: &Resolved,
    user: &Name,
    job: &str,
    leaf: &RevId,
    count: u32,
) -> Result<u64, Stop> {
    let mut found = 0u64;
    for number in 0..count {
        let revision = child_of(alloc, leaf, if job == "extend" { number } else { 0 })?;
        if is_done(alloc, ground, program, user, job, revision) {
            found = found.saturating_add(1);
        }
    }
    Ok(found)
}

/// The same under the program of the job.
fn proposed(
    alloc: Global,
    ground: &mut SoloGround,
    user: &Name,
    job: &str,
    leaf: &RevId,
    count: u32,
) -> Result<u64, Stop> {
    let program = program_of(alloc, if job == "deny" { DENIES } else { ACCEPTS })?;
    let found = proposed_under(alloc, ground, &program, user, job, leaf, count);
    drop(program);
    found
}

/// An offer of a revision of this number of the generation after a leaf's, which the document lacks.
fn offer_of(alloc: Global, leaf: &RevId, number: u32) -> Result<Offer, Stop> {
    let digest = format!(in alloc; "u{number}")?;
    let rev = RevId {
        generation: leaf.generation.saturating_add(1),
        digest: Digest::parse(alloc, digest.as_str())?,
    };
    let doc = DocId::parse(alloc, DOCUMENT)?;
    Ok(Offer {
        doc,
        rev,
        parent: None,
    })
}

fn offers_of(alloc: Global, leaf: &RevId, count: u32) -> Result<Offers, Stop> {
    let mut offers = Offers::new(alloc);
    for number in 0..count {
        offers.push(offer_of(alloc, leaf, number)?)?;
    }
    Ok(offers)
}

/// How many of so many offers in one look are answered.
fn answered(alloc: Global, ground: &mut SoloGround, leaf: &RevId, count: u32) -> Result<u64, Stop> {
    let offers = offers_of(alloc, leaf, count)?;
    let asked = ground.ask(alloc, offers.as_slice())?;
    Ok(asked.answers.as_slice().len() as u64)
}

/// How many of so many looks for the body give one.
fn found(alloc: Global, ground: &mut SoloGround, user: &Name, count: u32) -> Result<u64, Stop> {
    let rows = rows_of(alloc, ground, user, &START)?;
    let mut found = 0u64;
    for _ in 0..count {
        found = found.saturating_add(bodies(alloc, ground, user, rows.as_slice())?);
    }
    Ok(found)
}

/// What is done with a ground whose document has this leaf.
fn done(
    alloc: Global,
    ground: &mut SoloGround,
    job: &str,
    leaf: &RevId,
    count: u32,
) -> Result<u64, Stop> {
    let user = Name::parse(alloc, "ann")?;
    match job {
        "offer" => answered(alloc, ground, leaf, count),
        "bodies" => found(alloc, ground, &user, count),
        _ => proposed(alloc, ground, &user, job, leaf, count),
    }
}

/// What a job counts at the ground of a journal whose document has this leaf.
pub fn job(alloc: Global, journal: Bytes, name: &str, leaf: &str, count: u32) -> Result<u64, Stop> {
    let leaf = RevId::parse(alloc, leaf)?;
    let mut ground = ground_of(alloc, journal)?;
    let found = done(alloc, &mut ground, name, &leaf, count);
    drop(ground);
    found
}
