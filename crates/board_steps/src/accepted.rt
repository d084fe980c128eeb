//! What the write of a revision is made of, once the program accepts it. No board is needed for that.

ghost use Rattle.std.specs.Prelude.{◌≡◌, ◌≢◌, ◌≤◌, [], true, false, length, take, option_map, List, Some, Ok, IfOk, IfErr, IfSome, IsTrue, IsUtf8};
ghost use Rattle.std.specs.Option.{option_copied};
ghost use Rattle.sg_names.specs.Grammar.{is_name};
ghost use Rattle.sg_names.specs.RevId as names;
ghost use Rattle.sg_history.specs.declared.entries.Entry.TheVariants as kinds;
ghost use Rattle.sg_history.specs.Journal.{IsEntry, is_body};
ghost use Rattle.json_doc.specs.Reading.{IsDocument};
ghost use Rattle.json_doc.specs.View.{node_tree};
ghost use Rattle.rev_tree.specs.declared.tree.Node.{Node};
ghost use Rattle.rev_tree.specs.Tree as trees;
ghost use Rattle.sync_meaning.specs.Laws.{AreEffects};
ghost use Rattle.doc_board.specs.declared.outcome.Outcome.TheVariants as outcomes;
ghost use Rattle.doc_board.specs.Judging.{body_or_empty};
ghost use Rattle.doc_board.specs.Outcomes.{IsWellFormed};
ghost use Rattle.doc_board.specs.Recorded.{HasDocument};
ghost use Rattle.board_steps.specs.Accepted.{ArePartsOf, IsAcceptedOn, IsStandIn};
ghost use Rattle.board_steps.specs.Shape.{IsWritten};
ghost use Rattle.board_steps.specs.Verdicts.{IsDeniedOn, IsSaidOn};

use crate::judging::{Basis, said_of};
use crate::retry::Ready;
use crate::texts::pass_effects;
use doc_board::Outcome;
use json_doc::Doc;
use repl_messages::Revision;
use rev_tree::Tree;
use sg_history::{Name, RevId, Revs, Write};
use sg_outside::Bytes;
use std::alloc::{AllocError, Global};
use sync_eval::{Effects, Verdict};
use sync_resolve::Resolved;

/// What the board says of a revision that extends its document's tree: at which front, after which last write of its document,
/// with which tree and so many of its ancestors, and what the program is to judge it on.
#[derive(Drop)]
pub struct Judged {
    pub at: u64,
    pub base: u64,
    pub tree: Tree,
    pub kept: u64,
    pub basis: Basis,
}

/// What a write has that takes memory, besides its revision and its effects: the winner that it names, `{}` where the revision's
/// body has no bytes, and who wrote it.
#[derive(Drop)]
pub struct Parts {
    pub winner: RevId,
    pub braces: Option<Bytes>,
    pub by: Option<Name>,
}

/// The same of a revision that the program accepts, with the effects, and what else its write needs.
#[derive(Drop)]
pub struct Accepted {
    pub at: u64,
    pub base: u64,
    pub tree: Tree,
    pub kept: u64,
    pub effects: Effects,
    pub parts: Parts,
}

/// Whether there are bytes, as in each body that is stored.
fn has_bytes(body: &[u8]) -> bool
    ensures yes { result ≡ true → IsTrue (is_body body.now) }
    ensures no { result ≡ false → body.now ≡ [] }
{
    !body.is_empty()
}

/// `{}` where a body has no bytes.
fn braces_for(alloc: Global, body: &[u8]) -> Result<Option<Bytes>, AllocError>
    ensures { IfOk result (IsStandIn body.now) }
{
    if has_bytes(body) {
        return Ok(None);
    }
    Ok(Some(Bytes::from_slice(alloc, b"{}")?))
}

/// The body, or what stands in for it.
fn body_with(body: Bytes, braces: Option<Bytes>) -> Bytes
    requires { IsStandIn body braces }
    ensures value { result ≡ body_or_empty body }
    ensures bytes { IsTrue (is_body result) }
{
    match braces {
        None => body,
        Some(braces) => {
            drop(body);
            braces
        }
    }
}

/// The first so many of some ancestors.
fn kept_of(ancestors: Revs, kept: u64) -> Revs
    ensures { result ≡ take kept ancestors }
{
    let mut items = ancestors.into_vec();
    items.truncate(kept as usize);
    Revs::from_vec(items)
}

fn copy_of(alloc: Global, name: Option<&Name>) -> Result<Option<Name>, AllocError>
    ensures value { IfOk result (λ copy. copy ≡ option_copied name.entry) }
    ensures name { IfOk result (λ copy. IfSome copy (λ text. IsTrue (is_name text) × IsUtf8 text)) }
{
    match name {
        None => Ok(None),
        Some(name) => {
            let _ = name.as_str();
            Ok(Some(name.copy(alloc)?))
        }
    }
}

/// A copy of the winner's revision of a tree that has one.
fn winner_of(alloc: Global, tree: &Tree) -> Result<RevId, AllocError>
    requires { tree.now ≢ [] }
    ensures { IfOk result (λ rev. option_map (λ l. l.rev) (trees.winner_of tree.now) ≡ Some rev) }
{
    match tree.winner() {
        None => unreachable!(),
        Some(winner) => winner.rev.copy(alloc),
    }
}

fn parts_of(alloc: Global, by: Option<&Name>, body: &[u8], tree: &Tree) -> Result<Parts, AllocError>
    requires { tree.now ≢ [] }
    ensures { IfOk result (ArePartsOf (option_copied by.entry) body.now tree.now) }
{
    let winner = winner_of(alloc, tree)?;
    let braces = match braces_for(alloc, body) {
        Ok(braces) => braces,
        Err(fault) => {
            drop(winner);
            return Err(fault);
        }
    };
    match copy_of(alloc, by) {
        Ok(by) => Ok(Parts { winner, braces, by }),
        Err(fault) => {
            drop(winner);
            drop(braces);
            Err(fault)
        }
    }
}

/// What the program says of a revision that extends its document's tree: the effects with which it accepts it, or why it is
/// turned down at this front.
fn effects_of(
    alloc: Global,
    program: &Resolved,
    revision: &Revision,
    doc: Doc,
    basis: &Basis,
    at: u64,
) -> Result<Effects, Outcome>
    requires document { IsDocument revision.now.body (node_tree doc) }
    requires old { IfSome basis.now.old (λ body. HasDocument body) }
    ensures accepted { IfOk result
        (λ effects. IsSaidOn program.now revision.now basis.now (Ok effects)) }
    ensures denied { IfErr result (IsDeniedOn program.now revision.now basis.now at) }
{
    match said_of(alloc, program, revision, doc, basis) {
        Verdict::Accept(effects) => Ok(effects),
        Verdict::Deny(rule) => Err(Outcome::Denied403 { at, rule }),
        Verdict::Memory => Err(Outcome::Memory507),
    }
}

/// Takes what the write of an accepted revision needs.
fn accepted_with(
    alloc: Global,
    by: Option<&Name>,
    revision: &Revision,
    judged: Judged,
    effects: Effects,
) -> Result<Accepted, Outcome>
    requires tree { judged.tree ≢ [] }
    ensures accepted { IfOk result (λ a. IsAcceptedOn judged a × (a.effects ≡ effects)
        × ArePartsOf (option_copied by.entry) revision.now.body judged.tree a.parts) }
    ensures memory { IfErr result (λ outcome. outcome ≡ outcomes.Memory507) }
{
    match parts_of(alloc, by, revision.body.as_slice(), &judged.tree) {
        Ok(parts) => {
            let Judged {
                at,
                base,
                tree,
                kept,
                basis,
            } = judged;
            drop(basis);
            Ok(Accepted {
                at,
                base,
                tree,
                kept,
                effects,
                parts,
            })
        }
        Err(_) => {
            drop(judged);
            drop(effects);
            Err(Outcome::Memory507)
        }
    }
}

/// Has the program judge a revision that extends its document's tree: takes what its write needs where the program accepts it, or
/// turns it down.
pub fn accepted_of(
    alloc: Global,
    program: &Resolved,
    by: Option<&Name>,
    revision: &Revision,
    doc: Doc,
    judged: Judged,
) -> Result<Accepted, Outcome>
    requires document { IsDocument revision.now.body (node_tree doc) }
    requires old { IfSome judged.basis.old (λ body. HasDocument body) }
    requires tree { judged.tree ≢ [] }
    ensures from { IfOk result (IsAcceptedOn judged) }
    ensures parts { IfOk result
        (λ a. ArePartsOf (option_copied by.entry) revision.now.body judged.tree a.parts) }
    ensures effects { IfOk result (λ a. AreEffects a.effects) }
    ensures said { IfOk result
        (λ a. IsSaidOn program.now revision.now judged.basis (Ok a.effects)) }
    ensures denied { IfErr result (IsDeniedOn program.now revision.now judged.basis judged.at) }
{
    sync_meaning::laws::effects();
    match effects_of(alloc, program, revision, doc, &judged.basis, judged.at) {
        Ok(effects) => accepted_with(alloc, by, revision, judged, effects),
        Err(outcome) => {
            drop(judged);
            Err(outcome)
        }
    }
}

/// The write of a revision that was judged at a front, with so many of its ancestors, and the effects with which it is accepted.
/// Allocates nothing.
fn write_with(revision: Revision, at: u64, kept: u64, effects: Effects, parts: Parts) -> Write
    requires formed { IsWellFormed revision }
    requires effects { AreEffects effects }
    requires stand_in { IsStandIn revision.body parts.braces }
    requires name { IfSome parts.by (λ text. IsTrue (is_name text) × IsUtf8 text) }
    ensures write { (tree : List Node)
        → option_map (λ l. l.rev) (trees.winner_of tree) ≡ Some parts.winner
        → IsWritten parts.by revision at tree kept effects result }
    ensures entry { IsTrue (names.is_rev result.winner) → IsEntry (kinds.Write result) }
    ensures body { HasDocument result.body }
    ensures size { length result.body ≤ 20971520 }
{
    let _ = revision.doc.as_str();
    pass_effects(&effects);
    let Revision {
        doc,
        rev,
        ancestors,
        deleted,
        noconflicts: _noconflicts,
        body,
    } = revision;
    let Parts { winner, braces, by } = parts;
    Write {
        winner,
        doc,
        rev,
        ancestors: kept_of(ancestors, kept),
        deleted,
        body: body_with(body, braces),
        by,
        at,
        channels: effects.channels,
        grants: effects.grants,
        roles: effects.roles,
    }
}

/// The write of an accepted revision. Allocates nothing.
pub(crate) fn ready_with(revision: Revision, accepted: Accepted) -> Ready
    requires formed { IsWellFormed revision }
    requires effects { AreEffects accepted.effects }
    requires stand_in { IsStandIn revision.body accepted.parts.braces }
    requires name { IfSome accepted.parts.by (λ text. IsTrue (is_name text) × IsUtf8 text) }
    ensures tree { result.tree ≡ accepted.tree }
    ensures base { result.base ≡ accepted.base }
    ensures write { option_map (λ l. l.rev) (trees.winner_of accepted.tree)
        ≡ Some accepted.parts.winner
        → IsWritten accepted.parts.by revision accepted.at accepted.tree accepted.kept
        accepted.effects result.entry }
    ensures entry { IsTrue (names.is_rev result.entry.winner)
        → IsEntry (kinds.Write result.entry) }
    ensures body { HasDocument result.entry.body }
    ensures size { length result.entry.body ≤ 20971520 }
{
    let Accepted {
        at,
        base,
        tree,
        kept,
        effects,
        parts,
    } = accepted;
    let entry = write_with(revision, at, kept, effects, parts);
    Ready { entry, tree, base }
}
