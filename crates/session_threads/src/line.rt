//! The lines of a script, each run at a ground.

ghost use Rattle.std.specs.Prelude.{◌≡◌, ◌≤◌, ◌+◌, ◌*◌, [], false, length, vec_capacity, IfOk, IsTrue};
ghost use Rattle.principals.specs.Script.{AreLines, IsScriptLine, may_be_parent};
ghost use Rattle.write_path.specs.Origins.{Spends};
ghost use Rattle.session_run.specs.Answered.{moment};
ghost use Rattle.session_threads.specs.OwnRevisions.{own_ancestors, own_revision};
ghost use Rattle.session_threads.specs.inner.Runs.{AreLinesRun, IsLineRun};

use crate::played::LineOutcome;
use doc_board::Outcome;
use principals::AdminLine;
use repl_messages::Revision;
use rev_tree::own_rev;
use sg_history::{DocId, RevId, Revs};
use sg_outside::{Bytes, Memory};
use std::alloc::Global;
use write_path::{Ground, Resolved};

/// The parent as the one ancestor; none where there is no parent.
fn ancestors(alloc: Global, parent: Option<RevId>) -> Result<Revs, Memory>
    ensures { IfOk result (λ revs. revs ≡ own_ancestors parent) }
{
    let mut revs = Revs::new(alloc);
    if let Some(parent) = parent {
        revs.push(parent)?;
    }
    Ok(revs)
}

/// The gateway's own revision of a body under a parent.
pub fn own_revision(
    alloc: Global,
    doc: DocId,
    parent: Option<RevId>,
    deleted: bool,
    body: Bytes,
) -> Result<Revision, Memory>
    requires { IsTrue (may_be_parent parent) }
    ensures { IfOk result (λ r. r ≡ own_revision doc parent deleted body) }
{
    let rev = own_rev(alloc, parent.as_ref(), deleted, body.as_slice())?;
    let ancestors = ancestors(alloc, parent)?;
    Ok(Revision {
        doc,
        rev,
        ancestors,
        deleted,
        noconflicts: false,
        body,
    })
}

/// Runs a line at a ground, as the administrator. Where there is no memory for its revision, nothing is proposed.
fn run_line<G: Ground>(
    alloc: Global,
    ground: &mut G,
    program: &Resolved,
    strict: bool,
    line: AdminLine,
) -> Outcome
    requires line { IsScriptLine line }
    requires draws { 2 ≤ G.left ground.old }
    ensures run { IsLineRun program.now strict
        (moment (G.read ground.old) (G.lowest_front ground.old) (G.recorded ground.old)
        (G.checkpoints ground.old) (G.own ground.old)) line result
        (moment (G.read ground.new) (G.lowest_front ground.new) (G.recorded ground.new)
        (G.checkpoints ground.new) (G.own ground.new)) }
    ensures spends { Spends (G.origin ground.old) (G.origin ground.new) (G.left ground.old)
        (G.left ground.new) }
{
    write_path::laws::reads();
    match line {
        AdminLine::Command(command) => ground.command(command),
        AdminLine::Doc {
            doc,
            parent,
            deleted,
            body,
        } => match own_revision(alloc, doc, parent, deleted, body) {
            Ok(revision) => ground.propose(alloc, program, None, strict, revision),
            Err(_) => Outcome::Memory507,
        },
    }
}

/// Runs the lines of a script one after another at a ground, and puts the outcome of each into a place that is there.
pub fn run_lines<G: Ground>(
    alloc: Global,
    ground: &mut G,
    program: &Resolved,
    strict: bool,
    lines: Vec<AdminLine>,
    outcomes: &mut Vec<LineOutcome>,
)
    requires lines { AreLines lines.items }
    requires draws { 2 * length lines.items ≤ G.left ground.old }
    requires room { length lines.items ≤ vec_capacity outcomes.old }
    requires none { outcomes.old.items ≡ [] }
    ensures run { AreLinesRun program.now strict
        (moment (G.read ground.old) (G.lowest_front ground.old) (G.recorded ground.old)
        (G.checkpoints ground.old) (G.own ground.old)) lines.items outcomes.new.items
        (moment (G.read ground.new) (G.lowest_front ground.new) (G.recorded ground.new)
        (G.checkpoints ground.new) (G.own ground.new)) }
    ensures origin { G.origin ground.new ≡ G.origin ground.old }
{
    for line in lines {
        outcomes.push_reserved(LineOutcome::Plain(run_line(alloc, ground, program, strict, line)));
    }
}
