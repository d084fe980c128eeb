//! What a program says of a revision.

ghost use Rattle.std.specs.Prelude.{◌≡◌, ◌≢◌, option_map};
ghost use Rattle.json_doc.specs.View.{node_tree};
ghost use Rattle.sync_meaning.specs.Meaning.{meaning};
ghost use Rattle.sync_eval.specs.declared.verdict.Verdict as Verdict;
ghost use Rattle.sync_eval.specs.Verdicts.{verdict};

use crate::meaning::evaluate;
use json_doc::Doc;
use std::alloc::Global;
use sync_meaning::{Context, Effects, Rule, Stop};
use sync_resolve::Resolved;

/// What a program says of a revision: it is accepted, with these effects, or denied by this rule.
/// `Memory` says that memory ran out, which may come in the place of any verdict.
#[derive(Drop)]
pub enum Verdict {
    Accept(Effects),
    Deny(Rule),
    Memory,
}

/// Judges a revision: its document, the one before it, where there is one, and who writes. It is
/// denied by `Fuel` where the run would take more than 100,000 visits.
pub fn judge(
    alloc: Global,
    program: &Resolved,
    doc: &Doc,
    old: Option<&Doc>,
    context: &Context,
) -> Verdict
    // It is the verdict by the meaning, with its rule and place, but for `Memory`.
    ensures { result ≢ Verdict.Memory → result ≡ verdict (meaning program.now (node_tree doc.now)
        (option_map (λ doc. node_tree doc.now) old.entry) context.now) }
{
    match evaluate(alloc, program, doc, old, context) {
        Ok(effects) => Verdict::Accept(effects),
        Err(Stop::Deny(rule)) => Verdict::Deny(rule),
        Err(Stop::Memory) => Verdict::Memory,
    }
}
