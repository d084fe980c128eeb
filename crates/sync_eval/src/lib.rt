//! The judge: what a program of the sync language says of a revision. It runs over the program's
//! code, which nests no deeper than the program, so that the depth of its recursion is bounded as
//! that of the program's tree. What it takes and drops nests no deeper than a document or, since a
//! run lets what it wrote go newest first, an expression.
#![tactic(auto)]

mod callee;
mod expression;
pub mod laws;
mod leaf;
mod meaning;
mod simple;
mod statement;
mod variables;
mod verdict;

pub use meaning::evaluate_within;
pub use sync_meaning::{Context, Effects, FaultKind, Rule, RuleKind};
pub use verdict::{Verdict, judge};
