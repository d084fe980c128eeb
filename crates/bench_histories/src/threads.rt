//! Two threads that judge by one program.

use crate::judging::{judged_by, resolved};
use std::alloc::Global;
use std::sync::Arc;
use std::thread::{Threads, join};
use sync_resolve::Resolved;

/// How many of so many judgements accept; none where the document can't be judged.
fn accepted(alloc: Global, program: &Resolved, document: &[u8], count: u32) -> u32 {
    judged_by(alloc, "judge_both", program, document, count).unwrap_or(0)
}

/// How many of so many judgements in each of two threads accept.
fn both<R: Threads + Sync>(
    rt: &R,
    alloc: Global,
    program: &Arc<Resolved>,
    document: &[u8],
    count: u32,
) -> (u32, u32) {
    join(
        rt,
        || -> u32 { accepted(alloc, program, document, count) },
        || -> u32 { accepted(alloc, program, document, count) },
    )
}

/// The program of a text, for both threads, where it is one.
fn shared(alloc: Global, text: &str) -> Option<Arc<Resolved>> {
    match resolved(alloc, text) {
        Some(program) => Arc::new(alloc, program).ok(),
        None => None,
    }
}

/// How many of so many judgements of a document by a function accept in two threads together.
pub fn judged_by_two<R: Threads + Sync>(
    rt: &R,
    alloc: Global,
    text: &str,
    document: &[u8],
    count: u32,
) -> u32 {
    match shared(alloc, text) {
        Some(program) => {
            let (one, two) = both(rt, alloc, &program, document, count);
            drop(program);
            one.saturating_add(two)
        }
        None => 0,
    }
}
