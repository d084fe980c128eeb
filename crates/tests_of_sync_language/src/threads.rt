//! Two threads that run one program.

use crate::faults::program;
use json_doc::{DocText, read_doc};
use sg_names::{Channels, List, Names};
use std::alloc::Global;
use std::sync::Arc;
use std::test::Fail;
use std::thread::{Threads, join};
use sync_eval::{Context, Verdict, judge};
use sync_resolve::{Resolved, resolve};

/// A function that gathers for a while, and then denies.
const FUNCTION: &str =
    "function(doc) { for (var i = 0; i < 1000; i++) channel(doc.channels); throw({forbidden: doc.why}); }";

const DOCUMENT: &str = "{\"channels\":[\"a\",\"b\"],\"why\":\"closed on Sundays\"}";

/// The administrator.
fn nobody(alloc: Global) -> Context {
    let roles: Names = List::new(alloc);
    let channels: Channels = List::new(alloc);
    Context {
        user: None,
        roles,
        channels,
    }
}

/// The rule by which a program denies the document.
fn denial(alloc: Global, program: &Resolved) -> Option<DocText> {
    let Ok(doc) = read_doc(alloc, DOCUMENT.as_bytes()) else {
        return None;
    };
    match judge(alloc, program, &doc, None, &nobody(alloc)) {
        Verdict::Deny(rule) => rule.text(alloc).ok(),
        _ => None,
    }
}

/// The rules by which two threads deny the document.
fn two_denials<R: Threads + Sync>(
    rt: &R,
    alloc: Global,
    program: &Arc<Resolved>,
) -> (Option<DocText>, Option<DocText>) {
    join(
        rt,
        || -> Option<DocText> { denial(alloc, program) },
        || -> Option<DocText> { denial(alloc, program) },
    )
}

/// The program that threads share.
fn shared(alloc: Global) -> Result<Arc<Resolved>, Fail> {
    match resolve(alloc, program(alloc, FUNCTION)?) {
        Ok(program) => Ok(Arc::new(alloc, program)?),
        Err(_) => Err(Fail::from("not resolved")),
    }
}

fn is_right(denial: &Option<DocText>) -> bool {
    match denial {
        Some(text) => text.as_str() == "forbidden at 1:71: closed on Sundays",
        None => false,
    }
}

#[test]
fn two_threads_with_one_program(rt: HostRuntime) -> Result<(), Fail> {
    let alloc = rt.alloc();
    let program = shared(alloc)?;
    let (one, two) = two_denials(&rt, alloc, &program);
    drop(program);
    assert!(rt; is_right(&one));
    assert!(rt; is_right(&two));
    Ok(())
}
