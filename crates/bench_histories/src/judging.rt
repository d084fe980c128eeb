//! What functions of the sync language say of a document, how long one of its members is read, and the same work in plain code.

use crate::stop::Stop;
use json_doc::{Doc, DocFault, Members, Node, read_doc};
use sg_names::{ChannelName, Channels, List, Name, Names};
use std::alloc::{AllocError, Global};
use sync_eval::{Context, Verdict, judge};
use sync_meaning::{Value, member, value_of};
use sync_resolve::{Resolved, resolve};
use sync_syntax::{Place, parse};

/// The document of a text; one without members where it is none.
fn read(alloc: Global, text: &[u8]) -> Result<Doc, AllocError> {
    match read_doc(alloc, text) {
        Ok(doc) => Ok(doc),
        Err(DocFault::Memory) => Err(AllocError),
        Err(_) => Ok(Doc::from(Members::new(alloc))),
    }
}

/// The program of a text, where it is one.
pub fn resolved(alloc: Global, text: &str) -> Option<Resolved> {
    match parse(alloc, text) {
        Ok(program) => resolve(alloc, program).ok(),
        Err(_) => None,
    }
}

/// The administrator.
fn nobody(alloc: Global) -> Context {
    let roles: Names = List::new(alloc);
    let channels: Channels = List::new(alloc);
    Context {
        user: None,
        roles,
        channels,
    }
}

/// A user who has the channels of a document.
fn ann(alloc: Global, doc: &Doc) -> Result<Context, Stop> {
    let channels = List::from_vec(channels_of(alloc, doc)?);
    let roles: Names = List::new(alloc);
    let user = Some(Name::parse(alloc, "ann")?);
    Ok(Context {
        user,
        roles,
        channels,
    })
}

/// Who writes by a job.
fn writer(alloc: Global, job: &str, doc: &Doc) -> Result<Context, Stop> {
    match job {
        "judge_user" => ann(alloc, doc),
        _ => Ok(nobody(alloc)),
    }
}

/// The document before, by a job, where the program takes one.
fn before(
    alloc: Global,
    job: &str,
    program: &Resolved,
    text: &[u8],
) -> Result<Option<Doc>, AllocError> {
    if job == "judge_change" && program.takes_old() {
        Ok(Some(read(alloc, text)?))
    } else {
        Ok(None)
    }
}

fn accepts(
    alloc: Global,
    program: &Resolved,
    doc: &Doc,
    old: Option<&Doc>,
    context: &Context,
) -> bool {
    matches!(judge(alloc, program, doc, old, context), Verdict::Accept(_))
}

/// How many of so many judgements accept.
fn accepted(
    alloc: Global,
    program: &Resolved,
    doc: &Doc,
    old: Option<&Doc>,
    context: &Context,
    count: u32,
) -> u32 {
    let mut found: u32 = 0;
    for _ in 0..count {
        if accepts(alloc, program, doc, old, context) {
            found = found.saturating_add(1);
        }
    }
    found
}

/// How many of so many judgements accept, each with a document before where a job says so.
fn accepted_by(
    alloc: Global,
    job: &str,
    program: &Resolved,
    doc: &Doc,
    text: &[u8],
    count: u32,
) -> Result<u32, Stop> {
    let context = writer(alloc, job, doc)?;
    let old = before(alloc, job, program, text)?;
    let found = accepted(alloc, program, doc, old.as_ref(), &context, count);
    drop(old);
    drop(context);
    Ok(found)
}

/// How many of so many judgements of a document by a program accept.
pub fn judged_by(
    alloc: Global,
    job: &str,
    program: &Resolved,
    document: &[u8],
    count: u32,
) -> Result<u32, Stop> {
    let doc = read(alloc, document)?;
    let found = accepted_by(alloc, job, program, &doc, document, count);
    drop(doc);
    found
}

/// How many of so many judgements of a document by a function accept.
fn judged(alloc: Global, job: &str, text: &str, document: &[u8], count: u32) -> Result<u32, Stop> {
    match resolved(alloc, text) {
        Some(program) => {
            let found = judged_by(alloc, job, &program, document, count);
            drop(program);
            found
        }
        None => Ok(0),
    }
}

// ---- members

fn is_read(name: &str, value: &Value) -> bool {
    member(Place::START, name, value).is_ok()
}

/// What a document's `of` is as a value.
fn value_in(alloc: Global, document: &[u8]) -> Result<Value, AllocError> {
    let doc = read(alloc, document)?;
    let value = match doc.as_node().get("of") {
        Some(node) => value_of(alloc, node),
        None => Ok(Value::Null),
    };
    drop(doc);
    value
}

/// How many of so many readings of a member of a document's `of` gave a value.
fn members_read(alloc: Global, name: &str, document: &[u8], count: u32) -> Result<u32, AllocError> {
    let value = value_in(alloc, document)?;
    let mut found: u32 = 0;
    for _ in 0..count {
        if is_read(name, &value) {
            found = found.saturating_add(1);
        }
    }
    drop(value);
    Ok(found)
}

// ---- the same work in plain code

fn list_of<'d>(doc: &'d Doc, name: &str) -> &'d [Node] {
    match doc.as_node().get(name) {
        Some(Node::List(items)) => items.as_slice(),
        _ => &[],
    }
}

fn is_b(node: &Node) -> bool {
    match node {
        Node::Text(text) => text.as_str() == "b",
        _ => false,
    }
}

fn channel_of(alloc: Global, node: &Node) -> Option<ChannelName> {
    match node {
        Node::Text(text) => ChannelName::parse(alloc, text.as_str()).ok(),
        _ => None,
    }
}

/// The channels of a document.
fn channels_of(alloc: Global, doc: &Doc) -> Result<Vec<ChannelName>, AllocError> {
    let mut found = Vec::new(alloc);
    for node in list_of(doc, "channels") {
        if let Some(name) = channel_of(alloc, node) {
            found.push(name)?;
        }
    }
    Ok(found)
}

/// How many channels a document has, put in order.
fn plain_channels(alloc: Global, doc: &Doc) -> Result<u32, AllocError> {
    let mut found = channels_of(alloc, doc)?;
    found.sort_by(|a, b| a.as_bytes().cmp(b.as_bytes()))?;
    Ok(u32::try_from(found.len()).unwrap_or(u32::MAX))
}

/// The channel of the count of items that are `b`.
fn plain_count(alloc: Global, doc: &Doc) -> Result<u32, AllocError> {
    let count = list_of(doc, "list")
        .iter()
        .filter(|node| is_b(node))
        .count();
    let text = format!(in alloc; "n{count}")?;
    Ok(u32::from(ChannelName::parse(alloc, text.as_str()).is_ok()))
}

/// How many items there are, one after another.
fn plain_pass(doc: &Doc) -> u32 {
    let mut found: u32 = 0;
    for _ in list_of(doc, "list") {
        found = found.saturating_add(1);
    }
    found
}

fn plain_once(alloc: Global, job: &str, doc: &Doc) -> Result<u32, AllocError> {
    match job {
        "plain_channels" => plain_channels(alloc, doc),
        "plain_count" => plain_count(alloc, doc),
        _ => Ok(plain_pass(doc)),
    }
}

/// Does the work of one of the functions on a document in plain code, so many times: how many channels or items it came to.
fn plain(alloc: Global, job: &str, document: &[u8], count: u32) -> Result<u32, AllocError> {
    let doc = read(alloc, document)?;
    let mut found: u32 = 0;
    for _ in 0..count {
        found = found.saturating_add(plain_once(alloc, job, &doc)?);
    }
    Ok(found)
}

/// What a job counts that takes a text and a document.
pub fn job(
    alloc: Global,
    name: &str,
    text: &str,
    document: &[u8],
    count: u32,
) -> Result<u32, Stop> {
    match name {
        "judge" | "judge_user" | "judge_change" => judged(alloc, name, text, document, count),
        "member" => Ok(members_read(alloc, text, document, count)?),
        _ => Ok(plain(alloc, name, document, count)?),
    }
}
