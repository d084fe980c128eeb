//! The rules that a journal's writes keep.

ghost use Rattle.std.specs.Prelude.{◌≡◌, ◌++◌, ◌∷◌, ◌<◌, ◌^◌, ◌-◌, ◌||◌, ◌&&◌, [], length, reverse, Ok, None, IfOk};
ghost use Rattle.std.specs.Option.{option_copied};
ghost use Rattle.sg_names.specs.RevId.{same_rev};
ghost use Rattle.sg_history.specs.History.{entries_of};
ghost use Rattle.sg_history.specs.Journal as journal;
ghost use Rattle.sg_history.specs.Rules as rules;
ghost use Rattle.sg_history.specs.inner.Written.{Knows};

use crate::entries::{Entry, Log, Mark, Write};
use crate::fault::{BadLine, Why};
use crate::line_reader::ReadsLines;
use crate::written::Written;
use sg_names::RevId;
use sg_outside::Memory;
use std::alloc::{AllocError, Global};

/// Whether the generations fall strictly from this one on.
fn falls_from(generation: u32, revs: &[RevId]) -> bool
    ensures { result ≡ journal.falls_from generation revs.now }
{
    let mut last = generation;
    for rev in revs {
        if rev.generation >= last {
            return false;
        }
        last = rev.generation;
    }
    true
}

/// Whether the winner is the write's revision or that of an earlier write of the document.
fn knows_winner<'a>(written: &Written<'a>, older: &[Entry], write: &'a Write) -> bool
    requires knows { Knows written.now older.now }
    ensures { result ≡ (same_rev write.now.winner write.now.rev
        || journal.has_rev (reverse older.now) write.now.doc write.now.winner) }
{
    write.winner.equals(&write.rev) || written.has(&write.doc, &write.winner)
}

/// The first rule that a write after these entries breaks, by the number of its field. Where there is none, the write's
/// revision is put to those that were written.
fn broken_rule<'a>(
    written: &mut Written<'a>,
    older: &[Entry],
    write: &'a Write,
) -> Result<Option<u64>, AllocError>
    requires knows { Knows written.old older.now }
    ensures rule { IfOk result (λ r. r ≡ rules.broken_rule (reverse older.now) write.now) }
    ensures knows { result ≡ Ok None → Knows written.new (older.now ++ Entry.Write write.now ∷ []) }
{
    let winner_is_known = knows_winner(written, older, write);
    if !written.insert(&write.doc, &write.rev)? {
        return Ok(Some(3));
    }
    if !falls_from(write.rev.generation, write.ancestors.as_slice()) {
        return Ok(Some(4));
    }
    if write.at > older.len() as u64 {
        return Ok(Some(8));
    }
    if !winner_is_known {
        return Ok(Some(9));
    }
    Ok(None)
}

/// Whether a mark is above the one before it, if there is one.
fn is_above_last(before: Option<&Mark>, mark: &Mark) -> bool
    ensures { result ≡ rules.is_above_last (option_copied before.entry) mark.now }
{
    match before {
        Some(before) => {
            let by_doc = before.doc.order(&mark.doc);
            by_doc.then(before.rev.order(&mark.rev)).is_lt()
        }
        None => true,
    }
}

/// Whether a mark is above the one before it, if there is one, and its revision was written.
fn is_right<'a>(
    written: &Written<'a>,
    older: &[Entry],
    before: Option<&'a Mark>,
    mark: &'a Mark,
) -> bool
    requires knows { Knows written.now older.now }
    ensures { result ≡ (rules.is_above_last (option_copied before.entry) mark.now
        && journal.has_rev (reverse older.now) mark.now.doc mark.now.rev) }
{
    is_above_last(before, mark) && written.has(&mark.doc, &mark.rev)
}

/// The number of the field of the first mark that is not above the one before it, or whose revision was not written.
fn broken_mark<'a>(written: &Written<'a>, older: &[Entry], marks: &'a [Mark]) -> Option<u64>
    requires knows { Knows written.now older.now }
    ensures { result ≡ rules.broken_mark (reverse older.now) 3 None marks.now }
{
    let mut before = None;
    for i in 0..marks.len() {
        let mark = &marks[i];
        if !is_right(written, older, before, mark) {
            return Some(5 * i as u64 + 3);
        }
        before = Some(mark);
    }
    None
}

/// A broken rule as the reason of a refusal, where one is.
fn as_fault(rule: Option<u64>) -> Option<Why>
    ensures { result ≡ rules.as_fault rule }
{
    Some(Why::Rule(rule?))
}

/// The first rule that an entry after these breaks. Where there is none, the revision of a write is put to those that
/// were written.
fn rule_fault<'a>(
    written: &mut Written<'a>,
    older: &[Entry],
    entry: &'a Entry,
) -> Result<Option<Why>, AllocError>
    requires knows { Knows written.old older.now }
    ensures rule { IfOk result (λ why. why ≡ rules.rule_fault (reverse older.now) entry.now) }
    ensures knows { result ≡ Ok None → Knows written.new (older.now ++ entry.now ∷ []) }
{
    match entry {
        Entry::Write(write) => Ok(as_fault(broken_rule(written, older, write)?)),
        Entry::Sync(_, marks) => Ok(as_fault(broken_mark(written, older, marks.as_slice()))),
        _ => Ok(None),
    }
}

/// The line of the first entry that breaks a rule, of entries of which the first has line 2.
pub fn first_broken(alloc: Global, entries: &[Entry]) -> Result<Option<BadLine>, AllocError>
    requires { length entries.now < 2 ^ 64 - 2 }
    ensures { IfOk result (λ line. line ≡ rules.first_broken 2 [] entries.now) }
{
    let mut written = Written::new(alloc);
    for i in 0..entries.len() {
        if let Some(why) = rule_fault(&mut written, &entries[..i], &entries[i])? {
            return Ok(Some(BadLine {
                place: i as u64 + 2,
                why,
            }));
        }
    }
    Ok(None)
}

/// The line of the first entry of a log that breaks a rule, counted from 1 with the header as line 1.
pub fn broken(alloc: Global, log: &Log) -> Result<Option<BadLine>, Memory>
    ensures { IfOk result (λ line. line ≡ rules.first_broken 2 [] (entries_of log.now)) }
{
    let _next = log.entries.next_place();
    first_broken(alloc, log.entries.as_slice())
}
