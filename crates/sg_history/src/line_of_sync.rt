//! The fields of the line of a replaced sync function, read as one.

ghost use Rattle.std.specs.Prelude.{◌≡◌, ◌≤◌, ◌<◌, ◌+◌, ◌-◌, ◌*◌, ◌^◌, ◌%◌, ◌++◌, ◌∷◌, [], nat_eq, List, ℕ, length, codes, IfOk, IfErr};
ghost use Rattle.sg_history.specs.Faults.{HasReason, IsBadTextAmong, IsFault, mark_grammars, marks_grammars};
ghost use Rattle.sg_history.specs.Journal.{AreMarks, IsMark, marks_fields};
ghost use Rattle.sg_history.specs.Line.{AreRead, mark_texts_of};
ghost use Rattle.sg_history.specs.Pieces.{pieces};

use crate::entries::{Entry, Mark, Marks};
use crate::fault::{LineFault, Why};
use crate::field::{self, read_three, read_two};
use crate::pieces::{cut, field_count};
use std::alloc::Global;
use std::marker::Model;

/// The fields of a mark.
#[derive(Clone, Copy)]
pub struct MarkTexts<'a> {
    pub doc: &'a [u8],
    pub rev: &'a [u8],
    pub channels: &'a [u8],
    pub grants: &'a [u8],
    pub roles: &'a [u8],
}

/// The fields of a line that were not passed over yet.
#[derive(Drop)]
struct Cursor<'a> {
    rest: Option<&'a [u8]>,
}

impl<'a> Model for Cursor<'a> {
    ghost use Rattle.std.specs.Prelude.{List, ℕ};
    ghost use Rattle.sg_history.specs.Line.{fields_left};

    ghost Value = { List (List ℕ) };

    ghost view = { λ c. fields_left c.rest };
}

impl<'a> Cursor<'a> {
    fn new(line: &'a [u8]) -> Cursor<'a>
        ensures { result ≡ pieces 9 line.now }
    {
        Cursor { rest: Some(line) }
    }

    /// The next field, which is passed over.
    fn next(&mut self) -> &'a [u8]
        requires { 0 < length self.old }
        ensures { self.old ≡ result.now ∷ self.new }
    {
        let Some(line) = self.rest else {
            unreachable!()
        };
        match cut(line, b'\t') {
            Some((field, behind)) => {
                self.rest = Some(behind);
                field
            }
            None => {
                self.rest = None;
                line
            }
        }
    }

    /// The fields of the next mark, which are passed over.
    fn next_mark(&mut self) -> MarkTexts<'a>
        requires { 5 ≤ length self.old }
        ensures { self.old ≡ mark_texts_of result ++ self.new }
    {
        let doc = self.next();
        let rev = self.next();
        let channels = self.next();
        let grants = self.next();
        let roles = self.next();
        MarkTexts {
            doc,
            rev,
            channels,
            grants,
            roles,
        }
    }
}

/// Reads a mark, of which the first field has this number.
fn read_mark(alloc: Global, texts: MarkTexts<'_>, number: u64) -> Result<Mark, LineFault>
    requires { number < 2 ^ 64 - 5 }
    ensures mark { IfOk result (λ mark. IsMark mark) }
    ensures fields { IfOk result (λ mark. mark_texts_of texts.entry ≡ marks_fields (mark ∷ [])) }
    ensures reason { IfErr result (IsBadTextAmong number mark_grammars (mark_texts_of texts.entry)) }
{
    let revision = read_three(alloc, texts.doc, texts.rev, texts.channels, number)?;
    let (grants, roles) = match read_two(alloc, texts.grants, texts.roles, number + 3) {
        Ok(given) => given,
        Err(fault) => {
            drop(revision);
            return Err(fault);
        }
    };
    let (doc, rev, channels) = revision;
    Ok(Mark {
        doc,
        rev,
        channels,
        grants,
        roles,
    })
}

/// Reads so many marks, which are all that is left of the line, and of which the first field has the number 3.
fn read_marks(alloc: Global, fields: &mut Cursor<'_>, count: usize) -> Result<Marks, LineFault>
    requires count { length fields.old ≡ 5 * count }
    requires few { 5 * count < 2 ^ 64 - 3 }
    ensures marks { IfOk result (λ marks. AreMarks marks) }
    ensures fields { IfOk result (λ marks. fields.old ≡ marks_fields marks) }
    ensures reason { IfErr result (IsBadTextAmong 3 (marks_grammars count) fields.old) }
{
    let mut marks = Marks::new(alloc);
    for i in 0..count {
        let texts = fields.next_mark();
        let mark = read_mark(alloc, texts, 5 * i as u64 + 3)?;
        marks.push(mark)?;
    }
    Ok(marks)
}

/// Reads so many marks behind a text, or else says which field is outside its grammar.
fn read_fields(alloc: Global, line: &[u8], count: usize) -> Result<Entry, LineFault>
    requires fields { length (pieces 9 line.now) ≡ 5 * count + 1 }
    requires few { 5 * count + 1 < 2 ^ 64 }
    ensures ok { IfOk result (λ e. AreRead (codes "S" ∷ pieces 9 line.now) e) }
    ensures reason { IfErr result (HasReason (IsFault (codes "S" ∷ pieces 9 line.now))) }
{
    let mut fields = Cursor::new(line);
    let text = field::read(alloc, fields.next(), 2)?;
    match read_marks(alloc, &mut fields, count) {
        Ok(marks) => Ok(Entry::Sync(text, marks)),
        Err(fault) => {
            drop(text);
            Err(fault)
        }
    }
}

/// Whether so many fields are a text and marks.
fn is_count(count: usize) -> bool
    ensures { result ≡ nat_eq (count % 5) 1 }
{
    count % 5 == 1
}

/// Reads what stands behind the kind `S`.
pub fn read_sync(alloc: Global, line: &[u8]) -> Result<Entry, LineFault>
    ensures ok { IfOk result (λ e. AreRead (codes "S" ∷ pieces 9 line.now) e) }
    ensures reason { IfErr result (HasReason (IsFault (codes "S" ∷ pieces 9 line.now))) }
{
    let count = field_count(line);
    if !is_count(count) {
        return Err(LineFault::Bad(Why::Fields));
    }
    read_fields(alloc, line, count / 5)
}
