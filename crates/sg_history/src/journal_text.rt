//! Writes the text of a history.

ghost use Rattle.std.specs.Prelude.{◌≡◌, ◌++◌, ◌∷◌, [], decimal, OnOk, OnErr};
ghost use Rattle.sg_names.specs.RevId.{rev_text};
ghost use Rattle.sg_names.specs.Revs.{revs_text};
ghost use Rattle.sg_names.specs.Channels.{channels_text};
ghost use Rattle.sg_names.specs.Names.{names_text};
ghost use Rattle.sg_names.specs.Grants.{grants_text};
ghost use Rattle.sg_names.specs.RoleGrants.{role_grants_text};
ghost use Rattle.sg_names.specs.Hex.{hex_text};
ghost use Rattle.sg_history.specs.History.{history};
ghost use Rattle.sg_history.specs.Journal.{by_text, deleted_text, header_of, journal_text, line_of, lines_of, marks_fields};
ghost use Rattle.sg_history.specs.Line.{BeginsWith, behind_tabs};
ghost use Rattle.sg_history.specs.declared.entries.Entry.TheVariants as entry;

use crate::entries::{Entry, Log, Mark, Marks, Write};
use crate::sync_text::SyncText;
use sg_names::{Channels, Grants, Name, Names, RoleGrants, write_decimal, write_hex};
use sg_outside::{Bytes, Memory};

/// Puts the text of a writer at the end.
fn put_writer(by: &Option<Name>, out: &mut Bytes) -> Result<(), Memory>
    ensures ok { OnOk result (out.new ≡ out.old ++ by_text by.now) }
    ensures err { OnErr result (out.new ≡ out.old) }
{
    match by {
        Some(name) => out.extend_from_slice(name.as_bytes()),
        None => out.push(b'-'),
    }
}

/// Puts the kind of a write at the end, and the fields that say which revision it is.
fn put_revision(write: &Write, out: &mut Bytes) -> Result<(), Memory>
    ensures ok { OnOk result (out.new ≡ out.old
        ++ (87 ∷ 9 ∷ write.now.doc ++ 9 ∷ rev_text write.now.rev
        ++ 9 ∷ revs_text write.now.ancestors)) }
    ensures err { OnErr result (BeginsWith out.old out.new) }
{
    out.extend_from_slice(b"W\t")?;
    out.extend_from_slice(write.doc.as_bytes())?;
    out.push(b'\t')?;
    write.rev.write(out)?;
    out.push(b'\t')?;
    write.ancestors.write(out)
}

/// Puts the fields that say what was written, and by whom.
fn put_body(write: &Write, out: &mut Bytes) -> Result<(), Memory>
    ensures ok { OnOk result (out.new ≡ out.old ++ (9 ∷ deleted_text write.now.deleted
        ++ 9 ∷ hex_text write.now.body ++ 9 ∷ by_text write.now.by)) }
    ensures err { OnErr result (BeginsWith out.old out.new) }
{
    out.push(b'\t')?;
    out.push(if write.deleted { b'1' } else { b'0' })?;
    out.push(b'\t')?;
    write_hex(write.body.as_slice(), out)?;
    out.push(b'\t')?;
    put_writer(&write.by, out)
}

/// Puts the front and the winner.
fn put_judged(write: &Write, out: &mut Bytes) -> Result<(), Memory>
    ensures ok { OnOk result (out.new ≡ out.old ++ (9 ∷ decimal write.now.at
        ++ 9 ∷ rev_text write.now.winner)) }
    ensures err { OnErr result (BeginsWith out.old out.new) }
{
    out.push(b'\t')?;
    write_decimal(write.at, out)?;
    out.push(b'\t')?;
    write.winner.write(out)
}

/// Puts the effects of a revision.
fn put_effects(
    channels: &Channels,
    grants: &Grants,
    roles: &RoleGrants,
    out: &mut Bytes,
) -> Result<(), Memory>
    ensures ok { OnOk result (out.new ≡ out.old ++ (9 ∷ channels_text channels.now
        ++ 9 ∷ grants_text grants.now ++ 9 ∷ role_grants_text roles.now)) }
    ensures err { OnErr result (BeginsWith out.old out.new) }
{
    out.push(b'\t')?;
    channels.write(out)?;
    out.push(b'\t')?;
    grants.write(out)?;
    out.push(b'\t')?;
    roles.write(out)
}

/// Puts the line of a write at the end, without its line feed.
fn put_write(write: &Write, out: &mut Bytes) -> Result<(), Memory>
    ensures ok { OnOk result (out.new ≡ out.old ++ line_of (entry.Write write.now)) }
    ensures err { OnErr result (BeginsWith out.old out.new) }
{
    put_revision(write, out)?;
    put_body(write, out)?;
    put_judged(write, out)?;
    put_effects(&write.channels, &write.grants, &write.roles, out)
}

/// Puts the line of a put of a user at the end, without its line feed.
fn put_user(name: &Name, channels: &Channels, roles: &Names, out: &mut Bytes) -> Result<(), Memory>
    ensures ok { OnOk result (out.new ≡ out.old
        ++ line_of (entry.PutUser name.now channels.now roles.now)) }
    ensures err { OnErr result (BeginsWith out.old out.new) }
{
    put_named(b"U", name, out)?;
    out.push(b'\t')?;
    channels.write(out)?;
    out.push(b'\t')?;
    roles.write(out)
}

/// Puts the line of a put of a role at the end, without its line feed.
fn put_role(name: &Name, channels: &Channels, out: &mut Bytes) -> Result<(), Memory>
    ensures ok { OnOk result (out.new ≡ out.old
        ++ line_of (entry.PutRole name.now channels.now)) }
    ensures err { OnErr result (BeginsWith out.old out.new) }
{
    put_named(b"R", name, out)?;
    out.push(b'\t')?;
    channels.write(out)
}

/// Puts a kind and a name at the end.
fn put_named(kind: &[u8], name: &Name, out: &mut Bytes) -> Result<(), Memory>
    ensures ok { OnOk result (out.new ≡ out.old ++ kind.now ++ 9 ∷ name.now) }
    ensures err { OnErr result (BeginsWith out.old out.new) }
{
    out.extend_from_slice(kind)?;
    out.push(b'\t')?;
    out.extend_from_slice(name.as_bytes())
}

/// Puts the document and the revision of a mark at the end, each behind a TAB.
fn put_marked(mark: &Mark, out: &mut Bytes) -> Result<(), Memory>
    ensures ok { OnOk result (out.new ≡ out.old
        ++ (9 ∷ mark.now.doc ++ 9 ∷ rev_text mark.now.rev)) }
    ensures err { OnErr result (BeginsWith out.old out.new) }
{
    out.push(b'\t')?;
    out.extend_from_slice(mark.doc.as_bytes())?;
    out.push(b'\t')?;
    mark.rev.write(out)
}

/// Puts the fields of a mark at the end, each behind a TAB.
fn put_mark(mark: &Mark, out: &mut Bytes) -> Result<(), Memory>
    ensures ok { OnOk result (out.new ≡ out.old ++ behind_tabs (marks_fields (mark.now ∷ []))) }
    ensures err { OnErr result (BeginsWith out.old out.new) }
{
    put_marked(mark, out)?;
    put_effects(&mark.channels, &mark.grants, &mark.roles, out)
}

/// Puts the fields of marks at the end, each behind a TAB.
fn put_marks(marks: &[Mark], out: &mut Bytes) -> Result<(), Memory>
    ensures ok { OnOk result (out.new ≡ out.old ++ behind_tabs (marks_fields marks.now)) }
    ensures err { OnErr result (BeginsWith out.old out.new) }
{
    for mark in marks {
        put_mark(mark, out)?;
    }
    Ok(())
}

/// Puts the line of a replacement of the sync function at the end, without its line feed.
fn put_sync(text: &SyncText, marks: &Marks, out: &mut Bytes) -> Result<(), Memory>
    ensures ok { OnOk result (out.new ≡ out.old ++ line_of (entry.Sync text.now marks.now)) }
    ensures err { OnErr result (BeginsWith out.old out.new) }
{
    out.extend_from_slice(b"S\t")?;
    write_hex(text.as_bytes(), out)?;
    put_marks(marks.as_slice(), out)
}

/// Puts the line of an entry at the end, without its line feed, up to a field for which there is no memory.
fn put_entry(entry: &Entry, out: &mut Bytes) -> Result<(), Memory>
    ensures ok { OnOk result (out.new ≡ out.old ++ line_of entry.now) }
    ensures err { OnErr result (BeginsWith out.old out.new) }
{
    match entry {
        Entry::Write(write) => put_write(write, out),
        Entry::PutUser(name, channels, roles) => put_user(name, channels, roles, out),
        Entry::PutRole(name, channels) => put_role(name, channels, out),
        Entry::DropUser(name) => put_named(b"DU", name, out),
        Entry::DropRole(name) => put_named(b"DR", name, out),
        Entry::Sync(text, marks) => put_sync(text, marks, out),
        Entry::Unused => out.push(b'X'),
    }
}

/// Puts the line of an entry at the end, without its line feed. An error leaves the bytes as they were.
pub fn write_line(entry: &Entry, out: &mut Bytes) -> Result<(), Memory>
    ensures ok { OnOk result (out.new ≡ out.old ++ line_of entry.now) }
    ensures err { OnErr result (out.new ≡ out.old) }
{
    let start = out.len();
    let written = put_entry(entry, out);
    if written.is_err() {
        out.truncate(start);
    }
    written
}

/// Puts the line of an entry at the end, up to a field for which there is no memory.
fn put_line(entry: &Entry, out: &mut Bytes) -> Result<(), Memory>
    ensures ok { OnOk result (out.new ≡ out.old ++ (line_of entry.now ++ 10 ∷ [])) }
    ensures err { OnErr result (BeginsWith out.old out.new) }
{
    put_entry(entry, out)?;
    out.push(b'\n')
}

/// Puts the lines of entries at the end, up to one for which there is no memory.
fn put_lines(entries: &[Entry], out: &mut Bytes) -> Result<(), Memory>
    ensures ok { OnOk result (out.new ≡ out.old ++ lines_of entries.now) }
    ensures err { OnErr result (BeginsWith out.old out.new) }
{
    for entry in entries {
        put_line(entry, out)?;
    }
    Ok(())
}

/// Puts the first line of a journal at the end, up to a word for which there is no memory.
fn put_header(limit: Option<u32>, out: &mut Bytes) -> Result<(), Memory>
    ensures ok { OnOk result (out.new ≡ out.old ++ header_of limit) }
    ensures err { OnErr result (BeginsWith out.old out.new) }
{
    match limit {
        None => out.extend_from_slice(b"sgjournal 1\n"),
        Some(limit) => {
            out.extend_from_slice(b"sgjournal 2 ")?;
            write_decimal(limit as u64, out)?;
            out.push(b'\n')
        }
    }
}

/// Puts the text of a history at the end, up to a line for which there is no memory.
fn put_journal(log: &Log, out: &mut Bytes) -> Result<(), Memory>
    ensures ok { OnOk result (out.new ≡ out.old ++ journal_text (history log.now)) }
    ensures err { OnErr result (BeginsWith out.old out.new) }
{
    put_header(log.limit, out)?;
    put_lines(log.entries.as_slice(), out)
}

/// Puts the journal of a log at the end. An error leaves the bytes as they were.
///
/// Of a log that keeps the grammars, the rules and the limits of a journal, as each that was read does, this is the text
/// that is read as that log.
pub fn write_journal(log: &Log, out: &mut Bytes) -> Result<(), Memory>
    ensures ok { OnOk result (out.new ≡ out.old ++ journal_text (history log.now)) }
    ensures err { OnErr result (out.new ≡ out.old) }
{
    let start = out.len();
    let written = put_journal(log, out);
    if written.is_err() {
        out.truncate(start);
    }
    written
}
