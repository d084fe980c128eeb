//! Journals that are read, written and refused.

use crate::texts::{cut, tabbed, write_bad};
use crate::worked::log_of;
use sg_history::{
    BadLine, Entry, Log, LogReads, Why, Write, broken, read_journal, read_line, write_journal,
    write_line,
};
use sg_outside::Bytes;
use std::alloc::{AllocError, Global};
use std::test::Fail;

/// The bytes of a line of the table.
fn bytes_of(alloc: Global, line: &str) -> Result<Bytes, AllocError> {
    match line.strip_prefix('+') {
        Some(bad) => behind_a_write(alloc, bad),
        None => tabbed(alloc, line),
    }
}

/// A journal of one write and these lines.
fn behind_a_write(alloc: Global, bad: &str) -> Result<Bytes, AllocError> {
    let mut journal = tabbed(alloc, "sgjournal 1/W|d|1-a|-|0|7b7d|-|0|1-a|-|-|-/")?;
    let bad = tabbed(alloc, bad)?;
    journal.extend_from_slice(bad.as_slice())?;
    Ok(journal)
}

/// The first bad line of a journal and what is bad there.
fn write_fault(alloc: Global, journal: &str, text: &mut Bytes) -> Result<(), AllocError> {
    let journal = bytes_of(alloc, journal)?;
    match read_journal(alloc, journal.as_slice()) {
        Ok(_) => Ok(()),
        Err(fault) => write_bad(&fault, text),
    }
}

/// The same as a text.
fn fault_text(alloc: Global, journal: &str) -> Result<Bytes, AllocError> {
    let mut text = Bytes::new(alloc);
    write_fault(alloc, journal, &mut text)?;
    Ok(text)
}

/// A journal of each kind of entry.
const EACH_KIND: &str =
    "sgjournal 1/U|ann|A|r/R|r|!,*/W|d,é|3-c|2-b,1-a|1|00ff|ann|0|3-c|A,B|ann=B,role:r=C|ann=r/X/DR|r/DU|ann/W|d,é|4-d|3-c|0|7b7d|-|6|3-c|-|-|-/S|c3a9|d,é|3-c|B|role:r=C|-|d,é|4-d|-|-|ann=r/S|7b7d/";

/// A log as its journal.
fn written(alloc: Global, log: &Log) -> Result<Bytes, AllocError> {
    let mut text = Bytes::from_slice(alloc, b"> ")?;
    write_journal(log, &mut text)?;
    Ok(text)
}

/// Whether a log is written as this journal.
fn is_written_so(alloc: Global, log: &Log, journal: &str) -> Result<bool, AllocError> {
    let want = tabbed(alloc, journal)?;
    let text = written(alloc, log)?;
    Ok(text.as_slice().strip_prefix(b"> ".as_slice()) == Some(want.as_slice()))
}

/// The fields of `W|d,é|3-c|2-b,1-a|1|00ff|ann|0|3-c|A,B|ann=B,role:r=C|ann=r` that are texts or numbers.
fn has_names(write: &Write) -> bool {
    let by = match &write.by {
        Some(name) => name.as_str(),
        None => "",
    };
    write.doc.as_str() == "d,é"
        && write.rev.generation == 3
        && write.rev.digest.as_str() == "c"
        && write.body.as_slice() == [0, 255].as_slice()
        && by == "ann"
        && write.at == 0
}

/// Its other fields.
fn has_lists(write: &Write) -> bool {
    write.ancestors.as_slice().len() == 2
        && write.deleted
        && write.winner.equals(&write.rev)
        && write.channels.as_slice().len() == 2
        && write.grants.as_slice().len() == 2
        && write.roles.as_slice().len() == 1
}

/// Whether an entry is `U|ann|A|r`.
fn is_user(entry: &Entry) -> bool {
    match entry {
        Entry::PutUser(name, channels, roles) => {
            name.as_str() == "ann" && channels.as_slice().len() == 1 && roles.as_slice().len() == 1
        }
        _ => false,
    }
}

fn is_write(entry: &Entry) -> bool {
    match entry {
        Entry::Write(write) => has_names(write) && has_lists(write),
        _ => false,
    }
}

/// Whether an entry is `S|c3a9|d,é|3-c|B|role:r=C|-|d,é|4-d|-|-|ann=r`.
fn is_sync(entry: &Entry) -> bool {
    let Some(sync) = entry.as_sync() else {
        return false;
    };
    let [first, second] = sync.marks.as_slice() else {
        return false;
    };
    sync.text.as_str() == "é"
        && first.doc.as_str() == "d,é"
        && first.rev.generation == 3
        && first.channels.as_slice().len() == 1
        && first.grants.as_slice().len() == 1
        && second.rev.digest.as_str() == "d"
        && second.roles.as_slice().len() == 1
}

/// Whether the entries 3, 1, 4 and 8 of the journal of each kind are right, and are counted.
fn are_entries(log: &Log) -> bool {
    let mut reads = LogReads::new(log);
    reads.length() == 9
        && is_write(reads.entry(3))
        && is_user(reads.entry(1))
        && matches!(reads.entry(4), Entry::Unused)
        && is_sync(reads.entry(8))
        && reads.reads() == 4
}

#[test]
fn journals_are_read_and_written_again(rt: HostRuntime) -> Result<(), Fail> {
    let alloc = rt.alloc();
    let empty = log_of(alloc, "sgjournal 1/")?;
    assert!(rt; empty.entries.len() == 0);
    assert!(rt; is_written_so(alloc, &empty, "sgjournal 1/")?);
    let each_kind = log_of(alloc, EACH_KIND)?;
    assert!(rt; is_written_so(alloc, &each_kind, EACH_KIND)?);
    assert!(rt; are_entries(&each_kind));
    let limited = log_of(alloc, "sgjournal 2 50/X/")?;
    assert!(rt; limited.limit == Some(50));
    assert!(rt; is_written_so(alloc, &limited, "sgjournal 2 50/X/")?);
    Ok(())
}

/// Whether a line is read as an entry that is written as this line.
fn is_read_again(alloc: Global, line: &str) -> Result<bool, AllocError> {
    let line = tabbed(alloc, line)?;
    let mut text = Bytes::from_slice(alloc, b"> ")?;
    match read_line(alloc, line.as_slice()) {
        Ok(entry) => {
            let written = write_line(&entry, &mut text);
            drop(entry);
            written?;
        }
        Err(_) => return Ok(false),
    }
    Ok(text.as_slice().strip_prefix(b"> ".as_slice()) == Some(line.as_slice()))
}

#[test]
fn lines_are_read_and_written_alone(rt: HostRuntime) -> Result<(), Fail> {
    let alloc = rt.alloc();
    assert!(rt; is_read_again(alloc, "S|7b7d|d|1-a|B|-|-")?);
    assert!(rt; is_read_again(alloc, "W|d|1-a|-|0|7b7d|-|18446744073709551615|1-b|-|-|-")?);
    assert!(rt; is_read_again(alloc, "X")?);
    assert!(rt; !is_read_again(alloc, "X|")?);
    Ok(())
}

/// A text of so many bytes, in hexadecimal, behind the kind of a replaced sync function.
fn sync_line(alloc: Global, bytes: usize) -> Result<Bytes, AllocError> {
    let mut line = Bytes::from_slice(alloc, b"S\t")?;
    for _ in 0..bytes {
        line.extend_from_slice(b"61")?;
    }
    Ok(line)
}

/// Whether the line of a text of so many bytes is read.
fn is_read(alloc: Global, bytes: usize) -> Result<bool, AllocError> {
    let line = sync_line(alloc, bytes)?;
    let read = read_line(alloc, line.as_slice());
    let is_read = read.is_ok();
    drop(read);
    Ok(is_read)
}

#[test]
fn a_sync_function_has_a_longest_text(rt: HostRuntime) -> Result<(), Fail> {
    let alloc = rt.alloc();
    assert!(rt; is_read(alloc, 65_536)?);
    assert!(rt; !is_read(alloc, 65_537)?);
    Ok(())
}

#[test]
fn the_first_broken_entry_of_a_log_is_named(rt: HostRuntime) -> Result<(), Fail> {
    let alloc = rt.alloc();
    let mut log = log_of(alloc, "sgjournal 1/X/")?;
    assert!(rt; broken(alloc, &log)?.is_none());
    let late = tabbed(alloc, "W|d|1-a|-|0|7b7d|-|2|1-a|-|-|-")?;
    if let Ok(entry) = read_line(alloc, late.as_slice()) {
        log.entries.push(entry)?;
    }
    assert!(rt;
        matches!(
            broken(alloc, &log)?,
            Some(BadLine {
                place: 3,
                why: Why::Rule(8)
            })
        )
    );
    Ok(())
}

/// Texts that are no journal, one a line, with `/` for a line feed and `~` for the byte FF: before each the first bad line and
/// what is bad there. `+` stands for the header and the write `W|d|1-a|-|0|7b7d|-|0|1-a|-|-|-`.
const BAD: &str = "\
1 Head;\n\
1 Head;sgjournal 3/\n\
1 Head;sgjournal 3\n\
1 Head;sgjournal 1 /Q/\n\
1 Head;sgjournal 2 19/\n\
1 Head;sgjournal 2 1001/\n\
1 Head;sgjournal 2 020/\n\
1 Head;sgjournal 2/\n\
1 Head;sgjournal 2 /\n\
1 Head;sgjournal 2 50 /\n\
1 Ending;sgjournal 1\n\
1 Ending;sgjournal 2 50\n\
2 Kind;sgjournal 2 1000/Q|x/\n\
2 Kind;sgjournal 1/Q|x/\n\
2 Ending;sgjournal 1/Q|x\n\
3 Rule(8);sgjournal 1/U|ann|A|-/W|d1|1-a|-|0|7b7d|-|2|1-a|A|-|-/W|d2|1-b|-|0|7b7d|-|2|1-b|B|-|-/W|d3|1-c|-|0|7b7d|-|3|1-c|!|-|-/\n\
5 Ending;sgjournal 1/U|ann|A|-/W|d1|1-a|-|0|7b7d|-|1|1-a|A|-|-/W|d2|1-b|-|0|7b7d|-|2|1-b|B|-|-/W|d3|1-c|-|0|7b7d|-|3|1-c|!|-|-\n\
3 Kind;sgjournal 1/U|ann|A|-//Q|x/\n\
2 Field(2);sgjournal 1/U|~|A|-/\n\
2 Field(3);sgjournal 1/U|ann|A,~|-/\n\
2 Field(4);sgjournal 1/U|ann|-|~/\n\
3 Kind;+/\n\
3 Kind;+w/\n\
3 Kind;+Q|1|2|3|4|5|6|7|8|9|10|11|12/\n\
3 Fields;+W/\n\
3 Fields;+R|x/\n\
3 Fields;+DU|x|-/\n\
3 Fields;+DR/\n\
3 Fields;+X|/\n\
3 Field(2);+R|a:b|A/\n\
3 Field(3);+R|a|B,A/\n\
3 Field(2);+DU|/\n\
3 Field(2);+DR|a,b/\n\
3 Fields;+U|_|A/\n\
3 Fields;+U|_|A|-|-/\n\
3 Fields;+U|1|2|3|4|5|6|7|8|9|10|11|12/\n\
3 Fields;+W|_|1-a|-|0|7b7d|-|0|1-a|-|-/\n\
3 Fields;+W|_|1-a|-|0|7b7d|-|0|1-a|-|-|-|/\n\
3 Field(2);+W|_|0-a|-|0|7b7d|-|0|1-a|-|-|-/\n\
3 Field(2);+W||1-a|-|0|7b7d|-|0|1-a|-|-|-/\n\
3 Field(3);+W|d|0-a|1|0|7b7d|-|0|1-a|-|-|-/\n\
3 Field(4);+W|d|1-a|1|2|7b7d|-|0|1-a|-|-|-/\n\
3 Field(5);+W|d|1-a|-|2||-|0|1-a|-|-|-/\n\
3 Field(6);+W|d|1-a|-|0||a:b|0|1-a|-|-|-/\n\
3 Field(6);+W|d|1-a|-|0|7B7D|-|0|1-a|-|-|-/\n\
3 Field(6);+W|d|1-a|-|0|7b7|-|0|1-a|-|-|-/\n\
3 Field(7);+W|d|1-a|-|0|7b7d|a:b|01|1-a|-|-|-/\n\
3 Field(7);+W|d|1-a|-|0|7b7d||0|1-a|-|-|-/\n\
3 Field(8);+W|d|1-a|-|0|7b7d|-|00|1|-|-|-/\n\
3 Field(8);+W|d|1-a|-|0|7b7d|-|+0|1-a|-|-|-/\n\
3 Field(9);+W|d|1-a|-|0|7b7d|-|0|-|B,A|-|-/\n\
3 Field(10);+W|d|1-a|-|0|7b7d|-|0|1-a|B,A|ann|-/\n\
3 Field(11);+W|d|1-a|-|0|7b7d|-|0|1-a|-|ann|ann/\n\
3 Field(12);+W|d|1-a|-|0|7b7d|-|9|1-b|-|-|ann=/\n\
3 Field(8);+W|d|1-a|-|0|7b7d|-|18446744073709551616|1-b|-|-|/\n\
3 Field(2);+U|-||b,a/\n\
3 Field(3);+U|ann||b,a/\n\
3 Field(4);+U|ann|-|b,a/\n\
3 Rule(4);+W|e|1-a|1-b|0|7b7d|-|2|1-c|-|-|-/\n\
3 Rule(4);+W|e|3-a|2-b,2-c|0|7b7d|-|1|3-a|-|-|-/\n\
3 Rule(3);+W|d|1-a|1-b|0|7b7d|-|2|1-c|-|-|-/\n\
3 Rule(8);+W|e|1-a|-|0|7b7d|-|2|1-c|-|-|-/\n\
3 Rule(8);+W|e|1-a|-|0|7b7d|-|18446744073709551615|1-c|-|-|-/\n\
3 Field(8);+W|e|1-a|-|0|7b7d|-|18446744073709551616|1-c|-|-|-/\n\
3 Rule(9);+W|d|1-b|-|0|7b7d|-|1|1-c|-|-|-/\n\
3 Rule(9);+W|e|1-b|-|0|7b7d|-|1|1-a|-|-|-/\n\
3 Fields;+S/\n\
3 Fields;+S|7b7d|d/\n\
3 Fields;+S|7b7|d|1-a|-|-/\n\
3 Fields;+S|7b7|d|1-a|-|-|-|d|1-b|-|-/\n\
3 Fields;+S|7b7|d|1-a|-|-|-|/\n\
3 Field(2);+S|/\n\
3 Field(2);+S|7b7/\n\
3 Field(2);+S|7B7D/\n\
3 Field(2);+S|ff/\n\
3 Field(2);+S|7b7|_d|0-a|-|-|-/\n\
3 Field(3);+S|7b7d|_d|0-a|-|-|-/\n\
3 Field(4);+S|7b7d|d|0-a|B,A|-|-/\n\
3 Field(5);+S|7b7d|d|1-a|B,A|x|-/\n\
3 Field(6);+S|7b7d|d|1-a|-|x|y/\n\
3 Field(7);+S|7b7d|d|1-a|-|-|y/\n\
3 Field(8);+S|7b7d|d|1-a|-|-|-||1-a|-|-|-/\n\
3 Rule(3);+S|7b7d|d|1-b|-|-|-/\n\
3 Rule(3);+S|7b7d|e|1-a|-|-|-/\n\
3 Rule(3);+S|7b7d|d|1-b|-|-|-|c|1-a|-|-|-/\n\
3 Rule(8);+S|7b7d|d|1-a|-|-|-|d|1-a|-|-|-/\n\
4 Rule(8);sgjournal 2 20/W|d|1-a|-|0|7b7d|-|0|1-a|-|-|-/W|e|1-a|-|0|7b7d|-|1|1-a|-|-|-/S|7b7d|e|1-a|-|-|-|d|1-a|-|-|-/\n\
4 Rule(8);sgjournal 1/W|d|2-a|-|0|7b7d|-|0|2-a|-|-|-/W|d|1-b|-|0|7b7d|-|1|2-a|-|-|-/S|7b7d|d|2-a|-|-|-|d|1-b|-|-|-/\n\
4 Rule(8);sgjournal 1/W|d|1-b|-|0|7b7d|-|0|1-b|-|-|-/W|d|1-a|-|0|7b7d|-|1|1-b|-|-|-/S|7b7d|d|1-b|-|-|-|d|1-a|-|-|-/\n\
3 Rule(3);sgjournal 1/S|7b7d/S|7b7d|d|1-a|-|-|-/W|d|1-a|-|0|7b7d|-|0|1-a|-|-|-/";

fn is_refused_so(alloc: Global, line: &str) -> Result<bool, AllocError> {
    let (want, text) = cut(line, ';');
    Ok(fault_text(alloc, text)?.as_slice() == want.as_bytes())
}

#[test]
fn the_first_bad_line_is_named(rt: HostRuntime) -> Result<(), Fail> {
    for line in BAD.split('\n') {
        assert!(rt; is_refused_so(rt.alloc(), line)?, "{line}");
    }
    Ok(())
}
