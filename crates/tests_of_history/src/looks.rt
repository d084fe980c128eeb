//! Feeds by what came since a key, looked at in turn.

ghost use Rattle.std.specs.Prelude.{◌≡◌, length};
ghost use Rattle.changes_feed.specs.Feeds.{FeedsStandFor};
ghost use Rattle.grant_history.specs.Stands.{StandsFor};

use crate::feeds::{options_of, write_rows};
use crate::grants::applied;
use crate::listed::most_of;
use crate::texts::{cut, number_of};
use crate::worked::{journal_of, log_of};
use changes_feed::{Advanced, Feeds};
use grant_history::GrantHistory;
use sg_history::{Key, Log, LogReads, Name, Options, TextFault, write_decimal};
use sg_outside::Bytes;
use std::alloc::{AllocError, Global};
use std::test::Fail;

/// Looks at worked journals, one line each: the call, the journal, how many channels may be kept, each number for a run of its own,
/// and the looks in turn, each by a user, a key, the front and options, which are `active`, `revocations` or `plain` and the channels
/// of a filter. Then the answer of each look: how many channels were filled, and the rows. A line that begins with a hash says what
/// the next ones show.
const LOOKS: &str = "\
# documents from before the channel was given come by that entry; from within these; from the start, where no channel is asked for; from past the front\n\
advance backfill 1,16 ann 4@5 revocations;ann 5:2@5 revocations;ann 0@5 revocations;ann 9@5 revocations>1 filled;5:2 d1 1-a 0;5:3 d2 1-b 0;0 filled;5:3 d2 1-b 0;0 filled;4 d3 1-c 0;5:2 d1 1-a 0;5:3 d2 1-b 0;0 filled;\n\
# a segment begins with the key's own entry, so a channel that came by it is asked for, though the rows of that entry are not after a plain key\n\
advance backfill 1,16 ann 5:2@5 revocations;ann 5@5 revocations;ann 6@5 revocations>1 filled;5:3 d2 1-b 0;0 filled;0 filled;\n\
# a second number above all\n\
advance backfill 1,16 ann 4:18446744073709551615@5 revocations;ann 5:18446744073709551615@5 revocations;ann 0:18446744073709551615@5 revocations;ann 18446744073709551615@5 revocations>1 filled;5:2 d1 1-a 0;5:3 d2 1-b 0;0 filled;0 filled;4 d3 1-c 0;5:2 d1 1-a 0;5:3 d2 1-b 0;0 filled;\n\
# only from the key of two zeros are documents that are gone no rows; and the segments of these keys begin with the log\n\
advance revocation 1,16 ann 0@4 revocations;ann 0:7@4 revocations;ann 1:0@4 revocations>0 filled;0 filled;4:2 d1 1-a 2;0 filled;4:2 d1 1-a 2;\n\
# a front of no entries\n\
advance backfill 1,16 ann 0@0 revocations;ann 4@0 revocations>0 filled;0 filled;\n\
advance none 1,16 ann 0@0 revocations>0 filled;\n\
# a document is revoked by the entry that ends the grant; where revocations are not asked for it is no row, nor from the start\n\
advance revocation 1,16 ann 2@4 revocations;ann 0@4 revocations;ann 2@4 plain;ann 2@4 active>1 filled;4:2 d1 1-a 2;0 filled;0 filled;0 filled;\n\
# a channel that comes and goes is asked for once; at a front before the lists' place it is filled, and what is kept stays\n\
advance revocation 1,16 ann 2@4 revocations;ann 2@3 revocations;ann 2@4 revocations;ann 3@4 revocations;ann 3@3 revocations;ann 2@2 revocations>1 filled;4:2 d1 1-a 2;1 filled;3:2 d1 1-a 0;0 filled;4:2 d1 1-a 2;0 filled;4:2 d1 1-a 2;1 filled;0 filled;\n\
# documents that leave by a write, also where revocations are not asked for\n\
advance removal 1,16 ann 3@5 revocations;ann 0@5 revocations;ann 3@5 plain>0 filled;4 d1 2-a 4;5 d2 2-b 5;0 filled;0 filled;4 d1 2-a 4;5 d2 2-b 5;\n\
# fronts that fall\n\
advance removal 1,16 ann 3@5 revocations;ann 2@3 revocations;ann 3@4 revocations;ann 0@3 revocations;ann 4@5 revocations>0 filled;4 d1 2-a 4;5 d2 2-b 5;0 filled;3 d2 1-b 0;0 filled;4 d1 2-a 4;0 filled;2 d1 1-a 0;3 d2 1-b 0;0 filled;5 d2 2-b 5;\n\
# a deleted document; under active only it is no row from the start, and one from within\n\
advance deleted 1,16 ann 0@6 revocations;ann 0@6 active+revocations;ann 3@6 active+revocations>0 filled;6 d3 1-c 1;0 filled;0 filled;4 d1 2-a 4;5 d2 2-b 5;6 d3 1-c 1;\n\
# a deleted document that is revoked has the bits of a revocation alone\n\
advance deleted_and_revoked 1,16 ann 0@2 revocations;ann 0@2 active;ann 2@3 active+revocations>0 filled;2 d1 1-a 1;0 filled;1 filled;3:2 d1 1-a 2;\n\
# the document that granted a channel is deleted\n\
advance document_grant 1,16 ann 3@4 revocations;ann 2@3 revocations>1 filled;4:2 d1 1-a 2;4 g 2-g 1;1 filled;3:2 d1 1-a 0;3 g 1-g 0;\n\
# a user who loses the channel of everyone and that of every document; at a front before, from the start\n\
advance dropped_user 1,16 bob 3@4 revocations;bob 0@3 revocations>2 filled;4:2 d1 1-a 2;4:3 d2 1-b 2;0 filled;2 d1 1-a 0;3 d2 1-b 0;\n\
# a revision in conflict wins, and takes the document away; it is deleted, and the document is back\n\
advance earlier_conflict 1,16 ann 2@3 revocations>0 filled;3 d1 1-b 4;\n\
advance conflict 1,16 ann 2@4 revocations;ann 2@3 revocations>0 filled;4 d1 1-a 0;0 filled;3 d1 1-b 4;\n\
# a winner that is neither what was written nor what won before: the deletion of the third revision lets the second win, and that of the second the first\n\
advance third_winner 1,16 ann 3@7 revocations;ann 3@6 revocations;bob 3@7 revocations;bob 3@6 revocations;bob 3@5 revocations;bob 6@7 revocations>0 filled;7 d1 1-a 0;0 filled;4 d1 1-b 4;0 filled;7 d1 1-a 4;0 filled;6 d1 1-b 0;0 filled;5 d1 1-c 4;0 filled;7 d1 1-a 4;\n\
# a document that leaves and comes back by writes, and one that leaves by a write and comes back by a grant\n\
advance leaves_and_returns 1,16 ann 2@4 revocations;ann 2@3 revocations>0 filled;4 d1 3-a 0;0 filled;3 d1 2-a 4;\n\
advance returns_by_a_grant 1,16 ann 2@3 revocations;ann 2@4 revocations;ann 3@4 revocations>0 filled;3 d1 2-a 4;1 filled;4:3 d1 2-a 0;0 filled;4:3 d1 2-a 0;\n\
# a document of the segment's first entry, in a channel that comes behind it, is one row\n\
advance revocation 1,16 ann 2@3 revocations;ann 1@3 revocations>1 filled;3:2 d1 1-a 0;0 filled;3:2 d1 1-a 0;\n\
# a document that grants the channel in which it is: the channel came by the key's own entry\n\
advance grants_itself 1,16 ann 1@2 revocations;ann 2@2 revocations>0 filled;2 d1 1-a 0;1 filled;\n\
# a user that never was\n\
advance backfill 1,16 zed 2@5 revocations;zed 0@5 revocations>0 filled;0 filled;\n\
# a user that is put, dropped, put, dropped and put; the last look is at a front before the lists' place, and fills each channel\n\
advance put_and_dropped 1 bob 3@7 revocations;bob 6@7 revocations;bob 0@7 revocations;bob 3@5 revocations>3 filled;6:2 d1 1-a 2;7:3 d2 1-b 0;3 filled;7:3 d2 1-b 0;0 filled;7:3 d2 1-b 0;3 filled;5:2 d1 1-a 0;5:3 d2 1-b 0;\n\
advance put_and_dropped 16 bob 3@7 revocations;bob 6@7 revocations;bob 0@7 revocations;bob 3@5 revocations>3 filled;6:2 d1 1-a 2;7:3 d2 1-b 0;0 filled;7:3 d2 1-b 0;0 filled;7:3 d2 1-b 0;3 filled;5:2 d1 1-a 0;5:3 d2 1-b 0;\n\
advance put_again 1,16 bob 3@5 revocations>3 filled;4:3 d2 1-b 2;5:2 d1 1-a 0;\n\
advance put_again 1,16 bob 3@5 plain>3 filled;5:2 d1 1-a 0;\n\
# the channel of every document, for a while; what the user sees by another channel does not change\n\
advance everything_for_a_while 1,16 ann 4@5 revocations;ann 4@6 revocations;ann 4@6 plain;ann 5@6 revocations>1 filled;5:3 d2 1-b 0;5:4 d3 1-c 0;0 filled;6:3 d2 1-b 2;6:4 d3 1-c 2;0 filled;0 filled;6:3 d2 1-b 2;6:4 d3 1-c 2;\n\
# a role is dropped with its own channel and the one that a document grants to it, and is put again: the document's grant counts again\n\
advance role_dropped 1 ann 5@6 revocations;ann 6@7 revocations;ann 5@7 revocations>2 filled;6:3 d1 1-a 2;6:5 d2 1-c 2;3 filled;7:5 d2 1-c 0;3 filled;6:3 d1 1-a 2;7:5 d2 1-c 0;\n\
advance role_dropped 16 ann 5@6 revocations;ann 6@7 revocations;ann 5@7 revocations>2 filled;6:3 d1 1-a 2;6:5 d2 1-c 2;1 filled;7:5 d2 1-c 0;0 filled;6:3 d1 1-a 2;7:5 d2 1-c 0;\n\
# filters: a channel that the user has not, one that it has, the one that it gained; whatever the filter, that one is asked for\n\
advance backfill 1,16 ann 4@5 revocations C;ann 4@5 revocations A;ann 4@5 revocations B;ann 0@5 revocations A;ann 0@5 revocations *>1 filled;0 filled;0 filled;5:2 d1 1-a 0;5:3 d2 1-b 0;0 filled;4 d3 1-c 0;0 filled;4 d3 1-c 0;5:2 d1 1-a 0;5:3 d2 1-b 0;\n\
# a document that leaves the filter by a write, and one that stays with the user\n\
advance moves_within 1,16 ann 2@3 revocations A;ann 2@3 revocations;ann 2@3 revocations B;ann 2@3 revocations C;ann 2@3 revocations !>0 filled;3 d1 2-a 4;0 filled;3 d1 2-a 0;0 filled;3 d1 2-a 0;0 filled;0 filled;\n\
# two users, each of whom gains a channel, in turn\n\
advance two_users 1 ann 4@6 revocations;bob 4@6 revocations;ann 4@6 revocations;bob 4@6 revocations>1 filled;5:3 d1 1-a 0;1 filled;6:4 d2 1-b 0;1 filled;5:3 d1 1-a 0;1 filled;6:4 d2 1-b 0;\n\
advance two_users 16 ann 4@6 revocations;bob 4@6 revocations;ann 4@6 revocations;bob 4@6 revocations>1 filled;5:3 d1 1-a 0;1 filled;6:4 d2 1-b 0;0 filled;5:3 d1 1-a 0;0 filled;6:4 d2 1-b 0;\n\
# two channels that a user gains by one entry: where one is kept, the second takes the place of the first in each look\n\
advance two_channels 1 ann 3@4 revocations;ann 3@4 revocations>2 filled;4:2 d1 1-a 0;4:3 d2 1-b 0;2 filled;4:2 d1 1-a 0;4:3 d2 1-b 0;\n\
advance two_channels 2,16 ann 3@4 revocations;ann 3@4 revocations>2 filled;4:2 d1 1-a 0;4:3 d2 1-b 0;0 filled;4:2 d1 1-a 0;4:3 d2 1-b 0;\n\
# the channels of a user that looked before it was given one\n\
advance backfill 1,16 ann 3@4 revocations;ann 4@5 revocations>0 filled;4 d3 1-c 0;1 filled;5:2 d1 1-a 0;5:3 d2 1-b 0;\n\
# what a replaced sync function takes away is revoked by that entry, and comes by the one that gives its new channel\n\
advance replaced 1,16 ann 2@3 revocations;ann 0@3 revocations;ann 2@3 plain>0 filled;3:2 d1 1-a 2;0 filled;0 filled;\n\
advance replaced_and_put 1,16 ann 3@4 revocations;ann 2@3 revocations;ann 2@4 revocations>1 filled;4:2 d1 1-a 0;0 filled;3:2 d1 1-a 2;0 filled;4:2 d1 1-a 0;\n\
# two replaced sync functions: the first gives a document to one user and takes it from another, the second does the reverse\n\
advance replaced_twice 1,16 ann 3@5 revocations;ann 3@4 revocations;ann 4@5 revocations;ann 3@5 plain;cat 3@5 revocations;cat 3@4 revocations;cat 0@4 revocations>0 filled;5:3 d1 1-a 2;0 filled;4:3 d1 1-a 0;0 filled;5:3 d1 1-a 2;0 filled;0 filled;5:3 d1 1-a 0;0 filled;4:3 d1 1-a 2;0 filled;\n\
# a grant moves from one document to another, which changes no channel, and ends by the next; a mark stays where the next function has none for its document\n\
advance grant_replaced 1,16 ann 2@5 revocations;ann 4@5 revocations;ann 5@6 revocations;ann 2@6 revocations>1 filled;3:2 d1 1-a 0;0 filled;0 filled;6:2 d1 1-a 2;0 filled;6:2 d1 1-a 2;\n\
# marks of leaves that do not win change nothing until their revision wins\n\
advance loser_marked 1,16 ann 2@4 revocations;ann 2@5 revocations>0 filled;0 filled;5 d1 1-a 0;\n\
advance conflict_replaced 1,16 ann 3@4 revocations;ann 3@5 revocations;ann 2@3 revocations>0 filled;4:3 d1 1-b 0;0 filled;5 d1 1-a 4;0 filled;3 d1 1-b 4;\n\
# all documents are marked\n\
advance all_replaced 1,16 ann 4@5 revocations;ann 3@4 revocations>0 filled;5:2 d2 1-b 2;5:4 d1 1-a 2;0 filled;4 d1 1-a 0;\n\
# a kept channel is brought forward over a replaced sync function and a write; where one channel is kept it is the last of those asked for\n\
advance kept_and_replaced 1,16 bob 3@4 revocations;ann 5@6 revocations;bob 4@5 revocations;bob 5@7 revocations;ann 6@7 revocations>2 filled;4:3 d2 1-b 0;0 filled;6:2 d1 1-a 0;2 filled;5:2 d1 1-a 0;5:3 d2 1-b 2;0 filled;7 d1 2-a 4;0 filled;7 d1 2-a 0;\n\
# by a history of grants that has the whole log\n\
advance_by backfill 1,16 ann 3@4 revocations;ann 4@5 revocations;ann 5:2@5 revocations>0 filled;4 d3 1-c 0;1 filled;5:2 d1 1-a 0;5:3 d2 1-b 0;0 filled;5:3 d2 1-b 0;\n\
advance_by role_dropped 16 ann 5@6 revocations;ann 6@7 revocations;ann 5@7 revocations>2 filled;6:3 d1 1-a 2;6:5 d2 1-c 2;1 filled;7:5 d2 1-c 0;0 filled;6:3 d1 1-a 2;7:5 d2 1-c 0;";

/// A look of a user.
#[derive(Drop)]
struct Look {
    user: Name,
    since: Key,
    front: u64,
    options: Options,
}

/// A key of one number or of any two, with a colon between.
fn key_of(text: &str) -> Key {
    let (by, seq) = cut(text, ':');
    let seq = if seq.is_empty() { by } else { seq };
    Key {
        by: number_of(by),
        seq: number_of(seq),
    }
}

/// A user, a key, a front behind `@`, and options.
fn look_of(alloc: Global, text: &str) -> Result<Look, TextFault> {
    let (user, asked) = cut(text, ' ');
    let (places, words) = cut(asked, ' ');
    let (since, front) = cut(places, '@');
    let options = options_of(alloc, words)?;
    Ok(Look {
        user: Name::parse(alloc, user)?,
        since: key_of(since),
        front: number_of(front),
        options,
    })
}

/// How many channels were filled, and the rows.
fn write_advanced(advanced: &Advanced, text: &mut Bytes) -> Result<(), AllocError> {
    write_decimal(advanced.refills, text)?;
    text.extend_from_slice(b" filled;")?;
    write_rows(&advanced.rows, text)
}

fn write_look(
    reads: &mut LogReads<'_>,
    feeds: &mut Feeds,
    look: &Look,
    text: &mut Bytes,
) -> Result<(), AllocError>
    requires { FeedsStandFor feeds.old reads.old.entries }
    ensures { FeedsStandFor feeds.new reads.new.entries }
{
    if look.front > reads.length() {
        return text.extend_from_slice(b"past the log;");
    }
    let advanced = feeds.advance(reads, &look.user, &look.since, look.front, &look.options)?;
    let written = write_advanced(&advanced, text);
    drop(advanced);
    written
}

fn write_each_look(
    alloc: Global,
    log: &Log,
    feeds: &mut Feeds,
    looks: &str,
    text: &mut Bytes,
) -> Result<(), TextFault>
    requires { FeedsStandFor feeds.old log.now.entries.list }
{
    let mut reads = LogReads::new(log);
    for look in looks.split(';') {
        let look = look_of(alloc, look)?;
        let written = write_look(&mut reads, feeds, &look, text);
        drop(look);
        written?;
    }
    Ok(())
}

/// What looks in turn answer, where so many channels may be kept.
pub fn write_looks(
    alloc: Global,
    log: &Log,
    most: &str,
    looks: &str,
    text: &mut Bytes,
) -> Result<(), TextFault> {
    let mut feeds = Feeds::new(alloc, most_of(most))?;
    let written = write_each_look(alloc, log, &mut feeds, looks, text);
    drop(feeds);
    written
}

fn write_look_by(
    grants: &GrantHistory,
    reads: &mut LogReads<'_>,
    feeds: &mut Feeds,
    look: &Look,
    text: &mut Bytes,
) -> Result<(), AllocError>
    requires feeds { FeedsStandFor feeds.old reads.old.entries }
    requires grants { StandsFor grants.now reads.old.entries }
    ensures feeds { FeedsStandFor feeds.new reads.new.entries }
    ensures grants { StandsFor grants.now reads.new.entries }
{
    if look.front > reads.length() || look.front > grants.applied() {
        return text.extend_from_slice(b"past the log;");
    }
    let (user, since, options) = (&look.user, &look.since, &look.options);
    let advanced = feeds.advance_by(grants, reads, user, since, look.front, options)?;
    let written = write_advanced(&advanced, text);
    drop(advanced);
    written
}

fn write_each_look_by(
    alloc: Global,
    log: &Log,
    grants: &GrantHistory,
    feeds: &mut Feeds,
    looks: &str,
    text: &mut Bytes,
) -> Result<(), TextFault>
    requires feeds { FeedsStandFor feeds.old log.now.entries.list }
    requires grants { StandsFor grants.now log.now.entries.list }
{
    let mut reads = LogReads::new(log);
    for look in looks.split(';') {
        let look = look_of(alloc, look)?;
        let written = write_look_by(grants, &mut reads, feeds, &look, text);
        drop(look);
        written?;
    }
    Ok(())
}

fn write_by(
    alloc: Global,
    log: &Log,
    grants: &GrantHistory,
    most: &str,
    looks: &str,
    text: &mut Bytes,
) -> Result<(), TextFault>
    requires { StandsFor grants.now log.now.entries.list }
{
    let mut feeds = Feeds::new(alloc, most_of(most))?;
    let written = write_each_look_by(alloc, log, grants, &mut feeds, looks, text);
    drop(feeds);
    written
}

/// The same by a history of grants that has applied the whole log.
fn write_looks_by(
    alloc: Global,
    log: &Log,
    most: &str,
    looks: &str,
    text: &mut Bytes,
) -> Result<(), TextFault> {
    let grants = applied(alloc, log)?;
    let written = write_by(alloc, log, &grants, most, looks, text);
    drop(grants);
    written
}

fn answer(
    alloc: Global,
    call: &str,
    log: &Log,
    most: &str,
    looks: &str,
) -> Result<Bytes, TextFault> {
    let mut text = Bytes::new(alloc);
    match call {
        "advance_by" => write_looks_by(alloc, log, most, looks, &mut text)?,
        _ => write_looks(alloc, log, most, looks, &mut text)?,
    }
    Ok(text)
}

/// Whether each number of kept channels gives this answer.
fn is_answer(
    alloc: Global,
    call: &str,
    log: &Log,
    asked: &str,
    want: &str,
) -> Result<bool, TextFault> {
    let (numbers, looks) = cut(asked, ' ');
    for most in numbers.split(',') {
        if answer(alloc, call, log, most, looks)?.as_slice() != want.as_bytes() {
            return Ok(false);
        }
    }
    Ok(true)
}

fn is_answered_so(alloc: Global, line: &str) -> Result<bool, Fail> {
    if line.starts_with('#') {
        return Ok(true);
    }
    let (asked, want) = cut(line, '>');
    let (call, asked) = cut(asked, ' ');
    let (name, asked) = cut(asked, ' ');
    let log = log_of(alloc, journal_of(name))?;
    let same = is_answer(alloc, call, &log, asked, want);
    drop(log);
    Ok(same?)
}

#[test]
fn looks_in_turn(rt: HostRuntime) -> Result<(), Fail> {
    for line in LOOKS.split('\n') {
        assert!(rt; is_answered_so(rt.alloc(), line)?, "{line}");
    }
    Ok(())
}
