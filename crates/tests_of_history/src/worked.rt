//! Worked journals, and what is answered of them.

use crate::feeds::{write_all_channels, write_feed_of};
use crate::grants::{write_periods_of, write_state_of};
use crate::listed::{write_asks_of, write_lists_of};
use crate::texts::{cut, tabbed};
use sg_history::{Log, TextFault, read_journal};
use sg_outside::Bytes;
use std::alloc::Global;
use std::test::Fail;

/// Worked journals, one a line, each after its name.
const JOURNALS: &str = "\
none=sgjournal 1;\n\
first=sgjournal 1;U|ann|A|-;W|d1|1-a|-|0|7b7d|-|1|1-a|A|-|-;W|d2|1-b|-|0|7b7d|-|2|1-b|B|-|-;W|d3|1-c|-|0|7b7d|-|3|1-c|!|-|-;\n\
backfill=sgjournal 1;U|ann|A|-;W|d1|1-a|-|0|7b7d|-|1|1-a|B|-|-;W|d2|1-b|-|0|7b7d|-|2|1-b|B|-|-;W|d3|1-c|-|0|7b7d|-|3|1-c|A|-|-;U|ann|A,B|-;\n\
revocation=sgjournal 1;U|ann|A|-;W|d1|1-a|-|0|7b7d|-|1|1-a|B|-|-;U|ann|A,B|-;U|ann|A|-;\n\
removal=sgjournal 1;U|ann|A|-;W|d1|1-a|-|0|7b7d|-|1|1-a|A|-|-;W|d2|1-b|-|0|7b7d|-|2|1-b|A|-|-;W|d1|2-a|1-a|0|7b7d|-|3|2-a|B|-|-;W|d2|2-b|1-b|1|7b7d|-|4|2-b|-|-|-;\n\
deleted=sgjournal 1;U|ann|A|-;W|d1|1-a|-|0|7b7d|-|1|1-a|A|-|-;W|d2|1-b|-|0|7b7d|-|2|1-b|A|-|-;W|d1|2-a|1-a|0|7b7d|-|3|2-a|B|-|-;W|d2|2-b|1-b|1|7b7d|-|4|2-b|-|-|-;W|d3|1-c|-|1|7b7d|-|5|1-c|A|-|-;\n\
document_grant=sgjournal 1;U|ann|A|-;W|d1|1-a|-|0|7b7d|-|1|1-a|B|-|-;W|g|1-g|-|0|7b7d|-|2|1-g|A|ann=B|-;W|g|2-g|1-g|1|7b7d|-|3|2-g|A|-|-;\n\
earlier_conflict=sgjournal 1;U|ann|A|-;W|d1|1-a|-|0|7b7d|-|1|1-a|A|-|-;W|d1|1-b|-|0|7b7d|-|2|1-b|B|-|-;\n\
conflict=sgjournal 1;U|ann|A|-;W|d1|1-a|-|0|7b7d|-|1|1-a|A|-|-;W|d1|1-b|-|0|7b7d|-|2|1-b|B|-|-;W|d1|2-c|1-b|1|7b7d|-|3|1-a|-|-|-;\n\
everything=sgjournal 1;U|bob|*|-;W|d1|1-a|-|0|7b7d|-|1|1-a|A|-|-;W|d2|1-b|-|0|7b7d|-|2|1-b|-|-|-;\n\
leaves_and_returns=sgjournal 1;U|ann|A|-;W|d1|1-a|-|0|7b7d|-|1|1-a|A|-|-;W|d1|2-a|1-a|0|7b7d|-|2|2-a|B|-|-;W|d1|3-a|2-a|0|7b7d|-|3|3-a|A|-|-;\n\
grants_itself=sgjournal 1;U|ann|-|-;W|d1|1-a|-|0|7b7d|-|1|1-a|C|ann=C|-;\n\
dropped_user=sgjournal 1;U|bob|*|-;W|d1|1-a|-|0|7b7d|-|1|1-a|A|-|-;W|d2|1-b|-|0|7b7d|-|2|1-b|-|-|-;DU|bob;\n\
dropped_and_put_again=sgjournal 1;U|bob|A|-;DU|bob;U|bob|A|-;\n\
two_grants=sgjournal 1;U|ann|-|-;W|g|1-a|-|0|7b7d|-|1|1-a|-|ann=B|-;W|h|1-b|-|0|7b7d|-|2|1-b|-|ann=B|-;W|g|2-a|1-a|1|7b7d|-|3|2-a|-|-|-;W|h|2-b|1-b|1|7b7d|-|4|2-b|-|-|-;\n\
grant_and_put=sgjournal 1;U|ann|-|-;W|g|1-a|-|0|7b7d|-|1|1-a|-|ann=B|-;U|ann|B|-;W|g|2-a|1-a|1|7b7d|-|3|2-a|-|-|-;U|ann|-|-;\n\
named_before_put=sgjournal 1;U|ann|-|staff;R|staff|C;DR|staff;R|staff|D;\n\
role_that_is_given=sgjournal 1;R|staff|C;U|ann|-|-;W|g|1-a|-|0|7b7d|-|2|1-a|-|role:staff=E|ann=staff;W|g|2-a|1-a|1|7b7d|-|3|2-a|-|-|-;\n\
two_roles=sgjournal 1;R|one|C;R|two|C;U|ann|-|one,two;U|ann|-|two;DR|two;\n\
winner=sgjournal 1;U|ann|-|-;W|g|1-a|-|0|7b7d|-|1|1-a|-|ann=A|-;W|g|1-b|-|0|7b7d|-|2|1-b|-|ann=B|-;W|g|2-c|1-b|1|7b7d|-|3|1-a|-|-|-;\n\
before_the_user=sgjournal 1;W|g|1-a|-|0|7b7d|-|0|1-a|-|ann=A|-;U|ann|-|-;\n\
comes_and_goes=sgjournal 1;U|ann|-|-;W|g|1-a|-|0|7b7d|-|1|1-a|-|ann=B|-;W|g|2-a|1-a|0|7b7d|-|2|2-a|-|-|-;W|g|3-a|2-a|0|7b7d|-|3|3-a|-|ann=B|-;W|g|4-a|3-a|0|7b7d|-|4|4-a|-|-|-;W|g|5-a|4-a|0|7b7d|-|5|5-a|-|ann=B|-;\n\
dropped_twice=sgjournal 1;U|bob|A|-;DU|bob;U|bob|A|-;DU|bob;U|bob|B|-;\n\
each_role_its_own=sgjournal 1;R|one|C;R|two|D;U|ann|-|one,two;DR|two;\n\
replaced=sgjournal 1;U|ann|A|-;W|d1|1-a|-|0|7b7d|-|1|1-a|A|-|-;S|7b7d|d1|1-a|B|-|-;\n\
replaced_and_put=sgjournal 1;U|ann|A|-;W|d1|1-a|-|0|7b7d|-|1|1-a|A|-|-;S|7b7d|d1|1-a|B|-|-;U|ann|A,B|-;\n\
conflict_replaced=sgjournal 1;U|ann|A|-;W|d1|1-a|-|0|7b7d|-|1|1-a|A|-|-;W|d1|1-b|-|0|7b7d|-|2|1-b|B|-|-;S|7b7d|d1|1-a|C|-|-|d1|1-b|A|-|-;W|d1|2-c|1-b|1|7b7d|-|4|1-a|-|-|-;\n\
all_replaced=sgjournal 1;U|ann|A|-;W|d2|1-b|-|0|7b7d|-|1|1-b|A|-|-;W|d3|1-c|-|0|7b7d|-|2|1-c|B|-|-;W|d1|1-a|-|0|7b7d|-|3|1-a|A|-|-;S|7b7d|d1|1-a|B|-|-|d2|1-b|B|-|-|d3|1-c|-|-|-;\n\
put_and_dropped=sgjournal 1;U|bob|A|-;W|d1|1-a|-|0|7b7d|-|1|1-a|A|-|-;W|d2|1-b|-|0|7b7d|-|2|1-b|B|-|-;DU|bob;U|bob|A,B|-;DU|bob;U|bob|B|-;\n\
put_again=sgjournal 1;U|bob|*|-;W|d1|1-a|-|0|7b7d|-|1|1-a|A|-|-;W|d2|1-b|-|0|7b7d|-|2|1-b|-|-|-;DU|bob;U|bob|A|-;\n\
everything_for_a_while=sgjournal 1;U|ann|A|-;W|d1|1-a|-|0|7b7d|-|1|1-a|A|-|-;W|d2|1-b|-|0|7b7d|-|2|1-b|B|-|-;W|d3|1-c|-|0|7b7d|-|3|1-c|-|-|-;U|ann|*,A|-;U|ann|A|-;\n\
role_dropped=sgjournal 1;R|staff|B;U|ann|A|staff;W|d1|1-a|-|0|7b7d|-|2|1-a|B|-|-;W|g|1-g|-|0|7b7d|-|3|1-g|-|role:staff=C|-;W|d2|1-c|-|0|7b7d|-|4|1-c|C|-|-;DR|staff;R|staff|D;\n\
returns_by_a_grant=sgjournal 1;U|ann|A|-;W|d1|1-a|-|0|7b7d|-|1|1-a|A|-|-;W|d1|2-a|1-a|0|7b7d|-|2|2-a|B|-|-;U|ann|A,B|-;\n\
moves_within=sgjournal 1;U|ann|A,B|-;W|d1|1-a|-|0|7b7d|-|1|1-a|A|-|-;W|d1|2-a|1-a|0|7b7d|-|2|2-a|B|-|-;\n\
deleted_and_revoked=sgjournal 1;U|ann|A|-;W|d1|1-a|-|1|7b7d|-|1|1-a|A|-|-;U|ann|-|-;\n\
third_winner=sgjournal 1;U|ann|A|-;U|bob|B|-;W|d1|1-a|-|0|7b7d|-|2|1-a|A|-|-;W|d1|1-b|-|0|7b7d|-|3|1-b|B|-|-;W|d1|1-c|-|0|7b7d|-|4|1-c|C|-|-;W|d1|2-d|1-c|1|7b7d|-|5|1-b|-|-|-;W|d1|2-e|1-b|1|7b7d|-|6|1-a|-|-|-;\n\
two_users=sgjournal 1;U|ann|A|-;U|bob|A|-;W|d1|1-a|-|0|7b7d|-|2|1-a|B|-|-;W|d2|1-b|-|0|7b7d|-|3|1-b|C|-|-;U|ann|A,B|-;U|bob|A,C|-;\n\
two_channels=sgjournal 1;U|ann|A|-;W|d1|1-a|-|0|7b7d|-|1|1-a|B|-|-;W|d2|1-b|-|0|7b7d|-|2|1-b|C|-|-;U|ann|A,B,C|-;\n\
replaced_twice=sgjournal 1;U|ann|B|-;U|cat|A,C|-;W|d1|1-a|-|0|7b7d|-|2|1-a|A|-|-;S|7b7d|d1|1-a|B|-|-;S|7b7d|d1|1-a|C|-|-;\n\
grant_replaced=sgjournal 1;U|ann|-|-;W|d1|1-a|-|0|7b7d|-|1|1-a|B|-|-;W|g|1-g|-|0|7b7d|-|2|1-g|-|ann=B|-;W|h|1-h|-|0|7b7d|-|3|1-h|-|-|-;S|7b7d|d1|1-a|B|-|-|g|1-g|-|-|-|h|1-h|-|ann=B|-;S|7b7d|h|1-h|-|-|-;\n\
loser_marked=sgjournal 1;U|ann|A|-;W|d1|1-a|-|0|7b7d|-|1|1-a|B|-|-;W|d1|1-b|-|0|7b7d|-|2|1-b|C|-|-;S|7b7d|d1|1-a|A|-|-;W|d1|2-c|1-b|1|7b7d|-|4|1-a|-|-|-;\n\
kept_and_replaced=sgjournal 1;U|ann|A|-;W|d1|1-a|-|0|7b7d|-|1|1-a|A|-|-;W|d2|1-b|-|0|7b7d|-|2|1-b|B|-|-;U|bob|B|-;S|7b7d|d1|1-a|B|-|-|d2|1-b|C|-|-;U|ann|A,B|-;W|d1|2-a|1-a|0|7b7d|-|6|2-a|A|-|-;";

/// The text of a worked journal.
pub fn journal_of(name: &str) -> &'static str {
    for line in JOURNALS.split('\n') {
        let (named, text) = cut(line, '=');
        if named == name {
            return text;
        }
    }
    ""
}

/// The log of a journal.
pub fn log_of(alloc: Global, text: &str) -> Result<Log, Fail> {
    let journal = tabbed(alloc, text)?;
    Ok(read_journal(alloc, journal.as_slice())?)
}

/// What is answered of worked journals, one a line: the call, the journal, what is asked, and the answer. It is asked for the periods
/// of a user, what a user has at a place (channels, a bar and roles), a user's channels at a front, and the feed of a user after a
/// key: `active` where deleted documents are left out, `revocations` where ended grants are rows, `plain` where neither, and the
/// channels of a filter. Of channels that are asked for in turn, each at a place, where so many may be kept, it is asked for the
/// documents of each with the sequences of their last writes, and whether it was filled; or for the sequences in several channels
/// at a time, and how many of these were filled.
const ANSWERS: &str = "\
periods none ann>\n\
periods backfill ann>! 1-;A 1-;B 5-;\n\
periods backfill zed>\n\
periods revocation ann>! 1-;A 1-;B 3-4;\n\
periods document_grant ann>! 1-;A 1-;B 3-4;\n\
periods dropped_user bob>! 1-4;* 1-4;\n\
periods dropped_and_put_again bob>! 1-2;! 3-;A 1-2;A 3-;\n\
periods two_grants ann>! 1-;B 2-5;\n\
periods grant_and_put ann>! 1-;B 2-5;\n\
periods named_before_put ann>! 1-;C 2-3;D 4-;\n\
periods role_that_is_given ann>! 2-;C 3-4;E 3-4;\n\
periods two_roles ann>! 3-;C 3-5;\n\
periods winner ann>! 1-;A 2-3;A 4-;B 3-4;\n\
periods before_the_user ann>! 2-;A 2-;\n\
periods comes_and_goes ann>! 1-;B 2-3;B 4-5;B 6-;\n\
periods dropped_twice bob>! 1-2;! 3-4;! 5-;A 1-2;A 3-4;B 5-;\n\
periods each_role_its_own ann>! 3-;C 3-;D 3-4;\n\
state backfill 0 ann>none\n\
state backfill 4 ann> ! A|\n\
state backfill 5 ann> ! A B|\n\
state backfill 5 bob>none\n\
state dropped_user 3 bob> ! *|\n\
state dropped_user 4 bob>none\n\
state two_grants 4 ann> ! B|\n\
state two_grants 5 ann> !|\n\
state named_before_put 1 ann> !|\n\
state named_before_put 2 ann> ! C| staff\n\
state named_before_put 3 ann> !|\n\
state named_before_put 4 ann> ! D| staff\n\
state role_that_is_given 2 ann> !|\n\
state role_that_is_given 3 ann> ! C E| staff\n\
state winner 2 ann> ! A|\n\
state winner 3 ann> ! B|\n\
state winner 4 ann> ! A|\n\
state comes_and_goes 2 ann> ! B|\n\
state comes_and_goes 3 ann> !|\n\
state comes_and_goes 4 ann> ! B|\n\
state comes_and_goes 5 ann> !|\n\
state dropped_twice 3 bob> ! A|\n\
state dropped_twice 4 bob>none\n\
channels backfill 0 ann>none\n\
channels backfill 4 ann> ! A\n\
channels backfill 5 ann> ! A B\n\
channels backfill 5 bob>none\n\
channels document_grant 3 ann> ! A B\n\
channels document_grant 4 ann> ! A\n\
rows first ann 0 revocations>2 d1 1-a 0;4 d3 1-c 0;\n\
rows deleted ann 0 revocations>6 d3 1-c 1;\n\
rows deleted ann 0 active+revocations>\n\
rows deleted ann 3 active+revocations>4 d1 2-a 4;5 d2 2-b 5;6 d3 1-c 1;\n\
rows revocation ann 2 plain>\n\
rows backfill ann 0 revocations B>5:2 d1 1-a 0;5:3 d2 1-b 0;\n\
rows first ann 0 revocations *>2 d1 1-a 0;4 d3 1-c 0;\n\
rows first ann 0 revocations !>4 d3 1-c 0;\n\
rows first ann 0 revocations B>\n\
list first 1 *@4 !@4 *@3 A@4 B@4 C@4>filled d1:2 d2:3 d3:4;filled d3:4;filled d1:2 d2:3;filled d1:2;filled d2:3;filled;\n\
list first 16 A@0 *@0 A@0 A@4 *@4 A@2 A@4>filled;filled;kept;kept d1:2;kept d1:2 d2:3 d3:4;filled d1:2;kept d1:2;\n\
list backfill 1 A@5 A@5 B@5 A@5>filled d3:4;kept d3:4;filled d1:2 d2:3;filled d3:4;\n\
list backfill 1 A@4 B@4 A@5 B@5 A@0>filled d3:4;filled d1:2 d2:3;filled d3:4;filled d1:2 d2:3;filled;\n\
list backfill 16 A@4 B@4 A@5 B@5 A@0>filled d3:4;filled d1:2 d2:3;kept d3:4;kept d1:2 d2:3;filled;\n\
list revocation 1 A@2 B@2 A@4 B@4>filled;filled d1:2;filled;filled d1:2;\n\
list revocation 16 A@2 B@2 A@4 B@4>filled;filled d1:2;kept;kept d1:2;\n\
list removal 1 A@3 B@3 A@5 B@5>filled d1:2 d2:3;filled;filled;filled d1:4;\n\
list removal 16 A@3 B@3 A@5 B@5>filled d1:2 d2:3;filled;kept;kept d1:4;\n\
list removal 16 A@5 A@3 A@5 *@5 *@3 *@5>filled;filled d1:2 d2:3;kept;filled d1:4 d2:5;filled d1:2 d2:3;kept d1:4 d2:5;\n\
list deleted 1 A@3 B@3 A@6 B@6>filled d1:2 d2:3;filled;filled d3:6;filled d1:4;\n\
list deleted 16 A@3 B@3 A@6 B@6>filled d1:2 d2:3;filled;kept d3:6;kept d1:4;\n\
list document_grant 1 A@3 B@3 A@4 B@4>filled g:3;filled d1:2;filled g:4;filled d1:2;\n\
list document_grant 16 A@3 B@3 A@4 B@4>filled g:3;filled d1:2;kept g:4;kept d1:2;\n\
list everything 1 A@0 *@0 A@3 *@3>filled;filled;filled d1:2;filled d1:2 d2:3;\n\
list everything 16 A@0 *@0 A@3 *@3>filled;filled;kept d1:2;kept d1:2 d2:3;\n\
list dropped_user 1 A@3 *@3 A@4 *@4>filled d1:2;filled d1:2 d2:3;filled d1:2;filled d1:2 d2:3;\n\
list dropped_user 16 A@3 *@3 A@4 *@4>filled d1:2;filled d1:2 d2:3;kept d1:2;kept d1:2 d2:3;\n\
list earlier_conflict 1 A@2 B@2 A@3 B@3>filled d1:2;filled;filled;filled d1:3;\n\
list earlier_conflict 16 A@2 B@2 A@3 B@3>filled d1:2;filled;kept;kept d1:3;\n\
list conflict 1 A@2 B@2 A@4 B@4>filled d1:2;filled;filled d1:4;filled;\n\
list conflict 16 A@2 B@2 A@3 B@3 A@4 B@4>filled d1:2;filled;kept;kept d1:3;kept d1:4;kept;\n\
list replaced 1 A@2 B@2 A@3 B@3>filled d1:2;filled;filled;filled d1:2;\n\
list replaced 16 A@2 B@2 A@3 B@3 A@2 A@3>filled d1:2;filled;kept;kept d1:2;filled d1:2;kept;\n\
list replaced_and_put 16 A@3 B@3 A@4 B@4>filled;filled d1:2;kept;kept d1:2;\n\
list conflict_replaced 1 C@5 B@5 A@5 A@4>filled d1:5;filled;filled;filled d1:3;\n\
list conflict_replaced 16 A@3 B@3 C@3 A@4 B@4 C@4 A@5 B@5 C@5>filled;filled d1:3;filled;kept d1:3;kept;kept;kept;kept;kept d1:5;\n\
list all_replaced 16 A@4 B@4 A@5 B@5 *@5>filled d2:2 d1:4;filled d3:3;kept;kept d2:2 d1:4;filled d2:2 d3:3 d1:4;\n\
ask first 1 A,B@0 B@4>2:;0: 3;\n\
ask backfill 1 A,B@5 B@5 A@5 A,B@4>2: 2 3 4;0: 2 3;1: 4;2: 2 3 4;\n\
ask backfill 2 A,B,*@5 B,A@5 *@5 A,A@5>3: 2 3 4;1: 2 3 4;1: 2 3 4;0: 4;\n\
ask removal 1 A,B,A@3 A,B,A@5>3: 2 3;2: 4;\n\
ask conflict 16 A,B@2 A,B@3 A,B@4>2: 2;0: 3;0: 4;\n\
ask all_replaced 2 A,B@4 A,B@5 *@5>2: 2 3 4;0: 2 4;1: 2 3 4;";

fn write_answer(
    alloc: Global,
    log: &Log,
    call: &str,
    asked: &str,
    text: &mut Bytes,
) -> Result<(), TextFault> {
    match call {
        "periods" => write_periods_of(alloc, log, asked, text),
        "state" => write_state_of(alloc, log, asked, text),
        "channels" => write_all_channels(alloc, log, asked, text),
        "list" => write_lists_of(alloc, log, asked, text),
        "ask" => write_asks_of(alloc, log, asked, text),
        _ => write_feed_of(alloc, log, asked, text),
    }
}

/// What is asked of a journal, with its name before it.
fn answer(alloc: Global, call: &str, asked: &str) -> Result<Bytes, Fail> {
    let (name, asked) = cut(asked, ' ');
    let log = log_of(alloc, journal_of(name))?;
    let mut text = Bytes::new(alloc);
    let written = write_answer(alloc, &log, call, asked, &mut text);
    drop(log);
    written?;
    Ok(text)
}

fn is_answered_so(alloc: Global, line: &str) -> Result<bool, Fail> {
    let (asked, want) = cut(line, '>');
    let (call, asked) = cut(asked, ' ');
    Ok(answer(alloc, call, asked)?.as_slice() == want.as_bytes())
}

#[test]
fn worked_journals(rt: HostRuntime) -> Result<(), Fail> {
    for line in ANSWERS.split('\n') {
        assert!(rt; is_answered_so(rt.alloc(), line)?, "{line}");
    }
    Ok(())
}
