//! The bodies of rows at the end of a log.

ghost use Rattle.std.specs.Prelude.{◌≡◌, ◌++◌, ◌∷◌, [], List, true, length, map, reverse, option_map, Some, IfOk, OnOk};
ghost use Rattle.std.specs.List.{list_any};
ghost use Rattle.std.specs.Option.{option_copied};
ghost use Rattle.sg_history.specs.declared.entries.Entry as entry;
ghost use Rattle.sg_history.specs.History.{past};
ghost use Rattle.sg_history.specs.Principals.{has_channel};
ghost use Rattle.doc_board.specs.Boards.{board_of};
ghost use Rattle.sg_history.specs.View.{same_view};
ghost use Rattle.sg_history.specs.Feed as feed;
ghost use Rattle.log_index.specs.Index.{Indexes};
ghost use Rattle.log_views.specs.States.{shown_in};
ghost use Rattle.log_views.specs.Sorted.{AreSorted};
ghost use Rattle.grant_history.specs.Periods.{AreInOrder, ArePeriods};
ghost use Rattle.grant_history.specs.Stands.{StandsFor};
ghost use Rattle.feed_rows.specs.PassAt.{IsViewer};
ghost use Rattle.doc_board.specs.Offers.{nodes_or_none};
ghost use Rattle.doc_board.specs.State.{tree_on};
ghost use Rattle.repl_messages.specs.Looks as bodies;
ghost use Rattle.board_steps.specs.Bodies.{BodiesAt};
ghost use Rattle.board_steps.specs.inner.ByLook as by_look;
ghost use Rattle.board_steps.specs.After.{IsAsBefore};

use doc_board::Board;
use feed_rows::{Viewer, changed_last_at, viewer_of};
use grant_history::{GrantHistory, Period, Periods};
use log_index::LogIndex;
use log_views::{DocState, Filter, shown, state};
use repl_messages::{Bodies, Body, BodyList};
use rev_tree::Tree;
use sg_history::{Channels, Entry, Name, Options, Row, Write};
use sg_outside::Memory;
use std::alloc::Global;

fn is_deleted(bits: u8) -> bool
    ensures { result ≡ feed.is_deleted bits }
{
    bits == 1 || bits == 5
}

fn left_by_write(bits: u8) -> bool
    ensures { result ≡ bodies.left_by_write bits }
{
    bits == 4 || bits == 5
}

/// Whether what is shown of a document is what a row says.
fn is_still_shown(shown: Option<DocState<'_>>, row: &Row) -> bool
    ensures { result ≡ same_view (shown_in shown.entry) (Some (bodies.said_by row.now)) }
{
    match shown {
        None => false,
        Some(shown) => {
            shown.seq == row.key.seq
                && shown.winner.rev.equals(&row.rev)
                && shown.winner.deleted == is_deleted(row.bits)
        }
    }
}

/// The body of a write, with its revision's ancestors in a tree.
fn body_in(alloc: Global, tree: &Tree, most: u64, write: &Write) -> Result<Body, Memory>
    ensures { IfOk result (λ body. body ≡ bodies.body_with tree.now most (Some write.now)) }
{
    let ancestors = tree.ancestors_of(&write.rev, most)?;
    match write.body.copy(alloc) {
        Ok(bytes) => Ok(Body::Rev { ancestors, bytes }),
        Err(fault) => {
            drop(ancestors);
            Err(fault)
        }
    }
}

fn body_with(
    alloc: Global,
    tree: Option<&Tree>,
    most: u64,
    write: Option<&Write>,
) -> Result<Body, Memory>
    ensures { IfOk result (λ body. body ≡ bodies.body_with
        (nodes_or_none (option_copied tree.entry)) most (option_copied write.entry)) }
{
    let Some(write) = write else {
        return Ok(Body::NoRev);
    };
    let empty = Tree::new(alloc);
    let tree = match tree {
        None => &empty,
        Some(tree) => tree,
    };
    let body = body_in(alloc, tree, most, write);
    drop(empty);
    body
}

/// What is answered for a row, by what is shown of its document, its tree, its winner, and whether the
/// document left by a write and did not change since.
fn body_by(
    alloc: Global,
    shown: Option<DocState<'_>>,
    tree: Option<&Tree>,
    winner: Option<&Write>,
    is_gone: bool,
    most: u64,
    row: &Row,
) -> Result<Body, Memory>
    ensures { IfOk result (λ body. body ≡ by_look.answer (shown_in shown.entry)
        (nodes_or_none (option_copied tree.entry)) (option_copied winner.entry) is_gone most
        row.now) }
{
    if is_still_shown(shown, row) {
        return body_with(alloc, tree, most, winner);
    }
    if is_gone && shown.is_none() {
        return Ok(Body::Removed);
    }
    Ok(Body::NoRev)
}

/// What bodies are looked up in: a board with its entries, an index of them, the channels of the user, and
/// when the user had which, where a row says that its document left.
#[derive(Drop)]
struct Look<'a> {
    board: &'a Board,
    index: &'a LogIndex,
    entries: &'a [Entry],
    channels: Channels,
    filter: &'a Filter<'a>,
    viewer: Viewer<'a>,
}

fn winner_of<'a>(now: Option<DocState<'a>>) -> Option<&'a Write>
    ensures { option_copied result ≡ option_map (λ s. s.winner.now) now.entry }
{
    match now {
        None => None,
        Some(now) => Some(now.winner),
    }
}

/// Whether the row says that its document left by a write of its own, and it did not change since.
fn is_gone(look: &Look<'_>, row: &Row) -> bool
    requires index { Indexes look.now.index.now (reverse look.now.entries.now) }
    requires viewer { bodies.left_by_write row.now.bits ≡ true
        → IsViewer look.now.viewer (reverse look.now.entries.now) }
    ensures { result ≡ by_look.is_gone look.now row.now }
{
    left_by_write(row.bits)
        && row.key.by > 0
        && changed_last_at(&look.viewer, look.index, look.entries, &row.doc, row.key.by)
}

fn body_of(alloc: Global, look: &Look<'_>, most: u64, row: &Row) -> Result<Body, Memory>
    requires index { Indexes look.now.index.now (reverse look.now.entries.now) }
    requires sorted { AreSorted look.now.channels }
    requires viewer { bodies.left_by_write row.now.bits ≡ true
        → IsViewer look.now.viewer (reverse look.now.entries.now) }
    ensures { IfOk result (λ body. body ≡ by_look.looked look.now most row.now) }
{
    doc_board::laws::boards();
    let now = state(look.index, look.entries, &row.doc);
    let shown = shown(&look.channels, look.filter, now);
    let tree = look.board.tree(&row.doc);
    let is_gone = is_gone(look, row);
    body_by(alloc, shown, tree, winner_of(now), is_gone, most, row)
}

/// Puts what is answered for a row behind other answers.
fn put_body(
    alloc: Global,
    look: &Look<'_>,
    most: u64,
    row: &Row,
    list: &mut BodyList,
) -> Result<(), Memory>
    requires index { Indexes look.now.index.now (reverse look.now.entries.now) }
    requires sorted { AreSorted look.now.channels }
    requires viewer { bodies.left_by_write row.now.bits ≡ true
        → IsViewer look.now.viewer (reverse look.now.entries.now) }
    ensures { OnOk result (list.new ≡ list.old ++ by_look.looked look.now most row.now ∷ []) }
{
    let body = body_of(alloc, look, most, row)?;
    list.push(body)?;
    Ok(())
}

fn answers_of(alloc: Global, look: &Look<'_>, most: u64, rows: &[Row]) -> Result<BodyList, Memory>
    requires index { Indexes look.now.index.now (reverse look.now.entries.now) }
    requires sorted { AreSorted look.now.channels }
    requires viewer { list_any (λ row. bodies.left_by_write row.bits) rows.now ≡ true
        → IsViewer look.now.viewer (reverse look.now.entries.now) }
    ensures { IfOk result (λ list. list ≡ map (by_look.looked look.now most) rows.now) }
{
    let mut list = BodyList::new(alloc);
    for row in rows {
        put_body(alloc, look, most, row, &mut list)?;
    }
    Ok(list)
}

/// Whether one of these rows says that its document left by a write of its own.
fn any_left(rows: &[Row]) -> bool
    ensures { result ≡ list_any (λ row. bodies.left_by_write row.bits) rows.now }
{
    rows.iter().any(|row| left_by_write(row.bits))
}

/// The periods of the user's channels where one of these rows says that its document left, else none.
fn periods_if_left(
    alloc: Global,
    grants: &GrantHistory,
    user: &Name,
    rows: &[Row],
) -> Result<Periods, Memory>
    ensures periods { IfOk result (λ periods. (entries : List entry.Entry)
        → StandsFor grants.now entries
        → list_any (λ row. bodies.left_by_write row.bits) rows.now ≡ true
        → ArePeriods periods (λ c k. has_channel (past entries k) user.now c) grants.now.applied) }
    ensures in_order { IfOk result (λ periods. AreInOrder periods) }
{
    if any_left(rows) {
        return grants.periods(user);
    }
    Ok(Periods::new(alloc))
}

/// What bodies are looked up in, by the history of grants of a board's log, which is applied to its end, and the periods of the
/// user's channels.
fn look_of<'a>(
    grants: &'a GrantHistory,
    board: &'a Board,
    user: &'a Name,
    filter: &'a Filter<'a>,
    periods: &'a [Period],
) -> Result<Look<'a>, Memory>
    requires stands { StandsFor grants.now board.now.log }
    requires applied { grants.now.applied ≡ length board.now.log }
    ensures { IfOk result (by_look.LooksIn board.now user.now filter.now periods.now) }
{
    let channels = grants.channels_at(user, grants.applied())?;
    Ok(Look {
        board,
        index: grants.index(),
        entries: board.log().entries.as_slice(),
        channels,
        filter,
        viewer: viewer_of(user, filter, periods),
    })
}

/// What a board answers for the rows that a device wants through a filter, by the history of grants of its log, which has
/// an index of that, too. Where a row says that its document left, the document is followed back from
/// its last write to that row's key.
fn bodies_through(
    alloc: Global,
    grants: &GrantHistory,
    board: &Board,
    user: &Name,
    filter: &Filter<'_>,
    rows: &[Row],
    most: u64,
) -> Result<Bodies, Memory>
    requires stands { StandsFor grants.now board.now.log }
    requires applied { grants.now.applied ≡ length board.now.log }
    ensures front { IfOk result (λ answer. answer.front ≡ length board.now.log) }
    ensures answers { IfOk result (λ answer. answer.answers
        ≡ map (bodies.body_of (reverse board.now.log) (tree_on board.now) user.now
        filter.now most) rows.now) }
{
    let periods = periods_if_left(alloc, grants, user, rows)?;
    let look = look_of(grants, board, user, filter, periods.as_slice())?;
    let front = look.entries.len() as u64;
    let answers = answers_of(alloc, &look, most, rows);
    drop(look);
    drop(periods);
    Ok(Bodies {
        front,
        answers: answers?,
    })
}

/// The same through the filter of a feed's options.
fn bodies_by(
    alloc: Global,
    grants: &GrantHistory,
    board: &Board,
    user: &Name,
    options: &Options,
    rows: &[Row],
    most: u64,
) -> Result<Bodies, Memory>
    requires stands { StandsFor grants.now board.now.log }
    requires applied { grants.now.applied ≡ length board.now.log }
    ensures front { IfOk result (λ answer. answer.front ≡ length board.now.log) }
    ensures answers { IfOk result (λ answer. answer.answers
        ≡ map (bodies.body_of (reverse board.now.log) (tree_on board.now) user.now
        options.now.filter most) rows.now) }
{
    let filter = Filter::new(alloc, &options.filter)?;
    let answer = bodies_through(alloc, grants, board, user, &filter, rows, most);
    drop(filter);
    answer
}

/// What a board answers for the rows that a device wants: each row is looked up in the board's own history of grants, which
/// is brought to the log's end first.
pub fn bodies_at(
    alloc: Global,
    board: &mut Board,
    user: &Name,
    options: &Options,
    rows: &[Row],
    most: u64,
) -> Result<Bodies, Memory>
    ensures answer { IfOk result
        (BodiesAt (board_of board.old) user.now options.now rows.now most) }
    ensures same { IsAsBefore board.old board.new }
{
    doc_board::laws::boards();
    doc_board::laws::after();
    board.apply_grants()?;
    bodies_by(alloc, board.grants(), board, user, options, rows, most)
}
