//! Boards of journals.

use doc_board::laws::recorded;
use doc_board::{Board, OpenFault};
use sg_history::{DocId, Name, read_journal};
use std::alloc::Global;
use std::test::Fail;

/// Two branches of a document, of which one ends in a tombstone.
const BRANCHES: &[u8] = b"sgjournal 1\n\
U\tann\tA\t-\n\
W\td1\t1-a\t-\t0\t7b2261223a317d\t-\t1\t1-a\tA\t-\t-\n\
W\td1\t1-b\t-\t0\t7b7d\t-\t2\t1-b\tB\t-\t-\n\
W\td1\t2-c\t1-b\t1\t7b7d\t-\t3\t1-a\t-\t-\t-\n";

/// A body that is no document.
const NO_DOCUMENT: &[u8] = b"sgjournal 1\nW\td1\t1-a\t-\t0\t5b5d\t-\t0\t1-a\tA\t-\t-\n";

/// A revision that hangs on an ancestor that was not kept.
const NO_ANCESTOR: &[u8] = b"sgjournal 1\n\
W\td1\t2-b\t1-a\t0\t7b7d\t-\t0\t2-b\tA\t-\t-\n\
W\td1\t3-c\t2-b,1-a\t0\t7b7d\t-\t0\t3-c\tA\t-\t-\n";

/// A winner that another leaf is.
const NO_WINNER: &[u8] = b"sgjournal 1\n\
U\tann\tA\t-\n\
W\td1\t1-a\t-\t0\t7b7d\t-\t0\t1-a\tA\t-\t-\n\
W\td1\t1-b\t-\t0\t7b7d\t-\t0\t1-a\tA\t-\t-\n";

/// A replaced sync function.
const REPLACED: &[u8] = b"sgjournal 1\n\
W\td1\t1-a\t-\t0\t7b7d\t-\t0\t1-a\tA\t-\t-\n\
S\t66756e6374696f6e28646f632c6f297b7d\td1\t1-a\tB\t-\t-\n";

/// The generation of a document's winner.
fn winner(alloc: Global, board: &Board, doc: &str) -> Option<u32> {
    let Ok(doc) = DocId::parse(alloc, doc) else {
        return None;
    };
    let leaf = board.tree(&doc)?.winner()?;
    Some(leaf.rev.generation)
}

/// How many channels a user has; none where the user does not exist.
fn channels(alloc: Global, board: &mut Board, user: &str) -> Option<usize> {
    let Ok(user) = Name::parse(alloc, user) else {
        return None;
    };
    match board.channels(&user) {
        Ok(Some(channels)) => Some(channels.as_slice().len()),
        _ => None,
    }
}

/// The winners of two documents, and how many channels two users have.
type Answers = (Option<u32>, Option<u32>, Option<usize>, Option<usize>);

fn answers(alloc: Global, board: &mut Board) -> Answers {
    (
        winner(alloc, board, "d1"),
        winner(alloc, board, "d2"),
        channels(alloc, board, "ann"),
        channels(alloc, board, "zed"),
    )
}

/// What the board of a journal answers, or the first entry that no board has.
fn opened(alloc: Global, journal: &[u8]) -> Option<Result<Answers, u64>> {
    recorded();
    let Ok(log) = read_journal(alloc, journal) else {
        return None;
    };
    match Board::open(alloc, log) {
        Ok(mut board) => Some(Ok(answers(alloc, &mut board))),
        Err(OpenFault::Bad { sequence }) => Some(Err(sequence)),
        Err(OpenFault::Memory) => None,
    }
}

/// The leaf that is no tombstone wins; ann has her channel and that of every user, and zed does not exist.
#[test]
fn the_board_of_a_journal(rt: HostRuntime) -> Result<(), Fail> {
    let answers = (Some(1), None, Some(2), None);
    assert!(rt; opened(rt.alloc(), BRANCHES) == Some(Ok(answers)));
    Ok(())
}

#[test]
fn logs_of_no_board(rt: HostRuntime) -> Result<(), Fail> {
    assert!(rt; opened(rt.alloc(), NO_DOCUMENT) == Some(Err(1)));
    assert!(rt; opened(rt.alloc(), NO_ANCESTOR) == Some(Err(2)));
    assert!(rt; opened(rt.alloc(), NO_WINNER) == Some(Err(3)));
    assert!(rt; opened(rt.alloc(), REPLACED) == Some(Err(2)));
    Ok(())
}
