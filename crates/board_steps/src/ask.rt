//! What is answered for revisions that a device offers, by the trees of a board.

ghost use Rattle.std.specs.Prelude.{◌≡◌, ◌++◌, ◌∷◌, [], IfOk, OnOk};
ghost use Rattle.doc_board.specs.Boards.{board_of, board_tree};
ghost use Rattle.doc_board.specs.Offers.{offer_answer};
ghost use Rattle.board_steps.specs.Asks.{AskedAt};

use doc_board::laws::boards;
use doc_board::{Board, answer_offer};
use repl_messages::{Asked, Offer, OfferAnswer, OfferAnswers};
use sg_outside::Memory;
use std::alloc::Global;

fn answer_at(alloc: Global, board: &Board, offer: &Offer) -> Result<OfferAnswer, Memory>
    ensures { IfOk result (λ answer. answer
        ≡ offer_answer (board_tree (board_of board.now) offer.now.doc) offer.now) }
{
    boards();
    answer_offer(alloc, board.tree(&offer.doc), offer)
}

/// Puts what a board answers for an offer behind other answers.
fn put_answer(
    alloc: Global,
    board: &Board,
    offer: &Offer,
    answers: &mut OfferAnswers,
) -> Result<(), Memory>
    ensures { OnOk result (answers.new ≡ answers.old
        ++ offer_answer (board_tree (board_of board.now) offer.now.doc) offer.now ∷ []) }
{
    let answer = answer_at(alloc, board, offer)?;
    answers.push(answer)?;
    Ok(())
}

/// What a read of a board answers for offers.
pub fn asked_at(alloc: Global, board: &Board, offers: &[Offer]) -> Result<Asked, Memory>
    ensures { IfOk result (AskedAt (board_of board.now) offers.now) }
{
    let mut answers = OfferAnswers::new(alloc);
    for offer in offers {
        put_answer(alloc, board, offer, &mut answers)?;
    }
    Ok(Asked {
        front: board.front(),
        answers,
    })
}
