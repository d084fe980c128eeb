//! Laws of the texts of the protocol. Each function says one, and does nothing.

ghost use Rattle.std.specs.Prelude.{◌≡◌, ◌<◌, ◌^◌, ℕ, Bool, List, Result, Ok, IsTrue};
ghost use Rattle.blip_frame.specs.declared.payload.Payload.{Payload};
ghost use Rattle.sg_names.specs.Revs.{is_revs};
ghost use Rattle.sg_names.specs.declared.rev_id.RevId.{RevId};
ghost use Rattle.sg_history.specs.declared.row.Row.{Row};
ghost use Rattle.repl_messages.specs.declared.request.Version.{Version};
ghost use Rattle.repl_messages.specs.declared.offers.OfferAnswer.{OfferAnswer};
ghost use Rattle.repl_messages.specs.declared.request.Request.{Request};
ghost use Rattle.repl_messages.specs.declared.request.Request.TheVariants.{Rev};
ghost use Rattle.repl_messages.specs.declared.request.RequestFault.{RequestFault};
ghost use Rattle.repl_messages.specs.declared.error.ErrorKind.{ErrorKind};
ghost use Rattle.repl_messages.specs.Requests.{IsAnswer};
ghost use Rattle.repl_messages.specs.Changes.{changes_payload};
ghost use Rattle.repl_messages.specs.Rev.{rev_payload, norev_payload};
ghost use Rattle.repl_messages.specs.Errors.{ok_payload, error_payload};
ghost use Rattle.repl_messages.specs.Answers.{answers_payload};
ghost use Rattle.repl_messages.specs.Checkpoints.{checkpoint_payload};
ghost use Rattle.repl_messages.specs.ReadAgain.{IsReadAgain, IsInGrammar, revision_of_row};

use sg_names::laws::{decimals, plain_texts, revision_lists, revisions};

/// A message is read as at most one answer: as one request, or as the one refusal that is due.
pub fn one_answer()
    ensures { (payload : Payload) (version : Version) (a b : Result Request RequestFault)
        → IsAnswer payload version a → IsAnswer payload version b → a ≡ b }
{
    decimals();
    revisions();
    revision_lists();
}

/// What is written of rows in their grammar has no NUL in its properties and no key twice, so that it
/// is read again as it was written.
pub fn payloads_read_again()
    ensures changes { (rows : List Row) (version : Version)
        → IsReadAgain (changes_payload rows version) }
    ensures rev { (row : Row) (ancestors : List RevId) (body : List ℕ) → IsInGrammar row
        → IsTrue (is_revs ancestors)
        → IsReadAgain (rev_payload row ancestors body) }
    ensures norev { (row : Row) → IsInGrammar row → IsReadAgain (norev_payload row) }
    ensures ok { IsReadAgain ok_payload }
    ensures error { (error : ErrorKind) → IsReadAgain (error_payload error) }
    ensures answers { (answers : List OfferAnswer) (proposed : Bool)
        → IsReadAgain (answers_payload answers proposed) }
    ensures checkpoint { (number : ℕ) (body : List ℕ) → number < 2 ^ 64
        → IsReadAgain (checkpoint_payload number body) }
{
    plain_texts();
}

/// The `rev` that is written of a row in its grammar is read as the revision that it is of, with its ancestors and its body.
pub fn revisions_read()
    ensures { (row : Row) (ancestors : List RevId) (body : List ℕ) (version : Version)
        → IsInGrammar row → IsTrue (is_revs ancestors)
        → IsAnswer (rev_payload row ancestors body) version
        (Ok (Rev (revision_of_row row ancestors body))) }
{}
