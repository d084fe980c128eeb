//! What holds of every program that is printed. The calls do nothing.

ghost use Rattle.sync_print.specs.Laws.{PrintedIsParsed, PrintedIsReadBack, TokensAreReadBack};

use sync_syntax::laws::{grammar_is_unambiguous, programs_are_read, read_is_program};
use sync_tokens::laws::texts_have_tokens;

/// The tokens of a program are read as the same program, its places apart.
pub fn tokens_are_read_back()
    ensures { TokensAreReadBack }
{}

/// What is printed of a program is by the grammar the same program, its places apart.
pub fn printed_is_read_back()
    ensures { PrintedIsReadBack }
{
    texts_have_tokens();
}

/// What is printed of a program is read as the same program, its places apart, within the limits of
/// what is read.
pub fn printed_is_parsed()
    ensures { PrintedIsParsed }
{
    texts_have_tokens();
    programs_are_read();
    grammar_is_unambiguous();
    read_is_program();
}
