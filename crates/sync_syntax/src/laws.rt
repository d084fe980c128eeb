//! What holds of every text. The calls do nothing.

ghost use Rattle.sync_syntax.specs.Faults.{FaultsAreFirst};
ghost use Rattle.sync_syntax.specs.Laws.{GrammarIsUnambiguous, ProgramsAreRead, ReadIsProgram};

use sync_tokens::laws::{texts_have_tokens, tokens_rise};

/// What is by the grammar a program within the limits is read as that program.
pub fn programs_are_read()
    ensures { ProgramsAreRead }
{
    texts_have_tokens();
}

/// No text is two programs by the grammar.
pub fn grammar_is_unambiguous()
    ensures { GrammarIsUnambiguous }
{
    texts_have_tokens();
}

/// What a text is read as is a program by the grammar.
pub fn read_is_program()
    ensures { ReadIsProgram }
{}

/// A fault but `TooLong` stands at the first token that is at fault: some program begins with the
/// tokens before it and, where it fits no rule, none with it.
pub fn faults_are_first()
    ensures { FaultsAreFirst }
{
    texts_have_tokens();
    tokens_rise();
}
