//! The words for what is wrong.

ghost use Rattle.std.specs.Prelude.{◌≡◌};
ghost use Rattle.config_check.specs.Words as words;

use crate::function::FunctionWhy;
use sg_history::ConfigWhy;
use sync_syntax::SyntaxWhy;

/// The words for why a member is bad.
pub(crate) fn config_words(why: ConfigWhy) -> &'static str
    ensures { result.now ≡ words.config_words why }
{
    match why {
        ConfigWhy::NotJson => "NotJson: the whole is no JSON",
        ConfigWhy::NotObject => "NotObject: the whole is no object",
        ConfigWhy::Missing => "Missing: needed, and not there",
        ConfigWhy::Unknown => "Unknown: no member has this name",
        ConfigWhy::Value => "Value: of another kind, or outside its grammar",
        ConfigWhy::Twice => "Twice: an earlier one has the same",
        ConfigWhy::Sync => "Sync: the text of the function is refused",
    }
}

/// The words for why a text is no program.
fn syntax_words(why: SyntaxWhy) -> &'static str
    ensures { result.now ≡ words.syntax_words why }
{
    match why {
        SyntaxWhy::TooLong => "TooLong: the text has more than 65536 bytes",
        SyntaxWhy::Range => "Range: digits that are no integer",
        SyntaxWhy::BadText => "BadText: not closed, a bad escape, or a character of no token",
        SyntaxWhy::TooDeep =>
            "TooDeep: more than 100 statements, expressions and operators are open",
        SyntaxWhy::Unexpected => "Unexpected: a token that fits no rule",
    }
}

/// The words for why the text of a sync function is refused.
pub(crate) fn function_words(why: FunctionWhy) -> &'static str
    ensures { result.now ≡ words.function_words why }
{
    match why {
        FunctionWhy::Syntax(why) => syntax_words(why),
        FunctionWhy::UnknownName => "UnknownName: a name of no variable, or a call of no function",
        FunctionWhy::WrongCount =>
            "WrongCount: a call with another count of arguments than is taken",
        FunctionWhy::Redeclared =>
            "Redeclared: a name that is declared already, or is a function's",
        FunctionWhy::ConstWritten => "ConstWritten: a constant that is written",
    }
}
