ghost use Rattle.std.specs.Prelude.{◌≢◌, ◌≤◌, length, IfErr, IfOk, Ok};
ghost use Rattle.sync_tokens.specs.Scan.{tokens_of};
ghost use Rattle.sync_syntax.specs.declared.fault.ParseFault.TheVariants.{Memory};
ghost use Rattle.sync_syntax.specs.declared.tree.Program.{Program};
ghost use Rattle.sync_syntax.specs.Depth.{depth};
ghost use Rattle.sync_syntax.specs.Faults.{IsFaultOf};
ghost use Rattle.sync_syntax.specs.Grammar.{IsProgram};
ghost use Rattle.sync_syntax.specs.Laws.{max_depth};
ghost use Rattle.sync_syntax.specs.Reading.{ReadsByRule};
ghost use Rattle.sync_syntax.specs.Statements as spec;
ghost use Rattle.sync_syntax.specs.Statements.{GivesParsed, max_len};

use crate::behind::closed;
use crate::cursor::Tokens;
use crate::fault::{ParseFault, SyntaxFault};
use crate::simple::named;
use crate::statement::{Statements, statement};
use crate::tree::{Named, Program, Statement};
use json_doc::DocText;
use sqlite_items::Items;
use std::alloc::Global;
use sync_tokens::laws::tokens_rise;
use sync_tokens::{Kind, Place, Sign, SyntaxWhy, Token, Word, tokens};

/// How many bytes a text may have.
const MAX_LEN: usize = 65536;

/// How much more may be open in the body of a program.
const BODY_ROOM: usize = 99;

#[tactic(auto, unfolding(crate::specs::Statements::own_name))]
fn own_name(alloc: Global, tokens: &mut Tokens<'_>) -> Result<Option<DocText>, ParseFault>
    ensures { ReadsByRule (spec.own_name tokens.old) result tokens.new }
{
    match tokens.kind() {
        Kind::Name(_) => Ok(Some(tokens.name(alloc)?)),
        _ => Ok(None),
    }
}

#[tactic(auto, unfolding(crate::specs::Statements::second_parameter))]
fn second_parameter(alloc: Global, tokens: &mut Tokens<'_>) -> Result<Option<Named>, ParseFault>
    ensures { ReadsByRule (spec.second_parameter tokens.old) result tokens.new }
{
    if !tokens.eat(Sign::Comma) {
        return Ok(None);
    }
    Ok(Some(named(alloc, tokens)?))
}

/// What stands before the body.
type Head = (Option<DocText>, Named, Option<Named>);

#[tactic(auto, unfolding(crate::specs::Statements::head))]
fn head(alloc: Global, tokens: &mut Tokens<'_>) -> Result<Head, ParseFault>
    ensures { ReadsByRule (spec.head tokens.old) result tokens.new }
{
    tokens.expect_word(Word::Function)?;
    let name = own_name(alloc, tokens)?;
    tokens.expect(Sign::ParenOpen)?;
    let first = named(alloc, tokens)?;
    let second = second_parameter(alloc, tokens)?;
    closed(tokens, (name, first, second), Sign::ParenClose)
}

/// The body, and the end of the text behind it.
#[tactic(auto, unfolding(crate::specs::Statements::function_body))]
fn body(alloc: Global, tokens: &mut Tokens<'_>) -> Result<Items<Statement>, ParseFault>
    ensures { ReadsByRule (spec.function_body tokens.old) result tokens.new }
{
    tokens.expect(Sign::BraceOpen)?;
    let found = Statements {
        alloc,
        room: BODY_ROOM,
        inner: statement,
    }
    .block(tokens, false)?;
    tokens.eat(Sign::Semicolon);
    end(tokens)?;
    Ok(found)
}

#[tactic(auto, unfolding(crate::specs::Statements::end))]
fn end(tokens: &mut Tokens<'_>) -> Result<(), ParseFault>
    ensures { ReadsByRule (spec.end tokens.old) result tokens.new }
{
    match tokens.kind() {
        Kind::End => Ok(()),
        _ => Err(tokens.refuse()),
    }
}

#[tactic(auto, unfolding(crate::specs::Statements::program))]
fn program(alloc: Global, tokens: &mut Tokens<'_>) -> Result<Program, ParseFault>
    ensures { ReadsByRule (spec.program tokens.old) result tokens.new }
{
    let head = head(alloc, tokens)?;
    let place = tokens.place();
    let body = match body(alloc, tokens) {
        Ok(body) => body,
        Err(fault) => {
            drop(head);
            return Err(fault);
        }
    };
    let (name, first, second) = head;
    Ok(Program {
        name,
        first,
        second,
        place,
        body,
    })
}

/// The program that all of these tokens are.
fn whole(alloc: Global, all: &[Token]) -> Result<Program, ParseFault>
    ensures { GivesParsed (spec.whole_program (spec.program all.now)) result }
{
    match Tokens::new(all) {
        Some(mut tokens) => program(alloc, &mut tokens),
        None => Err(ParseFault::Bad(SyntaxFault {
            place: Place::START,
            why: SyntaxWhy::Unexpected,
        })),
    }
}

/// The same, which is a program by the grammar.
fn lawful(alloc: Global, all: &[Token]) -> Result<Program, ParseFault>
    ensures exact { GivesParsed (spec.whole_program (spec.program all.now)) result }
    ensures grammar { IfOk result (λ program. IsProgram all.now program) }
{
    whole(alloc, all)
}

/// The tree of the program that a text is.
#[tactic(auto, unfolding(crate::specs::Statements::parsed))]
pub(crate) fn tree_of(alloc: Global, text: &str) -> Result<Program, ParseFault>
    ensures exact { GivesParsed (spec.parsed text.now) result }
    ensures short { IfOk result (λ _. length text.now ≤ max_len) }
    ensures grammar { IfOk result (λ program. IsProgram (tokens_of text.now) program) }
    ensures complete { (p : Program) (d : IsProgram (tokens_of text.now) p)
        → length text.now ≤ max_len → depth d ≤ max_depth → GivesParsed (Ok p) result }
    ensures fault { IfErr result (λ e. e ≢ Memory → length text.now ≤ max_len
        → IsFaultOf (tokens_of text.now) e) }
{
    if text.len() > MAX_LEN {
        return Err(ParseFault::Bad(SyntaxFault {
            place: Place::START,
            why: SyntaxWhy::TooLong,
        }));
    }
    tokens_rise();
    let all = tokens(alloc, text)?;
    lawful(alloc, all.as_slice())
}
