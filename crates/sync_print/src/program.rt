//! Programs.

ghost use Rattle.std.specs.Prelude.{◌≡◌, ◌≤◌, ◌++◌, length, IfOk, OnOk, OnErr};
ghost use Rattle.sync_syntax.specs.Statements.{max_len};
ghost use Rattle.sync_print.specs.Laws.{IsReadAlike, IsReadBack};
ghost use Rattle.sync_print.specs.Printing.{printed};
ghost use Rattle.sync_print.specs.Spelling.{put_all};
ghost use Rattle.sync_print.specs.Trees as spec;

use crate::Memory;
use crate::laws::{printed_is_parsed, printed_is_read_back};
use crate::printer::Printer;
use crate::statement::put_block;
use json_doc::DocText;
use std::alloc::Global;
use sync_syntax::Program;
use sync_syntax::tree::{self, Named};
use sync_tokens::{Sign, Word};

#[tactic(auto, using(crate::proofs::Puts::put_both))]
fn put_own_name(out: &mut Printer, name: &Option<DocText>) -> Result<(), Memory>
    ensures { OnOk result (out.new ≡ put_all (spec.own_name name.now) out.old) }
{
    match name {
        Some(name) => out.name(name),
        None => Ok(()),
    }
}

#[tactic(auto, using(crate::proofs::Puts::put_both))]
fn put_second(out: &mut Printer, second: &Option<Named>) -> Result<(), Memory>
    ensures { OnOk result (out.new ≡ put_all (spec.second second.now) out.old) }
{
    match second {
        Some(second) => {
            out.sign(Sign::Comma)?;
            out.name(&second.name)
        }
        None => Ok(()),
    }
}

#[tactic(auto, using(crate::proofs::Puts::put_both), unfolding(crate::specs::Trees::program))]
fn put_program(alloc: Global, out: &mut Printer, program: &tree::Program) -> Result<(), Memory>
    ensures { OnOk result (out.new ≡ put_all (spec.program program.now) out.old) }
{
    out.word(Word::Function)?;
    put_own_name(out, &program.name)?;
    out.sign(Sign::ParenOpen)?;
    out.name(&program.first.name)?;
    put_second(out, &program.second)?;
    out.sign(Sign::ParenClose)?;
    put_block(alloc, out, program.body.as_slice())
}

/// The text of a program.
#[tactic(auto, unfolding(crate::specs::Printing::printed))]
fn text_of(alloc: Global, program: &tree::Program) -> Result<DocText, Memory>
    ensures { IfOk result (λ text. text ≡ printed program.now) }
{
    let mut printer = Printer::new(alloc);
    put_program(alloc, &mut printer, program)?;
    Ok(printer.text)
}

/// A text that is read as the same program, its places apart, behind what stands in `out`. Where
/// memory is short nothing is written.
pub fn print(alloc: Global, program: &Program, out: &mut DocText) -> Result<(), Memory>
    ensures ok { OnOk result (out.new ≡ out.old ++ printed program.now) }
    ensures err { OnErr result (out.new ≡ out.old) }
    // What is printed is by the grammar a program that differs in its places alone.
    ensures reads { OnOk result (IsReadAlike program.now) }
    // Within the limits that program is what is read, and nothing else is.
    ensures parsed { OnOk result
        (length (printed program.now) ≤ max_len → IsReadBack program.now) }
{
    printed_is_read_back();
    printed_is_parsed();
    let text = text_of(alloc, program.as_tree())?;
    out.push_str(text.as_str())
}
