//! Texts that are programs.

ghost use Rattle.std.specs.Prelude.{◌≡◌, ◌≢◌, ◌≤◌, length, IfErr, IfOk, Ok};
ghost use Rattle.sync_tokens.specs.Scan.{tokens_of};
ghost use Rattle.sync_syntax.specs.declared.fault.ParseFault.TheVariants.{Memory};
ghost use Rattle.sync_syntax.specs.declared.tree.Program.{Program};
ghost use Rattle.sync_syntax.specs.Depth.{depth};
ghost use Rattle.sync_syntax.specs.Faults.{IsFaultOf};
ghost use Rattle.sync_syntax.specs.Grammar.{IsProgram};
ghost use Rattle.sync_syntax.specs.Laws.{max_depth};
ghost use Rattle.sync_syntax.specs.Statements as spec;
ghost use Rattle.sync_syntax.specs.Statements.{GivesParsed, max_len};
ghost use Rattle.sync_syntax.specs.Texts.{HasText};

use crate::fault::ParseFault;
use crate::program::tree_of;
use crate::tree;
use std::alloc::Global;
use std::marker::Model;

/// A program that a text is, which contracts see as its tree.
#[derive(Drop)]
pub struct Program {
    tree: tree::Program,
}

impl Model for Program {
    ghost use Rattle.std.specs.Coded.{codes};
    ghost use Rattle.sync_syntax.specs.contracts.tree.Expr as expr;
    ghost use Rattle.sync_syntax.specs.contracts.tree.Statement as statement;
    ghost use Rattle.sync_syntax.specs.declared.tree.Program as whole;
    ghost use Rattle.sync_syntax.specs.Texts.{HasText};

    ghost Value = { whole.Program };

    ghost coded = { Prim.hlevel (codes, expr.the_row.coded, statement.the_row.coded) };

    ghost view = { λ p. p.tree };

    ghost invariant = { λ p. HasText p.tree };
}

impl Program {
    /// The tree.
    pub fn as_tree(&self) -> &tree::Program
        ensures value { result.now ≡ self.now }
        ensures text { HasText result.now }
    {
        &self.tree
    }
}

/// Reads a program. The fault is the first in the order of the text, at its token. `Memory` may come
/// in the place of any answer.
pub fn parse(alloc: Global, text: &str) -> Result<Program, ParseFault>
    // It is the program, or the first fault, that reading by the rules gives.
    ensures exact { GivesParsed (spec.parsed text.now) result }
    // What is read is a program by the grammar.
    ensures grammar { IfOk result (λ program. IsProgram (tokens_of text.now) program) }
    // A program by the grammar is read, where the text is not too long and not too much is open.
    ensures complete { (p : Program) (d : IsProgram (tokens_of text.now) p)
        → length text.now ≤ max_len → depth d ≤ max_depth → GivesParsed (Ok p) result }
    // A fault of a text that is not too long stands at the first token at fault: some program begins
    // with the tokens before it, and none with it, where it fits no rule.
    ensures fault { IfErr result (λ e. e ≢ Memory → length text.now ≤ max_len
        → IsFaultOf (tokens_of text.now) e) }
{
    let tree = tree_of(alloc, text)?;
    Ok(Program { tree })
}
