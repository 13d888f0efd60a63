//! The way from a text to its program.

ghost use Rattle.std.specs.Prelude.{IfOk, IfErr};
ghost use Rattle.delta_tree.specs.Tree.{program_of as tree_of};
ghost use Rattle.program_text.specs.ProgramText.{IsTextOf, IsFault};

use crate::fault::TextFault;
use delta_lex::tokens;
use delta_parse::parse;
use delta_tree::Program;
use std::alloc::Global;

/// The program of a text. `IsTextOf` of `specs/ProgramText.antt` says which it is: the tokens of the
/// text belong to it. `IsRefusedFor` says for what each other text is refused. The laws say that but
/// for want of memory each text has one answer.
pub fn program_of(alloc: Global, text: &[u8]) -> Result<Program, TextFault>
    ensures program { IfOk result (λ p. IsTextOf text.now (tree_of p)) }
    ensures fault { IfErr result (λ fault. IsFault text.now fault) }
{
    let found = tokens(alloc, text)?;
    let program = parse(alloc, &found)?;
    Ok(program)
}
