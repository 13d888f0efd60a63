//! The reader of a whole program.

ghost use Rattle.std.specs.Prelude.{map, IfOk, IfErr};
ghost use Rattle.delta_tree.specs.Tree.{declaration_of, function_of};
ghost use Rattle.delta_parse.specs.Terminals.{plains};
ghost use Rattle.delta_parse.specs.Programs.{IsProgram, StopsAt};

use crate::cursor::Halt;
use crate::declaration_reader::{read_declarations, read_main};
use crate::plain::Plain;
use delta_tree::{Decl, Fun};
use std::alloc::Global;

/// Why tokens are no program: want of memory; a token that doesn't fit, so many tokens before the end;
/// or their end behind whole declarations.
#[derive(Drop)]
pub(crate) enum Stop {
    Memory,
    Misfit(usize),
    NoMain,
}

/// The declarations and `main` that the tokens are, all of them.
pub(crate) fn read_whole(alloc: Global, tokens: &[Plain]) -> Result<(Vec<Decl>, Fun), Stop>
    ensures found { IfOk result (λ x. IsProgram (plains tokens.now) (map declaration_of x.0.items) (function_of x.1)) }
    ensures stopped { IfErr result (λ e. StopsAt (plains tokens.now) e) }
{
    let (decls, rest) = match read_declarations(alloc, tokens) {
        Ok(found) => found,
        Err(Halt::Memory) => return Err(Stop::Memory),
        Err(Halt::At(left)) => return Err(Stop::Misfit(left)),
    };
    if rest.is_empty() {
        return Err(Stop::NoMain);
    }
    let (main, rest) = match read_main(alloc, rest) {
        Ok(found) => found,
        Err(Halt::Memory) => return Err(Stop::Memory),
        Err(Halt::At(left)) => return Err(Stop::Misfit(left)),
    };
    if rest.is_empty() {
        Ok((decls, main))
    } else {
        Err(Stop::Misfit(rest.len()))
    }
}
