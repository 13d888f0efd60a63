//! Parameters made of the parts that were read: where the reader of a part stops, the whole does.

ghost use Rattle.std.specs.Prelude.{◌≡◌, ℕ, IfOk};
ghost use Rattle.grammar.specs.Reading.{Outcome, got};
ghost use Rattle.delta_tree.specs.SyntaxTree.{WrittenContext};
ghost use Rattle.delta_tree.specs.Tree.{context_of};
ghost use Rattle.delta_parse.specs.Terminals.{Tok};
ghost use Rattle.delta_parse.specs.Actions.{context_with};
ghost use Rattle.delta_parse.specs.Reads.{Reads, going_on};

use crate::cursor::Halt;
use crate::making::{in_sequence, side_by_side};
use crate::plain::Plain;
use crate::terminal::Terminal;
use delta_tree::Ctx;
use std::alloc::{AllocError, Global};

/// Parameters with a sign between them, those behind it having been read.
pub(crate) fn joined<'a>(
    alloc: Global,
    sign: Terminal,
    first: Ctx,
    more: Result<(Ctx, &'a [Plain]), Halt>,
) -> Result<(Ctx, &'a [Plain]), Halt>
    ensures { (o : Outcome Tok WrittenContext) (n : ℕ) → Reads (λ x. context_of x.0) (λ x. x.1.now) more.entry o n → Reads (λ x. context_of x.0) (λ x. x.1.now) result (going_on o (λ c. got (context_with sign (context_of first) c.0) c.1)) n }
{
    match more {
        Ok((more, rest)) => match two_contexts(alloc, sign, first, more) {
            Ok(whole) => Ok((whole, rest)),
            Err(_) => Err(Halt::Memory),
        },
        Err(halt) => {
            drop(first);
            Err(halt)
        }
    }
}

fn two_contexts(alloc: Global, sign: Terminal, first: Ctx, more: Ctx) -> Result<Ctx, AllocError>
    ensures { IfOk result (λ c. context_of c ≡ context_with sign (context_of first) (context_of more)) }
{
    match sign {
        Terminal::Semicolon => in_sequence(alloc, first, more),
        _ => side_by_side(alloc, first, more),
    }
}
