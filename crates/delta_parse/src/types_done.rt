//! Types made of the parts that were read: where the reader of a part stops, the whole does.

ghost use Rattle.std.specs.Prelude.{◌≡◌, ◌<◌, ℕ, length, IfOk};
ghost use Rattle.grammar.specs.Reading.{Outcome, got};
ghost use Rattle.delta_tree.specs.SyntaxTree.{WrittenType};
ghost use Rattle.delta_tree.specs.Tree.{type_tree_of, type_form_of};
ghost use Rattle.delta_parse.specs.Terminals.{Tok, plains};
ghost use Rattle.delta_parse.specs.Reads.{Reads, going_on, two_types};

use crate::cursor::Halt;
use crate::making::sum_of_types;
use crate::plain::Plain;
use crate::terminal::Terminal;
use delta_tree::{TyExp, TyForm, written_type};
use std::alloc::{AllocError, Global};

/// The type of this form at a place, and the tokens after it.
pub(crate) fn whole_type<'a>(
    alloc: Global,
    at: u32,
    form: TyForm,
    rest: &'a [Plain],
) -> Result<(TyExp, &'a [Plain]), Halt>
    ensures { (n : ℕ) → length rest.now < n → Reads (λ x. type_tree_of x.0) (λ x. x.1.now) result (got (type_form_of at form) (plains rest.now)) n }
{
    match written_type(alloc, at, form) {
        Ok(whole) => Ok((whole, rest)),
        Err(_) => Err(Halt::Memory),
    }
}

/// A type of two with a sign between them, the second of which was read.
pub(crate) fn joined<'a>(
    alloc: Global,
    at: u32,
    sign: Terminal,
    left: TyExp,
    right: Result<(TyExp, &'a [Plain]), Halt>,
) -> Result<(TyExp, &'a [Plain]), Halt>
    ensures { (o : Outcome Tok WrittenType) (n : ℕ) → Reads (λ x. type_tree_of x.0) (λ x. x.1.now) right.entry o n → Reads (λ x. type_tree_of x.0) (λ x. x.1.now) result (going_on o (λ t. got (two_types sign at (type_tree_of left) t.0) t.1)) n }
{
    match right {
        Ok((right, rest)) => match two_types(alloc, at, sign, left, right) {
            Ok(whole) => Ok((whole, rest)),
            Err(_) => Err(Halt::Memory),
        },
        Err(halt) => {
            drop(left);
            Err(halt)
        }
    }
}

fn two_types(
    alloc: Global,
    at: u32,
    sign: Terminal,
    left: TyExp,
    right: TyExp,
) -> Result<TyExp, AllocError>
    ensures { IfOk result (λ t. type_tree_of t ≡ two_types sign at (type_tree_of left) (type_tree_of right)) }
{
    match sign {
        Terminal::Plus => sum_of_types(alloc, at, left, right),
        Terminal::Bars => written_type(alloc, at, TyForm::Par(left, right)),
        _ => written_type(alloc, at, TyForm::Cat(left, right)),
    }
}
