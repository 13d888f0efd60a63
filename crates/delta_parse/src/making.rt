//! Trees made of the parts that were read.

ghost use Rattle.std.specs.Prelude.{◌≡◌, IfOk};
ghost use Rattle.delta_tree.specs.SyntaxTree.{in_sequence, side_by_side, sum_written, wait_at};
ghost use Rattle.delta_tree.specs.Tree.{context_of, expression_of, type_tree_of};

use bunch::Name;
use delta_tree::{Ctx, Exp, Form, TyExp, TyForm, expression, written_type};
use std::alloc::{AllocError, Global};

/// The sum of two types, at a place.
pub(crate) fn sum_of_types(
    alloc: Global,
    at: u32,
    left: TyExp,
    right: TyExp,
) -> Result<TyExp, AllocError>
    ensures { IfOk result (λ t. type_tree_of t ≡ sum_written at (type_tree_of left) (type_tree_of right)) }
{
    let form = TyForm::Sum(left, right);
    written_type(alloc, at, form)
}

/// The expression that waits for a name and goes on with its body, at a place.
pub(crate) fn waiting(alloc: Global, at: u32, name: Name, body: Exp) -> Result<Exp, AllocError>
    ensures { IfOk result (λ e. expression_of e ≡ wait_at at name.0 (expression_of body)) }
{
    let form = Form::Wait(name, body);
    expression(alloc, at, form)
}

/// Parameters that come at once.
pub(crate) fn side_by_side(alloc: Global, first: Ctx, more: Ctx) -> Result<Ctx, AllocError>
    ensures { IfOk result (λ c. context_of c ≡ side_by_side (context_of first) (context_of more)) }
{
    let first = Box::new(alloc, first)?;
    let more = Box::new(alloc, more)?;
    Ok(Ctx::Comma(first, more))
}

/// Parameters that come one after the other.
pub(crate) fn in_sequence(alloc: Global, first: Ctx, more: Ctx) -> Result<Ctx, AllocError>
    ensures { IfOk result (λ c. context_of c ≡ in_sequence (context_of first) (context_of more)) }
{
    let first = Box::new(alloc, first)?;
    let more = Box::new(alloc, more)?;
    Ok(Ctx::Semi(first, more))
}
