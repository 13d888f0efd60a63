//! One more of a written type and of a historical expression with its place.

ghost use Rattle.std.specs.Prelude.{◌≡◌, ℕ, IfOk};
ghost use Rattle.delta_tree.specs.Tree.{type_form_of, type_tree_of, hist_of};

use crate::expressions::Hist;
use crate::placing::historical;
use crate::types::{TyExp, TyForm};
use hist_value::copy_expr;
use std::alloc::Global;
use stream_type::Memory;

/// An equal type, at the same places. Its only error is want of memory.
#[cycle(copy)]
pub fn copy_type_exp(alloc: Global, t: &TyExp) -> Result<TyExp, Memory>
    ensures { IfOk result (λ r. type_tree_of r ≡ type_tree_of t.now) }
{
    let form = copy_form(alloc, &t.form)?;
    let form = Box::new(alloc, form)?;
    Ok(TyExp { at: t.at, form })
}

#[cycle(copy)]
fn copy_form(alloc: Global, form: &TyForm) -> Result<TyForm, Memory>
    ensures { IfOk result (λ r. (at : ℕ) → type_form_of at r ≡ type_form_of at form.now) }
{
    match form {
        TyForm::Eps => Ok(TyForm::Eps),
        TyForm::One => Ok(TyForm::One),
        TyForm::Int => Ok(TyForm::Int),
        TyForm::Named(x) => Ok(TyForm::Named(*x)),
        TyForm::Cat(a, b) => Ok(TyForm::Cat(copy_type_exp(alloc, a)?, copy_type_exp(alloc, b)?)),
        TyForm::Par(a, b) => Ok(TyForm::Par(copy_type_exp(alloc, a)?, copy_type_exp(alloc, b)?)),
        TyForm::Sum(a, b) => Ok(TyForm::Sum(copy_type_exp(alloc, a)?, copy_type_exp(alloc, b)?)),
        TyForm::Star(a) => Ok(TyForm::Star(copy_type_exp(alloc, a)?)),
    }
}

/// An equal historical expression, at the same place. Its only error is want of memory.
pub fn copy_hist(alloc: Global, m: &Hist) -> Result<Hist, Memory>
    ensures { IfOk result (λ r. hist_of r ≡ hist_of m.now) }
{
    let expr = copy_expr(alloc, &m.expr)?;
    Ok(historical(alloc, m.at, expr)?)
}
