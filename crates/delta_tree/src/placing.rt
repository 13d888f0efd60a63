//! Trees made of a place and a form.

ghost use Rattle.std.specs.Prelude.{◌≡◌, IfOk};
ghost use Rattle.hist_value.specs.HistExpr.{expr_of};
ghost use Rattle.delta_tree.specs.Tree.{type_form_of, type_tree_of, expression_form_of, expression_of, head_form_of, head_of, hist_of};

use crate::expressions::{Exp, Form, Head, HeadForm, Hist};
use crate::types::{TyExp, TyForm};
use hist_value::Expr;
use std::alloc::{AllocError, Global};

/// The expression of this form at a place.
pub fn expression(alloc: Global, at: u32, form: Form) -> Result<Exp, AllocError>
    ensures { IfOk result (λ e. expression_of e ≡ expression_form_of at form) }
{
    let form = Box::new(alloc, form)?;
    Ok(Exp { at, form })
}

/// The head of this form at a place.
pub fn head(alloc: Global, at: u32, form: HeadForm) -> Result<Head, AllocError>
    ensures { IfOk result (λ h. head_of h ≡ head_form_of at form) }
{
    let form = Box::new(alloc, form)?;
    Ok(Head { at, form })
}

/// The written type of this form at a place.
pub fn written_type(alloc: Global, at: u32, form: TyForm) -> Result<TyExp, AllocError>
    ensures { IfOk result (λ t. type_tree_of t ≡ type_form_of at form) }
{
    let form = Box::new(alloc, form)?;
    Ok(TyExp { at, form })
}

/// This historical expression at a place.
pub fn historical(alloc: Global, at: u32, expr: Expr) -> Result<Hist, AllocError>
    ensures { IfOk result (λ m. hist_of m ≡ record { at = at; expr = expr_of expr }) }
{
    let expr = Box::new(alloc, expr)?;
    Ok(Hist { at, expr })
}
