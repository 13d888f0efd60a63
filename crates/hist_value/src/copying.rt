//! One more of a type, of a value and of an expression.

ghost use Rattle.std.specs.Prelude.{◌≡◌, map, IfOk};
ghost use Rattle.hist_value.specs.HistExpr.{expr_of};
ghost use Rattle.hist_value.specs.HistType.{hist_type_of};
ghost use Rattle.hist_value.specs.HistValue.{hist_value_of};

use crate::expr::Expr;
use crate::hist_type::HTy;
use crate::history::Value;
use std::alloc::Global;
use stream_type::Memory;

/// An equal type. Its only error is want of memory.
pub fn copy_type(alloc: Global, t: &HTy) -> Result<HTy, Memory>
    ensures { IfOk result (λ r. hist_type_of r ≡ hist_type_of t.now) }
{
    match t {
        HTy::Unit => Ok(HTy::Unit),
        HTy::Int => Ok(HTy::Int),
        HTy::Pair(s, t) => {
            let (s, t) = (copy_type(alloc, s)?, copy_type(alloc, t)?);
            Ok(HTy::Pair(Box::new(alloc, s)?, Box::new(alloc, t)?))
        }
        HTy::Sum(s, t) => {
            let (s, t) = (copy_type(alloc, s)?, copy_type(alloc, t)?);
            Ok(HTy::Sum(Box::new(alloc, s)?, Box::new(alloc, t)?))
        }
        HTy::List(s) => Ok(HTy::List(Box::new(alloc, copy_type(alloc, s)?)?)),
    }
}

/// An equal value. Its only error is want of memory.
#[cycle(copy)]
#[tactic(auto, using(crate::proofs::Rows::rows))]
pub fn copy_value(alloc: Global, v: &Value) -> Result<Value, Memory>
    ensures { IfOk result (λ r. hist_value_of r ≡ hist_value_of v.now) }
{
    match v {
        Value::Unit => Ok(Value::Unit),
        Value::Int(n) => Ok(Value::Int(*n)),
        Value::Pair(v, w) => Ok(Value::Pair(copy_box(alloc, v)?, copy_box(alloc, w)?)),
        Value::Inl(v) => Ok(Value::Inl(copy_box(alloc, v)?)),
        Value::Inr(v) => Ok(Value::Inr(copy_box(alloc, v)?)),
        Value::List(items) => Ok(Value::List(copy_items(alloc, items)?)),
    }
}

#[cycle(copy)]
fn copy_box(alloc: Global, v: &Value) -> Result<Box<Value>, Memory>
    ensures { IfOk result (λ r. hist_value_of r.value ≡ hist_value_of v.now) }
{
    Ok(Box::new(alloc, copy_value(alloc, v)?)?)
}

#[cycle(copy)]
fn copy_items(alloc: Global, items: &[Value]) -> Result<Vec<Value>, Memory>
    ensures { IfOk result (λ r. map hist_value_of r.items ≡ map hist_value_of items.now) }
{
    let mut copies = Vec::new(alloc);
    for item in items {
        copies.push(copy_value(alloc, item)?)?;
    }
    Ok(copies)
}

/// An equal expression. Its only error is want of memory.
#[cycle(copy_expr)]
pub fn copy_expr(alloc: Global, e: &Expr) -> Result<Expr, Memory>
    ensures { IfOk result (λ r. expr_of r ≡ expr_of e.now) }
{
    match e {
        Expr::Var(x) => Ok(Expr::Var(*x)),
        Expr::Lit(n) => Ok(Expr::Lit(*n)),
        Expr::Unit => Ok(Expr::Unit),
        Expr::Bin(op, a, b) => Ok(Expr::Bin(*op, boxed(alloc, a)?, boxed(alloc, b)?)),
        Expr::Pair(a, b) => Ok(Expr::Pair(boxed(alloc, a)?, boxed(alloc, b)?)),
        Expr::Fst(a) => Ok(Expr::Fst(boxed(alloc, a)?)),
        Expr::Snd(a) => Ok(Expr::Snd(boxed(alloc, a)?)),
        Expr::Inl(a) => Ok(Expr::Inl(boxed(alloc, a)?)),
        Expr::Inr(a) => Ok(Expr::Inr(boxed(alloc, a)?)),
        Expr::Choose(a, x, b, y, c) => {
            let (a, b, c) = (boxed(alloc, a)?, boxed(alloc, b)?, boxed(alloc, c)?);
            Ok(Expr::Choose(a, *x, b, *y, c))
        }
        Expr::Nil => Ok(Expr::Nil),
        Expr::Cons(a, b) => Ok(Expr::Cons(boxed(alloc, a)?, boxed(alloc, b)?)),
        Expr::Fold(a, s, x, y, b) => {
            let (a, s, b) = (boxed(alloc, a)?, boxed(alloc, s)?, boxed(alloc, b)?);
            Ok(Expr::Fold(a, s, *x, *y, b))
        }
    }
}

#[cycle(copy_expr)]
fn boxed(alloc: Global, e: &Expr) -> Result<Box<Expr>, Memory>
    ensures { IfOk result (λ r. expr_of r.value ≡ expr_of e.now) }
{
    Ok(Box::new(alloc, copy_expr(alloc, e)?)?)
}
