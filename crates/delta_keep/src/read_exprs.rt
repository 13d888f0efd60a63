//! Historical expressions read from bytes.

ghost use Rattle.std.specs.Prelude.{[], ◌∷◌, ◌++◌, ⊤, map, drop};
ghost use Rattle.hist_value.specs.HistExpr.{expr_of};
ghost use Rattle.kept_state.specs.KeptBytes.{list_bytes, op_byte, expr_bytes};
ghost use Rattle.kept_state.specs.KeptForm.{op_kind, expr_kind, expr_item, form, list_part};
ghost use Rattle.kept_state.specs.KeptSizes.{FitsExpr, FitsExprs};
ghost use Rattle.delta_keep.specs.Reads.{Reads};

use crate::exprs_done::{one_done, read_literal, read_variable, two_done};
use crate::halt::Halt;
use crate::pushing::pushed;
use crate::read_numbers::{boxed, misplaced, read_byte, read_form, read_name, read_short};
use hist_value::{Expr, Op};
use std::alloc::Global;

// An operation.
fn read_op(bytes: &[u8], start: usize) -> Result<(Op, usize), Halt>
    ensures reads { Reads (form op_kind ∷ []) (drop start bytes.now) (λ x. op_byte x.0 ∷ []) (λ x. drop x.1 bytes.now) (λ x. ⊤) result }
{
    let (form, next) = read_byte(bytes, start)?;
    match form {
        0 => Ok((Op::Add, next)),
        1 => Ok((Op::Sub, next)),
        2 => Ok((Op::Mul, next)),
        3 => Ok((Op::Div, next)),
        4 => Ok((Op::Less, next)),
        5 => Ok((Op::Same, next)),
        _ => Err(misplaced(bytes, start)),
    }
}

/// A historical expression.
#[cycle(read_exprs)]
pub(crate) fn read_expr(
    alloc: Global,
    bytes: &[u8],
    start: usize,
    left: u32,
) -> Result<(Box<Expr>, usize), Halt>
    ensures reads { Reads (form expr_kind ∷ []) (drop start bytes.now) (λ x. expr_bytes (expr_of x.0.value)) (λ x. drop x.1 bytes.now) (λ x. FitsExpr (expr_of x.0.value)) result }
{
    let (form, next, left) = read_form(bytes, start, left)?;
    match form {
        0 => read_variable(alloc, bytes, next),
        1 => read_literal(alloc, bytes, next),
        2 => boxed(alloc, Expr::Unit, next),
        3 => read_bin(alloc, bytes, next, left),
        4 => two_done(alloc, 4, two_exprs(alloc, bytes, next, left)),
        5 => one_done(alloc, 5, read_expr(alloc, bytes, next, left)),
        6 => one_done(alloc, 6, read_expr(alloc, bytes, next, left)),
        7 => one_done(alloc, 7, read_expr(alloc, bytes, next, left)),
        8 => one_done(alloc, 8, read_expr(alloc, bytes, next, left)),
        9 => read_choice(alloc, bytes, next, left),
        10 => boxed(alloc, Expr::Nil, next),
        11 => two_done(alloc, 11, two_exprs(alloc, bytes, next, left)),
        12 => read_fold(alloc, bytes, next, left),
        _ => Err(misplaced(bytes, start)),
    }
}

#[cycle(read_exprs)]
fn two_exprs(
    alloc: Global,
    bytes: &[u8],
    start: usize,
    left: u32,
) -> Result<(Box<Expr>, Box<Expr>, usize), Halt>
    ensures reads { Reads (form expr_kind ∷ form expr_kind ∷ []) (drop start bytes.now) (λ x. expr_bytes (expr_of x.0.value) ++ expr_bytes (expr_of x.1.value)) (λ x. drop x.2 bytes.now) (λ x. FitsExpr (expr_of x.0.value) × FitsExpr (expr_of x.1.value)) result }
{
    let (first, next) = read_expr(alloc, bytes, start, left)?;
    let (second, next) = read_expr(alloc, bytes, next, left)?;
    Ok((first, second, next))
}

// What is reckoned with two numbers, behind its form.
#[cycle(read_exprs)]
fn read_bin(
    alloc: Global,
    bytes: &[u8],
    start: usize,
    left: u32,
) -> Result<(Box<Expr>, usize), Halt>
    ensures reads { Reads (form expr_kind ∷ []) (3 ∷ drop start bytes.now) (λ x. expr_bytes (expr_of x.0.value)) (λ x. drop x.1 bytes.now) (λ x. FitsExpr (expr_of x.0.value)) result }
{
    let (op, next) = read_op(bytes, start)?;
    let (a, b, next) = two_exprs(alloc, bytes, next, left)?;
    boxed(alloc, Expr::Bin(op, a, b), next)
}

// A choice, behind its form.
#[cycle(read_exprs)]
fn read_choice(
    alloc: Global,
    bytes: &[u8],
    start: usize,
    left: u32,
) -> Result<(Box<Expr>, usize), Halt>
    ensures reads { Reads (form expr_kind ∷ []) (9 ∷ drop start bytes.now) (λ x. expr_bytes (expr_of x.0.value)) (λ x. drop x.1 bytes.now) (λ x. FitsExpr (expr_of x.0.value)) result }
{
    let (a, next) = read_expr(alloc, bytes, start, left)?;
    let (x, next) = read_name(bytes, next)?;
    let (b, next) = read_expr(alloc, bytes, next, left)?;
    let (y, next) = read_name(bytes, next)?;
    let (c, next) = read_expr(alloc, bytes, next, left)?;
    boxed(alloc, Expr::Choose(a, x, b, y, c), next)
}

// A fold, behind its form.
#[cycle(read_exprs)]
fn read_fold(
    alloc: Global,
    bytes: &[u8],
    start: usize,
    left: u32,
) -> Result<(Box<Expr>, usize), Halt>
    ensures reads { Reads (form expr_kind ∷ []) (12 ∷ drop start bytes.now) (λ x. expr_bytes (expr_of x.0.value)) (λ x. drop x.1 bytes.now) (λ x. FitsExpr (expr_of x.0.value)) result }
{
    let (a, s, next) = two_exprs(alloc, bytes, start, left)?;
    let (x, next) = read_name(bytes, next)?;
    let (y, next) = read_name(bytes, next)?;
    let (b, next) = read_expr(alloc, bytes, next, left)?;
    boxed(alloc, Expr::Fold(a, s, x, y, b), next)
}

/// A list of historical expressions.
pub(crate) fn read_exprs(
    alloc: Global,
    bytes: &[u8],
    start: usize,
    left: u32,
) -> Result<(Vec<Expr>, usize), Halt>
    ensures reads { Reads (list_part expr_item ∷ []) (drop start bytes.now) (λ x. list_bytes expr_bytes (map expr_of x.0.items)) (λ x. drop x.1 bytes.now) (λ x. FitsExprs (map expr_of x.0.items)) result }
{
    let (count, mut next) = read_short(bytes, start)?;
    let mut items = Vec::new(alloc);
    'items: for _ in 0..count {
        match pushed(&mut items, read_expr(alloc, bytes, next, left)) {
            Ok(behind) => next = behind,
            Err(halt) => {
                drop(items);
                return Err(halt);
            }
        }
    }
    Ok((items, next))
}
