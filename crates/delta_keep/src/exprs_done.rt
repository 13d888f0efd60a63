//! Historical expressions of what was read behind their forms: where a part stops, the whole does.
//!
//! Nothing here calls back, so the reader that goes through an expression has little more than its calls.

ghost use Rattle.std.specs.Prelude.{◌≡◌, ◌≤◌, ◌⊎◌, ℕ, List, [], ◌∷◌, ◌++◌, Some, drop};
ghost use Rattle.hist_value.specs.HistExpr.{expr_of};
ghost use Rattle.kept_state.specs.KeptBytes.{expr_bytes};
ghost use Rattle.kept_state.specs.KeptForm.{expr_kind, form, after_byte};
ghost use Rattle.kept_state.specs.KeptSizes.{FitsExpr};
ghost use Rattle.delta_keep.specs.Reads.{Reads};

use crate::halt::Halt;
use crate::read_numbers::{boxed, read_int, read_name};
use hist_value::Expr;
use std::alloc::Global;

/// A name, behind its form.
#[inline(never)]
pub(crate) fn read_variable(
    alloc: Global,
    bytes: &[u8],
    start: usize,
) -> Result<(Box<Expr>, usize), Halt>
    ensures { Reads (form expr_kind ∷ []) (0 ∷ drop start bytes.now) (λ x. expr_bytes (expr_of x.0.value)) (λ x. drop x.1 bytes.now) (λ x. FitsExpr (expr_of x.0.value)) result }
{
    match read_name(bytes, start) {
        Ok((x, next)) => boxed(alloc, Expr::Var(x), next),
        Err(halt) => Err(halt),
    }
}

/// A number, behind its form.
#[inline(never)]
pub(crate) fn read_literal(
    alloc: Global,
    bytes: &[u8],
    start: usize,
) -> Result<(Box<Expr>, usize), Halt>
    ensures { Reads (form expr_kind ∷ []) (1 ∷ drop start bytes.now) (λ x. expr_bytes (expr_of x.0.value)) (λ x. drop x.1 bytes.now) (λ x. FitsExpr (expr_of x.0.value)) result }
{
    match read_int(bytes, start) {
        Ok((n, next)) => boxed(alloc, Expr::Lit(n), next),
        Err(halt) => Err(halt),
    }
}

/// What has one part: this form, behind which the part was read.
#[inline(never)]
pub(crate) fn one_done(
    alloc: Global,
    n: u8,
    inside: Result<(Box<Expr>, usize), Halt>,
) -> Result<(Box<Expr>, usize), Halt>
    requires { (5 ≤ n) × (n ≤ 8) }
    ensures { (bytes : List ℕ) → (behind : ℕ → List ℕ) → after_byte (form expr_kind ∷ []) n ≡ Some (form expr_kind ∷ []) → Reads (form expr_kind ∷ []) bytes (λ x. expr_bytes (expr_of x.0.value)) (λ x. behind x.1) (λ x. FitsExpr (expr_of x.0.value)) inside → Reads (form expr_kind ∷ []) (n ∷ bytes) (λ x. expr_bytes (expr_of x.0.value)) (λ x. behind x.1) (λ x. FitsExpr (expr_of x.0.value)) result }
{
    match inside {
        Ok((a, next)) => boxed(alloc, one_of(n, a), next),
        Err(halt) => Err(halt),
    }
}

// The form with this number.
fn one_of(n: u8, a: Box<Expr>) -> Expr
    requires { (5 ≤ n) × (n ≤ 8) }
    ensures bytes { expr_bytes (expr_of result) ≡ n ∷ expr_bytes (expr_of a.value) }
    ensures sizes { FitsExpr (expr_of a.value) → FitsExpr (expr_of result) }
{
    match n {
        5 => Expr::Fst(a),
        6 => Expr::Snd(a),
        7 => Expr::Inl(a),
        _ => Expr::Inr(a),
    }
}

/// What has two parts: this form, behind which both were read.
#[inline(never)]
pub(crate) fn two_done(
    alloc: Global,
    n: u8,
    inside: Result<(Box<Expr>, Box<Expr>, usize), Halt>,
) -> Result<(Box<Expr>, usize), Halt>
    requires { (n ≡ 4) ⊎ (n ≡ 11) }
    ensures { (bytes : List ℕ) → (behind : ℕ → List ℕ) → after_byte (form expr_kind ∷ []) n ≡ Some (form expr_kind ∷ form expr_kind ∷ []) → Reads (form expr_kind ∷ form expr_kind ∷ []) bytes (λ x. expr_bytes (expr_of x.0.value) ++ expr_bytes (expr_of x.1.value)) (λ x. behind x.2) (λ x. FitsExpr (expr_of x.0.value) × FitsExpr (expr_of x.1.value)) inside → Reads (form expr_kind ∷ []) (n ∷ bytes) (λ x. expr_bytes (expr_of x.0.value)) (λ x. behind x.1) (λ x. FitsExpr (expr_of x.0.value)) result }
{
    match inside {
        Ok((a, b, next)) => boxed(alloc, two_of(n, a, b), next),
        Err(halt) => Err(halt),
    }
}

// The form with this number.
fn two_of(n: u8, a: Box<Expr>, b: Box<Expr>) -> Expr
    requires { (n ≡ 4) ⊎ (n ≡ 11) }
    ensures bytes { expr_bytes (expr_of result) ≡ n ∷ expr_bytes (expr_of a.value) ++ expr_bytes (expr_of b.value) }
    ensures sizes { FitsExpr (expr_of a.value) × FitsExpr (expr_of b.value) → FitsExpr (expr_of result) }
{
    match n {
        4 => Expr::Pair(a, b),
        _ => Expr::Cons(a, b),
    }
}
