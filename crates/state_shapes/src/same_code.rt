//! Whether code is the same.

ghost use Rattle.std.specs.Prelude.{◌≡◌, true, map};
ghost use Rattle.hist_value.specs.HistExpr.{expr_of};
ghost use Rattle.template_state.specs.Readers.{op_term, operand_terms};

use hist_value::Expr;
use stream_type::same;
use template_state::{Op, Operands};

// Whether two templates stand for the same term, as far as this tells: where it is true they do.
#[cycle(same_op)]
pub(crate) fn same_op(a: &Op, b: &Op) -> bool
    ensures { result ≡ true → op_term a.now ≡ op_term b.now }
{
    match a {
        Op::Var(_) | Op::Eps | Op::Unit | Op::Nil | Op::Past(_) => same_alone(a, b),
        Op::Par(_, _) | Op::Cat(_, _) | Op::Cons(_, _) => same_both(a, b),
        Op::Inl(_) | Op::Inr(_) => same_side(a, b),
        Op::Let(_, _, _, _) | Op::Wait(_, _, _) => same_bound(a, b),
        Op::LetPar(_, _, _, _) | Op::LetCat(_, _, _, _) => same_parts(a, b),
        Op::CaseSum(_, _, _, _, _, _) => same_on_sum(a, b),
        Op::CaseStar(_, _, _, _, _, _) => same_on_star(a, b),
        Op::Call(_, _, _) => same_call(a, b),
    }
}

// Templates with none inside.
fn same_alone(a: &Op, b: &Op) -> bool
    ensures { result ≡ true → op_term a.now ≡ op_term b.now }
{
    match (a, b) {
        (Op::Var(x), Op::Var(y)) => x == y,
        (Op::Eps, Op::Eps) | (Op::Unit, Op::Unit) | (Op::Nil, Op::Nil) => true,
        (Op::Past(m), Op::Past(n)) => same_expr(m, n),
        _ => false,
    }
}

#[cycle(same_op)]
fn same_both(a: &Op, b: &Op) -> bool
    ensures { result ≡ true → op_term a.now ≡ op_term b.now }
{
    match (a, b) {
        (Op::Par(a, b), Op::Par(c, d)) => same_op(a, c) && same_op(b, d),
        (Op::Cat(a, b), Op::Cat(c, d)) => same_op(a, c) && same_op(b, d),
        (Op::Cons(a, b), Op::Cons(c, d)) => same_op(a, c) && same_op(b, d),
        _ => false,
    }
}

#[cycle(same_op)]
fn same_side(a: &Op, b: &Op) -> bool
    ensures { result ≡ true → op_term a.now ≡ op_term b.now }
{
    match (a, b) {
        (Op::Inl(a), Op::Inl(c)) => same_op(a, c),
        (Op::Inr(a), Op::Inr(c)) => same_op(a, c),
        _ => false,
    }
}

#[cycle(same_op)]
fn same_bound(a: &Op, b: &Op) -> bool
    ensures { result ≡ true → op_term a.now ≡ op_term b.now }
{
    match (a, b) {
        (Op::Let(x, s, a, b), Op::Let(y, t, c, d)) => {
            x == y && same(s, t) && same_op(a, c) && same_op(b, d)
        }
        (Op::Wait(x, t, a), Op::Wait(y, s, c)) => x == y && same(t, s) && same_op(a, c),
        _ => false,
    }
}

#[cycle(same_op)]
fn same_parts(a: &Op, b: &Op) -> bool
    ensures { result ≡ true → op_term a.now ≡ op_term b.now }
{
    match (a, b) {
        (Op::LetPar(x, y, z, a), Op::LetPar(u, v, w, c)) => {
            x == u && y == v && z == w && same_op(a, c)
        }
        (Op::LetCat(x, y, z, a), Op::LetCat(u, v, w, c)) => {
            x == u && y == v && z == w && same_op(a, c)
        }
        _ => false,
    }
}

#[cycle(same_op)]
fn same_on_sum(a: &Op, b: &Op) -> bool
    ensures { result ≡ true → op_term a.now ≡ op_term b.now }
{
    match (a, b) {
        (Op::CaseSum(z, t, x, a, y, b), Op::CaseSum(w, s, u, c, v, d)) => {
            z == w && x == u && y == v && same(t, s) && same_op(a, c) && same_op(b, d)
        }
        _ => false,
    }
}

#[cycle(same_op)]
fn same_on_star(a: &Op, b: &Op) -> bool
    ensures { result ≡ true → op_term a.now ≡ op_term b.now }
{
    match (a, b) {
        (Op::CaseStar(z, t, a, y, x, b), Op::CaseStar(w, s, c, v, u, d)) => {
            z == w && y == v && x == u && same(t, s) && same_op(a, c) && same_op(b, d)
        }
        _ => false,
    }
}

#[cycle(same_op)]
fn same_call(a: &Op, b: &Op) -> bool
    ensures { result ≡ true → op_term a.now ≡ op_term b.now }
{
    match (a, b) {
        (Op::Call(f, ms, es), Op::Call(g, ns, fs)) => {
            f == g && same_exprs(ms, ns) && same_operands(es, fs)
        }
        _ => false,
    }
}

#[cycle(same_op)]
fn same_operands(a: &Operands, b: &Operands) -> bool
    ensures { result ≡ true → operand_terms a.now ≡ operand_terms b.now }
{
    match (a, b) {
        (Operands::None, Operands::None) => true,
        (Operands::Before(a, es), Operands::Before(b, fs)) => {
            same_op(a, b) && same_operands(es, fs)
        }
        _ => false,
    }
}

// Whether two historical expressions are the same, as far as this tells: where it is true they are.
#[cycle(same_expr)]
fn same_expr(a: &Expr, b: &Expr) -> bool
    ensures { result ≡ true → expr_of a.now ≡ expr_of b.now }
{
    match a {
        Expr::Var(_) | Expr::Lit(_) | Expr::Unit | Expr::Nil => same_leaf(a, b),
        Expr::Bin(_, _, _) => same_reckoned(a, b),
        Expr::Pair(_, _) | Expr::Cons(_, _) => same_two(a, b),
        Expr::Fst(_) | Expr::Snd(_) | Expr::Inl(_) | Expr::Inr(_) => same_part(a, b),
        Expr::Choose(_, _, _, _, _) => same_choice(a, b),
        Expr::Fold(_, _, _, _, _) => same_fold(a, b),
    }
}

// Expressions without parts.
fn same_leaf(a: &Expr, b: &Expr) -> bool
    ensures { result ≡ true → expr_of a.now ≡ expr_of b.now }
{
    match (a, b) {
        (Expr::Var(x), Expr::Var(y)) => x == y,
        (Expr::Lit(n), Expr::Lit(m)) => n == m,
        (Expr::Unit, Expr::Unit) | (Expr::Nil, Expr::Nil) => true,
        _ => false,
    }
}

#[cycle(same_expr)]
fn same_reckoned(a: &Expr, b: &Expr) -> bool
    ensures { result ≡ true → expr_of a.now ≡ expr_of b.now }
{
    match (a, b) {
        (Expr::Bin(o, a, b), Expr::Bin(p, c, d)) => o == p && same_expr(a, c) && same_expr(b, d),
        _ => false,
    }
}

#[cycle(same_expr)]
fn same_two(a: &Expr, b: &Expr) -> bool
    ensures { result ≡ true → expr_of a.now ≡ expr_of b.now }
{
    match (a, b) {
        (Expr::Pair(a, b), Expr::Pair(c, d)) => same_expr(a, c) && same_expr(b, d),
        (Expr::Cons(a, b), Expr::Cons(c, d)) => same_expr(a, c) && same_expr(b, d),
        _ => false,
    }
}

#[cycle(same_expr)]
fn same_part(a: &Expr, b: &Expr) -> bool
    ensures { result ≡ true → expr_of a.now ≡ expr_of b.now }
{
    match (a, b) {
        (Expr::Fst(a), Expr::Fst(c)) => same_expr(a, c),
        (Expr::Snd(a), Expr::Snd(c)) => same_expr(a, c),
        (Expr::Inl(a), Expr::Inl(c)) => same_expr(a, c),
        (Expr::Inr(a), Expr::Inr(c)) => same_expr(a, c),
        _ => false,
    }
}

#[cycle(same_expr)]
fn same_choice(a: &Expr, b: &Expr) -> bool
    ensures { result ≡ true → expr_of a.now ≡ expr_of b.now }
{
    match (a, b) {
        (Expr::Choose(a, x, b, y, e), Expr::Choose(c, u, d, v, f)) => {
            x == u && y == v && same_expr(a, c) && same_expr(b, d) && same_expr(e, f)
        }
        _ => false,
    }
}

#[cycle(same_expr)]
fn same_fold(a: &Expr, b: &Expr) -> bool
    ensures { result ≡ true → expr_of a.now ≡ expr_of b.now }
{
    match (a, b) {
        (Expr::Fold(a, s, x, y, b), Expr::Fold(c, t, u, v, d)) => {
            x == u && y == v && same_expr(a, c) && same_expr(s, t) && same_expr(b, d)
        }
        _ => false,
    }
}

// Whether these expressions are the same, each as the one at its place.
fn same_exprs(these: &[Expr], those: &[Expr]) -> bool
    ensures { result ≡ true → map expr_of these.now ≡ map expr_of those.now }
{
    let mut others = those;
    for this in these {
        let Some((other, rest)) = others.split_first() else {
            return false;
        };
        if !same_expr(this, other) {
            return false;
        }
        others = rest;
    }
    others.is_empty()
}
