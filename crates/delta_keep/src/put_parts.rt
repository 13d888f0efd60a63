//! Types, prefixes, values and historical expressions as bytes.

ghost use Rattle.std.specs.Prelude.{◌≡◌, ◌∷◌, ◌++◌, map};
ghost use Rattle.stream_type.specs.StreamType.{type_of};
ghost use Rattle.stream_prefix.specs.Tree.{prefix_of, end_of};
ghost use Rattle.hist_value.specs.HistValue.{hist_value_of};
ghost use Rattle.hist_value.specs.HistExpr.{expr_of};
ghost use Rattle.kept_state.specs.KeptBytes.{short_bytes, list_bytes, bool_bytes, type_bytes, prefix_bytes, rest_bytes, value_bytes, op_byte, expr_bytes, known_bytes, held_name_bytes};
ghost use Rattle.kept_state.specs.KeptSizes.{FitsShort, FitsPrefix, FitsValue, FitsExpr, FitsExprs, FitsKnown, FitsHeldName, FitsHeld};
ghost use Rattle.delta_keep.specs.KeptView.{known_of, held_of};
ghost use Rattle.delta_keep.specs.Putting.{Puts, IsCounted};
ghost use Rattle.delta_keep.specs.Reads.{FitsList};

use crate::kept::{HeldName, Known};
use crate::output::{Output, put_byte};
use crate::put_numbers::{put_count, put_int, put_name};
use bunch::Name;
use hist_value::{Expr, Op, Value};
use stream_prefix::{Prefix, StarEnd};
use stream_type::Ty;

/// Appends a type.
#[cycle(put_types)]
pub(crate) fn put_type(out: &mut Output, t: &Ty)
    ensures { Puts out.old out.new (type_bytes (type_of t.now)) }
{
    match t {
        Ty::Eps => put_byte(out, 0),
        Ty::One => put_byte(out, 1),
        Ty::Int => put_byte(out, 2),
        Ty::Cat(a, b) => put_two_types(out, 3, a, b),
        Ty::Par(a, b) => put_two_types(out, 4, a, b),
        Ty::Sum(a, b) => put_two_types(out, 5, a, b),
        Ty::Star(a) => {
            put_byte(out, 6);
            put_type(out, a);
        }
    }
}

#[cycle(put_types)]
fn put_two_types(out: &mut Output, form: u8, a: &Ty, b: &Ty)
    ensures { Puts out.old out.new (form ∷ type_bytes (type_of a.now) ++ type_bytes (type_of b.now)) }
{
    put_byte(out, form);
    put_type(out, a);
    put_type(out, b);
}

/// Appends a list of types.
pub(crate) fn put_types(out: &mut Output, types: &[Ty])
    ensures { Puts out.old out.new (list_bytes type_bytes (map type_of types.now)) }
{
    put_count(out, types.len());
    for t in types {
        put_type(out, t);
    }
}

/// Appends a list of marks.
pub(crate) fn put_marks(out: &mut Output, marks: &[bool])
    ensures { Puts out.old out.new (list_bytes bool_bytes marks.now) }
{
    put_count(out, marks.len());
    for mark in marks {
        put_byte(out, *mark as u8);
    }
}

/// Appends a prefix.
#[cycle(put_prefixes)]
pub(crate) fn put_prefix(out: &mut Output, p: &Prefix)
    ensures puts { Puts out.old out.new (prefix_bytes (prefix_of p.now)) }
    ensures sizes { IsCounted out.new → FitsPrefix (prefix_of p.now) }
{
    match p {
        Prefix::EpsEmp => put_byte(out, 0),
        Prefix::OneEmp => put_byte(out, 1),
        Prefix::OneFull => put_byte(out, 2),
        Prefix::IntEmp => put_byte(out, 3),
        Prefix::IntFull(n) => {
            put_byte(out, 4);
            put_int(out, *n);
        }
        Prefix::Par(p, q) => put_two_prefixes(out, 5, p, q),
        Prefix::CatFst(p) => put_one_prefix(out, 6, p),
        Prefix::CatBoth(p, q) => put_two_prefixes(out, 7, p, q),
        Prefix::SumEmp => put_byte(out, 8),
        Prefix::Inl(p) => put_one_prefix(out, 9, p),
        Prefix::Inr(p) => put_one_prefix(out, 10, p),
        Prefix::Star(items, end) => {
            put_byte(out, 11);
            put_prefixes(out, items);
            put_end(out, end);
        }
    }
}

#[cycle(put_prefixes)]
fn put_one_prefix(out: &mut Output, form: u8, p: &Prefix)
    ensures puts { Puts out.old out.new (form ∷ prefix_bytes (prefix_of p.now)) }
    ensures sizes { IsCounted out.new → FitsPrefix (prefix_of p.now) }
{
    put_byte(out, form);
    put_prefix(out, p);
}

#[cycle(put_prefixes)]
fn put_two_prefixes(out: &mut Output, form: u8, p: &Prefix, q: &Prefix)
    ensures puts { Puts out.old out.new (form ∷ prefix_bytes (prefix_of p.now) ++ prefix_bytes (prefix_of q.now)) }
    ensures sizes { IsCounted out.new → FitsPrefix (prefix_of p.now) × FitsPrefix (prefix_of q.now) }
{
    put_byte(out, form);
    put_prefix(out, p);
    put_prefix(out, q);
}

// What stands after the whole items of a star.
#[cycle(put_prefixes)]
fn put_end(out: &mut Output, end: &StarEnd)
    ensures puts { Puts out.old out.new (rest_bytes (end_of end.now)) }
    ensures sizes { IsCounted out.new → FitsPrefix (end_of end.now) }
{
    match end {
        StarEnd::Emp => put_byte(out, 0),
        StarEnd::Done => put_byte(out, 1),
        StarEnd::First(p) => put_one_prefix(out, 2, p),
    }
}

#[cycle(put_prefixes)]
fn put_prefixes(out: &mut Output, items: &[Prefix])
    ensures puts { Puts out.old out.new (list_bytes prefix_bytes (map prefix_of items.now)) }
    ensures sizes { IsCounted out.new → FitsList FitsPrefix (map prefix_of items.now) }
{
    put_count(out, items.len());
    for item in items {
        put_prefix(out, item);
    }
}

/// Appends a value.
#[cycle(put_values)]
pub(crate) fn put_value(out: &mut Output, v: &Value)
    ensures puts { Puts out.old out.new (value_bytes (hist_value_of v.now)) }
    ensures sizes { IsCounted out.new → FitsValue (hist_value_of v.now) }
{
    match v {
        Value::Unit => put_byte(out, 0),
        Value::Int(n) => {
            put_byte(out, 1);
            put_int(out, *n);
        }
        Value::Pair(v, w) => {
            put_byte(out, 2);
            put_value(out, v);
            put_value(out, w);
        }
        Value::Inl(v) => {
            put_byte(out, 3);
            put_value(out, v);
        }
        Value::Inr(v) => {
            put_byte(out, 4);
            put_value(out, v);
        }
        Value::List(items) => {
            put_byte(out, 5);
            put_values(out, items);
        }
    }
}

#[cycle(put_values)]
fn put_values(out: &mut Output, items: &[Value])
    ensures puts { Puts out.old out.new (list_bytes value_bytes (map hist_value_of items.now)) }
    ensures sizes { IsCounted out.new → FitsList FitsValue (map hist_value_of items.now) }
{
    put_count(out, items.len());
    for item in items {
        put_value(out, item);
    }
}

// The byte of an operation.
fn byte_of(op: Op) -> u8
    ensures { result ≡ op_byte op }
{
    match op {
        Op::Add => 0,
        Op::Sub => 1,
        Op::Mul => 2,
        Op::Div => 3,
        Op::Less => 4,
        Op::Same => 5,
    }
}

/// Appends a historical expression.
#[cycle(put_exprs)]
pub(crate) fn put_expr(out: &mut Output, m: &Expr)
    ensures puts { Puts out.old out.new (expr_bytes (expr_of m.now)) }
    ensures sizes { IsCounted out.new → FitsExpr (expr_of m.now) }
{
    match m {
        Expr::Var(x) => {
            put_byte(out, 0);
            put_name(out, *x);
        }
        Expr::Lit(n) => {
            put_byte(out, 1);
            put_int(out, *n);
        }
        Expr::Unit => put_byte(out, 2),
        Expr::Bin(op, a, b) => {
            put_byte(out, 3);
            put_two_exprs(out, byte_of(*op), a, b);
        }
        Expr::Pair(a, b) => put_two_exprs(out, 4, a, b),
        Expr::Fst(a) => put_one_expr(out, 5, a),
        Expr::Snd(a) => put_one_expr(out, 6, a),
        Expr::Inl(a) => put_one_expr(out, 7, a),
        Expr::Inr(a) => put_one_expr(out, 8, a),
        Expr::Choose(a, x, b, y, c) => put_choice(out, a, *x, b, *y, c),
        Expr::Nil => put_byte(out, 10),
        Expr::Cons(a, b) => put_two_exprs(out, 11, a, b),
        Expr::Fold(a, s, x, y, b) => put_fold(out, a, s, *x, *y, b),
    }
}

#[cycle(put_exprs)]
fn put_one_expr(out: &mut Output, form: u8, a: &Expr)
    ensures puts { Puts out.old out.new (form ∷ expr_bytes (expr_of a.now)) }
    ensures sizes { IsCounted out.new → FitsExpr (expr_of a.now) }
{
    put_byte(out, form);
    put_expr(out, a);
}

#[cycle(put_exprs)]
fn put_two_exprs(out: &mut Output, form: u8, a: &Expr, b: &Expr)
    ensures puts { Puts out.old out.new (form ∷ expr_bytes (expr_of a.now) ++ expr_bytes (expr_of b.now)) }
    ensures sizes { IsCounted out.new → FitsExpr (expr_of a.now) × FitsExpr (expr_of b.now) }
{
    put_byte(out, form);
    put_expr(out, a);
    put_expr(out, b);
}

#[cycle(put_exprs)]
fn put_choice(out: &mut Output, a: &Expr, x: Name, b: &Expr, y: Name, c: &Expr)
    ensures puts { Puts out.old out.new (9 ∷ expr_bytes (expr_of a.now) ++ (short_bytes x.0 ++ (expr_bytes (expr_of b.now) ++ (short_bytes y.0 ++ expr_bytes (expr_of c.now))))) }
    ensures sizes { IsCounted out.new → FitsExpr (expr_of a.now) × FitsShort x.0 × FitsExpr (expr_of b.now) × FitsShort y.0 × FitsExpr (expr_of c.now) }
{
    put_one_expr(out, 9, a);
    put_name(out, x);
    put_expr(out, b);
    put_name(out, y);
    put_expr(out, c);
}

#[cycle(put_exprs)]
fn put_fold(out: &mut Output, a: &Expr, s: &Expr, x: Name, y: Name, b: &Expr)
    ensures puts { Puts out.old out.new (12 ∷ expr_bytes (expr_of a.now) ++ (expr_bytes (expr_of s.now) ++ (short_bytes x.0 ++ (short_bytes y.0 ++ expr_bytes (expr_of b.now))))) }
    ensures sizes { IsCounted out.new → FitsExpr (expr_of a.now) × FitsExpr (expr_of s.now) × FitsShort x.0 × FitsShort y.0 × FitsExpr (expr_of b.now) }
{
    put_two_exprs(out, 12, a, s);
    put_name(out, x);
    put_name(out, y);
    put_expr(out, b);
}

/// Appends a list of historical expressions.
pub(crate) fn put_exprs(out: &mut Output, exprs: &[Expr])
    ensures puts { Puts out.old out.new (list_bytes expr_bytes (map expr_of exprs.now)) }
    ensures sizes { IsCounted out.new → FitsExprs (map expr_of exprs.now) }
{
    put_count(out, exprs.len());
    for expr in exprs {
        put_expr(out, expr);
    }
}

/// Appends what code sees of the past.
pub(crate) fn put_past(out: &mut Output, past: &[Known])
    ensures puts { Puts out.old out.new (list_bytes known_bytes (map known_of past.now)) }
    ensures sizes { IsCounted out.new → FitsList FitsKnown (map known_of past.now) }
{
    put_count(out, past.len());
    for known in past {
        put_known(out, known);
    }
}

fn put_known(out: &mut Output, known: &Known)
    ensures puts { Puts out.old out.new (known_bytes (known_of known.now)) }
    ensures sizes { IsCounted out.new → FitsKnown (known_of known.now) }
{
    put_name(out, known.name);
    put_type(out, &known.ty);
    put_value(out, &known.value);
}

/// Appends what a form holds.
pub(crate) fn put_held(out: &mut Output, held: &[HeldName])
    ensures puts { Puts out.old out.new (list_bytes held_name_bytes (map held_of held.now)) }
    ensures sizes { IsCounted out.new → FitsHeld (map held_of held.now) }
{
    put_count(out, held.len());
    for name in held {
        put_held_name(out, name);
    }
}

fn put_held_name(out: &mut Output, held: &HeldName)
    ensures puts { Puts out.old out.new (held_name_bytes (held_of held.now)) }
    ensures sizes { IsCounted out.new → FitsHeldName (held_of held.now) }
{
    put_name(out, held.name);
    put_type(out, &held.ty);
    put_prefix(out, &held.prefix);
}
