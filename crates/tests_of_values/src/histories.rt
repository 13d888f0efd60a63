//! Each call once, on small types and expressions.

use crate::postfix::expression;
use bunch::Name;
use hist_value::{
    Expr, HTy, HistFault, Op, Value, copy_expr, copy_type, copy_value, full, has_type, past,
    type_of, value, value_of,
};
use std::alloc::Global;
use stream_prefix::{Prefix, StarEnd};
use stream_type::{Memory, Ty, cat, star};

// A type in digits, the last of which is its form, behind those of its parts: 1 for a unit, 2 for a
// number, 3 for a pair, 4 for a sum and 5 for a list. They come behind these digits.
fn digits(t: &HTy, before: u64) -> u64 {
    match t {
        HTy::Unit => behind(before, 1),
        HTy::Int => behind(before, 2),
        HTy::Pair(s, t) => behind(digits(t, digits(s, before)), 3),
        HTy::Sum(s, t) => behind(digits(t, digits(s, before)), 4),
        HTy::List(item) => behind(digits(item, before), 5),
    }
}

fn behind(before: u64, digit: u64) -> u64 {
    before.wrapping_mul(10).wrapping_add(digit)
}

// The digits of a type that was made, or 0.
fn made(t: Result<HTy, Memory>) -> u64 {
    let told = match &t {
        Ok(t) => digits(t, 0),
        Err(_) => 0,
    };
    drop(t);
    told
}

fn number_and_marks(alloc: Global) -> Result<Ty, Memory> {
    cat(alloc, Ty::Int, star(alloc, Ty::One)?)
}

// The past of a number and then marks, in digits.
fn past_of_number_and_marks(alloc: Global) -> u64 {
    let t = number_and_marks(alloc);
    let told = match &t {
        Ok(t) => made(past(alloc, t)),
        Err(_) => 0,
    };
    drop(t);
    told
}

#[test]
fn the_past_of_a_number_and_marks(rt: HostRuntime) {
    // A pair of a number and a list of units.
    assert!(rt; past_of_number_and_marks(rt.alloc()) == 2153, "a pair");
}

// The number that is the value of an expression with these names, if it is one.
fn number_of(alloc: Global, e: &Expr, env: &[(Name, Value)]) -> Option<i64> {
    let v = value(alloc, e, env);
    let number = match &v {
        Ok(Value::Int(n)) => Some(*n),
        _ => None,
    };
    drop(v);
    number
}

// `op` of two numbers.
fn reckoning(alloc: Global, op: Op, a: i64, b: i64) -> Result<Box<Expr>, Memory> {
    let left = Box::new(alloc, Expr::Lit(a))?;
    let right = Box::new(alloc, Expr::Lit(b))?;
    Ok(Box::new(alloc, Expr::Bin(op, left, right))?)
}

// What it gives.
fn reckoned(alloc: Global, op: Op, a: i64, b: i64) -> Option<i64> {
    match reckoning(alloc, op, a, b) {
        Ok(e) => number_of(alloc, &e, &[]),
        Err(_) => None,
    }
}

// Whether the last number of each row is the value of its `op` at the two numbers before.
fn give(alloc: Global, rows: &[(Op, i64, i64, i64)]) -> bool {
    let mut all = true;
    for (op, a, b, n) in rows {
        all = all && reckoned(alloc, *op, *a, *b) == Some(*n);
    }
    all
}

const LEAST: i64 = i64::MIN;

const GREATEST: i64 = i64::MAX;

const QUOTIENTS: &[(Op, i64, i64, i64)] = &[
    (Op::Div, 7, 0, 0),
    (Op::Div, -7, 2, -3),
    (Op::Div, LEAST, -1, GREATEST),
];

#[test]
fn division_is_cut_towards_zero(rt: HostRuntime) {
    assert!(rt; give(rt.alloc(), QUOTIENTS));
}

const CORNERS: &[(Op, i64, i64, i64)] = &[
    (Op::Add, GREATEST, 1, GREATEST),
    (Op::Add, LEAST, -1, LEAST),
    (Op::Add, LEAST, GREATEST, -1),
    (Op::Sub, LEAST, 1, LEAST),
    (Op::Sub, GREATEST, -1, GREATEST),
    (Op::Sub, 0, LEAST, GREATEST),
    (Op::Mul, GREATEST, 2, GREATEST),
    (Op::Mul, GREATEST, -2, LEAST),
    (Op::Mul, LEAST, 2, LEAST),
    (Op::Mul, LEAST, -1, GREATEST),
    (Op::Mul, LEAST, LEAST, GREATEST),
    (Op::Div, LEAST, -1, GREATEST),
    (Op::Div, GREATEST, -1, -GREATEST),
    (Op::Div, LEAST, 1, LEAST),
    (Op::Div, LEAST, 0, 0),
    (Op::Div, GREATEST, 0, 0),
    (Op::Div, LEAST, GREATEST, -1),
];

#[test]
fn numbers_stop_at_both_ends(rt: HostRuntime) {
    assert!(rt; give(rt.alloc(), CORNERS));
}

// A star of the one number 1.
fn one_number(alloc: Global) -> Result<Box<Prefix>, Memory> {
    let mut items = Vec::new(alloc);
    items.push(Prefix::IntFull(1))?;
    Ok(Box::new(alloc, Prefix::Star(items, StarEnd::Done))?)
}

// Whether a prefix is a star of the one number 1.
fn is_one_number(p: &Prefix) -> bool {
    match p {
        Prefix::Star(items, StarEnd::Done) => { matches!(items.as_slice(), [Prefix::IntFull(1)]) }
        _ => false,
    }
}

// Whether a value is of the type of lists of numbers, and not of that of numbers.
fn is_list(alloc: Global, v: &Value) -> bool {
    match numbers(alloc) {
        Ok(t) => has_type(v, &t) && !has_type(v, &HTy::Int),
        Err(_) => false,
    }
}

// Whether a value of this type is in full a star of the one number 1.
fn is_full_of(alloc: Global, t: &Ty, v: &Value) -> bool {
    let whole = full(alloc, t, v);
    let is = match &whole {
        Ok(p) => is_one_number(p),
        Err(_) => false,
    };
    drop(whole);
    is
}

// Whether a value is in full a star of the one number 1.
fn is_full(alloc: Global, v: &Value) -> bool {
    let t = star(alloc, Ty::Int);
    let is = match &t {
        Ok(t) => is_full_of(alloc, t, v),
        Err(_) => false,
    };
    drop(t);
    is
}

// Whether a value is there that is such a list, and one that is in full such a star.
fn are(alloc: Global, v: Result<Value, Memory>) -> (bool, bool) {
    let are = match &v {
        Ok(v) => (is_list(alloc, v), is_full(alloc, v)),
        Err(_) => (false, false),
    };
    drop(v);
    are
}

// The same of the copy of the value of a prefix.
fn are_copied(alloc: Global, p: &Prefix) -> (bool, bool) {
    let v = value_of(alloc, p);
    let copied = match &v {
        Ok(v) => are(alloc, copy_value(alloc, v)),
        Err(_) => (false, false),
    };
    drop(v);
    copied
}

// The same of a star of the one number 1.
fn are_of_one_number(alloc: Global) -> (bool, bool) {
    match one_number(alloc) {
        Ok(p) => are_copied(alloc, &p),
        Err(_) => (false, false),
    }
}

#[test]
fn a_star_and_its_value(rt: HostRuntime) {
    assert!(rt; are_of_one_number(rt.alloc()) == (true, true));
}

// The number that is the value of an expression, where x is 1 and then 2.
fn number_with_names(alloc: Global, e: &Expr) -> Option<i64> {
    let env = [(Name(4), Value::Int(1)), (Name(4), Value::Int(2))];
    number_of(alloc, e, &env)
}

// That of the copy of an expression.
fn number_of_copy(alloc: Global, e: &Expr) -> Option<i64> {
    let copied = copy_expr(alloc, e);
    let number = match &copied {
        Ok(copied) => number_with_names(alloc, copied),
        Err(_) => None,
    };
    drop(copied);
    number
}

// That of the expression of a text.
fn number_of_text(alloc: Global, text: &str) -> Option<i64> {
    match expression(alloc, text) {
        Ok(e) => number_of_copy(alloc, &e),
        Err(_) => None,
    }
}

#[test]
fn a_fold_sums(rt: HostRuntime) {
    // 5 - (3 - 1): the fold of 3 and 5 from 1, each less what was gathered.
    assert!(rt; number_of_text(rt.alloc(), "35n::1yx-g") == Some(3));
}

#[test]
fn the_later_entry_counts(rt: HostRuntime) {
    assert!(rt; number_of_text(rt.alloc(), "x") == Some(2));
    // `choose inl 9 of { x => x | y => 0 }`
    assert!(rt; number_of_text(rt.alloc(), "9lx0c") == Some(9));
}

fn numbers(alloc: Global) -> Result<Box<HTy>, Memory> {
    let item = Box::new(alloc, HTy::Int)?;
    Ok(Box::new(alloc, HTy::List(item))?)
}

// The copy of the type of lists of numbers, in digits.
fn copy_of_numbers(alloc: Global) -> u64 {
    match numbers(alloc) {
        Ok(t) => made(copy_type(alloc, &t)),
        Err(_) => 0,
    }
}

#[test]
fn copies_of_types_are_equal(rt: HostRuntime) {
    assert!(rt; copy_of_numbers(rt.alloc()) == 25, "a list");
}

fn units(alloc: Global) -> Result<Box<HTy>, Memory> {
    let left = Box::new(alloc, HTy::Unit)?;
    let right = Box::new(alloc, HTy::Unit)?;
    Ok(Box::new(alloc, HTy::Sum(left, right))?)
}

// What is wanted of an expression: nothing, a unit, a number, one of two units, or numbers.
#[derive(Clone, Copy)]
enum Wanted {
    Nothing,
    Unit,
    Int,
    Units,
    Numbers,
}

// The type that is wanted; of nothing a unit, which is then left out.
fn wanted_type(alloc: Global, wanted: Wanted) -> Result<Box<HTy>, Memory> {
    match wanted {
        Wanted::Nothing | Wanted::Unit => Ok(Box::new(alloc, HTy::Unit)?),
        Wanted::Int => Ok(Box::new(alloc, HTy::Int)?),
        Wanted::Units => units(alloc),
        Wanted::Numbers => numbers(alloc),
    }
}

// An answer: its name, and the wanted and the found type in digits, or the name that is unbound.
type Told = (&'static str, u64, u64);

fn told(answer: &Result<HTy, HistFault>) -> Told {
    match answer {
        Ok(t) => ("Ok", 0, digits(t, 0)),
        Err(HistFault::Memory) => ("Memory", 0, 0),
        Err(HistFault::NeedsType) => ("NeedsType", 0, 0),
        Err(HistFault::Unbound(x)) => ("Unbound", x.0 as u64, 0),
        Err(HistFault::Mismatch { wanted, found }) => ("Mismatch", asked(wanted), asked(found)),
    }
}

// A type in digits, or 0 for none.
fn asked(t: &Option<HTy>) -> u64 {
    match t {
        Some(t) => digits(t, 0),
        None => 0,
    }
}

// The answer to an expression of which that type is wanted, with these names.
fn judged(alloc: Global, e: &Expr, wanted: Option<&HTy>, env: &[(Name, HTy)]) -> Told {
    let answer = type_of(alloc, e, env, wanted);
    let told = told(&answer);
    drop(answer);
    told
}

fn judged_as(alloc: Global, e: &Expr, wanted: Wanted, env: &[(Name, HTy)]) -> Told {
    if matches!(wanted, Wanted::Nothing) {
        return judged(alloc, e, None, env);
    }
    match wanted_type(alloc, wanted) {
        Ok(t) => judged(alloc, e, Some(&t), env),
        Err(_) => ("Memory", 0, 0),
    }
}

// The same of the expression of a text.
fn judged_text(alloc: Global, text: &str, wanted: Wanted, env: &[(Name, HTy)]) -> Told {
    match expression(alloc, text) {
        Ok(e) => judged_as(alloc, &e, wanted, env),
        Err(_) => ("Memory", 0, 0),
    }
}

// An expression, what is wanted of it, and the answer.
type Row = (&'static str, Wanted, Told);

// Whether each row has its answer with these names.
fn answer_in(alloc: Global, rows: &[Row], env: &[(Name, HTy)]) -> bool {
    let mut all = true;
    for (text, wanted, told) in rows {
        all = all && judged_text(alloc, text, *wanted, env) == *told;
    }
    all
}

// Whether each row has its answer without names.
fn answer(alloc: Global, rows: &[Row]) -> bool {
    answer_in(alloc, rows, &[])
}

// Whether each row has its answer where the name 4 has two entries, `Unit` and then `Int`.
fn answer_with_names(alloc: Global, rows: &[Row]) -> bool {
    let env = [(Name(4), HTy::Unit), (Name(4), HTy::Int)];
    answer_in(alloc, rows, &env)
}

const WITHOUT_ITEM: &[Row] = &[
    ("n", Wanted::Nothing, ("NeedsType", 0, 0)),
    ("1l", Wanted::Nothing, ("NeedsType", 0, 0)),
    ("1r", Wanted::Nothing, ("NeedsType", 0, 0)),
    ("n", Wanted::Numbers, ("Ok", 0, 25)),
];

#[test]
fn a_list_with_no_item_needs_a_type(rt: HostRuntime) {
    assert!(rt; answer(rt.alloc(), WITHOUT_ITEM));
}

const TEST: &[Row] = &[("12<", Wanted::Nothing, ("Ok", 0, 114))];

#[test]
fn a_test_is_of_two_units(rt: HostRuntime) {
    assert!(rt; answer(rt.alloc(), TEST));
}

const FOUND_TYPES: &[Row] = &[
    ("1", Wanted::Unit, ("Mismatch", 1, 2)),
    ("u", Wanted::Int, ("Mismatch", 2, 1)),
    ("12<", Wanted::Int, ("Mismatch", 2, 114)),
    // Both operands are wanted numbers, the first of them first.
    ("u1+", Wanted::Nothing, ("Mismatch", 2, 1)),
    // The sum itself comes before its operands.
    ("u1+", Wanted::Unit, ("Mismatch", 1, 2)),
];

#[test]
fn what_a_found_type_mismatches(rt: HostRuntime) {
    assert!(rt; answer(rt.alloc(), FOUND_TYPES));
}

const WANTED_FORMS: &[Row] = &[
    ("1x,", Wanted::Unit, ("Mismatch", 1, 0)),
    ("n", Wanted::Int, ("Mismatch", 2, 0)),
    ("1l", Wanted::Int, ("Mismatch", 2, 0)),
    ("1r", Wanted::Unit, ("Mismatch", 1, 0)),
    ("1n:", Wanted::Units, ("Mismatch", 114, 0)),
];

#[test]
fn what_a_wanted_form_mismatches(rt: HostRuntime) {
    assert!(rt; answer(rt.alloc(), WANTED_FORMS));
}

const ASKED_FORMS: &[Row] = &[
    ("1f", Wanted::Nothing, ("Mismatch", 0, 2)),
    ("us", Wanted::Nothing, ("Mismatch", 0, 1)),
    // `choose 1 of { x => 1 | y => 1 }`
    ("111c", Wanted::Nothing, ("Mismatch", 0, 2)),
    // A fold of the number 1
    ("111g", Wanted::Nothing, ("Mismatch", 0, 2)),
];

#[test]
fn what_an_asked_form_mismatches(rt: HostRuntime) {
    assert!(rt; answer(rt.alloc(), ASKED_FORMS));
}

const PARTS: &[Row] = &[
    // `choose 1 < 2 of { x => 1 | y => () }`
    ("12<1uc", Wanted::Nothing, ("Mismatch", 2, 1)),
    // The fold of the list of `()` from 1 whose body is the item.
    ("un:1yg", Wanted::Nothing, ("Mismatch", 2, 1)),
];

#[test]
fn branches_and_bodies_are_wanted_one_type(rt: HostRuntime) {
    assert!(rt; answer(rt.alloc(), PARTS));
}

const LATER: &[Row] = &[
    ("x", Wanted::Nothing, ("Ok", 0, 2)),
    // `choose 1 < 2 of { x => x | y => () }`
    ("12<xuc", Wanted::Nothing, ("Ok", 0, 1)),
    ("y", Wanted::Nothing, ("Unbound", 5, 0)),
];

#[test]
fn the_later_type_counts(rt: HostRuntime) {
    assert!(rt; answer_with_names(rt.alloc(), LATER));
}
