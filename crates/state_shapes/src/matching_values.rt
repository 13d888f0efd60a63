//! Values and prefixes on which shapes are laid: numbers are found for the keys of the shape.

ghost use Rattle.std.specs.Prelude.{◌≡◌, true, Ok, map};
ghost use Rattle.stream_prefix.specs.Tree.{prefix_of, end_of};
ghost use Rattle.hist_value.specs.HistValue.{hist_value_of};
ghost use Rattle.state_shapes.specs.RegisterLists.{RegisterLists, lists_in};
ghost use Rattle.state_shapes.specs.From.{value_from, prefix_from};
ghost use Rattle.state_shapes.specs.Goes.{Goes};

use crate::found::{Found, goes_on, number_goes};
use hist_value::Value;
use stream_prefix::{Prefix, StarEnd};
use stream_type::Memory;

/// A value, behind what was matched before.
#[cycle(value_goes)]
#[tactic(auto, using(crate::proofs::Growing::refusals))]
pub fn value_goes(
    before: Result<bool, Memory>,
    shape: &Value,
    v: &Value,
    found: &mut Found,
) -> Result<bool, Memory>
    ensures { Goes before (lists_in found.old) (lists_in found.new) result (λ l. hist_value_of v.now ≡ value_from l (hist_value_of shape.now)) }
{
    if !goes_on(&before) {
        return before;
    }
    match (shape, v) {
        (Value::Unit, Value::Unit) => Ok(true),
        (Value::Int(k), Value::Int(n)) => number_goes(Ok(true), *k, *n, found),
        (Value::Pair(a, b), Value::Pair(c, d)) => {
            value_goes(value_goes(Ok(true), a, c, found), b, d, found)
        }
        (Value::Inl(a), Value::Inl(c)) => value_goes(Ok(true), a, c, found),
        (Value::Inr(a), Value::Inr(c)) => value_goes(Ok(true), a, c, found),
        (Value::List(items), Value::List(others)) => values_go(items, others, found),
        _ => Ok(false),
    }
}

// The items of a list.
#[cycle(value_goes)]
fn values_go(shapes: &[Value], values: &[Value], found: &mut Found) -> Result<bool, Memory>
    ensures { Goes (Ok true) (lists_in found.old) (lists_in found.new) result (λ l. map hist_value_of values.now ≡ map (value_from l) (map hist_value_of shapes.now)) }
{
    let mut others = values;
    for shape in shapes {
        let Some((v, rest)) = others.split_first() else {
            return Ok(false);
        };
        let so_far = value_goes(Ok(true), shape, v, found);
        if !goes_on(&so_far) {
            return so_far;
        }
        others = rest;
    }
    Ok(others.is_empty())
}

/// A prefix, behind what was matched before.
#[cycle(prefix_goes)]
#[tactic(auto, using(crate::proofs::Growing::refusals))]
pub fn prefix_goes(
    before: Result<bool, Memory>,
    shape: &Prefix,
    p: &Prefix,
    found: &mut Found,
) -> Result<bool, Memory>
    ensures { Goes before (lists_in found.old) (lists_in found.new) result (λ l. prefix_of p.now ≡ prefix_from l (prefix_of shape.now)) }
{
    if !goes_on(&before) {
        return before;
    }
    match (shape, p) {
        (Prefix::Par(a, b), Prefix::Par(c, d)) => {
            prefix_goes(prefix_goes(Ok(true), a, c, found), b, d, found)
        }
        (Prefix::CatFst(a), Prefix::CatFst(c)) => prefix_goes(Ok(true), a, c, found),
        (Prefix::CatBoth(a, b), Prefix::CatBoth(c, d)) => {
            prefix_goes(prefix_goes(Ok(true), a, c, found), b, d, found)
        }
        (Prefix::Inl(a), Prefix::Inl(c)) => prefix_goes(Ok(true), a, c, found),
        (Prefix::Inr(a), Prefix::Inr(c)) => prefix_goes(Ok(true), a, c, found),
        (Prefix::Star(items, end), Prefix::Star(others, other)) => {
            end_goes(prefixes_go(items, others, found), end, other, found)
        }
        _ => bare_goes(before, shape, p, found),
    }
}

// A prefix with none inside.
fn bare_goes(
    before: Result<bool, Memory>,
    shape: &Prefix,
    p: &Prefix,
    found: &mut Found,
) -> Result<bool, Memory>
    ensures { Goes before (lists_in found.old) (lists_in found.new) result (λ l. prefix_of p.now ≡ prefix_from l (prefix_of shape.now)) }
{
    if let (Prefix::IntFull(k), Prefix::IntFull(n)) = (shape, p) {
        return number_goes(before, *k, *n, found);
    }
    goes_where_same(before, same_bare(shape, p))
}

// Whether both are the same prefix, with neither a prefix nor a number inside.
fn same_bare(shape: &Prefix, p: &Prefix) -> bool
    ensures { result ≡ true → (l : RegisterLists) → prefix_of p.now ≡ prefix_from l (prefix_of shape.now) }
{
    match (shape, p) {
        (Prefix::EpsEmp, Prefix::EpsEmp)
        | (Prefix::OneEmp, Prefix::OneEmp)
        | (Prefix::OneFull, Prefix::OneFull)
        | (Prefix::IntEmp, Prefix::IntEmp)
        | (Prefix::SumEmp, Prefix::SumEmp) => true,
        _ => false,
    }
}

// It goes on where it did before, and both are the same.
fn goes_where_same(before: Result<bool, Memory>, same: bool) -> Result<bool, Memory>
    ensures { result ≡ Ok true → (before ≡ Ok true) × (same ≡ true) }
{
    if same { before } else { Ok(false) }
}

// The whole items of a star.
#[cycle(prefix_goes)]
fn prefixes_go(shapes: &[Prefix], prefixes: &[Prefix], found: &mut Found) -> Result<bool, Memory>
    ensures { Goes (Ok true) (lists_in found.old) (lists_in found.new) result (λ l. map prefix_of prefixes.now ≡ map (prefix_from l) (map prefix_of shapes.now)) }
{
    let mut others = prefixes;
    for shape in shapes {
        let Some((p, rest)) = others.split_first() else {
            return Ok(false);
        };
        let so_far = prefix_goes(Ok(true), shape, p, found);
        if !goes_on(&so_far) {
            return so_far;
        }
        others = rest;
    }
    Ok(others.is_empty())
}

// How a star goes on.
#[cycle(prefix_goes)]
#[tactic(auto, using(crate::proofs::Growing::refusals))]
fn end_goes(
    before: Result<bool, Memory>,
    shape: &StarEnd,
    end: &StarEnd,
    found: &mut Found,
) -> Result<bool, Memory>
    ensures { Goes before (lists_in found.old) (lists_in found.new) result (λ l. end_of end.now ≡ prefix_from l (end_of shape.now)) }
{
    if !goes_on(&before) {
        return before;
    }
    match (shape, end) {
        (StarEnd::Emp, StarEnd::Emp) | (StarEnd::Done, StarEnd::Done) => Ok(true),
        (StarEnd::First(p), StarEnd::First(q)) => prefix_goes(Ok(true), p, q, found),
        _ => Ok(false),
    }
}
