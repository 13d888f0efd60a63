//! Values and prefixes whose numbers are keys, filled from registers.

ghost use Rattle.std.specs.Prelude.{◌≡◌, ◌∷◌, List, map, IfOk};
ghost use Rattle.stream_type.specs.StreamType.{type_of};
ghost use Rattle.stream_prefix.specs.StreamPrefix.{StreamPrefix, par_both, cat_fst, cat_both, in_left, in_right, star_first};
ghost use Rattle.stream_prefix.specs.Tree.{prefix_of, end_of, star_of};
ghost use Rattle.hist_value.specs.HistValue.{HistValue, hist_value_of, pair_of, left_of, right_of, list_of};
ghost use Rattle.delta_state.specs.StateTree.{Known as KnownName};
ghost use Rattle.other_numbers.specs.StateNumbers.{exchanged_known};
ghost use Rattle.filled_states.specs.Registers.{number_at};
ghost use Rattle.filled_states.specs.Filled.{filled_value, filled_prefix};
ghost use Rattle.template_state.specs.Readers.{known_in};
ghost use Rattle.state_shapes.specs.Makes.{Makes, boxed_value, boxed_prefix};

use crate::registers::number_at;
use bunch::Name;
use hist_value::Value;
use machine_parts::results::{added, boxed, pair, shared};
use std::alloc::Global;
use std::rc::Rc;
use stream_prefix::{Prefix, StarEnd};
use stream_type::{Memory, Ty};
use template_state::Past;

/// The value with the number beside each of its keys. Its only error is want of memory.
#[cycle(fill_value)]
pub fn fill_value(alloc: Global, v: &Value, keys: &[i64], numbers: &[i64]) -> Result<Value, Memory>
    ensures { IfOk result (λ r. hist_value_of r ≡ filled_value keys.now numbers.now (hist_value_of v.now)) }
{
    match v {
        Value::Unit => Ok(Value::Unit),
        Value::Int(n) => Ok(Value::Int(number_at(keys, numbers, *n))),
        Value::Pair(v, w) => two_of(
            fill_boxed(alloc, v, keys, numbers),
            fill_boxed(alloc, w, keys, numbers),
        ),
        Value::Inl(v) => first_of(fill_boxed(alloc, v, keys, numbers)),
        Value::Inr(v) => second_of(fill_boxed(alloc, v, keys, numbers)),
        Value::List(items) => items_of(fill_items(alloc, items, keys, numbers)),
    }
}

#[cycle(fill_value)]
fn fill_boxed(alloc: Global, v: &Value, keys: &[i64], numbers: &[i64]) -> Result<Box<Value>, Memory>
    ensures { Makes boxed_value result (filled_value keys.now numbers.now (hist_value_of v.now)) }
{
    boxed(alloc, fill_value(alloc, v, keys, numbers))
}

#[cycle(fill_value)]
fn fill_items(
    alloc: Global,
    items: &[Value],
    keys: &[i64],
    numbers: &[i64],
) -> Result<Vec<Value>, Memory>
    ensures { IfOk result (λ r. map hist_value_of r.items ≡ map (filled_value keys.now numbers.now) (map hist_value_of items.now)) }
{
    let mut filled = Vec::new(alloc);
    for item in items {
        filled = added(filled, fill_value(alloc, item, keys, numbers))?;
    }
    Ok(filled)
}

// A pair of these.
fn two_of(v: Result<Box<Value>, Memory>, w: Result<Box<Value>, Memory>) -> Result<Value, Memory>
    ensures { (a b : HistValue) → Makes boxed_value v a → Makes boxed_value w b → Makes hist_value_of result (pair_of a b) }
{
    match pair(v, w) {
        Ok((v, w)) => Ok(Value::Pair(v, w)),
        Err(Memory) => Err(Memory),
    }
}

// This in a sum, on the left and on the right.
fn first_of(v: Result<Box<Value>, Memory>) -> Result<Value, Memory>
    ensures { (a : HistValue) → Makes boxed_value v a → Makes hist_value_of result (left_of a) }
{
    match v {
        Ok(v) => Ok(Value::Inl(v)),
        Err(Memory) => Err(Memory),
    }
}

fn second_of(v: Result<Box<Value>, Memory>) -> Result<Value, Memory>
    ensures { (a : HistValue) → Makes boxed_value v a → Makes hist_value_of result (right_of a) }
{
    match v {
        Ok(v) => Ok(Value::Inr(v)),
        Err(Memory) => Err(Memory),
    }
}

// A list of these.
fn items_of(items: Result<Vec<Value>, Memory>) -> Result<Value, Memory>
    ensures { (vs : List HistValue) → IfOk items (λ r. map hist_value_of r.items ≡ vs) → Makes hist_value_of result (list_of vs) }
{
    match items {
        Ok(items) => Ok(Value::List(items)),
        Err(Memory) => Err(Memory),
    }
}

/// The prefix with the number beside each of its keys. Its only error is want of memory.
#[cycle(fill_prefix)]
pub fn fill_prefix(
    alloc: Global,
    p: &Prefix,
    keys: &[i64],
    numbers: &[i64],
) -> Result<Prefix, Memory>
    ensures { IfOk result (λ r. prefix_of r ≡ filled_prefix keys.now numbers.now (prefix_of p.now)) }
{
    match p {
        Prefix::EpsEmp => Ok(Prefix::EpsEmp),
        Prefix::OneEmp => Ok(Prefix::OneEmp),
        Prefix::OneFull => Ok(Prefix::OneFull),
        Prefix::IntEmp => Ok(Prefix::IntEmp),
        Prefix::IntFull(n) => Ok(Prefix::IntFull(number_at(keys, numbers, *n))),
        Prefix::Par(p, q) => par_of(
            fill_part(alloc, p, keys, numbers),
            fill_part(alloc, q, keys, numbers),
        ),
        Prefix::CatFst(p) => begun_of(fill_part(alloc, p, keys, numbers)),
        Prefix::CatBoth(p, q) => cat_of(
            fill_part(alloc, p, keys, numbers),
            fill_part(alloc, q, keys, numbers),
        ),
        Prefix::SumEmp => Ok(Prefix::SumEmp),
        Prefix::Inl(p) => inl_of(fill_part(alloc, p, keys, numbers)),
        Prefix::Inr(p) => inr_of(fill_part(alloc, p, keys, numbers)),
        Prefix::Star(items, end) => star_with(
            fill_whole(alloc, items, keys, numbers),
            fill_end(alloc, end, keys, numbers),
        ),
    }
}

#[cycle(fill_prefix)]
fn fill_part(
    alloc: Global,
    p: &Prefix,
    keys: &[i64],
    numbers: &[i64],
) -> Result<Box<Prefix>, Memory>
    ensures { Makes boxed_prefix result (filled_prefix keys.now numbers.now (prefix_of p.now)) }
{
    boxed(alloc, fill_prefix(alloc, p, keys, numbers))
}

#[cycle(fill_prefix)]
fn fill_whole(
    alloc: Global,
    items: &[Prefix],
    keys: &[i64],
    numbers: &[i64],
) -> Result<Vec<Prefix>, Memory>
    ensures { IfOk result (λ v. map prefix_of v.items ≡ map (filled_prefix keys.now numbers.now) (map prefix_of items.now)) }
{
    let mut filled = Vec::new(alloc);
    for item in items {
        filled = added(filled, fill_prefix(alloc, item, keys, numbers))?;
    }
    Ok(filled)
}

#[cycle(fill_prefix)]
fn fill_end(alloc: Global, end: &StarEnd, keys: &[i64], numbers: &[i64]) -> Result<StarEnd, Memory>
    ensures { IfOk result (λ e. end_of e ≡ filled_prefix keys.now numbers.now (end_of end.now)) }
{
    match end {
        StarEnd::Emp => Ok(StarEnd::Emp),
        StarEnd::Done => Ok(StarEnd::Done),
        StarEnd::First(p) => item_of(fill_part(alloc, p, keys, numbers)),
    }
}

// Both at once.
fn par_of(p: Result<Box<Prefix>, Memory>, q: Result<Box<Prefix>, Memory>) -> Result<Prefix, Memory>
    ensures { (a b : StreamPrefix) → Makes boxed_prefix p a → Makes boxed_prefix q b → Makes prefix_of result (par_both a b) }
{
    match pair(p, q) {
        Ok((p, q)) => Ok(Prefix::Par(p, q)),
        Err(Memory) => Err(Memory),
    }
}

// Some of the first part.
fn begun_of(p: Result<Box<Prefix>, Memory>) -> Result<Prefix, Memory>
    ensures { (a : StreamPrefix) → Makes boxed_prefix p a → Makes prefix_of result (cat_fst a) }
{
    match p {
        Ok(p) => Ok(Prefix::CatFst(p)),
        Err(Memory) => Err(Memory),
    }
}

// The first part, and some of the second.
fn cat_of(p: Result<Box<Prefix>, Memory>, q: Result<Box<Prefix>, Memory>) -> Result<Prefix, Memory>
    ensures { (a b : StreamPrefix) → Makes boxed_prefix p a → Makes boxed_prefix q b → Makes prefix_of result (cat_both a b) }
{
    match pair(p, q) {
        Ok((p, q)) => Ok(Prefix::CatBoth(p, q)),
        Err(Memory) => Err(Memory),
    }
}

// Either side of a sum.
fn inl_of(p: Result<Box<Prefix>, Memory>) -> Result<Prefix, Memory>
    ensures { (a : StreamPrefix) → Makes boxed_prefix p a → Makes prefix_of result (in_left a) }
{
    match p {
        Ok(p) => Ok(Prefix::Inl(p)),
        Err(Memory) => Err(Memory),
    }
}

fn inr_of(p: Result<Box<Prefix>, Memory>) -> Result<Prefix, Memory>
    ensures { (a : StreamPrefix) → Makes boxed_prefix p a → Makes prefix_of result (in_right a) }
{
    match p {
        Ok(p) => Ok(Prefix::Inr(p)),
        Err(Memory) => Err(Memory),
    }
}

// Whole items, and how a star goes on.
fn star_with(
    items: Result<Vec<Prefix>, Memory>,
    end: Result<StarEnd, Memory>,
) -> Result<Prefix, Memory>
    ensures { (ps : List StreamPrefix) (q : StreamPrefix) → IfOk items (λ v. map prefix_of v.items ≡ ps) → Makes end_of end q → Makes prefix_of result (star_of ps q) }
{
    match pair(items, end) {
        Ok((items, end)) => Ok(Prefix::Star(items, end)),
        Err(Memory) => Err(Memory),
    }
}

// A further item.
fn item_of(p: Result<Box<Prefix>, Memory>) -> Result<StarEnd, Memory>
    ensures { (a : StreamPrefix) → Makes boxed_prefix p a → Makes end_of result (star_first a) }
{
    match p {
        Ok(p) => Ok(StarEnd::First(p)),
        Err(Memory) => Err(Memory),
    }
}

/// The historical names with the number beside each key of their values. Its only error is want of memory.
pub fn fill_past(
    alloc: Global,
    past: &Past,
    keys: &[i64],
    numbers: &[i64],
) -> Result<Rc<Past>, Memory>
    ensures { IfOk result (λ r. known_in r.value ≡ map (exchanged_known (number_at keys.now numbers.now)) (known_in past.now)) }
{
    match past {
        Past::None => shared(alloc, Ok(Past::None)),
        Past::Known(x, t, v, older) => {
            let value = shared(alloc, fill_value(alloc, v, keys, numbers));
            behind(alloc, *x, t, value, fill_past(alloc, older, keys, numbers))
        }
    }
}

// A known name, with those that are older.
fn behind(
    alloc: Global,
    name: Name,
    t: &Ty,
    value: Result<Rc<Value>, Memory>,
    others: Result<Rc<Past>, Memory>,
) -> Result<Rc<Past>, Memory>
    ensures { (v : HistValue) (past : List KnownName) → IfOk value (λ r. hist_value_of r.value ≡ v) → IfOk others (λ r. known_in r.value ≡ past)
        → IfOk result (λ r. known_in r.value ≡ record { name = name.0; type = type_of t.now; value = v } ∷ past) }
{
    match pair(stream_type::copy(alloc, t), pair(value, others)) {
        Ok((ty, (value, others))) => shared(alloc, Ok(Past::Known(name, ty, value, others))),
        Err(Memory) => Err(Memory),
    }
}
