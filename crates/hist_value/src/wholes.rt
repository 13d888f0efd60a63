//! The value of a whole stream, and the whole stream of a value.

ghost use Rattle.std.specs.Prelude.{◌≡◌, map, IfOk};
ghost use Rattle.stream_type.specs.StreamType.{type_of};
ghost use Rattle.stream_prefix.specs.Tree.{prefix_of};
ghost use Rattle.hist_value.specs.HistValue.{hist_value_of};
ghost use Rattle.hist_value.specs.Wholes.{value_of, full};

use crate::history::Value;
use std::alloc::Global;
use stream_prefix::{Prefix, StarEnd};
use stream_type::{Memory, Ty};

/// The value of a whole stream: `value_of` in `specs/Wholes.antt`. It means this where `p` is
/// maximal. Its only error is want of memory.
#[cycle(value_of)]
#[tactic(auto, using(crate::proofs::Lists::lists))]
pub fn value_of(alloc: Global, p: &Prefix) -> Result<Value, Memory>
    ensures { IfOk result (λ v. hist_value_of v ≡ value_of (prefix_of p.now)) }
{
    match p {
        Prefix::EpsEmp | Prefix::OneFull => Ok(Value::Unit),
        Prefix::IntFull(n) => Ok(Value::Int(*n)),
        Prefix::Par(p, q) | Prefix::CatBoth(p, q) => {
            let (v, w) = (value_of(alloc, p)?, value_of(alloc, q)?);
            Ok(Value::Pair(Box::new(alloc, v)?, Box::new(alloc, w)?))
        }
        Prefix::Inl(p) => Ok(Value::Inl(Box::new(alloc, value_of(alloc, p)?)?)),
        Prefix::Inr(p) => Ok(Value::Inr(Box::new(alloc, value_of(alloc, p)?)?)),
        Prefix::Star(items, _) => Ok(Value::List(values_of(alloc, items)?)),
        Prefix::OneEmp | Prefix::IntEmp | Prefix::CatFst(_) | Prefix::SumEmp => Ok(Value::Unit),
    }
}

// The values of whole items.
#[cycle(value_of)]
fn values_of(alloc: Global, items: &[Prefix]) -> Result<Vec<Value>, Memory>
    ensures { IfOk result (λ r. map hist_value_of r.items ≡ map value_of (map prefix_of items.now)) }
{
    let mut values = Vec::new(alloc);
    for item in items {
        values.push(value_of(alloc, item)?)?;
    }
    Ok(values)
}

/// The one maximal prefix of a stream of type `t` that has the value `v`: `full` in
/// `specs/Wholes.antt`. It means this where `v` is of the type `past(t)`. Its only error is want of
/// memory.
#[cycle(full)]
#[tactic(auto, using(crate::proofs::Lists::lists))]
pub fn full(alloc: Global, t: &Ty, v: &Value) -> Result<Prefix, Memory>
    ensures { IfOk result (λ p. prefix_of p ≡ full (type_of t.now) (hist_value_of v.now)) }
{
    match t {
        Ty::Eps => Ok(Prefix::EpsEmp),
        Ty::One => Ok(Prefix::OneFull),
        Ty::Int => match v {
            Value::Int(n) => Ok(Prefix::IntFull(*n)),
            _ => Ok(Prefix::IntEmp),
        },
        Ty::Cat(s, u) => match v {
            Value::Pair(v, w) => {
                let (p, q) = (full(alloc, s, v)?, full(alloc, u, w)?);
                Ok(Prefix::CatBoth(Box::new(alloc, p)?, Box::new(alloc, q)?))
            }
            _ => stream_prefix::empty(alloc, t),
        },
        Ty::Par(s, u) => match v {
            Value::Pair(v, w) => {
                let (p, q) = (full(alloc, s, v)?, full(alloc, u, w)?);
                Ok(Prefix::Par(Box::new(alloc, p)?, Box::new(alloc, q)?))
            }
            _ => stream_prefix::empty(alloc, t),
        },
        Ty::Sum(s, u) => match v {
            Value::Inl(v) => Ok(Prefix::Inl(Box::new(alloc, full(alloc, s, v)?)?)),
            Value::Inr(v) => Ok(Prefix::Inr(Box::new(alloc, full(alloc, u, v)?)?)),
            _ => Ok(Prefix::Inr(Box::new(alloc, full(alloc, u, v)?)?)),
        },
        Ty::Star(s) => match v {
            Value::List(items) => Ok(Prefix::Star(full_items(alloc, s, items)?, StarEnd::Done)),
            Value::Unit | Value::Int(_) | Value::Pair(_, _) | Value::Inl(_) | Value::Inr(_) => {
                Ok(Prefix::Star(Vec::new(alloc), StarEnd::Done))
            }
        },
    }
}

// The whole items that have these values.
#[cycle(full)]
fn full_items(alloc: Global, s: &Ty, items: &[Value]) -> Result<Vec<Prefix>, Memory>
    ensures { IfOk result (λ r. map prefix_of r.items ≡ map (full (type_of s.now)) (map hist_value_of items.now)) }
{
    let mut wholes = Vec::new(alloc);
    for item in items {
        wholes.push(full(alloc, s, item)?)?;
    }
    Ok(wholes)
}
