//! The type of a stream's history, and which values are of a type.

ghost use Rattle.std.specs.Prelude.{◌≡◌, ◌↔◌, map, IfOk, IsTrue};
ghost use Rattle.stream_type.specs.StreamType.{type_of};
ghost use Rattle.hist_value.specs.HistType.{hist_type_of, past, list_type};
ghost use Rattle.hist_value.specs.HistValue.{hist_value_of, list_of, HasType};

use crate::hist_type::HTy;
use crate::history::Value;
use std::alloc::Global;
use stream_type::{Memory, Ty};

/// The type of the values of whole streams of type `t`: `past` in `specs/HistType.antt`. Its only
/// error is want of memory.
pub fn past(alloc: Global, t: &Ty) -> Result<HTy, Memory>
    ensures { IfOk result (λ r. hist_type_of r ≡ past (type_of t.now)) }
{
    match t {
        Ty::Eps | Ty::One => Ok(HTy::Unit),
        Ty::Int => Ok(HTy::Int),
        Ty::Cat(s, t) | Ty::Par(s, t) => {
            let (s, t) = (past(alloc, s)?, past(alloc, t)?);
            Ok(HTy::Pair(Box::new(alloc, s)?, Box::new(alloc, t)?))
        }
        Ty::Sum(s, t) => {
            let (s, t) = (past(alloc, s)?, past(alloc, t)?);
            Ok(HTy::Sum(Box::new(alloc, s)?, Box::new(alloc, t)?))
        }
        Ty::Star(s) => Ok(HTy::List(Box::new(alloc, past(alloc, s)?)?)),
    }
}

/// Whether `v` is a value of type `t`: `HasType` in `specs/HistValue.antt`.
#[cycle(has_type)]
#[tactic(auto, using(crate::proofs::Rows::rows))]
pub fn has_type(v: &Value, t: &HTy) -> bool
    ensures { IsTrue result ↔ HasType (hist_type_of t.now) (hist_value_of v.now) }
{
    match v {
        Value::Unit => matches!(t, HTy::Unit),
        Value::Int(_) => matches!(t, HTy::Int),
        Value::Pair(v, w) => match t {
            HTy::Pair(s, t) => has_type(v, s) && has_type(w, t),
            _ => false,
        },
        Value::Inl(v) => match t {
            HTy::Sum(s, _) => has_type(v, s),
            _ => false,
        },
        Value::Inr(v) => match t {
            HTy::Sum(_, t) => has_type(v, t),
            _ => false,
        },
        Value::List(items) => match t {
            HTy::List(s) => all_have(items, s),
            _ => false,
        },
    }
}

// Whether each item has the type.
#[cycle(has_type)]
fn all_have(items: &[Value], s: &HTy) -> bool
    ensures { IsTrue result ↔ HasType (list_type (hist_type_of s.now)) (list_of (map hist_value_of items.now)) }
{
    for item in items {
        if !has_type(item, s) {
            return false;
        }
    }
    true
}
