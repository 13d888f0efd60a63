//! What is reckoned with two numbers, and the parts of a pair.

ghost use Rattle.std.specs.Prelude.{◌≡◌, IfOk};
ghost use Rattle.hist_value.specs.Evaluate.{reckon, reckon_values, quotient, truth, first_of, second_of};
ghost use Rattle.hist_value.specs.HistValue.{hist_value_of};

use crate::expr::Op;
use crate::history::Value;
use std::alloc::Global;
use stream_type::Memory;

/// What is reckoned with two values. Its only error is want of memory.
#[tactic(auto, using(crate::proofs::ListForms::list_forms))]
pub fn reckon_values(alloc: Global, op: Op, v: &Value, w: &Value) -> Result<Value, Memory>
    ensures { IfOk result (λ r. hist_value_of r ≡ reckon_values op (hist_value_of v.now) (hist_value_of w.now)) }
{
    match v {
        Value::Int(a) => match w {
            Value::Int(b) => reckon(alloc, op, *a, *b),
            Value::Unit | Value::Pair(_, _) | Value::Inl(_) | Value::Inr(_) | Value::List(_) => {
                Ok(Value::Unit)
            }
        },
        Value::Unit | Value::Pair(_, _) | Value::Inl(_) | Value::Inr(_) | Value::List(_) => {
            Ok(Value::Unit)
        }
    }
}

// What is reckoned with two numbers.
fn reckon(alloc: Global, op: Op, a: i64, b: i64) -> Result<Value, Memory>
    ensures { IfOk result (λ r. hist_value_of r ≡ reckon op a b) }
{
    match op {
        Op::Add => Ok(Value::Int(a.saturating_add(b))),
        Op::Sub => Ok(Value::Int(a.saturating_sub(b))),
        Op::Mul => Ok(Value::Int(a.saturating_mul(b))),
        Op::Div => Ok(Value::Int(quotient(a, b))),
        Op::Less => truth(alloc, a < b),
        Op::Same => truth(alloc, a == b),
    }
}

/// The quotient, cut towards zero and held within 64 bits; by 0 it is 0: `quotient` in `specs/Evaluate.antt`.
pub fn quotient(a: i64, b: i64) -> i64
    ensures { result ≡ quotient a b }
{
    if b == 0 { 0 } else { a.saturating_div(b) }
}

// The value of a test.
fn truth(alloc: Global, holds: bool) -> Result<Value, Memory>
    ensures { IfOk result (λ r. hist_value_of r ≡ truth holds) }
{
    let unit = Box::new(alloc, Value::Unit)?;
    if holds {
        Ok(Value::Inl(unit))
    } else {
        Ok(Value::Inr(unit))
    }
}

/// The first value of a pair.
#[tactic(auto, using(crate::proofs::ListForms::list_forms))]
pub fn first_of(pair: Value) -> Value
    ensures { hist_value_of result ≡ first_of (hist_value_of pair) }
{
    match pair {
        Value::Pair(v, _) => Box::into_inner(v),
        Value::Unit | Value::Int(_) | Value::Inl(_) | Value::Inr(_) | Value::List(_) => Value::Unit,
    }
}

/// The second value of a pair.
#[tactic(auto, using(crate::proofs::ListForms::list_forms))]
pub fn second_of(pair: Value) -> Value
    ensures { hist_value_of result ≡ second_of (hist_value_of pair) }
{
    match pair {
        Value::Pair(_, w) => Box::into_inner(w),
        Value::Unit | Value::Int(_) | Value::Inl(_) | Value::Inr(_) | Value::List(_) => Value::Unit,
    }
}
