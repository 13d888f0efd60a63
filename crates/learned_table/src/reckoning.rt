//! What a step asked, where it is reckoned of numbers alone: it is reckoned where it stands, without a value for each part.

ghost use Rattle.std.specs.Prelude.{ℤ, ◌≡◌, true, Ok, IfSome, IsSomeAnd};
ghost use Rattle.hist_value.specs.Environment.{environment_of};
ghost use Rattle.hist_value.specs.Evaluate.{value, reckon, quotient, truth, first_of, second_of};
ghost use Rattle.hist_value.specs.HistExpr.{expr_of};
ghost use Rattle.hist_value.specs.HistValue.{hist_value_of, number, unit_value};
ghost use Rattle.filled_states.specs.Registers.{number_at};
ghost use Rattle.other_numbers.specs.Numbers.{exchanged_value, exchanged_past};
ghost use Rattle.state_shapes.specs.RegisterLists.{RegisterLists, Longer, lists_in};
ghost use Rattle.state_shapes.specs.Goes.{Goes};
ghost use Rattle.learned_table.specs.Reckoned.{HasNow, IsReckoned, reckoned_value};

use bunch::Name;
use hist_value::{Expr, Op, Value, quotient};
use state_shapes::{Found, beside, number_goes};
use stream_type::Memory;

/// What is reckoned of numbers. Contracts see it as a value by `reckoned_value` (`specs/Reckoned.antt`).
#[derive(Clone, Copy)]
pub(crate) enum Reckoned {
    /// A number.
    Number(i64),
    /// Whether a test holds.
    Test(bool),
}

/// What an expression has now that saw these values, where it is reckoned of numbers alone and each was found.
pub(crate) fn reckoned_now(e: &Expr, past: &[(Name, Value)], found: &Found) -> Option<Reckoned>
    ensures { IfSome result (λ r. HasNow (lists_in found.now) (expr_of e.now) (environment_of past.now) (reckoned_value r)) }
{
    match e {
        Expr::Lit(n) => Some(Reckoned::Number(*n)),
        Expr::Bin(op, a, b) => {
            both_now(
                *op,
                reckoned_now(a, past, found),
                reckoned_now(b, past, found),
            )
        }
        _ => number_now(seen(e, past), found),
    }
}

// What is reckoned with two, where both are numbers.
fn both_now(op: Op, a: Option<Reckoned>, b: Option<Reckoned>) -> Option<Reckoned>
    ensures { IfSome result (IsReckoned op a b) }
{
    match (a, b) {
        (Some(Reckoned::Number(a)), Some(Reckoned::Number(b))) => Some(reckon(op, a, b)),
        _ => None,
    }
}

// What is reckoned with two numbers.
fn reckon(op: Op, a: i64, b: i64) -> Reckoned
    ensures { reckoned_value result ≡ reckon op a b }
{
    match op {
        Op::Add => Reckoned::Number(a.saturating_add(b)),
        Op::Sub => Reckoned::Number(a.saturating_sub(b)),
        Op::Mul => Reckoned::Number(a.saturating_mul(b)),
        Op::Div => Reckoned::Number(quotient(a, b)),
        Op::Less => Reckoned::Test(a < b),
        Op::Same => Reckoned::Test(a == b),
    }
}

// The number that was found for what was seen, where that is one.
fn number_now(seen: Option<&Value>, found: &Found) -> Option<Reckoned>
    ensures { IfSome result (λ r. IsSomeAnd seen.entry (λ v. (x : RegisterLists) → Longer (lists_in found.now) x → exchanged_value (number_at x.keys x.numbers) (hist_value_of v.now) ≡ reckoned_value r)) }
{
    match seen {
        Some(v) => key_now(v, found),
        None => None,
    }
}

// The number that was found for what was a number.
fn key_now(v: &Value, found: &Found) -> Option<Reckoned>
    ensures { IfSome result (λ r. (x : RegisterLists) → Longer (lists_in found.now) x → exchanged_value (number_at x.keys x.numbers) (hist_value_of v.now) ≡ reckoned_value r) }
{
    match v {
        Value::Int(key) => found_now(*key, found),
        _ => None,
    }
}

// The number that was found for a key.
fn found_now(key: i64, found: &Found) -> Option<Reckoned>
    ensures { IfSome result (λ r. (x : RegisterLists) → Longer (lists_in found.now) x → number (number_at x.keys x.numbers key) ≡ reckoned_value r) }
{
    match beside(&found.keys, &found.numbers, key) {
        Some(n) => Some(Reckoned::Number(n)),
        None => None,
    }
}

// What a name stood for, or a part of it.
fn seen<'a>(e: &Expr, past: &'a [(Name, Value)]) -> Option<&'a Value>
    ensures { IfSome result (λ v. (f : ℤ → ℤ) → value (expr_of e.now) (exchanged_past f (environment_of past.now)) ≡ exchanged_value f (hist_value_of v.now)) }
{
    match e {
        Expr::Var(x) => last_at(*x, past),
        Expr::Fst(a) => first_of(seen(a, past)),
        Expr::Snd(a) => second_of(seen(a, past)),
        _ => None,
    }
}

// The first value of a pair.
fn first_of(pair: Option<&Value>) -> Option<&Value>
    ensures { IfSome result (λ v. IsSomeAnd pair.entry (λ p. first_of (hist_value_of p.now) ≡ hist_value_of v.now)) }
{
    match pair {
        Some(Value::Pair(v, _)) => Some(v),
        _ => None,
    }
}

// The second value of a pair.
fn second_of(pair: Option<&Value>) -> Option<&Value>
    ensures { IfSome result (λ v. IsSomeAnd pair.entry (λ p. second_of (hist_value_of p.now) ≡ hist_value_of v.now)) }
{
    match pair {
        Some(Value::Pair(_, w)) => Some(w),
        _ => None,
    }
}

// The value of the last entry at a name, if there is one.
fn last_at(name: Name, past: &[(Name, Value)]) -> Option<&Value>
    ensures { IfSome result (λ v. environment_of past.now name.0 ≡ hist_value_of v.now) }
{
    let mut found = None;
    for entry in past {
        if name.0 == entry.0.0 {
            found = Some(&entry.1);
        }
    }
    found
}

/// Whether what is reckoned now is what there was, with the numbers that are found for those in it.
pub(crate) fn reckoned_goes(
    learned: &Value,
    now: Reckoned,
    found: &mut Found,
) -> Result<bool, Memory>
    ensures { Goes (Ok true) (lists_in found.old) (lists_in found.new) result (λ l. reckoned_value now ≡ exchanged_value (number_at l.keys l.numbers) (hist_value_of learned.now)) }
{
    match now {
        Reckoned::Number(n) => number_reckoned(learned, n, found),
        Reckoned::Test(holds) => Ok(is_test(learned, holds)),
    }
}

// Whether there was a number, which this one is found for.
fn number_reckoned(learned: &Value, n: i64, found: &mut Found) -> Result<bool, Memory>
    ensures { Goes (Ok true) (lists_in found.old) (lists_in found.new) result (λ l. number n ≡ exchanged_value (number_at l.keys l.numbers) (hist_value_of learned.now)) }
{
    match learned {
        Value::Int(key) => number_goes(Ok(true), *key, n, found),
        _ => Ok(false),
    }
}

// Whether there was a test that held so.
fn is_test(learned: &Value, holds: bool) -> bool
    ensures { (f : ℤ → ℤ) → result ≡ true → truth holds ≡ exchanged_value f (hist_value_of learned.now) }
{
    match learned {
        Value::Inl(unit) => holds && is_unit(unit),
        Value::Inr(unit) => !holds && is_unit(unit),
        _ => false,
    }
}

// Whether a value is the one that carries nothing.
fn is_unit(v: &Value) -> bool
    ensures { result ≡ true → hist_value_of v.now ≡ unit_value }
{
    match v {
        Value::Unit => true,
        _ => false,
    }
}
