//! A learned step, laid on what is there now: whether it can be made again, and with which numbers.

ghost use Rattle.std.specs.Prelude.{ℤ, ◌≡◌, true, Ok, [], ◌∷◌, ◌++◌, map, All};
ghost use Rattle.hist_value.specs.Environment.{entries_of, environment_of};
ghost use Rattle.hist_value.specs.Evaluate.{value};
ghost use Rattle.hist_value.specs.HistExpr.{expr_of};
ghost use Rattle.hist_value.specs.HistValue.{hist_value_of};
ghost use Rattle.filled_states.specs.Registers.{number_at};
ghost use Rattle.other_numbers.specs.Numbers.{exchanged_value, exchanged_past};
ghost use Rattle.other_numbers.specs.EventNumbers.{exchanged_leaf, exchanged_event};
ghost use Rattle.state_shapes.specs.RegisterLists.{IsParallel, lists_in};
ghost use Rattle.state_shapes.specs.Goes.{Goes};
ghost use Rattle.learned_table.specs.StepTree.{step_of, ask_of, asked};
ghost use Rattle.learned_table.specs.Suits.{GoesAlong, SuitsNow};
ghost use Rattle.learned_table.specs.FoundNumbers.{number_in};

use crate::reckoning::{reckoned_goes, reckoned_now};
use crate::step::{LearnedAsk, LearnedStep};
use bunch::Name;
use event_word::{Event, Leaf};
use hist_value::{Expr, Value};
use state_shapes::{Found, fill_value, goes_on, number_goes, value_goes};
use std::alloc::Global;
use stream_type::Memory;

/// Whether the step can be made again with these numbers in the registers of its state, on this event, as far as this
/// tells: where it is true, what was found suits (`specs/Suits.antt`). What was found before is forgotten. Its only
/// error is want of memory.
pub fn lay(
    alloc: Global,
    step: &LearnedStep,
    numbers: &[i64],
    x: &Event,
    found: &mut Found,
) -> Result<bool, Memory>
    ensures suits { result ≡ Ok true → SuitsNow (step_of step.now) (number_in found.new) numbers.now x.now }
    ensures parallel { IsParallel (lists_in found.new) }
{
    forget(found);
    let event = event_goes(&step.event, x, found);
    let registers = numbers_go(event, &step.numbers, numbers, found);
    asks_go(alloc, registers, &step.asks, found)
}

// Forgets what was found.
fn forget(found: &mut Found)
    ensures { lists_in found.new ≡ record { keys = []; numbers = []; depth_keys = []; depths = [] } }
{
    found.keys.clear();
    found.numbers.clear();
    found.depth_keys.clear();
    found.depths.clear();
}

// The event is the one that was learned, with another number.
fn event_goes(learned: &Event, x: &Event, found: &mut Found) -> Result<bool, Memory>
    ensures { Goes (Ok true) (lists_in found.old) (lists_in found.new) result (λ l. exchanged_event (number_at l.keys l.numbers) learned.now ≡ x.now) }
{
    if learned.path() == x.path() {
        leaf_goes(learned.leaf(), x.leaf(), found)
    } else {
        Ok(false)
    }
}

// So a leaf.
fn leaf_goes(learned: Leaf, leaf: Leaf, found: &mut Found) -> Result<bool, Memory>
    ensures { Goes (Ok true) (lists_in found.old) (lists_in found.new) result (λ l. exchanged_leaf (number_at l.keys l.numbers) learned ≡ leaf) }
{
    match (learned, leaf) {
        (Leaf::Int(key), Leaf::Int(number)) => number_goes(Ok(true), key, number, found),
        _ => Ok(is_same(learned, leaf)),
    }
}

// Whether both are the same leaf, without a number.
fn is_same(learned: Leaf, leaf: Leaf) -> bool
    ensures { (f : ℤ → ℤ) → result ≡ true → exchanged_leaf f learned ≡ leaf }
{
    matches!(
        (learned, leaf),
        (Leaf::One, Leaf::One)
            | (Leaf::Inl, Leaf::Inl)
            | (Leaf::Inr, Leaf::Inr)
            | (Leaf::Cut, Leaf::Cut)
            | (Leaf::Item, Leaf::Item)
            | (Leaf::End, Leaf::End)
    )
}

// Each key has the number at its place, and there are as many.
fn numbers_go(
    before: Result<bool, Memory>,
    keys: &[i64],
    numbers: &[i64],
    found: &mut Found,
) -> Result<bool, Memory>
    ensures { Goes before (lists_in found.old) (lists_in found.new) result (λ l. map (number_at l.keys l.numbers) keys.now ≡ numbers.now) }
{
    if !goes_on(&before) {
        return before;
    }
    let mut others = numbers;
    for key in keys {
        let Some((number, rest)) = others.split_first() else {
            return Ok(false);
        };
        let so_far = number_goes(Ok(true), *key, *number, found);
        if !goes_on(&so_far) {
            return so_far;
        }
        others = rest;
    }
    Ok(others.is_empty())
}

// All that is evaluated goes along, behind what was laid before.
fn asks_go(
    alloc: Global,
    before: Result<bool, Memory>,
    asks: &[LearnedAsk],
    found: &mut Found,
) -> Result<bool, Memory>
    ensures { Goes before (lists_in found.old) (lists_in found.new) result (λ l. All (GoesAlong (number_at l.keys l.numbers)) (map ask_of asks.now)) }
{
    if !goes_on(&before) {
        return before;
    }
    for ask in asks {
        let so_far = ask_goes(alloc, ask, found);
        if !goes_on(&so_far) {
            return so_far;
        }
    }
    Ok(true)
}

// What was asked goes along.
fn ask_goes(alloc: Global, ask: &LearnedAsk, found: &mut Found) -> Result<bool, Memory>
    ensures { Goes (Ok true) (lists_in found.old) (lists_in found.new) result (λ l. GoesAlong (number_at l.keys l.numbers) (ask_of ask.now)) }
{
    expression_goes(alloc, Ok(true), &ask.expr, &ask.past, &ask.value, found)
}

// An expression that saw these values goes along: the parts of a pair one after the other, what is reckoned of numbers
// alone where it stands, and all else with a value for each part.
fn expression_goes(
    alloc: Global,
    before: Result<bool, Memory>,
    e: &Expr,
    past: &[(Name, Value)],
    learned: &Value,
    found: &mut Found,
) -> Result<bool, Memory>
    ensures { Goes before (lists_in found.old) (lists_in found.new) result (λ l. GoesAlong (number_at l.keys l.numbers) (asked (expr_of e.now) (environment_of past.now) (hist_value_of learned.now))) }
{
    if !goes_on(&before) {
        return before;
    }
    if let (Expr::Pair(a, b), Value::Pair(v, w)) = (e, learned) {
        let first = expression_goes(alloc, Ok(true), a, past, v, found);
        return expression_goes(alloc, first, b, past, w, found);
    }
    match reckoned_now(e, past, found) {
        Some(now) => reckoned_goes(learned, now, found),
        None => evaluated_goes(alloc, e, past, learned, found),
    }
}

// So it goes along where it is evaluated with the values that it saw, with the numbers that were found, and what it had
// is laid on what it has.
fn evaluated_goes(
    alloc: Global,
    e: &Expr,
    past: &[(Name, Value)],
    learned: &Value,
    found: &mut Found,
) -> Result<bool, Memory>
    ensures { Goes (Ok true) (lists_in found.old) (lists_in found.new) result (λ l. GoesAlong (number_at l.keys l.numbers) (asked (expr_of e.now) (environment_of past.now) (hist_value_of learned.now))) }
{
    let mut seen = Vec::new(alloc);
    let before = past_goes(alloc, past, &mut seen, found);
    has_value(alloc, before, e, &seen, learned, found)
}

// Puts the values with the numbers that were found behind each other, each beside its name. What no number was found
// for has one from now on.
fn past_goes(
    alloc: Global,
    past: &[(Name, Value)],
    seen: &mut Vec<(Name, Value)>,
    found: &mut Found,
) -> Result<bool, Memory>
    requires { seen.old.items ≡ [] }
    ensures { Goes (Ok true) (lists_in found.old) (lists_in found.new) result (λ l. environment_of seen.new.items ≡ exchanged_past (number_at l.keys l.numbers) (environment_of past.now)) }
{
    for (name, v) in past {
        let so_far = name_goes(alloc, *name, v, seen, found);
        if !goes_on(&so_far) {
            return so_far;
        }
    }
    Ok(true)
}

// Puts a value with the numbers that were found behind these, beside its name.
fn name_goes(
    alloc: Global,
    name: Name,
    v: &Value,
    seen: &mut Vec<(Name, Value)>,
    found: &mut Found,
) -> Result<bool, Memory>
    ensures { Goes (Ok true) (lists_in found.old) (lists_in found.new) result (λ l. entries_of seen.new.items ≡ entries_of seen.old.items ++ (name.0, exchanged_value (number_at l.keys l.numbers) (hist_value_of v.now)) ∷ []) }
{
    match fill_value(alloc, v, &found.keys, &found.numbers) {
        Ok(made) => {
            let before = value_goes(Ok(true), v, &made, found);
            put_behind(before, name, made, seen)
        }
        Err(Memory) => Err(Memory),
    }
}

// Puts a value behind these, beside its name.
fn put_behind(
    before: Result<bool, Memory>,
    name: Name,
    made: Value,
    seen: &mut Vec<(Name, Value)>,
) -> Result<bool, Memory>
    ensures { result ≡ Ok true → (before ≡ Ok true) × (seen.new.items ≡ seen.old.items ++ (name, made) ∷ []) }
{
    match seen.push((name, made)) {
        Ok(()) => before,
        Err(failed) => {
            drop(failed);
            Err(Memory)
        }
    }
}

// The expression has the value that it had, with the numbers that were found in it, where it sees these.
fn has_value(
    alloc: Global,
    before: Result<bool, Memory>,
    e: &Expr,
    seen: &[(Name, Value)],
    learned: &Value,
    found: &mut Found,
) -> Result<bool, Memory>
    ensures { Goes before (lists_in found.old) (lists_in found.new) result (λ l. value (expr_of e.now) (environment_of seen.now) ≡ exchanged_value (number_at l.keys l.numbers) (hist_value_of learned.now)) }
{
    if !goes_on(&before) {
        return before;
    }
    match hist_value::value(alloc, e, seen) {
        Ok(v) => value_goes(Ok(true), learned, &v, found),
        Err(Memory) => Err(Memory),
    }
}
