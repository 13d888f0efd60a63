//! A shape laid on a state: the registers with which it is the state.

ghost use Rattle.std.specs.Prelude.{◌≡◌, Ok, true, IfOk, OnOk, IfSome};
ghost use Rattle.template_state.specs.Readers.{state_in};
ghost use Rattle.state_shapes.specs.RegisterLists.{lists_in};
ghost use Rattle.stations.specs.Lies.{Lies, SomeBeside, SomeMore};

use state_shapes::{Found, match_state, nothing};
use std::alloc::Global;
use stream_type::Memory;
use template_state::Live;

/// The registers with which the shape is the state, some of each, where it is. Where it has no key of a number, or of
/// a depth, there is a key 0 that it doesn't need. Its only error is want of memory.
pub fn laid_on(alloc: Global, shape: &Live, state: &Live) -> Result<Option<Found>, Memory>
    ensures { IfOk result (λ r. IfSome r (λ found. Lies (state_in shape.now) (state_in state.now) (lists_in found))) }
{
    let mut found = nothing(alloc);
    let fits = match_state(shape, state, &mut found);
    let whole = some_registers(fits, &mut found);
    where_true(whole, found)
}

// At least one register of each kind, where it goes on.
fn some_registers(before: Result<bool, Memory>, found: &mut Found) -> Result<bool, Memory>
    ensures { result ≡ Ok true → SomeMore before (lists_in found.old) (lists_in found.new) }
{
    match before {
        Ok(true) => {
            some_beside(&mut found.keys, &mut found.numbers, 0)?;
            some_beside(&mut found.depth_keys, &mut found.depths, 0)?;
            Ok(true)
        }
        other => other,
    }
}

// A key with what stands beside it, where there is none.
fn some_beside<T: Copy>(keys: &mut Vec<T>, values: &mut Vec<T>, first: T) -> Result<(), Memory>
    ensures { OnOk result (SomeBeside keys.old.items values.old.items keys.new.items values.new.items) }
{
    if !values.is_empty() {
        return Ok(());
    }
    keys.push(first)?;
    values.push(first)?;
    Ok(())
}

// This, where the answer is yes.
fn where_true<T: Drop>(answer: Result<bool, Memory>, value: T) -> Result<Option<T>, Memory>
    ensures { IfOk result (λ r. IfSome r (λ x. (x ≡ value) × (answer ≡ Ok true))) }
{
    match answer {
        Ok(true) => Ok(Some(value)),
        Ok(false) => {
            drop(value);
            Ok(None)
        }
        Err(Memory) => {
            drop(value);
            Err(Memory)
        }
    }
}
