//! Registers that are found where a shape is laid on a state.

ghost use Rattle.std.specs.Prelude.{◌≡◌, ◌↔◌, true, Ok, [], ◌∷◌, ◌++◌, IsTrue, MatchResult};
ghost use Rattle.filled_states.specs.Registers.{number_at, depth_at};
ghost use Rattle.state_shapes.specs.RegisterLists.{lists_in};
ghost use Rattle.state_shapes.specs.Goes.{Goes};

use crate::registers::beside;
use std::alloc::Global;
use stream_type::Memory;

/// Keys with the numbers that were found for them, and keys with the depths, in the order in which they were found.
/// Contracts see it as `RegisterLists` by `lists_in` (`specs/RegisterLists.antt`).
#[derive(Drop)]
pub struct Found {
    /// The keys of numbers.
    pub keys: Vec<i64>,
    /// The number of each.
    pub numbers: Vec<i64>,
    /// The keys of depths.
    pub depth_keys: Vec<u64>,
    /// The depth of each.
    pub depths: Vec<u64>,
}

/// Nothing found yet.
pub fn nothing(alloc: Global) -> Found
    ensures { lists_in result ≡ record { keys = []; numbers = []; depth_keys = []; depths = [] } }
{
    Found {
        keys: Vec::new(alloc),
        numbers: Vec::new(alloc),
        depth_keys: Vec::new(alloc),
        depths: Vec::new(alloc),
    }
}

/// Whether it goes on behind this.
pub fn goes_on(before: &Result<bool, Memory>) -> bool
    ensures { IsTrue result ↔ (before.now ≡ Ok true) }
{
    match before {
        Ok(yes) => *yes,
        Err(_) => false,
    }
}

/// Whether the key has this number. Where it had none before, it has from now on. Its only error is want of memory.
pub fn number_goes(
    before: Result<bool, Memory>,
    key: i64,
    number: i64,
    found: &mut Found,
) -> Result<bool, Memory>
    ensures { Goes before (lists_in found.old) (lists_in found.new) result (λ l. number ≡ number_at l.keys l.numbers key) }
{
    if !goes_on(&before) {
        return before;
    }
    match beside(&found.keys, &found.numbers, key) {
        Some(other) => { if other == number { Ok(true) } else { Ok(false) } }
        None => add(&mut found.keys, &mut found.numbers, key, number),
    }
}

/// Whether the key has this depth. Where it had none before, it has from now on. Its only error is want of memory.
pub fn depth_goes(
    before: Result<bool, Memory>,
    key: u64,
    depth: u64,
    found: &mut Found,
) -> Result<bool, Memory>
    ensures { Goes before (lists_in found.old) (lists_in found.new) result (λ l. depth ≡ depth_at l.depth_keys l.depths key) }
{
    if !goes_on(&before) {
        return before;
    }
    match beside(&found.depth_keys, &found.depths, key) {
        Some(other) => { if other == depth { Ok(true) } else { Ok(false) } }
        None => add(&mut found.depth_keys, &mut found.depths, key, depth),
    }
}

// Puts a key and what stands beside it behind these, both or neither.
fn add<T: Copy>(keys: &mut Vec<T>, values: &mut Vec<T>, key: T, value: T) -> Result<bool, Memory>
    ensures { MatchResult result (λ yes. (yes ≡ true) × (keys.new.items ≡ keys.old.items ++ key ∷ []) × (values.new.items ≡ values.old.items ++ value ∷ [])) (λ _. (keys.new.items ≡ keys.old.items) × (values.new.items ≡ values.old.items)) }
{
    match keys.push(key) {
        Ok(()) => match values.push(value) {
            Ok(()) => Ok(true),
            Err(failed) => {
                drop(failed);
                keys.pop();
                Err(Memory)
            }
        },
        Err(failed) => {
            drop(failed);
            Err(Memory)
        }
    }
}
