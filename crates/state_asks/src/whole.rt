//! What a step asks on what comes of the input.

ghost use Rattle.std.specs.Prelude.{◌≡◌, map, IfOk};
ghost use Rattle.stream_type.specs.StreamType.{type_of};
ghost use Rattle.stream_prefix.specs.Tree.{prefix_of};
ghost use Rattle.delta_state.specs.StateMeaning.{types_held, prefixes_held};
ghost use Rattle.machine_parts.specs.AwaitedTree.{awaited_in, entries_on};
ghost use Rattle.template_state.specs.Readers.{state_in};
ghost use Rattle.other_numbers.specs.StateAsked.{asked_of};
ghost use Rattle.delta_code.specs.Steps.{funs_of};
ghost use Rattle.state_asks.specs.Asking.{asked_in};

use crate::ask::Ask;
use crate::states::add_asks_of_state;
use machine_parts::awaited::{Awaited, entries};
use machine_parts::scope::Scope;
use machine_parts::stop::Stop;
use std::alloc::Global;
use stream_prefix::Prefix;
use stream_type::Ty;
use template_state::{Code, Live};

/// What a state asks on what comes next, where so much is awaited and this type is left of its output, in the order
/// of its run. Its errors are those of steps of its parts, with so many calls left and so many levels; `Spent` where
/// more calls stand inside one another than are left, and `Deep` where more do than there are levels, so this may
/// come of a state whose own step isn't too deep. What can't come, and a depth that isn't above the calls left, count
/// as want of memory.
pub fn asks(
    alloc: Global,
    code: &Code,
    awaited: &Awaited,
    next: &Prefix,
    state: &Live,
    output: &Ty,
    left: u64,
    levels: u64,
) -> Result<Vec<Ask>, Stop>
    ensures { IfOk result (λ v. map asked_in v.items ≡ asked_of (funs_of code.now) (state_in state.now) (types_held (entries_on (awaited_in awaited.now) (prefix_of next.now))) (type_of output.now) (prefixes_held (entries_on (awaited_in awaited.now) (prefix_of next.now)))) }
{
    let entries = entries(alloc, awaited, next)?;
    let scope = Scope::Names(&entries);
    let mut found = Vec::new(alloc);
    add_asks_of_state(alloc, code, &scope, state, output, left, levels, &mut found)?;
    Ok(found)
}
