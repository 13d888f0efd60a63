//! What a step asks, with the value that each expression has.

ghost use Rattle.std.specs.Prelude.{map, IfOk};
ghost use Rattle.stream_prefix.specs.Tree.{prefix_of};
ghost use Rattle.state_asks.specs.Asking.{asked_in};
ghost use Rattle.step_learning.specs.AsksOf.{AskOf, AsksOf};
ghost use Rattle.step_learning.specs.Tries.{asked_on};

use delta_code::entries_in;
use hist_value::{copy_expr, value};
use learned_table::LearnedAsk;
use machine_parts::stop::{LEVELS, Stop};
use state_asks::{Ask, asks};
use stations::Standing;
use std::alloc::Global;
use stream_prefix::Prefix;
use stream_type::Memory;
use template_state::Code;

/// What the state in hand asks on what comes, each with its value. It is `Spent` or `Deep` where the walk that finds it
/// is, which may be of a state whose own step ends in time. Its other error is want of memory.
pub(crate) fn asked(
    alloc: Global,
    code: &Code,
    run: &Standing,
    next: &Prefix,
    budget: u64,
) -> Result<Vec<LearnedAsk>, Stop>
    ensures { IfOk result (λ v. AsksOf (asked_on code.now run.now (prefix_of next.now)) v.items) }
{
    let found = asks(
        alloc,
        code,
        &run.awaited,
        next,
        &run.state,
        &run.output,
        budget,
        LEVELS,
    )?;
    Ok(with_values(alloc, &found)?)
}

// Each of these expressions with its value.
fn with_values(alloc: Global, found: &[Ask]) -> Result<Vec<LearnedAsk>, Memory>
    ensures { IfOk result (λ v. AsksOf (map asked_in found.now) v.items) }
{
    let mut learned = Vec::new(alloc);
    for ask in found {
        learned.push(with_value(alloc, ask)?)?;
    }
    Ok(learned)
}

// An expression with the values that it sees, and the value that it has.
fn with_value(alloc: Global, ask: &Ask) -> Result<LearnedAsk, Memory>
    ensures { IfOk result (AskOf (asked_in ask.now)) }
{
    let past = entries_in(alloc, &ask.past)?;
    let value = value(alloc, &ask.expr, &past)?;
    let expr = copy_expr(alloc, &ask.expr)?;
    Ok(LearnedAsk { expr, past, value })
}
