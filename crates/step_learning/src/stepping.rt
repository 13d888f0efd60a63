//! The step of what is in hand.

ghost use Rattle.std.specs.Prelude.{IfOk, IfSome, OnOk};
ghost use Rattle.stream_prefix.specs.Tree.{prefix_of};
ghost use Rattle.step_learning.specs.Tries.{Makes, MovesOn};

use crate::saying::said;
use delta_code::step_awaiting;
use event_word::Event;
use in_place::go_behind;
use machine_parts::awaited::go_on;
use machine_parts::stop::Stop;
use stations::Standing;
use std::alloc::Global;
use stream_prefix::Prefix;
use stream_type::Memory;
use template_state::{Code, settle};

/// What a step says, and how many calls it made.
#[derive(Drop)]
pub(crate) struct Answer {
    pub(crate) said: Vec<Event>,
    pub(crate) calls: u64,
}

/// Makes the step of what is in hand on what comes, in place: its state goes on by its run, and then into a simpler
/// form. None where what it says has no word (`said`). It is `Spent` or `Deep` where the run makes more calls than the
/// budget, or one at too great a level; its other error is want of memory. Without an answer what is in hand is spent.
pub(crate) fn make_step(
    alloc: Global,
    code: &Code,
    run: &mut Standing,
    next: &Prefix,
    budget: u64,
) -> Result<Option<Answer>, Stop>
    ensures { IfOk result (λ o. IfSome o (Makes code.now budget run.old run.new (prefix_of next.now))) }
{
    let told = step_awaiting(
        alloc,
        code,
        &run.awaited,
        next,
        &mut run.state,
        &run.output,
        budget,
    )?;
    let Some(said) = said(alloc, &run.output, &told.output)? else {
        drop(told);
        return Ok(None);
    };
    move_on(alloc, run, next, &told.output)?;
    Ok(Some(Answer {
        said,
        calls: told.calls,
    }))
}

// What is in hand goes on once this came and this was given on it.
fn move_on(alloc: Global, run: &mut Standing, next: &Prefix, out: &Prefix) -> Result<(), Memory>
    ensures { OnOk result (MovesOn run.old run.new (prefix_of next.now) (prefix_of out.now)) }
{
    go_behind(alloc, &mut run.output, out)?;
    go_behind(alloc, &mut run.input, next)?;
    go_on(alloc, &mut run.awaited, next)?;
    settle(alloc, &mut run.state, &run.output)
}
