//! An event tried on what is in hand.

ghost use Rattle.std.specs.Prelude.{◌≡◌, IfOk, IfSome};
ghost use Rattle.stream_type.specs.StreamType.{type_of};
ghost use Rattle.event_word.specs.Admits.{Admits};
ghost use Rattle.step_learning.specs.Tries.{TriesEvent};

use crate::asking::asked;
use crate::stepping::{Answer, make_step};
use event_word::Event;
use learned_table::LearnedAsk;
use machine_parts::boxes::event_boxed;
use machine_parts::stop::Stop;
use stations::Standing;
use std::alloc::Global;
use template_state::Code;

/// What the step on an event asked, each with its value, and what it said.
#[derive(Drop)]
pub(crate) struct Tried {
    pub(crate) asks: Vec<LearnedAsk>,
    pub(crate) answer: Answer,
}

/// Makes the step of what is in hand on an event, in place, once what it asks is known. None where what it says has no
/// word; its errors are those of `asked` and of `make_step`. Without an answer what is in hand is spent.
pub(crate) fn try_event(
    alloc: Global,
    code: &Code,
    run: &mut Standing,
    x: &Event,
    budget: u64,
) -> Result<Option<Tried>, Stop>
    requires { Admits (type_of run.old.input.value) x.now }
    ensures { IfOk result (λ o. IfSome o (TriesEvent code.now budget run.old run.new x.now)) }
{
    let next = event_boxed(alloc, &run.input, x)?;
    let asks = asked(alloc, code, run, &next, budget)?;
    let answer = make_step(alloc, code, run, &next, budget)?;
    drop(next);
    Ok(with_asks(asks, answer))
}

// Both, where there is an answer.
fn with_asks(asks: Vec<LearnedAsk>, answer: Option<Answer>) -> Option<Tried>
    ensures { IfSome result (λ t. (t.asks ≡ asks) × (answer ≡ Some t.answer)) }
{
    match answer {
        Some(answer) => Some(Tried { asks, answer }),
        None => {
            drop(asks);
            None
        }
    }
}
