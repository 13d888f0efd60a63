//! What is learned of a step, before it is known at which station it ends.

ghost use Rattle.std.specs.Prelude.{◌≡◌, ◌≤◌, IfOk, IfSome};
ghost use Rattle.stream_type.specs.StreamType.{type_of};
ghost use Rattle.event_word.specs.Admits.{Admits};
ghost use Rattle.learned_table.specs.StepTree.{step_of};
ghost use Rattle.stations.specs.StationTree.{station_in, AreRegisters};
ghost use Rattle.step_learning.specs.AreApart.{AreApart};
ghost use Rattle.step_learning.specs.Learns.{LearnsStep, IsTried, tried_step};

use crate::apart::{MOST_DEPTHS, values_apart};
use crate::trying::{Tried, try_event};
use event_word::{Event, admits};
use learned_table::LearnedStep;
use machine_parts::stop::Stop;
use stations::{Standing, Station, Values, unfold};
use std::alloc::Global;
use template_state::Code;

/// A step that was learned at a station, whose registers that are left aren't told yet (its `numbers_left` and
/// `depths_left` are empty), and where it leaves the run. `HasLearned` of `specs/IsLearned.antt` says what is known of
/// it.
#[derive(Drop)]
pub struct Learning {
    /// The step.
    pub step: LearnedStep,
    /// Where the run is left.
    pub left: Standing,
}

/// Tries to learn what the step of the station's state makes of an event: with these numbers, and at depths that are far
/// apart, as many as these. None where the event isn't admitted, where there are more than 1,000 depths, or where what
/// is said has no word. It is `Spent` or `Deep` where the step is, or the walk that finds what it asks, which may be of
/// a step that isn't; its other error is want of memory.
pub fn learn(
    alloc: Global,
    code: &Code,
    station: &Station,
    numbers: &[i64],
    depths: &[u64],
    x: &Event,
    budget: u64,
) -> Result<Option<Learning>, Stop>
    requires registers { AreRegisters (station_in station.now) numbers.now depths.now }
    requires budget { budget ≤ 1000000 }
    ensures { IfOk result (λ o. IfSome o (LearnsStep code.now budget (station_in station.now) numbers.now x.now)) }
{
    if admits(&station.input, x).is_err() {
        return Ok(None);
    }
    if depths.len() > MOST_DEPTHS {
        return Ok(None);
    }
    let values = values_apart(alloc, numbers, depths.len())?;
    learn_with(alloc, code, station, values, x, budget)
}

// The same with these numbers, at these depths.
fn learn_with(
    alloc: Global,
    code: &Code,
    station: &Station,
    values: Values,
    x: &Event,
    budget: u64,
) -> Result<Option<Learning>, Stop>
    requires admitted { Admits (type_of station.now.input.value) x.now }
    requires registers { AreRegisters (station_in station.now) values.numbers.items values.depths.items }
    requires apart { AreApart values.depths.items }
    requires budget { budget ≤ 1000000 }
    ensures { IfOk result (λ o. IfSome o (LearnsStep code.now budget (station_in station.now) values.numbers.items x.now)) }
{
    let mut run = unfold(alloc, station, &values)?;
    let tried = try_event(alloc, code, &mut run, x, budget)?;
    Ok(learned(alloc, values, *x, tried, run))
}

// What was learned, where there is an answer.
fn learned(
    alloc: Global,
    values: Values,
    x: Event,
    tried: Option<Tried>,
    run: Standing,
) -> Option<Learning>
    ensures { IfSome result (IsTried values x tried run) }
{
    match tried {
        Some(tried) => Some(learning_of(alloc, values, x, tried, run)),
        None => {
            drop(values);
            drop(run);
            None
        }
    }
}

// The step with these numbers and depths on the event, and where it left the run.
fn learning_of(alloc: Global, values: Values, x: Event, tried: Tried, run: Standing) -> Learning
    ensures step { step_of result.step ≡ tried_step values x tried }
    ensures left { result.left ≡ run }
{
    let Tried { asks, answer } = tried;
    let step = LearnedStep {
        numbers: values.numbers,
        depths: values.depths,
        event: x,
        asks,
        said: answer.said,
        calls: answer.calls,
        numbers_left: Vec::new(alloc),
        depths_left: Vec::new(alloc),
    };
    Learning { step, left: run }
}
