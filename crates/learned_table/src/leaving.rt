//! The registers of the state that a step leaves, once the step is made again.

ghost use Rattle.std.specs.Prelude.{◌≡◌, map, OnOk};
ghost use Rattle.filled_states.specs.Shifts.{shift};
ghost use Rattle.state_shapes.specs.declared.found.Found.{Found};
ghost use Rattle.learned_table.specs.StepTree.{step_of};
ghost use Rattle.learned_table.specs.FoundNumbers.{number_in};

use crate::step::LearnedStep;
use state_shapes::{Found, number_at};
use stream_type::Memory;

/// How far below a depth at which a step was learned another may stand, to be taken for what is left of it.
const FAR: u64 = 1_000_000;

/// The numbers in the registers of the state that is left, with those that were found: they take the place of what is
/// in the list. Its only error is want of memory.
pub fn numbers_left(step: &LearnedStep, found: &Found, into: &mut Vec<i64>) -> Result<(), Memory>
    ensures { OnOk result (into.new.items ≡ map (number_in found.now) (step_of step.now).numbers_left) }
{
    into.clear();
    for n in &step.numbers_left {
        into.push(number_at(&found.keys, &found.numbers, *n))?;
    }
    Ok(())
}

/// The depths in the registers of the state that is left, where these are the depths now: they take the place of what
/// is in the list. Its only error is want of memory.
pub fn depths_left(step: &LearnedStep, depths: &[u64], into: &mut Vec<u64>) -> Result<(), Memory>
    ensures { OnOk result (into.new.items ≡ map (shift (step_of step.now).depths depths.now 1000000) (step_of step.now).depths_left) }
{
    into.clear();
    for d in &step.depths_left {
        into.push(shift(&step.depths, depths, FAR, *d))?;
    }
    Ok(())
}

// What stands in the place of a depth: `shift` in `filled_states`.
fn shift(learned: &[u64], depths: &[u64], far: u64, depth: u64) -> u64
    ensures { result ≡ shift learned.now depths.now far depth }
{
    let mut others = depths;
    for b in learned {
        let Some((e, rest)) = others.split_first() else {
            return depth;
        };
        if depth <= *b && *b - depth <= far {
            return e.saturating_sub(*b - depth);
        }
        others = rest;
    }
    depth
}
