//! A learned step made again.

ghost use Rattle.std.specs.Prelude.{◌≡◌, [], map, IfOk, OnOk};
ghost use Rattle.event_word.specs.StreamEvent.{IsWithin};
ghost use Rattle.event_frame.specs.Frames.{frames, longest};
ghost use Rattle.other_numbers.specs.EventNumbers.{exchanged_event};
ghost use Rattle.learned_table.specs.FoundNumbers.{number_in};
ghost use Rattle.filled_states.specs.Shifts.{shift};
ghost use Rattle.learned_table.specs.StepTree.{step_of};

use event_frame::Version;
use learned_table::{LearnedStep, depths_left, numbers_left, said};
use state_shapes::Found;
use stations::Values;
use std::alloc::Global;
use stream_type::Memory;

/// The room that is taken at once for each frame of an answer: most frames have no more bytes.
const FRAME_LENGTH: usize = 16;

/// No registers.
pub fn nothing_kept(alloc: Global) -> Values
    ensures numbers { result.numbers.items ≡ [] }
    ensures depths { result.depths.items ≡ [] }
{
    Values {
        numbers: Vec::new(alloc),
        depths: Vec::new(alloc),
    }
}

/// The frames that answer a step which is made again with what was found, from these registers; those that it leaves
/// are put into `left`. Its only error is want of memory.
pub fn make(
    alloc: Global,
    version: Version,
    step: &LearnedStep,
    found: &Found,
    values: &Values,
    left: &mut Values,
) -> Result<Vec<u8>, Memory>
    requires { IsWithin (longest version) (step_of step.now).said }
    ensures bytes { IfOk result (λ bytes. bytes.items ≡ frames version (map (exchanged_event (number_in found.now)) (step_of step.now).said)) }
    ensures numbers { OnOk result (left.new.numbers.items ≡ map (number_in found.now) (step_of step.now).numbers_left) }
    ensures depths { OnOk result (left.new.depths.items ≡ map (shift (step_of step.now).depths values.now.depths.items 1000000) (step_of step.now).depths_left) }
{
    let mut bytes = Vec::new(alloc);
    bytes.reserve(step.said.len().saturating_mul(FRAME_LENGTH))?;
    said(version, step, found, &mut bytes)?;
    numbers_left(step, found, &mut left.numbers)?;
    depths_left(step, &values.depths, &mut left.depths)?;
    Ok(bytes)
}
