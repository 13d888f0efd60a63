//! An event taken by the machine, and the frames that answer it.

ghost use Rattle.std.specs.Prelude.{◌≡◌, ◌<◌, List, Some, None, IfOk, IsErrOf};
ghost use Rattle.stream_type.specs.StreamType.{type_of};
ghost use Rattle.event_word.specs.StreamEvent.{StreamEvent};
ghost use Rattle.event_word.specs.EventFault.{fault_of};
ghost use Rattle.event_word.specs.declared.fault.EventFault.{EventFault};
ghost use Rattle.delta_state.specs.MachineView.{IsCostly, IsDeep};
ghost use Rattle.delta_code.specs.CodedView.{program_of, CodedStands};
ghost use Rattle.learned_runner.specs.Answering.{MayAnswer, Answers};

use delta_code::Coded;
use delta_loop::StepFault;
use delta_runner::word_frames;
use delta_state::{Machine, StepRefusal};
use event_frame::Version;
use event_word::{Event, admits, canon};
use std::alloc::Global;

/// Takes an event, and answers the frames of what is said to it. An event that isn't admitted is `Refused`, and leaves
/// the machine as it is; after each other fault it is spent.
pub fn answer(
    alloc: Global,
    machine: &mut Coded,
    version: Version,
    x: &Event,
) -> Result<Vec<u8>, StepFault>
    requires may { MayAnswer machine.old version }
    ensures answers { IfOk result (λ bytes. (word : List StreamEvent) → CodedStands machine.old word → Answers machine.old machine.new version word x.now bytes.items) }
    ensures refused { (fault : EventFault) → IsErrOf result (StepFault.Refused fault) → (fault_of x.now (type_of machine.old.input.value) ≡ Some fault) × (machine.new ≡ machine.old) }
    ensures costly { IsErrOf result StepFault.Budget → (fault_of x.now (type_of machine.old.input.value) ≡ None)
        × ((word : List StreamEvent) → CodedStands machine.old word → IsCostly (program_of machine.old) machine.old.budget word x.now) }
    ensures deep { IsErrOf result StepFault.Deep → (fault_of x.now (type_of machine.old.input.value) ≡ None)
        × ((word : List StreamEvent) → CodedStands machine.old word → IsDeep (program_of machine.old) 1000 word x.now) }
{
    match admits(&machine.input, x) {
        Ok(()) => {}
        Err(fault) => return Err(StepFault::Refused(fault)),
    }
    let output = stream_type::copy(alloc, &machine.output)?;
    match machine.step(alloc, x) {
        Ok(said) => {
            let word = canon(alloc, &output, &said)?;
            Ok(word_frames(alloc, version, &word)?)
        }
        Err(StepRefusal::Memory) => Err(StepFault::Memory),
        Err(StepRefusal::Budget(_)) => Err(StepFault::Budget),
        Err(StepRefusal::Deep(_)) => Err(StepFault::Deep),
    }
}
