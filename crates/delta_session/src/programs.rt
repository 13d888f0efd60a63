//! Machines that run programs from their start, as what sessions run.

ghost use Rattle.delta_session.specs.Programs.{IsRunning, IsOfSameProgram};

use crate::answering::Answers;
use delta_state::{Machine, StepRefusal};
use event_word::Event;
use std::alloc::Global;
use stream_prefix::Prefix;

impl<M: Machine> Answers for M {
    ghost seen = { M.seen };

    ghost stands = { IsRunning M.seen M.stands };

    ghost same = { IsOfSameProgram M.seen };

    ghost goes_on = { λ m course word running. running.goes_on };

    ghost same_at_first = { λ _ _ of. of };

    ghost same_throughout = { λ _ _ _ before after c of. after c (before c of) };

    ghost same_program = { λ _ _ same. same };

    fn answer(&mut self, alloc: Global, x: &Event) -> Result<Prefix, StepRefusal> {
        self.step(alloc, x)
    }

    fn events_held(&self) -> u64 {
        self.held()
    }

    fn state_count(&self) -> u64 {
        self.nodes()
    }
}
