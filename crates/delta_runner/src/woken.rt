//! Machines that go on from a kept state, as what sessions run.

use delta_keep::Kept;
use delta_session::Answers;
use delta_state::StepRefusal;
use event_word::Event;
use machine_kept::Keeping;
use std::alloc::Global;
use stream_prefix::Prefix;

/// A machine that goes on from a kept state. It stands for what that gives on the whole of what comes since (`IsSince`
/// of `specs/SinceCourse.antt`).
#[derive(Drop)]
pub struct Woken<'a, M> {
    /// The machine.
    pub machine: M,
    /// The state from which it goes on.
    pub from: &'a Kept,
}

impl<'a, M: Keeping> Answers for Woken<'a, M> {
    ghost use Rattle.delta_runner.specs.SinceCourse.{IsSince, IsSameWoken};

    ghost seen = { λ woken. M.seen woken.machine };

    ghost stands = { IsSince M.seen M.since };

    ghost same = { IsSameWoken M.seen };

    ghost goes_on = { λ woken course word since. since.goes_on };

    ghost same_at_first = { λ _. (λ c of. of, λ k is. is) };

    ghost same_throughout = { λ _ _ _ before after. (λ c of. after.0 c (before.0 c of), λ k is. after.1 k (before.1 k is)) };

    ghost same_program = { λ _ _ same. same.0 };

    fn answer(&mut self, alloc: Global, x: &Event) -> Result<Prefix, StepRefusal> {
        self.machine.step_since(alloc, x)
    }

    fn events_held(&self) -> u64 {
        self.machine.held()
    }

    fn state_count(&self) -> u64 {
        self.machine.nodes()
    }
}
