//! Reads a whole input.

ghost use Rattle.std.specs.Prelude.{[], ⊤, IfOk};
ghost use Rattle.stream_type.specs.StreamType.{type_of};
ghost use Rattle.commands.specs.Gathering.{gathering, Gathers};

use delta_loop::{StepFault, Stepper};
use event_word::Event;
use std::alloc::Global;
use stream_type::{Memory, Ty};

/// The events that came so far, and the type that is left. `specs/Gathering.antt` says for which words it
/// stands.
#[derive(Drop)]
pub struct Gathering {
    /// The type that is left of the input.
    pub rest: Ty,
    /// The events that came.
    pub word: Vec<Event>,
}

impl Gathering {
    /// One that awaits a word of the type. Its only error is want of memory.
    pub fn of(alloc: Global, input: &Ty) -> Result<Gathering, Memory>
        ensures { IfOk result (λ machine. Gathers machine (gathering (type_of input.now)) []) }
    {
        Ok(Gathering {
            rest: stream_type::copy(alloc, input)?,
            word: Vec::new(alloc),
        })
    }
}

impl Stepper for Gathering {
    ghost stands = { Gathers };

    ghost same_program = { λ _ _. ⊤ };

    ghost same_at_first = { λ _. tt };

    ghost same_throughout = { λ _ _ _ _ _. tt };

    fn step(&mut self, alloc: Global, event: Event) -> Result<Vec<u8>, StepFault> {
        match event_word::admits(&self.rest, &event) {
            Ok(()) => {
                let rest = event_word::after(alloc, &self.rest, &event)?;
                match self.word.push(event) {
                    Ok(()) => {
                        self.rest = rest;
                        Ok(Vec::new(alloc))
                    }
                    Err(_) => Err(StepFault::Memory),
                }
            }
            Err(fault) => Err(StepFault::Refused(fault)),
        }
    }

    fn is_finished(&self) -> bool {
        stream_type::null(&self.rest)
    }
}
