//! Writes the events of frames as lines.

ghost use Rattle.std.specs.Prelude.{◌≡◌, ⊤};
ghost use Rattle.delta_end.specs.End.{ReadCause, WriteCause};
ghost use Rattle.delta_loop.specs.Loop.{Ran};
ghost use Rattle.command_text.specs.Lines.{lines_of_frames};

use delta_end::End;
use delta_loop::{StepFault, Stepper, run_machine};
use event_text::write_line;
use event_word::Event;
use port::Link;
use std::alloc::Global;

/// A program that says of each event its line.
#[derive(Drop)]
struct LineWriter {}

impl Stepper for LineWriter {
    ghost stands = { λ _ P _. P ≡ lines_of_frames };

    ghost same_program = { λ _ _. ⊤ };

    ghost same_at_first = { λ _. tt };

    ghost same_throughout = { λ _ _ _ _ _. tt };

    fn step(&mut self, alloc: Global, event: Event) -> Result<Vec<u8>, StepFault> {
        let mut line = String::new(alloc);
        write_line(&event, &mut line)?;
        Ok(line.into_bytes())
    }

    fn is_finished(&self) -> bool {
        true
    }
}

/// Reads frames of either version from the link to the end of its input, and writes the line of each
/// event and a line feed, as one piece before the next read. The first byte that can't stand where it
/// stands ends the run, and so does a frame that is cut off. `lines_of_frames` of `specs/Lines.antt` says
/// what is due, and `MayEnd` of `delta_loop` what stands behind each end.
pub fn write_lines<L: Link>(alloc: Global, link: &mut L) -> End
    ensures ran { Ran lines_of_frames (L.log link.old) (L.log link.new) (L.left link.old) (L.left link.new) result }
    ensures read { ReadCause result (L.read_faults link.old) (L.read_faults link.new) }
    ensures write { WriteCause result (L.write_faults link.old) (L.write_faults link.new) }
{
    let mut machine = LineWriter {};
    run_machine(alloc, &mut machine, None, b"", link)
}
