//! The answer of a step that is made again.

ghost use Rattle.std.specs.Prelude.{◌≡◌, ◌++◌, map, OnOk};
ghost use Rattle.event_word.specs.declared.event.Leaf.TheVariants.{Int};
ghost use Rattle.event_word.specs.StreamEvent.{IsWithin};
ghost use Rattle.event_frame.specs.Frames.{frames, longest};
ghost use Rattle.other_numbers.specs.EventNumbers.{exchanged_event};
ghost use Rattle.learned_table.specs.StepTree.{step_of};
ghost use Rattle.learned_table.specs.FoundNumbers.{number_in};

use crate::step::LearnedStep;
use event_frame::{Version, encode_in};
use event_word::{Event, Leaf};
use state_shapes::{Found, number_at};
use stream_type::Memory;

/// Appends the frames of the events of the answer, with the numbers that were found. Its only error is want of memory.
pub fn said(
    version: Version,
    step: &LearnedStep,
    found: &Found,
    out: &mut Vec<u8>,
) -> Result<(), Memory>
    requires { IsWithin (longest version) (step_of step.now).said }
    ensures { OnOk result (out.new.items ≡ out.old.items ++ frames version (map (exchanged_event (number_in found.now)) (step_of step.now).said)) }
{
    for event in &step.said {
        encode_in(version, &with_found(event, found), out)?;
    }
    Ok(())
}

// The event with the number that was found.
fn with_found(event: &Event, found: &Found) -> Event
    ensures { result ≡ exchanged_event (number_in found.now) event.now }
{
    match event.leaf() {
        Leaf::Int(n) => with_number(event, number_at(&found.keys, &found.numbers, n)),
        _ => *event,
    }
}

/// An event at the end of the same path at which this number comes.
pub fn with_number(event: &Event, n: i64) -> Event
    ensures { result ≡ record { path = event.now.path; leaf = Int n } }
{
    let path = event.path();
    let mut made = Event::new(Leaf::Int(n));
    let mut i = path.len();
    while i > 0 {
        i -= 1;
        made = made.under(path[i]).unwrap();
    }
    made
}
