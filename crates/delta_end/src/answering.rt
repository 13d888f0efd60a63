//! The exit status, by what came of the note.

ghost use Rattle.delta_end.specs.Status.{AnswerOf};

use crate::end::End;
use port::IoFault;

/// The status for an end and for what came of its note: a fault of the sink changes status 6 alone, to 7,
/// and want of memory gives 8.
pub fn answer(end: End, said: Result<(), IoFault>) -> u8
    ensures { AnswerOf end said result }
{
    match said {
        Ok(()) => end.status(),
        Err(IoFault::Memory) => 8,
        Err(IoFault::Failed) => match end {
            End::Open => 7,
            _ => end.status(),
        },
    }
}
