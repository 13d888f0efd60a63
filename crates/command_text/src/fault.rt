//! Why a line of the input is refused.

ghost use Rattle.std.specs.Prelude.{◌≡◌};
ghost use Rattle.command_text.specs.Fault.{line_fault};

use delta_end::InputFault;
use event_text::LineFault;
use thiserror::Error;

/// Why a line is refused where frames are written.
#[derive(Clone, Copy, PartialEq, Eq, Debug, Error)]
pub enum LineRefusal {
    /// The line is no event, or its event has more steps than the frames of the version may have.
    #[error("{0}")]
    Line(LineFault),
    /// The line has more than 256 bytes.
    #[error("LongLine")]
    LongLine,
}

/// The fault of an input with a line that is refused at this place.
pub fn input_fault(refusal: LineRefusal, place: u64) -> InputFault
    ensures { result ≡ line_fault refusal place }
{
    match refusal {
        LineRefusal::Line(why) => InputFault::Line(why, place),
        LineRefusal::LongLine => InputFault::LongLine(place),
    }
}
