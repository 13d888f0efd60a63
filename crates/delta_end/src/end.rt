//! How a command ends, and the status of each end.

ghost use Rattle.std.specs.Prelude.{◌≡◌};
ghost use Rattle.delta_end.specs.End.{status_of};

use crate::objection::Objection;
use event_frame::FrameFault;
use event_text::LineFault;
use event_word::EventFault;
use program_refusal::Refusal;

/// What is wrong with an input, and the place of it in bytes.
#[derive(Clone, Copy, Debug, PartialEq, Eq)]
pub enum InputFault {
    /// A byte of the header or of a frame can't stand where it stands, or a frame is cut off.
    Frame(FrameFault),
    /// An event isn't admitted; the number is the place of its frame.
    Event(EventFault, u64),
    /// A line isn't that of an event; the number is the place of the line.
    Line(LineFault, u64),
    /// A line, whose place this is, has more bytes than a line may have.
    LongLine(u64),
}

/// How a command ends.
#[derive(Clone, Copy, Debug, PartialEq, Eq)]
pub enum End {
    /// The input ended, and its type is finished.
    Done,
    /// The words are no command line.
    Usage,
    /// The program is refused, for a named cause where one is told.
    Refused(Option<Refusal>),
    /// The input is refused.
    Input(InputFault),
    /// The program makes more calls than its budget allows: for one event, at its start, or in an
    /// evaluation. The number is the place of the frame whose event was in hand, of tables that of the
    /// event, and 0 where none was.
    Budget(u64),
    /// The program makes a call at too great a level. The number is that of `Budget`.
    Deep(u64),
    /// The input ended between two frames, and its type awaits more.
    Open,
    /// A file couldn't be read or written.
    FileFailed,
    /// A read of the link failed.
    ReadFailed,
    /// A write of the link failed.
    WriteFailed,
    /// Memory ran out.
    Memory,
    /// There are more input bytes than a run may read.
    Long,
    /// The text is good, and what the command asks of its program is refused.
    Objected(Objection),
}

impl End {
    /// The exit status.
    pub fn status(self) -> u8
        ensures { result ≡ status_of self }
    {
        match self {
            End::Done => 0,
            End::Usage => 2,
            End::Refused(_) => 3,
            End::Input(_) => 4,
            End::Budget(_) | End::Deep(_) => 5,
            End::Open => 6,
            End::FileFailed | End::ReadFailed | End::WriteFailed => 7,
            End::Memory => 8,
            End::Long => 9,
            End::Objected(Objection::Derivation(_, _)) => 11,
            End::Objected(Objection::Bound(_, _)) => 12,
            End::Objected(Objection::Table(_, _, _)) => 13,
            End::Objected(Objection::State(_, _)) => 10,
        }
    }
}
