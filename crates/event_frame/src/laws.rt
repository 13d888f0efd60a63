//! The laws of frames, each the contract of a function.

ghost use Rattle.event_frame.specs.Laws.{FramesAreRead, NoFrameBeginsAnother, WholeIsSpelled, WholeIsLongest, NoHeaderNoEvent, MoreBytesTakeNothingBack, BadIsNotTruncated};

/// The header and the frames of a word are read as exactly that word, to their end.
pub fn frames_are_read()
    ensures { FramesAreRead }
{}

/// No frame begins another: events whose frames begin the same bytes are equal.
pub fn no_frame_begins_another()
    ensures { NoFrameBeginsAnother }
{}

/// What is read as whole behind a header is the frames of those events, each spelled in its one way.
pub fn whole_is_spelled()
    ensures { WholeIsSpelled }
{}

/// Where a frame stands behind the frames of a word, more than that word is read.
pub fn whole_is_longest()
    ensures { WholeIsLongest }
{}

/// Bytes that begin with no header hold no event.
pub fn no_header_no_event()
    ensures { NoHeaderNoEvent }
{}

/// More bytes take back no event that was read, and no fault that was found.
pub fn more_bytes_take_nothing_back()
    ensures { MoreBytesTakeNothingBack }
{}

/// A byte that can't stand in its place is never called an early end.
pub fn bad_is_not_truncated()
    ensures { BadIsNotTruncated }
{}
