//! The laws of lines, each the contract of a function.

ghost use Rattle.event_text.specs.Laws.{LinesAreRead, ReadIsSpelled, NoLineIsShared};

/// What is written of an event, without its line feed, is read as that event.
pub fn lines_are_read()
    ensures { LinesAreRead }
{}

/// A line is read as an event exactly where it spells that event, and the event is within the
/// limits: the event's own line, or one whose number is written otherwise, as `007` or `-0`.
pub fn read_is_spelled()
    ensures { ReadIsSpelled }
{}

/// No two events have one line.
pub fn no_line_is_shared()
    ensures { NoLineIsShared }
{}
