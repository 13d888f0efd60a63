//! The laws of lines that are made of frames, each the contract of a function with nothing in it.

ghost use Rattle.command_text.specs.Lines.{OutputIsLines, WordsAreTaken};

/// What is written for a word of events are its lines, one after the other.
pub fn output_is_lines()
    ensures { OutputIsLines }
{}

/// No event is refused.
pub fn words_are_taken()
    ensures { WordsAreTaken }
{}
