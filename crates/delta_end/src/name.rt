//! The names of faults, as notes tell them.

ghost use Rattle.std.specs.Prelude.{◌≡◌};
ghost use Rattle.delta_end.specs.Note.{frame_name as name_of_frame, event_name as name_of_event, line_name as name_of_line, derivation_name as name_of_derivation, bound_name as name_of_bound, table_name as name_of_table, state_name as name_of_state, name_of as name_of_input};

use crate::end::InputFault;
use crate::objection::{BoundName, DerivationName, StateName, TableName};
use event_frame::FrameFault;
use event_text::LineFault;
use event_word::EventFault;

/// The name of a fault of frames.
pub fn frame_name(fault: FrameFault) -> &'static [u8]
    ensures { result.now ≡ name_of_frame fault }
{
    match fault {
        FrameFault::BadMagic(_) => b"BadMagic",
        FrameFault::LongPath(_, _) => b"LongPath",
        FrameFault::BadStep(_, _) => b"BadStep",
        FrameFault::BadLeaf(_, _) => b"BadLeaf",
        FrameFault::Truncated(_) => b"Truncated",
    }
}

/// The name of an event's fault.
pub fn event_name(fault: EventFault) -> &'static [u8]
    ensures { result.now ≡ name_of_event fault }
{
    match fault {
        EventFault::Ended(_) => b"Ended",
        EventFault::WrongStep(_) => b"WrongStep",
        EventFault::WrongLeaf(_) => b"WrongLeaf",
        EventFault::EarlyCut(_) => b"EarlyCut",
    }
}

/// The name of a line's fault.
pub fn line_name(fault: LineFault) -> &'static [u8]
    ensures { result.now ≡ name_of_line fault }
{
    match fault {
        LineFault::BadWord(_) => b"BadWord",
        LineFault::BigNumber(_) => b"BigNumber",
        LineFault::LongPath => b"LongPath",
        LineFault::NoLeaf => b"NoLeaf",
        LineFault::Extra(_) => b"Extra",
    }
}

/// The name of an input's fault.
pub fn input_name(fault: InputFault) -> &'static [u8]
    ensures { result.now ≡ name_of_input fault }
{
    match fault {
        InputFault::Frame(fault) => frame_name(fault),
        InputFault::Event(fault, _) => event_name(fault),
        InputFault::Line(fault, _) => line_name(fault),
        InputFault::LongLine(_) => b"LongLine",
    }
}

/// The name of a derivation's fault.
pub fn derivation_name(name: DerivationName) -> &'static [u8]
    ensures { result.now ≡ name_of_derivation name }
{
    match name {
        DerivationName::LongText => b"LongText",
        DerivationName::BadLine => b"BadLine",
        DerivationName::BadStep => b"BadStep",
        DerivationName::BadRule => b"BadRule",
        DerivationName::Short => b"Short",
        DerivationName::Long => b"Long",
    }
}

/// The name of why there is no bound.
pub fn bound_name(name: BoundName) -> &'static [u8]
    ensures { result.now ≡ name_of_bound name }
{
    match name {
        BoundName::Unbounded => b"Unbounded",
        BoundName::Cycle => b"Cycle",
        BoundName::Large => b"Large",
    }
}

/// The name of why tables are refused.
pub fn table_name(name: TableName) -> &'static [u8]
    ensures { result.now ≡ name_of_table name }
{
    match name {
        TableName::Shape => b"Shape",
        TableName::Long => b"Long",
        TableName::Ragged => b"Ragged",
        TableName::BadNumber => b"BadNumber",
    }
}

/// The name of why a state is refused.
pub fn state_name(name: StateName) -> &'static [u8]
    ensures { result.now ≡ name_of_state name }
{
    match name {
        StateName::Form => b"Form",
        StateName::Untyped => b"Untyped",
        StateName::Version => b"Version",
        StateName::Large => b"Large",
    }
}
