//! Notes and statuses.

use delta_end::{End, InputFault, answer, note};
use event_frame::FrameFault;
use event_text::LineFault;
use event_word::EventFault;
use port::{IoFault, MemSink};
use program_refusal::{Refusal, RefusalName};
use std::alloc::Global;
use std::test::Fail;

// Whether this is the note of an end, and this its status where the note was written.
fn is_told(alloc: Global, end: End, told: &[u8], status: u8) -> bool {
    let mut sink = MemSink::new(alloc, Vec::new(alloc));
    let said = note(&mut sink, end);
    said.is_ok() && sink.bytes() == told && answer(end, said) == status
}

// Whether each end has its note and its status.
fn are_told(alloc: Global, rows: &[(End, &[u8], u8)]) -> bool {
    let mut all = true;
    for (end, told, status) in rows {
        all = all && is_told(alloc, *end, told, *status);
    }
    all
}

#[test]
fn tells_each_end(rt: HostRuntime) {
    let rows: [(End, &[u8], u8); 11] = [
        (End::Done, b"", 0),
        (End::Usage, b"delta: usage\n", 2),
        (End::Refused(None), b"delta: program refused\n", 3),
        (End::Budget(0), b"delta: stopped: Budget at 0\n", 5),
        (End::Deep(17), b"delta: stopped: Deep at 17\n", 5),
        (End::Open, b"delta: input open\n", 6),
        (End::FileFailed, b"delta: outside fault: file\n", 7),
        (End::ReadFailed, b"delta: outside fault: input\n", 7),
        (End::WriteFailed, b"delta: outside fault: output\n", 7),
        (End::Memory, b"delta: no memory\n", 8),
        (End::Long, b"delta: input too long\n", 9),
    ];
    assert!(rt; are_told(rt.alloc(), &rows));
}

#[test]
fn tells_name_and_place(rt: HostRuntime) {
    let why = Refusal {
        name: RefusalName::LongText,
        at: 1048576,
    };
    let frame = InputFault::Frame(FrameFault::Truncated(13));
    let event = InputFault::Event(EventFault::EarlyCut(0), 4);
    let line = InputFault::Line(LineFault::BadWord(2), 40);
    let rows: [(End, &[u8], u8); 5] = [
        (
            End::Refused(Some(why)),
            b"delta: program refused: LongText at 1048576\n",
            3,
        ),
        (
            End::Input(frame),
            b"delta: input refused: Truncated at 13\n",
            4,
        ),
        (
            End::Input(event),
            b"delta: input refused: EarlyCut at 4\n",
            4,
        ),
        (
            End::Input(line),
            b"delta: input refused: BadWord at 40\n",
            4,
        ),
        (
            End::Input(InputFault::LongLine(0)),
            b"delta: input refused: LongLine at 0\n",
            4,
        ),
    ];
    assert!(rt; are_told(rt.alloc(), &rows));
}

#[test]
fn a_failed_note_changes_open_alone(rt: HostRuntime) {
    let rows = [
        (End::Open, IoFault::Failed, 7),
        (End::Done, IoFault::Failed, 0),
        (End::Usage, IoFault::Failed, 2),
        (End::Open, IoFault::Memory, 8),
    ];
    for (end, fault, status) in rows {
        assert!(rt; answer(end, Err(fault)) == status);
    }
}
