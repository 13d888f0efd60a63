//! The call that runs what has begun up to its end, and answers the status.

ghost use Rattle.std.specs.Prelude.{◌≤◌, IsTrue};
ghost use Rattle.stream_type.specs.StreamType.{reach_of};
ghost use Rattle.core_term.specs.CoreTerm.{core_of, fits_of};
ghost use Rattle.event_frame.specs.Frames.{longest};
ghost use Rattle.event_frame.specs.declared.version.Version.TheVariants.{V1};

use crate::outside::{are_written, link_of};
use crate::tables::{DOUBLE, GIVEN, SIX};
use checked_program::{accept_to_write, dismiss};
use core_term::Checked;
use delta_code::Coded;
use delta_loop::run_program;
use delta_runner::begin;
use event_frame::Version;
use port::{MemLink, MemSink};
use std::alloc::Global;
use std::test::Fail;

// The status of a program that is run over a link, and its note.
fn outcome(alloc: Global, checked: &Checked, link: &mut MemLink) -> Option<(u8, MemSink)>
    requires fits { IsTrue (fits_of (core_of checked.now)) }
    requires short { reach_of (core_of checked.now).main.result ≤ longest V1 }
{
    let mut notes = MemSink::new(alloc, Vec::new(alloc));
    match begin::<Coded>(alloc, checked, 1_000, Version::V1) {
        Ok((runner, first)) => {
            let status = run_program(alloc, runner, Some(Version::V1), &first, link, &mut notes);
            Some((status, notes))
        }
        Err(_) => None,
    }
}

// Whether the program that doubles a feed answers 0 with no note, and writes what is due.
fn doubles(alloc: Global) -> Result<bool, Fail> {
    let mut link = link_of(alloc, &GIVEN)?;
    let ended = match accept_to_write(alloc, DOUBLE, Version::V1) {
        Ok(accepted) => {
            let ended = outcome(alloc, &accepted.checked, &mut link);
            dismiss(accepted);
            ended
        }
        Err(_) => None,
    };
    match ended {
        Some((0, notes)) => Ok(notes.bytes().is_empty() && are_written(alloc, &link, SIX)?),
        _ => Ok(false),
    }
}

#[test]
fn a_program_is_run_to_its_end(rt: HostRuntime) -> Result<(), Fail> {
    assert!(rt; doubles(rt.alloc())?);
    Ok(())
}
