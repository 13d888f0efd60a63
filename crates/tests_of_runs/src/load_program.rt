//! The text of the load's program.

use checked_program::{Accepted, accept, dismiss};
use delta_load::LOAD_TEXT;
use delta_print::print;
use std::alloc::Global;
use std::test::Fail;

// Whether what was accepted is printed as its text stands.
fn is_printed_alike(alloc: Global, accepted: &Accepted) -> Result<bool, Fail> {
    let printed = print(alloc, &accepted.program)?;
    Ok(printed.as_str().as_bytes() == LOAD_TEXT)
}

// Whether the text is accepted, and printed as it stands.
fn is_canonical(alloc: Global) -> Result<bool, Fail> {
    match accept(alloc, LOAD_TEXT) {
        Ok(accepted) => {
            let found = is_printed_alike(alloc, &accepted);
            dismiss(accepted);
            found
        }
        Err(fault) => Err(fault.into()),
    }
}

#[test]
fn text_is_accepted_and_canonical(rt: HostRuntime) -> Result<(), Fail> {
    assert!(rt; is_canonical(rt.alloc())?);
    Ok(())
}
