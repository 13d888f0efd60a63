//! The line of a start and a number of items.

use delta_code::Coded;
use delta_load::generate;
use std::alloc::Global;
use std::test::Fail;

/// Whether this is the line of a start and of so many items.
pub fn is_line(alloc: Global, start: u64, items: u64, line: &str) -> Result<bool, Fail> {
    if start > 999_999 || items > 10_000_000 {
        return Ok(false);
    }
    let told = generate::<Coded>(alloc, start, items)?;
    Ok(told.as_str() == line)
}

// A value begins anew at a thousand; no item; none, one and many whose values are above 500.
#[test]
fn lines_tell_of_the_output(rt: HostRuntime) -> Result<(), Fail> {
    let rows = [
        (996, 3, "items 3 in 16 96 out 4 21 last 0\n"),
        (0, 0, "items 0 in 1 6 out 1 6 last none\n"),
        (500, 1, "items 1 in 6 36 out 1 6 last none\n"),
        (501, 1, "items 1 in 6 36 out 4 21 last 0\n"),
        (500, 40, "items 40 in 201 1206 out 118 591 last 39\n"),
        (999_999, 2, "items 2 in 11 66 out 4 21 last 0\n"),
    ];
    for (start, items, line) in rows {
        assert!(rt; is_line(rt.alloc(), start, items, line)?);
    }
    Ok(())
}
