//! Programs evaluated over a link in memory.

use crate::outside::{are_written, link};
use commands::eval_source;
use delta_end::{End, InputFault};
use event_frame::{FrameFault, Version};
use program_refusal::{Refusal, RefusalName};
use std::alloc::Global;
use std::test::Fail;

const TWICE: &[u8] =
    b"fun twice(xs : Int*) : Int* = case xs of { nil => nil | y :: ys => wait y in {y * 2} :: twice(ys) }
main(xs : Int*) : Int* = twice(xs)";

const WIDE: &[u8] = b"type A = Int****************************************
main() : A*********************** = nil";

// `item`, `F int 3`, `cut`, `end`
const THREE: &[u8] = b"DEV1\x00\x15\x01\x03\x11\x00\x00\x00\x00\x00\x00\x00\x03\x00\x14\x00\x16";

// The first 16 of those bytes, and the first three frames.
const CUT: &[u8] = b"DEV1\x00\x15\x01\x03\x11\x00\x00\x00\x00\x00\x00\x00";

const UNENDED: &[u8] = b"DEV1\x00\x15\x01\x03\x11\x00\x00\x00\x00\x00\x00\x00\x03";

// The same of 6, and all but its last frame.
const SIX: &[u8] = b"DEV1\x00\x15\x01\x03\x11\x00\x00\x00\x00\x00\x00\x00\x06\x00\x14\x00\x16";

const UNENDED_SIX: &[u8] = b"DEV1\x00\x15\x01\x03\x11\x00\x00\x00\x00\x00\x00\x00\x06\x00\x14";

// What is evaluated: a text, its input, the budget and the version.
type Given = (&'static [u8], &'static [u8], u64, Version);

// Whether that ends so and writes that.
fn evaluates(
    alloc: Global,
    (text, input, budget, version): Given,
    end: End,
    output: &[u8],
) -> Result<bool, Fail> {
    let mut link = link(alloc, input, 5, 7)?;
    let found = eval_source(alloc, text, budget.min(10_000), version, &mut link);
    let written = are_written(&link, output);
    drop(link);
    Ok(written && found == end)
}

#[test]
fn numbers_are_doubled(rt: HostRuntime) -> Result<(), Fail> {
    let alloc = rt.alloc();
    assert!(rt; evaluates(alloc, (TWICE, THREE, 2, Version::V1), End::Done, SIX)?);
    assert!(rt; evaluates(alloc, (TWICE, THREE, 1, Version::V1), End::Budget(0), b"")?);
    let cut = End::Input(InputFault::Frame(FrameFault::Truncated(16)));
    assert!(rt; evaluates(alloc, (TWICE, CUT, 9, Version::V1), cut, b"")?);
    assert!(rt;
        evaluates(
            alloc,
            (TWICE, UNENDED, 9, Version::V1),
            End::Open,
            UNENDED_SIX
        )?
    );
    Ok(())
}

#[test]
fn wide_output_wants_long_frames(rt: HostRuntime) -> Result<(), Fail> {
    let alloc = rt.alloc();
    let long = (WIDE, b"DEV1".as_slice(), 0, Version::V2);
    assert!(rt; evaluates(alloc, long, End::Done, b"DEV2\x00\x16")?);
    let why = Refusal {
        name: RefusalName::WideOutput,
        at: 53,
    };
    let short = (WIDE, b"DEV1".as_slice(), 0, Version::V1);
    assert!(rt; evaluates(alloc, short, End::Refused(Some(why)), b"")?);
    Ok(())
}
