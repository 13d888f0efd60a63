//! A program is checked, and printed to a link in memory.

use crate::outside::{are_written, link};
use commands::{check_source, print_source};
use delta_end::End;
use program_refusal::{Refusal, RefusalName};
use std::alloc::Global;
use std::test::Fail;

// Whether printing a text to a link whose writes take so many bytes ends so and writes that.
fn is_printed(
    alloc: Global,
    text: &[u8],
    most: u64,
    end: End,
    output: &[u8],
) -> Result<bool, Fail> {
    let mut link = link(alloc, b"", 1, most)?;
    let found = print_source(alloc, text, &mut link);
    let written = are_written(&link, output);
    drop(link);
    Ok(written && found == end)
}

#[test]
fn program_is_printed_in_canonical_form(rt: HostRuntime) -> Result<(), Fail> {
    let canonical = b"main (x : Int) : Int = x\n";
    for most in [1, 7, 4096] {
        assert!(rt; is_printed(rt.alloc(), b"main(x:Int):Int=x", most, End::Done, canonical)?);
    }
    Ok(())
}

#[test]
fn functions_and_cases_are_printed(rt: HostRuntime) -> Result<(), Fail> {
    let text = b"// Twice each number.
fun twice(xs : Int*) : Int* =
  case xs of { nil => nil | y :: ys => wait y in {(y) * 2} :: twice(ys) }
main(xs : (Int*)) : Int* = twice(xs)";
    let canonical =
        b"fun twice (xs : Int*) : Int* = case xs of { nil => nil | y :: ys => wait y in { y * 2 } :: twice (ys) }\nmain (xs : Int*) : Int* = twice (xs)\n";
    assert!(rt; is_printed(rt.alloc(), text, 4096, End::Done, canonical)?);
    Ok(())
}

// How a text is refused.
fn refused(name: RefusalName, at: u32) -> End {
    End::Refused(Some(Refusal { name, at }))
}

#[test]
fn refused_text_writes_nothing(rt: HostRuntime) -> Result<(), Fail> {
    let end = refused(RefusalName::Expected, 21);
    assert!(rt; is_printed(rt.alloc(), b"main(x : Int) : Int = ", 4096, end, b"")?);
    Ok(())
}

#[test]
fn text_is_accepted_or_refused(rt: HostRuntime) {
    let text =
        b"fun twice(xs : Int*) : Int* = case xs of { nil => nil | y :: ys => wait y in ({y * 2} :: twice(ys)) }
main(xs : Int*) : Int* = twice(xs)";
    assert!(rt; check_source(rt.alloc(), text) == End::Done);
    let unbound =
        b"fun twice(xs : Int*) : Int* = case xs of { nil => nil | y :: ys => wait y in ({y * 2} :: twice(ys)) }
main(xs : Int*) : Int* = twice(zs)";
    assert!(rt; check_source(rt.alloc(), unbound) == refused(RefusalName::Unbound, 133));
}
