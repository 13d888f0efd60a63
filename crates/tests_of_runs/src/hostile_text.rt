//! The program's text and the derivation's with each byte changed to one that is no part of a character, and the
//! derivation cut off behind each byte.

use crate::outside::{Given, changed, holds};
use crate::tables::{CHECK, DERIVE, DOUBLE, STEPS};
use std::alloc::Global;
use std::test::Fail;

// Whether the text whose byte at a place is FF is refused for it, with nothing written.
fn is_refused_at(alloc: Global, given: &Given<'_>, place: usize) -> Result<bool, Fail> {
    let text = changed(alloc, given.text, place)?;
    let mut note = String::new(alloc);
    writeln!(note, "delta: program refused: BadUtf8 at {place}")?;
    let given = Given {
        text: &text,
        ..*given
    };
    holds(alloc, &given, (b"", 3, note.as_str()))
}

// Whether it is so for each byte.
fn is_refused(alloc: Global, given: &Given<'_>) -> Result<bool, Fail> {
    let mut all = true;
    for place in 0..DOUBLE.len() {
        all = all && is_refused_at(alloc, given, place)?;
    }
    Ok(all)
}

#[test]
fn byte_of_the_text_is_changed(rt: HostRuntime) -> Result<(), Fail> {
    for words in [
        "check program",
        "print program",
        "run program",
        "eval program",
        "bound program",
        "derive program proof",
    ] {
        let given = Given { words, ..CHECK };
        assert!(rt; is_refused(rt.alloc(), &given)?, "{words}");
    }
    Ok(())
}

// How many lines end in these bytes.
fn lines_in(bytes: &[u8]) -> u64 {
    let mut lines: u64 = 0;
    for byte in bytes {
        if *byte == b'\n' {
            lines = lines.saturating_add(1);
        }
    }
    lines
}

// Whether a derivation is refused by this name and line, with nothing written.
fn is_underived(alloc: Global, proof: &[u8], name: &str, line: u64) -> Result<bool, Fail> {
    let mut note = String::new(alloc);
    writeln!(note, "delta: derivation refused: {name} at {line}")?;
    let given = Given { proof, ..DERIVE };
    holds(alloc, &given, (b"", 11, note.as_str()))
}

// Whether so many bytes of the derivation are refused: for the line that isn't ended, or for those that lack.
fn is_cut_refused(alloc: Global, count: usize) -> Result<bool, Fail> {
    let steps = STEPS;
    let proof = &steps[..count.min(steps.len())];
    let is_ended = proof.is_empty() || proof.ends_with(b"\n");
    let name = if is_ended { "Short" } else { "BadLine" };
    is_underived(alloc, proof, name, lines_in(proof))
}

// Whether the derivation is refused for the line of a byte that is FF.
fn is_change_refused(alloc: Global, place: usize) -> Result<bool, Fail> {
    let steps = STEPS;
    let proof = changed(alloc, steps, place)?;
    let line = lines_in(&steps[..place.min(steps.len())]);
    is_underived(alloc, &proof, "BadLine", line)
}

#[test]
fn derivation_is_cut_off_or_changed(rt: HostRuntime) -> Result<(), Fail> {
    assert!(rt; holds(rt.alloc(), &DERIVE, (b"", 0, ""))?);
    for place in 0..STEPS.len() {
        assert!(rt; is_cut_refused(rt.alloc(), place)?, "{place}");
        assert!(rt; is_change_refused(rt.alloc(), place)?, "{place}");
    }
    Ok(())
}
