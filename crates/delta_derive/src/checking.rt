//! The check of a whole derivation.

ghost use Rattle.std.specs.Prelude.{◌≡◌, ◌≤◌, suc, ◌∷◌, length, IfOk, IfErr, OnOk, None, ◌==◌, position};
ghost use Rattle.stream_type.specs.StreamType.{type_of};
ghost use Rattle.bunch.specs.BunchTree.{as_type};
ghost use Rattle.core_term.specs.CoreTerm.{core_of};
ghost use Rattle.core_term.specs.FreeNames.{IsCore, HasFewNodes};
ghost use Rattle.core_term.specs.Typing.{IsTypedCore};
ghost use Rattle.delta_check.specs.Counting.{counts_in};
ghost use Rattle.delta_derive.specs.LineText.{line_in, lines_in};
ghost use Rattle.delta_derive.specs.OpenTerms.{claims_in};
ghost use Rattle.delta_derive.specs.FirstFault.{TextLines, first_from, first_fault, IsValidText, TellsFirst, Denies};

use crate::fault::DeriveFault;
use crate::goals::{first_goals, take_line};
use crate::open::OpenTerm;
use crate::reading::read_line;
use bunch::as_type;
use core_term::{Checked, Core};
use delta_check::inert_funs;
use std::alloc::Global;
use stream_type::{Memory, Ty};

/// The program as a checked one, with the type of its input. It is refused exactly where the lines of the text don't
/// write a derivation of it (`IsValidText` in `specs/FirstFault.antt`), with the first line that is at fault
/// (`first_fault` there). Its other error is want of memory.
#[tactic(auto, using(crate::proofs::Refusing::refusing))]
pub fn derive(alloc: Global, c: Core, text: &[u8]) -> Result<Checked, DeriveFault>
    requires core { IsCore (core_of c) }
    requires nodes { HasFewNodes (core_of c) }
    requires text { length text.now ≤ 1048576 }
    ensures program { IfOk result (λ k. k ≡ c) }
    ensures valid { IfOk result (λ _. IsValidText (core_of c) text.now) }
    ensures typed { IfOk result (λ _. IsTypedCore (core_of c)) }
    ensures invalid { IfErr result (λ f. Denies f (IsValidText (core_of c) text.now)) }
    ensures first { IfErr result (λ f. TellsFirst f (first_fault (core_of c) text.now)) }
{
    match input_of(alloc, &c, text) {
        Ok(input) => Ok(Checked::of(c, input)),
        Err(fault) => {
            drop(c);
            Err(fault)
        }
    }
}

/// Whether the text is a derivation of the program, for whoever goes no further with that: as `derive`, but the program
/// is dropped, whatever is found.
pub fn check(alloc: Global, c: Core, text: &[u8]) -> Result<(), DeriveFault>
    requires core { IsCore (core_of c) }
    requires nodes { HasFewNodes (core_of c) }
    requires text { length text.now ≤ 1048576 }
    ensures valid { IfOk result (λ _. IsValidText (core_of c) text.now) }
    ensures typed { IfOk result (λ _. IsTypedCore (core_of c)) }
    ensures invalid { IfErr result (λ f. Denies f (IsValidText (core_of c) text.now)) }
    ensures first { IfErr result (λ f. TellsFirst f (first_fault (core_of c) text.now)) }
{
    match derive(alloc, c, text) {
        Ok(checked) => {
            drop(checked);
            Ok(())
        }
        Err(fault) => Err(fault),
    }
}

/// Drops a program that isn't to be checked. The crates above call this: one that drops a program by itself has the drop of
/// each form of its terms proved once more.
pub fn dismiss(c: Core) {
    drop(c);
}

// The type of the input of a program of which the text is a derivation.
#[tactic(auto, using(crate::proofs::Refusing::refusing))]
fn input_of(alloc: Global, c: &Core, text: &[u8]) -> Result<Ty, DeriveFault>
    requires core { IsCore (core_of c.now) }
    requires text { length text.now ≤ 1048576 }
    ensures input { IfOk result (λ t. type_of t ≡ as_type (core_of c.now).main.params) }
    ensures valid { IfOk result (λ _. IsValidText (core_of c.now) text.now) }
    ensures typed { IfOk result (λ _. IsTypedCore (core_of c.now)) }
    ensures invalid { IfErr result (λ f. Denies f (IsValidText (core_of c.now) text.now)) }
    ensures first { IfErr result (λ f. TellsFirst f (first_fault (core_of c.now) text.now)) }
{
    match judge(alloc, c, text) {
        Ok(()) => Ok(as_type(alloc, &c.main.params)?),
        Err(fault) => Err(fault),
    }
}

// Looks for the first fault of a text as a derivation.
fn judge(alloc: Global, c: &Core, text: &[u8]) -> Result<(), DeriveFault>
    requires { length text.now ≤ 1048576 }
    ensures none { IfOk result (λ _. first_fault (core_of c.now) text.now ≡ None) }
    ensures first { IfErr result (λ f. TellsFirst f (first_fault (core_of c.now) text.now)) }
{
    let marks = inert_funs(alloc, c)?;
    let mut goals = match first_goals(alloc, c) {
        Ok(goals) => goals,
        Err(Memory) => {
            drop(marks);
            return Err(DeriveFault::Memory);
        }
    };
    let judged = take_lines(alloc, c, &marks, &mut goals, text);
    drop(goals);
    drop(marks);
    judged
}

// Takes the lines of a text, which are numbered from 0.
#[tactic(auto, using(crate::proofs::Cutting::cutting))]
fn take_lines<'a>(
    alloc: Global,
    c: &'a Core,
    marks: &[bool],
    goals: &mut Vec<OpenTerm<'a>>,
    text: &[u8],
) -> Result<(), DeriveFault>
    requires { length text.now ≤ 1048576 }
    ensures none { IfOk result (λ _. first_from (core_of c.now).funs (counts_in (core_of c.now).funs marks.now) 0 (claims_in goals.old.items) (lines_in text.now) ≡ None) }
    ensures first { IfErr result (λ f. TellsFirst f (first_from (core_of c.now).funs (counts_in (core_of c.now).funs marks.now) 0 (claims_in goals.old.items) (lines_in text.now))) }
{
    let mut rest = text;
    let mut number = 0;
    'lines: while let Some(end) = first_feed(rest) {
        match take_piece(alloc, c, marks, goals, &rest[..end], number) {
            Ok(()) => {}
            Err(fault) => return Err(fault),
        }
        rest = &rest[end + 1..];
        number += 1;
    }
    finish(c, marks, goals, rest, number)
}

// Takes the bytes of one line, which has this number: it goes on as `first_from` says.
#[tactic(auto, using(crate::proofs::Spaces::pieces))]
fn take_piece<'a>(
    alloc: Global,
    c: &'a Core,
    marks: &[bool],
    goals: &mut Vec<OpenTerm<'a>>,
    bytes: &[u8],
    number: u32,
) -> Result<(), DeriveFault>
    ensures on { OnOk result ((ls : TextLines) → first_from (core_of c.now).funs (counts_in (core_of c.now).funs marks.now) number (claims_in goals.old.items) (line_in bytes.now ∷ ls) ≡ first_from (core_of c.now).funs (counts_in (core_of c.now).funs marks.now) (suc number) (claims_in goals.new.items) ls) }
    ensures first { IfErr result (λ f. (ls : TextLines) → TellsFirst f (first_from (core_of c.now).funs (counts_in (core_of c.now).funs marks.now) number (claims_in goals.old.items) (line_in bytes.now ∷ ls))) }
{
    match read_line(alloc, bytes) {
        Ok(Some(line)) => {
            let taken = take_line(alloc, c, marks, goals, &line, number);
            drop(line);
            taken
        }
        Ok(None) => Err(DeriveFault::BadLine(number)),
        Err(Memory) => Err(DeriveFault::Memory),
    }
}

// The place of the first line feed.
fn first_feed(text: &[u8]) -> Option<usize>
    ensures { result ≡ position (λ byte. byte == 10) text.now }
{
    text.iter().position(|byte| *byte == b'\n')
}

// The fault at the end of so many lines, where this is left of the text.
#[tactic(auto, using(crate::proofs::Ending::ending))]
fn finish(
    c: &Core,
    marks: &[bool],
    goals: &[OpenTerm<'_>],
    rest: &[u8],
    number: u32,
) -> Result<(), DeriveFault>
    requires { position (λ byte. byte == 10) rest.now ≡ None }
    ensures none { IfOk result (λ _. first_from (core_of c.now).funs (counts_in (core_of c.now).funs marks.now) number (claims_in goals.now) (lines_in rest.now) ≡ None) }
    ensures first { IfErr result (λ f. TellsFirst f (first_from (core_of c.now).funs (counts_in (core_of c.now).funs marks.now) number (claims_in goals.now) (lines_in rest.now))) }
{
    if !rest.is_empty() {
        Err(DeriveFault::BadLine(number))
    } else if goals.is_empty() {
        Ok(())
    } else {
        Err(DeriveFault::Short(number))
    }
}
