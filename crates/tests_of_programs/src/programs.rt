//! Programs of texts, their cores, what they give and what is wrong with them, each in a box.

use checked_program::accept;
use core_term::{Checked, Core};
use delta_elab::{ProgramFault, elaborate, typed};
use delta_meaning::{EvalRefusal, Evaluated, eval, run};
use delta_tree::Program;
use program_text::program_of;
use std::alloc::Global;
use std::test::Fail;
use stream_prefix::Prefix;

/// The program of a text.
pub fn program(alloc: Global, text: &[u8]) -> Result<Box<Program>, Fail> {
    let program = program_of(alloc, text)?;
    Ok(Box::new(alloc, program)?)
}

/// The core of a text's program.
pub fn core(alloc: Global, text: &[u8]) -> Result<Box<Core>, Fail> {
    let program = program(alloc, text)?;
    let core = elaborate(alloc, &program)?;
    Ok(Box::new(alloc, core)?)
}

/// The checked core of the program of a text that is accepted.
pub fn checked(alloc: Global, text: &[u8]) -> Result<Box<Checked>, Fail> {
    let program = program(alloc, text)?;
    let checked = typed(alloc, &program)?;
    Ok(Box::new(alloc, checked)?)
}

/// What is wrong first with a text's program, if it isn't typed.
pub fn fault(alloc: Global, text: &[u8]) -> Result<Option<ProgramFault>, Fail> {
    let program = program(alloc, text)?;
    Ok(typed(alloc, &program).err())
}

/// Whether a text's program is typed.
pub fn is_typed(alloc: Global, text: &[u8]) -> Result<bool, Fail> {
    Ok(fault(alloc, text)?.is_none())
}

/// What a text's program gives where this came, with at most 10,000 calls.
pub fn ran(alloc: Global, text: &[u8], input: &Prefix) -> Result<Box<Evaluated>, Fail> {
    let program = program(alloc, text)?;
    let evaluated = run(alloc, &program, input, 10_000)?;
    Ok(Box::new(alloc, evaluated)?)
}

/// Why it gives nothing where it may make so many calls, of 10,000 at most.
pub fn refusal(
    alloc: Global,
    text: &[u8],
    input: &Prefix,
    budget: u64,
) -> Result<Option<EvalRefusal>, Fail> {
    let program = program(alloc, text)?;
    Ok(eval(alloc, &program, input, budget.min(10_000)).err())
}
