//! The first case or wait of a program that counts a name whose type has no size.

ghost use Rattle.std.specs.Prelude.{◌≡◌, ℕ, None, option_map, if◌then◌else◌, IfOk};
ghost use Rattle.core_term.specs.CoreTerm.{core_of};
ghost use Rattle.core_term.specs.Inert.{is_inert_fun};
ghost use Rattle.delta_check.specs.Counting.{counts_in};
ghost use Rattle.state_bounds.specs.ProgramBound.{reached_marks};
ghost use Rattle.delta_bound.specs.Unsized.{told, unsized_in, unsized_from, program_unsized};

use crate::body_bounds::first_unsized;
use crate::reach::marked;
use crate::stop::Unsized;
use core_term::{Body, Core};
use std::alloc::Global;
use stream_type::Memory;

/// The first name without a size that a case or a wait of the program counts, in the functions that
/// are reached or in the main program: `program_unsized` in `specs/Unsized.antt`. Its only error is
/// want of memory.
pub fn program_unsized(
    alloc: Global,
    c: &Core,
    inert: &[bool],
    reached: &[bool],
) -> Result<Option<Unsized>, Memory>
    requires inert { (f : ℕ) → counts_in (core_of c.now).funs inert.now f ≡ is_inert_fun (core_of c.now).funs f }
    requires reached { reached.now ≡ reached_marks (core_of c.now) }
    ensures { IfOk result (λ o. option_map told o ≡ program_unsized c.now) }
{
    match of_funs(alloc, c, inert, reached)? {
        Some(found) => Ok(Some(found)),
        None => first_unsized(alloc, &c.main, c, inert),
    }
}

// In the marked functions in turn.
fn of_funs(
    alloc: Global,
    c: &Core,
    inert: &[bool],
    reached: &[bool],
) -> Result<Option<Unsized>, Memory>
    requires { (f : ℕ) → counts_in (core_of c.now).funs inert.now f ≡ is_inert_fun (core_of c.now).funs f }
    ensures { IfOk result (λ o. option_map told o ≡ unsized_from (core_of c.now).funs (is_inert_fun (core_of c.now).funs) reached.now 0 c.now.funs.items) }
{
    for (f, b) in c.funs.iter().enumerate() {
        if let Some(found) = of_fun(alloc, marked(reached, f), b, c, inert)? {
            return Ok(Some(found));
        }
    }
    Ok(None)
}

// In the body, if it is marked.
fn of_fun(
    alloc: Global,
    mark: bool,
    b: &Body,
    c: &Core,
    inert: &[bool],
) -> Result<Option<Unsized>, Memory>
    requires { (f : ℕ) → counts_in (core_of c.now).funs inert.now f ≡ is_inert_fun (core_of c.now).funs f }
    ensures { IfOk result (λ o. option_map told o ≡ (if mark then unsized_in (core_of c.now).funs (is_inert_fun (core_of c.now).funs) b.now else None)) }
{
    if mark {
        first_unsized(alloc, b, c, inert)
    } else {
        Ok(None)
    }
}
