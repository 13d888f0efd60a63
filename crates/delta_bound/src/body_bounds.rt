//! What a body can hold at most, or the first case or wait in it that counts a name without a size.

ghost use Rattle.std.specs.Prelude.{◌≡◌, ℕ, option_map, IfOk};
ghost use Rattle.core_term.specs.CoreTerm.{core_of, core_body_of, fun_at};
ghost use Rattle.core_term.specs.Inert.{is_inert_fun};
ghost use Rattle.delta_check.specs.Counting.{counts_in};
ghost use Rattle.state_bounds.specs.TermBounds.{body_bound};
ghost use Rattle.state_bounds.specs.ProgramBound.{number_at};
ghost use Rattle.delta_bound.specs.Measured.{Measures, IsHeld, IsFound};
ghost use Rattle.delta_bound.specs.Unsized.{told, unsized_in};

use crate::stop::{Stop, Unsized};
use crate::terms::term_bound;
use core_term::{Body, Core};
use delta_check::Scope;
use std::alloc::Global;
use stream_type::Memory;

/// What a body can hold at most with these numbers: `body_bound` in the specs of state_bounds. Its only
/// error is want of memory.
pub fn body_bound(
    alloc: Global,
    b: &Body,
    c: &Core,
    inert: &[bool],
    numbers: &[Option<u64>],
) -> Result<Option<u64>, Memory>
    requires { (f : ℕ) → counts_in (core_of c.now).funs inert.now f ≡ is_inert_fun (core_of c.now).funs f }
    ensures { IfOk result (λ n. n ≡ body_bound (fun_at (core_of c.now).funs) (is_inert_fun (core_of c.now).funs) (number_at numbers.now) (core_body_of b.now)) }
{
    held(measure(alloc, b, c, inert, numbers))
}

/// The first name without a size that a case or a wait of the body counts: `unsized_in` in
/// `specs/Unsized.antt`. Its only error is want of memory.
pub fn first_unsized(
    alloc: Global,
    b: &Body,
    c: &Core,
    inert: &[bool],
) -> Result<Option<Unsized>, Memory>
    requires { (f : ℕ) → counts_in (core_of c.now).funs inert.now f ≡ is_inert_fun (core_of c.now).funs f }
    ensures { IfOk result (λ o. option_map told o ≡ unsized_in (core_of c.now).funs (is_inert_fun (core_of c.now).funs) b.now) }
{
    found(measure(alloc, b, c, inert, &[]))
}

// The measure of a body.
fn measure(
    alloc: Global,
    b: &Body,
    c: &Core,
    inert: &[bool],
    numbers: &[Option<u64>],
) -> Result<Option<u64>, Stop>
    requires { (f : ℕ) → counts_in (core_of c.now).funs inert.now f ≡ is_inert_fun (core_of c.now).funs f }
    ensures { Measures result
        (body_bound (fun_at (core_of c.now).funs) (is_inert_fun (core_of c.now).funs) (number_at numbers.now) (core_body_of b.now))
        (unsized_in (core_of c.now).funs (is_inert_fun (core_of c.now).funs) b.now) }
{
    term_bound(alloc, &b.body, &Scope::Params(b), c, inert, numbers)
}

// The bound by a measure: where it stops at a name, there is none.
fn held(measure: Result<Option<u64>, Stop>) -> Result<Option<u64>, Memory>
    ensures { IfOk result (λ b. IsHeld measure b) }
{
    match measure {
        Ok(b) => Ok(b),
        Err(Stop::Memory) => Err(Memory),
        Err(Stop::Found(_)) => Ok(None),
    }
}

// The name at which a measure stops.
fn found(measure: Result<Option<u64>, Stop>) -> Result<Option<Unsized>, Memory>
    ensures { IfOk result (λ o. IsFound measure o) }
{
    match measure {
        Ok(_) => Ok(None),
        Err(Stop::Memory) => Err(Memory),
        Err(Stop::Found(name)) => Ok(Some(name)),
    }
}
