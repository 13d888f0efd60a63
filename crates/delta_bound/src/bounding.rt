//! The bound of a program, or why it has none.

ghost use Rattle.std.specs.Prelude.{◌≡◌, ◌<◌, ◌^◌, ℕ, length, nat_lt, Some, None, IfOk, IfErr};
ghost use Rattle.core_term.specs.CoreTerm.{core_of};
ghost use Rattle.core_term.specs.FreeNames.{HasFewNodes};
ghost use Rattle.core_term.specs.Inert.{is_inert_fun};
ghost use Rattle.core_term.specs.Typing.{IsTypedCore};
ghost use Rattle.delta_check.specs.Counting.{counts_in};
ghost use Rattle.state_bounds.specs.Bounds.{limit};
ghost use Rattle.state_bounds.specs.ProgramBound.{number_at, main_bound, reached_marks, program_numbers, first_cycle};
ghost use Rattle.delta_bound.specs.Unsized.{program_unsized};
ghost use Rattle.delta_bound.specs.Counted.{IsCounted, IsNumber, RefusesCount, RefusesNumber, TellsCycle};
ghost use Rattle.delta_bound.specs.Refusals.{HasBound, Refuses};

use crate::body_bounds::body_bound;
use crate::differing::first_other;
use crate::programs::program_unsized;
use crate::reach::reached;
use crate::refusal::BoundRefusal;
use crate::rounds::{next_of, numbers};
use crate::sizes::LIMIT;
use core_term::{Checked, Core};
use delta_check::inert_funs;
use std::alloc::Global;
use stream_type::Memory;

/// How many events the program can ever hold back (`HasBound` in `specs/Refusals.antt`, which cites the
/// bound of a program in the specs of state_bounds), or why there is no bound (`Refuses` there).
pub fn bound(alloc: Global, c: &Checked) -> Result<u64, BoundRefusal>
    ensures bound { IfOk result (λ n. HasBound c.now n) }
    ensures refused { IfErr result (λ e. Refuses e c.now) }
{
    bound_of(alloc, c.core())
}

// The same of a program that is typed, and whose nodes are fewer than 2^32.
fn bound_of(alloc: Global, c: &Core) -> Result<u64, BoundRefusal>
    requires nodes { HasFewNodes (core_of c.now) }
    requires typed { IsTypedCore (core_of c.now) }
    ensures bound { IfOk result (λ n. HasBound c.now n) }
    ensures refused { IfErr result (λ e. Refuses e c.now) }
{
    let inert = inert_funs(alloc, c)?;
    let reached = reached(alloc, c)?;
    match program_unsized(alloc, c, &inert, &reached)? {
        Some(found) => Err(BoundRefusal::Unbounded {
            x: found.name,
            at: found.at,
        }),
        None => sized(alloc, c, &inert, &reached),
    }
}

// The same of a program in which no name without a size is counted.
fn sized(alloc: Global, c: &Core, inert: &[bool], reached: &[bool]) -> Result<u64, BoundRefusal>
    requires nodes { HasFewNodes (core_of c.now) }
    requires typed { IsTypedCore (core_of c.now) }
    requires inert { (f : ℕ) → counts_in (core_of c.now).funs inert.now f ≡ is_inert_fun (core_of c.now).funs f }
    requires reached { reached.now ≡ reached_marks (core_of c.now) }
    requires sized { program_unsized c.now ≡ None }
    ensures bound { IfOk result (λ n. HasBound c.now n) }
    ensures refused { IfErr result (λ e. Refuses e c.now) }
{
    counted(alloc, c, inert, reached)
}

// The bound by the functions' numbers, where none of them still grows.
fn counted(alloc: Global, c: &Core, inert: &[bool], reached: &[bool]) -> Result<u64, BoundRefusal>
    requires nodes { HasFewNodes (core_of c.now) }
    requires inert { (f : ℕ) → counts_in (core_of c.now).funs inert.now f ≡ is_inert_fun (core_of c.now).funs f }
    requires reached { reached.now ≡ reached_marks (core_of c.now) }
    ensures bound { IfOk result (λ n. IsCounted c.now n) }
    ensures refused { IfErr result (λ e. RefusesCount e c.now) }
{
    let numbers = numbers(alloc, c, inert, reached)?;
    match growing(alloc, c, inert, reached, &numbers)? {
        Some(f) => Err(growth(c, f)),
        None => settled(alloc, c, inert, &numbers),
    }
}

// The lowest function whose number still grows.
fn growing(
    alloc: Global,
    c: &Core,
    inert: &[bool],
    reached: &[bool],
    numbers: &[Option<u64>],
) -> Result<Option<usize>, Memory>
    requires inert { (f : ℕ) → counts_in (core_of c.now).funs inert.now f ≡ is_inert_fun (core_of c.now).funs f }
    requires reached { reached.now ≡ reached_marks (core_of c.now) }
    requires numbers { numbers.now ≡ program_numbers (core_of c.now) }
    ensures { IfOk result (λ o. o ≡ first_cycle (core_of c.now)) }
{
    let next = next_of(alloc, c, inert, reached, numbers)?;
    Ok(first_other(numbers, &next))
}

// The refusal of a program with such a function.
fn growth(c: &Core, f: usize) -> BoundRefusal
    requires nodes { HasFewNodes (core_of c.now) }
    requires first { first_cycle (core_of c.now) ≡ Some f }
    ensures { RefusesCount result c.now }
{
    cycle(c, f)
}

// The bound of a program without one, where it is below the limit.
fn settled(
    alloc: Global,
    c: &Core,
    inert: &[bool],
    numbers: &[Option<u64>],
) -> Result<u64, BoundRefusal>
    requires inert { (f : ℕ) → counts_in (core_of c.now).funs inert.now f ≡ is_inert_fun (core_of c.now).funs f }
    requires numbers { numbers.now ≡ program_numbers (core_of c.now) }
    requires settled { first_cycle (core_of c.now) ≡ None }
    ensures bound { IfOk result (λ n. IsCounted c.now n) }
    ensures refused { IfErr result (λ e. RefusesCount e c.now) }
{
    main_number(alloc, c, inert, numbers)
}

// The bound of main's body with these numbers, where it is below the limit.
fn main_number(
    alloc: Global,
    c: &Core,
    inert: &[bool],
    numbers: &[Option<u64>],
) -> Result<u64, BoundRefusal>
    requires { (f : ℕ) → counts_in (core_of c.now).funs inert.now f ≡ is_inert_fun (core_of c.now).funs f }
    ensures bound { IfOk result (λ n. IsNumber (main_bound (core_of c.now) (number_at numbers.now)) n) }
    ensures large { IfErr result (λ e. RefusesNumber e (main_bound (core_of c.now) (number_at numbers.now))) }
{
    match body_bound(alloc, &c.main, c, inert, numbers)? {
        Some(n) => below(n),
        None => Err(BoundRefusal::Large),
    }
}

// The number, where it is below the limit.
fn below(n: u64) -> Result<u64, BoundRefusal>
    ensures bound { IfOk result (λ m. IsNumber (Some n) m) }
    ensures large { IfErr result (λ e. RefusesNumber e (Some n)) }
{
    if is_below(n) {
        Ok(n)
    } else {
        Err(BoundRefusal::Large)
    }
}

// Whether it is.
fn is_below(n: u64) -> bool
    ensures { result ≡ nat_lt n limit }
{
    n < LIMIT
}

// A cycle at this function, with the place of its body.
fn cycle(c: &Core, f: usize) -> BoundRefusal
    requires there { f < length (core_of c.now).funs }
    requires number { length (core_of c.now).funs < 2 ^ 32 }
    ensures { TellsCycle result c.now f }
{
    BoundRefusal::Cycle {
        f: f as u32,
        at: c.funs[f].body.at,
    }
}
