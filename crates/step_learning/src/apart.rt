//! Depths at which a step is learned.

ghost use Rattle.std.specs.Prelude.{◌≡◌, ◌≤◌, ◌*◌, ◌++◌, length, IfOk, OnOk};
ghost use Rattle.filled_states.specs.Shifts.{spread_from};
ghost use Rattle.step_learning.specs.AreApart.{AreApart};

use stations::Values;
use std::alloc::Global;
use stream_type::Memory;

/// How many depths a state may have at most, where a step of it is to be learned.
pub const MOST_DEPTHS: usize = 1000;

// The first depth, and how much each is above the next.
const FIRST: u64 = 1 << 61;

const APART: u64 = 1_000_001;

/// These numbers, with so many depths that are far apart. Its only error is want of memory.
pub(crate) fn values_apart(alloc: Global, numbers: &[i64], count: usize) -> Result<Values, Memory>
    requires { count ≤ MOST_DEPTHS }
    ensures numbers { IfOk result (λ v. v.numbers.items ≡ numbers.now) }
    ensures count { IfOk result (λ v. length v.depths.items ≡ count) }
    ensures apart { IfOk result (λ v. AreApart v.depths.items) }
{
    let mut depths = Vec::new(alloc);
    add_spread(&mut depths, FIRST, count)?;
    let numbers = copied(alloc, numbers)?;
    Ok(Values { numbers, depths })
}

// Puts so many depths behind these, from the first down.
fn add_spread(depths: &mut Vec<u64>, first: u64, count: usize) -> Result<(), Memory>
    requires { count * 1000001 ≤ first }
    ensures { OnOk result (depths.new.items ≡ depths.old.items ++ spread_from 1000000 first count) }
{
    if count == 0 {
        return Ok(());
    }
    depths.push(first)?;
    add_spread(depths, first - APART, count - 1)
}

// The same numbers in a vector of their own.
fn copied(alloc: Global, numbers: &[i64]) -> Result<Vec<i64>, Memory>
    ensures { IfOk result (λ v. v.items ≡ numbers.now) }
{
    let mut copies = Vec::new(alloc);
    for n in numbers {
        copies.push(*n)?;
    }
    Ok(copies)
}
