//! The facts of a name that is new in a table: whether each name stands before it, and whether it
//! stands before each.

ghost use Rattle.std.specs.Prelude.{◌≡◌, map, IfOk};
ghost use Rattle.bunch.specs.Names.{numbers_of};
ghost use Rattle.bunch.specs.Facts.{before_like, after_like, before_let, after_let};
ghost use Rattle.bunch.specs.Table.{lists_of, facts_in, IsSquare};

use crate::name::Name;
use crate::table::fact;
use std::alloc::Global;
use stream_type::Memory;

// Whether each name stands before one that is placed like z.
pub(crate) fn befores_like(
    alloc: Global,
    names: &[Name],
    rows: &[Vec<bool>],
    z: Name,
) -> Result<Vec<bool>, Memory>
    requires { IsSquare (numbers_of names.now) (lists_of rows.now) }
    ensures { let ns = numbers_of names.now in
        IfOk result (λ v. v.items ≡ map (before_like z.0 (facts_in ns (lists_of rows.now))) ns) }
{
    let mut befores = Vec::new(alloc);
    for y in names {
        befores.push(y.0 != z.0 && fact(names, rows, *y, z))?;
    }
    Ok(befores)
}

// Whether a name that is placed like z stands before each.
pub(crate) fn afters_like(
    alloc: Global,
    names: &[Name],
    rows: &[Vec<bool>],
    z: Name,
) -> Result<Vec<bool>, Memory>
    requires { IsSquare (numbers_of names.now) (lists_of rows.now) }
    ensures { let ns = numbers_of names.now in
        IfOk result (λ v. v.items ≡ map (after_like z.0 (facts_in ns (lists_of rows.now))) ns) }
{
    let mut afters = Vec::new(alloc);
    for y in names {
        afters.push(y.0 != z.0 && fact(names, rows, z, *y))?;
    }
    Ok(afters)
}

// Whether each name stands before one that is bound to what has these free names.
pub(crate) fn befores_let(
    alloc: Global,
    names: &[Name],
    rows: &[Vec<bool>],
    free: &[Name],
    inert: bool,
) -> Result<Vec<bool>, Memory>
    requires { IsSquare (numbers_of names.now) (lists_of rows.now) }
    ensures { let ns = numbers_of names.now in
        IfOk result (λ v. v.items
        ≡ map (before_let (numbers_of free.now) inert (facts_in ns (lists_of rows.now))) ns) }
{
    let mut befores = Vec::new(alloc);
    for y in names {
        befores.push(before_all(names, rows, *y, free, inert))?;
    }
    Ok(befores)
}

// Whether a name that is bound to what has these free names stands before each.
pub(crate) fn afters_let(
    alloc: Global,
    names: &[Name],
    rows: &[Vec<bool>],
    free: &[Name],
) -> Result<Vec<bool>, Memory>
    requires { IsSquare (numbers_of names.now) (lists_of rows.now) }
    ensures { let ns = numbers_of names.now in
        IfOk result (λ v. v.items
        ≡ map (after_let (numbers_of free.now) (facts_in ns (lists_of rows.now))) ns) }
{
    let mut afters = Vec::new(alloc);
    for y in names {
        afters.push(all_before(names, rows, free, *y))?;
    }
    Ok(afters)
}

// Whether y stands before all of the free names, if inert is true.
fn before_all(names: &[Name], rows: &[Vec<bool>], y: Name, free: &[Name], inert: bool) -> bool
    requires { IsSquare (numbers_of names.now) (lists_of rows.now) }
    ensures { let before = facts_in (numbers_of names.now) (lists_of rows.now) in
        result ≡ before_let (numbers_of free.now) inert before y.0 }
{
    if !inert {
        return false;
    }
    for z in free {
        if !fact(names, rows, y, *z) {
            return false;
        }
    }
    true
}

// Whether all of the free names stand before y.
fn all_before(names: &[Name], rows: &[Vec<bool>], free: &[Name], y: Name) -> bool
    requires { IsSquare (numbers_of names.now) (lists_of rows.now) }
    ensures { let before = facts_in (numbers_of names.now) (lists_of rows.now) in
        result ≡ after_let (numbers_of free.now) before y.0 }
{
    for z in free {
        if !fact(names, rows, *z, y) {
            return false;
        }
    }
    true
}
