//! Whether names stand before others, and the first two that don't.

ghost use Rattle.std.specs.Prelude.{◌≡◌, ℕ, option_map, not, IfOk};
ghost use Rattle.bunch.specs.Names.{numbers_of};
ghost use Rattle.core_term.specs.CoreTerm.{term_of};
ghost use Rattle.core_term.specs.FreeNames.{free_names};
ghost use Rattle.core_term.specs.Typing.{is_before};
ghost use Rattle.core_term.specs.TypeFaults.{first_pair, first_found, found_where};
ghost use Rattle.delta_check.specs.Scopes.{context_in};

use crate::scope::{Scope, before, stream_type};
use bunch::Name;
use core_term::{Node, free};
use std::alloc::Global;
use stream_type::Memory;

/// The first free name of the first term, and with it the first of the second, where the one doesn't
/// stand before the other; or None, where each stands before each. Its only error is want of memory.
pub fn unordered(
    alloc: Global,
    scope: &Scope<'_>,
    a: &Node,
    b: &Node,
) -> Result<Option<(Name, Name)>, Memory>
    ensures { IfOk result (λ o. option_map {U = ℕ × ℕ} (λ p. (p.0.0, p.1.0)) o
        ≡ first_pair (context_in scope.now) (free_names (term_of a.now)) (free_names (term_of b.now))) }
{
    let (left, right) = (free(alloc, a)?, free(alloc, b)?);
    Ok(first_pair(scope, &left, &right))
}

// The same of names.
fn first_pair(scope: &Scope<'_>, left: &[Name], right: &[Name]) -> Option<(Name, Name)>
    ensures { option_map {U = ℕ × ℕ} (λ p. (p.0.0, p.1.0)) result ≡ first_pair (context_in scope.now) (numbers_of left.now) (numbers_of right.now) }
{
    for x in left {
        if let Some(y) = first_not_after(scope, *x, right) {
            return Some((*x, y));
        }
    }
    None
}

// The first of the names that x doesn't stand before.
fn first_not_after(scope: &Scope<'_>, x: Name, names: &[Name]) -> Option<Name>
    ensures { option_map {U = ℕ × ℕ} (λ y. (x.0, y.0)) result
        ≡ first_found {B = ℕ × ℕ} (λ y. found_where (not (is_before (context_in scope.now) x.0 y)) (x.0, y)) (numbers_of names.now) }
{
    for y in names {
        if !is_before(scope, x, *y) {
            return Some(*y);
        }
    }
    None
}

/// Whether both are stream variables and x stands before y.
pub fn is_before(scope: &Scope<'_>, x: Name, y: Name) -> bool
    ensures { result ≡ is_before (context_in scope.now) x.0 y.0 }
{
    stream_type(scope, x).is_some() && stream_type(scope, y).is_some() && before(scope, x, y)
}
