//! One after the other: whether the second part goes on, and what is given where it doesn't.

ghost use Rattle.std.specs.Prelude.{◌≡◌, map, IfOk};
ghost use Rattle.stream_prefix.specs.StreamPrefix.{cat_fst, is_maximal};
ghost use Rattle.stream_prefix.specs.Tree.{prefix_of};
ghost use Rattle.core_term.specs.CoreTerm.{term_of};
ghost use Rattle.core_term.specs.Run.{relabel};
ghost use Rattle.delta_state.specs.StateTree.{cat_state};
ghost use Rattle.delta_step.specs.Marked.{known_in, code_in};
ghost use Rattle.delta_step.specs.Reached.{run_of, rest_of};

use crate::copying::{copy_code, later};
use crate::marked::{Code, Known};
use crate::reached::{Reached, first};
use core_term::Node;
use std::alloc::Global;
use stream_prefix::{Prefix, maximal};
use stream_type::Memory;

/// Whether the second of two parts goes on: once what the first gives is whole.
pub fn goes_on(given: &Prefix) -> bool
    ensures { result ≡ is_maximal (prefix_of given.now) }
{
    maximal(given)
}

/// What the first of two parts gives, and what is left of it, before the term of the second, which isn't
/// reached. Its only error is want of memory.
#[inline(never)]
pub fn before_term(
    alloc: Global,
    a: Reached,
    n: &Node,
    past: &[Known],
    depth: u64,
) -> Result<Reached, Memory>
    ensures run { IfOk result (λ r. run_of r ≡ relabel cat_fst (run_of a)) }
    ensures rest { IfOk result (λ r. rest_of r ≡ cat_state (rest_of a) (record { term = term_of n.now; past = map known_in past.now; depth = depth })) }
{
    let code = later(alloc, n, past, depth)?;
    first(alloc, a, code)
}

/// The same before code that isn't reached. Its only error is want of memory.
#[inline(never)]
pub fn before_code(alloc: Global, a: Reached, l: &Code) -> Result<Reached, Memory>
    ensures run { IfOk result (λ r. run_of r ≡ relabel cat_fst (run_of a)) }
    ensures rest { IfOk result (λ r. rest_of r ≡ cat_state (rest_of a) (code_in l.now)) }
{
    let code = copy_code(alloc, l)?;
    first(alloc, a, code)
}
