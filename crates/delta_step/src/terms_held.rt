//! Terms that can't go on: cases and waits, with what they take of their free names.

ghost use Rattle.std.specs.Prelude.{◌≡◌, map, IfOk};
ghost use Rattle.stream_type.specs.StreamType.{type_of};
ghost use Rattle.stream_prefix.specs.StreamPrefix.{emp};
ghost use Rattle.core_term.specs.CoreTerm.{term_of};
ghost use Rattle.core_term.specs.FreeNames.{free_names, once};
ghost use Rattle.core_term.specs.Run.{quiet};
ghost use Rattle.delta_state.specs.StateTree.{sum_state, star_state, wait_state};
ghost use Rattle.delta_state.specs.Rest.{taken};
ghost use Rattle.delta_step.specs.Marked.{known_in, code_in};
ghost use Rattle.machine_parts.specs.Entry.{entry_in};
ghost use Rattle.machine_parts.specs.Scope.{types_in, streams_in};
ghost use Rattle.delta_step.specs.Reached.{run_of, rest_of};

use crate::copying::later;
use crate::holding_back::{star_waits, subject_waits, sum_waits};
use crate::marked::{Code, Known};
use crate::reached::Reached;
use bunch::Name;
use core_term::{Node, free};
use machine_parts::entry::Entry;
use machine_parts::holding::taken;
use machine_parts::results::pair;
use machine_parts::scope::Scope;
use std::alloc::Global;
use stream_type::{Memory, Ty};

/// The case on a sum that `n` is, whose side hasn't come. Its only error is want of memory.
#[inline(never)]
pub fn hold_sum(
    alloc: Global,
    k: u64,
    scope: &Scope<'_>,
    past: &[Known],
    n: &Node,
    z: Name,
    t: &Ty,
    x: Name,
    a: &Node,
    y: Name,
    b: &Node,
    r: &Ty,
) -> Result<Reached, Memory>
    ensures run { IfOk result (λ c. run_of c ≡ quiet (emp (type_of r.now))) }
    ensures rest { IfOk result (λ c. rest_of c ≡ sum_state z.0 (type_of t.now) (taken (once (free_names (term_of n.now))) (types_in scope.now) (streams_in scope.now)) x.0 (record { term = term_of a.now; past = map known_in past.now; depth = k }) y.0 (record { term = term_of b.now; past = map known_in past.now; depth = k })) }
{
    let codes = both_later(alloc, a, b, past, k);
    sum_waits(alloc, z, t, held_by(alloc, n, scope), x, y, codes, r)
}

/// The case on a star that `n` is, of which neither an item nor the end has come. Its only error is want of
/// memory.
#[inline(never)]
pub fn hold_star(
    alloc: Global,
    k: u64,
    scope: &Scope<'_>,
    past: &[Known],
    n: &Node,
    z: Name,
    t: &Ty,
    a: &Node,
    y: Name,
    ys: Name,
    b: &Node,
    r: &Ty,
) -> Result<Reached, Memory>
    ensures run { IfOk result (λ c. run_of c ≡ quiet (emp (type_of r.now))) }
    ensures rest { IfOk result (λ c. rest_of c ≡ star_state z.0 (type_of t.now) (taken (once (free_names (term_of n.now))) (types_in scope.now) (streams_in scope.now)) (record { term = term_of a.now; past = map known_in past.now; depth = k }) y.0 ys.0 (record { term = term_of b.now; past = map known_in past.now; depth = k })) }
{
    let codes = both_later(alloc, a, b, past, k);
    star_waits(alloc, z, t, held_by(alloc, n, scope), y, ys, codes, r)
}

/// The wait that `n` is, whose subject isn't whole. Its only error is want of memory.
#[inline(never)]
pub fn hold_wait(
    alloc: Global,
    k: u64,
    scope: &Scope<'_>,
    past: &[Known],
    n: &Node,
    x: Name,
    t: &Ty,
    a: &Node,
    r: &Ty,
) -> Result<Reached, Memory>
    ensures run { IfOk result (λ c. run_of c ≡ quiet (emp (type_of r.now))) }
    ensures rest { IfOk result (λ c. rest_of c ≡ wait_state x.0 (type_of t.now) (taken (once (free_names (term_of n.now))) (types_in scope.now) (streams_in scope.now)) (record { term = term_of a.now; past = map known_in past.now; depth = k })) }
{
    let held = held_by(alloc, n, scope);
    subject_waits(alloc, x, t, held, later(alloc, a, past, k), r)
}

// Two terms that aren't reached.
fn both_later(
    alloc: Global,
    a: &Node,
    b: &Node,
    past: &[Known],
    k: u64,
) -> Result<(Code, Code), Memory>
    ensures { IfOk result (λ p. (code_in p.0 ≡ record { term = term_of a.now; past = map known_in past.now; depth = k }) × (code_in p.1 ≡ record { term = term_of b.now; past = map known_in past.now; depth = k })) }
{
    pair(later(alloc, a, past, k), later(alloc, b, past, k))
}

// What a case or a wait that can't go on takes of its free names.
fn held_by(alloc: Global, n: &Node, scope: &Scope<'_>) -> Result<Vec<Entry>, Memory>
    ensures { IfOk result (λ v. map entry_in v.items ≡ taken (once (free_names (term_of n.now))) (types_in scope.now) (streams_in scope.now)) }
{
    let names = free(alloc, n)?;
    taken(alloc, &names, scope)
}
