//! Terms that can't go on: cases and waits, with what they take of their free names, and what waits for the end of
//! another term.

ghost use Rattle.std.specs.Prelude.{◌≡◌, IfOk};
ghost use Rattle.stream_type.specs.StreamType.{type_of};
ghost use Rattle.stream_prefix.specs.StreamPrefix.{emp, cat_fst};
ghost use Rattle.core_term.specs.FreeNames.{free_names, once};
ghost use Rattle.core_term.specs.Parts.{as_star};
ghost use Rattle.core_term.specs.Run.{quiet, relabel};
ghost use Rattle.delta_state.specs.StateTree.{cat_state, sum_state, star_state, wait_state};
ghost use Rattle.delta_state.specs.Rest.{taken};
ghost use Rattle.machine_parts.specs.Scope.{types_in, streams_in};
ghost use Rattle.template_state.specs.Readers.{op_term, known_in};
ghost use Rattle.delta_code.specs.Begun.{run_of, rest_of};

use crate::begun::{Begun, first, starred};
use crate::seeing::later;
use crate::still::{held_by, waiting};
use bunch::Name;
use machine_parts::scope::Scope;
use std::alloc::Global;
use std::rc::Rc;
use stream_type::{Memory, Ty};
use template_state::{Live, Op, Past};

/// The case on a sum that `n` is, whose side hasn't come. Its only error is want of memory.
#[inline(never)]
pub fn hold_sum(
    alloc: Global,
    k: u64,
    scope: &Scope<'_>,
    past: &Rc<Past>,
    n: &Rc<Op>,
    z: Name,
    t: &Ty,
    x: Name,
    a: &Rc<Op>,
    y: Name,
    b: &Rc<Op>,
    r: &Ty,
) -> Result<Begun, Memory>
    ensures run { IfOk result (λ c. run_of c ≡ quiet (emp (type_of r.now))) }
    ensures rest { IfOk result (λ c. rest_of c ≡ sum_state z.0 (type_of t.now) (taken (once (free_names (op_term n.now.value))) (types_in scope.now) (streams_in scope.now)) x.0 (record { term = op_term a.now.value; past = known_in past.now.value; depth = k }) y.0 (record { term = op_term b.now.value; past = known_in past.now.value; depth = k })) }
{
    let held = held_by(alloc, n, scope)?;
    let one = later(a, past, k)?;
    let two = later(b, past, k)?;
    let ty = stream_type::copy(alloc, t)?;
    waiting(alloc, r, Live::CaseSum(z, ty, held, x, one, y, two))
}

/// The case on a star that `n` is, of which neither an item nor the end has come. Its only error is want of
/// memory.
#[inline(never)]
pub fn hold_star(
    alloc: Global,
    k: u64,
    scope: &Scope<'_>,
    past: &Rc<Past>,
    n: &Rc<Op>,
    z: Name,
    t: &Ty,
    a: &Rc<Op>,
    y: Name,
    ys: Name,
    b: &Rc<Op>,
    r: &Ty,
) -> Result<Begun, Memory>
    ensures run { IfOk result (λ c. run_of c ≡ quiet (emp (type_of r.now))) }
    ensures rest { IfOk result (λ c. rest_of c ≡ star_state z.0 (type_of t.now) (taken (once (free_names (op_term n.now.value))) (types_in scope.now) (streams_in scope.now)) (record { term = op_term a.now.value; past = known_in past.now.value; depth = k }) y.0 ys.0 (record { term = op_term b.now.value; past = known_in past.now.value; depth = k })) }
{
    let held = held_by(alloc, n, scope)?;
    let one = later(a, past, k)?;
    let two = later(b, past, k)?;
    let ty = stream_type::copy(alloc, t)?;
    waiting(alloc, r, Live::CaseStar(z, ty, held, one, y, ys, two))
}

/// The wait that `n` is, whose subject isn't whole. Its only error is want of memory.
#[inline(never)]
pub fn hold_wait(
    alloc: Global,
    k: u64,
    scope: &Scope<'_>,
    past: &Rc<Past>,
    n: &Rc<Op>,
    x: Name,
    t: &Ty,
    a: &Rc<Op>,
    r: &Ty,
) -> Result<Begun, Memory>
    ensures run { IfOk result (λ c. run_of c ≡ quiet (emp (type_of r.now))) }
    ensures rest { IfOk result (λ c. rest_of c ≡ wait_state x.0 (type_of t.now) (taken (once (free_names (op_term n.now.value))) (types_in scope.now) (streams_in scope.now)) (record { term = op_term a.now.value; past = known_in past.now.value; depth = k })) }
{
    let held = held_by(alloc, n, scope)?;
    let code = later(a, past, k)?;
    let ty = stream_type::copy(alloc, t)?;
    waiting(alloc, r, Live::Wait(x, ty, held, code))
}

/// The first of two, of which the second, a term, waits for its end. Its only error is want of memory.
#[inline(never)]
pub fn before_term(
    alloc: Global,
    one: Begun,
    b: &Rc<Op>,
    past: &Rc<Past>,
    k: u64,
) -> Result<Begun, Memory>
    ensures run { IfOk result (λ r. run_of r ≡ relabel cat_fst (run_of one)) }
    ensures rest { IfOk result (λ r. rest_of r ≡ cat_state (rest_of one) (record { term = op_term b.now.value; past = known_in past.now.value; depth = k })) }
{
    let code = later(b, past, k)?;
    first(alloc, one, code)
}

/// An item that isn't whole in front of the items after it, a term that waits for its end. Its only error is want of
/// memory.
#[inline(never)]
pub fn before_items(
    alloc: Global,
    item: Begun,
    more: &Rc<Op>,
    past: &Rc<Past>,
    k: u64,
) -> Result<Begun, Memory>
    ensures run { IfOk result (λ r. run_of r ≡ relabel as_star (relabel cat_fst (run_of item))) }
    ensures rest { IfOk result (λ r. rest_of r ≡ cat_state (rest_of item) (record { term = op_term more.now.value; past = known_in past.now.value; depth = k })) }
{
    let items = before_term(alloc, item, more, past, k)?;
    starred(alloc, items)
}
