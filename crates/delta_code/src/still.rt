//! What is given without a call.

ghost use Rattle.std.specs.Prelude.{◌≡◌, map, IfOk};
ghost use Rattle.stream_type.specs.StreamType.{type_of, eps};
ghost use Rattle.stream_prefix.specs.StreamPrefix.{emp, der, star_done};
ghost use Rattle.stream_prefix.specs.Tree.{prefix_of};
ghost use Rattle.hist_value.specs.HistExpr.{expr_of};
ghost use Rattle.core_term.specs.CoreTerm.{past_term};
ghost use Rattle.core_term.specs.FreeNames.{free_names, once};
ghost use Rattle.core_term.specs.Run.{quiet};
ghost use Rattle.delta_state.specs.StateTree.{sink, var_state};
ghost use Rattle.delta_state.specs.Rest.{taken};
ghost use Rattle.machine_parts.specs.Entry.{entry_in};
ghost use Rattle.machine_parts.specs.Scope.{types_in, streams_in};
ghost use Rattle.template_state.specs.Readers.{op_term, state_in};
ghost use Rattle.delta_code.specs.Begun.{run_of, rest_of};
ghost use Rattle.delta_code.specs.Steps.{op_run, op_rest};

use crate::begun::{Begun, over, quiet};
use crate::free::free;
use crate::seeing::value_in;
use bunch::Name;
use hist_value::{Expr, full};
use machine_parts::entry::Entry;
use machine_parts::holding::taken;
use machine_parts::parts::{copied, nothing_yet};
use machine_parts::scope::{Scope, stream_at};
use machine_parts::stars::over_star;
use std::alloc::Global;
use std::rc::Rc;
use stream_prefix::Prefix;
use stream_type::{Memory, Ty};
use template_state::{Code, Live, Op, Past};

/// A name: what comes on it, and the name again. Its only error is want of memory.
#[inline(never)]
pub fn named(alloc: Global, scope: &Scope<'_>, x: Name) -> Result<Begun, Memory>
    ensures run { IfOk result (λ r. run_of r ≡ quiet (streams_in scope.now x.0)) }
    ensures rest { IfOk result (λ r. rest_of r ≡ var_state x.0) }
{
    let output = copied(alloc, stream_at(scope, x, &Prefix::EpsEmp))?;
    let state = Box::new(alloc, Live::Var(x))?;
    Ok(quiet(output, state))
}

/// What is whole at once, and nothing after it. Its only error is want of memory.
#[inline(never)]
pub fn at_once(alloc: Global, output: Prefix) -> Result<Begun, Memory>
    ensures run { IfOk result (λ r. run_of r ≡ quiet (prefix_of output)) }
    ensures rest { IfOk result (λ r. rest_of r ≡ sink eps) }
{
    let output = Box::new(alloc, output)?;
    let state = Box::new(alloc, Live::Sink(Ty::Eps))?;
    Ok(quiet(output, state))
}

/// A star that is over, and nothing after it. Its only error is want of memory.
#[inline(never)]
pub fn no_items(alloc: Global) -> Result<Begun, Memory>
    ensures run { IfOk result (λ r. run_of r ≡ quiet star_done) }
    ensures rest { IfOk result (λ r. rest_of r ≡ sink eps) }
{
    at_once(alloc, over_star(alloc))
}

/// What is whole of a type, and what is left of the type. Its only error is want of memory.
#[inline(never)]
pub fn over_at(alloc: Global, t: &Ty, output: Prefix) -> Result<Begun, Memory>
    ensures run { IfOk result (λ r. run_of r ≡ quiet (prefix_of output)) }
    ensures rest { IfOk result (λ r. rest_of r ≡ sink (der (prefix_of output) (type_of t.now))) }
{
    let output = Box::new(alloc, output)?;
    let state = over(alloc, t, &output)?;
    Ok(quiet(output, state))
}

/// Nothing of this type, and a state that waits. Its only error is want of memory.
#[inline(never)]
pub fn waiting(alloc: Global, r: &Ty, state: Live) -> Result<Begun, Memory>
    ensures run { IfOk result (λ a. run_of a ≡ quiet (emp (type_of r.now))) }
    ensures rest { IfOk result (λ a. rest_of a ≡ state_in state) }
{
    let state = Box::new(alloc, state)?;
    let output = nothing_yet(alloc, r)?;
    Ok(quiet(output, state))
}

/// The value of a historical expression as a stream of the type. Its only error is want of memory.
#[inline(never)]
pub fn whole_past<'a>(
    alloc: Global,
    code: &Code,
    k: u64,
    scope: &'a Scope<'a>,
    past: &Rc<Past>,
    m: &Expr,
    r: &Ty,
) -> Result<Begun, Memory>
    ensures run { IfOk result (λ a. run_of a ≡ op_run code.now k scope.now past.now.value (past_term (expr_of m.now)) (type_of r.now)) }
    ensures rest { IfOk result (λ a. rest_of a ≡ op_rest code.now k scope.now past.now.value (past_term (expr_of m.now)) (type_of r.now)) }
{
    let v = value_in(alloc, past, m)?;
    let output = full(alloc, r, &v)?;
    over_at(alloc, r, output)
}

/// What a case or a wait that can't go on takes of its free names. Its only error is want of memory.
#[inline(never)]
pub fn held_by(alloc: Global, n: &Rc<Op>, scope: &Scope<'_>) -> Result<Vec<Entry>, Memory>
    ensures { IfOk result (λ v. map entry_in v.items ≡ taken (once (free_names (op_term n.now.value))) (types_in scope.now) (streams_in scope.now)) }
{
    let names = free(alloc, n)?;
    taken(alloc, &names, scope)
}
