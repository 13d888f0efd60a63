//! Terms without parts: names, constants, and the values of historical expressions.

ghost use Rattle.std.specs.Prelude.{◌≡◌, map, IfOk};
ghost use Rattle.stream_type.specs.StreamType.{type_of};
ghost use Rattle.stream_prefix.specs.StreamPrefix.{der};
ghost use Rattle.stream_prefix.specs.Tree.{prefix_of};
ghost use Rattle.hist_value.specs.HistExpr.{expr_of};
ghost use Rattle.hist_value.specs.Evaluate.{value};
ghost use Rattle.hist_value.specs.Wholes.{full};
ghost use Rattle.core_term.specs.CoreTerm.{term_of};
ghost use Rattle.core_term.specs.Run.{quiet};
ghost use Rattle.delta_state.specs.StateMeaning.{past_in};
ghost use Rattle.delta_state.specs.StateTree.{sink};
ghost use Rattle.delta_step.specs.Marked.{known_in};
ghost use Rattle.delta_step.specs.Reached.{run_of, rest_of};
ghost use Rattle.delta_step.specs.Steps.{term_run, term_rest};

use crate::boxes::prefix_boxed;
use crate::marked::Known;
use crate::reached::Reached;
use crate::values::value_in;
use crate::without_calls::{named, no_items, nothing, over_at, unit};
use core_term::{Core, Node, Term};
use hist_value::{Expr, full};
use machine_parts::scope::Scope;
use std::alloc::Global;
use stream_prefix::Prefix;
use stream_type::{Memory, Ty};

/// What a term without parts gives in its scope, with its type, and what is left of it. Its only error is want
/// of memory, as which a term with parts counts.
#[tactic(auto, using(core_term::proofs::Rows::rows))]
#[inline(never)]
pub fn reach_alone<'a>(
    alloc: Global,
    core: &Core,
    k: u64,
    scope: &'a Scope<'a>,
    past: &[Known],
    n: &Node,
    r: &Ty,
) -> Result<Reached, Memory>
    ensures run { IfOk result (λ a. run_of a ≡ term_run core.now k scope.now past.now (term_of n.now) (type_of r.now)) }
    ensures rest { IfOk result (λ a. rest_of a ≡ term_rest core.now k scope.now past.now (term_of n.now) (type_of r.now)) }
    ensures none { IfOk result (λ a. a.calls ≡ 0) }
    ensures flat { IfOk result (λ a. a.level ≡ 0) }
{
    match &n.term {
        Term::Var(x) => named(alloc, scope, *x),
        Term::Eps => nothing(alloc),
        Term::Unit => unit(alloc),
        Term::Nil => no_items(alloc),
        Term::Past(m) => whole_value(alloc, past, m, r),
        _ => Err(Memory),
    }
}

// The value of a historical expression as a stream of the type.
fn whole_value(alloc: Global, past: &[Known], m: &Expr, r: &Ty) -> Result<Reached, Memory>
    ensures run { IfOk result (λ a. run_of a ≡ quiet (full (type_of r.now) (value (expr_of m.now) (past_in (map known_in past.now))))) }
    ensures rest { IfOk result (λ a. rest_of a ≡ sink (der (full (type_of r.now) (value (expr_of m.now) (past_in (map known_in past.now)))) (type_of r.now))) }
{
    let output = whole_prefix(alloc, past, m, r)?;
    over_at(alloc, r, output)
}

// The whole prefix of a type that has the value of a historical expression.
fn whole_prefix(alloc: Global, past: &[Known], m: &Expr, r: &Ty) -> Result<Box<Prefix>, Memory>
    ensures { IfOk result (λ p. prefix_of p.value ≡ full (type_of r.now) (value (expr_of m.now) (past_in (map known_in past.now)))) }
{
    let v = value_in(alloc, past, m)?;
    let output = full(alloc, r, &v)?;
    prefix_boxed(alloc, output)
}
