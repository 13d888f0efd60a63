//! Cases on sums whose side has come, and waits for what is whole, on the way through lets: of an `if` or a
//! `wait` in front of others nothing waits on the stack.

ghost use Rattle.std.specs.Prelude.{◌≡◌, ◌≤◌, ℕ, IfOk, OnOk};
ghost use Rattle.stream_type.specs.StreamType.{StreamType, type_of};
ghost use Rattle.stream_prefix.specs.StreamPrefix.{der};
ghost use Rattle.stream_prefix.specs.Tree.{prefix_of};
ghost use Rattle.bunch.specs.Names.{put};
ghost use Rattle.core_term.specs.CoreTerm.{case_sum_term, wait_term};
ghost use Rattle.core_term.specs.Environment.{Environment, NameTypes};
ghost use Rattle.delta_state.specs.StateTree.{StateTree, var_state, let_state};
ghost use Rattle.machine_parts.specs.Scope.{types_in, streams_in, types_over, streams_over};
ghost use Rattle.machine_parts.specs.Weights.{weight};
ghost use Rattle.template_state.specs.declared.code.Code.{Code};
ghost use Rattle.template_state.specs.declared.live.Past.{Past};
ghost use Rattle.template_state.specs.Readers.{op_term};
ghost use Rattle.delta_code.specs.Steps.{run_where, rest_where};
ghost use Rattle.delta_code.specs.Way.{within};

use crate::seeing::knowing;
use crate::way::{Layers, into_alias};
use bunch::Name;
use machine_parts::entry::Entry;
use machine_parts::parts::{Sided, side_taken, sum_types};
use machine_parts::scope::{Scope, stream_at, type_at};
use std::alloc::Global;
use std::rc::Rc;
use stream_prefix::{Prefix, maximal};
use stream_type::{Memory, Ty};
use template_state::{Op, Past};

/// Goes on into the branch of a case on a sum whose side has come, with its name bound behind the lets, and
/// there behind waits for what is whole, whose values are known then; and answers what stands there. Its only
/// error is want of memory.
pub fn inward<'a>(
    alloc: Global,
    scope: &Scope<'_>,
    lets: &mut Vec<Entry>,
    layers: &mut Layers,
    past: &mut Rc<Past>,
    n: &'a Rc<Op>,
) -> Result<&'a Rc<Op>, Memory>
    ensures run { IfOk result (λ m. (c : Code) (k : ℕ) (r : StreamType) → run_where c k past.new.value (op_term m.now.value) (types_over lets.new.items (types_in scope.now)) r (streams_over lets.new.items (streams_in scope.now)) ≡ run_where c k past.old.value (op_term n.now.value) (types_over lets.old.items (types_in scope.now)) r (streams_over lets.old.items (streams_in scope.now))) }
    ensures rest { IfOk result (λ m. (c : Code) (k : ℕ) (r : StreamType) → within layers.new (rest_where c k past.new.value (op_term m.now.value) (types_over lets.new.items (types_in scope.now)) r (streams_over lets.new.items (streams_in scope.now))) ≡ within layers.old (rest_where c k past.old.value (op_term n.now.value) (types_over lets.old.items (types_in scope.now)) r (streams_over lets.old.items (streams_in scope.now)))) }
    ensures light { IfOk result (λ m. weight (op_term m.now.value) ≤ weight (op_term n.now.value)) }
{
    let branch = match chosen(alloc, &*scope, lets, layers, n) {
        Ok(branch) => branch,
        Err(Memory) => return Err(Memory),
    };
    waited(alloc, &*scope, &*lets, past, branch)
}

// What stands behind waits for what is whole.
#[cycle(waited)]
fn waited<'a>(
    alloc: Global,
    scope: &Scope<'_>,
    lets: &[Entry],
    past: &mut Rc<Past>,
    n: &'a Rc<Op>,
) -> Result<&'a Rc<Op>, Memory>
    ensures run { IfOk result (λ m. (c : Code) (k : ℕ) (r : StreamType) → run_where c k past.new.value (op_term m.now.value) (types_over lets.now (types_in scope.now)) r (streams_over lets.now (streams_in scope.now)) ≡ run_where c k past.old.value (op_term n.now.value) (types_over lets.now (types_in scope.now)) r (streams_over lets.now (streams_in scope.now))) }
    ensures rest { IfOk result (λ m. (c : Code) (k : ℕ) (r : StreamType) → rest_where c k past.new.value (op_term m.now.value) (types_over lets.now (types_in scope.now)) r (streams_over lets.now (streams_in scope.now)) ≡ rest_where c k past.old.value (op_term n.now.value) (types_over lets.now (types_in scope.now)) r (streams_over lets.now (streams_in scope.now))) }
    ensures light { IfOk result (λ m. weight (op_term m.now.value) ≤ weight (op_term n.now.value)) }
{
    match &**n {
        Op::Wait(x, _, a) => waited_for(alloc, scope, lets, past, n, *x, a),
        _ => Ok(n),
    }
}

// The same of a wait.
#[cycle(waited)]
fn waited_for<'a>(
    alloc: Global,
    scope: &Scope<'_>,
    lets: &[Entry],
    past: &mut Rc<Past>,
    n: &'a Rc<Op>,
    x: Name,
    a: &'a Rc<Op>,
) -> Result<&'a Rc<Op>, Memory>
    ensures run { IfOk result (λ m. (c : Code) (k : ℕ) (r t : StreamType) → op_term n.now.value ≡ wait_term x.0 t (op_term a.now.value) → run_where c k past.new.value (op_term m.now.value) (types_over lets.now (types_in scope.now)) r (streams_over lets.now (streams_in scope.now)) ≡ run_where c k past.old.value (op_term n.now.value) (types_over lets.now (types_in scope.now)) r (streams_over lets.now (streams_in scope.now))) }
    ensures rest { IfOk result (λ m. (c : Code) (k : ℕ) (r t : StreamType) → op_term n.now.value ≡ wait_term x.0 t (op_term a.now.value) → rest_where c k past.new.value (op_term m.now.value) (types_over lets.now (types_in scope.now)) r (streams_over lets.now (streams_in scope.now)) ≡ rest_where c k past.old.value (op_term n.now.value) (types_over lets.now (types_in scope.now)) r (streams_over lets.now (streams_in scope.now))) }
    ensures light { IfOk result (λ m. (t : StreamType) → op_term n.now.value ≡ wait_term x.0 t (op_term a.now.value) → weight (op_term m.now.value) ≤ weight (op_term n.now.value)) }
{
    let all = Scope::Lets(lets, &*scope);
    let p = stream_at(&all, x, &Prefix::EpsEmp);
    if !maximal(p) {
        return Ok(n);
    }
    let known = match knowing(alloc, x, type_at(&all, x, &Ty::Eps), p, &*past) {
        Ok(known) => known,
        Err(Memory) => return Err(Memory),
    };
    *past = known;
    waited(alloc, scope, lets, past, a)
}

// Goes on into the branch of a case on a sum whose side has come; another term stays.
fn chosen<'a>(
    alloc: Global,
    scope: &Scope<'_>,
    lets: &mut Vec<Entry>,
    layers: &mut Layers,
    n: &'a Rc<Op>,
) -> Result<&'a Rc<Op>, Memory>
    ensures run { IfOk result (λ m. (c : Code) (k : ℕ) (es : Past) (r : StreamType) → run_where c k es (op_term m.now.value) (types_over lets.new.items (types_in scope.now)) r (streams_over lets.new.items (streams_in scope.now)) ≡ run_where c k es (op_term n.now.value) (types_over lets.old.items (types_in scope.now)) r (streams_over lets.old.items (streams_in scope.now))) }
    ensures rest { IfOk result (λ m. (c : Code) (k : ℕ) (es : Past) (r : StreamType) → within layers.new (rest_where c k es (op_term m.now.value) (types_over lets.new.items (types_in scope.now)) r (streams_over lets.new.items (streams_in scope.now))) ≡ within layers.old (rest_where c k es (op_term n.now.value) (types_over lets.old.items (types_in scope.now)) r (streams_over lets.old.items (streams_in scope.now)))) }
    ensures light { IfOk result (λ m. weight (op_term m.now.value) ≤ weight (op_term n.now.value)) }
{
    match &**n {
        Op::CaseSum(z, _, x, a, y, b) => {
            chosen_side(alloc, scope, lets, layers, n, *z, *x, a, *y, b)
        }
        _ => Ok(n),
    }
}

// The same of a case on a sum.
fn chosen_side<'a>(
    alloc: Global,
    scope: &Scope<'_>,
    lets: &mut Vec<Entry>,
    layers: &mut Layers,
    n: &'a Rc<Op>,
    z: Name,
    x: Name,
    a: &'a Rc<Op>,
    y: Name,
    b: &'a Rc<Op>,
) -> Result<&'a Rc<Op>, Memory>
    ensures run { IfOk result (λ m. (c : Code) (k : ℕ) (es : Past) (r t : StreamType) → op_term n.now.value ≡ case_sum_term z.0 t x.0 (op_term a.now.value) y.0 (op_term b.now.value) → run_where c k es (op_term m.now.value) (types_over lets.new.items (types_in scope.now)) r (streams_over lets.new.items (streams_in scope.now)) ≡ run_where c k es (op_term n.now.value) (types_over lets.old.items (types_in scope.now)) r (streams_over lets.old.items (streams_in scope.now))) }
    ensures rest { IfOk result (λ m. (c : Code) (k : ℕ) (es : Past) (r t : StreamType) → op_term n.now.value ≡ case_sum_term z.0 t x.0 (op_term a.now.value) y.0 (op_term b.now.value) → within layers.new (rest_where c k es (op_term m.now.value) (types_over lets.new.items (types_in scope.now)) r (streams_over lets.new.items (streams_in scope.now))) ≡ within layers.old (rest_where c k es (op_term n.now.value) (types_over lets.old.items (types_in scope.now)) r (streams_over lets.old.items (streams_in scope.now)))) }
    ensures light { IfOk result (λ m. (t : StreamType) → op_term n.now.value ≡ case_sum_term z.0 t x.0 (op_term a.now.value) y.0 (op_term b.now.value) → weight (op_term m.now.value) ≤ weight (op_term n.now.value)) }
{
    let all = Scope::Lets(&*lets, &*scope);
    let (s, u) = sum_types(type_at(&all, z, &Ty::Eps), &Ty::Eps);
    match side_taken(stream_at(&all, z, &Prefix::EpsEmp)) {
        Sided::Left(q) => {
            let entry = alias(alloc, layers, x, s, q, z)?;
            add(lets, entry)?;
            Ok(a)
        }
        Sided::Right(q) => {
            let entry = alias(alloc, layers, y, u, q, z)?;
            add(lets, entry)?;
            Ok(b)
        }
        Sided::Nothing => Ok(n),
    }
}

// Goes on into a let of a name for z, of type t, after p on it, and answers the name with these.
fn alias(
    alloc: Global,
    layers: &mut Layers,
    x: Name,
    t: &Ty,
    p: &Prefix,
    z: Name,
) -> Result<Entry, Memory>
    ensures rest { OnOk result ((s : StateTree) → within layers.new s ≡ within layers.old (let_state x.0 (der (prefix_of p.now) (type_of t.now)) (var_state z.0) s)) }
    ensures name { IfOk result (λ e. e.name ≡ x) }
    ensures ty { IfOk result (λ e. type_of e.ty ≡ type_of t.now) }
    ensures prefix { IfOk result (λ e. prefix_of e.prefix ≡ prefix_of p.now) }
{
    let ty = stream_type::copy(alloc, t)?;
    let prefix = stream_prefix::copy(alloc, p)?;
    into_alias(alloc, layers, x, t, p, z)?;
    Ok(Entry {
        name: x,
        ty,
        prefix,
    })
}

// One name more behind those that were bound before it.
#[tactic(auto, using(machine_parts::proofs::Bound::types_over_one, machine_parts::proofs::Bound::streams_over_one))]
fn add(lets: &mut Vec<Entry>, e: Entry) -> Result<(), Memory>
    ensures types { OnOk result ((c : NameTypes) → types_over lets.new.items c ≡ put e.name.0 (type_of e.ty) (types_over lets.old.items c)) }
    ensures streams { OnOk result ((d : Environment) → streams_over lets.new.items d ≡ put e.name.0 (prefix_of e.prefix) (streams_over lets.old.items d)) }
{
    lets.push(e)?;
    Ok(())
}
