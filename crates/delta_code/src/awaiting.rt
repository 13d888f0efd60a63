//! The step of a state on what comes of the input. Where one name is awaited, or two at once, their types and what
//! comes on them are read where they stand; else each name that is awaited has an entry of its own.

ghost use Rattle.std.specs.Prelude.{◌≡◌, ◌<◌, ◌≤◌, IfOk, IfErr, OnOk};
ghost use Rattle.stream_type.specs.StreamType.{type_of};
ghost use Rattle.stream_prefix.specs.StreamPrefix.{par_both};
ghost use Rattle.stream_prefix.specs.Tree.{prefix_of};
ghost use Rattle.machine_parts.specs.AwaitedTree.{stream_awaited, both_awaited, awaited_in};
ghost use Rattle.template_state.specs.Readers.{state_in};
ghost use Rattle.delta_code.specs.Eased.{Eased};
ghost use Rattle.delta_code.specs.Told.{told};
ghost use Rattle.delta_code.specs.CodedView.{run_awaiting, rest_awaiting};

use crate::stepping::step;
use crate::told::Told;
use bunch::Name;
use machine_parts::awaited::{Awaited, entries};
use machine_parts::scope::Scope;
use machine_parts::stop::{LEVELS, Stop};
use std::alloc::Global;
use stream_prefix::Prefix;
use stream_type::Ty;
use template_state::{Code, Live};

/// What a state gives on what comes next, where so much is awaited and this type is left of its output, with no
/// more calls than the budget; the state is then what is left of it. It is `Spent` only where more calls are made,
/// and `Deep` only where one is made at too great a level. Its other error is want of memory.
pub fn step_awaiting(
    alloc: Global,
    code: &Code,
    awaited: &Awaited,
    next: &Prefix,
    state: &mut Live,
    output: &Ty,
    budget: u64,
) -> Result<Told, Stop>
    ensures run { IfOk result (λ r. told r ≡ run_awaiting code.now (state_in state.old) (type_of output.now) (awaited_in awaited.now) (prefix_of next.now)) }
    ensures rest { OnOk result (Eased (rest_awaiting code.now (state_in state.old) (type_of output.now) (awaited_in awaited.now) (prefix_of next.now)) (state_in state.new)) }
    ensures counted { IfOk result (λ r. r.calls ≤ budget) }
    ensures shallow { IfOk result (λ r. r.level ≤ 1001) }
    ensures spent { IfErr result (λ e. e ≡ Stop.Spent → budget < (run_awaiting code.now (state_in state.old) (type_of output.now) (awaited_in awaited.now) (prefix_of next.now)).calls) }
    ensures deep { IfErr result (λ e. e ≡ Stop.Deep → 1001 < (run_awaiting code.now (state_in state.old) (type_of output.now) (awaited_in awaited.now) (prefix_of next.now)).level) }
{
    match awaited {
        Awaited::Stream(x, t) => on_one(alloc, code, *x, t, next, state, output, budget),
        Awaited::AtOnce(a, b) => {
            if let Awaited::Stream(x, t) = &**a {
                if let Awaited::Stream(y, u) = &**b {
                    if let Prefix::Par(d, e) = next {
                        return on_two(alloc, code, *x, t, d, *y, u, e, state, output, budget);
                    }
                }
            }
            on_all(alloc, code, awaited, next, state, output, budget)
        }
        _ => on_all(alloc, code, awaited, next, state, output, budget),
    }
}

// The step where one name is awaited, whose type and what comes on it are read where they stand.
fn on_one(
    alloc: Global,
    code: &Code,
    x: Name,
    t: &Ty,
    next: &Prefix,
    state: &mut Live,
    output: &Ty,
    budget: u64,
) -> Result<Told, Stop>
    ensures run { IfOk result (λ r. told r ≡ run_awaiting code.now (state_in state.old) (type_of output.now) (stream_awaited x.0 (type_of t.now)) (prefix_of next.now)) }
    ensures rest { OnOk result (Eased (rest_awaiting code.now (state_in state.old) (type_of output.now) (stream_awaited x.0 (type_of t.now)) (prefix_of next.now)) (state_in state.new)) }
    ensures counted { IfOk result (λ r. r.calls ≤ budget) }
    ensures shallow { IfOk result (λ r. r.level ≤ 1001) }
    ensures spent { IfErr result (λ e. e ≡ Stop.Spent → budget < (run_awaiting code.now (state_in state.old) (type_of output.now) (stream_awaited x.0 (type_of t.now)) (prefix_of next.now)).calls) }
    ensures deep { IfErr result (λ e. e ≡ Stop.Deep → 1001 < (run_awaiting code.now (state_in state.old) (type_of output.now) (stream_awaited x.0 (type_of t.now)) (prefix_of next.now)).level) }
{
    let nothing = Vec::new(alloc);
    let outer = Scope::Names(&nothing);
    let scope = Scope::Stream(x, t, next, &outer);
    step(alloc, code, &scope, state, output, budget, LEVELS)
}

// The same where two names are awaited at once.
fn on_two(
    alloc: Global,
    code: &Code,
    x: Name,
    t: &Ty,
    d: &Prefix,
    y: Name,
    u: &Ty,
    e: &Prefix,
    state: &mut Live,
    output: &Ty,
    budget: u64,
) -> Result<Told, Stop>
    ensures run { IfOk result (λ r. told r ≡ run_awaiting code.now (state_in state.old) (type_of output.now) (both_awaited (stream_awaited x.0 (type_of t.now)) (stream_awaited y.0 (type_of u.now))) (par_both (prefix_of d.now) (prefix_of e.now))) }
    ensures rest { OnOk result (Eased (rest_awaiting code.now (state_in state.old) (type_of output.now) (both_awaited (stream_awaited x.0 (type_of t.now)) (stream_awaited y.0 (type_of u.now))) (par_both (prefix_of d.now) (prefix_of e.now))) (state_in state.new)) }
    ensures counted { IfOk result (λ r. r.calls ≤ budget) }
    ensures shallow { IfOk result (λ r. r.level ≤ 1001) }
    ensures spent { IfErr result (λ q. q ≡ Stop.Spent → budget < (run_awaiting code.now (state_in state.old) (type_of output.now) (both_awaited (stream_awaited x.0 (type_of t.now)) (stream_awaited y.0 (type_of u.now))) (par_both (prefix_of d.now) (prefix_of e.now))).calls) }
    ensures deep { IfErr result (λ q. q ≡ Stop.Deep → 1001 < (run_awaiting code.now (state_in state.old) (type_of output.now) (both_awaited (stream_awaited x.0 (type_of t.now)) (stream_awaited y.0 (type_of u.now))) (par_both (prefix_of d.now) (prefix_of e.now))).level) }
{
    let nothing = Vec::new(alloc);
    let outer = Scope::Names(&nothing);
    let second = Scope::Stream(y, u, e, &outer);
    let scope = Scope::Stream(x, t, d, &second);
    step(alloc, code, &scope, state, output, budget, LEVELS)
}

// The step on entries for all names that are awaited.
fn on_all(
    alloc: Global,
    code: &Code,
    awaited: &Awaited,
    next: &Prefix,
    state: &mut Live,
    output: &Ty,
    budget: u64,
) -> Result<Told, Stop>
    ensures run { IfOk result (λ r. told r ≡ run_awaiting code.now (state_in state.old) (type_of output.now) (awaited_in awaited.now) (prefix_of next.now)) }
    ensures rest { OnOk result (Eased (rest_awaiting code.now (state_in state.old) (type_of output.now) (awaited_in awaited.now) (prefix_of next.now)) (state_in state.new)) }
    ensures counted { IfOk result (λ r. r.calls ≤ budget) }
    ensures shallow { IfOk result (λ r. r.level ≤ 1001) }
    ensures spent { IfErr result (λ e. e ≡ Stop.Spent → budget < (run_awaiting code.now (state_in state.old) (type_of output.now) (awaited_in awaited.now) (prefix_of next.now)).calls) }
    ensures deep { IfErr result (λ e. e ≡ Stop.Deep → 1001 < (run_awaiting code.now (state_in state.old) (type_of output.now) (awaited_in awaited.now) (prefix_of next.now)).level) }
{
    let entries = entries(alloc, awaited, next)?;
    let scope = Scope::Names(&entries);
    step(alloc, code, &scope, state, output, budget, LEVELS)
}
