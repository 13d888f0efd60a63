//! Called bodies: what they see, and what a call of one that isn't there gives.

ghost use Rattle.std.specs.Prelude.{◌≡◌, ℕ, ◌<◌, ◌-◌, ◌++◌, true, false, List, map, IfOk, OnOk, IfSome, IfNone};
ghost use Rattle.stream_prefix.specs.StreamPrefix.{StreamPrefix};
ghost use Rattle.stream_prefix.specs.Tree.{prefix_of};
ghost use Rattle.hist_value.specs.HistValue.{HistValue, hist_value_of};
ghost use Rattle.bunch.specs.BunchTree.{leaf_names};
ghost use Rattle.core_term.specs.CoreTerm.{leaf_types, typed_names_of, fun_at, is_there};
ghost use Rattle.core_term.specs.Run.{one_call};
ghost use Rattle.core_term.specs.Meaning.{run_at, call_at};
ghost use Rattle.delta_state.specs.StateMeaning.{past_in, types_held, prefixes_held};
ghost use Rattle.delta_state.specs.Rest.{rest_at, call_rest_at};
ghost use Rattle.machine_parts.specs.Entry.{entry_in};
ghost use Rattle.machine_parts.specs.Parameters.{names_in, types_listed, bound_to};
ghost use Rattle.template_state.specs.Readers.{known_in};
ghost use Rattle.template_state.specs.Templates.{body_in, bodies_in};
ghost use Rattle.delta_code.specs.Begun.{run_of, rest_of};
ghost use Rattle.delta_code.specs.Steps.{funs_of};

use crate::begun::{Begun, one_call};
use crate::seeing::known;
use crate::still::at_once;
use bunch::Name;
use hist_value::Value;
use machine_parts::entry::Entry;
use machine_parts::params::leaves;
use std::alloc::Global;
use std::mem;
use std::rc::Rc;
use stream_prefix::Prefix;
use stream_type::{Memory, Ty};
use template_state::{Code, Past, Template};

/// What a called body sees.
#[derive(Drop)]
pub struct Inside {
    /// What comes on each parameter.
    pub entries: Vec<Entry>,
    /// The values of its historical parameters.
    pub past: Rc<Past>,
}

/// The template with this number, or None exactly where there is none.
pub fn body_at(code: &Code, f: u32) -> Option<&Template>
    ensures there { IfSome result (λ _. is_there (bodies_in code.now) f ≡ true) }
    ensures body { IfSome result (λ b. body_in b.now ≡ fun_at (bodies_in code.now) f) }
    ensures none { IfNone result (is_there (bodies_in code.now) f ≡ false) }
{
    code.funs.get(f as usize)
}

/// What the body of a function sees on these arguments: a call of the function, with any depth but 0, is
/// the body's run with one less, counted. Its only error is want of memory.
#[inline(never)]
pub fn entered(
    alloc: Global,
    code: &Code,
    f: u32,
    body: &Template,
    values: &[Value],
    streams: &[Prefix],
) -> Result<Inside, Memory>
    requires { body_in body.now ≡ funs_of code.now f }
    ensures runs { IfOk result (λ e. (k : ℕ) → 0 < k → call_at (funs_of code.now) k f (map hist_value_of values.now) (map prefix_of streams.now) ≡ one_call (run_at (funs_of code.now) (k - 1) (funs_of code.now f).body (types_held (map entry_in e.entries.items)) (funs_of code.now f).result (prefixes_held (map entry_in e.entries.items)) (past_in (known_in e.past.value)))) }
    ensures rests { IfOk result (λ e. (k : ℕ) → 0 < k → call_rest_at (funs_of code.now) k f (map hist_value_of values.now) (map prefix_of streams.now) ≡ rest_at (funs_of code.now) (k - 1) (funs_of code.now f).body (types_held (map entry_in e.entries.items)) (funs_of code.now f).result (prefixes_held (map entry_in e.entries.items)) (known_in e.past.value)) }
{
    let mut params = leaves(alloc, &body.params)?;
    let mut entries = Vec::new(alloc);
    add_bound(alloc, &mut params, streams, &mut entries)?;
    let past = known(alloc, &body.past, values)?;
    Ok(Inside { entries, past })
}

// Adds parameters, whose types go into the entries, with what comes on each.
fn add_bound(
    alloc: Global,
    params: &mut [(Name, Ty)],
    streams: &[Prefix],
    found: &mut Vec<Entry>,
) -> Result<(), Memory>
    ensures { OnOk result (map entry_in found.new.items ≡ map entry_in found.old.items ++ bound_to (typed_names_of params.old) (map prefix_of streams.now)) }
{
    let Some((param, rest)) = params.split_first_mut() else {
        return Ok(());
    };
    let name = param.0;
    let ty = mem::replace(&mut param.1, Ty::Eps);
    match streams.split_first() {
        None => {
            let prefix = Prefix::EpsEmp;
            found.push(Entry { name, ty, prefix })?;
            add_bound(alloc, rest, streams, found)
        }
        Some((stream, others)) => {
            let prefix = stream_prefix::copy(alloc, stream)?;
            found.push(Entry { name, ty, prefix })?;
            add_bound(alloc, rest, others, found)
        }
    }
}

/// A call of a function that isn't there. Its only error is want of memory.
#[inline(never)]
pub fn missing(alloc: Global, code: &Code, f: u32) -> Result<Begun, Memory>
    requires { is_there (bodies_in code.now) f ≡ false }
    ensures counted { IfOk result (λ r. r.calls ≡ 1) }
    ensures flat { IfOk result (λ r. r.level ≡ 0) }
    ensures run { IfOk result (λ r. (k : ℕ) (vs : List HistValue) (ps : List StreamPrefix) → 0 < k → run_of r ≡ call_at (funs_of code.now) k f vs ps) }
    ensures rest { IfOk result (λ r. (k : ℕ) (vs : List HistValue) (ps : List StreamPrefix) → 0 < k → rest_of r ≡ call_rest_at (funs_of code.now) k f vs ps) }
{
    Ok(one_call(at_once(alloc, Prefix::EpsEmp)?))
}

/// The parameters of a function, or none of one that isn't there. Its only error is want of memory.
pub fn params_of(alloc: Global, code: &Code, f: u32) -> Result<Vec<(Name, Ty)>, Memory>
    ensures names { IfOk result (λ v. names_in v.items ≡ leaf_names (funs_of code.now f).params) }
    ensures types { IfOk result (λ v. types_listed v.items ≡ leaf_types (funs_of code.now f).params) }
{
    match body_at(code, f) {
        Some(body) => leaves(alloc, &body.params),
        None => Ok(Vec::new(alloc)),
    }
}
