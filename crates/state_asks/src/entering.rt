//! Called bodies: what they see, and what a call asks by them.

ghost use Rattle.std.specs.Prelude.{◌≡◌, ◌<◌, ◌-◌, false, map, IfOk, IfSome, IfNone};
ghost use Rattle.stream_prefix.specs.Tree.{prefix_of};
ghost use Rattle.hist_value.specs.HistValue.{hist_value_of};
ghost use Rattle.hist_value.specs.HistExpr.{expr_of};
ghost use Rattle.core_term.specs.CoreTerm.{leaf_types, typed_names_of, fun_at, is_there};
ghost use Rattle.core_term.specs.Meaning.{values};
ghost use Rattle.delta_state.specs.StateMeaning.{past_in, types_held, prefixes_held};
ghost use Rattle.delta_state.specs.Rest.{known_of};
ghost use Rattle.machine_parts.specs.Entry.{entry_in};
ghost use Rattle.machine_parts.specs.Parameters.{types_listed, bound_to};
ghost use Rattle.template_state.specs.Readers.{operand_terms, known_in};
ghost use Rattle.template_state.specs.Templates.{body_in, bodies_in};
ghost use Rattle.other_numbers.specs.Asked.{asked_at, call_asked_at};
ghost use Rattle.delta_code.specs.Steps.{funs_of, ops_run};

use crate::outputs::outputs_of;
use bunch::Name;
use delta_code::{known, values_in};
use hist_value::{Expr, Value};
use machine_parts::entry::Entry;
use machine_parts::params::{bound, leaves};
use machine_parts::scope::Scope;
use machine_parts::stop::Stop;
use std::alloc::Global;
use std::rc::Rc;
use stream_prefix::Prefix;
use stream_type::{Memory, Ty};
use template_state::{Code, Operands, Past, Template};

/// What a called body sees.
#[derive(Drop)]
pub struct Inside {
    /// What comes on each parameter.
    pub entries: Vec<Entry>,
    /// The values of its historical parameters.
    pub past: Rc<Past>,
}

/// The template with this number, or None exactly where there is none.
pub fn body_at(code: &Code, f: u32) -> Option<&Template>
    ensures body { IfSome result (λ b. body_in b.now ≡ fun_at (bodies_in code.now) f) }
    ensures none { IfNone result (is_there (bodies_in code.now) f ≡ false) }
{
    code.funs.get(f as usize)
}

/// The parameters of a function, or none of one that isn't there. Its only error is want of memory.
pub fn params_of(alloc: Global, code: &Code, f: u32) -> Result<Vec<(Name, Ty)>, Memory>
    ensures { IfOk result (λ v. types_listed v.items ≡ leaf_types (funs_of code.now f).params) }
{
    match body_at(code, f) {
        Some(body) => leaves(alloc, &body.params),
        None => Ok(Vec::new(alloc)),
    }
}

/// What the body of a function sees where it is called so: with any depth but 0 the call asks what the body does
/// there with one less. Its errors are those of runs of the arguments.
#[inline(never)]
pub fn seen_inside<'a>(
    alloc: Global,
    code: &Code,
    k: u64,
    scope: &'a Scope<'a>,
    past: &Rc<Past>,
    f: u32,
    body: &Template,
    ms: &[Expr],
    es: &Operands,
    left: u64,
    levels: u64,
) -> Result<Inside, Stop>
    requires room { left < k }
    requires there { body_in body.now ≡ funs_of code.now f }
    ensures { IfOk result (λ e. call_asked_at (funs_of code.now) k f (values (map expr_of ms.now) (past_in (known_in past.now.value))) (ops_run code.now k scope.now past.now.value (operand_terms es.now) (leaf_types (funs_of code.now f).params)).outs ≡ asked_at (funs_of code.now) (k - 1) (funs_of code.now f).body (types_held (map entry_in e.entries.items)) (funs_of code.now f).result (prefixes_held (map entry_in e.entries.items)) (past_in (known_in e.past.value))) }
{
    let values = values_in(alloc, past, ms)?;
    let params = leaves(alloc, &body.params)?;
    let streams = outputs_of(alloc, code, k, scope, past, es, &params, left, levels)?;
    Ok(bound_inside(alloc, body, &params, &values, &streams)?)
}

// The parameters with what comes on each, and the historical ones with their values.
fn bound_inside(
    alloc: Global,
    body: &Template,
    params: &[(Name, Ty)],
    values: &[Value],
    streams: &[Prefix],
) -> Result<Inside, Memory>
    ensures entries { IfOk result (λ e. map entry_in e.entries.items ≡ bound_to (typed_names_of params.now) (map prefix_of streams.now)) }
    ensures past { IfOk result (λ e. known_in e.past.value ≡ known_of (body_in body.now).past (map hist_value_of values.now)) }
{
    let entries = bound(alloc, params, streams)?;
    let past = known(alloc, &body.past, values)?;
    Ok(Inside { entries, past })
}
