//! What an evaluation looks up at its place and in its scope, and what is given without a call.

ghost use Rattle.std.specs.Prelude.{◌≡◌, ℕ, ◌<◌, ◌≤◌, is_some, IfOk, IfErr, IfSome};
ghost use Rattle.stream_type.specs.StreamType.{type_of};
ghost use Rattle.stream_prefix.specs.StreamPrefix.{is_maximal, emp, star_done};
ghost use Rattle.stream_prefix.specs.Tree.{prefix_of};
ghost use Rattle.hist_value.specs.HistValue.{hist_value_of};
ghost use Rattle.hist_value.specs.Evaluate.{value};
ghost use Rattle.hist_value.specs.Wholes.{value_of, full};
ghost use Rattle.delta_tree.specs.Tree.{expression_of, head_of, hist_of};
ghost use Rattle.core_term.specs.Run.{quiet};
ghost use Rattle.core_term.specs.CoreTerm.{leaf_types};
ghost use Rattle.core_term.specs.Params.{types_listed};
ghost use Rattle.delta_meaning.specs.TypeNames.{type_meant};
ghost use Rattle.delta_meaning.specs.KnownTypes.{names_known};
ghost use Rattle.delta_meaning.specs.SourceBody.{SourceBody};
ghost use Rattle.delta_meaning.specs.SourceMeaning.{is_name, is_name_head, head_type};
ghost use Rattle.delta_meaning.specs.Evaluated.{is_left, run_of, first_type, other_types};
ghost use Rattle.delta_meaning.specs.Scope.{types_in, streams_in, past_in};
ghost use Rattle.delta_meaning.specs.Functions.{functions_at};
ghost use Rattle.delta_meaning.specs.CallRuns.{StopsAmong};

use crate::evaluated::{Evaluated, quiet};
use crate::functions::{Place, function_named};
use crate::pause::Pause;
use crate::scope::{Scope, stream_at, type_at, value_in};
use crate::types::type_meant;
use bunch::Name;
use core_term::params::leaves;
use core_term::stars::over_star;
use delta_tree::{Exp, Form, Head, HeadForm, Hist};
use hist_value::{Value, full, value_of};
use std::alloc::Global;
use stream_prefix::{Prefix, empty, maximal};
use stream_type::{Memory, Ty};

/// The parameters of a function, or none of one that isn't there. Its only error is want of memory.
pub fn params_of(alloc: Global, place: &Place<'_>, f: Name) -> Result<Vec<(Name, Ty)>, Memory>
    ensures { IfOk result (λ v. types_listed v.items ≡ leaf_types (functions_at place.now f.0).params) }
{
    match function_named(place.functions, f) {
        Some(function) => leaves(alloc, &function.params),
        None => Ok(Vec::new(alloc)),
    }
}

/// The type of the first parameter, or else the other one, and the other parameters.
pub fn first_param<'a>(params: &'a [(Name, Ty)], otherwise: &'a Ty) -> (&'a Ty, &'a [(Name, Ty)])
    ensures first { type_of result.0.now ≡ first_type (type_of otherwise.now) (types_listed params.now) }
    ensures others { types_listed result.1.now ≡ other_types (types_listed params.now) }
{
    match params.split_first() {
        Some((param, others)) => (&param.1, others),
        None => (otherwise, params),
    }
}

// The type of a head: its name's, its function's result, or what it is written with.
fn head_type(alloc: Global, place: &Place<'_>, scope: &Scope<'_>, h: &Head) -> Result<Ty, Memory>
    ensures { IfOk result (λ t. type_of t ≡ head_type (functions_at place.now) (names_known place.now.known.now) (head_of h.now) (types_in scope.now)) }
{
    match &*h.form {
        HeadForm::Var(x) => type_at(alloc, scope, *x),
        HeadForm::Call(f, _, _) => match function_named(place.functions, *f) {
            Some(function) => stream_type::copy(alloc, &function.result),
            None => Ok(Ty::Eps),
        },
        HeadForm::Asc(_, t) => type_meant(alloc, place.known, t),
    }
}

/// What has come on a name, as a run without a call. Its only error is want of memory.
pub fn name_run(alloc: Global, scope: &Scope<'_>, x: Name) -> Result<Evaluated, Pause>
    ensures run { IfOk result (λ r. run_of r ≡ quiet (streams_in scope.now x.0)) }
    ensures counted { (left : ℕ) → IfOk result (λ r. r.calls ≤ left) }
    ensures spent { (functions : ℕ → SourceBody) (left calls : ℕ) → IfErr result (StopsAmong functions left calls) }
{
    Ok(quiet(stream_at(alloc, scope, x)?))
}

/// The star that is over, as a run without a call.
pub fn nil_run(alloc: Global) -> Evaluated
    ensures { run_of result ≡ quiet star_done }
{
    quiet(over_star(alloc))
}

/// Nothing of a type, as a run without a call. Its only error is want of memory.
pub fn nothing_run(alloc: Global, ty: &Ty) -> Result<Evaluated, Pause>
    ensures run { IfOk result (λ r. run_of r ≡ quiet (emp (type_of ty.now))) }
    ensures counted { (left : ℕ) → IfOk result (λ r. r.calls ≤ left) }
    ensures spent { (functions : ℕ → SourceBody) (left calls : ℕ) → IfErr result (StopsAmong functions left calls) }
{
    Ok(quiet(empty(alloc, ty)?))
}

/// The value of a historical expression as a stream of the type, without a call. Its only error is want of
/// memory.
pub fn past_run(alloc: Global, scope: &Scope<'_>, m: &Hist, ty: &Ty) -> Result<Evaluated, Pause>
    ensures run { IfOk result (λ r. run_of r ≡ quiet (full (type_of ty.now) (value (hist_of m.now).expr (past_in scope.now)))) }
    ensures counted { (left : ℕ) → IfOk result (λ r. r.calls ≤ left) }
    ensures spent { (functions : ℕ → SourceBody) (left calls : ℕ) → IfErr result (StopsAmong functions left calls) }
{
    let v = value_in(alloc, scope, m)?;
    Ok(quiet(full(alloc, ty, &v)?))
}

/// The type of a head, in a box. Its only error is want of memory.
pub fn boxed_head_type(
    alloc: Global,
    place: &Place<'_>,
    scope: &Scope<'_>,
    h: &Head,
) -> Result<Box<Ty>, Memory>
    ensures { IfOk result (λ t. type_of t.value ≡ head_type (functions_at place.now) (names_known place.now.known.now) (head_of h.now) (types_in scope.now)) }
{
    Ok(Box::new(alloc, head_type(alloc, place, scope, h)?)?)
}

/// The value of what has come on a name, once that is whole. Its only error is want of memory.
pub fn waited(alloc: Global, scope: &Scope<'_>, x: Name) -> Result<Option<Box<Value>>, Memory>
    ensures whole { IfOk result (λ r. is_some r ≡ is_maximal (streams_in scope.now x.0)) }
    ensures value { IfOk result (λ r. IfSome r (λ v. hist_value_of v.value ≡ value_of (streams_in scope.now x.0))) }
{
    let p = stream_at(alloc, scope, x)?;
    value_of_whole(alloc, &p)
}

// The value of a prefix, once that is whole.
fn value_of_whole(alloc: Global, p: &Prefix) -> Result<Option<Box<Value>>, Memory>
    ensures whole { IfOk result (λ r. is_some r ≡ is_maximal (prefix_of p.now)) }
    ensures value { IfOk result (λ r. IfSome r (λ v. hist_value_of v.value ≡ value_of (prefix_of p.now))) }
{
    if maximal(p) {
        Ok(Some(Box::new(alloc, value_of(alloc, p)?)?))
    } else {
        Ok(None)
    }
}

/// Whether the value of a historical expression is one of the left side of a sum. Its only error is want of
/// memory.
pub fn is_left(alloc: Global, scope: &Scope<'_>, m: &Hist) -> Result<bool, Memory>
    ensures { IfOk result (λ r. r ≡ is_left (value (hist_of m.now).expr (past_in scope.now))) }
{
    let v = value_in(alloc, scope, m)?;
    Ok(is_left_value(&v))
}

// Whether a value is one of the left side of a sum.
#[tactic(auto, using(crate::proofs::Runs::list_is_not_left))]
fn is_left_value(v: &Value) -> bool
    ensures { result ≡ is_left (hist_value_of v.now) }
{
    match v {
        Value::Inl(_) => true,
        Value::Unit | Value::Int(_) | Value::Pair(_, _) | Value::Inr(_) | Value::List(_) => false,
    }
}

/// Whether an expression is a name.
pub fn is_name(e: &Exp) -> bool
    ensures { result ≡ is_name (expression_of e.now) }
{
    matches!(&*e.form, Form::Var(_))
}

/// Whether a head is a name, or a name with its type.
pub fn is_name_head(h: &Head) -> bool
    ensures { result ≡ is_name_head (head_of h.now) }
{
    match &*h.form {
        HeadForm::Var(_) => true,
        HeadForm::Call(_, _, _) => false,
        HeadForm::Asc(e, _) => is_name(e),
    }
}
