//! Scopes: what is bound round an expression, as streams and as values.

ghost use Rattle.std.specs.Prelude.{◌≡◌, map, IfOk};
ghost use Rattle.stream_type.specs.StreamType.{type_of, eps};
ghost use Rattle.stream_prefix.specs.Tree.{prefix_of};
ghost use Rattle.stream_prefix.specs.StreamPrefix.{eps_emp};
ghost use Rattle.bunch.specs.Names.{value_at};
ghost use Rattle.hist_value.specs.HistValue.{hist_value_of, unit_value};
ghost use Rattle.hist_value.specs.Environment.{environment_of};
ghost use Rattle.hist_value.specs.Evaluate.{value};
ghost use Rattle.delta_tree.specs.Tree.{hist_of};
ghost use Rattle.core_term.specs.Environment.{by_side};
ghost use Rattle.core_term.specs.Meaning.{no_past};
ghost use Rattle.core_term.specs.Params.{names_in, types_listed};
ghost use Rattle.delta_meaning.specs.SourceMeaning.{written_values};
ghost use Rattle.delta_meaning.specs.Scope.{entry_of, types_in, streams_in, past_in};

use bunch::Name;
use delta_tree::Hist;
use hist_value::{Value, copy_value, value};
use std::alloc::Global;
use stream_prefix::Prefix;
use stream_type::{Memory, Ty};

/// What is bound round an expression. Contracts see the types of its stream names by `types_in`, what has
/// come on them by `streams_in`, and the values of its historical names by `past_in` (`specs/Scope.antt`).
#[derive(Clone, Copy)]
pub enum Scope<'a> {
    /// The stream parameters of a body with their types, what has come on each in turn, and the values of
    /// its historical names, of which a later entry hides an earlier one.
    Params(&'a [(Name, Ty)], &'a [Prefix], &'a [(Name, Value)]),
    /// A stream name with its type and what has come on it, before a scope that it hides the name of.
    Stream(Name, &'a Ty, &'a Prefix, &'a Scope<'a>),
    /// A name that was waited for with its value, before a scope that it hides the name of.
    Waited(Name, &'a Value, &'a Scope<'a>),
}

/// One more of the type of a stream name. Its only error is want of memory.
pub fn type_at(alloc: Global, scope: &Scope<'_>, x: Name) -> Result<Ty, Memory>
    ensures { IfOk result (λ t. type_of t ≡ types_in scope.now x.0) }
{
    match scope {
        Scope::Params(params, _, _) => type_of_param(alloc, params, x),
        Scope::Stream(y, t, _, outer) => {
            if x.0 == y.0 {
                stream_type::copy(alloc, t)
            } else {
                type_at(alloc, outer, x)
            }
        }
        Scope::Waited(y, _, outer) => {
            if x.0 == y.0 {
                Ok(Ty::Eps)
            } else {
                type_at(alloc, outer, x)
            }
        }
    }
}

// The type of the first parameter with the name, or `eps`.
fn type_of_param(alloc: Global, params: &[(Name, Ty)], x: Name) -> Result<Ty, Memory>
    ensures { IfOk result (λ t. type_of t ≡ value_at eps (names_in params.now) (types_listed params.now) x.0) }
{
    match params.split_first() {
        None => Ok(Ty::Eps),
        Some((first, rest)) => {
            if x.0 == first.0.0 {
                stream_type::copy(alloc, &first.1)
            } else {
                type_of_param(alloc, rest, x)
            }
        }
    }
}

/// One more of what has come on a stream name. Its only error is want of memory.
pub fn stream_at(alloc: Global, scope: &Scope<'_>, x: Name) -> Result<Prefix, Memory>
    ensures { IfOk result (λ p. prefix_of p ≡ streams_in scope.now x.0) }
{
    match scope {
        Scope::Params(params, streams, _) => stream_of_param(alloc, params, streams, x),
        Scope::Stream(y, _, p, outer) => {
            if x.0 == y.0 {
                stream_prefix::copy(alloc, p)
            } else {
                stream_at(alloc, outer, x)
            }
        }
        Scope::Waited(y, _, outer) => {
            if x.0 == y.0 {
                Ok(Prefix::EpsEmp)
            } else {
                stream_at(alloc, outer, x)
            }
        }
    }
}

// What has come on the first parameter with the name, or nothing.
fn stream_of_param(
    alloc: Global,
    params: &[(Name, Ty)],
    streams: &[Prefix],
    x: Name,
) -> Result<Prefix, Memory>
    ensures { IfOk result (λ p. prefix_of p ≡ value_at eps_emp (names_in params.now) (map prefix_of streams.now) x.0) }
{
    match params.split_first() {
        None => Ok(Prefix::EpsEmp),
        Some((first, rest)) => match streams.split_first() {
            None => Ok(Prefix::EpsEmp),
            Some((p, others)) => {
                if x.0 == first.0.0 {
                    stream_prefix::copy(alloc, p)
                } else {
                    stream_of_param(alloc, rest, others, x)
                }
            }
        },
    }
}

/// The value of a historical expression. Its only error is want of memory.
pub fn value_in(alloc: Global, scope: &Scope<'_>, m: &Hist) -> Result<Value, Memory>
    ensures { IfOk result (λ v. hist_value_of v ≡ value (hist_of m.now).expr (past_in scope.now)) }
{
    let entries = entries_in(alloc, scope)?;
    value(alloc, &m.expr, &entries)
}

/// The values of historical expressions, in turn. Its only error is want of memory.
pub fn values_in(alloc: Global, scope: &Scope<'_>, ms: &[Hist]) -> Result<Vec<Value>, Memory>
    ensures { IfOk result (λ v. map hist_value_of v.items ≡ written_values (map hist_of ms.now) (past_in scope.now)) }
{
    let mut values = Vec::new(alloc);
    for m in ms {
        values.push(value_in(alloc, scope, m)?)?;
    }
    Ok(values)
}

// The values of the historical names, a later entry before an earlier one.
#[tactic(auto, using(crate::proofs::Scopes::entries))]
fn entries_in(alloc: Global, scope: &Scope<'_>) -> Result<Vec<(Name, Value)>, Memory>
    ensures { IfOk result (λ v. environment_of v.items ≡ past_in scope.now) }
{
    match scope {
        Scope::Params(_, _, past) => copy_entries(alloc, past),
        Scope::Stream(x, _, _, outer) => {
            let mut entries = entries_in(alloc, outer)?;
            entries.push((*x, Value::Unit))?;
            Ok(entries)
        }
        Scope::Waited(x, v, outer) => {
            let mut entries = entries_in(alloc, outer)?;
            entries.push((*x, copy_value(alloc, v)?))?;
            Ok(entries)
        }
    }
}

// One more of each entry.
fn copy_entries(alloc: Global, entries: &[(Name, Value)]) -> Result<Vec<(Name, Value)>, Memory>
    ensures { IfOk result (λ v. map entry_of v.items ≡ map entry_of entries.now) }
{
    let mut copies = Vec::new(alloc);
    for entry in entries {
        copies.push((entry.0, copy_value(alloc, &entry.1)?))?;
    }
    Ok(copies)
}

/// The values of a body's historical names: those of its historical parameters, which its stream parameters
/// hide. Its only error is want of memory.
pub fn past_of_body(
    alloc: Global,
    past: &[(Name, Ty)],
    values: &[Value],
    params: &[(Name, Ty)],
) -> Result<Vec<(Name, Value)>, Memory>
    ensures { IfOk result (λ v. environment_of v.items ≡ by_side (names_in params.now) no_past (value_at unit_value (names_in past.now) (map hist_value_of values.now))) }
{
    let entries = bound(alloc, past, values)?;
    hide(params, entries)
}

// Names with the values that stand beside them; the first with a name comes last.
#[tactic(auto, using(crate::proofs::Scopes::entries))]
fn bound(
    alloc: Global,
    names: &[(Name, Ty)],
    values: &[Value],
) -> Result<Vec<(Name, Value)>, Memory>
    ensures { IfOk result (λ v. environment_of v.items ≡ value_at unit_value (names_in names.now) (map hist_value_of values.now)) }
{
    match names.split_first() {
        None => Ok(Vec::new(alloc)),
        Some((name, rest)) => match values.split_first() {
            None => Ok(Vec::new(alloc)),
            Some((v, others)) => {
                let mut entries = bound(alloc, rest, others)?;
                entries.push((name.0, copy_value(alloc, v)?))?;
                Ok(entries)
            }
        },
    }
}

// The names of streams have no value.
fn hide(params: &[(Name, Ty)], entries: Vec<(Name, Value)>) -> Result<Vec<(Name, Value)>, Memory>
    ensures { IfOk result (λ v. environment_of v.items ≡ by_side (names_in params.now) no_past (environment_of entries.items)) }
{
    match params.split_first() {
        None => Ok(entries),
        Some((param, rest)) => {
            let mut hidden = hide(rest, entries)?;
            hidden.push((param.0, Value::Unit))?;
            Ok(hidden)
        }
    }
}
