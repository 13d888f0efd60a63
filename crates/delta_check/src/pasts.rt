//! The historical variables of a scope.

ghost use Rattle.std.specs.Prelude.{◌≡◌, ◌==◌, ℕ, true, if◌then◌else◌, option_map, is_some, Some, None, IfOk, OnOk};
ghost use Rattle.stream_type.specs.StreamType.{type_of};
ghost use Rattle.bunch.specs.Names.{numbers_of, holds};
ghost use Rattle.hist_value.specs.HistType.{hist_type_of, past};
ghost use Rattle.hist_value.specs.Environment.{types_of};
ghost use Rattle.core_term.specs.CoreTerm.{typed_names_of};
ghost use Rattle.core_term.specs.Typing.{past_params};
ghost use Rattle.core_term.specs.TypeFaults.{first_some};
ghost use Rattle.delta_check.specs.Scopes.{context_in};

use crate::given::{add_given_names, given_past};
use crate::scope::{Scope, stream_type};
use bunch::Name;
use hist_value::{HTy, copy_type, past};
use std::alloc::Global;
use stream_type::{Memory, Ty};

/// Whether `x` is a historical variable.
pub fn is_historical(scope: &Scope<'_>, x: Name) -> bool
    ensures { result ≡ is_some ((context_in scope.now).past x.0) }
{
    match scope {
        Scope::Params(b) => type_of_param(&b.past, x).is_some(),
        Scope::Given(_, _) | Scope::Among(_, _) => false,
        Scope::Like(y, _, _, outer) | Scope::Let(y, _, _, outer) => {
            x.0 != y.0 && is_historical(outer, x)
        }
        Scope::Fact(_, _, outer) => is_historical(outer, x),
        Scope::Waited(y, outer) => x.0 == y.0 || is_historical(outer, x),
        Scope::Valued(past, outer) => given_past(past, x).is_some() || is_historical(outer, x),
    }
}

/// The historical variables with their types, each once or more often. Its only error is want of
/// memory.
pub fn past_types(alloc: Global, scope: &Scope<'_>) -> Result<Vec<(Name, HTy)>, Memory>
    ensures { IfOk result (λ v. (x : ℕ) → types_of v.items x ≡ (context_in scope.now).past x) }
{
    let mut names = Vec::new(alloc);
    add_past_names(scope, &mut names)?;
    typed(alloc, scope, &names)
}

// Those of the names that are historical variables, with their types.
fn typed(alloc: Global, scope: &Scope<'_>, names: &[Name]) -> Result<Vec<(Name, HTy)>, Memory>
    ensures { IfOk result (λ v. (x : ℕ) → types_of v.items x
        ≡ (if holds x (numbers_of names.now) then (context_in scope.now).past x else None)) }
{
    let mut entries = Vec::new(alloc);
    for name in names {
        let t = past_type(alloc, scope, *name)?;
        add_entry(&mut entries, *name, t)?;
    }
    Ok(entries)
}

// Adds an entry for the name, where it has a type.
#[tactic(auto, using(crate::proofs::Entries::entries))]
fn add_entry(entries: &mut Vec<(Name, HTy)>, x: Name, t: Option<HTy>) -> Result<(), Memory>
    ensures { OnOk result ((y : ℕ) → types_of entries.new.items y
        ≡ (if y == x.0 then first_some (option_map hist_type_of t) (types_of entries.old.items y) else types_of entries.old.items y)) }
{
    match t {
        None => Ok(()),
        Some(t) => {
            entries.push((x, t))?;
            Ok(())
        }
    }
}

// Adds names, all historical variables among them.
#[tactic(auto, using(bunch::proofs::NameLists::name_lists))]
fn add_past_names(scope: &Scope<'_>, names: &mut Vec<Name>) -> Result<(), Memory>
    ensures { OnOk result ((x : ℕ) → is_some ((context_in scope.now).past x) ≡ true → holds x (numbers_of names.new.items) ≡ true) }
{
    match scope {
        Scope::Params(b) => add_param_names(&b.past, names),
        Scope::Given(_, _) | Scope::Among(_, _) => Ok(()),
        Scope::Like(_, _, _, outer) | Scope::Let(_, _, _, outer) | Scope::Fact(_, _, outer) => {
            add_past_names(outer, names)
        }
        Scope::Waited(x, outer) => {
            add_past_names(outer, names)?;
            names.push(*x)?;
            Ok(())
        }
        Scope::Valued(past, outer) => {
            add_past_names(outer, names)?;
            add_given_names(past, names)
        }
    }
}

// Adds the names of historical parameters.
#[tactic(auto, using(bunch::proofs::NameLists::name_lists))]
fn add_param_names(params: &[(Name, Ty)], names: &mut Vec<Name>) -> Result<(), Memory>
    ensures { OnOk result ((x : ℕ) → is_some (past_params (typed_names_of params.now) x) ≡ true → holds x (numbers_of names.new.items) ≡ true) }
{
    for param in params {
        names.push(param.0)?;
    }
    Ok(())
}

// The type of the historical variable x, or None where the name is no historical variable.
fn past_type(alloc: Global, scope: &Scope<'_>, x: Name) -> Result<Option<HTy>, Memory>
    ensures { IfOk result (λ o. option_map hist_type_of o ≡ (context_in scope.now).past x.0) }
{
    match scope {
        Scope::Params(b) => match type_of_param(&b.past, x) {
            Some(t) => Ok(Some(past(alloc, t)?)),
            None => Ok(None),
        },
        Scope::Given(_, _) | Scope::Among(_, _) => Ok(None),
        Scope::Like(y, _, _, outer) | Scope::Let(y, _, _, outer) => {
            if x.0 == y.0 {
                Ok(None)
            } else {
                past_type(alloc, outer, x)
            }
        }
        Scope::Fact(_, _, outer) => past_type(alloc, outer, x),
        Scope::Waited(y, outer) => {
            if x.0 == y.0 {
                match stream_type(outer, x) {
                    Some(t) => Ok(Some(past(alloc, t)?)),
                    None => Ok(Some(HTy::Unit)),
                }
            } else {
                past_type(alloc, outer, x)
            }
        }
        Scope::Valued(past, outer) => match given_past(past, x) {
            Some(t) => Ok(Some(copy_type(alloc, t)?)),
            None => past_type(alloc, outer, x),
        },
    }
}

// The type of the first historical parameter with the name.
fn type_of_param<'a>(params: &'a [(Name, Ty)], x: Name) -> Option<&'a Ty>
    ensures { option_map (λ t. past (type_of t.now)) result ≡ past_params (typed_names_of params.now) x.0 }
{
    for param in params {
        if x.0 == param.0.0 {
            return Some(&param.1);
        }
    }
    None
}
