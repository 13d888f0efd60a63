//! The rules of code that isn't reached.

ghost use Rattle.std.specs.Prelude.{◌≡◌, ◌≢◌, ◌↔◌, ◌<◌, ◌^◌, ◌++◌, false, IsTrue, IfOk};
ghost use Rattle.stream_type.specs.StreamType.{type_of};
ghost use Rattle.bunch.specs.Names.{numbers_of};
ghost use Rattle.core_term.specs.CoreTerm.{node_count};
ghost use Rattle.core_term.specs.FreeNames.{bound_names, free_names, once};
ghost use Rattle.core_term.specs.Inert.{is_inert_fun};
ghost use Rattle.core_term.specs.Typing.{HasType};
ghost use Rattle.delta_check.specs.Scopes.{context_in};
ghost use Rattle.delta_check.specs.declared.fault.TypeFault.{TypeFault};
ghost use Rattle.delta_state.specs.StateTyping.{with_past};
ghost use Rattle.kept_state.specs.KeptNames.{IsPastApart};
ghost use Rattle.delta_keep.specs.KeptView.{later_of};
ghost use Rattle.kept_rules.specs.StateRules.{IsGoodLater};
ghost use Rattle.kept_check.specs.Judging.{funs_of, IsJudge};
ghost use Rattle.kept_check.specs.Laters.{IsFitLater};

use crate::bound::add_behind;
use crate::judge::Judge;
use crate::names::{are_apart, are_distinct};
use crate::values::{have_types, value_names, value_types};
use bunch::Name;
use core_term::free;
use delta_check::{Scope, TypeFault, check_under};
use delta_keep::Waiting;
use std::alloc::Global;
use stream_type::{Memory, Ty};

/// Whether code that isn't reached has the type in the scope, where its form has bound these names for
/// it there. Its only error is want of memory.
pub fn is_good(
    judge: &Judge<'_>,
    scope: &Scope<'_>,
    l: &Waiting,
    others: &[Name],
    r: &Ty,
) -> Result<bool, Memory>
    requires size { node_count (later_of l.now).term < 2 ^ 32 }
    requires judge { IsJudge judge.now }
    ensures { IfOk result (λ b. IsTrue b ↔ IsGoodLater (funs_of judge.now) judge.now.depth (context_in scope.now) (λ d. d) (numbers_of others.now) (later_of l.now) (type_of r.now)) }
{
    match is_fit(judge.alloc, l, others, judge.depth) {
        Ok(true) => has_type(judge, scope, l, r),
        Ok(false) => Ok(false),
        Err(_) => Err(Memory),
    }
}

// Whether code has the type in the scope, beside its values.
fn has_type(judge: &Judge<'_>, scope: &Scope<'_>, l: &Waiting, r: &Ty) -> Result<bool, Memory>
    requires size { node_count (later_of l.now).term < 2 ^ 32 }
    requires judge { IsJudge judge.now }
    ensures { IfOk result (λ b. IsTrue b ↔ HasType (funs_of judge.now) (is_inert_fun (funs_of judge.now)) (with_past (later_of l.now).past (context_in scope.now)) (later_of l.now).term (type_of r.now)) }
{
    match value_types(judge.alloc, &l.past) {
        Ok(types) => {
            let inner = Scope::Valued(&types, scope);
            let told = check_under(judge.alloc, judge.program, judge.marks, &inner, &l.code, r);
            drop(types);
            match told {
                Ok(()) => Ok(true),
                Err(fault) => denied(fault),
            }
        }
        Err(_) => Err(Memory),
    }
}

// What is answered where a term is found to have no type, unless memory was wanting.
fn denied(fault: TypeFault) -> Result<bool, Memory>
    ensures { IfOk result (λ b. (b ≡ false) × (fault ≢ TypeFault.Memory)) }
{
    let is_refused = matches!(&fault, TypeFault::Refused { .. });
    drop(fault);
    if is_refused { Ok(false) } else { Err(Memory) }
}

// Whether its values are of their types, their names apart, and its depth great enough.
fn is_fit(alloc: Global, l: &Waiting, others: &[Name], depth: u64) -> Result<bool, Memory>
    ensures { IfOk result (λ b. IsTrue b ↔ IsFitLater depth (numbers_of others.now) (later_of l.now)) }
{
    if l.depth < depth {
        return Ok(false);
    }
    match have_types(alloc, &l.past) {
        Ok(true) => are_names_apart(alloc, l, others),
        Ok(false) => Ok(false),
        Err(_) => Err(Memory),
    }
}

// Whether the names of its values are apart from all others.
fn are_names_apart(alloc: Global, l: &Waiting, others: &[Name]) -> Result<bool, Memory>
    ensures { IfOk result (λ b. IsTrue b ↔ IsPastApart (numbers_of others.now) (later_of l.now)) }
{
    let names = value_names(alloc, &l.past)?;
    let taken = names_taken(alloc, l, others)?;
    if are_distinct(&names, 0) {
        Ok(are_apart(&names, &taken))
    } else {
        Ok(false)
    }
}

// The names of streams in code, and behind them others and those that are bound in it.
fn names_taken(alloc: Global, l: &Waiting, others: &[Name]) -> Result<Vec<Name>, Memory>
    ensures { IfOk result (λ v. numbers_of v.items ≡ once (free_names (later_of l.now).term) ++ (numbers_of others.now ++ bound_names (later_of l.now).term)) }
{
    let mut names = free(alloc, &l.code)?;
    add_behind(others, &l.code, &mut names)?;
    Ok(names)
}
