//! The values of historical expressions, and of the historical parameters of a body.

ghost use Rattle.std.specs.Prelude.{◌≡◌, ◌++◌, map, IfOk, OnOk};
ghost use Rattle.hist_value.specs.HistExpr.{expr_of};
ghost use Rattle.hist_value.specs.HistValue.{hist_value_of};
ghost use Rattle.hist_value.specs.Environment.{environment_of};
ghost use Rattle.hist_value.specs.Evaluate.{value};
ghost use Rattle.core_term.specs.CoreTerm.{typed_names_of};
ghost use Rattle.core_term.specs.Meaning.{values};
ghost use Rattle.delta_state.specs.Rest.{known_of};
ghost use Rattle.delta_state.specs.StateMeaning.{past_in};
ghost use Rattle.delta_step.specs.Marked.{known_in};

use crate::marked::Known;
use bunch::Name;
use hist_value::{Expr, Value, copy_value, value};
use std::alloc::Global;
use stream_type::{Memory, Ty};

/// The value of a historical expression. Its only error is want of memory.
pub fn value_in(alloc: Global, past: &[Known], m: &Expr) -> Result<Value, Memory>
    ensures { IfOk result (λ v. hist_value_of v ≡ value (expr_of m.now) (past_in (map known_in past.now))) }
{
    let entries = entries_in(alloc, past)?;
    value(alloc, m, &entries)
}

/// The values of historical expressions, in turn. Its only error is want of memory.
pub fn values_in(alloc: Global, past: &[Known], ms: &[Expr]) -> Result<Vec<Value>, Memory>
    ensures { IfOk result (λ v. map hist_value_of v.items ≡ values (map expr_of ms.now) (past_in (map known_in past.now))) }
{
    let mut values = Vec::new(alloc);
    for m in ms {
        values.push(value_in(alloc, past, m)?)?;
    }
    Ok(values)
}

// The values of the historical names, a later entry before an earlier one.
#[tactic(auto, using(machine_parts::proofs::Past::entries))]
fn entries_in(alloc: Global, past: &[Known]) -> Result<Vec<(Name, Value)>, Memory>
    ensures { IfOk result (λ v. environment_of v.items ≡ past_in (map known_in past.now)) }
{
    match past.split_first() {
        None => Ok(Vec::new(alloc)),
        Some((first, rest)) => {
            let mut entries = entries_in(alloc, rest)?;
            entries.push((first.name, copy_value(alloc, &first.value)?))?;
            Ok(entries)
        }
    }
}

/// The historical parameters of a body with their values: `known_of` in `delta_state`. Its only error is
/// want of memory.
pub fn known(alloc: Global, past: &[(Name, Ty)], values: &[Value]) -> Result<Vec<Known>, Memory>
    ensures { IfOk result (λ v. map known_in v.items ≡ known_of (typed_names_of past.now) (map hist_value_of values.now)) }
{
    let mut found = Vec::new(alloc);
    add_known(alloc, past, values, &mut found)?;
    Ok(found)
}

// Adds historical parameters with their values.
fn add_known(
    alloc: Global,
    past: &[(Name, Ty)],
    values: &[Value],
    found: &mut Vec<Known>,
) -> Result<(), Memory>
    ensures { OnOk result (map known_in found.new.items ≡ map known_in found.old.items ++ known_of (typed_names_of past.now) (map hist_value_of values.now)) }
{
    let Some((param, rest)) = past.split_first() else {
        return Ok(());
    };
    let Some((value, others)) = values.split_first() else {
        return Ok(());
    };
    let ty = stream_type::copy(alloc, &param.1)?;
    let value = copy_value(alloc, value)?;
    found.push(Known {
        name: param.0,
        ty,
        value,
    })?;
    add_known(alloc, rest, others, found)
}
