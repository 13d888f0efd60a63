//! The values that code sees, and code that isn't reached.

ghost use Rattle.std.specs.Prelude.{◌≡◌, [], ◌∷◌, map, IfOk};
ghost use Rattle.stream_type.specs.StreamType.{type_of};
ghost use Rattle.stream_prefix.specs.Tree.{prefix_of};
ghost use Rattle.hist_value.specs.HistExpr.{expr_of};
ghost use Rattle.hist_value.specs.HistValue.{hist_value_of};
ghost use Rattle.hist_value.specs.Environment.{environment_of};
ghost use Rattle.hist_value.specs.Evaluate.{value};
ghost use Rattle.hist_value.specs.Wholes.{value_of};
ghost use Rattle.core_term.specs.Meaning.{values};
ghost use Rattle.core_term.specs.CoreTerm.{is_var, typed_names_of};
ghost use Rattle.delta_state.specs.StateMeaning.{past_in};
ghost use Rattle.delta_state.specs.Rest.{known_of};
ghost use Rattle.template_state.specs.Readers.{op_term, known_in, later_in};

use bunch::Name;
use hist_value::{Expr, Value, copy_value, value, value_of};
use std::alloc::Global;
use std::rc::Rc;
use stream_prefix::Prefix;
use stream_type::{Memory, Ty};
use template_state::{Later, Op, Past};

/// Whether a term is a name.
pub fn is_var(n: &Op) -> bool
    ensures { result ≡ is_var (op_term n.now) }
{
    matches!(n, Op::Var(_))
}

/// The value of a historical expression. Its only error is want of memory.
pub fn value_in(alloc: Global, past: &Past, m: &Expr) -> Result<Value, Memory>
    ensures { IfOk result (λ v. hist_value_of v ≡ value (expr_of m.now) (past_in (known_in past.now))) }
{
    let entries = entries_in(alloc, past)?;
    value(alloc, m, &entries)
}

/// The values of historical expressions, in turn. Its only error is want of memory.
pub fn values_in(alloc: Global, past: &Past, ms: &[Expr]) -> Result<Vec<Value>, Memory>
    ensures { IfOk result (λ v. map hist_value_of v.items ≡ values (map expr_of ms.now) (past_in (known_in past.now))) }
{
    let mut values = Vec::new(alloc);
    for m in ms {
        values.push(value_in(alloc, past, m)?)?;
    }
    Ok(values)
}

/// The values of the historical names, a later entry before an earlier one. Its only error is want of memory.
#[tactic(auto, using(machine_parts::proofs::Past::entries))]
pub fn entries_in(alloc: Global, past: &Past) -> Result<Vec<(Name, Value)>, Memory>
    ensures { IfOk result (λ v. environment_of v.items ≡ past_in (known_in past.now)) }
{
    match past {
        Past::None => Ok(Vec::new(alloc)),
        Past::Known(x, _, v, rest) => {
            let mut entries = entries_in(alloc, rest)?;
            entries.push((*x, copy_value(alloc, v)?))?;
            Ok(entries)
        }
    }
}

/// One name more before the known ones, with the value of what came on it. Its only error is want of memory.
#[inline(never)]
pub fn knowing(
    alloc: Global,
    name: Name,
    t: &Ty,
    p: &Prefix,
    past: &Rc<Past>,
) -> Result<Rc<Past>, Memory>
    ensures { IfOk result (λ v. known_in v.value ≡ record { name = name.0; type = type_of t.now; value = value_of (prefix_of p.now) } ∷ known_in past.now.value) }
{
    let v = value_of(alloc, p)?;
    let value = Rc::new(alloc, v)?;
    let rest = past.clone()?;
    let ty = stream_type::copy(alloc, t)?;
    Ok(Rc::new(alloc, Past::Known(name, ty, value, rest))?)
}

/// The historical parameters of a body with their values: `known_of` in `delta_state`. Its only error is
/// want of memory.
pub fn known(alloc: Global, past: &[(Name, Ty)], values: &[Value]) -> Result<Rc<Past>, Memory>
    ensures { IfOk result (λ v. known_in v.value ≡ known_of (typed_names_of past.now) (map hist_value_of values.now)) }
{
    let Some((param, rest)) = past.split_first() else {
        return nothing_known(alloc);
    };
    let Some((first, others)) = values.split_first() else {
        return nothing_known(alloc);
    };
    let after = known(alloc, rest, others)?;
    let v = copy_value(alloc, first)?;
    let value = Rc::new(alloc, v)?;
    let ty = stream_type::copy(alloc, &param.1)?;
    Ok(Rc::new(alloc, Past::Known(param.0, ty, value, after))?)
}

/// A template that isn't reached, with the known names and the depth. Its only error is want of memory.
#[inline(never)]
pub fn later(code: &Rc<Op>, past: &Rc<Past>, depth: u64) -> Result<Later, Memory>
    ensures { IfOk result (λ l. later_in l ≡ record { term = op_term code.now.value; past = known_in past.now.value; depth = depth }) }
{
    let code = code.clone()?;
    let past = past.clone()?;
    Ok(Later { code, past, depth })
}

/// No names. Its only error is want of memory.
pub fn nothing_known(alloc: Global) -> Result<Rc<Past>, Memory>
    ensures { IfOk result (λ v. known_in v.value ≡ []) }
{
    Ok(Rc::new(alloc, Past::None)?)
}
