//! Historical expressions and the types that are wanted of them.

ghost use Rattle.std.specs.Prelude.{◌≡◌, [], map, IfOk, is_some, not, false};
ghost use Rattle.stream_type.specs.StreamType.{type_of};
ghost use Rattle.hist_value.specs.HistType.{past};
ghost use Rattle.hist_value.specs.HistExpr.{expr_of};
ghost use Rattle.hist_value.specs.Environment.{types_of};
ghost use Rattle.core_term.specs.CoreTerm.{typed_names_of};
ghost use Rattle.core_term.specs.TypeFaults.{expr_refusal, of_pasts};

use bunch::Name;
use hist_value::{Expr, HTy, HistFault, past, type_of};
use std::alloc::Global;
use stream_type::{Memory, Ty};

/// Whether an expression has the type of the values of `r`: `expr_refusal` in the specs of core_term answers
/// nothing. Its only error is want of memory.
pub fn is_past(alloc: Global, known: &[(Name, HTy)], m: &Expr, r: &Ty) -> Result<bool, Memory>
    ensures { IfOk result (λ good. good ≡ not (is_some (expr_refusal (types_of known.now) (expr_of m.now) (past (type_of r.now))))) }
{
    match past(alloc, r) {
        Ok(wanted) => {
            let found = type_of(alloc, m, known, Some(&wanted));
            drop(wanted);
            match found {
                Ok(found) => {
                    drop(found);
                    Ok(true)
                }
                Err(HistFault::Memory) => Err(Memory),
                Err(fault) => {
                    drop(fault);
                    Ok(false)
                }
            }
        }
        Err(memory) => Err(memory),
    }
}

/// Whether that is so of each expression and the parameter in its place; those without one don't count. Its only
/// error is want of memory.
pub fn are_pasts(
    alloc: Global,
    known: &[(Name, HTy)],
    past: &[Expr],
    params: &[(Name, Ty)],
) -> Result<bool, Memory>
    ensures { IfOk result (λ good. good ≡ not (is_some (of_pasts [] (λ _. false) expr_refusal (types_of known.now) (map expr_of past.now) (map (λ e. e.1) (typed_names_of params.now))))) }
{
    for (i, m) in past.iter().enumerate() {
        match params.get(i) {
            None => return Ok(true),
            Some(param) => match is_past(alloc, known, m, &param.1) {
                Ok(true) => {}
                Ok(false) => return Ok(false),
                Err(memory) => return Err(memory),
            },
        }
    }
    Ok(true)
}
