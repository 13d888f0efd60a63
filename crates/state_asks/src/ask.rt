//! What is found on the way.

ghost use Rattle.std.specs.Prelude.{[], ◌∷◌, map, OnOk};
ghost use Rattle.hist_value.specs.HistExpr.{expr_of};
ghost use Rattle.delta_state.specs.StateMeaning.{past_in};
ghost use Rattle.template_state.specs.Readers.{known_in};
ghost use Rattle.other_numbers.specs.Asked.{asked_each};
ghost use Rattle.state_asks.specs.Asking.{Asks};

use hist_value::{Expr, copy_expr};
use std::alloc::Global;
use std::rc::Rc;
use stream_type::Memory;
use template_state::Past;

/// A historical expression that is evaluated on the way. Contracts see it as an `Asked` by `asked_in`
/// (`specs/Asking.antt`).
#[derive(Drop)]
pub struct Ask {
    /// The expression.
    pub expr: Expr,
    /// The values at which it is evaluated.
    pub past: Rc<Past>,
}

/// Puts an expression that sees these values behind what was found. Its only error is want of memory.
#[inline(never)]
pub fn add_one(alloc: Global, m: &Expr, past: &Rc<Past>, found: &mut Vec<Ask>) -> Result<(), Memory>
    ensures { OnOk result (Asks found.old.items found.new.items (asked_each (expr_of m.now ∷ []) (past_in (known_in past.now.value)))) }
{
    let expr = copy_expr(alloc, m)?;
    let past = past.clone()?;
    found.push(Ask { expr, past })?;
    Ok(())
}

/// The same of expressions in turn. Its only error is want of memory.
pub fn add_each(
    alloc: Global,
    ms: &[Expr],
    past: &Rc<Past>,
    found: &mut Vec<Ask>,
) -> Result<(), Memory>
    ensures { OnOk result (Asks found.old.items found.new.items (asked_each (map expr_of ms.now) (past_in (known_in past.now.value)))) }
{
    let Some((m, rest)) = ms.split_first() else {
        return Ok(());
    };
    add_one(alloc, m, past, found)?;
    add_each(alloc, rest, past, found)
}
