//! Terms that are reached and make no call.

ghost use Rattle.std.specs.Prelude.{◌≡◌, IfOk};
ghost use Rattle.stream_type.specs.StreamType.{type_of};
ghost use Rattle.template_state.specs.Readers.{op_term};
ghost use Rattle.delta_code.specs.Begun.{run_of, rest_of};
ghost use Rattle.delta_code.specs.Steps.{op_run, op_rest};

use crate::begun::Begun;
use crate::still::{at_once, named, no_items, whole_past};
use machine_parts::scope::Scope;
use std::alloc::Global;
use std::rc::Rc;
use stream_prefix::Prefix;
use stream_type::{Memory, Ty};
use template_state::{Code, Op, Past};

/// What a name, what is whole at once, or a value gives, and what is left of it, without a call. Its only error is
/// want of memory, as which another term counts.
#[inline(never)]
pub fn reach_quiet<'a>(
    alloc: Global,
    code: &Code,
    k: u64,
    scope: &'a Scope<'a>,
    past: &Rc<Past>,
    n: &Rc<Op>,
    r: &Ty,
) -> Result<Begun, Memory>
    ensures run { IfOk result (λ a. run_of a ≡ op_run code.now k scope.now past.now.value (op_term n.now.value) (type_of r.now)) }
    ensures rest { IfOk result (λ a. rest_of a ≡ op_rest code.now k scope.now past.now.value (op_term n.now.value) (type_of r.now)) }
    ensures calls { IfOk result (λ a. a.calls ≡ 0) }
    ensures level { IfOk result (λ a. a.level ≡ 0) }
{
    match &**n {
        Op::Var(x) => named(alloc, scope, *x),
        Op::Eps => at_once(alloc, Prefix::EpsEmp),
        Op::Unit => at_once(alloc, Prefix::OneFull),
        Op::Nil => no_items(alloc),
        Op::Past(m) => whole_past(alloc, code, k, scope, past, m, r),
        _ => Err(Memory),
    }
}
