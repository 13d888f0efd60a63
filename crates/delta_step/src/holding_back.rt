//! Cases and waits that can't go on: nothing of their type is given, and what came is held.

ghost use Rattle.std.specs.Prelude.{◌≡◌, List, map, IfOk};
ghost use Rattle.stream_type.specs.StreamType.{type_of};
ghost use Rattle.stream_prefix.specs.StreamPrefix.{emp};
ghost use Rattle.core_term.specs.Run.{quiet};
ghost use Rattle.delta_state.specs.StateTree.{HeldName, LaterTree, sum_state, star_state, wait_state};
ghost use Rattle.delta_step.specs.Marked.{state_in, code_in};
ghost use Rattle.machine_parts.specs.Entry.{entry_in};
ghost use Rattle.delta_step.specs.Reached.{run_of, rest_of};

use crate::boxes::state_boxed;
use crate::copying::copy_code;
use crate::marked::{Code, Marked};
use crate::reached::Reached;
use crate::without_calls::quiet;
use bunch::Name;
use machine_parts::entry::Entry;
use machine_parts::parts::nothing_yet;
use machine_parts::results::pair;
use std::alloc::Global;
use stream_type::{Memory, Ty};

/// A case on a sum, of type `t`, whose side hasn't come, with what is held and both codes. Its only error is
/// want of memory.
#[inline(never)]
pub fn sum_waits(
    alloc: Global,
    z: Name,
    t: &Ty,
    held: Result<Vec<Entry>, Memory>,
    x: Name,
    y: Name,
    codes: Result<(Code, Code), Memory>,
    r: &Ty,
) -> Result<Reached, Memory>
    ensures run { IfOk result (λ a. run_of a ≡ quiet (emp (type_of r.now))) }
    ensures rest { (es : List HeldName) (l m : LaterTree) → IfOk held (λ v. map entry_in v.items ≡ es) → IfOk codes (λ p. (code_in p.0 ≡ l) × (code_in p.1 ≡ m)) → IfOk result (λ a. rest_of a ≡ sum_state z.0 (type_of t.now) es x.0 l y.0 m) }
{
    match pair(pair(stream_type::copy(alloc, t), held), codes) {
        Ok(((ty, held), (one, two))) => {
            waits(alloc, r, Marked::CaseSum(z, ty, held, x, one, y, two))
        }
        Err(Memory) => Err(Memory),
    }
}

/// A case on a star, of type `t`, of which neither an item nor the end has come, with what is held and both
/// codes. Its only error is want of memory.
#[inline(never)]
pub fn star_waits(
    alloc: Global,
    z: Name,
    t: &Ty,
    held: Result<Vec<Entry>, Memory>,
    y: Name,
    ys: Name,
    codes: Result<(Code, Code), Memory>,
    r: &Ty,
) -> Result<Reached, Memory>
    ensures run { IfOk result (λ a. run_of a ≡ quiet (emp (type_of r.now))) }
    ensures rest { (es : List HeldName) (l m : LaterTree) → IfOk held (λ v. map entry_in v.items ≡ es) → IfOk codes (λ p. (code_in p.0 ≡ l) × (code_in p.1 ≡ m)) → IfOk result (λ a. rest_of a ≡ star_state z.0 (type_of t.now) es l y.0 ys.0 m) }
{
    match pair(pair(stream_type::copy(alloc, t), held), codes) {
        Ok(((ty, held), (one, two))) => {
            waits(alloc, r, Marked::CaseStar(z, ty, held, one, y, ys, two))
        }
        Err(Memory) => Err(Memory),
    }
}

/// A wait, of type `t`, whose subject isn't whole, with what is held and the code that follows. Its only error
/// is want of memory.
#[inline(never)]
pub fn subject_waits(
    alloc: Global,
    x: Name,
    t: &Ty,
    held: Result<Vec<Entry>, Memory>,
    code: Result<Code, Memory>,
    r: &Ty,
) -> Result<Reached, Memory>
    ensures run { IfOk result (λ a. run_of a ≡ quiet (emp (type_of r.now))) }
    ensures rest { (es : List HeldName) (l : LaterTree) → IfOk held (λ v. map entry_in v.items ≡ es) → IfOk code (λ c. code_in c ≡ l) → IfOk result (λ a. rest_of a ≡ wait_state x.0 (type_of t.now) es l) }
{
    match pair(pair(stream_type::copy(alloc, t), held), code) {
        Ok(((ty, held), code)) => waits(alloc, r, Marked::Wait(x, ty, held, code)),
        Err(Memory) => Err(Memory),
    }
}

// Nothing of this type, and a state that waits.
fn waits(alloc: Global, r: &Ty, form: Marked) -> Result<Reached, Memory>
    ensures run { IfOk result (λ a. run_of a ≡ quiet (emp (type_of r.now))) }
    ensures rest { IfOk result (λ a. rest_of a ≡ state_in form) }
{
    match pair(nothing_yet(alloc, r), state_boxed(alloc, form)) {
        Ok((output, state)) => Ok(quiet(output, state)),
        Err(Memory) => Err(Memory),
    }
}

/// A case on a sum, with code in it as before. Its only error is want of memory.
#[inline(never)]
pub fn sum_holds(
    alloc: Global,
    z: Name,
    t: &Ty,
    held: Vec<Entry>,
    x: Name,
    one: &Code,
    y: Name,
    two: &Code,
    r: &Ty,
) -> Result<Reached, Memory>
    ensures run { IfOk result (λ a. run_of a ≡ quiet (emp (type_of r.now))) }
    ensures rest { IfOk result (λ a. rest_of a ≡ sum_state z.0 (type_of t.now) (map entry_in held.items) x.0 (code_in one.now) y.0 (code_in two.now)) }
{
    let codes = both_codes(alloc, one, two);
    sum_waits(alloc, z, t, Ok(held), x, y, codes, r)
}

/// A case on a star, with code in it as before. Its only error is want of memory.
#[inline(never)]
pub fn star_holds(
    alloc: Global,
    z: Name,
    t: &Ty,
    held: Vec<Entry>,
    one: &Code,
    y: Name,
    ys: Name,
    two: &Code,
    r: &Ty,
) -> Result<Reached, Memory>
    ensures run { IfOk result (λ a. run_of a ≡ quiet (emp (type_of r.now))) }
    ensures rest { IfOk result (λ a. rest_of a ≡ star_state z.0 (type_of t.now) (map entry_in held.items) (code_in one.now) y.0 ys.0 (code_in two.now)) }
{
    let codes = both_codes(alloc, one, two);
    star_waits(alloc, z, t, Ok(held), y, ys, codes, r)
}

/// A wait, with code in it as before. Its only error is want of memory.
#[inline(never)]
pub fn wait_holds(
    alloc: Global,
    x: Name,
    t: &Ty,
    held: Vec<Entry>,
    code: &Code,
    r: &Ty,
) -> Result<Reached, Memory>
    ensures run { IfOk result (λ a. run_of a ≡ quiet (emp (type_of r.now))) }
    ensures rest { IfOk result (λ a. rest_of a ≡ wait_state x.0 (type_of t.now) (map entry_in held.items) (code_in code.now)) }
{
    subject_waits(alloc, x, t, Ok(held), copy_code(alloc, code), r)
}

// Both codes as before.
fn both_codes(alloc: Global, one: &Code, two: &Code) -> Result<(Code, Code), Memory>
    ensures { IfOk result (λ p. (code_in p.0 ≡ code_in one.now) × (code_in p.1 ≡ code_in two.now)) }
{
    pair(copy_code(alloc, one), copy_code(alloc, two))
}
