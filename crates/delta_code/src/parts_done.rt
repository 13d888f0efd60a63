//! What a form gives once its parts have run: where a part stops, the form does.
//!
//! Nothing here calls back, so the functions that go through a term have little more than their calls.

ghost use Rattle.std.specs.Prelude.{◌≡◌, ◌+◌, ◌-◌, ◌<◌, ◌≤◌, ◌^◌, ◌||◌, ℕ, true, IfOk, Ok};
ghost use Rattle.stream_type.specs.StreamType.{type_of};
ghost use Rattle.stream_prefix.specs.Tree.{prefix_of};
ghost use Rattle.stream_prefix.specs.StreamPrefix.{in_left, in_right, is_maximal, der};
ghost use Rattle.core_term.specs.Run.{Run, Runs, relabel, par_run, cat_run, let_run, run_before, call_run};
ghost use Rattle.delta_state.specs.StateTree.{StateTree, ArgumentTrees, sink, var_state, par_state, let_state, let_cat_state, frame_state, argument_before};
ghost use Rattle.machine_parts.specs.Levels.{below};
ghost use Rattle.template_state.specs.declared.code.Code.{Code};
ghost use Rattle.delta_code.specs.declared.way.Way.{Way};
ghost use Rattle.delta_code.specs.Begun.{run_of, rest_of, runs_of, rests_of};
ghost use Rattle.delta_code.specs.Eased.{Eased, EasedArguments};
ghost use Rattle.delta_code.specs.Gives.{Gives, GivesAll, Leads};

use crate::begun::{
    Begun, Passed, aliased, both, bound, called, in_two, left_side, right_side, rowed, run_before,
    second, state_before,
};
use crate::way::Reached;
use bunch::Name;
use machine_parts::stop::Stop;
use std::alloc::Global;
use stream_prefix::Prefix;
use stream_type::{Memory, Ty};

/// What was made of parts that ran, or want of memory.
pub fn made(whole: Result<Begun, Memory>) -> Result<Begun, Stop>
    ensures { (x : Run) (s : StateTree) (n l : ℕ) → IfOk whole (λ a. run_of a ≡ x) → IfOk whole (λ a. Eased s (rest_of a)) → IfOk whole (λ a. a.calls ≤ n) → IfOk whole (λ a. a.level ≤ l) → Gives result x s n l }
{
    match whole {
        Ok(a) => Ok(a),
        Err(_) => Err(Stop::Memory),
    }
}

/// What was made where one stands, or want of memory, at the end of any way.
pub fn given(whole: Result<Begun, Memory>) -> Result<Reached, Stop>
    ensures { (c : Code) (k : ℕ) (w : Way) (x : Run) (s : StateTree) (n l : ℕ) → IfOk whole (λ a. run_of a ≡ x) → IfOk whole (λ a. Eased s (rest_of a)) → IfOk whole (λ a. a.calls ≤ n) → IfOk whole (λ a. a.level ≤ l) → Leads result c k w w x s n l }
{
    match whole {
        Ok(a) => Ok(Reached::Given(a)),
        Err(_) => Err(Stop::Memory),
    }
}

/// What a part gives where one stands, at the end of any way.
pub fn at_place(inside: Result<Begun, Stop>) -> Result<Reached, Stop>
    ensures { (c : Code) (k : ℕ) (w : Way) (x : Run) (s : StateTree) (n l : ℕ) → Gives inside x s n l → Leads result c k w w x s n l }
{
    match inside {
        Ok(a) => Ok(Reached::Given(a)),
        Err(stop) => Err(stop),
    }
}

/// The left side of a sum.
#[inline(never)]
pub fn left_done(alloc: Global, inside: Result<Begun, Stop>) -> Result<Begun, Stop>
    ensures { (x : Run) (s : StateTree) (n l : ℕ) → Gives inside x s n l → Gives result (relabel in_left x) s n l }
{
    match inside {
        Ok(a) => made(left_side(alloc, a)),
        Err(stop) => Err(stop),
    }
}

/// The right side of a sum.
#[inline(never)]
pub fn right_done(alloc: Global, inside: Result<Begun, Stop>) -> Result<Begun, Stop>
    ensures { (x : Run) (s : StateTree) (n l : ℕ) → Gives inside x s n l → Gives result (relabel in_right x) s n l }
{
    match inside {
        Ok(a) => made(right_side(alloc, a)),
        Err(stop) => Err(stop),
    }
}

/// A let of a name for z, of type t, after p on it, round what is left.
#[inline(never)]
pub fn alias_done(
    alloc: Global,
    x: Name,
    t: &Ty,
    p: &Prefix,
    z: Name,
    inside: Result<Begun, Stop>,
) -> Result<Begun, Stop>
    ensures { (a : Run) (s : StateTree) (n l : ℕ) → Gives inside a s n l → Gives result a (let_state x.0 (der (prefix_of p.now) (type_of t.now)) (var_state z.0) s) n l }
{
    match inside {
        Ok(a) => made(aliased(alloc, x, t, p, z, a)),
        Err(stop) => Err(stop),
    }
}

/// `let (x; y) = z`, before its mark, round what is left.
#[inline(never)]
pub fn unmarked_done(
    alloc: Global,
    x: Name,
    y: Name,
    z: Name,
    inside: Result<Begun, Stop>,
) -> Result<Begun, Stop>
    ensures { (a : Run) (s : StateTree) (n l : ℕ) → Gives inside a s n l → Gives result a (let_cat_state x.0 y.0 z.0 s) n l }
{
    match inside {
        Ok(a) => made(rowed(alloc, x, y, z, a)),
        Err(stop) => Err(stop),
    }
}

/// Two lets round what is left: of a name of type t on which nothing comes any more after p, and of one for
/// z, of type u, after q.
#[inline(never)]
pub fn item_done(
    alloc: Global,
    x: Name,
    t: &Ty,
    p: &Prefix,
    y: Name,
    u: &Ty,
    q: &Prefix,
    z: Name,
    inside: Result<Begun, Stop>,
) -> Result<Begun, Stop>
    ensures { (a : Run) (s : StateTree) (n l : ℕ) → Gives inside a s n l → Gives result a (let_state x.0 (der (prefix_of p.now) (type_of t.now)) (sink (der (prefix_of p.now) (type_of t.now))) (let_state y.0 (der (prefix_of q.now) (type_of u.now)) (var_state z.0) s)) n l }
{
    match inside {
        Ok(a) => made(in_two(alloc, x, t, p, y, u, q, z, a)),
        Err(stop) => Err(stop),
    }
}

/// Both at once.
#[inline(never)]
pub fn both_done(alloc: Global, one: Begun, two: Result<Begun, Stop>) -> Result<Begun, Stop>
    requires { IfOk two (λ b. one.calls + b.calls < 2 ^ 64) }
    ensures { (x y : Run) (s t : StateTree) (n m l : ℕ) → Gives (Ok one) x s n l → one.calls + m ≡ n → Gives two y t m l → Gives result (par_run x y) (par_state s t) n l }
{
    match two {
        Ok(b) => made(both(alloc, one, b)),
        Err(stop) => Err(stop),
    }
}

/// The first of two, which is whole, and the second.
#[inline(never)]
pub fn turn_done(alloc: Global, one: Begun, two: Result<Begun, Stop>) -> Result<Begun, Stop>
    requires { IfOk two (λ b. one.calls + b.calls < 2 ^ 64) }
    ensures { (x y : Run) (s t : StateTree) (n m l : ℕ) → Gives (Ok one) x s n l → is_maximal x.out ≡ true → one.calls + m ≡ n → Gives two y t m l → Gives result (cat_run x y) t n l }
{
    match two {
        Ok(b) => made(second(alloc, one, b)),
        Err(stop) => Err(stop),
    }
}

/// A name of this type bound to what the first gives in the second.
#[inline(never)]
pub fn let_done(
    alloc: Global,
    is_name: bool,
    name: Name,
    t: &Ty,
    head: Begun,
    body: Result<Begun, Stop>,
) -> Result<Begun, Stop>
    requires { IfOk body (λ b. head.calls + b.calls < 2 ^ 64) }
    ensures { (x y : Run) (s u : StateTree) (n m l j : ℕ) → Gives (Ok head) x s n (l - 1) → head.calls + m ≡ n → j ≡ below (is_name || is_maximal (prefix_of head.output.value)) l → Gives body y u m j → Gives result (let_run is_name x y) (let_state name.0 (der x.out (type_of t.now)) s u) n l }
{
    match body {
        Ok(b) => made(bound(alloc, is_name, name, t, head, b)),
        Err(stop) => Err(stop),
    }
}

/// A call of a body, which the body's run counts, on its arguments.
#[inline(never)]
pub fn call_done(alloc: Global, arguments: Passed, body: Result<Begun, Stop>) -> Result<Begun, Stop>
    requires { IfOk body (λ b. arguments.calls + b.calls < 2 ^ 64) }
    ensures { (x : Runs) (y : Run) (s : ArgumentTrees) (u : StateTree) (n m l j : ℕ) → GivesAll (Ok arguments) x s n (l - 1) → arguments.calls + m ≡ n → 0 < l → j ≡ below arguments.are_shut l → Gives body y u m j → Gives result (call_run x y) (frame_state s u) n l }
{
    match body {
        Ok(b) => made(called(alloc, arguments, b)),
        Err(stop) => Err(stop),
    }
}

/// An argument for a parameter of this type in front of others.
#[inline(never)]
pub fn argument_done(
    alloc: Global,
    is_name: bool,
    name: Name,
    t: &Ty,
    a: Begun,
    others: Result<Passed, Stop>,
) -> Result<Passed, Stop>
    requires { IfOk others (λ b. a.calls + b.calls < 2 ^ 64) }
    ensures { (x : Run) (y : Runs) (s : StateTree) (u : ArgumentTrees) (n m l : ℕ) → Gives (Ok a) x s n l → a.calls + m ≡ n → GivesAll others y u m l → GivesAll result (run_before is_name x y) (argument_before name.0 (der x.out (type_of t.now)) s u) n l }
{
    match others {
        Ok(b) => all_made(before_others(alloc, is_name, name, t, a, b)),
        Err(stop) => Err(stop),
    }
}

/// An argument without a parameter, of which no state is kept, in front of others.
#[inline(never)]
pub fn unnamed_done(
    alloc: Global,
    is_name: bool,
    a: &Begun,
    others: Result<Passed, Stop>,
) -> Result<Passed, Stop>
    requires { IfOk others (λ b. a.now.calls + b.calls < 2 ^ 64) }
    ensures { (x : Run) (y : Runs) (s : StateTree) (u : ArgumentTrees) (n m l : ℕ) → Gives (Ok a.now) x s n l → a.now.calls + m ≡ n → GivesAll others y u m l → GivesAll result (run_before is_name x y) u n l }
{
    match others {
        Ok(b) => all_made(run_before(alloc, is_name, a, b)),
        Err(stop) => Err(stop),
    }
}

// An argument for a parameter of this type in front of others. Its only error is want of memory.
fn before_others(
    alloc: Global,
    is_name: bool,
    name: Name,
    t: &Ty,
    a: Begun,
    others: Passed,
) -> Result<Passed, Memory>
    requires { a.calls + others.calls < 2 ^ 64 }
    ensures runs { IfOk result (λ r. runs_of r ≡ run_before is_name (run_of a) (runs_of others)) }
    ensures rests { IfOk result (λ r. rests_of r ≡ argument_before name.0 (der (prefix_of a.output.value) (type_of t.now)) (rest_of a) (rests_of others)) }
{
    let all = run_before(alloc, is_name, &a, others)?;
    state_before(alloc, name, t, a, all)
}

/// Arguments that were made, or want of memory.
pub fn all_made(whole: Result<Passed, Memory>) -> Result<Passed, Stop>
    ensures { (x : Runs) (s : ArgumentTrees) (n l : ℕ) → IfOk whole (λ a. runs_of a ≡ x) → IfOk whole (λ a. EasedArguments s (rests_of a)) → IfOk whole (λ a. a.calls ≤ n) → IfOk whole (λ a. a.level ≤ l) → GivesAll result x s n l }
{
    match whole {
        Ok(a) => Ok(a),
        Err(_) => Err(Stop::Memory),
    }
}
