//! States that stand beside each other: one that uses no name on which something comes is left as it is.
//!
//! An event comes on one name, and a program of many feeds has a state for each of them, side by side. So a step
//! goes down to the states in which that name is free, and each of these sees those entries alone whose names it
//! uses. What is left of it is put into a simpler form, and its type is moved on, where it stands.

ghost use Rattle.std.specs.Prelude.{◌≡◌, ◌<◌, ◌^◌, ◌+◌, ◌++◌, ◌∷◌, [], ℕ, not, map, Ok, IfOk, OnOk};
ghost use Rattle.stream_type.specs.StreamType.{StreamType, type_of, par};
ghost use Rattle.stream_prefix.specs.StreamPrefix.{emp, der};
ghost use Rattle.stream_prefix.specs.Tree.{prefix_of};
ghost use Rattle.bunch.specs.Names.{holds};
ghost use Rattle.core_term.specs.Run.{Run, par_run};
ghost use Rattle.delta_state.specs.StateTree.{StateTree, par_state, free_in_state};
ghost use Rattle.delta_state.specs.StateMeaning.{types_held};
ghost use Rattle.delta_state.specs.Laws.{GivesNothing};
ghost use Rattle.machine_parts.specs.Entry.{entry_in};
ghost use Rattle.machine_parts.specs.AwaitedTree.{awaited_in, entries_on};
ghost use Rattle.template_state.specs.Readers.{state_in};
ghost use Rattle.template_state.specs.Templates.{bodies_in};
ghost use Rattle.state_rewriting.specs.Rewriting.{SimplerBy};
ghost use Rattle.delta_code.specs.Beside.{used_of, IsReady, IsBeside, Advances};
ghost use Rattle.delta_code.specs.CodedView.{run_awaiting, rest_awaiting};
ghost use Rattle.delta_code.specs.GoesOn.{GoesOn};

use crate::awaiting::step_awaiting;
use crate::stepping::step_state;
use crate::told::{Told, both, quiet};
use crate::touched::{Touch, touched};
use bunch::Name;
use in_place::go_behind;
use machine_parts::awaited::Awaited;
use machine_parts::entry::Entry;
use machine_parts::scope::Scope;
use machine_parts::stop::{LEVELS, Stop};
use std::alloc::Global;
use stream_prefix::{Prefix, empty};
use stream_type::{Memory, Ty};
use template_state::{Code, Live, settle, uses};

/// What a state gives on what comes next, where so much is awaited, with no more calls than the budget; the state is
/// then what is left of it in a simpler form, and the type of its output is what is left of that. It is `Spent` only
/// where more calls are made, and `Deep` only where one is made at too great a level. Its other error is want of
/// memory. After an error the state is partly changed.
pub fn step_next(
    alloc: Global,
    code: &Code,
    awaited: &Awaited,
    next: &Prefix,
    state: &mut Live,
    output: &mut Ty,
    budget: u64,
) -> Result<Told, Stop>
    requires { IsReady (bodies_in code.now) (types_held (entries_on (awaited_in awaited.now) (prefix_of next.now))) (state_in state.old) (type_of output.old) }
    ensures { Advances result (run_awaiting code.now (state_in state.old) (type_of output.old) (awaited_in awaited.now) (prefix_of next.now)) (rest_awaiting code.now (state_in state.old) (type_of output.old) (awaited_in awaited.now) (prefix_of next.now)) (state_in state.new) (type_of output.old) (type_of output.new) budget 1001 }
{
    if !stands_beside(state) {
        return step_whole(alloc, code, awaited, next, state, output, budget);
    }
    match touched(awaited, next) {
        Touch::One(x) => step_beside(alloc, code, awaited, next, x, state, output, budget),
        Touch::Nothing | Touch::Many => {
            step_whole(alloc, code, awaited, next, state, output, budget)
        }
    }
}

// Whether a state is two beside each other.
fn stands_beside(s: &Live) -> bool {
    matches!(s, Live::Par(_, _))
}

// Whether a name isn't free in a state.
fn is_apart(s: &Live, x: Name) -> bool
    ensures { result ≡ not (holds x.0 (free_in_state (state_in s.now))) }
{
    !uses(s, x)
}

// All of the state goes on.
fn step_whole(
    alloc: Global,
    code: &Code,
    awaited: &Awaited,
    next: &Prefix,
    state: &mut Live,
    output: &mut Ty,
    budget: u64,
) -> Result<Told, Stop>
    ensures { Advances result (run_awaiting code.now (state_in state.old) (type_of output.old) (awaited_in awaited.now) (prefix_of next.now)) (rest_awaiting code.now (state_in state.old) (type_of output.old) (awaited_in awaited.now) (prefix_of next.now)) (state_in state.new) (type_of output.old) (type_of output.new) budget 1001 }
{
    let told = step_awaiting(alloc, code, awaited, next, state, output, budget);
    settled(alloc, state, output, told)
}

// The states go on in which the name is free, where nothing comes on any other.
#[cycle(beside)]
fn step_beside(
    alloc: Global,
    code: &Code,
    awaited: &Awaited,
    next: &Prefix,
    x: Name,
    state: &mut Live,
    output: &mut Ty,
    budget: u64,
) -> Result<Told, Stop>
    requires { IsBeside x.0 (entries_on (awaited_in awaited.now) (prefix_of next.now)) (bodies_in code.now) (state_in state.old) (type_of output.old) }
    ensures { Advances result (run_awaiting code.now (state_in state.old) (type_of output.old) (awaited_in awaited.now) (prefix_of next.now)) (rest_awaiting code.now (state_in state.old) (type_of output.old) (awaited_in awaited.now) (prefix_of next.now)) (state_in state.new) (type_of output.old) (type_of output.new) budget 1001 }
{
    if is_apart(state, x) {
        return rested(empty_boxed(alloc, output));
    }
    match state {
        Live::Par(a, b) => match output {
            Ty::Par(t, u) => step_sides(alloc, code, awaited, next, x, a, t, b, u, budget),
            _ => Err(Stop::Memory),
        },
        Live::Sink(_)
        | Live::Var(_)
        | Live::Cat(_, _)
        | Live::Let(_, _, _, _)
        | Live::LetPar(_, _, _, _)
        | Live::LetCat(_, _, _, _)
        | Live::CaseSum(_, _, _, _, _, _, _)
        | Live::CaseStar(_, _, _, _, _, _, _)
        | Live::Wait(_, _, _, _)
        | Live::Frame(_, _) => step_used(alloc, code, awaited, next, state, output, budget),
    }
}

// Two states beside each other.
#[cycle(beside)]
#[inline(never)]
fn step_sides(
    alloc: Global,
    code: &Code,
    awaited: &Awaited,
    next: &Prefix,
    x: Name,
    a: &mut Live,
    t: &mut Ty,
    b: &mut Live,
    u: &mut Ty,
    budget: u64,
) -> Result<Told, Stop>
    requires { IsBeside x.0 (entries_on (awaited_in awaited.now) (prefix_of next.now)) (bodies_in code.now) (par_state (state_in a.old) (state_in b.old)) (par (type_of t.old) (type_of u.old)) }
    ensures { Advances result (run_awaiting code.now (par_state (state_in a.old) (state_in b.old)) (par (type_of t.old) (type_of u.old)) (awaited_in awaited.now) (prefix_of next.now)) (rest_awaiting code.now (par_state (state_in a.old) (state_in b.old)) (par (type_of t.old) (type_of u.old)) (awaited_in awaited.now) (prefix_of next.now)) (par_state (state_in a.new) (state_in b.new)) (par (type_of t.old) (type_of u.old)) (par (type_of t.new) (type_of u.new)) budget 1001 }
{
    match step_beside(alloc, code, awaited, next, x, a, t, budget) {
        Ok(one) => {
            let rest = budget - one.calls;
            let two = step_beside(alloc, code, awaited, next, x, b, u, rest);
            sides_done(alloc, one, two)
        }
        Err(stop) => Err(stop),
    }
}

// Both sides, of which the first went on.
#[inline(never)]
fn sides_done(alloc: Global, one: Told, two: Result<Told, Stop>) -> Result<Told, Stop>
    requires { IfOk two (λ b. one.calls + b.calls < 2 ^ 64) }
    ensures { (x y : Run) (s v w z : StateTree) (t t' u u' : StreamType) (n m l : ℕ) → Advances (Ok one) x s v t t' n l → one.calls + m ≡ n → Advances two y w z u u' m l → Advances result (par_run x y) (par_state s w) (par_state v z) (par t u) (par t' u') n l }
{
    match two {
        Ok(b) => match both(alloc, one, b) {
            Ok(told) => Ok(told),
            Err(_) => Err(Stop::Memory),
        },
        Err(stop) => Err(stop),
    }
}

// Nothing, where the state and its type stay as they are.
fn rested(nothing: Result<Box<Prefix>, Memory>) -> Result<Told, Stop>
    ensures { (r : StreamType) (x : Run) (s v : StateTree) (n l : ℕ) → IfOk nothing (λ p. prefix_of p.value ≡ emp r) → GivesNothing r x → s ≡ v → Advances result x s v r r n l }
{
    match nothing {
        Ok(output) => Ok(quiet(output)),
        Err(_) => Err(Stop::Memory),
    }
}

// The empty prefix of a type, in a box.
fn empty_boxed(alloc: Global, t: &Ty) -> Result<Box<Prefix>, Memory>
    ensures { IfOk result (λ p. prefix_of p.value ≡ emp (type_of t.now)) }
{
    let nothing = empty(alloc, t)?;
    Ok(Box::new(alloc, nothing)?)
}

// A state goes on by the entries whose names it uses.
#[inline(never)]
fn step_used(
    alloc: Global,
    code: &Code,
    awaited: &Awaited,
    next: &Prefix,
    state: &mut Live,
    output: &mut Ty,
    budget: u64,
) -> Result<Told, Stop>
    requires { IsReady (bodies_in code.now) (types_held (entries_on (awaited_in awaited.now) (prefix_of next.now))) (state_in state.old) (type_of output.old) }
    ensures { Advances result (run_awaiting code.now (state_in state.old) (type_of output.old) (awaited_in awaited.now) (prefix_of next.now)) (rest_awaiting code.now (state_in state.old) (type_of output.old) (awaited_in awaited.now) (prefix_of next.now)) (state_in state.new) (type_of output.old) (type_of output.new) budget 1001 }
{
    let mut entries = Vec::new(alloc);
    let Ok(()) = add_used(alloc, awaited, next, state, &mut entries) else {
        return Err(Stop::Memory);
    };
    let scope = Scope::Names(&entries);
    let told = step_state(alloc, code, &scope, state, output, budget, LEVELS);
    settled(alloc, state, output, told)
}

// Puts what is left of a state into a simpler form, once its type is moved on by what was given.
#[inline(never)]
fn settled(
    alloc: Global,
    state: &mut Live,
    output: &mut Ty,
    told: Result<Told, Stop>,
) -> Result<Told, Stop>
    ensures { (x : Run) (s : StateTree) (n l : ℕ) → GoesOn told x s (state_in state.old) n l → Advances result x s (state_in state.new) (type_of output.old) (type_of output.new) n l }
{
    match told {
        Ok(told) => match put_right(alloc, state, output, &told.output) {
            Ok(()) => Ok(told),
            Err(_) => {
                drop(told);
                Err(Stop::Memory)
            }
        },
        Err(stop) => Err(stop),
    }
}

// A state's type is moved on, and the state put into a simpler form.
fn put_right(alloc: Global, state: &mut Live, output: &mut Ty, given: &Prefix) -> Result<(), Memory>
    ensures output { OnOk result (type_of output.new ≡ der (prefix_of given.now) (type_of output.old)) }
    ensures state { OnOk result (SimplerBy (type_of output.new) (state_in state.old) (state_in state.new)) }
{
    go_behind(alloc, output, given)?;
    settle(alloc, state, output)
}

// Adds the entries of the names that the state uses. Where names are awaited in turn, or what comes isn't of the
// shape of what is awaited, that counts as want of memory.
#[tactic(auto, using(crate::proofs::SideBySide::used_append))]
fn add_used(
    alloc: Global,
    awaited: &Awaited,
    next: &Prefix,
    state: &Live,
    found: &mut Vec<Entry>,
) -> Result<(), Memory>
    ensures { OnOk result (map entry_in found.new.items ≡ map entry_in found.old.items ++ used_of (free_in_state (state_in state.now)) (entries_on (awaited_in awaited.now) (prefix_of next.now))) }
{
    match awaited {
        Awaited::Nothing => Ok(()),
        Awaited::Stream(x, t) => add_name_used(alloc, *x, t, next, state, found),
        Awaited::AtOnce(a, b) => match next {
            Prefix::Par(d, e) => match add_used(alloc, a, d, state, found) {
                Ok(()) => add_used(alloc, b, e, state, found),
                Err(Memory) => Err(Memory),
            },
            _ => Err(Memory),
        },
        Awaited::InTurn(_, _, _) => Err(Memory),
    }
}

// The entry of a name, if the state uses it.
fn add_name_used(
    alloc: Global,
    name: Name,
    t: &Ty,
    next: &Prefix,
    state: &Live,
    found: &mut Vec<Entry>,
) -> Result<(), Memory>
    ensures { OnOk result (map entry_in found.new.items ≡ map entry_in found.old.items ++ used_of (free_in_state (state_in state.now)) (record { name = name.0; type = type_of t.now; prefix = prefix_of next.now } ∷ [])) }
{
    if !uses(state, name) {
        return Ok(());
    }
    let ty = stream_type::copy(alloc, t)?;
    let prefix = stream_prefix::copy(alloc, next)?;
    found.push(Entry { name, ty, prefix })?;
    Ok(())
}
