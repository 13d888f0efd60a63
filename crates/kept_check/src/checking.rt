//! The walk over the states of a kept state, to the first that isn't as it should be.

ghost use Rattle.std.specs.Prelude.{◌≡◌, ◌↔◌, ◌==◌, ◌<◌, ◌+◌, ◌^◌, ◌&&◌, ◌||◌, ◌++◌, true, ℕ, take, IsTrue, IfOk, OnOk};
ghost use Rattle.stream_type.specs.StreamType.{type_of};
ghost use Rattle.bunch.specs.Names.{numbers_of};
ghost use Rattle.bunch.specs.Facts.{place_let};
ghost use Rattle.core_term.specs.CoreTerm.{typed_names_of};
ghost use Rattle.core_term.specs.FreeNames.{is_distinct};
ghost use Rattle.delta_check.specs.Scopes.{context_in, context_given, given_at, facts_given, place_known};
ghost use Rattle.delta_state.specs.StateTree.{argument_names, free_in_state};
ghost use Rattle.delta_state.specs.StateTyping.{marks_of_arguments, facts_of_arguments, context_of_arguments};
ghost use Rattle.kept_state.specs.KeptBytes.{nodes_in_state, nodes_in_arguments};
ghost use Rattle.kept_rules.specs.InTurn.{own_names, names_in_turn, names_of_parts, names_of_arguments, state_at, states_of, states_in, states_of_arguments, with_state, with_sides, with_steps};
ghost use Rattle.kept_rules.specs.StateRules.{FollowsRule, IsGood};
ghost use Rattle.delta_keep.specs.KeptView.{state_of, arguments_from};
ghost use Rattle.kept_check.specs.Arguments.{are_before, are_behind};
ghost use Rattle.kept_check.specs.Judging.{funs_of, IsJudge};
ghost use Rattle.kept_check.specs.Sizes.{states_number, states_of_parts, states_in_arguments};
ghost use Rattle.kept_check.specs.Walk.{FindsBad, Finds, ChecksOwn};

use crate::bound::{add_behind, add_names, add_parts};
use crate::free::free_in;
use crate::judge::Judge;
use crate::names::are_distinct;
use crate::rules::{all_before, follows_rule, parameters};
use crate::stop::Stop;
use bunch::Name;
use core_term::parts::{cat_types, par_types};
use delta_check::{Placed, Scope, place_of_let, type_or};
use delta_keep::{Argument, KeptState};
use std::alloc::Global;
use stream_type::{Memory, Ty, copy};

/// Goes through a state and the states in it in turn, which are numbered from this number on, to the first
/// that isn't as it should be, and else answers the number after them. `bound` are the names that are bound
/// before it, and then also those that it binds outside all frames' bodies. Its other error is want of
/// memory.
#[cycle(walk)]
pub fn check_state<'a>(
    judge: &Judge<'_>,
    s: &KeptState,
    r: &Ty,
    scope: &'a Scope<'a>,
    bound: &mut Vec<Name>,
    number: u32,
) -> Result<u32, Stop>
    requires number { number + states_number (state_of s.now) < 2 ^ 32 }
    requires size { nodes_in_state (state_of s.now) < 2 ^ 32 }
    requires judge { IsJudge judge.now }
    requires once { IsTrue (is_distinct (numbers_of bound.old.items)) }
    ensures { Finds (funs_of judge.now) judge.now.depth number (states_of (context_in scope.now) (type_of r.now) (numbers_of bound.old.items) (state_of s.now)) (numbers_of bound.old.items) (names_in_turn (state_of s.now)) (numbers_of bound.new.items) result }
{
    match check_own(judge, s, r, scope, bound, number) {
        Ok(()) => check_parts(judge, s, r, scope, bound, number + 1),
        Err(stop) => Err(stop),
    }
}

// Checks a state with this number for itself, and puts the names that it binds behind those before.
fn check_own(
    judge: &Judge<'_>,
    s: &KeptState,
    r: &Ty,
    scope: &Scope<'_>,
    bound: &mut Vec<Name>,
    number: u32,
) -> Result<(), Stop>
    requires size { nodes_in_state (state_of s.now) < 2 ^ 32 }
    requires judge { IsJudge judge.now }
    requires once { IsTrue (is_distinct (numbers_of bound.old.items)) }
    ensures { ChecksOwn (funs_of judge.now) judge.now.depth number (state_at (context_in scope.now) (type_of r.now) (numbers_of bound.old.items) (state_of s.now)) (numbers_of bound.new.items) result }
{
    let before = bound.len();
    match add_own(s, bound) {
        Ok(()) => match is_good(judge, scope, s, r, bound, before) {
            Ok(true) => Ok(()),
            Ok(false) => Err(Stop::At(number)),
            Err(_) => Err(Stop::Memory),
        },
        Err(_) => Err(Stop::Memory),
    }
}

// Whether a state follows its rule and binds no name again, where the names from this place on are those
// that it binds.
fn is_good(
    judge: &Judge<'_>,
    scope: &Scope<'_>,
    s: &KeptState,
    r: &Ty,
    bound: &[Name],
    before: usize,
) -> Result<bool, Memory>
    requires size { nodes_in_state (state_of s.now) < 2 ^ 32 }
    requires judge { IsJudge judge.now }
    requires once { IsTrue (is_distinct (numbers_of (take before bound.now))) }
    requires own { numbers_of bound.now ≡ numbers_of (take before bound.now) ++ own_names (state_of s.now) }
    ensures { IfOk result (λ b. IsTrue b ↔ IsGood (funs_of judge.now) judge.now.depth (state_at (context_in scope.now) (type_of r.now) (numbers_of (take before bound.now)) (state_of s.now))) }
{
    if are_distinct(bound, before) {
        follows_rule(judge, scope, s, r)
    } else {
        Ok(false)
    }
}

// Adds the names that a state binds by its own form and in its code that isn't reached.
fn add_own(s: &KeptState, bound: &mut Vec<Name>) -> Result<(), Memory>
    ensures { OnOk result (numbers_of bound.new.items ≡ numbers_of bound.old.items ++ own_names (state_of s.now)) }
{
    match s {
        KeptState::Cat(_, l) | KeptState::Wait(_, _, _, l) => add_behind(&[], &l.code, bound),
        KeptState::Let(x, _, _, _) => add_names(&[*x], bound),
        KeptState::LetPar(x, y, _, _) | KeptState::LetCat(x, y, _, _) => {
            add_names(&[*x, *y], bound)
        }
        KeptState::CaseSum(_, _, _, x, l, y, m) => {
            add_parts(&[*x], &l.code, &[*y], &m.code, bound)
        }
        KeptState::CaseStar(_, _, _, l, y, ys, m) => {
            add_parts(&[], &l.code, &[*y, *ys], &m.code, bound)
        }
        KeptState::Sink(_) | KeptState::Var(_) | KeptState::Par(_, _) | KeptState::Frame(_, _) => {
            Ok(())
        }
    }
}

// The same of the states in a state.
#[cycle(walk)]
#[tactic(auto, using(delta_keep::proofs::ArgumentRows::rows))]
fn check_parts<'a>(
    judge: &Judge<'_>,
    s: &KeptState,
    r: &Ty,
    scope: &'a Scope<'a>,
    bound: &mut Vec<Name>,
    number: u32,
) -> Result<u32, Stop>
    requires number { number + states_of_parts (state_of s.now) < 2 ^ 32 }
    requires size { nodes_in_state (state_of s.now) < 2 ^ 32 }
    requires judge { IsJudge judge.now }
    requires once { IsTrue (is_distinct (numbers_of bound.old.items)) }
    requires rule { FollowsRule (funs_of judge.now) judge.now.depth (context_in scope.now) (state_of s.now) (type_of r.now) }
    ensures { Finds (funs_of judge.now) judge.now.depth number (states_in (context_in scope.now) (type_of r.now) (numbers_of bound.old.items) (state_of s.now)) (numbers_of bound.old.items) (names_of_parts (state_of s.now)) (numbers_of bound.new.items) result }
{
    match s {
        KeptState::Sink(_)
        | KeptState::Var(_)
        | KeptState::CaseSum(_, _, _, _, _, _, _)
        | KeptState::CaseStar(_, _, _, _, _, _, _)
        | KeptState::Wait(_, _, _, _) => Ok(number),
        KeptState::Par(a, b) => {
            let (left, right) = par_types(r, &Ty::Eps);
            check_two(judge, a, left, &*scope, b, right, &*scope, bound, number)
        }
        KeptState::Cat(a, _) => {
            let (first, _) = cat_types(r, &Ty::Eps);
            check_state(judge, a, first, scope, bound, number)
        }
        KeptState::Let(x, t, a, b) => { check_let(judge, *x, t, a, b, r, scope, bound, number) }
        KeptState::LetPar(x, y, z, a) => {
            check_sides(judge, *x, *y, *z, a, r, scope, bound, number)
        }
        KeptState::LetCat(x, y, z, a) => {
            check_steps(judge, *x, *y, *z, a, r, scope, bound, number)
        }
        KeptState::Frame(args, s) => check_frame(judge, args, s, r, scope, bound, number),
    }
}

// The same of the state behind `let (x, y) = z`, in which both sides are known.
#[cycle(walk)]
fn check_sides<'a>(
    judge: &Judge<'_>,
    x: Name,
    y: Name,
    z: Name,
    a: &KeptState,
    r: &Ty,
    scope: &'a Scope<'a>,
    bound: &mut Vec<Name>,
    number: u32,
) -> Result<u32, Stop>
    requires number { number + states_number (state_of a.now) < 2 ^ 32 }
    requires size { nodes_in_state (state_of a.now) < 2 ^ 32 }
    requires judge { IsJudge judge.now }
    requires once { IsTrue (is_distinct (numbers_of bound.old.items)) }
    ensures { Finds (funs_of judge.now) judge.now.depth number (states_of (with_sides x.0 y.0 z.0 (context_in scope.now)) (type_of r.now) (numbers_of bound.old.items) (state_of a.now)) (numbers_of bound.old.items) (names_in_turn (state_of a.now)) (numbers_of bound.new.items) result }
{
    let (left, right) = par_types(type_or(&*scope, z, &Ty::Eps), &Ty::Eps);
    let first = Scope::Like(x, left, z, &*scope);
    let inner = Scope::Like(y, right, z, &first);
    check_state(judge, a, r, &inner, bound, number)
}

// The same behind `let (x; y) = z`, in which both parts are known, and that the first stands before the second.
#[cycle(walk)]
fn check_steps<'a>(
    judge: &Judge<'_>,
    x: Name,
    y: Name,
    z: Name,
    a: &KeptState,
    r: &Ty,
    scope: &'a Scope<'a>,
    bound: &mut Vec<Name>,
    number: u32,
) -> Result<u32, Stop>
    requires number { number + states_number (state_of a.now) < 2 ^ 32 }
    requires size { nodes_in_state (state_of a.now) < 2 ^ 32 }
    requires judge { IsJudge judge.now }
    requires once { IsTrue (is_distinct (numbers_of bound.old.items)) }
    ensures { Finds (funs_of judge.now) judge.now.depth number (states_of (with_steps x.0 y.0 z.0 (context_in scope.now)) (type_of r.now) (numbers_of bound.old.items) (state_of a.now)) (numbers_of bound.old.items) (names_in_turn (state_of a.now)) (numbers_of bound.new.items) result }
{
    let (left, right) = cat_types(type_or(&*scope, z, &Ty::Eps), &Ty::Eps);
    let first = Scope::Like(x, left, z, &*scope);
    let second = Scope::Like(y, right, z, &first);
    let inner = Scope::Fact(x, y, &second);
    check_state(judge, a, r, &inner, bound, number)
}

// The same of two states in turn.
#[cycle(walk)]
fn check_two<'a>(
    judge: &Judge<'_>,
    a: &KeptState,
    s: &Ty,
    outer: &'a Scope<'a>,
    b: &KeptState,
    r: &Ty,
    inner: &'a Scope<'a>,
    bound: &mut Vec<Name>,
    number: u32,
) -> Result<u32, Stop>
    requires number { number + (states_number (state_of a.now) + states_number (state_of b.now)) < 2 ^ 32 }
    requires size { nodes_in_state (state_of a.now) + nodes_in_state (state_of b.now) < 2 ^ 32 }
    requires judge { IsJudge judge.now }
    requires once { IsTrue (is_distinct (numbers_of bound.old.items)) }
    ensures { Finds (funs_of judge.now) judge.now.depth number (states_of (context_in outer.now) (type_of s.now) (numbers_of bound.old.items) (state_of a.now)
        ++ states_of (context_in inner.now) (type_of r.now) (numbers_of bound.old.items ++ names_in_turn (state_of a.now)) (state_of b.now))
        (numbers_of bound.old.items) (names_in_turn (state_of a.now) ++ names_in_turn (state_of b.now)) (numbers_of bound.new.items) result }
{
    match check_state(judge, a, s, outer, bound, number) {
        Ok(next) => check_state(judge, b, r, inner, bound, next),
        Err(stop) => Err(stop),
    }
}

// The same of a let: its name is placed by the free names of what it is bound to.
#[cycle(walk)]
fn check_let<'a>(
    judge: &Judge<'_>,
    x: Name,
    t: &Ty,
    a: &KeptState,
    b: &KeptState,
    r: &Ty,
    scope: &'a Scope<'a>,
    bound: &mut Vec<Name>,
    number: u32,
) -> Result<u32, Stop>
    requires number { number + (states_number (state_of a.now) + states_number (state_of b.now)) < 2 ^ 32 }
    requires size { nodes_in_state (state_of a.now) + nodes_in_state (state_of b.now) < 2 ^ 32 }
    requires judge { IsJudge judge.now }
    requires once { IsTrue (is_distinct (numbers_of bound.old.items)) }
    ensures { Finds (funs_of judge.now) judge.now.depth number (states_of (context_in scope.now) (type_of t.now) (numbers_of bound.old.items) (state_of a.now)
        ++ states_of (with_state x.0 (type_of t.now) (state_of a.now) (context_in scope.now)) (type_of r.now) (numbers_of bound.old.items ++ names_in_turn (state_of a.now)) (state_of b.now))
        (numbers_of bound.old.items) (names_in_turn (state_of a.now) ++ names_in_turn (state_of b.now)) (numbers_of bound.new.items) result }
{
    match let_placed(judge.alloc, &*scope, a, b) {
        Ok(placed) => {
            let inner = Scope::Let(x, t, &placed, &*scope);
            let found = check_two(judge, a, t, &*scope, b, r, &inner, bound, number);
            drop(placed);
            found
        }
        Err(_) => Err(Stop::Memory),
    }
}

// Where the name of a let is placed, for what is asked in its body.
fn let_placed(
    alloc: Global,
    scope: &Scope<'_>,
    a: &KeptState,
    b: &KeptState,
) -> Result<Placed, Memory>
    ensures { IfOk result (λ p. (x : ℕ) → place_known x p (context_in scope.now).order ≡ place_let x (free_in_state (state_of a.now)) true (context_in scope.now).order) }
{
    let others = free_in(alloc, b)?;
    let free = free_in(alloc, a)?;
    place_of_let(alloc, scope, free, true, &others)
}

// The same of a frame: its arguments in turn, then its body.
#[cycle(walk)]
fn check_frame<'a>(
    judge: &Judge<'_>,
    args: &[Argument],
    s: &KeptState,
    r: &Ty,
    scope: &'a Scope<'a>,
    bound: &mut Vec<Name>,
    number: u32,
) -> Result<u32, Stop>
    requires number { number + (states_in_arguments (arguments_from args.now) + states_number (state_of s.now)) < 2 ^ 32 }
    requires size { nodes_in_arguments (arguments_from args.now) + nodes_in_state (state_of s.now) < 2 ^ 32 }
    requires judge { IsJudge judge.now }
    requires once { IsTrue (is_distinct (numbers_of bound.old.items)) }
    requires parameters { IsTrue (is_distinct (argument_names (arguments_from args.now))) }
    ensures { Finds (funs_of judge.now) judge.now.depth number (states_of_arguments (context_in scope.now) (numbers_of bound.old.items) (arguments_from args.now)
        ++ states_of (context_of_arguments (context_in scope.now) (arguments_from args.now)) (type_of r.now) (argument_names (arguments_from args.now)) (state_of s.now))
        (numbers_of bound.old.items) (names_of_arguments (arguments_from args.now)) (numbers_of bound.new.items) result }
{
    match check_arguments(judge, args, scope, bound, number) {
        Ok(next) => check_body(judge, args, s, r, scope, next),
        Err(stop) => Err(stop),
    }
}

// The same of a frame's body, among its own parameters.
#[cycle(walk)]
fn check_body(
    judge: &Judge<'_>,
    args: &[Argument],
    s: &KeptState,
    r: &Ty,
    scope: &Scope<'_>,
    number: u32,
) -> Result<u32, Stop>
    requires number { number + states_number (state_of s.now) < 2 ^ 32 }
    requires size { nodes_in_state (state_of s.now) < 2 ^ 32 }
    requires judge { IsJudge judge.now }
    requires parameters { IsTrue (is_distinct (argument_names (arguments_from args.now))) }
    ensures { FindsBad (funs_of judge.now) judge.now.depth number (states_of (context_of_arguments (context_in scope.now) (arguments_from args.now)) (type_of r.now) (argument_names (arguments_from args.now)) (state_of s.now)) result }
{
    match inside_of(judge.alloc, scope, args) {
        Ok(mut inside) => {
            let inner = Scope::Among(&inside.types, &inside.order);
            let found = check_state(judge, s, r, &inner, &mut inside.names, number);
            drop(inside);
            found
        }
        Err(_) => Err(Stop::Memory),
    }
}

// The same of arguments in turn, each at the type that is left of its parameter.
#[cycle(walk)]
fn check_arguments<'a>(
    judge: &Judge<'_>,
    args: &[Argument],
    scope: &'a Scope<'a>,
    bound: &mut Vec<Name>,
    number: u32,
) -> Result<u32, Stop>
    requires number { number + states_in_arguments (arguments_from args.now) < 2 ^ 32 }
    requires size { nodes_in_arguments (arguments_from args.now) < 2 ^ 32 }
    requires judge { IsJudge judge.now }
    requires once { IsTrue (is_distinct (numbers_of bound.old.items)) }
    ensures { Finds (funs_of judge.now) judge.now.depth number (states_of_arguments (context_in scope.now) (numbers_of bound.old.items) (arguments_from args.now))
        (numbers_of bound.old.items) (names_of_arguments (arguments_from args.now)) (numbers_of bound.new.items) result }
{
    match args {
        [] => Ok(number),
        [arg, rest @ ..] => {
            match check_state(judge, &arg.state, &arg.ty, scope, bound, number) {
                Ok(next) => check_arguments(judge, rest, scope, bound, next),
                Err(stop) => Err(stop),
            }
        }
    }
}

// What a frame's body sees: the types that are left of the parameters, their order, and their names.
#[derive(Drop)]
struct Inside {
    types: Vec<(Name, Ty)>,
    order: Vec<(Name, Name)>,
    names: Vec<Name>,
}

// What the body of a frame with these arguments sees.
fn inside_of(alloc: Global, scope: &Scope<'_>, args: &[Argument]) -> Result<Inside, Memory>
    requires { IsTrue (is_distinct (argument_names (arguments_from args.now))) }
    ensures scope { IfOk result (λ i. context_given i.types.items (facts_given i.order.items) ≡ context_of_arguments (context_in scope.now) (arguments_from args.now)) }
    ensures names { IfOk result (λ i. numbers_of i.names.items ≡ argument_names (arguments_from args.now)) }
{
    let names = parameters(alloc, args)?;
    let order = parameter_order(alloc, scope, args)?;
    let types = parameter_types(alloc, args)?;
    Ok(Inside {
        types,
        order,
        names,
    })
}

// The types that are left of the parameters.
fn parameter_types(alloc: Global, args: &[Argument]) -> Result<Vec<(Name, Ty)>, Memory>
    ensures { IfOk result (λ v. (x : ℕ) → given_at (typed_names_of v.items) x ≡ marks_of_arguments (arguments_from args.now) x) }
{
    let mut types = Vec::new(alloc);
    for arg in args {
        types.push((arg.name, copy(alloc, &arg.ty)?))?;
    }
    Ok(types)
}

// The order of the parameters: one stands before another where each free name of its argument stands before
// each of the other's.
fn parameter_order(
    alloc: Global,
    scope: &Scope<'_>,
    args: &[Argument],
) -> Result<Vec<(Name, Name)>, Memory>
    requires { IsTrue (is_distinct (argument_names (arguments_from args.now))) }
    ensures { IfOk result (λ v. (x y : ℕ) → facts_given v.items x y ≡ facts_of_arguments (context_in scope.now) (arguments_from args.now) x y) }
{
    let mut facts = Vec::new(alloc);
    for arg in args {
        let free = free_in(alloc, &arg.state)?;
        add_order(alloc, scope, arg.name, &free, args, &mut facts)?;
    }
    Ok(facts)
}

// Adds the facts that a parameter, whose argument has these free names, stands before others.
fn add_order(
    alloc: Global,
    scope: &Scope<'_>,
    u: Name,
    free: &[Name],
    args: &[Argument],
    facts: &mut Vec<(Name, Name)>,
) -> Result<(), Memory>
    ensures { OnOk result ((x y : ℕ) → facts_given facts.new.items x y
        ≡ (facts_given facts.old.items x y || ((x == u.0) && are_behind (context_in scope.now) (numbers_of free.now) (arguments_from args.now) y))) }
{
    for arg in args {
        if stands_before(alloc, scope, free, &arg.state)? {
            facts.push((u, arg.name))?;
        }
    }
    Ok(())
}

// Whether each of the names stands before each free name of a state.
fn stands_before(
    alloc: Global,
    scope: &Scope<'_>,
    names: &[Name],
    s: &KeptState,
) -> Result<bool, Memory>
    ensures { IfOk result (λ b. b ≡ are_before (context_in scope.now) (numbers_of names.now) (free_in_state (state_of s.now))) }
{
    let others = free_in(alloc, s)?;
    Ok(all_before(scope, names, &others))
}
