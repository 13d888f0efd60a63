//! The rule of a state's own form.

ghost use Rattle.std.specs.Prelude.{◌≡◌, ◌↔◌, ◌<◌, ◌^◌, ◌∷◌, [], map, true, IsTrue, IfOk};
ghost use Rattle.std.specs.List.{list_all};
ghost use Rattle.stream_type.specs.StreamType.{type_of, null_of};
ghost use Rattle.bunch.specs.Names.{numbers_of};
ghost use Rattle.core_term.specs.CoreTerm.{node_count};
ghost use Rattle.core_term.specs.FreeNames.{free_names, is_distinct};
ghost use Rattle.core_term.specs.Typing.{AllBefore, is_before, with_fact, with_parts};
ghost use Rattle.delta_check.specs.Scopes.{context_in};
ghost use Rattle.delta_state.specs.StateTree.{cat_state, argument_names, free_in_state};
ghost use Rattle.delta_state.specs.StateTyping.{context_held, with_known};
ghost use Rattle.delta_keep.specs.KeptView.{state_of, held_of, later_of, arguments_from};
ghost use Rattle.kept_check.specs.Arguments.{are_before};
ghost use Rattle.kept_rules.specs.StateRules.{FollowsRule, IsGoodSum, IsGoodStar, IsGoodWait, IsGoodLater};
ghost use Rattle.kept_check.specs.HeldRules.{IsHolding, is_decided, MayGoOn};
ghost use Rattle.kept_check.specs.Judging.{funs_of, IsJudge};
ghost use Rattle.kept_check.specs.Sizes.{codes_fit};

use crate::forms::{Form, has_form, is_of_form, parts_at};
use crate::free::free_in;
use crate::holding::{before_held, tag_held, whole_held};
use crate::judge::Judge;
use crate::laters::is_good;
use crate::names::{are_distinct, is_there};
use crate::values::{is_held, is_stream};
use bunch::Name;
use core_term::free;
use core_term::parts::cat_types;
use delta_check::{Scope, is_before, type_or};
use delta_keep::{Argument, HeldName, KeptState, Waiting};
use hist_value::past;
use std::alloc::Global;
use std::slice;
use stream_type::{Memory, Ty, null, same};

/// Whether a state follows the rule of its own form, whatever its parts are: `FollowsRule` in the specs
/// of kept_rules. Its only error is want of memory.
pub fn follows_rule(
    judge: &Judge<'_>,
    scope: &Scope<'_>,
    s: &KeptState,
    r: &Ty,
) -> Result<bool, Memory>
    requires size { codes_fit (state_of s.now) }
    requires judge { IsJudge judge.now }
    ensures { IfOk result (λ b. IsTrue b ↔ FollowsRule (funs_of judge.now) judge.now.depth (context_in scope.now) (state_of s.now) (type_of r.now)) }
{
    match s {
        KeptState::Sink(t) => Ok(is_finished(t, r)),
        KeptState::Var(x) => Ok(is_stream(scope, *x, r)),
        KeptState::Par(_, _) => Ok(has_form(Form::Par, r)),
        KeptState::Cat(a, l) => cat_rule(judge, scope, a, l, r),
        KeptState::Let(_, _, _, _) => Ok(true),
        KeptState::LetPar(_, _, z, _) => Ok(is_of_form(Form::Par, scope, *z)),
        KeptState::LetCat(_, _, z, _) => Ok(is_of_form(Form::Cat, scope, *z)),
        KeptState::CaseSum(z, t, held, _, _, _, _) | KeptState::CaseStar(z, t, held, _, _, _, _) =>
            { held_rule(judge, scope, s, t, held, tag_held(held, *z), r) }
        KeptState::Wait(x, t, held, _) => {
            held_rule(judge, scope, s, t, held, whole_held(held, *x), r)
        }
        KeptState::Frame(args, _) => frame_rule(judge.alloc, args),
    }
}

// Whether nothing comes any more, of just this type.
fn is_finished(t: &Ty, r: &Ty) -> bool
    ensures { IsTrue result ↔ ((type_of t.now ≡ type_of r.now) × (null_of (type_of t.now) ≡ true)) }
{
    same(t, r) && null(t)
}

// A sequence: a first part that isn't null, and code behind it.
fn cat_rule(
    judge: &Judge<'_>,
    scope: &Scope<'_>,
    a: &KeptState,
    l: &Waiting,
    r: &Ty,
) -> Result<bool, Memory>
    requires size { node_count (later_of l.now).term < 2 ^ 32 }
    requires judge { IsJudge judge.now }
    ensures { IfOk result (λ b. IsTrue b ↔ FollowsRule (funs_of judge.now) judge.now.depth (context_in scope.now) (cat_state (state_of a.now) (later_of l.now)) (type_of r.now)) }
{
    if !has_form(Form::Cat, r) {
        return Ok(false);
    }
    let (first, second) = cat_types(r, &Ty::Eps);
    if null(first) {
        return Ok(false);
    }
    match is_good(judge, scope, l, &[], second) {
        Ok(true) => is_behind(judge.alloc, scope, a, l),
        Ok(false) => Ok(false),
        Err(_) => Err(Memory),
    }
}

// Whether each free name of the state stands before each of the code.
fn is_behind(alloc: Global, scope: &Scope<'_>, a: &KeptState, l: &Waiting) -> Result<bool, Memory>
    ensures { IfOk result (λ b. IsTrue b ↔ AllBefore (context_in scope.now) (free_in_state (state_of a.now)) (free_names (later_of l.now).term)) }
{
    let first = free_in(alloc, a)?;
    let second = free(alloc, &l.code)?;
    Ok(all_before(scope, &first, &second))
}

/// Whether each of the first names stands before each of the second.
pub fn all_before(scope: &Scope<'_>, first: &[Name], second: &[Name]) -> bool
    ensures { result ≡ are_before (context_in scope.now) (numbers_of first.now) (numbers_of second.now) }
{
    for x in first {
        if !stands_before(scope, *x, second) {
            return false;
        }
    }
    true
}

// Whether x stands before each of the names.
fn stands_before(scope: &Scope<'_>, x: Name, names: &[Name]) -> bool
    ensures { result ≡ list_all (λ y. is_before (context_in scope.now) x.0 y) (numbers_of names.now) }
{
    for y in names {
        if !is_before(scope, x, *y) {
            return false;
        }
    }
    true
}

// A case or a wait of this type, which holds this: whether it isn't decided by what it holds, and what it
// holds and what goes on are as they should be.
fn held_rule(
    judge: &Judge<'_>,
    scope: &Scope<'_>,
    s: &KeptState,
    t: &Ty,
    held: &[HeldName],
    decided: bool,
    r: &Ty,
) -> Result<bool, Memory>
    requires holding { IsHolding (type_of t.now) (map held_of held.now) (state_of s.now) }
    requires decided { decided ≡ is_decided (state_of s.now) }
    requires size { codes_fit (state_of s.now) }
    requires judge { IsJudge judge.now }
    ensures { IfOk result (λ b. IsTrue b ↔ FollowsRule (funs_of judge.now) judge.now.depth (context_in scope.now) (state_of s.now) (type_of r.now)) }
{
    if decided {
        return Ok(false);
    }
    if !same(t, r) {
        return Ok(false);
    }
    match is_held(judge.alloc, scope, held, s) {
        Ok(true) => goes_on(judge, scope, held, s, r),
        Ok(false) => Ok(false),
        Err(_) => Err(Memory),
    }
}

// What goes on, over the types from before anything was held.
fn goes_on(
    judge: &Judge<'_>,
    scope: &Scope<'_>,
    held: &[HeldName],
    s: &KeptState,
    r: &Ty,
) -> Result<bool, Memory>
    requires size { codes_fit (state_of s.now) }
    requires judge { IsJudge judge.now }
    ensures { IfOk result (λ b. IsTrue b ↔ MayGoOn (funs_of judge.now) judge.now.depth (context_held (map held_of held.now) (context_in scope.now).order) (state_of s.now) (type_of r.now)) }
{
    match before_held(judge.alloc, scope, held) {
        Ok(before) => {
            let inner = Scope::Among(&before.types, &before.order);
            let good = may_go_on(judge, &inner, s, r);
            drop(before);
            good
        }
        Err(_) => Err(Memory),
    }
}

// The same in a scope.
fn may_go_on<'a>(
    judge: &Judge<'_>,
    scope: &'a Scope<'a>,
    s: &KeptState,
    r: &Ty,
) -> Result<bool, Memory>
    requires size { codes_fit (state_of s.now) }
    requires judge { IsJudge judge.now }
    ensures { IfOk result (λ b. IsTrue b ↔ MayGoOn (funs_of judge.now) judge.now.depth (context_in scope.now) (state_of s.now) (type_of r.now)) }
{
    match s {
        KeptState::CaseSum(z, _, _, x, l, y, m) => { has_sides(judge, scope, *z, *x, l, *y, m, r) }
        KeptState::CaseStar(z, _, _, l, y, ys, m) => {
            has_items(judge, scope, *z, l, *y, *ys, m, r)
        }
        KeptState::Wait(x, _, _, l) => has_rest(judge, scope, *x, l, r),
        _ => Ok(true),
    }
}

// The branches of a case on a sum.
fn has_sides<'a>(
    judge: &Judge<'_>,
    scope: &'a Scope<'a>,
    z: Name,
    x: Name,
    l: &Waiting,
    y: Name,
    m: &Waiting,
    r: &Ty,
) -> Result<bool, Memory>
    requires left { node_count (later_of l.now).term < 2 ^ 32 }
    requires right { node_count (later_of m.now).term < 2 ^ 32 }
    requires judge { IsJudge judge.now }
    ensures { IfOk result (λ b. IsTrue b ↔ IsGoodSum (funs_of judge.now) judge.now.depth (context_in scope.now) z.0 x.0 (later_of l.now) y.0 (later_of m.now) (type_of r.now)) }
{
    match parts_at(Form::Sum, scope, z) {
        Some((s, t)) => match is_good(judge, &Scope::Like(x, s, z, scope), l, &[x], r) {
            Ok(true) => is_good(judge, &Scope::Like(y, t, z, scope), m, &[y], r),
            Ok(false) => Ok(false),
            Err(_) => Err(Memory),
        },
        None => Ok(false),
    }
}

// The branches of a case on a star.
fn has_items<'a>(
    judge: &Judge<'_>,
    scope: &'a Scope<'a>,
    z: Name,
    l: &Waiting,
    y: Name,
    ys: Name,
    m: &Waiting,
    r: &Ty,
) -> Result<bool, Memory>
    requires left { node_count (later_of l.now).term < 2 ^ 32 }
    requires right { node_count (later_of m.now).term < 2 ^ 32 }
    requires judge { IsJudge judge.now }
    ensures { IfOk result (λ b. IsTrue b ↔ IsGoodStar (funs_of judge.now) judge.now.depth (context_in scope.now) z.0 (later_of l.now) y.0 ys.0 (later_of m.now) (type_of r.now)) }
{
    match parts_at(Form::Star, scope, z) {
        Some((s, t)) => match is_good(judge, scope, l, &[], r) {
            Ok(true) => is_good_item(judge, scope, z, y, s, ys, t, m, r),
            Ok(false) => Ok(false),
            Err(_) => Err(Memory),
        },
        None => Ok(false),
    }
}

// The branch of an item, where these are the types of the item and of the rest.
fn is_good_item<'a>(
    judge: &Judge<'_>,
    scope: &'a Scope<'a>,
    z: Name,
    y: Name,
    s: &'a Ty,
    ys: Name,
    t: &'a Ty,
    m: &Waiting,
    r: &Ty,
) -> Result<bool, Memory>
    requires size { node_count (later_of m.now).term < 2 ^ 32 }
    requires judge { IsJudge judge.now }
    ensures { IfOk result (λ b. IsTrue b ↔ IsGoodLater (funs_of judge.now) judge.now.depth (with_fact y.0 ys.0 (with_parts y.0 (type_of s.now) ys.0 (type_of t.now) z.0 (context_in scope.now))) (λ d. d) (y.0 ∷ (ys.0 ∷ [])) (later_of m.now) (type_of r.now)) }
{
    let item = Scope::Like(y, s, z, scope);
    let items = Scope::Like(ys, t, z, &item);
    let inner = Scope::Fact(y, ys, &items);
    is_good(judge, &inner, m, &[y, ys], r)
}

// What follows a wait: its subject isn't null, and isn't used there as a stream.
fn has_rest<'a>(
    judge: &Judge<'_>,
    scope: &'a Scope<'a>,
    x: Name,
    l: &Waiting,
    r: &Ty,
) -> Result<bool, Memory>
    requires size { node_count (later_of l.now).term < 2 ^ 32 }
    requires judge { IsJudge judge.now }
    ensures { IfOk result (λ b. IsTrue b ↔ IsGoodWait (funs_of judge.now) judge.now.depth (context_in scope.now) x.0 (later_of l.now) (type_of r.now)) }
{
    let t = type_or(&*scope, x, &Ty::Eps);
    if null(t) {
        return Ok(false);
    }
    let used = free(judge.alloc, &l.code)?;
    if is_there(&used, x) {
        return Ok(false);
    }
    is_good_behind(judge, &*scope, x, t, l, r)
}

// Whether code is good where the stream of `x`, whose type is `t`, has a value.
fn is_good_behind(
    judge: &Judge<'_>,
    scope: &Scope<'_>,
    x: Name,
    t: &Ty,
    l: &Waiting,
    r: &Ty,
) -> Result<bool, Memory>
    requires size { node_count (later_of l.now).term < 2 ^ 32 }
    requires judge { IsJudge judge.now }
    ensures { IfOk result (λ b. IsTrue b ↔ IsGoodLater (funs_of judge.now) judge.now.depth (context_in scope.now) (with_known x.0 (type_of t.now)) (x.0 ∷ []) (later_of l.now) (type_of r.now)) }
{
    match past(judge.alloc, t) {
        Ok(value) => {
            let known = (x, value);
            let inner = Scope::Valued(slice::from_ref(&known), scope);
            let good = is_good(judge, &inner, l, &[x], r);
            drop(known);
            good
        }
        Err(_) => Err(Memory),
    }
}

// The parameters of a frame are distinct.
fn frame_rule(alloc: Global, args: &[Argument]) -> Result<bool, Memory>
    ensures { IfOk result (λ b. IsTrue b ↔ IsTrue (is_distinct (argument_names (arguments_from args.now)))) }
{
    let names = parameters(alloc, args)?;
    Ok(are_distinct(&names, 0))
}

/// The parameters that the arguments are for, in turn. Its only error is want of memory.
#[tactic(auto, using(crate::proofs::NameLists::name_lists))]
pub fn parameters(alloc: Global, args: &[Argument]) -> Result<Vec<Name>, Memory>
    ensures { IfOk result (λ v. numbers_of v.items ≡ argument_names (arguments_from args.now)) }
{
    let mut names = Vec::new(alloc);
    for arg in args {
        names.push(arg.name)?;
    }
    Ok(names)
}
