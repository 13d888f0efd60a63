//! The core of an expression.

ghost use Rattle.std.specs.Prelude.{◌≡◌, ◌+◌, ◌++◌, suc, length, map, IfOk, OnOk};
ghost use Rattle.std.specs.List.{concat};
ghost use Rattle.stream_type.specs.StreamType.{eps};
ghost use Rattle.delta_tree.specs.SyntaxTree.{typed_at, let_at, let_par_at, let_cat_at, case_sum_at, case_star_at, wait_at, if_at, call_at};
ghost use Rattle.delta_tree.specs.Tree.{type_tree_of, hist_of, expression_of, head_of, expressions_of};
ghost use Rattle.core_term.specs.CoreTerm.{term_of, places_of, terms_from};
ghost use Rattle.delta_meaning.specs.NewNames.{new_in, new_in_head, new_in_subject, new_in_arguments};
ghost use Rattle.delta_meaning.specs.NodePlaces.{node_places, head_places, subject_places, argument_places};
ghost use Rattle.delta_meaning.specs.Elaboration.{subject};
ghost use Rattle.delta_elab.specs.Numbering.{origins_of, numbers_in};
ghost use Rattle.delta_elab.specs.Subjects.{core_in, head_in, arguments_in, bound_core, bound_of, bound_places};
ghost use Rattle.delta_elab.specs.Sources.{param_types};
ghost use Rattle.delta_elab.specs.Wanted.{wanted_of};

use crate::heads::{
    Subject, call_node, case_star_node, case_sum_node, enclosed, head_type, if_node, node,
    param_type,
};
use crate::histories::{all_numbered, numbered};
use crate::numbering::{added, named};
use crate::parts::{
    cat_first, cat_second, copy_wanted, par_left, par_right, star_item, star_items, sum_left,
    sum_right,
};
use crate::scope::{Scope, number_of};
use crate::source::{Setting, Source, function_of_name, meant};
use bunch::Name;
use core_term::{Node, Term};
use delta_tree::{Exp, Form, Head, HeadForm, Hist, TyExp};
use std::alloc::Global;
use stream_type::{Memory, Ty};

/// The core of an expression of the expected type, where its variables are numbered from the next number
/// on: `core_at` in the specs of delta_meaning. Its only error is want of memory.
#[cycle(core)]
#[tactic(auto, using(crate::proofs::Origins::origin_lists, delta_tree::proofs::Rows::rows))]
pub fn core<'a>(
    alloc: Global,
    setting: &Setting<'_>,
    e: &Exp,
    scope: &'a Scope<'a>,
    r: Option<&Ty>,
    origins: &mut Vec<Option<Name>>,
) -> Result<Box<Node>, Memory>
    ensures term { IfOk result (λ n. term_of n.value ≡ core_in setting.now scope.now (expression_of e.now) (wanted_of r.entry) (length (origins_of origins.old.items))) }
    ensures places { IfOk result (λ n. places_of n.value ≡ node_places (expression_of e.now)) }
    ensures next { OnOk result (origins_of origins.new.items ≡ origins_of origins.old.items ++ new_in (expression_of e.now)) }
{
    let at = e.at;
    match &*e.form {
        Form::Var(x) => node(alloc, at, Term::Var(number_of(scope, *x))),
        Form::Eps => node(alloc, at, Term::Eps),
        Form::Unit => node(alloc, at, Term::Unit),
        Form::Nil => node(alloc, at, Term::Nil),
        Form::Past(m) => {
            let m = numbered(alloc, &m.expr, scope, origins)?;
            node(alloc, at, Term::Past(Box::into_inner(m)))
        }
        Form::Par(a, b) => {
            let (a, b) = both(
                alloc,
                setting,
                a,
                par_left(r),
                b,
                par_right(r),
                scope,
                origins,
            )?;
            node(alloc, at, Term::Par(a, b))
        }
        Form::Cat(a, b) => {
            let (a, b) = both(
                alloc,
                setting,
                a,
                cat_first(r),
                b,
                cat_second(r),
                scope,
                origins,
            )?;
            node(alloc, at, Term::Cat(a, b))
        }
        Form::Cons(a, b) => {
            let (a, b) = both(
                alloc,
                setting,
                a,
                star_item(r),
                b,
                star_items(r),
                scope,
                origins,
            )?;
            node(alloc, at, Term::Cons(a, b))
        }
        Form::Inl(a) => {
            let a = core(alloc, setting, a, scope, sum_left(r), origins)?;
            node(alloc, at, Term::Inl(a))
        }
        Form::Inr(a) => {
            let a = core(alloc, setting, a, scope, sum_right(r), origins)?;
            node(alloc, at, Term::Inr(a))
        }
        Form::Asc(a, t) => core_of_typed(alloc, setting, at, a, t, scope, origins),
        Form::Let(x, h, b) => core_of_let(alloc, setting, at, *x, h, b, scope, r, origins),
        Form::LetPar(x, y, h, b) => {
            core_of_let_par(alloc, setting, at, *x, *y, h, b, scope, r, origins)
        }
        Form::LetCat(x, y, h, b) => {
            core_of_let_cat(alloc, setting, at, *x, *y, h, b, scope, r, origins)
        }
        Form::CaseSum(h, x, a, y, b) => {
            core_of_case_sum(alloc, setting, at, h, *x, a, *y, b, scope, r, origins)
        }
        Form::CaseStar(h, a, y, ys, b) => {
            core_of_case_star(alloc, setting, at, h, a, *y, *ys, b, scope, r, origins)
        }
        Form::Wait(x, a) => core_of_wait(alloc, setting, at, *x, a, scope, r, origins),
        Form::If(m, a, b) => core_of_if(alloc, setting, at, m, a, b, scope, r, origins),
        Form::Call(f, past, es) => call(alloc, setting, at, *f, past, es, scope, origins),
    }
}

// The cores of two expressions, one after the other.
#[cycle(core)]
#[tactic(auto, using(crate::proofs::Origins::origin_lists))]
fn both<'a>(
    alloc: Global,
    setting: &Setting<'_>,
    a: &Exp,
    r: Option<&Ty>,
    b: &Exp,
    s: Option<&Ty>,
    scope: &'a Scope<'a>,
    origins: &mut Vec<Option<Name>>,
) -> Result<(Box<Node>, Box<Node>), Memory>
    ensures left { IfOk result (λ n. term_of n.0.value ≡ core_in setting.now scope.now (expression_of a.now) (wanted_of r.entry) (length (origins_of origins.old.items))) }
    ensures right { IfOk result (λ n. term_of n.1.value ≡ core_in setting.now scope.now (expression_of b.now) (wanted_of s.entry) (length (origins_of origins.old.items) + length (new_in (expression_of a.now)))) }
    ensures places { IfOk result (λ n. places_of n.0.value ++ places_of n.1.value ≡ node_places (expression_of a.now) ++ node_places (expression_of b.now)) }
    ensures next { OnOk result (origins_of origins.new.items ≡ origins_of origins.old.items ++ (new_in (expression_of a.now) ++ new_in (expression_of b.now))) }
{
    let a = core(alloc, setting, a, scope, r, origins)?;
    Ok((a, core(alloc, setting, b, scope, s, origins)?))
}

// The core of an expression with its type, for which a name is added.
#[cycle(core)]
#[tactic(auto, using(crate::proofs::Origins::origin_lists))]
fn core_of_typed<'a>(
    alloc: Global,
    setting: &Setting<'_>,
    at: u32,
    a: &Exp,
    s: &TyExp,
    scope: &'a Scope<'a>,
    origins: &mut Vec<Option<Name>>,
) -> Result<Box<Node>, Memory>
    ensures term { IfOk result (λ t. term_of t.value ≡ core_in setting.now scope.now (typed_at at (expression_of a.now) (type_tree_of s.now)) eps (length (origins_of origins.old.items))) }
    ensures places { IfOk result (λ t. places_of t.value ≡ node_places (typed_at at (expression_of a.now) (type_tree_of s.now))) }
    ensures next { OnOk result (origins_of origins.new.items ≡ origins_of origins.old.items ++ new_in (typed_at at (expression_of a.now) (type_tree_of s.now))) }
{
    let z = added(origins)?;
    let s = meant(alloc, setting.known, s)?;
    let a = core(alloc, setting, a, scope, Some(&*s), origins)?;
    let whole = node(alloc, at, Term::Var(z))?;
    node(alloc, at, Term::Let(z, Box::into_inner(s), a, whole))
}

// The core of a `let` of a name.
#[cycle(core)]
#[tactic(auto, using(crate::proofs::Origins::origin_lists))]
fn core_of_let<'a>(
    alloc: Global,
    setting: &Setting<'_>,
    at: u32,
    x: Name,
    h: &Head,
    b: &Exp,
    scope: &'a Scope<'a>,
    r: Option<&Ty>,
    origins: &mut Vec<Option<Name>>,
) -> Result<Box<Node>, Memory>
    ensures term { IfOk result (λ t. term_of t.value ≡ core_in setting.now scope.now (let_at at x.0 (head_of h.now) (expression_of b.now)) (wanted_of r.entry) (length (origins_of origins.old.items))) }
    ensures places { IfOk result (λ t. places_of t.value ≡ node_places (let_at at x.0 (head_of h.now) (expression_of b.now))) }
    ensures next { OnOk result (origins_of origins.new.items ≡ origins_of origins.old.items ++ new_in (let_at at x.0 (head_of h.now) (expression_of b.now))) }
{
    let n = named(x, origins)?;
    let s = head_type(alloc, setting, h, scope)?;
    let a = head(alloc, setting, h, scope, origins)?;
    let inner = Scope::Stream(x, n, Some(&*s), &*scope);
    let b = core(alloc, setting, b, &inner, r, origins)?;
    node(alloc, at, Term::Let(n, Box::into_inner(s), a, b))
}

// The core of a `let` of two names at once.
#[cycle(core)]
#[tactic(auto, using(crate::proofs::Origins::origin_lists))]
fn core_of_let_par<'a>(
    alloc: Global,
    setting: &Setting<'_>,
    at: u32,
    x: Name,
    y: Name,
    h: &Head,
    b: &Exp,
    scope: &'a Scope<'a>,
    r: Option<&Ty>,
    origins: &mut Vec<Option<Name>>,
) -> Result<Box<Node>, Memory>
    ensures term { IfOk result (λ t. term_of t.value ≡ core_in setting.now scope.now (let_par_at at x.0 y.0 (head_of h.now) (expression_of b.now)) (wanted_of r.entry) (length (origins_of origins.old.items))) }
    ensures places { IfOk result (λ t. places_of t.value ≡ node_places (let_par_at at x.0 y.0 (head_of h.now) (expression_of b.now))) }
    ensures next { OnOk result (origins_of origins.new.items ≡ origins_of origins.old.items ++ new_in (let_par_at at x.0 y.0 (head_of h.now) (expression_of b.now))) }
{
    let n = named(x, origins)?;
    let m = named(y, origins)?;
    let s = head_type(alloc, setting, h, scope)?;
    let z = subject(alloc, setting, h, scope, origins)?;
    let outer = Scope::Stream(x, n, par_left(Some(&*s)), &*scope);
    let inner = Scope::Stream(y, m, par_right(Some(&*s)), &outer);
    let b = core(alloc, setting, b, &inner, r, origins)?;
    let form = node(alloc, at, Term::LetPar(n, m, z.name, b))?;
    enclosed(alloc, h.at, z, s, form)
}

// The core of a `let` of two names in a row.
#[cycle(core)]
#[tactic(auto, using(crate::proofs::Origins::origin_lists))]
fn core_of_let_cat<'a>(
    alloc: Global,
    setting: &Setting<'_>,
    at: u32,
    x: Name,
    y: Name,
    h: &Head,
    b: &Exp,
    scope: &'a Scope<'a>,
    r: Option<&Ty>,
    origins: &mut Vec<Option<Name>>,
) -> Result<Box<Node>, Memory>
    ensures term { IfOk result (λ t. term_of t.value ≡ core_in setting.now scope.now (let_cat_at at x.0 y.0 (head_of h.now) (expression_of b.now)) (wanted_of r.entry) (length (origins_of origins.old.items))) }
    ensures places { IfOk result (λ t. places_of t.value ≡ node_places (let_cat_at at x.0 y.0 (head_of h.now) (expression_of b.now))) }
    ensures next { OnOk result (origins_of origins.new.items ≡ origins_of origins.old.items ++ new_in (let_cat_at at x.0 y.0 (head_of h.now) (expression_of b.now))) }
{
    let n = named(x, origins)?;
    let m = named(y, origins)?;
    let s = head_type(alloc, setting, h, scope)?;
    let z = subject(alloc, setting, h, scope, origins)?;
    let outer = Scope::Stream(x, n, cat_first(Some(&*s)), &*scope);
    let inner = Scope::Stream(y, m, cat_second(Some(&*s)), &outer);
    let b = core(alloc, setting, b, &inner, r, origins)?;
    let form = node(alloc, at, Term::LetCat(n, m, z.name, b))?;
    enclosed(alloc, h.at, z, s, form)
}

// The core of a case on a sum.
#[cycle(core)]
#[tactic(auto, using(crate::proofs::Origins::origin_lists))]
fn core_of_case_sum<'a>(
    alloc: Global,
    setting: &Setting<'_>,
    at: u32,
    h: &Head,
    x: Name,
    a: &Exp,
    y: Name,
    b: &Exp,
    scope: &'a Scope<'a>,
    r: Option<&Ty>,
    origins: &mut Vec<Option<Name>>,
) -> Result<Box<Node>, Memory>
    ensures term { IfOk result (λ t. term_of t.value ≡ core_in setting.now scope.now (case_sum_at at (head_of h.now) x.0 (expression_of a.now) y.0 (expression_of b.now)) (wanted_of r.entry) (length (origins_of origins.old.items))) }
    ensures places { IfOk result (λ t. places_of t.value ≡ node_places (case_sum_at at (head_of h.now) x.0 (expression_of a.now) y.0 (expression_of b.now))) }
    ensures next { OnOk result (origins_of origins.new.items ≡ origins_of origins.old.items ++ new_in (case_sum_at at (head_of h.now) x.0 (expression_of a.now) y.0 (expression_of b.now))) }
{
    let s = head_type(alloc, setting, h, scope)?;
    let z = subject(alloc, setting, h, scope, origins)?;
    let n = named(x, origins)?;
    let left = Scope::Stream(x, n, sum_left(Some(&*s)), &*scope);
    let a = core(alloc, setting, a, &left, r, origins)?;
    let m = named(y, origins)?;
    let right = Scope::Stream(y, m, sum_right(Some(&*s)), &*scope);
    let b = core(alloc, setting, b, &right, r, origins)?;
    let form = case_sum_node(alloc, at, z.name, r, n, a, m, b)?;
    enclosed(alloc, h.at, z, s, form)
}

// The core of a case on a star.
#[cycle(core)]
#[tactic(auto, using(crate::proofs::Origins::origin_lists))]
fn core_of_case_star<'a>(
    alloc: Global,
    setting: &Setting<'_>,
    at: u32,
    h: &Head,
    a: &Exp,
    y: Name,
    ys: Name,
    b: &Exp,
    scope: &'a Scope<'a>,
    r: Option<&Ty>,
    origins: &mut Vec<Option<Name>>,
) -> Result<Box<Node>, Memory>
    ensures term { IfOk result (λ t. term_of t.value ≡ core_in setting.now scope.now (case_star_at at (head_of h.now) (expression_of a.now) y.0 ys.0 (expression_of b.now)) (wanted_of r.entry) (length (origins_of origins.old.items))) }
    ensures places { IfOk result (λ t. places_of t.value ≡ node_places (case_star_at at (head_of h.now) (expression_of a.now) y.0 ys.0 (expression_of b.now))) }
    ensures next { OnOk result (origins_of origins.new.items ≡ origins_of origins.old.items ++ new_in (case_star_at at (head_of h.now) (expression_of a.now) y.0 ys.0 (expression_of b.now))) }
{
    let s = head_type(alloc, setting, h, scope)?;
    let z = subject(alloc, setting, h, scope, origins)?;
    let a = core(alloc, setting, a, scope, r, origins)?;
    let n = named(y, origins)?;
    let m = named(ys, origins)?;
    let outer = Scope::Stream(y, n, star_item(Some(&*s)), &*scope);
    let inner = Scope::Stream(ys, m, star_items(Some(&*s)), &outer);
    let b = core(alloc, setting, b, &inner, r, origins)?;
    let form = case_star_node(alloc, at, z.name, r, a, n, m, b)?;
    enclosed(alloc, h.at, z, s, form)
}

// The core of a `wait`, in which the name is historical.
#[cycle(core)]
#[tactic(auto, using(crate::proofs::Origins::origin_lists))]
fn core_of_wait<'a>(
    alloc: Global,
    setting: &Setting<'_>,
    at: u32,
    x: Name,
    a: &Exp,
    scope: &'a Scope<'a>,
    r: Option<&Ty>,
    origins: &mut Vec<Option<Name>>,
) -> Result<Box<Node>, Memory>
    ensures term { IfOk result (λ t. term_of t.value ≡ core_in setting.now scope.now (wait_at at x.0 (expression_of a.now)) (wanted_of r.entry) (length (origins_of origins.old.items))) }
    ensures places { IfOk result (λ t. places_of t.value ≡ node_places (wait_at at x.0 (expression_of a.now))) }
    ensures next { OnOk result (origins_of origins.new.items ≡ origins_of origins.old.items ++ new_in (wait_at at x.0 (expression_of a.now))) }
{
    let a = core(alloc, setting, a, &Scope::Waited(x, &*scope), r, origins)?;
    let r = copy_wanted(alloc, r)?;
    node(alloc, at, Term::Wait(number_of(scope, x), r, a))
}

// The core of an `if`, for which three names are added.
#[cycle(core)]
#[tactic(auto, using(crate::proofs::Origins::origin_lists))]
fn core_of_if<'a>(
    alloc: Global,
    setting: &Setting<'_>,
    at: u32,
    m: &Hist,
    a: &Exp,
    b: &Exp,
    scope: &'a Scope<'a>,
    r: Option<&Ty>,
    origins: &mut Vec<Option<Name>>,
) -> Result<Box<Node>, Memory>
    ensures term { IfOk result (λ t. term_of t.value ≡ core_in setting.now scope.now (if_at at (hist_of m.now) (expression_of a.now) (expression_of b.now)) (wanted_of r.entry) (length (origins_of origins.old.items))) }
    ensures places { IfOk result (λ t. places_of t.value ≡ node_places (if_at at (hist_of m.now) (expression_of a.now) (expression_of b.now))) }
    ensures next { OnOk result (origins_of origins.new.items ≡ origins_of origins.old.items ++ new_in (if_at at (hist_of m.now) (expression_of a.now) (expression_of b.now))) }
{
    let z = added(origins)?;
    let n = added(origins)?;
    let k = added(origins)?;
    let m = numbered(alloc, &m.expr, scope, origins)?;
    let (a, b) = both(alloc, setting, a, r, b, r, scope, origins)?;
    if_node(alloc, at, z, m, r, n, a, k, b)
}

// The core of a head, at its type.
#[cycle(core)]
#[tactic(auto, using(crate::proofs::Origins::origin_lists, delta_tree::proofs::Rows::rows))]
fn head<'a>(
    alloc: Global,
    setting: &Setting<'_>,
    h: &Head,
    scope: &'a Scope<'a>,
    origins: &mut Vec<Option<Name>>,
) -> Result<Box<Node>, Memory>
    ensures term { IfOk result (λ n. term_of n.value ≡ head_in setting.now scope.now (head_of h.now) (length (origins_of origins.old.items))) }
    ensures places { IfOk result (λ n. places_of n.value ≡ head_places (head_of h.now)) }
    ensures next { OnOk result (origins_of origins.new.items ≡ origins_of origins.old.items ++ new_in_head (head_of h.now)) }
{
    match &*h.form {
        HeadForm::Var(x) => node(alloc, h.at, Term::Var(number_of(scope, *x))),
        HeadForm::Call(f, past, es) => call(alloc, setting, h.at, *f, past, es, scope, origins),
        HeadForm::Asc(e, t) => {
            let t = meant(alloc, setting.known, t)?;
            core(alloc, setting, e, scope, Some(&*t), origins)
        }
    }
}

// The core of a call of the function with the name.
#[cycle(core)]
#[tactic(auto, using(crate::proofs::Origins::origin_lists))]
fn call<'a>(
    alloc: Global,
    setting: &Setting<'_>,
    at: u32,
    f: Name,
    past: &[Hist],
    es: &[Exp],
    scope: &'a Scope<'a>,
    origins: &mut Vec<Option<Name>>,
) -> Result<Box<Node>, Memory>
    ensures term { IfOk result (λ n. term_of n.value ≡ core_in setting.now scope.now (call_at at f.0 (map hist_of past.now) (expressions_of es.now)) eps (length (origins_of origins.old.items))) }
    ensures places { IfOk result (λ n. places_of n.value ≡ node_places (call_at at f.0 (map hist_of past.now) (expressions_of es.now))) }
    ensures next { OnOk result (origins_of origins.new.items ≡ origins_of origins.old.items ++ new_in (call_at at f.0 (map hist_of past.now) (expressions_of es.now))) }
{
    let past = all_numbered(alloc, past, scope, origins)?;
    let function = function_of_name(setting.functions, f);
    let es = arguments(alloc, setting, function, es, scope, origins)?;
    call_node(alloc, setting, at, f, past, es)
}

// The subject of a form that takes a head apart: the head's name, or else an added one that is bound to
// the head's core.
#[cycle(core)]
#[tactic(auto, using(crate::proofs::Origins::origin_lists))]
fn subject<'a>(
    alloc: Global,
    setting: &Setting<'_>,
    h: &Head,
    scope: &'a Scope<'a>,
    origins: &mut Vec<Option<Name>>,
) -> Result<Subject, Memory>
    ensures name { IfOk result (λ z. z.name.0 ≡ subject (head_of h.now) (numbers_in scope.now) (length (origins_of origins.old.items))) }
    ensures bound { IfOk result (λ z. bound_of z.bound ≡ bound_core (head_of h.now) (head_in setting.now scope.now (head_of h.now) (suc (length (origins_of origins.old.items))))) }
    ensures places { IfOk result (λ z. bound_places h.now.at z.bound ≡ subject_places (head_of h.now)) }
    ensures next { OnOk result (origins_of origins.new.items ≡ origins_of origins.old.items ++ new_in_subject (head_of h.now)) }
{
    match &*h.form {
        HeadForm::Var(x) => Ok(Subject {
            name: number_of(scope, *x),
            bound: None,
        }),
        HeadForm::Call(_, _, _) | HeadForm::Asc(_, _) => {
            let name = added(origins)?;
            let core = head(alloc, setting, h, scope, origins)?;
            Ok(Subject {
                name,
                bound: Some(core),
            })
        }
    }
}

// The cores of the arguments of a call of the function, in turn.
#[cycle(core)]
#[tactic(auto, using(crate::proofs::Origins::origin_lists, crate::proofs::Arguments::argument_rows))]
fn arguments<'a>(
    alloc: Global,
    setting: &Setting<'_>,
    function: Option<&Source<'_>>,
    es: &[Exp],
    scope: &'a Scope<'a>,
    origins: &mut Vec<Option<Name>>,
) -> Result<Vec<Node>, Memory>
    ensures terms { IfOk result (λ v. terms_from (map term_of v.items) ≡ arguments_in setting.now scope.now (expressions_of es.now) (param_types function.entry) (length (origins_of origins.old.items))) }
    ensures places { IfOk result (λ v. concat (map places_of v.items) ≡ argument_places (expressions_of es.now)) }
    ensures next { OnOk result (origins_of origins.new.items ≡ origins_of origins.old.items ++ new_in_arguments (expressions_of es.now)) }
{
    let mut cores = Vec::new(alloc);
    for (i, e) in es.iter().enumerate() {
        let r = param_type(function, i);
        cores.push(Box::into_inner(core(alloc, setting, e, scope, r, origins)?))?;
    }
    Ok(cores)
}
