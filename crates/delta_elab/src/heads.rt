//! What stands round the core of an expression: its place, the type of a head, the subject of a form
//! that takes a head apart, and a call.

ghost use Rattle.std.specs.Prelude.{◌≡◌, ◌∷◌, ◌++◌, map, IfOk};
ghost use Rattle.std.specs.List.{concat};
ghost use Rattle.stream_type.specs.StreamType.{type_of, one, sum};
ghost use Rattle.hist_value.specs.HistExpr.{expr_of};
ghost use Rattle.delta_tree.specs.Tree.{head_of};
ghost use Rattle.core_term.specs.CoreTerm.{term_of, term_in, terms_from, places_of, places_in, let_term, past_term, call_term, case_sum_term, case_star_term};
ghost use Rattle.delta_meaning.specs.SourceBody.{number_named};
ghost use Rattle.delta_elab.specs.Sources.{sources_of, param_types, type_in_turn};
ghost use Rattle.delta_elab.specs.Wanted.{wanted_of};
ghost use Rattle.delta_elab.specs.Subjects.{head_type_in, rounded, bound_of, bound_places};

use crate::parts::copy_wanted;
use crate::scope::{Scope, type_of_name};
use crate::source::{Setting, Source, function_of_name, number_of_function};
use bunch::Name;
use core_term::{Node, Term};
use delta_check::type_at;
use delta_meaning::type_meant;
use delta_tree::{Head, HeadForm};
use hist_value::Expr;
use std::alloc::Global;
use stream_type::{Memory, Ty, copy};

/// The term at the place. Its only error is want of memory.
pub fn node(alloc: Global, at: u32, term: Term) -> Result<Box<Node>, Memory>
    ensures term { IfOk result (λ n. term_of n.value ≡ term_in term) }
    ensures places { IfOk result (λ n. places_of n.value ≡ at ∷ places_in term) }
{
    Ok(Box::new(alloc, Node { at, term })?)
}

/// The type of a head: its name's, its function's result, or what it is written with. Its only error is
/// want of memory.
pub fn head_type(
    alloc: Global,
    setting: &Setting<'_>,
    h: &Head,
    scope: &Scope<'_>,
) -> Result<Box<Ty>, Memory>
    ensures { IfOk result (λ t. type_of t.value ≡ head_type_in setting.now scope.now (head_of h.now)) }
{
    Ok(Box::new(alloc, type_of_head(alloc, setting, h, scope)?)?)
}

// The same in the open.
fn type_of_head(
    alloc: Global,
    setting: &Setting<'_>,
    h: &Head,
    scope: &Scope<'_>,
) -> Result<Ty, Memory>
    ensures { IfOk result (λ t. type_of t ≡ head_type_in setting.now scope.now (head_of h.now)) }
{
    match &*h.form {
        HeadForm::Var(x) => match type_of_name(scope, *x) {
            None => Ok(Ty::Eps),
            Some(t) => copy(alloc, t),
        },
        HeadForm::Call(f, _, _) => match function_of_name(setting.functions, *f) {
            None => Ok(Ty::Eps),
            Some(function) => copy(alloc, &function.result),
        },
        HeadForm::Asc(_, t) => type_meant(alloc, setting.known, t),
    }
}

/// The subject of a form that takes a head apart.
#[derive(Drop)]
pub struct Subject {
    /// Its name.
    pub name: Name,
    /// What the name is bound to, where it was added.
    pub bound: Option<Box<Node>>,
}

/// The form in a `let` of its subject, of type `s`, where that was added; the `let` stands at the place.
/// Its only error is want of memory.
pub fn enclosed(
    alloc: Global,
    at: u32,
    subject: Subject,
    s: Box<Ty>,
    form: Box<Node>,
) -> Result<Box<Node>, Memory>
    ensures term { IfOk result (λ n. term_of n.value ≡ rounded (bound_of subject.bound) subject.name.0 (type_of s.value) (term_of form.value)) }
    ensures places { IfOk result (λ n. places_of n.value ≡ bound_places at subject.bound ++ places_of form.value) }
{
    let Subject { name, bound } = subject;
    match bound {
        None => Ok(form),
        Some(core) => node(alloc, at, Term::Let(name, Box::into_inner(s), core, form)),
    }
}

/// A case on a sum: its subject, the type that is expected, and the branches after their names. Its only
/// error is want of memory.
pub fn case_sum_node(
    alloc: Global,
    at: u32,
    z: Name,
    r: Option<&Ty>,
    n: Name,
    a: Box<Node>,
    m: Name,
    b: Box<Node>,
) -> Result<Box<Node>, Memory>
    ensures term { IfOk result (λ t. term_of t.value ≡ case_sum_term z.0 (wanted_of r.entry) n.0 (term_of a.value) m.0 (term_of b.value)) }
    ensures places { IfOk result (λ t. places_of t.value ≡ at ∷ (places_of a.value ++ places_of b.value)) }
{
    let r = copy_wanted(alloc, r)?;
    node(alloc, at, Term::CaseSum(z, r, n, a, m, b))
}

/// A case on a star: its subject, the type that is expected, the branch at the end, and the branch of an
/// item after its names. Its only error is want of memory.
pub fn case_star_node(
    alloc: Global,
    at: u32,
    z: Name,
    r: Option<&Ty>,
    a: Box<Node>,
    n: Name,
    m: Name,
    b: Box<Node>,
) -> Result<Box<Node>, Memory>
    ensures term { IfOk result (λ t. term_of t.value ≡ case_star_term z.0 (wanted_of r.entry) (term_of a.value) n.0 m.0 (term_of b.value)) }
    ensures places { IfOk result (λ t. places_of t.value ≡ at ∷ (places_of a.value ++ places_of b.value)) }
{
    let r = copy_wanted(alloc, r)?;
    node(alloc, at, Term::CaseStar(z, r, a, n, m, b))
}

/// An `if` at the place: the test is bound to z, and in the branches n and k stand for the mark that it
/// gives. Its only error is want of memory.
pub fn if_node(
    alloc: Global,
    at: u32,
    z: Name,
    test: Box<Expr>,
    r: Option<&Ty>,
    n: Name,
    a: Box<Node>,
    k: Name,
    b: Box<Node>,
) -> Result<Box<Node>, Memory>
    ensures term { IfOk result (λ t. term_of t.value ≡ let_term z.0 (sum one one) (past_term (expr_of test.value)) (case_sum_term z.0 (wanted_of r.entry) n.0 (term_of a.value) k.0 (term_of b.value))) }
    ensures places { IfOk result (λ t. places_of t.value ≡ at ∷ (at ∷ (at ∷ (places_of a.value ++ places_of b.value)))) }
{
    let form = case_sum_node(alloc, at, z, r, n, a, k, b)?;
    let test = node(alloc, at, Term::Past(Box::into_inner(test)))?;
    let s = stream_type::sum(alloc, Ty::One, Ty::One)?;
    node(alloc, at, Term::Let(z, s, test, form))
}

/// A call of the function with the name, at the place. Its only error is want of memory.
#[tactic(auto, using(core_term::proofs::Rows::rows))]
pub fn call_node(
    alloc: Global,
    setting: &Setting<'_>,
    at: u32,
    f: Name,
    past: Vec<Expr>,
    arguments: Vec<Node>,
) -> Result<Box<Node>, Memory>
    ensures term { IfOk result (λ n. term_of n.value ≡ call_term (number_named (sources_of setting.now.functions.now) f.0) (map expr_of past.items) (terms_from (map term_of arguments.items))) }
    ensures places { IfOk result (λ n. places_of n.value ≡ at ∷ concat (map places_of arguments.items)) }
{
    let number = number_of_function(setting.functions, f)?;
    node(alloc, at, Term::Call(number, past, arguments))
}

/// The type of the function's parameter at the place, where it has one.
pub fn param_type<'a>(function: Option<&'a Source<'_>>, i: usize) -> Option<&'a Ty>
    ensures { wanted_of result ≡ type_in_turn (param_types function.entry) i }
{
    match type_at(&function?.params, i) {
        Ok(t) => Some(t),
        Err(_) => None,
    }
}
