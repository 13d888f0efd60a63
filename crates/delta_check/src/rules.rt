//! The rules, one by one, and which of them a node breaks.

ghost use Rattle.std.specs.Prelude.{◌≡◌, Option, Some, None, false, [], map, option_map, if◌then◌else◌, IfOk, IfErr};
ghost use Rattle.stream_type.specs.StreamType.{type_of, null_of};
ghost use Rattle.hist_value.specs.HistExpr.{expr_of};
ghost use Rattle.hist_value.specs.HistType.{past};
ghost use Rattle.hist_value.specs.Environment.{types_of};
ghost use Rattle.hist_value.specs.Refusal.{HistRefusal};
ghost use Rattle.core_term.specs.CoreTerm.{term_of, terms_from, core_body_of, core_of, typed_names_of, past_types, call_term};
ghost use Rattle.core_term.specs.FreeNames.{free_names};
ghost use Rattle.core_term.specs.Inert.{has_arity};
ghost use Rattle.core_term.specs.TypeFaults.{Cause, expr_refusal, cause_number, lower, of_subject, of_form, of_term, of_type, of_order, of_pasts, of_passing, found_where, wait_null, other_arity, out_of_order, jumpy, history_fault, first_passed, first_jumpy};
ghost use Rattle.delta_check.specs.Counting.{counts_in};
ghost use Rattle.delta_check.specs.Faults.{cause_of, Tells};
ghost use Rattle.delta_check.specs.Forms.{form_test, missing};
ghost use Rattle.delta_check.specs.Refused.{rule_broken};
ghost use Rattle.delta_check.specs.Scopes.{context_in};

use crate::fault::TypeCause;
use crate::forms::{Form, has_form};
use crate::orders::unordered;
use crate::params::has_arity;
use crate::passing::{first_jumpy, out_of_order};
use crate::pasts::{is_historical, past_types};
use crate::scope::{Scope, stream_type};
use bunch::Name;
use core_term::{Body, Core, Node, Term, body_of};
use hist_value::{Expr, HTy, HistFault, past, type_of};
use std::alloc::Global;
use stream_type::{Memory, Ty, copy, null, same};

/// The first rule that a node itself breaks, or None where it breaks none: `broken` in the specs of
/// core_term. Its only error is want of memory.
#[tactic(auto, using(core_term::proofs::Rows::rows))]
pub fn broken(
    alloc: Global,
    c: &Core,
    marks: &[bool],
    scope: &Scope<'_>,
    n: &Node,
    r: &Ty,
) -> Result<Option<TypeCause>, Memory>
    ensures { IfOk result (λ o. Tells o (rule_broken (core_of c.now).funs (counts_in (core_of c.now).funs marks.now) (context_in scope.now) (term_of n.now) (type_of r.now))) }
{
    match &n.term {
        Term::Var(x) => var_rule(alloc, scope, *x, r),
        Term::Eps => term_rule(alloc, Form::Eps, r),
        Term::Unit => term_rule(alloc, Form::One, r),
        Term::Nil => term_rule(alloc, Form::Star, r),
        Term::Past(m) => past_rule(alloc, scope, m, r),
        Term::Par(_, _) => term_rule(alloc, Form::Par, r),
        Term::Cat(a, b) => ordered_rule(alloc, scope, Form::Cat, r, a, b),
        Term::Cons(a, b) => ordered_rule(alloc, scope, Form::Star, r, a, b),
        Term::Inl(_) | Term::Inr(_) => term_rule(alloc, Form::Sum, r),
        Term::Let(_, _, _, _) => Ok(None),
        Term::LetPar(_, _, z, _) => subject_rule(alloc, scope, *z, Form::Par),
        Term::LetCat(_, _, z, _) => subject_rule(alloc, scope, *z, Form::Cat),
        Term::CaseSum(z, t, _, _, _, _) => case_rule(alloc, scope, *z, Form::Sum, t, r),
        Term::CaseStar(z, t, _, _, _, _) => case_rule(alloc, scope, *z, Form::Star, t, r),
        Term::Wait(x, t, _) => wait_rule(alloc, scope, *x, t, r),
        Term::Call(f, past, arguments) => call_rule(alloc, c, marks, scope, *f, past, arguments, r),
    }
}

// The type of a stream variable, or that there is none.
fn subject<'a>(scope: &Scope<'a>, x: Name) -> Result<&'a Ty, TypeCause>
    ensures ok { IfOk result (λ t. (context_in scope.now).types x.0 ≡ Some (type_of t.now)) }
    ensures err { IfErr result (λ k. (context_in scope.now).types x.0 ≡ None) }
    ensures cause { IfErr result (λ k. cause_of k ≡ Some (missing x.0 ((context_in scope.now).past x.0))) }
{
    match stream_type(scope, x) {
        Some(t) => Ok(t),
        None => {
            if is_historical(scope, x) {
                Err(TypeCause::NotStream(x))
            } else {
                Err(TypeCause::Unbound(x))
            }
        }
    }
}

// A name has the expected type.
#[tactic(auto, using(crate::proofs::RuleForms::rules))]
fn var_rule(alloc: Global, scope: &Scope<'_>, x: Name, r: &Ty) -> Result<Option<TypeCause>, Memory>
    ensures { IfOk result (λ o. Tells o (of_subject {Fault = HistRefusal} (context_in scope.now) x.0 (λ t. of_type t (type_of r.now)))) }
{
    match subject(scope, x) {
        Err(cause) => Ok(Some(cause)),
        Ok(t) => type_rule(alloc, t, r),
    }
}

// A subject's type has the form.
#[tactic(auto, using(crate::proofs::RuleForms::rules))]
fn subject_rule(
    alloc: Global,
    scope: &Scope<'_>,
    z: Name,
    form: Form,
) -> Result<Option<TypeCause>, Memory>
    ensures { IfOk result (λ o. Tells o (of_subject {Fault = HistRefusal} (context_in scope.now) z.0 (of_form (form_test form)))) }
{
    match subject(scope, z) {
        Err(cause) => Ok(Some(cause)),
        Ok(t) => {
            if has_form(form, t) {
                Ok(None)
            } else {
                Ok(Some(TypeCause::Mismatch {
                    wanted: None,
                    found: Some(copy(alloc, t)?),
                }))
            }
        }
    }
}

// A subject's type isn't null.
#[tactic(auto, using(crate::proofs::RuleForms::rules))]
fn null_rule(scope: &Scope<'_>, x: Name) -> Option<TypeCause>
    ensures { Tells result (of_subject {Fault = HistRefusal} (context_in scope.now) x.0 (λ s. found_where (null_of s) (wait_null x.0))) }
{
    match subject(scope, x) {
        Err(cause) => Some(cause),
        Ok(t) => {
            if null(t) {
                Some(TypeCause::WaitNull(x))
            } else {
                None
            }
        }
    }
}

// The expected type has the form of the term.
fn term_rule(alloc: Global, form: Form, r: &Ty) -> Result<Option<TypeCause>, Memory>
    ensures { IfOk result (λ o. Tells o (of_term {Fault = HistRefusal} (form_test form (type_of r.now)) (type_of r.now))) }
{
    if has_form(form, r) {
        return Ok(None);
    }
    Ok(Some(TypeCause::Mismatch {
        wanted: Some(copy(alloc, r)?),
        found: None,
    }))
}

// The found type is the expected one.
#[tactic(auto, using(crate::proofs::RuleForms::rules))]
fn type_rule(alloc: Global, t: &Ty, r: &Ty) -> Result<Option<TypeCause>, Memory>
    ensures { IfOk result (λ o. Tells o (of_type {Fault = HistRefusal} (type_of t.now) (type_of r.now))) }
{
    if same(t, r) {
        return Ok(None);
    }
    Ok(Some(TypeCause::Mismatch {
        wanted: Some(copy(alloc, r)?),
        found: Some(copy(alloc, t)?),
    }))
}

// The free names of the first term stand before those of the second.
fn order_rule(
    alloc: Global,
    scope: &Scope<'_>,
    a: &Node,
    b: &Node,
) -> Result<Option<TypeCause>, Memory>
    ensures { IfOk result (λ o. Tells o (of_order {Fault = HistRefusal} (context_in scope.now) (free_names (term_of a.now)) (free_names (term_of b.now)))) }
{
    match unordered(alloc, scope, a, b)? {
        None => Ok(None),
        Some((x, y)) => Ok(Some(TypeCause::OutOfOrder(x, y))),
    }
}

// Of two rules the one with the lower number, and the first of two with one number.
fn lowest(a: Option<TypeCause>, b: Option<TypeCause>) -> Option<TypeCause>
    ensures { (p q : Option (Cause HistRefusal)) → Tells a p → Tells b q → Tells result (lower p q) }
{
    match (a, b) {
        (None, b) => b,
        (Some(a), None) => Some(a),
        (Some(a), Some(b)) => {
            if number(&b) < number(&a) {
                drop(a);
                Some(b)
            } else {
                drop(b);
                Some(a)
            }
        }
    }
}

// The same, where memory for the second may be wanting.
fn lowest_of(
    a: Option<TypeCause>,
    b: Result<Option<TypeCause>, Memory>,
) -> Result<Option<TypeCause>, Memory>
    ensures { (p q : Option (Cause HistRefusal)) → Tells a p → IfOk b (λ o. Tells o q) → IfOk result (λ o. Tells o (lower p q)) }
{
    match b {
        Ok(b) => Ok(lowest(a, b)),
        Err(fault) => {
            drop(a);
            Err(fault)
        }
    }
}

// The number of a cause.
fn number(cause: &TypeCause) -> u32
    ensures { (k : Cause HistRefusal) → cause_of cause.now ≡ Some k → result ≡ cause_number k }
{
    match cause {
        TypeCause::Unbound(_) => 1,
        TypeCause::Mismatch {
            wanted: _,
            found: _,
        } => 2,
        TypeCause::OutOfOrder(_, _) => 3,
        TypeCause::Jumpy(_) => 4,
        TypeCause::WaitNull(_) => 5,
        TypeCause::Arity(_) => 6,
        TypeCause::History(_) => 7,
        TypeCause::NotStream(_) => 8,
    }
}

// The rules of a pair in order and of an item in front.
fn ordered_rule(
    alloc: Global,
    scope: &Scope<'_>,
    form: Form,
    r: &Ty,
    a: &Node,
    b: &Node,
) -> Result<Option<TypeCause>, Memory>
    ensures { IfOk result (λ o. Tells o (lower (of_term {Fault = HistRefusal} (form_test form (type_of r.now)) (type_of r.now))
        (of_order {Fault = HistRefusal} (context_in scope.now) (free_names (term_of a.now)) (free_names (term_of b.now))))) }
{
    let term = term_rule(alloc, form, r)?;
    lowest_of(term, order_rule(alloc, scope, a, b))
}

// The rules of a case.
fn case_rule(
    alloc: Global,
    scope: &Scope<'_>,
    z: Name,
    form: Form,
    t: &Ty,
    r: &Ty,
) -> Result<Option<TypeCause>, Memory>
    ensures { IfOk result (λ o. Tells o (lower (of_subject {Fault = HistRefusal} (context_in scope.now) z.0 (of_form (form_test form))) (of_type {Fault = HistRefusal} (type_of t.now) (type_of r.now)))) }
{
    let subject = subject_rule(alloc, scope, z, form)?;
    lowest_of(subject, type_rule(alloc, t, r))
}

// The rules of a wait.
fn wait_rule(
    alloc: Global,
    scope: &Scope<'_>,
    x: Name,
    t: &Ty,
    r: &Ty,
) -> Result<Option<TypeCause>, Memory>
    ensures { IfOk result (λ o. Tells o (lower (of_subject {Fault = HistRefusal} (context_in scope.now) x.0 (λ s. found_where (null_of s) (wait_null x.0))) (of_type {Fault = HistRefusal} (type_of t.now) (type_of r.now)))) }
{
    lowest_of(null_rule(scope, x), type_rule(alloc, t, r))
}

// A historical expression is of the type of the expected stream's values.
fn past_rule(
    alloc: Global,
    scope: &Scope<'_>,
    m: &Expr,
    r: &Ty,
) -> Result<Option<TypeCause>, Memory>
    ensures { IfOk result (λ o. Tells o (option_map history_fault (expr_refusal (context_in scope.now).past (expr_of m.now) (past (type_of r.now))))) }
{
    let types = past_types(alloc, scope)?;
    refusal(alloc, &types, m, r)
}

// The same, where the historical variables have these types.
fn refusal(
    alloc: Global,
    types: &[(Name, HTy)],
    m: &Expr,
    r: &Ty,
) -> Result<Option<TypeCause>, Memory>
    ensures { IfOk result (λ o. Tells o (option_map history_fault (expr_refusal (types_of types.now) (expr_of m.now) (past (type_of r.now))))) }
{
    let wanted = past(alloc, r)?;
    match type_of(alloc, m, types, Some(&wanted)) {
        Ok(_) => Ok(None),
        Err(HistFault::Memory) => Err(Memory),
        Err(fault) => Ok(Some(TypeCause::History(fault))),
    }
}

// The first historical argument that isn't of its parameter's type.
fn pasts_rule(
    alloc: Global,
    scope: &Scope<'_>,
    past: &[Expr],
    params: &[(Name, Ty)],
) -> Result<Option<TypeCause>, Memory>
    ensures { IfOk result (λ o. Tells o (of_pasts [] (λ _. false) expr_refusal (context_in scope.now).past (map expr_of past.now) (map (λ e. e.1) (typed_names_of params.now)))) }
{
    let types = past_types(alloc, scope)?;
    refusal_of_all(alloc, &types, past, params)
}

// The same, where the historical variables have these types.
fn refusal_of_all(
    alloc: Global,
    types: &[(Name, HTy)],
    past: &[Expr],
    params: &[(Name, Ty)],
) -> Result<Option<TypeCause>, Memory>
    ensures { IfOk result (λ o. Tells o (of_pasts [] (λ _. false) expr_refusal (types_of types.now) (map expr_of past.now) (map (λ e. e.1) (typed_names_of params.now)))) }
{
    for (i, m) in past.iter().enumerate() {
        match params.get(i) {
            None => return Ok(None),
            Some(param) => {
                match refusal(alloc, types, m, &param.1)? {
                    Some(cause) => return Ok(Some(cause)),
                    None => {}
                }
            }
        }
    }
    Ok(None)
}

// The rule on the order of a call's arguments.
fn passed_rule(
    alloc: Global,
    scope: &Scope<'_>,
    b: &Body,
    arguments: &[Node],
) -> Result<Option<TypeCause>, Memory>
    ensures { IfOk result (λ o. Tells o (option_map (λ p. out_of_order p.0 p.1) (first_passed [] (λ _. false) (context_in scope.now) (core_body_of b.now) (terms_from (map term_of arguments.now))))) }
{
    match out_of_order(alloc, scope, b, arguments)? {
        None => Ok(None),
        Some((x, y)) => Ok(Some(TypeCause::OutOfOrder(x, y))),
    }
}

// The rule on the arguments behind others.
fn jumpy_rule(
    alloc: Global,
    c: &Core,
    marks: &[bool],
    b: &Body,
    arguments: &[Node],
) -> Result<Option<TypeCause>, Memory>
    ensures { IfOk result (λ o. Tells o (option_map jumpy (first_jumpy (core_of c.now).funs (counts_in (core_of c.now).funs marks.now) (core_body_of b.now) (terms_from (map term_of arguments.now))))) }
{
    match first_jumpy(alloc, c, marks, b, arguments)? {
        None => Ok(None),
        Some(v) => Ok(Some(TypeCause::Jumpy(v))),
    }
}

// The rules on the arguments behind others and on the historical arguments.
fn still_rule(
    alloc: Global,
    c: &Core,
    marks: &[bool],
    scope: &Scope<'_>,
    b: &Body,
    past: &[Expr],
    arguments: &[Node],
) -> Result<Option<TypeCause>, Memory>
    ensures { IfOk result (λ o. Tells o (lower (option_map jumpy (first_jumpy (core_of c.now).funs (counts_in (core_of c.now).funs marks.now) (core_body_of b.now) (terms_from (map term_of arguments.now))))
        (of_pasts [] (λ _. false) expr_refusal (context_in scope.now).past (map expr_of past.now) (past_types (core_body_of b.now))))) }
{
    let jumpy = jumpy_rule(alloc, c, marks, b, arguments)?;
    lowest_of(jumpy, pasts_rule(alloc, scope, past, &b.past))
}

// The rules on the arguments of a call.
fn passing_rule(
    alloc: Global,
    c: &Core,
    marks: &[bool],
    scope: &Scope<'_>,
    b: &Body,
    past: &[Expr],
    arguments: &[Node],
) -> Result<Option<TypeCause>, Memory>
    ensures { IfOk result (λ o. Tells o (of_passing (core_of c.now).funs (counts_in (core_of c.now).funs marks.now) expr_refusal (context_in scope.now) (core_body_of b.now) (map expr_of past.now) (terms_from (map term_of arguments.now)))) }
{
    let order = passed_rule(alloc, scope, b, arguments)?;
    lowest_of(
        order,
        still_rule(alloc, c, marks, scope, b, past, arguments),
    )
}

// The rules on the arguments, and that there are as many as parameters.
fn arguments_rule(
    alloc: Global,
    c: &Core,
    marks: &[bool],
    scope: &Scope<'_>,
    f: u32,
    b: &Body,
    past: &[Expr],
    arguments: &[Node],
) -> Result<Option<TypeCause>, Memory>
    ensures { IfOk result (λ o. Tells o (if has_arity (core_body_of b.now) (map expr_of past.now) (terms_from (map term_of arguments.now))
        then of_passing (core_of c.now).funs (counts_in (core_of c.now).funs marks.now) expr_refusal (context_in scope.now) (core_body_of b.now) (map expr_of past.now) (terms_from (map term_of arguments.now))
        else Some (other_arity f))) }
{
    if has_arity(b, past, arguments) {
        passing_rule(alloc, c, marks, scope, b, past, arguments)
    } else {
        Ok(Some(TypeCause::Arity(f)))
    }
}

// The rules on a call.
fn call_rule(
    alloc: Global,
    c: &Core,
    marks: &[bool],
    scope: &Scope<'_>,
    f: u32,
    past: &[Expr],
    arguments: &[Node],
    r: &Ty,
) -> Result<Option<TypeCause>, Memory>
    ensures { IfOk result (λ o. Tells o (rule_broken (core_of c.now).funs (counts_in (core_of c.now).funs marks.now) (context_in scope.now) (call_term f (map expr_of past.now) (terms_from (map term_of arguments.now))) (type_of r.now))) }
{
    match body_of(c, f) {
        None => Ok(Some(TypeCause::Arity(f))),
        Some(b) => {
            let result = type_rule(alloc, &b.result, r)?;
            lowest_of(
                result,
                arguments_rule(alloc, c, marks, scope, f, b, past, arguments),
            )
        }
    }
}
