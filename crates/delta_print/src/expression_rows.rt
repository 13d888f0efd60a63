//! The tokens of expressions.

ghost use Rattle.std.specs.Prelude.{◌≡◌, ℕ, [], ◌∷◌, ◌++◌, map, OnOk};
ghost use Rattle.delta_print.specs.Chunks.{named};
ghost use Rattle.delta_tree.specs.Tree.{expression_form_of, expression_of, expressions_of, head_form_of, head_of, hist_of, type_tree_of};
ghost use Rattle.delta_print.specs.Brackets.{expression_bare};
ghost use Rattle.delta_print.specs.Rows.{comma_behind, expression_row, expressions_row, head_row, application_row, bound_row, two_row, pattern_row, arm_row, case_row, sum_arms_row, star_arms_row, hist_row, hists_row, type_row};

use crate::chunk::{Chunk, put_fixed, put_name, put_name_and, put_two};
use crate::hist_rows::{put_hist, put_hists};
use crate::type_rows::put_type;
use bunch::Name;
use delta_parse::Terminal;
use delta_tree::{Exp, Form, Head, HeadForm, Hist, TyExp};
use stream_type::Memory;

/// Appends the tokens of an expression that stands bare: `expression_row` in `specs/Rows.antt`.
#[cycle(expressions)]
pub(crate) fn put_expression(row: &mut Vec<Chunk>, e: &Exp) -> Result<(), Memory>
    ensures { OnOk result (row.new.items ≡ row.old.items ++ expression_row (expression_of e.now)) }
{
    put_form(row, &e.form)
}

#[cycle(expressions)]
#[tactic(auto, using(crate::proofs::Appends::calls))]
fn put_form(row: &mut Vec<Chunk>, form: &Form) -> Result<(), Memory>
    ensures { OnOk result ((at : ℕ) → row.new.items ≡ row.old.items ++ expression_row (expression_form_of at form.now)) }
{
    match form {
        Form::Var(x) => put_name(row, *x),
        Form::Eps => put_fixed(row, Terminal::EpsWord),
        Form::Unit => put_two(row, Terminal::Open, Terminal::Close),
        Form::Nil => put_fixed(row, Terminal::NilWord),
        Form::Past(m) => put_past(row, m),
        Form::Par(a, b) => put_pair(row, a, Terminal::Comma, b),
        Form::Cat(a, b) => put_pair(row, a, Terminal::Semicolon, b),
        Form::Cons(a, b) => {
            put_application(row, a)?;
            put_fixed(row, Terminal::Colons)?;
            put_expression(row, b)
        }
        Form::Inl(a) => put_side(row, Terminal::InlWord, a),
        Form::Inr(a) => put_side(row, Terminal::InrWord, a),
        Form::Asc(a, t) => put_typed(row, a, t),
        Form::Let(x, h, e) => {
            put_fixed(row, Terminal::LetWord)?;
            put_name(row, *x)?;
            put_bound(row, h)?;
            put_expression(row, e)
        }
        Form::LetPar(x, y, h, e) => put_split(row, Terminal::Comma, *x, *y, h, e),
        Form::LetCat(x, y, h, e) => put_split(row, Terminal::Semicolon, *x, *y, h, e),
        Form::CaseSum(h, x, a, y, b) => put_sum_case(row, h, *x, a, *y, b),
        Form::CaseStar(h, a, y, ys, b) => put_star_case(row, h, a, *y, *ys, b),
        Form::Wait(x, e) => {
            put_fixed(row, Terminal::WaitWord)?;
            put_name_and(row, *x, Terminal::InWord)?;
            put_expression(row, e)
        }
        Form::If(m, a, b) => {
            put_condition(row, m)?;
            put_expression(row, a)?;
            put_fixed(row, Terminal::ElseWord)?;
            put_expression(row, b)
        }
        Form::Call(f, hists, arguments) => {
            put_callee(row, *f, hists)?;
            put_expressions(row, arguments)?;
            put_fixed(row, Terminal::Close)
        }
    }
}

// An expression left of a `::` or behind `inl` or `inr`, in brackets where it needs them.
#[cycle(expressions)]
#[tactic(auto, using(crate::proofs::Appends::appends))]
fn put_application(row: &mut Vec<Chunk>, e: &Exp) -> Result<(), Memory>
    ensures { OnOk result (row.new.items ≡ row.old.items ++ application_row (expression_of e.now)) }
{
    if is_bare(&e.form) {
        return put_expression(row, e);
    }
    put_fixed(row, Terminal::Open)?;
    put_expression(row, e)?;
    put_fixed(row, Terminal::Close)
}

// An opening bracket, an expression, and the sign behind it.
#[cycle(expressions)]
#[tactic(auto, using(crate::proofs::Appends::appends))]
fn put_first(row: &mut Vec<Chunk>, e: &Exp, sign: Terminal) -> Result<(), Memory>
    ensures { OnOk result (row.new.items ≡ row.old.items ++ Chunk.Fixed Terminal.Open ∷ (expression_row (expression_of e.now) ++ Chunk.Fixed sign ∷ [])) }
{
    put_fixed(row, Terminal::Open)?;
    put_expression(row, e)?;
    put_fixed(row, sign)
}

// Two expressions in brackets with a sign between them.
#[cycle(expressions)]
#[tactic(auto, using(crate::proofs::Appends::appends))]
fn put_pair(row: &mut Vec<Chunk>, a: &Exp, sign: Terminal, b: &Exp) -> Result<(), Memory>
    ensures { OnOk result (row.new.items ≡ row.old.items ++ two_row sign (expression_row (expression_of a.now)) (expression_row (expression_of b.now))) }
{
    put_first(row, a, sign)?;
    put_expression(row, b)?;
    put_fixed(row, Terminal::Close)
}

// A side of a sum.
#[cycle(expressions)]
#[tactic(auto, using(crate::proofs::Appends::appends))]
fn put_side(row: &mut Vec<Chunk>, side: Terminal, e: &Exp) -> Result<(), Memory>
    ensures { OnOk result (row.new.items ≡ row.old.items ++ Chunk.Fixed side ∷ application_row (expression_of e.now)) }
{
    put_fixed(row, side)?;
    put_application(row, e)
}

// A `let` of two names with a sign between them.
#[cycle(expressions)]
#[tactic(auto, using(crate::proofs::Appends::appends))]
fn put_split(
    row: &mut Vec<Chunk>,
    sign: Terminal,
    x: Name,
    y: Name,
    head: &Head,
    e: &Exp,
) -> Result<(), Memory>
    ensures { OnOk result (row.new.items ≡ row.old.items ++ Chunk.Fixed Terminal.LetWord ∷ (pattern_row sign x.0 y.0 ++ bound_row (head_row (head_of head.now)) (expression_row (expression_of e.now)))) }
{
    put_fixed(row, Terminal::LetWord)?;
    put_pattern(row, sign, x, y)?;
    put_bound(row, head)?;
    put_expression(row, e)
}

// A case on a sum.
#[cycle(expressions)]
#[tactic(auto, using(crate::proofs::Appends::appends))]
fn put_sum_case(
    row: &mut Vec<Chunk>,
    head: &Head,
    x: Name,
    a: &Exp,
    y: Name,
    b: &Exp,
) -> Result<(), Memory>
    ensures { OnOk result (row.new.items ≡ row.old.items ++ case_row (head_row (head_of head.now)) (sum_arms_row x.0 (expression_row (expression_of a.now)) y.0 (expression_row (expression_of b.now)))) }
{
    put_subject(row, head)?;
    put_arm(row, Terminal::InlWord, x, a)?;
    put_fixed(row, Terminal::Bar)?;
    put_arm(row, Terminal::InrWord, y, b)?;
    put_fixed(row, Terminal::CloseBrace)
}

// A case on a star.
#[cycle(expressions)]
#[tactic(auto, using(crate::proofs::Appends::appends))]
fn put_star_case(
    row: &mut Vec<Chunk>,
    head: &Head,
    a: &Exp,
    y: Name,
    ys: Name,
    b: &Exp,
) -> Result<(), Memory>
    ensures { OnOk result (row.new.items ≡ row.old.items ++ case_row (head_row (head_of head.now)) (star_arms_row (expression_row (expression_of a.now)) y.0 ys.0 (expression_row (expression_of b.now)))) }
{
    put_subject(row, head)?;
    put_two(row, Terminal::NilWord, Terminal::Arrow)?;
    put_expression(row, a)?;
    put_item_arm(row, y, ys, b)?;
    put_fixed(row, Terminal::CloseBrace)
}

// An expression and its type in brackets.
#[cycle(expressions)]
#[tactic(auto, using(crate::proofs::Appends::appends))]
fn put_typed(row: &mut Vec<Chunk>, e: &Exp, t: &TyExp) -> Result<(), Memory>
    ensures { OnOk result (row.new.items ≡ row.old.items ++ two_row Terminal.Colon (expression_row (expression_of e.now)) (type_row (type_tree_of t.now))) }
{
    put_first(row, e, Terminal::Colon)?;
    put_type(row, t)?;
    put_fixed(row, Terminal::Close)
}

// What stands between the pattern of a `let` and the expression that it is for.
#[cycle(expressions)]
#[tactic(auto, using(crate::proofs::Appends::appends))]
fn put_bound(row: &mut Vec<Chunk>, head: &Head) -> Result<(), Memory>
    ensures { OnOk result (row.new.items ≡ row.old.items ++ Chunk.Fixed Terminal.Equals ∷ (head_row (head_of head.now) ++ Chunk.Fixed Terminal.InWord ∷ [])) }
{
    put_fixed(row, Terminal::Equals)?;
    put_head(row, head)?;
    put_fixed(row, Terminal::InWord)
}

// The front of a case, up to its arms.
#[cycle(expressions)]
#[tactic(auto, using(crate::proofs::Appends::appends))]
fn put_subject(row: &mut Vec<Chunk>, head: &Head) -> Result<(), Memory>
    ensures { OnOk result (row.new.items ≡ row.old.items ++ Chunk.Fixed Terminal.CaseWord ∷ (head_row (head_of head.now) ++ Chunk.Fixed Terminal.OfWord ∷ Chunk.Fixed Terminal.OpenBrace ∷ [])) }
{
    put_fixed(row, Terminal::CaseWord)?;
    put_head(row, head)?;
    put_two(row, Terminal::OfWord, Terminal::OpenBrace)
}

// The arm of a side of a sum.
#[cycle(expressions)]
#[tactic(auto, using(crate::proofs::Appends::appends))]
fn put_arm(row: &mut Vec<Chunk>, side: Terminal, x: Name, e: &Exp) -> Result<(), Memory>
    ensures { OnOk result (row.new.items ≡ row.old.items ++ Chunk.Fixed side ∷ arm_row x.0 (expression_row (expression_of e.now))) }
{
    put_fixed(row, side)?;
    put_name_and(row, x, Terminal::Arrow)?;
    put_expression(row, e)
}

// The arm of an item and the rest of a star, behind the bar.
#[cycle(expressions)]
#[tactic(auto, using(crate::proofs::Appends::appends))]
fn put_item_arm(row: &mut Vec<Chunk>, y: Name, ys: Name, e: &Exp) -> Result<(), Memory>
    ensures { OnOk result (row.new.items ≡ row.old.items ++ Chunk.Fixed Terminal.Bar ∷ named y.0 ∷ Chunk.Fixed Terminal.Colons ∷ arm_row ys.0 (expression_row (expression_of e.now))) }
{
    put_fixed(row, Terminal::Bar)?;
    put_name_and(row, y, Terminal::Colons)?;
    put_name_and(row, ys, Terminal::Arrow)?;
    put_expression(row, e)
}

#[cycle(expressions)]
fn put_head(row: &mut Vec<Chunk>, head: &Head) -> Result<(), Memory>
    ensures { OnOk result (row.new.items ≡ row.old.items ++ head_row (head_of head.now)) }
{
    put_head_form(row, &head.form)
}

#[cycle(expressions)]
#[tactic(auto, using(crate::proofs::Appends::calls))]
fn put_head_form(row: &mut Vec<Chunk>, form: &HeadForm) -> Result<(), Memory>
    ensures { OnOk result ((at : ℕ) → row.new.items ≡ row.old.items ++ head_row (head_form_of at form.now)) }
{
    match form {
        HeadForm::Var(x) => put_name(row, *x),
        HeadForm::Call(f, hists, arguments) => {
            put_callee(row, *f, hists)?;
            put_expressions(row, arguments)?;
            put_fixed(row, Terminal::Close)
        }
        HeadForm::Asc(e, t) => put_typed(row, e, t),
    }
}

// Stream arguments, with commas between them.
#[cycle(expressions)]
#[tactic(auto, using(crate::proofs::Appends::commas))]
fn put_expressions(row: &mut Vec<Chunk>, es: &[Exp]) -> Result<(), Memory>
    ensures { OnOk result (row.new.items ≡ row.old.items ++ expressions_row (expressions_of es.now)) }
{
    let mut behind_one = false;
    for e in es {
        put_comma(row, behind_one)?;
        put_expression(row, e)?;
        behind_one = true;
    }
    Ok(())
}

// A comma behind an expression, and nothing where there is none.
fn put_comma(row: &mut Vec<Chunk>, behind_one: bool) -> Result<(), Memory>
    ensures { OnOk result (row.new.items ≡ row.old.items ++ comma_behind behind_one) }
{
    if behind_one {
        put_fixed(row, Terminal::Comma)
    } else {
        Ok(())
    }
}

// The name of a function that is called, its historical arguments, and the bracket of its stream
// arguments.
#[tactic(auto, using(crate::proofs::Appends::appends))]
fn put_callee(row: &mut Vec<Chunk>, f: Name, hists: &[Hist]) -> Result<(), Memory>
    ensures { OnOk result (row.new.items ≡ row.old.items ++ named f.0 ∷ (hists_row (map hist_of hists.now) ++ Chunk.Fixed Terminal.Open ∷ [])) }
{
    put_name(row, f)?;
    put_hists(row, hists)?;
    put_fixed(row, Terminal::Open)
}

// The test of an `if`, up to its first branch.
#[tactic(auto, using(crate::proofs::Appends::appends))]
fn put_condition(row: &mut Vec<Chunk>, m: &Hist) -> Result<(), Memory>
    ensures { OnOk result (row.new.items ≡ row.old.items ++ Chunk.Fixed Terminal.IfWord ∷ (hist_row (hist_of m.now).expr ++ Chunk.Fixed Terminal.ThenWord ∷ [])) }
{
    put_fixed(row, Terminal::IfWord)?;
    put_hist(row, &m.expr)?;
    put_fixed(row, Terminal::ThenWord)
}

#[tactic(auto, using(crate::proofs::Appends::appends))]
fn put_past(row: &mut Vec<Chunk>, m: &Hist) -> Result<(), Memory>
    ensures { OnOk result (row.new.items ≡ row.old.items ++ Chunk.Fixed Terminal.OpenBrace ∷ (hist_row (hist_of m.now).expr ++ Chunk.Fixed Terminal.CloseBrace ∷ [])) }
{
    put_fixed(row, Terminal::OpenBrace)?;
    put_hist(row, &m.expr)?;
    put_fixed(row, Terminal::CloseBrace)
}

// A pattern of two names with a sign between them.
#[tactic(auto, using(crate::proofs::Appends::appends))]
fn put_pattern(row: &mut Vec<Chunk>, sign: Terminal, x: Name, y: Name) -> Result<(), Memory>
    ensures { OnOk result (row.new.items ≡ row.old.items ++ pattern_row sign x.0 y.0) }
{
    put_fixed(row, Terminal::Open)?;
    put_name_and(row, x, sign)?;
    put_name_and(row, y, Terminal::Close)
}

// Whether it stands bare left of a `::` and behind `inl` and `inr`.
fn is_bare(form: &Form) -> bool
    ensures { (at : ℕ) → result ≡ expression_bare (expression_form_of at form.now) }
{
    match form {
        Form::Cons(_, _)
        | Form::Let(_, _, _)
        | Form::LetPar(_, _, _, _)
        | Form::LetCat(_, _, _, _)
        | Form::Wait(_, _)
        | Form::If(_, _, _) => false,
        Form::Var(_)
        | Form::Eps
        | Form::Unit
        | Form::Nil
        | Form::Past(_)
        | Form::Par(_, _)
        | Form::Cat(_, _)
        | Form::Inl(_)
        | Form::Inr(_)
        | Form::Asc(_, _)
        | Form::CaseSum(_, _, _, _, _)
        | Form::CaseStar(_, _, _, _, _)
        | Form::Call(_, _, _) => true,
    }
}
