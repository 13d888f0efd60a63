//! The tokens of historical expressions.

ghost use Rattle.std.specs.Prelude.{◌≡◌, [], ◌∷◌, ◌++◌, map, OnOk};
ghost use Rattle.hist_value.specs.HistExpr.{expr_of};
ghost use Rattle.delta_tree.specs.Tree.{hist_of};
ghost use Rattle.delta_print.specs.Brackets.{hist_bare, hist_level, hist_room, op_level, left_place, right_place};
ghost use Rattle.delta_print.specs.Rows.{hist_row, hist_row_at, number_row, op_sign, step_row, arm_row, hists_row, more_hists_row};

use crate::chunk::{Chunk, put_fixed, put_name, put_name_and, put_two};
use crate::place::HistPlace;
use bunch::Name;
use delta_parse::Terminal;
use delta_tree::Hist;
use hist_value::{Expr, Op};
use stream_type::Memory;

/// Appends the tokens of a historical expression that stands bare: `hist_row` in `specs/Rows.antt`.
#[cycle(histories)]
#[tactic(auto, using(crate::proofs::Appends::appends))]
pub(crate) fn put_hist(row: &mut Vec<Chunk>, e: &Expr) -> Result<(), Memory>
    ensures { OnOk result (row.new.items ≡ row.old.items ++ hist_row (expr_of e.now)) }
{
    match e {
        Expr::Var(x) => put_name(row, *x),
        Expr::Lit(n) => put_number(row, *n),
        Expr::Unit => put_two(row, Terminal::Open, Terminal::Close),
        Expr::Bin(op, a, b) => {
            put_hist_at(row, left_place(*op), a)?;
            put_fixed(row, op_sign(*op))?;
            put_hist_at(row, right_place(*op), b)
        }
        Expr::Pair(a, b) => {
            put_fixed(row, Terminal::Open)?;
            put_hist(row, a)?;
            put_fixed(row, Terminal::Comma)?;
            put_hist(row, b)?;
            put_fixed(row, Terminal::Close)
        }
        Expr::Fst(a) => put_prefixed(row, Terminal::FstWord, a),
        Expr::Snd(a) => put_prefixed(row, Terminal::SndWord, a),
        Expr::Inl(a) => put_prefixed(row, Terminal::InlWord, a),
        Expr::Inr(a) => put_prefixed(row, Terminal::InrWord, a),
        Expr::Choose(a, x, b, y, c) => {
            put_subject(row, a)?;
            put_arm(row, Terminal::InlWord, *x, b)?;
            put_fixed(row, Terminal::Bar)?;
            put_arm(row, Terminal::InrWord, *y, c)?;
            put_fixed(row, Terminal::CloseBrace)
        }
        Expr::Nil => put_fixed(row, Terminal::NilWord),
        Expr::Cons(a, b) => {
            put_hist_at(row, HistPlace::Comparison, a)?;
            put_fixed(row, Terminal::Colons)?;
            put_hist(row, b)
        }
        Expr::Fold(a, s, x, y, b) => {
            put_fixed(row, Terminal::FoldWord)?;
            put_hist(row, a)?;
            put_fixed(row, Terminal::FromWord)?;
            put_hist(row, s)?;
            put_step(row, *x, *y, b)
        }
    }
}

// A historical expression at a place, in brackets where it needs them.
#[cycle(histories)]
#[tactic(auto, using(crate::proofs::Appends::appends))]
fn put_hist_at(row: &mut Vec<Chunk>, place: HistPlace, e: &Expr) -> Result<(), Memory>
    ensures { OnOk result (row.new.items ≡ row.old.items ++ hist_row_at place (expr_of e.now)) }
{
    if is_bare(place, e) {
        return put_hist(row, e);
    }
    put_fixed(row, Terminal::Open)?;
    put_hist(row, e)?;
    put_fixed(row, Terminal::Close)
}

#[cycle(histories)]
#[tactic(auto, using(crate::proofs::Appends::appends))]
fn put_prefixed(row: &mut Vec<Chunk>, word: Terminal, e: &Expr) -> Result<(), Memory>
    ensures { OnOk result (row.new.items ≡ row.old.items ++ Chunk.Fixed word ∷ hist_row_at HistPlace.Unary (expr_of e.now)) }
{
    put_fixed(row, word)?;
    put_hist_at(row, HistPlace::Unary, e)
}

// The front of a choice, up to its arms.
#[cycle(histories)]
#[tactic(auto, using(crate::proofs::Appends::appends))]
fn put_subject(row: &mut Vec<Chunk>, e: &Expr) -> Result<(), Memory>
    ensures { OnOk result (row.new.items ≡ row.old.items ++ Chunk.Fixed Terminal.CaseWord ∷ (hist_row (expr_of e.now) ++ Chunk.Fixed Terminal.OfWord ∷ Chunk.Fixed Terminal.OpenBrace ∷ [])) }
{
    put_fixed(row, Terminal::CaseWord)?;
    put_hist(row, e)?;
    put_two(row, Terminal::OfWord, Terminal::OpenBrace)
}

// The arm of a side of a sum.
#[cycle(histories)]
#[tactic(auto, using(crate::proofs::Appends::appends))]
fn put_arm(row: &mut Vec<Chunk>, side: Terminal, x: Name, e: &Expr) -> Result<(), Memory>
    ensures { OnOk result (row.new.items ≡ row.old.items ++ Chunk.Fixed side ∷ arm_row x.0 (hist_row (expr_of e.now))) }
{
    put_fixed(row, side)?;
    put_name_and(row, x, Terminal::Arrow)?;
    put_hist(row, e)
}

// What is done with each item of a list in a fold.
#[cycle(histories)]
#[tactic(auto, using(crate::proofs::Appends::appends))]
fn put_step(row: &mut Vec<Chunk>, x: Name, y: Name, body: &Expr) -> Result<(), Memory>
    ensures { OnOk result (row.new.items ≡ row.old.items ++ step_row x.0 y.0 (hist_row (expr_of body.now))) }
{
    put_fixed(row, Terminal::WithWord)?;
    put_name_and(row, x, Terminal::Comma)?;
    put_name_and(row, y, Terminal::Dot)?;
    put_hist(row, body)
}

// A number: its digits, behind a minus where it is negative.
#[tactic(auto, using(crate::proofs::Appends::appends))]
fn put_number(row: &mut Vec<Chunk>, n: i64) -> Result<(), Memory>
    ensures { OnOk result (row.new.items ≡ row.old.items ++ number_row n) }
{
    if n < 0 {
        row.push(Chunk::Minus)?;
    }
    Ok(row.push(Chunk::Digits(n.unsigned_abs()))?)
}

/// Appends historical arguments in their braces, and nothing where there are none: `hists_row` in
/// `specs/Rows.antt`.
#[tactic(auto, using(crate::proofs::Appends::appends))]
pub(crate) fn put_hists(row: &mut Vec<Chunk>, hists: &[Hist]) -> Result<(), Memory>
    ensures { OnOk result (row.new.items ≡ row.old.items ++ hists_row (map hist_of hists.now)) }
{
    let Some((first, more)) = hists.split_first() else {
        return Ok(());
    };
    put_fixed(row, Terminal::OpenBrace)?;
    put_hist(row, &first.expr)?;
    put_more_hists(row, more)?;
    put_fixed(row, Terminal::CloseBrace)
}

// Each expression behind a comma.
#[tactic(auto, using(crate::proofs::Appends::appends))]
fn put_more_hists(row: &mut Vec<Chunk>, hists: &[Hist]) -> Result<(), Memory>
    ensures { OnOk result (row.new.items ≡ row.old.items ++ more_hists_row (map hist_of hists.now)) }
{
    for hist in hists {
        put_fixed(row, Terminal::Comma)?;
        put_hist(row, &hist.expr)?;
    }
    Ok(())
}

fn is_bare(place: HistPlace, e: &Expr) -> bool
    ensures { result ≡ hist_bare place (expr_of e.now) }
{
    level(e) <= room(place)
}

fn room(place: HistPlace) -> u8
    ensures { result ≡ hist_room place }
{
    match place {
        HistPlace::Comparison => 3,
        HistPlace::Sum => 2,
        HistPlace::Product => 1,
        HistPlace::Unary => 0,
    }
}

fn level(e: &Expr) -> u8
    ensures { result ≡ hist_level (expr_of e.now) }
{
    match e {
        Expr::Bin(op, _, _) => op_level(*op),
        Expr::Choose(_, _, _, _, _) | Expr::Cons(_, _) | Expr::Fold(_, _, _, _, _) => 4,
        Expr::Var(_)
        | Expr::Lit(_)
        | Expr::Unit
        | Expr::Pair(_, _)
        | Expr::Fst(_)
        | Expr::Snd(_)
        | Expr::Inl(_)
        | Expr::Inr(_)
        | Expr::Nil => 0,
    }
}

fn op_level(op: Op) -> u8
    ensures { result ≡ op_level op }
{
    match op {
        Op::Less | Op::Same => 3,
        Op::Add | Op::Sub => 2,
        Op::Mul | Op::Div => 1,
    }
}

fn left_place(op: Op) -> HistPlace
    ensures { result ≡ left_place op }
{
    match op {
        Op::Less | Op::Same | Op::Add | Op::Sub => HistPlace::Sum,
        Op::Mul | Op::Div => HistPlace::Product,
    }
}

fn right_place(op: Op) -> HistPlace
    ensures { result ≡ right_place op }
{
    match op {
        Op::Less | Op::Same => HistPlace::Sum,
        Op::Add | Op::Sub => HistPlace::Product,
        Op::Mul | Op::Div => HistPlace::Unary,
    }
}

fn op_sign(op: Op) -> Terminal
    ensures { result ≡ op_sign op }
{
    match op {
        Op::Add => Terminal::Plus,
        Op::Sub => Terminal::Minus,
        Op::Mul => Terminal::Times,
        Op::Div => Terminal::Slash,
        Op::Less => Terminal::Less,
        Op::Same => Terminal::Equals,
    }
}
