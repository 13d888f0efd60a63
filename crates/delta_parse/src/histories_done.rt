//! Historical expressions made of the parts that were read: where the reader of a part stops, the whole does.
//!
//! Nothing here calls back, so the readers that go through one have little more than their calls.

ghost use Rattle.std.specs.Prelude.{◌≡◌, ◌<◌, ℕ, true, false, ◌∷◌, length, IfSome, IfNone};
ghost use Rattle.grammar.specs.Reading.{Outcome, got, starts};
ghost use Rattle.hist_value.specs.HistExpr.{expr_of, literal, reckoned, choice, fold_expr};
ghost use Rattle.delta_tree.specs.SyntaxTree.{WrittenHist};
ghost use Rattle.delta_tree.specs.Tree.{hist_of};
ghost use Rattle.delta_parse.specs.Terminals.{Tok, plain_of, plains};
ghost use Rattle.delta_parse.specs.Actions.{operator, hist_with, prefixed_expr};
ghost use Rattle.delta_parse.specs.Rules.{is_prefix};
ghost use Rattle.delta_parse.specs.Reads.{Reads, BranchRead, going_on, negative, two_expr};

use crate::cursor::{Halt, accept_either};
use crate::plain::Plain;
use crate::terminal::{Terminal, same_kind};
use bunch::Name;
use delta_tree::{Hist, historical};
use hist_value::{Expr, Op};
use std::alloc::Global;

// The operation of a sign.
fn operation(sign: Terminal) -> Op
    ensures { result ≡ operator sign }
{
    match sign {
        Terminal::Plus => Op::Add,
        Terminal::Minus => Op::Sub,
        Terminal::Times => Op::Mul,
        Terminal::Slash => Op::Div,
        Terminal::Less => Op::Less,
        _ => Op::Same,
    }
}

/// This historical expression at a place, and the tokens after it.
pub(crate) fn whole_history<'a>(
    alloc: Global,
    at: u32,
    expr: Expr,
    rest: &'a [Plain],
) -> Result<(Hist, &'a [Plain]), Halt>
    ensures { (n : ℕ) → length rest.now < n → Reads (λ x. hist_of x.0) (λ x. x.1.now) result (got (hist_with at (expr_of expr)) (plains rest.now)) n }
{
    match historical(alloc, at, expr) {
        Ok(whole) => Ok((whole, rest)),
        Err(_) => Err(Halt::Memory),
    }
}

/// A number, and the tokens after it.
pub(crate) fn whole_number<'a>(
    alloc: Global,
    number: Plain,
    rest: &'a [Plain],
) -> Result<(Hist, &'a [Plain]), Halt>
    ensures { (n : ℕ) → length rest.now < n → Reads (λ x. hist_of x.0) (λ x. x.1.now) result (got (hist_with number.at (literal number.number)) (plains rest.now)) n }
{
    whole_history(alloc, number.at, Expr::Lit(number.number), rest)
}

// Whether this stands before an operand.
fn is_prefix(kind: Terminal) -> bool
    ensures { result ≡ is_prefix kind }
{
    same_kind(Terminal::FstWord, kind)
        || (same_kind(Terminal::SndWord, kind)
            || (same_kind(Terminal::InlWord, kind) || same_kind(Terminal::InrWord, kind)))
}

/// The first token and those after it, where it stands before an operand.
pub(crate) fn accept_prefix<'a>(tokens: &'a [Plain]) -> Option<(Plain, &'a [Plain])>
    ensures none { IfNone result (starts is_prefix (plains tokens.now) ≡ false) }
    ensures some { IfSome result (λ x. plains tokens.now ≡ plain_of x.0 ∷ plains x.1.now) }
    ensures kind { IfSome result (λ x. is_prefix x.0.kind ≡ true) }
    ensures shorter { IfSome result (λ x. length x.1.now < length tokens.now) }
{
    match tokens {
        [first, rest @ ..] if is_prefix(first.kind) => Some((*first, rest)),
        _ => None,
    }
}

/// A number that stands behind a minus at a place.
pub(crate) fn read_negative<'a>(
    alloc: Global,
    at: u32,
    tokens: &'a [Plain],
) -> Result<(Hist, &'a [Plain]), Halt>
    ensures { Reads (λ x. hist_of x.0) (λ x. x.1.now) result (negative at (plains tokens.now)) (length tokens.now) }
{
    match accept_either(Terminal::OneToken, Terminal::NumberToken, tokens) {
        Some((number, rest)) => whole_history(alloc, at, Expr::Lit(-number.number), rest),
        None => Err(Halt::At(tokens.len())),
    }
}

/// What stands behind a word, which was read.
pub(crate) fn prefix_done<'a>(
    alloc: Global,
    at: u32,
    word: Terminal,
    inner: Result<(Hist, &'a [Plain]), Halt>,
) -> Result<(Hist, &'a [Plain]), Halt>
    ensures { (o : Outcome Tok WrittenHist) (n : ℕ) → Reads (λ x. hist_of x.0) (λ x. x.1.now) inner.entry o n → Reads (λ x. hist_of x.0) (λ x. x.1.now) result (going_on o (λ h. got (hist_with at (prefixed_expr word h.0.expr)) h.1)) n }
{
    match inner {
        Ok((inner, rest)) => whole_history(alloc, at, prefixed(word, inner.expr), rest),
        Err(halt) => Err(halt),
    }
}

fn prefixed(word: Terminal, inner: Box<Expr>) -> Expr
    ensures { expr_of result ≡ prefixed_expr word (expr_of inner.value) }
{
    match word {
        Terminal::FstWord => Expr::Fst(inner),
        Terminal::SndWord => Expr::Snd(inner),
        Terminal::InlWord => Expr::Inl(inner),
        _ => Expr::Inr(inner),
    }
}

/// Two operands with a sign between them, the second of which was read.
pub(crate) fn reckoned<'a>(
    alloc: Global,
    at: u32,
    sign: Terminal,
    left: Hist,
    right: Result<(Hist, &'a [Plain]), Halt>,
) -> Result<(Hist, &'a [Plain]), Halt>
    ensures { (o : Outcome Tok WrittenHist) (n : ℕ) → Reads (λ x. hist_of x.0) (λ x. x.1.now) right.entry o n → Reads (λ x. hist_of x.0) (λ x. x.1.now) result (going_on o (λ h. got (hist_with at (reckoned (operator sign) (expr_of left.expr.value) h.0.expr)) h.1)) n }
{
    match right {
        Ok((right, rest)) => {
            let expr = Expr::Bin(operation(sign), left.expr, right.expr);
            whole_history(alloc, at, expr, rest)
        }
        Err(halt) => {
            drop(left);
            Err(halt)
        }
    }
}

/// A pair, or an item before others, the second part of which was read.
pub(crate) fn paired<'a>(
    alloc: Global,
    at: u32,
    sign: Terminal,
    first: Hist,
    second: Result<(Hist, &'a [Plain]), Halt>,
) -> Result<(Hist, &'a [Plain]), Halt>
    ensures { (o : Outcome Tok WrittenHist) (n : ℕ) → Reads (λ x. hist_of x.0) (λ x. x.1.now) second.entry o n → Reads (λ x. hist_of x.0) (λ x. x.1.now) result (going_on o (λ h. got (hist_with at (two_expr sign (expr_of first.expr.value) h.0.expr)) h.1)) n }
{
    match second {
        Ok((second, rest)) => {
            whole_history(alloc, at, pair_of(sign, first.expr, second.expr), rest)
        }
        Err(halt) => {
            drop(first);
            Err(halt)
        }
    }
}

fn pair_of(sign: Terminal, first: Box<Expr>, second: Box<Expr>) -> Expr
    ensures { expr_of result ≡ two_expr sign (expr_of first.value) (expr_of second.value) }
{
    match sign {
        Terminal::Comma => Expr::Pair(first, second),
        _ => Expr::Cons(first, second),
    }
}

/// A fold whose body was read.
pub(crate) fn fold_done<'a>(
    alloc: Global,
    at: u32,
    list: Hist,
    start: Hist,
    names: (Name, Name),
    body: Result<(Hist, &'a [Plain]), Halt>,
) -> Result<(Hist, &'a [Plain]), Halt>
    ensures { (o : Outcome Tok WrittenHist) (n : ℕ) → Reads (λ x. hist_of x.0) (λ x. x.1.now) body.entry o n → Reads (λ x. hist_of x.0) (λ x. x.1.now) result (going_on o (λ h. got (hist_with at (fold_expr (expr_of list.expr.value) (expr_of start.expr.value) names.0.0 names.1.0 h.0.expr)) h.1)) n }
{
    match body {
        Ok((body, rest)) => {
            let (so_far, item) = names;
            let expr = Expr::Fold(list.expr, start.expr, so_far, item, body.expr);
            whole_history(alloc, at, expr, rest)
        }
        Err(halt) => {
            drop(list);
            drop(start);
            Err(halt)
        }
    }
}

/// A side of a choice, whose expression was read.
pub(crate) fn branch_done<'a>(
    name: Name,
    body: Result<(Hist, &'a [Plain]), Halt>,
) -> Result<((Name, Hist), &'a [Plain]), Halt>
    ensures { (o : Outcome Tok WrittenHist) (n : ℕ) → Reads (λ x. hist_of x.0) (λ x. x.1.now) body.entry o n → Reads {Y = ℕ × WrittenHist} (λ x. (x.0.0.0, hist_of x.0.1)) (λ x. x.1.now) result (going_on o (λ h. got (name.0, h.0) h.1)) n }
{
    match body {
        Ok((body, rest)) => Ok(((name, body), rest)),
        Err(halt) => Err(halt),
    }
}

/// A choice whose second side was read.
pub(crate) fn choice_done<'a>(
    alloc: Global,
    at: u32,
    subject: Hist,
    left: (Name, Hist),
    right: Result<((Name, Hist), &'a [Plain]), Halt>,
) -> Result<(Hist, &'a [Plain]), Halt>
    ensures { (o : BranchRead) (n : ℕ) → Reads (λ x. (x.0.0.0, hist_of x.0.1)) (λ x. x.1.now) right.entry o n → Reads (λ x. hist_of x.0) (λ x. x.1.now) result (going_on o (λ r. got (hist_with at (choice (expr_of subject.expr.value) left.0.0 (expr_of left.1.expr.value) r.0.0 r.0.1.expr)) r.1)) n }
{
    match right {
        Ok((right, rest)) => {
            let (x, left) = left;
            let (y, right) = right;
            let expr = Expr::Choose(subject.expr, x, left.expr, y, right.expr);
            whole_history(alloc, at, expr, rest)
        }
        Err(halt) => {
            drop(subject);
            drop(left);
            Err(halt)
        }
    }
}
