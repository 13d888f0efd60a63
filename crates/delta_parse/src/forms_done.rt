//! Expressions and heads made of the parts that were read: where the reader of a part stops, the whole does.
//!
//! Nothing here calls back, so the readers that go through an expression have little more than their calls.

ghost use Rattle.std.specs.Prelude.{◌≡◌, ◌<◌, ℕ, List, length, map};
ghost use Rattle.grammar.specs.Reading.{Outcome, got};
ghost use Rattle.delta_tree.specs.SyntaxTree.{Expression, WrittenHist, wait_at, if_at, typed_at, call_at, call_head, typed_head};
ghost use Rattle.delta_tree.specs.Tree.{expression_of, expression_form_of, head_of, head_form_of, hist_of, type_tree_of};
ghost use Rattle.delta_parse.specs.Terminals.{Tok, plains};
ghost use Rattle.delta_parse.specs.Parts.{sum_arms, star_arms};
ghost use Rattle.delta_parse.specs.Actions.{let_with, case_with, expression_list};
ghost use Rattle.delta_parse.specs.Rules.{braces_rule};
ghost use Rattle.delta_parse.specs.Tables.{read_rule};
ghost use Rattle.delta_parse.specs.Readers.{pattern_tree, arms_of};
ghost use Rattle.delta_parse.specs.Reads.{Reads, ArmsRead, going_on, let_front, if_front, type_between, one_at, two_at};

use crate::cursor::{Halt, expect};
use crate::history_reader::read_history;
use crate::making::waiting;
use crate::pattern_reader::{Pattern, read_pattern};
use crate::plain::Plain;
use crate::signs::followed_by;
use crate::terminal::Terminal;
use crate::type_reader::read_type;
use bunch::Name;
use delta_tree::{Exp, Form, Head, HeadForm, Hist, TyExp, expression, head};
use std::alloc::Global;

/// The arms of a case: those of a sum with their names, or that of a star that is over and that of an
/// item and the rest with their names.
#[derive(Drop)]
pub(crate) enum Arms {
    Sum(Name, Exp, Name, Exp),
    Star(Exp, Name, Name, Exp),
}

/// The expression of this form at a place, and the tokens after it.
pub(crate) fn whole<'a>(
    alloc: Global,
    at: u32,
    form: Form,
    rest: &'a [Plain],
) -> Result<(Exp, &'a [Plain]), Halt>
    ensures { (n : ℕ) → length rest.now < n → Reads (λ x. expression_of x.0) (λ x. x.1.now) result (got (expression_form_of at form) (plains rest.now)) n }
{
    match expression(alloc, at, form) {
        Ok(whole) => Ok((whole, rest)),
        Err(_) => Err(Halt::Memory),
    }
}

/// The head of this form at a place, and the tokens after it.
pub(crate) fn whole_head<'a>(
    alloc: Global,
    at: u32,
    form: HeadForm,
    rest: &'a [Plain],
) -> Result<(Head, &'a [Plain]), Halt>
    ensures { (n : ℕ) → length rest.now < n → Reads (λ x. head_of x.0) (λ x. x.1.now) result (got (head_form_of at form) (plains rest.now)) n }
{
    match head(alloc, at, form) {
        Ok(whole) => Ok((whole, rest)),
        Err(_) => Err(Halt::Memory),
    }
}

/// What stands before the head of a `let`: its place, and what it binds.
pub(crate) fn read_let_front<'a>(tokens: &'a [Plain]) -> Result<(u32, Pattern, &'a [Plain]), Halt>
    ensures { Reads (λ x. (x.0, pattern_tree x.1)) (λ x. x.2.now) result (let_front (plains tokens.now)) (length tokens.now) }
{
    match expect(Terminal::LetWord, tokens) {
        Ok((word, rest)) => match followed_by(Terminal::Equals, read_pattern(rest)) {
            Ok((pattern, rest)) => Ok((word.at, pattern, rest)),
            Err(halt) => Err(halt),
        },
        Err(halt) => Err(halt),
    }
}

/// What stands before the first side of an `if`: its place, and its test.
pub(crate) fn read_if_front<'a>(
    alloc: Global,
    tokens: &'a [Plain],
) -> Result<(u32, Hist, &'a [Plain]), Halt>
    ensures { Reads (λ x. (x.0, hist_of x.1)) (λ x. x.2.now) result (if_front (plains tokens.now)) (length tokens.now) }
{
    match expect(Terminal::IfWord, tokens) {
        Ok((word, rest)) => match followed_by(Terminal::ThenWord, read_history(alloc, rest)) {
            Ok((test, rest)) => Ok((word.at, test, rest)),
            Err(halt) => Err(halt),
        },
        Err(halt) => Err(halt),
    }
}

/// A type between a colon and the bracket that closes.
pub(crate) fn read_type_between<'a>(
    alloc: Global,
    tokens: &'a [Plain],
) -> Result<(TyExp, &'a [Plain]), Halt>
    ensures { Reads (λ x. type_tree_of x.0) (λ x. x.1.now) result (type_between (plains tokens.now)) (length tokens.now) }
{
    match expect(Terminal::Colon, tokens) {
        Ok((_, rest)) => followed_by(Terminal::Close, read_type(alloc, rest)),
        Err(halt) => Err(halt),
    }
}

/// A historical expression in its braces.
pub(crate) fn read_braces<'a>(
    alloc: Global,
    tokens: &'a [Plain],
) -> Result<(Exp, &'a [Plain]), Halt>
    ensures { Reads (λ x. expression_of x.0) (λ x. x.1.now) result (read_rule braces_rule (plains tokens.now)) (length tokens.now) }
{
    match expect(Terminal::OpenBrace, tokens) {
        Ok((open, rest)) => match followed_by(Terminal::CloseBrace, read_history(alloc, rest)) {
            Ok((inner, rest)) => whole(alloc, open.at, Form::Past(inner), rest),
            Err(halt) => Err(halt),
        },
        Err(halt) => Err(halt),
    }
}

/// A `let` whose body was read.
pub(crate) fn let_done<'a>(
    alloc: Global,
    at: u32,
    pattern: Pattern,
    head: Head,
    body: Result<(Exp, &'a [Plain]), Halt>,
) -> Result<(Exp, &'a [Plain]), Halt>
    ensures { (o : Outcome Tok Expression) (n : ℕ) → Reads (λ x. expression_of x.0) (λ x. x.1.now) body.entry o n → Reads (λ x. expression_of x.0) (λ x. x.1.now) result (going_on o (λ e. got (let_with at (pattern_tree pattern) (head_of head) e.0) e.1)) n }
{
    match body {
        Ok((body, rest)) => whole(alloc, at, let_form(pattern, head, body), rest),
        Err(halt) => {
            drop(head);
            Err(halt)
        }
    }
}

// The form of a `let`.
fn let_form(pattern: Pattern, head: Head, body: Exp) -> Form
    ensures { (at : ℕ) → expression_form_of at result ≡ let_with at (pattern_tree pattern) (head_of head) (expression_of body) }
{
    match pattern {
        Pattern::One(x) => Form::Let(x, head, body),
        Pattern::AtOnce(x, y) => Form::LetPar(x, y, head, body),
        Pattern::InTurn(x, y) => Form::LetCat(x, y, head, body),
    }
}

/// A `wait` whose body was read.
pub(crate) fn wait_done<'a>(
    alloc: Global,
    at: u32,
    name: Name,
    body: Result<(Exp, &'a [Plain]), Halt>,
) -> Result<(Exp, &'a [Plain]), Halt>
    ensures { (o : Outcome Tok Expression) (n : ℕ) → Reads (λ x. expression_of x.0) (λ x. x.1.now) body.entry o n → Reads (λ x. expression_of x.0) (λ x. x.1.now) result (going_on o (λ e. got (wait_at at name.0 e.0) e.1)) n }
{
    match body {
        Ok((body, rest)) => match waiting(alloc, at, name, body) {
            Ok(whole) => Ok((whole, rest)),
            Err(_) => Err(Halt::Memory),
        },
        Err(halt) => Err(halt),
    }
}

/// An `if` whose second side was read.
pub(crate) fn if_done<'a>(
    alloc: Global,
    at: u32,
    test: Hist,
    holds: Exp,
    fails: Result<(Exp, &'a [Plain]), Halt>,
) -> Result<(Exp, &'a [Plain]), Halt>
    ensures { (o : Outcome Tok Expression) (n : ℕ) → Reads (λ x. expression_of x.0) (λ x. x.1.now) fails.entry o n → Reads (λ x. expression_of x.0) (λ x. x.1.now) result (going_on o (λ e. got (if_at at (hist_of test) (expression_of holds) e.0) e.1)) n }
{
    match fails {
        Ok((fails, rest)) => whole(alloc, at, Form::If(test, holds, fails), rest),
        Err(halt) => {
            drop(test);
            drop(holds);
            Err(halt)
        }
    }
}

/// An expression of one part, which was read: a side of a sum.
pub(crate) fn one_done<'a>(
    alloc: Global,
    at: u32,
    sign: Terminal,
    inner: Result<(Exp, &'a [Plain]), Halt>,
) -> Result<(Exp, &'a [Plain]), Halt>
    ensures { (o : Outcome Tok Expression) (n : ℕ) → Reads (λ x. expression_of x.0) (λ x. x.1.now) inner.entry o n → Reads (λ x. expression_of x.0) (λ x. x.1.now) result (going_on o (λ e. got (one_at sign at e.0) e.1)) n }
{
    match inner {
        Ok((inner, rest)) => whole(alloc, at, one_of(sign, inner), rest),
        Err(halt) => Err(halt),
    }
}

fn one_of(sign: Terminal, inner: Exp) -> Form
    ensures { (at : ℕ) → expression_form_of at result ≡ one_at sign at (expression_of inner) }
{
    match sign {
        Terminal::InlWord => Form::Inl(inner),
        _ => Form::Inr(inner),
    }
}

/// An expression of two parts, whose second was read: a pair at once or in turn, or an item before others.
pub(crate) fn two_done<'a>(
    alloc: Global,
    at: u32,
    sign: Terminal,
    first: Exp,
    second: Result<(Exp, &'a [Plain]), Halt>,
) -> Result<(Exp, &'a [Plain]), Halt>
    ensures { (o : Outcome Tok Expression) (n : ℕ) → Reads (λ x. expression_of x.0) (λ x. x.1.now) second.entry o n → Reads (λ x. expression_of x.0) (λ x. x.1.now) result (going_on o (λ e. got (two_at sign at (expression_of first) e.0) e.1)) n }
{
    match second {
        Ok((second, rest)) => whole(alloc, at, two_of(sign, first, second), rest),
        Err(halt) => {
            drop(first);
            Err(halt)
        }
    }
}

fn two_of(sign: Terminal, first: Exp, second: Exp) -> Form
    ensures { (at : ℕ) → expression_form_of at result ≡ two_at sign at (expression_of first) (expression_of second) }
{
    match sign {
        Terminal::Comma => Form::Par(first, second),
        Terminal::Semicolon => Form::Cat(first, second),
        _ => Form::Cons(first, second),
    }
}

/// An expression with its type, which stands in the tokens with the bracket that closes.
pub(crate) fn typed_done<'a>(
    alloc: Global,
    at: u32,
    inner: Exp,
    tokens: &'a [Plain],
) -> Result<(Exp, &'a [Plain]), Halt>
    ensures { Reads (λ x. expression_of x.0) (λ x. x.1.now) result (going_on (type_between (plains tokens.now)) (λ s. got (typed_at at (expression_of inner) s.0) s.1)) (length tokens.now) }
{
    match read_type_between(alloc, tokens) {
        Ok((ty, rest)) => whole(alloc, at, Form::Asc(inner, ty), rest),
        Err(halt) => {
            drop(inner);
            Err(halt)
        }
    }
}

/// A head that is an expression with its type, the expression of which was read.
pub(crate) fn typed_head_done<'a>(
    alloc: Global,
    at: u32,
    inner: Result<(Exp, &'a [Plain]), Halt>,
) -> Result<(Head, &'a [Plain]), Halt>
    ensures { (o : Outcome Tok Expression) (n : ℕ) → Reads (λ x. expression_of x.0) (λ x. x.1.now) inner.entry o n → Reads (λ x. head_of x.0) (λ x. x.1.now) result (going_on o (λ e. going_on (type_between e.1) (λ s. got (typed_head at e.0 s.0) s.1))) n }
{
    match inner {
        Ok((inner, rest)) => match read_type_between(alloc, rest) {
            Ok((ty, rest)) => whole_head(alloc, at, HeadForm::Asc(inner, ty), rest),
            Err(halt) => {
                drop(inner);
                Err(halt)
            }
        },
        Err(halt) => Err(halt),
    }
}

/// A head that is a call, whose arguments were read.
pub(crate) fn called_head<'a>(
    alloc: Global,
    name: Plain,
    arguments: Result<(Vec<Hist>, Vec<Exp>, &'a [Plain]), Halt>,
) -> Result<(Head, &'a [Plain]), Halt>
    ensures { (o : Outcome Tok (List WrittenHist × List Expression)) (n : ℕ) → Reads (λ x. (map hist_of x.0.items, map expression_of x.1.items)) (λ x. x.2.now) arguments.entry o n → Reads (λ x. head_of x.0) (λ x. x.1.now) result (going_on o (λ x. got (call_head name.at name.name x.0.0 (expression_list x.0.1)) x.1)) n }
{
    match arguments {
        Ok((past, streams, rest)) => {
            let form = HeadForm::Call(Name(name.name), past, streams);
            whole_head(alloc, name.at, form, rest)
        }
        Err(halt) => Err(halt),
    }
}

/// An expression that is a call, whose arguments were read.
pub(crate) fn called<'a>(
    alloc: Global,
    name: Plain,
    arguments: Result<(Vec<Hist>, Vec<Exp>, &'a [Plain]), Halt>,
) -> Result<(Exp, &'a [Plain]), Halt>
    ensures { (o : Outcome Tok (List WrittenHist × List Expression)) (n : ℕ) → Reads (λ x. (map hist_of x.0.items, map expression_of x.1.items)) (λ x. x.2.now) arguments.entry o n → Reads (λ x. expression_of x.0) (λ x. x.1.now) result (going_on o (λ x. got (call_at name.at name.name x.0.0 (expression_list x.0.1)) x.1)) n }
{
    match arguments {
        Ok((past, streams, rest)) => {
            let form = Form::Call(Name(name.name), past, streams);
            whole(alloc, name.at, form, rest)
        }
        Err(halt) => Err(halt),
    }
}

/// The arguments of a call, of which those that are streams were read.
pub(crate) fn arguments_done<'a>(
    past: Vec<Hist>,
    streams: Result<(Vec<Exp>, &'a [Plain]), Halt>,
) -> Result<(Vec<Hist>, Vec<Exp>, &'a [Plain]), Halt>
    ensures { (o : Outcome Tok (List Expression)) (n : ℕ) → Reads (λ x. map expression_of x.0.items) (λ x. x.1.now) streams.entry o n → Reads {Y = List WrittenHist × List Expression} (λ x. (map hist_of x.0.items, map expression_of x.1.items)) (λ x. x.2.now) result (going_on o (λ e. got (map hist_of past.items, e.0) e.1)) n }
{
    match streams {
        Ok((streams, rest)) => Ok((past, streams, rest)),
        Err(halt) => {
            drop(past);
            Err(halt)
        }
    }
}

/// The arms of a sum, of which the last was read.
pub(crate) fn sum_arms_done<'a>(
    x: Name,
    left: Exp,
    y: Name,
    right: Result<(Exp, &'a [Plain]), Halt>,
) -> Result<(Arms, &'a [Plain]), Halt>
    ensures { (o : Outcome Tok Expression) (n : ℕ) → Reads (λ x. expression_of x.0) (λ x. x.1.now) right.entry o n → Reads (λ x. arms_of x.0) (λ x. x.1.now) result (going_on o (λ e. got (sum_arms x.0 (expression_of left) y.0 e.0) e.1)) n }
{
    match right {
        Ok((right, rest)) => Ok((Arms::Sum(x, left, y, right), rest)),
        Err(halt) => {
            drop(left);
            Err(halt)
        }
    }
}

/// The arms of a star, of which the last was read.
pub(crate) fn star_arms_done<'a>(
    over: Exp,
    item: Name,
    others: Name,
    more: Result<(Exp, &'a [Plain]), Halt>,
) -> Result<(Arms, &'a [Plain]), Halt>
    ensures { (o : Outcome Tok Expression) (n : ℕ) → Reads (λ x. expression_of x.0) (λ x. x.1.now) more.entry o n → Reads (λ x. arms_of x.0) (λ x. x.1.now) result (going_on o (λ e. got (star_arms (expression_of over) item.0 others.0 e.0) e.1)) n }
{
    match more {
        Ok((more, rest)) => Ok((Arms::Star(over, item, others, more), rest)),
        Err(halt) => {
            drop(over);
            Err(halt)
        }
    }
}

/// A case whose arms were read.
pub(crate) fn case_done<'a>(
    alloc: Global,
    at: u32,
    head: Head,
    arms: Result<(Arms, &'a [Plain]), Halt>,
) -> Result<(Exp, &'a [Plain]), Halt>
    ensures { (o : ArmsRead) (n : ℕ) → Reads (λ x. arms_of x.0) (λ x. x.1.now) arms.entry o n → Reads (λ x. expression_of x.0) (λ x. x.1.now) result (going_on o (λ e. got (case_with at (head_of head) e.0) e.1)) n }
{
    match arms {
        Ok((arms, rest)) => whole(alloc, at, case_form(head, arms), rest),
        Err(halt) => {
            drop(head);
            Err(halt)
        }
    }
}

// The form of a case on a head with these arms.
fn case_form(head: Head, arms: Arms) -> Form
    ensures { (at : ℕ) → expression_form_of at result ≡ case_with at (head_of head) (arms_of arms) }
{
    match arms {
        Arms::Sum(x, left, y, right) => Form::CaseSum(head, x, left, y, right),
        Arms::Star(over, item, others, more) => Form::CaseStar(head, over, item, others, more),
    }
}
