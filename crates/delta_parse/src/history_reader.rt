//! Readers of historical expressions. What calls back stands here, and `histories_done` makes the forms.

ghost use Rattle.std.specs.Prelude.{◌<◌, ◌≤◌, ◌+◌, ℕ, [], ◌∷◌, length, map, IfOk};
ghost use Rattle.delta_tree.specs.SyntaxTree.{WrittenHist};
ghost use Rattle.delta_tree.specs.Tree.{hist_of};
ghost use Rattle.delta_parse.specs.Terminals.{plain_of, plains};
ghost use Rattle.delta_parse.specs.Parts.{a_history, a_comparison, a_sum, more_summands, a_product, more_factors, a_unary, a_history_atom, more_histories};
ghost use Rattle.delta_parse.specs.Rules.{fold_rule, choice_rule, branch_rule, hist_bracket_rule, histories_rule, history_items_rule};
ghost use Rattle.delta_parse.specs.Tables.{reading, read_rule};
ghost use Rattle.delta_parse.specs.Readers.{Gives, with_operands, behind};
ghost use Rattle.delta_parse.specs.Reads.{Reads, fold_on, choice_on, second_inside};

use crate::cursor::{Halt, accept, accept_either, expect, place, starts_with};
use crate::histories_done::{
    accept_prefix, branch_done, choice_done, fold_done, paired, prefix_done, read_negative,
    reckoned, whole_history, whole_number,
};
use crate::plain::Plain;
use crate::signs::{followed_by, read_name_between, read_two_names};
use crate::terminal::Terminal;
use bunch::Name;
use delta_tree::Hist;
use hist_value::Expr;
use std::alloc::Global;

/// A historical expression, and the tokens after it.
pub fn read_history<'a>(alloc: Global, tokens: &'a [Plain]) -> Result<(Hist, &'a [Plain]), Halt>
    ensures given { Gives (λ x. hist_of x.0) (λ x. plains x.1.now) result (reading a_history (plains tokens.now)) }
    ensures shorter { IfOk result (λ x. length x.1.now < length tokens.now) }
{
    history(alloc, tokens)
}

#[cycle(histories)]
fn history<'a>(alloc: Global, tokens: &'a [Plain]) -> Result<(Hist, &'a [Plain]), Halt>
    ensures { Reads (λ x. hist_of x.0) (λ x. x.1.now) result (reading a_history (plains tokens.now)) (length tokens.now) }
{
    if starts_with(Terminal::FoldWord, tokens) {
        return read_fold(alloc, tokens);
    }
    if starts_with(Terminal::CaseWord, tokens) {
        return read_choice(alloc, tokens);
    }
    match read_comparison(alloc, tokens) {
        Ok((first, rest)) => match accept(Terminal::Colons, rest) {
            Some((_, rest)) => {
                let others = history(alloc, rest);
                paired(alloc, place(tokens), Terminal::Colons, first, others)
            }
            None => Ok((first, rest)),
        },
        Err(halt) => Err(halt),
    }
}

#[cycle(histories)]
fn read_fold<'a>(alloc: Global, tokens: &'a [Plain]) -> Result<(Hist, &'a [Plain]), Halt>
    ensures { Reads (λ x. hist_of x.0) (λ x. x.1.now) result (read_rule fold_rule (plains tokens.now)) (length tokens.now) }
{
    match expect(Terminal::FoldWord, tokens) {
        Ok((word, rest)) => match followed_by(Terminal::FromWord, history(alloc, rest)) {
            Ok((list, rest)) => read_fold_on(alloc, word.at, list, rest),
            Err(halt) => Err(halt),
        },
        Err(halt) => Err(halt),
    }
}

// A fold behind its list.
#[cycle(histories)]
fn read_fold_on<'a>(
    alloc: Global,
    at: u32,
    list: Hist,
    tokens: &'a [Plain],
) -> Result<(Hist, &'a [Plain]), Halt>
    ensures { Reads (λ x. hist_of x.0) (λ x. x.1.now) result (fold_on at (hist_of list) (plains tokens.now)) (length tokens.now) }
{
    match followed_by(Terminal::WithWord, history(alloc, tokens)) {
        Ok((start, rest)) => match read_two_names(Terminal::Comma, Terminal::Dot, rest) {
            Ok((x, y, rest)) => { fold_done(alloc, at, list, start, (x, y), history(alloc, rest)) }
            Err(halt) => {
                drop(list);
                drop(start);
                Err(halt)
            }
        },
        Err(halt) => {
            drop(list);
            Err(halt)
        }
    }
}

#[cycle(histories)]
fn read_choice<'a>(alloc: Global, tokens: &'a [Plain]) -> Result<(Hist, &'a [Plain]), Halt>
    ensures { Reads (λ x. hist_of x.0) (λ x. x.1.now) result (read_rule choice_rule (plains tokens.now)) (length tokens.now) }
{
    match expect(Terminal::CaseWord, tokens) {
        Ok((word, rest)) => {
            let subject = followed_by(Terminal::OfWord, history(alloc, rest));
            match followed_by(Terminal::OpenBrace, subject) {
                Ok((subject, rest)) => read_choice_on(alloc, word.at, subject, rest),
                Err(halt) => Err(halt),
            }
        }
        Err(halt) => Err(halt),
    }
}

// A choice behind what it is about.
#[cycle(histories)]
fn read_choice_on<'a>(
    alloc: Global,
    at: u32,
    subject: Hist,
    tokens: &'a [Plain],
) -> Result<(Hist, &'a [Plain]), Halt>
    ensures { Reads (λ x. hist_of x.0) (λ x. x.1.now) result (choice_on at (hist_of subject) (plains tokens.now)) (length tokens.now) }
{
    match followed_by(Terminal::Bar, read_branch(alloc, Terminal::InlWord, tokens)) {
        Ok((left, rest)) => {
            let right = read_branch(alloc, Terminal::InrWord, rest);
            let right = followed_by(Terminal::CloseBrace, right);
            choice_done(alloc, at, subject, left, right)
        }
        Err(halt) => {
            drop(subject);
            Err(halt)
        }
    }
}

// A side of a choice behind its word: its name and its expression.
#[cycle(histories)]
fn read_branch<'a>(
    alloc: Global,
    word: Terminal,
    tokens: &'a [Plain],
) -> Result<((Name, Hist), &'a [Plain]), Halt>
    ensures { Reads {Y = ℕ × WrittenHist} (λ x. (x.0.0.0, hist_of x.0.1)) (λ x. x.1.now) result (read_rule (branch_rule word) (plains tokens.now)) (length tokens.now) }
{
    match read_name_between(word, Terminal::Arrow, tokens) {
        Ok((_, name, rest)) => branch_done(name, history(alloc, rest)),
        Err(halt) => Err(halt),
    }
}

#[cycle(histories)]
fn read_comparison<'a>(alloc: Global, tokens: &'a [Plain]) -> Result<(Hist, &'a [Plain]), Halt>
    ensures { Reads (λ x. hist_of x.0) (λ x. x.1.now) result (reading a_comparison (plains tokens.now)) (length tokens.now) }
{
    match read_sum(alloc, tokens) {
        Ok((left, rest)) => match accept_either(Terminal::Less, Terminal::Equals, rest) {
            Some((sign, rest)) => {
                let right = read_sum(alloc, rest);
                reckoned(alloc, place(tokens), sign.kind, left, right)
            }
            None => Ok((left, rest)),
        },
        Err(halt) => Err(halt),
    }
}

#[cycle(histories)]
fn read_sum<'a>(alloc: Global, tokens: &'a [Plain]) -> Result<(Hist, &'a [Plain]), Halt>
    ensures { Reads (λ x. hist_of x.0) (λ x. x.1.now) result (reading a_sum (plains tokens.now)) (length tokens.now) }
{
    match read_product(alloc, tokens) {
        Ok((first, rest)) => read_summands(alloc, place(tokens), first, rest),
        Err(halt) => Err(halt),
    }
}

// What is added to or taken from what stands before.
#[cycle(histories)]
fn read_summands<'a>(
    alloc: Global,
    at: u32,
    so_far: Hist,
    tokens: &'a [Plain],
) -> Result<(Hist, &'a [Plain]), Halt>
    ensures { (n : ℕ) → length tokens.now < n → Reads (λ x. hist_of x.0) (λ x. x.1.now) result (with_operands at (hist_of so_far) (reading more_summands (plains tokens.now))) n }
{
    match accept_either(Terminal::Plus, Terminal::Minus, tokens) {
        Some((sign, rest)) => {
            let right = read_product(alloc, rest);
            match reckoned(alloc, at, sign.kind, so_far, right) {
                Ok((so_far, rest)) => read_summands(alloc, at, so_far, rest),
                Err(halt) => Err(halt),
            }
        }
        None => Ok((so_far, tokens)),
    }
}

#[cycle(histories)]
fn read_product<'a>(alloc: Global, tokens: &'a [Plain]) -> Result<(Hist, &'a [Plain]), Halt>
    ensures { Reads (λ x. hist_of x.0) (λ x. x.1.now) result (reading a_product (plains tokens.now)) (length tokens.now) }
{
    match read_unary(alloc, tokens) {
        Ok((first, rest)) => read_factors(alloc, place(tokens), first, rest),
        Err(halt) => Err(halt),
    }
}

// What multiplies or divides what stands before.
#[cycle(histories)]
fn read_factors<'a>(
    alloc: Global,
    at: u32,
    so_far: Hist,
    tokens: &'a [Plain],
) -> Result<(Hist, &'a [Plain]), Halt>
    ensures { (n : ℕ) → length tokens.now < n → Reads (λ x. hist_of x.0) (λ x. x.1.now) result (with_operands at (hist_of so_far) (reading more_factors (plains tokens.now))) n }
{
    match accept_either(Terminal::Times, Terminal::Slash, tokens) {
        Some((sign, rest)) => {
            let right = read_unary(alloc, rest);
            match reckoned(alloc, at, sign.kind, so_far, right) {
                Ok((so_far, rest)) => read_factors(alloc, at, so_far, rest),
                Err(halt) => Err(halt),
            }
        }
        None => Ok((so_far, tokens)),
    }
}

#[cycle(histories)]
fn read_unary<'a>(alloc: Global, tokens: &'a [Plain]) -> Result<(Hist, &'a [Plain]), Halt>
    ensures { Reads (λ x. hist_of x.0) (λ x. x.1.now) result (reading a_unary (plains tokens.now)) (length tokens.now) }
{
    if let Some((word, rest)) = accept_prefix(tokens) {
        let inner = read_unary(alloc, rest);
        return prefix_done(alloc, word.at, word.kind, inner);
    }
    read_history_atom(alloc, tokens)
}

#[cycle(histories)]
fn read_history_atom<'a>(alloc: Global, tokens: &'a [Plain]) -> Result<(Hist, &'a [Plain]), Halt>
    ensures { Reads (λ x. hist_of x.0) (λ x. x.1.now) result (reading a_history_atom (plains tokens.now)) (length tokens.now) }
{
    if let Some((name, rest)) = accept(Terminal::NameToken, tokens) {
        return whole_history(alloc, name.at, Expr::Var(Name(name.name)), rest);
    }
    if let Some((number, rest)) = accept_either(Terminal::OneToken, Terminal::NumberToken, tokens) {
        return whole_number(alloc, number, rest);
    }
    if let Some((minus, rest)) = accept(Terminal::Minus, tokens) {
        return read_negative(alloc, minus.at, rest);
    }
    if let Some((word, rest)) = accept(Terminal::NilWord, tokens) {
        return whole_history(alloc, word.at, Expr::Nil, rest);
    }
    read_history_bracket(alloc, tokens)
}

#[cycle(histories)]
fn read_history_bracket<'a>(alloc: Global, tokens: &'a [Plain]) -> Result<(Hist, &'a [Plain]), Halt>
    ensures { Reads (λ x. hist_of x.0) (λ x. x.1.now) result (read_rule hist_bracket_rule (plains tokens.now)) (length tokens.now) }
{
    match expect(Terminal::Open, tokens) {
        Ok((open, rest)) => {
            if let Some((_, rest)) = accept(Terminal::Close, rest) {
                return whole_history(alloc, open.at, Expr::Unit, rest);
            }
            match history(alloc, rest) {
                Ok((inner, rest)) => read_second(alloc, open, inner, rest),
                Err(halt) => Err(halt),
            }
        }
        Err(halt) => Err(halt),
    }
}

// What stands in a bracket behind its first expression, and the bracket's end.
#[cycle(histories)]
fn read_second<'a>(
    alloc: Global,
    bracket: Plain,
    inner: Hist,
    tokens: &'a [Plain],
) -> Result<(Hist, &'a [Plain]), Halt>
    ensures { Reads (λ x. hist_of x.0) (λ x. x.1.now) result (second_inside (plain_of bracket) (hist_of inner) (plains tokens.now)) (length tokens.now) }
{
    match accept(Terminal::Comma, tokens) {
        Some((_, rest)) => {
            let second = followed_by(Terminal::Close, history(alloc, rest));
            paired(alloc, bracket.at, Terminal::Comma, inner, second)
        }
        None => followed_by(Terminal::Close, Ok((inner, tokens))),
    }
}

/// The historical arguments of a call in their braces, which may be left out.
#[tactic(auto, using(crate::proofs::Steps::plains_length))]
pub fn read_histories<'a>(
    alloc: Global,
    tokens: &'a [Plain],
) -> Result<(Vec<Hist>, &'a [Plain]), Halt>
    ensures given { Gives (λ x. map hist_of x.0.items) (λ x. plains x.1.now) result (read_rule histories_rule (plains tokens.now)) }
    ensures shorter { IfOk result (λ x. length x.1.now ≤ length tokens.now) }
{
    if !starts_with(Terminal::OpenBrace, tokens) {
        return Ok((Vec::new(alloc), tokens));
    }
    let (_, rest) = expect(Terminal::OpenBrace, tokens)?;
    let (found, rest) = read_history_items(alloc, rest)?;
    let (_, rest) = expect(Terminal::CloseBrace, rest)?;
    Ok((found, rest))
}

#[tactic(auto, using(crate::proofs::Steps::plains_length))]
fn read_history_items<'a>(
    alloc: Global,
    tokens: &'a [Plain],
) -> Result<(Vec<Hist>, &'a [Plain]), Halt>
    ensures given { Gives (λ x. map hist_of x.0.items) (λ x. plains x.1.now) result (read_rule history_items_rule (plains tokens.now)) }
    ensures shorter { IfOk result (λ x. length x.1.now < length tokens.now) }
{
    let (first, rest) = read_history(alloc, tokens)?;
    read_more_histories(alloc, first, rest)
}

// The historical expressions behind a first one, each behind a comma.
#[tactic(auto, using(crate::proofs::Steps::plains_length))]
fn read_more_histories<'a>(
    alloc: Global,
    first: Hist,
    tokens: &'a [Plain],
) -> Result<(Vec<Hist>, &'a [Plain]), Halt>
    ensures given { Gives (λ x. map hist_of x.0.items) (λ x. plains x.1.now) result (behind (hist_of first ∷ []) (reading more_histories (plains tokens.now))) }
    ensures shorter { IfOk result (λ x. length x.1.now ≤ length tokens.now) }
{
    let mut found = Vec::new(alloc);
    found.push(first)?;
    let mut at = 0;
    'items: while starts_with(Terminal::Comma, &tokens[at..]) {
        let (next, rest) = match read_history(alloc, &tokens[at + 1..]) {
            Ok(read) => read,
            Err(halt) => return Err(halt),
        };
        found.push(next)?;
        at = tokens.len() - rest.len();
    }
    Ok((found, &tokens[at..]))
}
