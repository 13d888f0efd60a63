//! Readers of expressions. What calls back stands here, and `forms_done` makes the forms.

ghost use Rattle.std.specs.Prelude.{◌≤◌, List, [], ◌∷◌, length, map, IfOk};
ghost use Rattle.delta_tree.specs.SyntaxTree.{Expression, WrittenHist};
ghost use Rattle.delta_tree.specs.Tree.{expression_of, head_of, hist_of};
ghost use Rattle.delta_parse.specs.Terminals.{plains};
ghost use Rattle.delta_parse.specs.Parts.{an_expression, a_head, an_application, an_atom, an_ending, the_arms, arguments, more_expressions};
ghost use Rattle.delta_parse.specs.Rules.{let_rule, wait_rule, if_rule, bracket_rule, case_rule, name_rule, sum_arms_rule, star_arms_rule, expressions_rule, expression_items_rule};
ghost use Rattle.delta_parse.specs.Tables.{reading, read_rule};
ghost use Rattle.delta_parse.specs.Readers.{Gives, with_ending, behind, arms_of};
ghost use Rattle.delta_parse.specs.Reads.{Reads};

use crate::cursor::{Halt, accept, expect, place, starts_with, starts_with_either};
use crate::forms_done::{
    Arms, arguments_done, called, called_head, case_done, if_done, let_done, one_done, read_braces,
    read_if_front, read_let_front, star_arms_done, sum_arms_done, two_done, typed_done,
    typed_head_done, wait_done, whole, whole_head,
};
use crate::history_reader::read_histories;
use crate::plain::Plain;
use crate::signs::{followed_by, read_name_between, read_two_names};
use crate::terminal::Terminal;
use bunch::Name;
use delta_tree::{Exp, Form, Head, HeadForm, Hist};
use std::alloc::Global;

/// An expression, and the tokens after it.
#[cycle(expressions)]
pub(crate) fn read_expression<'a>(
    alloc: Global,
    tokens: &'a [Plain],
) -> Result<(Exp, &'a [Plain]), Halt>
    ensures { Reads (λ x. expression_of x.0) (λ x. x.1.now) result (reading an_expression (plains tokens.now)) (length tokens.now) }
{
    if starts_with(Terminal::LetWord, tokens) {
        return read_let(alloc, tokens);
    }
    if starts_with(Terminal::WaitWord, tokens) {
        return read_wait(alloc, tokens);
    }
    if starts_with(Terminal::IfWord, tokens) {
        return read_if(alloc, tokens);
    }
    match read_application(alloc, tokens) {
        Ok((first, rest)) => match accept(Terminal::Colons, rest) {
            Some((_, rest)) => {
                let at = place(tokens);
                two_done(
                    alloc,
                    at,
                    Terminal::Colons,
                    first,
                    read_expression(alloc, rest),
                )
            }
            None => Ok((first, rest)),
        },
        Err(halt) => Err(halt),
    }
}

#[cycle(expressions)]
fn read_let<'a>(alloc: Global, tokens: &'a [Plain]) -> Result<(Exp, &'a [Plain]), Halt>
    ensures { Reads (λ x. expression_of x.0) (λ x. x.1.now) result (read_rule let_rule (plains tokens.now)) (length tokens.now) }
{
    match read_let_front(tokens) {
        Ok((at, pattern, rest)) => match followed_by(Terminal::InWord, read_head(alloc, rest)) {
            Ok((head, rest)) => let_done(alloc, at, pattern, head, read_expression(alloc, rest)),
            Err(halt) => Err(halt),
        },
        Err(halt) => Err(halt),
    }
}

#[cycle(expressions)]
fn read_wait<'a>(alloc: Global, tokens: &'a [Plain]) -> Result<(Exp, &'a [Plain]), Halt>
    ensures { Reads (λ x. expression_of x.0) (λ x. x.1.now) result (read_rule wait_rule (plains tokens.now)) (length tokens.now) }
{
    match read_name_between(Terminal::WaitWord, Terminal::InWord, tokens) {
        Ok((at, name, rest)) => wait_done(alloc, at, name, read_expression(alloc, rest)),
        Err(halt) => Err(halt),
    }
}

#[cycle(expressions)]
fn read_if<'a>(alloc: Global, tokens: &'a [Plain]) -> Result<(Exp, &'a [Plain]), Halt>
    ensures { Reads (λ x. expression_of x.0) (λ x. x.1.now) result (read_rule if_rule (plains tokens.now)) (length tokens.now) }
{
    match read_if_front(alloc, tokens) {
        Ok((at, test, rest)) => match followed_by(
            Terminal::ElseWord,
            read_expression(alloc, rest),
        ) {
            Ok((holds, rest)) => if_done(alloc, at, test, holds, read_expression(alloc, rest)),
            Err(halt) => {
                drop(test);
                Err(halt)
            }
        },
        Err(halt) => Err(halt),
    }
}

#[cycle(expressions)]
fn read_head<'a>(alloc: Global, tokens: &'a [Plain]) -> Result<(Head, &'a [Plain]), Halt>
    ensures { Reads (λ x. head_of x.0) (λ x. x.1.now) result (reading a_head (plains tokens.now)) (length tokens.now) }
{
    if let Some((name, rest)) = accept(Terminal::NameToken, tokens) {
        if starts_with_either(Terminal::OpenBrace, Terminal::Open, rest) {
            return called_head(alloc, name, read_arguments(alloc, rest));
        }
        return whole_head(alloc, name.at, HeadForm::Var(Name(name.name)), rest);
    }
    match expect(Terminal::Open, tokens) {
        Ok((open, rest)) => typed_head_done(alloc, open.at, read_expression(alloc, rest)),
        Err(halt) => Err(halt),
    }
}

#[cycle(expressions)]
fn read_application<'a>(alloc: Global, tokens: &'a [Plain]) -> Result<(Exp, &'a [Plain]), Halt>
    ensures { Reads (λ x. expression_of x.0) (λ x. x.1.now) result (reading an_application (plains tokens.now)) (length tokens.now) }
{
    if let Some((word, rest)) = accept(Terminal::InlWord, tokens) {
        let inner = read_application(alloc, rest);
        return one_done(alloc, word.at, Terminal::InlWord, inner);
    }
    if let Some((word, rest)) = accept(Terminal::InrWord, tokens) {
        let inner = read_application(alloc, rest);
        return one_done(alloc, word.at, Terminal::InrWord, inner);
    }
    read_atom(alloc, tokens)
}

#[cycle(expressions)]
fn read_atom<'a>(alloc: Global, tokens: &'a [Plain]) -> Result<(Exp, &'a [Plain]), Halt>
    ensures { Reads (λ x. expression_of x.0) (λ x. x.1.now) result (reading an_atom (plains tokens.now)) (length tokens.now) }
{
    if starts_with(Terminal::NameToken, tokens) {
        return read_name(alloc, tokens);
    }
    if let Some((word, rest)) = accept(Terminal::EpsWord, tokens) {
        return whole(alloc, word.at, Form::Eps, rest);
    }
    if let Some((word, rest)) = accept(Terminal::NilWord, tokens) {
        return whole(alloc, word.at, Form::Nil, rest);
    }
    if starts_with(Terminal::Open, tokens) {
        return read_bracket(alloc, tokens);
    }
    if starts_with(Terminal::OpenBrace, tokens) {
        return read_braces(alloc, tokens);
    }
    read_case(alloc, tokens)
}

#[cycle(expressions)]
fn read_name<'a>(alloc: Global, tokens: &'a [Plain]) -> Result<(Exp, &'a [Plain]), Halt>
    ensures { Reads (λ x. expression_of x.0) (λ x. x.1.now) result (read_rule name_rule (plains tokens.now)) (length tokens.now) }
{
    match expect(Terminal::NameToken, tokens) {
        Ok((name, rest)) => {
            if starts_with_either(Terminal::OpenBrace, Terminal::Open, rest) {
                called(alloc, name, read_arguments(alloc, rest))
            } else {
                whole(alloc, name.at, Form::Var(Name(name.name)), rest)
            }
        }
        Err(halt) => Err(halt),
    }
}

#[cycle(expressions)]
fn read_bracket<'a>(alloc: Global, tokens: &'a [Plain]) -> Result<(Exp, &'a [Plain]), Halt>
    ensures { Reads (λ x. expression_of x.0) (λ x. x.1.now) result (read_rule bracket_rule (plains tokens.now)) (length tokens.now) }
{
    match expect(Terminal::Open, tokens) {
        Ok((open, rest)) => {
            if let Some((_, rest)) = accept(Terminal::Close, rest) {
                return whole(alloc, open.at, Form::Unit, rest);
            }
            match read_expression(alloc, rest) {
                Ok((inner, rest)) => read_ending(alloc, open.at, inner, rest),
                Err(halt) => Err(halt),
            }
        }
        Err(halt) => Err(halt),
    }
}

// What stands in a bracket behind its first expression, and the bracket's end.
#[cycle(expressions)]
fn read_ending<'a>(
    alloc: Global,
    at: u32,
    inner: Exp,
    tokens: &'a [Plain],
) -> Result<(Exp, &'a [Plain]), Halt>
    ensures { Reads (λ x. expression_of x.0) (λ x. x.1.now) result (with_ending at (expression_of inner) (reading an_ending (plains tokens.now))) (length tokens.now) }
{
    if let Some((_, rest)) = accept(Terminal::Close, tokens) {
        return Ok((inner, rest));
    }
    if let Some((_, rest)) = accept(Terminal::Comma, tokens) {
        let second = followed_by(Terminal::Close, read_expression(alloc, rest));
        return two_done(alloc, at, Terminal::Comma, inner, second);
    }
    if let Some((_, rest)) = accept(Terminal::Semicolon, tokens) {
        let second = followed_by(Terminal::Close, read_expression(alloc, rest));
        return two_done(alloc, at, Terminal::Semicolon, inner, second);
    }
    typed_done(alloc, at, inner, tokens)
}

#[cycle(expressions)]
fn read_case<'a>(alloc: Global, tokens: &'a [Plain]) -> Result<(Exp, &'a [Plain]), Halt>
    ensures { Reads (λ x. expression_of x.0) (λ x. x.1.now) result (read_rule case_rule (plains tokens.now)) (length tokens.now) }
{
    match expect(Terminal::CaseWord, tokens) {
        Ok((word, rest)) => {
            let head = followed_by(Terminal::OfWord, read_head(alloc, rest));
            match followed_by(Terminal::OpenBrace, head) {
                Ok((head, rest)) => {
                    let arms = followed_by(Terminal::CloseBrace, read_arms(alloc, rest));
                    case_done(alloc, word.at, head, arms)
                }
                Err(halt) => Err(halt),
            }
        }
        Err(halt) => Err(halt),
    }
}

// The arms of a case.
#[cycle(expressions)]
fn read_arms<'a>(alloc: Global, tokens: &'a [Plain]) -> Result<(Arms, &'a [Plain]), Halt>
    ensures { Reads (λ x. arms_of x.0) (λ x. x.1.now) result (reading the_arms (plains tokens.now)) (length tokens.now) }
{
    if starts_with(Terminal::InlWord, tokens) {
        return read_sum_arms(alloc, tokens);
    }
    read_star_arms(alloc, tokens)
}

#[cycle(expressions)]
fn read_sum_arms<'a>(alloc: Global, tokens: &'a [Plain]) -> Result<(Arms, &'a [Plain]), Halt>
    ensures { Reads (λ x. arms_of x.0) (λ x. x.1.now) result (read_rule sum_arms_rule (plains tokens.now)) (length tokens.now) }
{
    match read_name_between(Terminal::InlWord, Terminal::Arrow, tokens) {
        Ok((_, x, rest)) => match followed_by(Terminal::Bar, read_expression(alloc, rest)) {
            Ok((left, rest)) => {
                match read_name_between(Terminal::InrWord, Terminal::Arrow, rest) {
                    Ok((_, y, rest)) => sum_arms_done(x, left, y, read_expression(alloc, rest)),
                    Err(halt) => {
                        drop(left);
                        Err(halt)
                    }
                }
            }
            Err(halt) => Err(halt),
        },
        Err(halt) => Err(halt),
    }
}

#[cycle(expressions)]
fn read_star_arms<'a>(alloc: Global, tokens: &'a [Plain]) -> Result<(Arms, &'a [Plain]), Halt>
    ensures { Reads (λ x. arms_of x.0) (λ x. x.1.now) result (read_rule star_arms_rule (plains tokens.now)) (length tokens.now) }
{
    match followed_by(Terminal::Arrow, expect(Terminal::NilWord, tokens)) {
        Ok((_, rest)) => match followed_by(Terminal::Bar, read_expression(alloc, rest)) {
            Ok((over, rest)) => match read_two_names(Terminal::Colons, Terminal::Arrow, rest) {
                Ok((x, xs, rest)) => star_arms_done(over, x, xs, read_expression(alloc, rest)),
                Err(halt) => {
                    drop(over);
                    Err(halt)
                }
            },
            Err(halt) => Err(halt),
        },
        Err(halt) => Err(halt),
    }
}

// The arguments of a call: the historical ones, then those that are streams.
#[cycle(expressions)]
fn read_arguments<'a>(
    alloc: Global,
    tokens: &'a [Plain],
) -> Result<(Vec<Hist>, Vec<Exp>, &'a [Plain]), Halt>
    ensures { Reads {Y = List WrittenHist × List Expression} (λ x. (map hist_of x.0.items, map expression_of x.1.items)) (λ x. x.2.now) result (reading arguments (plains tokens.now)) (length tokens.now) }
{
    match followed_by(Terminal::Open, read_histories(alloc, tokens)) {
        Ok((past, rest)) => arguments_done(past, read_expressions(alloc, rest)),
        Err(halt) => Err(halt),
    }
}

// Arguments that are streams, and the closing bracket.
#[cycle(expressions)]
fn read_expressions<'a>(alloc: Global, tokens: &'a [Plain]) -> Result<(Vec<Exp>, &'a [Plain]), Halt>
    ensures { Reads (λ x. map expression_of x.0.items) (λ x. x.1.now) result (read_rule expressions_rule (plains tokens.now)) (length tokens.now) }
{
    if let Some((_, rest)) = accept(Terminal::Close, tokens) {
        return Ok((Vec::new(alloc), rest));
    }
    followed_by(Terminal::Close, read_expression_items(alloc, tokens))
}

#[cycle(expressions)]
fn read_expression_items<'a>(
    alloc: Global,
    tokens: &'a [Plain],
) -> Result<(Vec<Exp>, &'a [Plain]), Halt>
    ensures { Reads (λ x. map expression_of x.0.items) (λ x. x.1.now) result (read_rule expression_items_rule (plains tokens.now)) (length tokens.now) }
{
    match read_expression(alloc, tokens) {
        Ok((first, rest)) => read_more_expressions(alloc, first, rest),
        Err(halt) => Err(halt),
    }
}

// The expressions behind a first one, each behind a comma.
#[cycle(expressions)]
#[tactic(auto, using(crate::proofs::Steps::expressions_is, crate::proofs::Steps::plains_length))]
fn read_more_expressions<'a>(
    alloc: Global,
    first: Exp,
    tokens: &'a [Plain],
) -> Result<(Vec<Exp>, &'a [Plain]), Halt>
    ensures given { Gives (λ x. map expression_of x.0.items) (λ x. plains x.1.now) result (behind (expression_of first ∷ []) (reading more_expressions (plains tokens.now))) }
    ensures shorter { IfOk result (λ x. length x.1.now ≤ length tokens.now) }
{
    let mut found = Vec::new(alloc);
    found.push(first)?;
    let mut at = 0;
    'items: while starts_with(Terminal::Comma, &tokens[at..]) {
        let (next, rest) = match read_expression(alloc, &tokens[at + 1..]) {
            Ok(read) => read,
            Err(halt) => return Err(halt),
        };
        found.push(next)?;
        at = tokens.len() - rest.len();
    }
    Ok((found, &tokens[at..]))
}
