//! Readers of types.

ghost use Rattle.std.specs.Prelude.{◌<◌, ℕ, length, IfOk};
ghost use Rattle.delta_tree.specs.Tree.{type_tree_of};
ghost use Rattle.delta_parse.specs.Terminals.{plains};
ghost use Rattle.delta_parse.specs.Parts.{a_type, a_par, a_cat, a_star, more_stars, a_base};
ghost use Rattle.delta_parse.specs.Tables.{reading};
ghost use Rattle.delta_parse.specs.Readers.{Gives, with_stars};
ghost use Rattle.delta_parse.specs.Reads.{Reads};

use crate::cursor::{Halt, accept, expect, place};
use crate::plain::Plain;
use crate::signs::followed_by;
use crate::terminal::Terminal;
use crate::types_done::{joined, whole_type};
use bunch::Name;
use delta_tree::{TyExp, TyForm, written_type};
use std::alloc::Global;

/// A type, and the tokens after it.
pub fn read_type<'a>(alloc: Global, tokens: &'a [Plain]) -> Result<(TyExp, &'a [Plain]), Halt>
    ensures given { Gives (λ x. type_tree_of x.0) (λ x. plains x.1.now) result (reading a_type (plains tokens.now)) }
    ensures shorter { IfOk result (λ x. length x.1.now < length tokens.now) }
{
    read_sum(alloc, tokens)
}

#[cycle(types)]
pub(crate) fn read_sum<'a>(alloc: Global, tokens: &'a [Plain]) -> Result<(TyExp, &'a [Plain]), Halt>
    ensures { Reads (λ x. type_tree_of x.0) (λ x. x.1.now) result (reading a_type (plains tokens.now)) (length tokens.now) }
{
    match read_par(alloc, tokens) {
        Ok((left, rest)) => match accept(Terminal::Plus, rest) {
            Some((_, rest)) => {
                let right = read_sum(alloc, rest);
                joined(alloc, place(tokens), Terminal::Plus, left, right)
            }
            None => Ok((left, rest)),
        },
        Err(halt) => Err(halt),
    }
}

#[cycle(types)]
fn read_par<'a>(alloc: Global, tokens: &'a [Plain]) -> Result<(TyExp, &'a [Plain]), Halt>
    ensures { Reads (λ x. type_tree_of x.0) (λ x. x.1.now) result (reading a_par (plains tokens.now)) (length tokens.now) }
{
    match read_cat(alloc, tokens) {
        Ok((left, rest)) => match accept(Terminal::Bars, rest) {
            Some((_, rest)) => {
                let right = read_par(alloc, rest);
                joined(alloc, place(tokens), Terminal::Bars, left, right)
            }
            None => Ok((left, rest)),
        },
        Err(halt) => Err(halt),
    }
}

#[cycle(types)]
fn read_cat<'a>(alloc: Global, tokens: &'a [Plain]) -> Result<(TyExp, &'a [Plain]), Halt>
    ensures { Reads (λ x. type_tree_of x.0) (λ x. x.1.now) result (reading a_cat (plains tokens.now)) (length tokens.now) }
{
    match read_star(alloc, tokens) {
        Ok((left, rest)) => match accept(Terminal::Dot, rest) {
            Some((_, rest)) => {
                let right = read_cat(alloc, rest);
                joined(alloc, place(tokens), Terminal::Dot, left, right)
            }
            None => Ok((left, rest)),
        },
        Err(halt) => Err(halt),
    }
}

#[cycle(types)]
fn read_star<'a>(alloc: Global, tokens: &'a [Plain]) -> Result<(TyExp, &'a [Plain]), Halt>
    ensures { Reads (λ x. type_tree_of x.0) (λ x. x.1.now) result (reading a_star (plains tokens.now)) (length tokens.now) }
{
    match read_base(alloc, tokens) {
        Ok((base, rest)) => read_stars(alloc, place(tokens), base, rest),
        Err(halt) => Err(halt),
    }
}

// The stars behind a type.
fn read_stars<'a>(
    alloc: Global,
    at: u32,
    so_far: TyExp,
    tokens: &'a [Plain],
) -> Result<(TyExp, &'a [Plain]), Halt>
    ensures { (n : ℕ) → length tokens.now < n → Reads (λ x. type_tree_of x.0) (λ x. x.1.now) result (with_stars at (type_tree_of so_far) (reading more_stars (plains tokens.now))) n }
{
    match accept(Terminal::Times, tokens) {
        Some((_, rest)) => match written_type(alloc, at, TyForm::Star(so_far)) {
            Ok(starred) => read_stars(alloc, at, starred, rest),
            Err(_) => Err(Halt::Memory),
        },
        None => Ok((so_far, tokens)),
    }
}

#[cycle(types)]
fn read_base<'a>(alloc: Global, tokens: &'a [Plain]) -> Result<(TyExp, &'a [Plain]), Halt>
    ensures { Reads (λ x. type_tree_of x.0) (λ x. x.1.now) result (reading a_base (plains tokens.now)) (length tokens.now) }
{
    if let Some((token, rest)) = accept(Terminal::EpsWord, tokens) {
        return whole_type(alloc, token.at, TyForm::Eps, rest);
    }
    if let Some((token, rest)) = accept(Terminal::OneToken, tokens) {
        return whole_type(alloc, token.at, TyForm::One, rest);
    }
    if let Some((token, rest)) = accept(Terminal::IntWord, tokens) {
        return whole_type(alloc, token.at, TyForm::Int, rest);
    }
    if let Some((token, rest)) = accept(Terminal::NameToken, tokens) {
        return whole_type(alloc, token.at, TyForm::Named(Name(token.name)), rest);
    }
    match expect(Terminal::Open, tokens) {
        Ok((_, rest)) => followed_by(Terminal::Close, read_sum(alloc, rest)),
        Err(halt) => Err(halt),
    }
}
