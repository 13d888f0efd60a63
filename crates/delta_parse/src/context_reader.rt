//! Readers of parameters.

ghost use Rattle.std.specs.Prelude.{◌<◌, ℕ, length, IfOk};
ghost use Rattle.delta_tree.specs.SyntaxTree.{WrittenType};
ghost use Rattle.delta_tree.specs.Tree.{context_of, type_tree_of};
ghost use Rattle.delta_parse.specs.Terminals.{plains};
ghost use Rattle.delta_parse.specs.Parts.{parameters, a_context, more_commas, more_semicolons, an_item, an_entry};
ghost use Rattle.delta_parse.specs.Tables.{reading};
ghost use Rattle.delta_parse.specs.Readers.{Gives};
ghost use Rattle.delta_parse.specs.Reads.{Reads};

use crate::contexts_done::joined;
use crate::cursor::{Halt, accept, expect, starts_with};
use crate::plain::Plain;
use crate::signs::followed_by;
use crate::terminal::Terminal;
use crate::type_reader::read_sum;
use bunch::Name;
use delta_tree::{Ctx, TyExp};
use std::alloc::Global;

// The stream parameters of a function in their brackets, and the tokens after them.
pub(crate) fn read_bracketed<'a>(
    alloc: Global,
    tokens: &'a [Plain],
) -> Result<(Ctx, &'a [Plain]), Halt>
    ensures { Reads (λ x. context_of x.0) (λ x. x.1.now) result (reading parameters (plains tokens.now)) (length tokens.now) }
{
    match expect(Terminal::Open, tokens) {
        Ok((_, rest)) => match accept(Terminal::Close, rest) {
            Some((_, rest)) => Ok((Ctx::Empty, rest)),
            None => followed_by(Terminal::Close, read_context(alloc, rest)),
        },
        Err(halt) => Err(halt),
    }
}

/// A name and its type behind a colon, and the tokens after them.
pub fn read_entry<'a>(
    alloc: Global,
    tokens: &'a [Plain],
) -> Result<(Name, TyExp, &'a [Plain]), Halt>
    ensures given { Gives (λ x. (x.0.0, type_tree_of x.1)) (λ x. plains x.2.now) result (reading an_entry (plains tokens.now)) }
    ensures shorter { IfOk result (λ x. length x.2.now < length tokens.now) }
{
    read_named(alloc, tokens)
}

pub(crate) fn read_named<'a>(
    alloc: Global,
    tokens: &'a [Plain],
) -> Result<(Name, TyExp, &'a [Plain]), Halt>
    ensures { Reads {Y = ℕ × WrittenType} (λ x. (x.0.0, type_tree_of x.1)) (λ x. x.2.now) result (reading an_entry (plains tokens.now)) (length tokens.now) }
{
    match followed_by(Terminal::Colon, expect(Terminal::NameToken, tokens)) {
        Ok((name, rest)) => match read_sum(alloc, rest) {
            Ok((ty, rest)) => Ok((Name(name.name), ty, rest)),
            Err(halt) => Err(halt),
        },
        Err(halt) => Err(halt),
    }
}

#[cycle(contexts)]
fn read_context<'a>(alloc: Global, tokens: &'a [Plain]) -> Result<(Ctx, &'a [Plain]), Halt>
    ensures { Reads (λ x. context_of x.0) (λ x. x.1.now) result (reading a_context (plains tokens.now)) (length tokens.now) }
{
    match read_item(alloc, tokens) {
        Ok((first, rest)) => {
            if let Some((sign, rest)) = accept(Terminal::Comma, rest) {
                return joined(alloc, sign.kind, first, read_commas(alloc, rest));
            }
            if let Some((sign, rest)) = accept(Terminal::Semicolon, rest) {
                return joined(alloc, sign.kind, first, read_semicolons(alloc, rest));
            }
            Ok((first, rest))
        }
        Err(halt) => Err(halt),
    }
}

#[cycle(contexts)]
fn read_commas<'a>(alloc: Global, tokens: &'a [Plain]) -> Result<(Ctx, &'a [Plain]), Halt>
    ensures { Reads (λ x. context_of x.0) (λ x. x.1.now) result (reading more_commas (plains tokens.now)) (length tokens.now) }
{
    match read_item(alloc, tokens) {
        Ok((first, rest)) => match accept(Terminal::Comma, rest) {
            Some((sign, rest)) => joined(alloc, sign.kind, first, read_commas(alloc, rest)),
            None => Ok((first, rest)),
        },
        Err(halt) => Err(halt),
    }
}

#[cycle(contexts)]
fn read_semicolons<'a>(alloc: Global, tokens: &'a [Plain]) -> Result<(Ctx, &'a [Plain]), Halt>
    ensures { Reads (λ x. context_of x.0) (λ x. x.1.now) result (reading more_semicolons (plains tokens.now)) (length tokens.now) }
{
    match read_item(alloc, tokens) {
        Ok((first, rest)) => match accept(Terminal::Semicolon, rest) {
            Some((sign, rest)) => joined(alloc, sign.kind, first, read_semicolons(alloc, rest)),
            None => Ok((first, rest)),
        },
        Err(halt) => Err(halt),
    }
}

#[cycle(contexts)]
fn read_item<'a>(alloc: Global, tokens: &'a [Plain]) -> Result<(Ctx, &'a [Plain]), Halt>
    ensures { Reads (λ x. context_of x.0) (λ x. x.1.now) result (reading an_item (plains tokens.now)) (length tokens.now) }
{
    if starts_with(Terminal::NameToken, tokens) {
        return match read_named(alloc, tokens) {
            Ok((name, ty, rest)) => Ok((Ctx::Leaf(name, ty), rest)),
            Err(halt) => Err(halt),
        };
    }
    match expect(Terminal::Open, tokens) {
        Ok((_, rest)) => followed_by(Terminal::Close, read_context(alloc, rest)),
        Err(halt) => Err(halt),
    }
}
