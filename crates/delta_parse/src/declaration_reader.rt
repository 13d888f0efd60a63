//! Readers of declarations.

ghost use Rattle.std.specs.Prelude.{◌<◌, ◌≤◌, ℕ, [], ◌∷◌, length, map, IfOk};
ghost use Rattle.delta_tree.specs.SyntaxTree.{WrittenContext, WrittenType};
ghost use Rattle.delta_tree.specs.Tree.{context_of, declaration_of, function_of, past_of, type_tree_of};
ghost use Rattle.delta_parse.specs.Terminals.{plains};
ghost use Rattle.delta_parse.specs.Parts.{declarations, a_declaration, a_main, more_entries};
ghost use Rattle.delta_parse.specs.Rules.{alias_rule, function_rule, given_past_rule, entry_items_rule};
ghost use Rattle.delta_parse.specs.Tables.{reading, read_rule};
ghost use Rattle.delta_parse.specs.Readers.{Gives, behind};
ghost use Rattle.delta_parse.specs.Reads.{Reads, fun_name, headed, header};

use crate::context_reader::{read_bracketed, read_entry, read_named};
use crate::cursor::{Halt, accept, expect, starts_with, starts_with_either};
use crate::expression_reader::read_expression;
use crate::plain::Plain;
use crate::signs::{followed_by, read_name_between};
use crate::terminal::Terminal;
use crate::type_reader::read_sum;
use bunch::Name;
use delta_tree::{Alias, Ctx, Decl, Fun, TyExp};
use std::alloc::Global;

/// The declarations before `main`, and the tokens after them.
#[tactic(auto, using(crate::proofs::Steps::plains_length))]
pub(crate) fn read_declarations<'a>(
    alloc: Global,
    tokens: &'a [Plain],
) -> Result<(Vec<Decl>, &'a [Plain]), Halt>
    ensures given { Gives (λ x. map declaration_of x.0.items) (λ x. plains x.1.now) result (reading declarations (plains tokens.now)) }
    ensures shorter { IfOk result (λ x. length x.1.now ≤ length tokens.now) }
{
    let mut found = Vec::new(alloc);
    let mut at = 0;
    'items: while starts_with_either(Terminal::TypeWord, Terminal::FunWord, &tokens[at..]) {
        let (next, rest) = match read_declaration(alloc, &tokens[at..]) {
            Ok(read) => read,
            Err(halt) => return Err(halt),
        };
        found.push(next)?;
        at = tokens.len() - rest.len();
    }
    Ok((found, &tokens[at..]))
}

fn read_declaration<'a>(alloc: Global, tokens: &'a [Plain]) -> Result<(Decl, &'a [Plain]), Halt>
    ensures { Reads (λ x. declaration_of x.0) (λ x. x.1.now) result (reading a_declaration (plains tokens.now)) (length tokens.now) }
{
    if starts_with(Terminal::TypeWord, tokens) {
        return read_alias(alloc, tokens);
    }
    read_function(alloc, tokens)
}

fn read_alias<'a>(alloc: Global, tokens: &'a [Plain]) -> Result<(Decl, &'a [Plain]), Halt>
    ensures { Reads (λ x. declaration_of x.0) (λ x. x.1.now) result (read_rule alias_rule (plains tokens.now)) (length tokens.now) }
{
    match read_name_between(Terminal::TypeWord, Terminal::Equals, tokens) {
        Ok((at, name, rest)) => match read_sum(alloc, rest) {
            Ok((ty, rest)) => Ok((Decl::Alias(Alias { name, ty, at }), rest)),
            Err(halt) => Err(halt),
        },
        Err(halt) => Err(halt),
    }
}

fn read_function<'a>(alloc: Global, tokens: &'a [Plain]) -> Result<(Decl, &'a [Plain]), Halt>
    ensures { Reads (λ x. declaration_of x.0) (λ x. x.1.now) result (read_rule function_rule (plains tokens.now)) (length tokens.now) }
{
    match read_fun_name(tokens) {
        Ok((at, name, rest)) => match read_past(alloc, rest) {
            Ok((past, rest)) => match read_headed(alloc, at, name, past, rest) {
                Ok((fun, rest)) => Ok((Decl::Fun(fun), rest)),
                Err(halt) => Err(halt),
            },
            Err(halt) => Err(halt),
        },
        Err(halt) => Err(halt),
    }
}

// The word before a function, whose place it has, and the function's name.
fn read_fun_name<'a>(tokens: &'a [Plain]) -> Result<(u32, Name, &'a [Plain]), Halt>
    ensures { Reads (λ x. (x.0, x.1.0)) (λ x. x.2.now) result (fun_name (plains tokens.now)) (length tokens.now) }
{
    match expect(Terminal::FunWord, tokens) {
        Ok((word, rest)) => match expect(Terminal::NameToken, rest) {
            Ok((name, rest)) => Ok((word.at, Name(name.name), rest)),
            Err(halt) => Err(halt),
        },
        Err(halt) => Err(halt),
    }
}

// What stands behind the name of a function, and its historical parameters.
fn read_headed<'a>(
    alloc: Global,
    at: u32,
    name: Name,
    past: Vec<(Name, TyExp)>,
    tokens: &'a [Plain],
) -> Result<(Fun, &'a [Plain]), Halt>
    ensures { Reads (λ x. function_of x.0) (λ x. x.1.now) result (headed at name.0 (map past_of past.items) (plains tokens.now)) (length tokens.now) }
{
    match read_header(alloc, tokens) {
        Ok((ctx, result, rest)) => match read_expression(alloc, rest) {
            Ok((body, rest)) => {
                let fun = Fun {
                    name,
                    past,
                    ctx,
                    result,
                    body,
                    at,
                };
                Ok((fun, rest))
            }
            Err(halt) => {
                drop(past);
                drop(ctx);
                drop(result);
                Err(halt)
            }
        },
        Err(halt) => {
            drop(past);
            Err(halt)
        }
    }
}

// Stream parameters and the type of what a function gives, with the signs behind them.
fn read_header<'a>(alloc: Global, tokens: &'a [Plain]) -> Result<(Ctx, TyExp, &'a [Plain]), Halt>
    ensures { Reads {Y = WrittenContext × WrittenType} (λ x. (context_of x.0, type_tree_of x.1)) (λ x. x.2.now) result (header (plains tokens.now)) (length tokens.now) }
{
    match followed_by(Terminal::Colon, read_bracketed(alloc, tokens)) {
        Ok((ctx, rest)) => match followed_by(Terminal::Equals, read_sum(alloc, rest)) {
            Ok((ty, rest)) => Ok((ctx, ty, rest)),
            Err(halt) => {
                drop(ctx);
                Err(halt)
            }
        },
        Err(halt) => Err(halt),
    }
}

/// The declaration of `main`, whose name still has the number 0, and the tokens after it.
pub(crate) fn read_main<'a>(alloc: Global, tokens: &'a [Plain]) -> Result<(Fun, &'a [Plain]), Halt>
    ensures { Reads (λ x. function_of x.0) (λ x. x.1.now) result (reading a_main (plains tokens.now)) (length tokens.now) }
{
    match expect(Terminal::MainWord, tokens) {
        Ok((word, rest)) => read_headed(alloc, word.at, Name(0), Vec::new(alloc), rest),
        Err(halt) => Err(halt),
    }
}

// The historical parameters, which may be left out.
fn read_past<'a>(
    alloc: Global,
    tokens: &'a [Plain],
) -> Result<(Vec<(Name, TyExp)>, &'a [Plain]), Halt>
    ensures { (n : ℕ) → length tokens.now < n → Reads (λ x. map past_of x.0.items) (λ x. x.1.now) result (read_rule given_past_rule (plains tokens.now)) n }
{
    match accept(Terminal::OpenBrace, tokens) {
        Some((_, rest)) => followed_by(Terminal::CloseBrace, read_entry_items(alloc, rest)),
        None => Ok((Vec::new(alloc), tokens)),
    }
}

fn read_entry_items<'a>(
    alloc: Global,
    tokens: &'a [Plain],
) -> Result<(Vec<(Name, TyExp)>, &'a [Plain]), Halt>
    ensures { Reads (λ x. map past_of x.0.items) (λ x. x.1.now) result (read_rule entry_items_rule (plains tokens.now)) (length tokens.now) }
{
    match read_named(alloc, tokens) {
        Ok((name, ty, rest)) => read_more_entries(alloc, (name, ty), rest),
        Err(halt) => Err(halt),
    }
}

// The historical parameters behind a first one, each behind a comma.
#[tactic(auto, using(crate::proofs::Steps::plains_length))]
fn read_more_entries<'a>(
    alloc: Global,
    first: (Name, TyExp),
    tokens: &'a [Plain],
) -> Result<(Vec<(Name, TyExp)>, &'a [Plain]), Halt>
    ensures given { Gives (λ x. map past_of x.0.items) (λ x. plains x.1.now) result (behind (past_of first ∷ []) (reading more_entries (plains tokens.now))) }
    ensures shorter { IfOk result (λ x. length x.1.now ≤ length tokens.now) }
{
    let mut found = Vec::new(alloc);
    found.push(first)?;
    let mut at = 0;
    'items: while starts_with(Terminal::Comma, &tokens[at..]) {
        let (name, ty, rest) = match read_entry(alloc, &tokens[at + 1..]) {
            Ok(read) => read,
            Err(halt) => return Err(halt),
        };
        found.push((name, ty))?;
        at = tokens.len() - rest.len();
    }
    Ok((found, &tokens[at..]))
}
