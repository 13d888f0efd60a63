//! The tree of a program's tokens.

ghost use Rattle.std.specs.Prelude.{◌≡◌, ◌≤◌, ◌+◌, map, length, string_bytes, IfOk, IfErr};
ghost use Rattle.delta_lex.specs.Tokens.{lexemes};
ghost use Rattle.delta_tree.specs.Tree.{program_of, declaration_of, function_of};
ghost use Rattle.delta_parse.specs.Plain.{grammar_tokens};
ghost use Rattle.delta_parse.specs.Programs.{tree_with};
ghost use Rattle.delta_parse.specs.Places.{place_at, AreOfText, AreShort};
ghost use Rattle.delta_parse.specs.Causes.{Belongs, IsCause, IsComplaint};

use crate::checked_reader::{Complaint, read_checked};
use crate::fault::ParseFault;
use crate::numbering::plain_tokens;
use bunch::Name;
use delta_lex::Token;
use delta_tree::{Decl, Fun, Program};
use std::alloc::Global;

/// The program that the tokens of a text are. `Belongs` of `specs/Causes.antt` says which it is:
/// the grammar of `specs/Rules.antt` derives it, its names are numbered in order of first
/// appearance, no more than 64 marks are open before a token, and names that are declared or bound
/// together are distinct and no more than there may be. `IsCause` says when each fault is the
/// answer. The laws say that but for `Memory` tokens have one answer.
pub fn parse(alloc: Global, tokens: &[Token<'_>]) -> Result<Program, ParseFault>
    requires { AreOfText (lexemes tokens.now) }
    ensures found { IfOk result (λ p. Belongs (lexemes tokens.now) (program_of p)) }
    ensures fault { IfErr result (λ fault. IsCause (lexemes tokens.now) fault) }
{
    let (plain, names) = plain_tokens(alloc, tokens)?;
    match read_checked(alloc, &plain) {
        Ok((decls, main)) => Ok(program(names, decls, main)),
        Err(complaint) => Err(fault_of(tokens, complaint)),
    }
}

// The program of declarations and `main`, whose name gets the number behind those of all names.
fn program(names: Vec<String>, decls: Vec<Decl>, main: Fun) -> Program
    requires { length names.items ≤ 1048576 }
    ensures { program_of result ≡ tree_with (map string_bytes names.items) (map declaration_of decls.items) (function_of main) }
{
    let mut main = main;
    main.name = Name(names.len() as u32);
    Program { names, decls, main }
}

// The fault with its place.
fn fault_of(tokens: &[Token<'_>], complaint: Complaint) -> ParseFault
    requires short { AreShort (lexemes tokens.now) }
    requires complaint { IsComplaint (grammar_tokens (lexemes tokens.now)) complaint }
    ensures { IsCause (lexemes tokens.now) result }
{
    match complaint {
        Complaint::Memory => ParseFault::Memory,
        Complaint::Deep(n) => ParseFault::Deep(place_at(tokens, n)),
        Complaint::Unexpected(n) => ParseFault::Expected(place_at(tokens, n)),
        Complaint::Twice(n) => ParseFault::Twice(place_at(tokens, n)),
        Complaint::Many(n) => ParseFault::Many(place_at(tokens, n)),
        Complaint::NoMain => ParseFault::NoMain(place_at(tokens, tokens.len())),
    }
}

// The place of token number n, or that of the tokens' end.
fn place_at(tokens: &[Token<'_>], n: usize) -> u32
    requires { AreShort (lexemes tokens.now) }
    ensures { result ≡ place_at (lexemes tokens.now) n }
{
    if n < tokens.len() {
        return tokens[n].at;
    }
    if tokens.is_empty() {
        return 0;
    }
    end_of(&tokens[tokens.len() - 1])
}

// The place behind the token's last byte.
fn end_of(token: &Token<'_>) -> u32
    requires { token.now.at + length token.now.text.now ≤ 1048576 }
    ensures { result ≡ token.now.at + length token.now.text.now }
{
    token.at + token.text.len() as u32
}
