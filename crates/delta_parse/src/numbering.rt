//! From the tokens of a text to those that the grammar sees.

ghost use Rattle.std.specs.Prelude.{◌≡◌, ◌<◌, ◌≤◌, ◌≤ℤ◌, ◌++◌, ◌∷◌, [], pos, map, length, IfOk, OnOk, string_bytes};
ghost use Rattle.std.specs.List.{position_or_len};
ghost use Rattle.std.specs.Str.{bytes_eq};
ghost use Rattle.delta_lex.specs.Tokens.{lexeme_of, lexemes};
ghost use Rattle.delta_parse.specs.Terminals.{plain_of, plains};
ghost use Rattle.delta_parse.specs.Plain.{word_of, sign_of, numeral_of, terminal_of, with_name, with_text, name_of, worth_of, grammar_tokens, names_in, texts_of, token_with, add_name};

use crate::plain::Plain;
use crate::terminal::Terminal;
use delta_lex::{Kind, Token, number};
use indexmap::IndexSet;
use std::alloc::{AllocError, Global};

/// The tokens as the grammar sees them, and the texts of the names in the order in which they first
/// stand there.
pub fn plain_tokens(
    alloc: Global,
    tokens: &[Token<'_>],
) -> Result<(Vec<Plain>, Vec<String>), AllocError>
    requires { length tokens.now ≤ 1048576 }
    ensures plain { IfOk result (λ r. plains r.0.items ≡ grammar_tokens (lexemes tokens.now)) }
    ensures names { IfOk result (λ r. map string_bytes r.1.items ≡ names_in (lexemes tokens.now)) }
    ensures few { IfOk result (λ r. length r.1.items ≤ length tokens.now) }
{
    let mut found = Vec::new(alloc);
    let mut names = IndexSet::new(alloc);
    let mut texts = Vec::new(alloc);
    for token in tokens {
        put_token(alloc, &mut names, &mut texts, &mut found, token)?;
    }
    Ok((found, texts))
}

// Puts the token as the grammar sees it behind those that were found, and its name behind the names where it
// isn't among them.
fn put_token<'t>(
    alloc: Global,
    names: &mut IndexSet<&'t str>,
    texts: &mut Vec<String>,
    found: &mut Vec<Plain>,
    token: &Token<'t>,
) -> Result<(), AllocError>
    requires few { length (texts_of names.old) < 1048577 }
    requires same { map string_bytes texts.old.items ≡ texts_of names.old }
    ensures plain { OnOk result (plains found.new.items ≡ plains found.old.items ++ (token_with (texts_of names.old) (lexeme_of token.now) ∷ [])) }
    ensures names { OnOk result (texts_of names.new ≡ add_name (texts_of names.old) (lexeme_of token.now)) }
    ensures same { OnOk result (map string_bytes texts.new.items ≡ texts_of names.new) }
{
    let plain = plain_token(alloc, names, texts, token)?;
    Ok(found.push(plain)?)
}

// The token as the grammar sees it. Its name is put behind the names where it isn't among them.
fn plain_token<'t>(
    alloc: Global,
    names: &mut IndexSet<&'t str>,
    texts: &mut Vec<String>,
    token: &Token<'t>,
) -> Result<Plain, AllocError>
    requires few { length (texts_of names.old) < 1048577 }
    requires same { map string_bytes texts.old.items ≡ texts_of names.old }
    ensures plain { IfOk result (λ p. plain_of p ≡ token_with (texts_of names.old) (lexeme_of token.now)) }
    ensures names { OnOk result (texts_of names.new ≡ add_name (texts_of names.old) (lexeme_of token.now)) }
    ensures same { OnOk result (map string_bytes texts.new.items ≡ texts_of names.new) }
{
    let name = name_number(alloc, names, texts, token.kind, token.text)?;
    Ok(Plain {
        kind: terminal(token.kind, token.text),
        at: token.at,
        name,
        number: worth(token.kind, token.text),
    })
}

// The number of the token's name, which is put behind the names where it isn't among them.
fn name_number<'t>(
    alloc: Global,
    names: &mut IndexSet<&'t str>,
    texts: &mut Vec<String>,
    kind: Kind,
    text: &'t str,
) -> Result<u32, AllocError>
    requires few { length (texts_of names.old) < 1048577 }
    requires same { map string_bytes texts.old.items ≡ texts_of names.old }
    ensures number { IfOk result (λ n. n ≡ name_of (texts_of names.old) kind text.now) }
    ensures names { OnOk result (texts_of names.new ≡ with_name (texts_of names.old) kind text.now) }
    ensures same { OnOk result (map string_bytes texts.new.items ≡ texts_of names.new) }
{
    match kind {
        Kind::Name => put_name(alloc, names, texts, text),
        Kind::Word | Kind::Number | Kind::Sign => Ok(0),
    }
}

// The number of the name, which is put behind the names where it isn't among them.
#[tactic(auto, using(crate::proofs::NameSets::added_texts, crate::proofs::NameSets::same_place, crate::proofs::NameSets::same_test))]
fn put_name<'t>(
    alloc: Global,
    names: &mut IndexSet<&'t str>,
    texts: &mut Vec<String>,
    text: &'t str,
) -> Result<u32, AllocError>
    requires few { length (texts_of names.old) < 1048577 }
    requires same { map string_bytes texts.old.items ≡ texts_of names.old }
    ensures number { IfOk result (λ n. n ≡ position_or_len (bytes_eq text.now) (texts_of names.old)) }
    ensures names { OnOk result (texts_of names.new ≡ with_text (texts_of names.old) text.now) }
    ensures same { OnOk result (map string_bytes texts.new.items ≡ texts_of names.new) }
{
    let (place, added) = names.insert_full(text)?;
    if !added {
        return Ok(place as u32);
    }
    texts.push(String::from_str(alloc, text)?)?;
    Ok(place as u32)
}

// What the token is to the grammar.
fn terminal(kind: Kind, text: &str) -> Terminal
    ensures { result ≡ terminal_of kind text.now }
{
    match kind {
        Kind::Name => Terminal::NameToken,
        Kind::Word => word(text),
        Kind::Number => numeral(text),
        Kind::Sign => sign(text),
    }
}

// What a number writes, and 0 of any other token.
fn worth(kind: Kind, text: &str) -> i64
    ensures value { result ≡ worth_of kind text.now }
    ensures not_negative { pos 0 ≤ℤ result }
{
    match kind {
        Kind::Number => number(text).unwrap_or(0),
        Kind::Name | Kind::Word | Kind::Sign => 0,
    }
}

fn numeral(text: &str) -> Terminal
    ensures { result ≡ numeral_of text.now }
{
    match text {
        "1" => Terminal::OneToken,
        _ => Terminal::NumberToken,
    }
}

fn word(text: &str) -> Terminal
    ensures { result ≡ word_of text.now }
{
    match text {
        "fun" => Terminal::FunWord,
        "main" => Terminal::MainWord,
        "type" => Terminal::TypeWord,
        "let" => Terminal::LetWord,
        "in" => Terminal::InWord,
        "case" => Terminal::CaseWord,
        "of" => Terminal::OfWord,
        "inl" => Terminal::InlWord,
        "inr" => Terminal::InrWord,
        "nil" => Terminal::NilWord,
        "wait" => Terminal::WaitWord,
        "eps" => Terminal::EpsWord,
        "if" => Terminal::IfWord,
        "then" => Terminal::ThenWord,
        "else" => Terminal::ElseWord,
        "fold" => Terminal::FoldWord,
        "from" => Terminal::FromWord,
        "with" => Terminal::WithWord,
        "Int" => Terminal::IntWord,
        "fst" => Terminal::FstWord,
        "snd" => Terminal::SndWord,
        _ => Terminal::Other,
    }
}

fn sign(text: &str) -> Terminal
    ensures { result ≡ sign_of text.now }
{
    match text {
        "(" => Terminal::Open,
        ")" => Terminal::Close,
        "{" => Terminal::OpenBrace,
        "}" => Terminal::CloseBrace,
        "," => Terminal::Comma,
        ";" => Terminal::Semicolon,
        ":" => Terminal::Colon,
        "::" => Terminal::Colons,
        "=" => Terminal::Equals,
        "=>" => Terminal::Arrow,
        "|" => Terminal::Bar,
        "||" => Terminal::Bars,
        "+" => Terminal::Plus,
        "-" => Terminal::Minus,
        "*" => Terminal::Times,
        "/" => Terminal::Slash,
        "<" => Terminal::Less,
        "." => Terminal::Dot,
        _ => Terminal::Other,
    }
}
