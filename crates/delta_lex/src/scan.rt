//! The tokens of a text, by one walk over it.

ghost use Rattle.std.specs.Prelude.{◌≡◌, ℕ, ◌<◌, ◌≤◌, List, length, IfOk, IfErr, MatchResult, Ok, Err};
ghost use Rattle.std.specs.Str.{chars};
ghost use Rattle.delta_lex.specs.Tokens.{HasTokens, AreSlices, AreInOrder, Lexeme, IsCause, IsBadUtf8, MeetsFault, IsRefused, lexemes, lexeme_of, token_of, reading, longest};
ghost use Rattle.delta_lex.specs.declared.fault.LexFault.{LexFault};
ghost use Rattle.delta_lex.specs.declared.fault.LexFault.TheVariants.{Memory, LongText, BadUtf8};

use crate::character::is_word;
use crate::fault::LexFault;
use crate::numeral::number;
use crate::piece::{Piece, piece_of};
use crate::token::{Kind, Token};
use std::alloc::Global;

const LONGEST: usize = 1_048_576;

/// The tokens of a text, in order of place. `HasTokens` of `specs/Tokens.antt` says which they are,
/// and `IsCause` where each fault is the answer: `LongText` first, `BadUtf8` second, and then what
/// comes first in the text. But for `Memory` each text has one answer: the laws say so.
pub fn tokens(alloc: Global, text: &[u8]) -> Result<Vec<Token<'_>>, LexFault>
    ensures found { IfOk result (λ found. HasTokens text.now (lexemes found.items)) }
    ensures slices { IfOk result (λ found. AreSlices text.now (lexemes found.items)) }
    ensures places { IfOk result (λ found. AreInOrder 0 (lexemes found.items)) }
    ensures only_memory { (spelled : List Lexeme) → HasTokens text.now spelled → IfErr result (λ fault. fault ≡ Memory) }
    ensures fault { IfErr result (λ fault. IsCause text.now fault) }
    ensures long { longest < length text.now → result ≡ Err LongText }
    ensures utf8 { (at : ℕ) → IsBadUtf8 text.now at → result ≡ Err (BadUtf8 at) }
    ensures met { (fault : LexFault) → MeetsFault text.now fault → IsRefused result fault }
{
    if text.len() > LONGEST {
        return Err(LexFault::LongText);
    }
    match str::from_utf8(text) {
        Err(error) => Err(LexFault::BadUtf8(error.valid_up_to() as u32)),
        Ok(text) => scan(alloc, text),
    }
}

// The tokens of a text that isn't too long.
fn scan<'a>(alloc: Global, text: &'a str) -> Result<Vec<Token<'a>>, LexFault>
    requires { length text.now ≤ longest }
    ensures found { IfOk result (λ found. reading 0 0 (chars text.now) ≡ Ok (lexemes found.items)) }
    ensures fault { IfErr result (λ fault. (fault ≡ Memory → ⊥) → reading 0 0 (chars text.now) ≡ Err fault) }
{
    let mut found = Vec::new(alloc);
    let mut at = 0;
    'text: loop {
        let rest = &text[at..];
        let mut characters = rest.chars();
        let Some(first) = characters.next() else {
            return Ok(found);
        };
        match piece_of(first, characters.as_str()) {
            Piece::Gap(more) => at += first.len_utf8() + more,
            Piece::Solid(kind, more) => {
                let len = first.len_utf8() + more;
                match token_of(kind, at as u32, &rest[..len]) {
                    Ok(token) => found.push(token)?,
                    Err(fault) => return Err(fault),
                }
                at += len;
            }
            Piece::Stray => return Err(LexFault::BadChar(at as u32)),
        }
    }
}

// The token at a place: a name may be a word, and a number may be too big.
fn token_of<'a>(kind: Kind, at: u32, text: &'a str) -> Result<Token<'a>, LexFault>
    ensures { MatchResult result
        (λ token. token_of kind at text.now ≡ Ok (lexeme_of token))
        (λ fault. token_of kind at text.now ≡ Err fault) }
{
    match kind {
        Kind::Name if is_word(text) => Ok(Token {
            kind: Kind::Word,
            at,
            text,
        }),
        Kind::Number if number(text).is_none() => Err(LexFault::BigNumber(at)),
        _ => Ok(Token { kind, at, text }),
    }
}
