//! The first steps of every reader: what the next token is.

ghost use Rattle.std.specs.Prelude.{◌≡◌, ◌<◌, ◌∷◌, ◌||◌, true, false, length, IfSome, IfNone, IsTrue};
ghost use Rattle.grammar.specs.Grammar.{place_of};
ghost use Rattle.grammar.specs.Reading.{starts, token_at};
ghost use Rattle.delta_parse.specs.Terminals.{is_kind, plain_of, plains};
ghost use Rattle.delta_parse.specs.Reads.{Reads};
ghost use Rattle.delta_parse.specs.declared.cursor.Halt.TheVariants.{Memory};

use crate::plain::Plain;
use crate::terminal::{Terminal, same_kind};
use std::alloc::{AllocError, AllocFailed};

/// Why a reader stopped: no memory, or so many tokens are left, of which the first doesn't fit.
#[derive(Drop)]
pub enum Halt {
    /// Memory was wanting.
    Memory,
    /// So many tokens are left, and the first of them doesn't fit.
    At(usize),
}

impl From<AllocError> for Halt {
    ghost from_gives = { λ _ e. e ≡ Memory };

    fn from(_e: AllocError) -> Halt {
        Halt::Memory
    }
}

impl<T: Drop> From<AllocFailed<T>> for Halt {
    ghost from_gives = { λ _ e. e ≡ Memory };

    fn from(_e: AllocFailed<T>) -> Halt {
        Halt::Memory
    }
}

/// Whether a token of this kind stands next.
pub(crate) fn starts_with(kind: Terminal, tokens: &[Plain]) -> bool
    ensures value { result ≡ starts (is_kind kind) (plains tokens.now) }
    ensures more { IsTrue result → 0 < length tokens.now }
{
    match tokens {
        [first, ..] => same_kind(kind, first.kind),
        [] => false,
    }
}

/// Whether a token of one of these kinds stands next.
pub(crate) fn starts_with_either(a: Terminal, b: Terminal, tokens: &[Plain]) -> bool
    ensures value { result ≡ starts (λ k. is_kind a k || is_kind b k) (plains tokens.now) }
    ensures more { IsTrue result → 0 < length tokens.now }
{
    match tokens {
        [first, ..] => same_kind(a, first.kind) || same_kind(b, first.kind),
        [] => false,
    }
}

/// The first token and those after it, where it is of this kind.
pub(crate) fn accept<'a>(kind: Terminal, tokens: &'a [Plain]) -> Option<(Plain, &'a [Plain])>
    ensures none { IfNone result (starts (is_kind kind) (plains tokens.now) ≡ false) }
    ensures some { IfSome result (λ x. plains tokens.now ≡ plain_of x.0 ∷ plains x.1.now) }
    ensures kind { IfSome result (λ x. is_kind kind x.0.kind ≡ true) }
    ensures shorter { IfSome result (λ x. length x.1.now < length tokens.now) }
{
    match tokens {
        [first, rest @ ..] if same_kind(kind, first.kind) => Some((*first, rest)),
        _ => None,
    }
}

/// The first token and those after it, where it is of one of these kinds.
pub(crate) fn accept_either<'a>(
    a: Terminal,
    b: Terminal,
    tokens: &'a [Plain],
) -> Option<(Plain, &'a [Plain])>
    ensures none { IfNone result (starts (λ k. is_kind a k || is_kind b k) (plains tokens.now) ≡ false) }
    ensures some { IfSome result (λ x. plains tokens.now ≡ plain_of x.0 ∷ plains x.1.now) }
    ensures kind { IfSome result (λ x. (is_kind a x.0.kind || is_kind b x.0.kind) ≡ true) }
    ensures shorter { IfSome result (λ x. length x.1.now < length tokens.now) }
{
    match tokens {
        [first, rest @ ..] if same_kind(a, first.kind) || same_kind(b, first.kind) => Some((
            *first, rest,
        )),
        _ => None,
    }
}

/// The first token and those after it, which has to be of this kind.
#[tactic(auto, using(crate::proofs::Steps::plains_length))]
pub(crate) fn expect<'a>(kind: Terminal, tokens: &'a [Plain]) -> Result<(Plain, &'a [Plain]), Halt>
    ensures { Reads (λ x. plain_of x.0) (λ x. x.1.now) result (token_at (is_kind kind) (plains tokens.now)) (length tokens.now) }
{
    match tokens {
        [first, rest @ ..] if same_kind(kind, first.kind) => Ok((*first, rest)),
        _ => Err(Halt::At(tokens.len())),
    }
}

/// The place of the first token.
pub(crate) fn place(tokens: &[Plain]) -> u32
    ensures { result ≡ place_of (plains tokens.now) }
{
    match tokens {
        [first, ..] => first.at,
        [] => 0,
    }
}
