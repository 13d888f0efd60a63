//! The prefix that a word stands for.

ghost use Rattle.std.specs.Prelude.{◌≡◌, IfOk};
ghost use Rattle.stream_type.specs.StreamType.{type_of};
ghost use Rattle.stream_prefix.specs.StreamPrefix.{IsPrefix};
ghost use Rattle.stream_prefix.specs.Tree.{prefix_of};
ghost use Rattle.event_word.specs.Word.{IsWord, pre};

use crate::event::Event;
use crate::single::one;
use std::alloc::Global;
use stream_prefix::Prefix;
use stream_type::{Memory, Ty};

/// The prefix of the type that a word of it stands for (`pre` of `specs/Word.antt`). Each event of
/// the word is admitted by what those before it left. Its one error is want of memory.
pub fn prefix_of(alloc: Global, t: &Ty, word: &[Event]) -> Result<Prefix, Memory>
    requires { IsWord (type_of t.now) word.now }
    ensures value { IfOk result (λ p. prefix_of p ≡ pre (type_of t.now) word.now) }
    ensures prefix { IfOk result (λ p. IsPrefix (type_of t.now) (prefix_of p)) }
{
    let mut came = stream_prefix::empty(alloc, t)?;
    let mut left = stream_type::copy(alloc, t)?;
    for x in word {
        let next = one(alloc, &left, x)?;
        left = stream_prefix::derive(alloc, &left, &next)?;
        came = stream_prefix::join(alloc, came, next)?;
    }
    Ok(came)
}
