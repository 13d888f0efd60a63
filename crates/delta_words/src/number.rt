//! Numbers on a command line.

ghost use Rattle.std.specs.Prelude.{◌≡◌, ◌<◌, ◌^◌};
ghost use Rattle.delta_words.specs.Gives.{Gives};
ghost use Rattle.delta_words.specs.Numbers.{number_within, schedule_of};

use crate::fault::WordsFault;
use std::alloc::Global;

/// The number that a word of at most `most` digits is, up to a limit. Needless zeros count as digits.
pub fn number(word: &[u8], most: usize, limit: u64) -> Option<u64>
    requires { limit < 2 ^ 32 }
    ensures { result ≡ number_within most limit word.now }
{
    if word.is_empty() || word.len() > most {
        return None;
    }
    let mut value: u64 = 0;
    for byte in word {
        if !byte.is_ascii_digit() {
            return None;
        }
        value = value * 10 + u64::from(*byte - b'0');
        if value > limit {
            return None;
        }
    }
    Some(value)
}

/// The numbers that a word of one to 64 digits names, a digit each, where each is below so many tables.
pub fn schedule(alloc: Global, word: &[u8], tables: usize) -> Result<Vec<u32>, WordsFault>
    ensures { Gives (λ numbers. numbers.items) result (schedule_of tables word.now) }
{
    if word.is_empty() || word.len() > 64 {
        return Err(WordsFault::Usage);
    }
    let mut numbers = Vec::new(alloc);
    for byte in word {
        if !byte.is_ascii_digit() {
            return Err(WordsFault::Usage);
        }
        let number = *byte - b'0';
        if usize::from(number) >= tables {
            return Err(WordsFault::Usage);
        }
        numbers.push(u32::from(number))?;
    }
    Ok(numbers)
}
