//! Measures of terms put together from those of their parts.

ghost use Rattle.std.specs.Prelude.{◌≡◌};
ghost use Rattle.delta_bound.specs.Measured.{in_turn, together, either, beside, with_number};

use crate::sizes::{both, greater};
use crate::stop::Stop;

/// Two measures in turn.
pub fn in_turn(
    first: Option<u64>,
    second: Result<Option<u64>, Stop>,
) -> Result<(Option<u64>, Option<u64>), Stop>
    ensures { result ≡ in_turn first second }
{
    match second {
        Ok(b) => Ok((first, b)),
        Err(stop) => Err(stop),
    }
}

/// What a pair can hold: its parts run at a time.
pub fn together(parts: Result<(Option<u64>, Option<u64>), Stop>) -> Result<Option<u64>, Stop>
    ensures { result ≡ together parts }
{
    match parts {
        Ok((a, b)) => Ok(both(a, b)),
        Err(stop) => Err(stop),
    }
}

/// What a let can hold: what it binds, and its body, which run at a time.
pub fn of_let(parts: Result<(Option<u64>, Option<u64>), Stop>) -> Result<Option<u64>, Stop>
    ensures { result ≡ together parts }
{
    match parts {
        Ok((bound, body)) => Ok(both(bound, body)),
        Err(stop) => Err(stop),
    }
}

/// What a sequence or a case can hold: one of its parts runs at a time.
pub fn either(parts: Result<(Option<u64>, Option<u64>), Stop>) -> Result<Option<u64>, Stop>
    ensures { result ≡ either parts }
{
    match parts {
        Ok((a, b)) => Ok(greater(a, b)),
        Err(stop) => Err(stop),
    }
}

/// What can be held while something waits for a part, and by the part.
pub fn beside(waiting: Option<u64>, part: Result<Option<u64>, Stop>) -> Result<Option<u64>, Stop>
    ensures { result ≡ beside waiting part }
{
    match part {
        Ok(b) => Ok(greater(waiting, b)),
        Err(stop) => Err(stop),
    }
}

/// What a call can hold: its arguments, and its function.
pub fn with_number(
    arguments: Result<Option<u64>, Stop>,
    number: Option<u64>,
) -> Result<Option<u64>, Stop>
    ensures { result ≡ with_number arguments number }
{
    match arguments {
        Ok(b) => Ok(both(b, number)),
        Err(stop) => Err(stop),
    }
}
