//! The numbers of functions.

ghost use Rattle.std.specs.Prelude.{◌≡◌};
ghost use Rattle.state_bounds.specs.ProgramBound.{number_at};

/// The number of a function; one that isn't there has none.
pub fn number_of(numbers: &[Option<u64>], f: u32) -> Option<u64>
    ensures { result ≡ number_at numbers.now f }
{
    match numbers.get(f as usize) {
        Some(number) => *number,
        None => None,
    }
}
