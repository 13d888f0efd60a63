//! Where two rows of bounds differ.

ghost use Rattle.std.specs.Prelude.{◌≡◌};
ghost use Rattle.state_bounds.specs.ProgramBound.{first_other, is_same_bound};

/// The first place at which the numbers of both rows differ, up to the end of the shorter: `first_other`
/// in the specs of state_bounds.
pub fn first_other(numbers: &[Option<u64>], next: &[Option<u64>]) -> Option<usize>
    ensures { result ≡ first_other 0 numbers.now next.now }
{
    for (f, number) in numbers.iter().enumerate() {
        match next.get(f) {
            None => return None,
            Some(other) => {
                if !same(*number, *other) {
                    return Some(f);
                }
            }
        }
    }
    None
}

// Whether both bounds are the same.
fn same(a: Option<u64>, b: Option<u64>) -> bool
    ensures { result ≡ is_same_bound a b }
{
    match a {
        None => b.is_none(),
        Some(m) => match b {
            None => false,
            Some(n) => m == n,
        },
    }
}
