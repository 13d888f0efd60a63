//! Items that are read one behind another.

ghost use Rattle.std.specs.Prelude.{ℕ, List};
ghost use Rattle.delta_keep.specs.Reads.{Pushes};

use crate::halt::Halt;

/// Appends an item that was read, and answers where what is behind it starts.
pub(crate) fn added<T: Drop>(
    items: &mut Vec<T>,
    item: Result<(T, usize), Halt>,
) -> Result<usize, Halt>
    ensures { (behind : ℕ → List ℕ) → Pushes (λ x. x.0) (λ x. behind x.1) (λ n. behind n) items.old.items items.new.items item result }
{
    match item {
        Ok((x, next)) => match items.push(x) {
            Ok(()) => Ok(next),
            Err(_) => Err(Halt::Memory),
        },
        Err(halt) => Err(halt),
    }
}

/// The same of an item that was read into a box.
pub(crate) fn pushed<T: Drop>(
    items: &mut Vec<T>,
    item: Result<(Box<T>, usize), Halt>,
) -> Result<usize, Halt>
    ensures { (behind : ℕ → List ℕ) → Pushes (λ x. x.0.value) (λ x. behind x.1) (λ n. behind n) items.old.items items.new.items item result }
{
    match item {
        Ok((x, next)) => added(items, Ok((Box::into_inner(x), next))),
        Err(halt) => Err(halt),
    }
}
