//! The part of a bunch at the end of a path.

ghost use Rattle.std.specs.Prelude.{◌≡◌, map, option_map};
ghost use Rattle.bunch.specs.BunchTree.{tree_of};
ghost use Rattle.bunch_rules.specs.Rearranging.{stays_first};
ghost use Rattle.delta_derive.specs.LineText.{turn_of};
ghost use Rattle.delta_derive.specs.Rearranged.{part_at, put_at};

use crate::line::Turn;
use crate::trees::put;
use bunch::Bunch;

/// The part at the end of a path, or None where it leads to none: `part_at` in `specs/Rearranged.antt`.
pub fn part_at<'a>(b: &'a Bunch, path: &[Turn]) -> Option<&'a Bunch>
    ensures { option_map (λ d. tree_of d.now) result ≡ part_at (map turn_of path.now) (tree_of b.now) }
{
    match path.split_first() {
        None => Some(b),
        Some((turn, rest)) => match b {
            Bunch::Empty | Bunch::Leaf(_, _) => None,
            Bunch::Comma(left, right) | Bunch::Semi(left, right) => match turn {
                Turn::Left => part_at(left, rest),
                Turn::Right => part_at(right, rest),
            },
        },
    }
}

/// Puts a part to the end of a path: `put_at` in `specs/Rearranged.antt`.
pub fn put_at(b: &mut Bunch, path: &[Turn], part: Box<Bunch>)
    ensures { tree_of b.new ≡ put_at (map turn_of path.now) (tree_of part.value) (tree_of b.old) }
{
    match path.split_first() {
        None => put(b, part),
        Some((turn, rest)) => match b {
            Bunch::Empty | Bunch::Leaf(_, _) => {}
            Bunch::Comma(left, right) => match turn {
                Turn::Left => put_at(left, rest, part),
                Turn::Right => put_at(right, rest, part),
            },
            Bunch::Semi(left, right) => match turn {
                Turn::Left => put_at(left, rest, part),
                Turn::Right => put_at(right, rest, part),
            },
        },
    }
}

/// Whether a path never goes to the right at a semicolon: `stays_first` in the specs of bunch_rules.
pub fn stays_first(b: &Bunch, path: &[Turn]) -> bool
    ensures { result ≡ stays_first (map turn_of path.now) (tree_of b.now) }
{
    match path.split_first() {
        None => true,
        Some((turn, rest)) => match b {
            Bunch::Empty | Bunch::Leaf(_, _) => true,
            Bunch::Comma(left, right) => match turn {
                Turn::Left => stays_first(left, rest),
                Turn::Right => stays_first(right, rest),
            },
            Bunch::Semi(left, _) => match turn {
                Turn::Left => stays_first(left, rest),
                Turn::Right => false,
            },
        },
    }
}
