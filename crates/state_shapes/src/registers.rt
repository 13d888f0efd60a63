//! Registers: numbers and depths beside keys.

ghost use Rattle.std.specs.Prelude.{◌≡◌};
ghost use Rattle.filled_states.specs.Registers.{number_at, depth_at};
ghost use Rattle.state_shapes.specs.Beside.{beside};

/// Numbers beside keys, and depths beside keys. A key is looked up in turn; what is no key has the first number, and
/// is its own where there is none.
#[derive(Clone, Copy)]
pub struct Registers<'a> {
    /// The keys of numbers.
    pub keys: &'a [i64],
    /// The number beside each.
    pub numbers: &'a [i64],
    /// The keys of depths.
    pub depth_keys: &'a [u64],
    /// The depth beside each.
    pub depths: &'a [u64],
}

/// What stands beside the first key that is this one, where one is.
pub fn beside<T: Copy + PartialEq>(keys: &[T], values: &[T], key: T) -> Option<T>
    ensures { result ≡ beside T.eq keys.now values.now key }
{
    let mut others = values;
    for k in keys {
        let Some((v, rest)) = others.split_first() else {
            return None;
        };
        if *k == key {
            return Some(*v);
        }
        others = rest;
    }
    None
}

/// The number of a key: `number_at` in `filled_states`.
#[tactic(auto, using(crate::proofs::FoundBeside::number_or_first))]
pub fn number_at(keys: &[i64], numbers: &[i64], key: i64) -> i64
    ensures { result ≡ number_at keys.now numbers.now key }
{
    match numbers.first() {
        None => key,
        Some(first) => match beside(keys, numbers, key) {
            Some(number) => number,
            None => *first,
        },
    }
}

/// The depth of a key: `depth_at` in `filled_states`.
#[tactic(auto, using(crate::proofs::FoundBeside::depth_or_first))]
pub fn depth_at(keys: &[u64], depths: &[u64], key: u64) -> u64
    ensures { result ≡ depth_at keys.now depths.now key }
{
    match depths.first() {
        None => key,
        Some(first) => match beside(keys, depths, key) {
            Some(depth) => depth,
            None => *first,
        },
    }
}
