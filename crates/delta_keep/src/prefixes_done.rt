//! Prefixes of what was read behind their forms: where a part stops, the whole does.
//!
//! Nothing here calls back, so the reader that goes through a prefix has little more than its calls.

ghost use Rattle.std.specs.Prelude.{◌≡◌, ◌⊎◌, ℕ, List, [], ◌∷◌, ◌++◌, Some, drop};
ghost use Rattle.stream_prefix.specs.Tree.{prefix_of};
ghost use Rattle.kept_state.specs.KeptBytes.{prefix_bytes};
ghost use Rattle.kept_state.specs.KeptForm.{prefix_kind, form, after_byte};
ghost use Rattle.kept_state.specs.KeptSizes.{FitsPrefix};
ghost use Rattle.delta_keep.specs.Reads.{Reads};

use crate::halt::Halt;
use crate::read_numbers::{boxed, read_int};
use std::alloc::Global;
use stream_prefix::Prefix;

/// A number, behind its form.
#[inline(never)]
pub(crate) fn read_number(
    alloc: Global,
    bytes: &[u8],
    start: usize,
) -> Result<(Box<Prefix>, usize), Halt>
    ensures { Reads (form prefix_kind ∷ []) (4 ∷ drop start bytes.now) (λ x. prefix_bytes (prefix_of x.0.value)) (λ x. drop x.1 bytes.now) (λ x. FitsPrefix (prefix_of x.0.value)) result }
{
    match read_int(bytes, start) {
        Ok((n, next)) => boxed(alloc, Prefix::IntFull(n), next),
        Err(halt) => Err(halt),
    }
}

/// What has one part: this form, behind which the part was read.
#[inline(never)]
pub(crate) fn one_done(
    alloc: Global,
    n: u8,
    inside: Result<(Box<Prefix>, usize), Halt>,
) -> Result<(Box<Prefix>, usize), Halt>
    requires { (n ≡ 6) ⊎ ((n ≡ 9) ⊎ (n ≡ 10)) }
    ensures { (bytes : List ℕ) → (behind : ℕ → List ℕ) → after_byte (form prefix_kind ∷ []) n ≡ Some (form prefix_kind ∷ []) → Reads (form prefix_kind ∷ []) bytes (λ x. prefix_bytes (prefix_of x.0.value)) (λ x. behind x.1) (λ x. FitsPrefix (prefix_of x.0.value)) inside → Reads (form prefix_kind ∷ []) (n ∷ bytes) (λ x. prefix_bytes (prefix_of x.0.value)) (λ x. behind x.1) (λ x. FitsPrefix (prefix_of x.0.value)) result }
{
    match inside {
        Ok((a, next)) => boxed(alloc, one_of(n, a), next),
        Err(halt) => Err(halt),
    }
}

// The form with this number.
fn one_of(n: u8, a: Box<Prefix>) -> Prefix
    requires { (n ≡ 6) ⊎ ((n ≡ 9) ⊎ (n ≡ 10)) }
    ensures bytes { prefix_bytes (prefix_of result) ≡ n ∷ prefix_bytes (prefix_of a.value) }
    ensures sizes { FitsPrefix (prefix_of a.value) → FitsPrefix (prefix_of result) }
{
    match n {
        6 => Prefix::CatFst(a),
        9 => Prefix::Inl(a),
        _ => Prefix::Inr(a),
    }
}

/// What has two parts: this form, behind which both were read.
#[inline(never)]
pub(crate) fn two_done(
    alloc: Global,
    n: u8,
    inside: Result<(Box<Prefix>, Box<Prefix>, usize), Halt>,
) -> Result<(Box<Prefix>, usize), Halt>
    requires { (n ≡ 5) ⊎ (n ≡ 7) }
    ensures { (bytes : List ℕ) → (behind : ℕ → List ℕ) → after_byte (form prefix_kind ∷ []) n ≡ Some (form prefix_kind ∷ form prefix_kind ∷ []) → Reads (form prefix_kind ∷ form prefix_kind ∷ []) bytes (λ x. prefix_bytes (prefix_of x.0.value) ++ prefix_bytes (prefix_of x.1.value)) (λ x. behind x.2) (λ x. FitsPrefix (prefix_of x.0.value) × FitsPrefix (prefix_of x.1.value)) inside → Reads (form prefix_kind ∷ []) (n ∷ bytes) (λ x. prefix_bytes (prefix_of x.0.value)) (λ x. behind x.1) (λ x. FitsPrefix (prefix_of x.0.value)) result }
{
    match inside {
        Ok((a, b, next)) => boxed(alloc, two_of(n, a, b), next),
        Err(halt) => Err(halt),
    }
}

// The form with this number.
fn two_of(n: u8, a: Box<Prefix>, b: Box<Prefix>) -> Prefix
    requires { (n ≡ 5) ⊎ (n ≡ 7) }
    ensures bytes { prefix_bytes (prefix_of result) ≡ n ∷ prefix_bytes (prefix_of a.value) ++ prefix_bytes (prefix_of b.value) }
    ensures sizes { FitsPrefix (prefix_of a.value) × FitsPrefix (prefix_of b.value) → FitsPrefix (prefix_of result) }
{
    match n {
        5 => Prefix::Par(a, b),
        _ => Prefix::CatBoth(a, b),
    }
}
