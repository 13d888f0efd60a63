//! Values of what was read behind their forms: where a part stops, the whole does.
//!
//! Nothing here calls back, so the reader that goes through a value has little more than its calls.

ghost use Rattle.std.specs.Prelude.{◌≡◌, ◌⊎◌, ℕ, List, [], ◌∷◌, ◌++◌, Some, drop};
ghost use Rattle.hist_value.specs.HistValue.{hist_value_of};
ghost use Rattle.kept_state.specs.KeptBytes.{value_bytes};
ghost use Rattle.kept_state.specs.KeptForm.{value_kind, form, after_byte};
ghost use Rattle.kept_state.specs.KeptSizes.{FitsValue};
ghost use Rattle.delta_keep.specs.Reads.{Reads};

use crate::halt::Halt;
use crate::read_numbers::{boxed, read_int};
use hist_value::Value;
use std::alloc::Global;

/// A number, behind its form.
#[inline(never)]
pub(crate) fn read_number(
    alloc: Global,
    bytes: &[u8],
    start: usize,
) -> Result<(Box<Value>, usize), Halt>
    ensures { Reads (form value_kind ∷ []) (1 ∷ drop start bytes.now) (λ x. value_bytes (hist_value_of x.0.value)) (λ x. drop x.1 bytes.now) (λ x. FitsValue (hist_value_of x.0.value)) result }
{
    match read_int(bytes, start) {
        Ok((n, next)) => boxed(alloc, Value::Int(n), next),
        Err(halt) => Err(halt),
    }
}

/// What has one part: this form, behind which the part was read.
#[inline(never)]
pub(crate) fn one_done(
    alloc: Global,
    n: u8,
    inside: Result<(Box<Value>, usize), Halt>,
) -> Result<(Box<Value>, usize), Halt>
    requires { (n ≡ 3) ⊎ (n ≡ 4) }
    ensures { (bytes : List ℕ) → (behind : ℕ → List ℕ) → after_byte (form value_kind ∷ []) n ≡ Some (form value_kind ∷ []) → Reads (form value_kind ∷ []) bytes (λ x. value_bytes (hist_value_of x.0.value)) (λ x. behind x.1) (λ x. FitsValue (hist_value_of x.0.value)) inside → Reads (form value_kind ∷ []) (n ∷ bytes) (λ x. value_bytes (hist_value_of x.0.value)) (λ x. behind x.1) (λ x. FitsValue (hist_value_of x.0.value)) result }
{
    match inside {
        Ok((a, next)) => boxed(alloc, one_of(n, a), next),
        Err(halt) => Err(halt),
    }
}

// The form with this number.
fn one_of(n: u8, a: Box<Value>) -> Value
    requires { (n ≡ 3) ⊎ (n ≡ 4) }
    ensures bytes { value_bytes (hist_value_of result) ≡ n ∷ value_bytes (hist_value_of a.value) }
    ensures sizes { FitsValue (hist_value_of a.value) → FitsValue (hist_value_of result) }
{
    match n {
        3 => Value::Inl(a),
        _ => Value::Inr(a),
    }
}

/// What has two parts: this form, behind which both were read.
#[inline(never)]
pub(crate) fn two_done(
    alloc: Global,
    inside: Result<(Box<Value>, Box<Value>, usize), Halt>,
) -> Result<(Box<Value>, usize), Halt>
    ensures { (bytes : List ℕ) → (behind : ℕ → List ℕ) → Reads (form value_kind ∷ form value_kind ∷ []) bytes (λ x. value_bytes (hist_value_of x.0.value) ++ value_bytes (hist_value_of x.1.value)) (λ x. behind x.2) (λ x. FitsValue (hist_value_of x.0.value) × FitsValue (hist_value_of x.1.value)) inside → Reads (form value_kind ∷ []) (2 ∷ bytes) (λ x. value_bytes (hist_value_of x.0.value)) (λ x. behind x.1) (λ x. FitsValue (hist_value_of x.0.value)) result }
{
    match inside {
        Ok((a, b, next)) => boxed(alloc, Value::Pair(a, b), next),
        Err(halt) => Err(halt),
    }
}
