//! Types of what was read behind their forms: where a part stops, the whole does.
//!
//! Nothing here calls back, so the reader that goes through a type has little more than its calls.

ghost use Rattle.std.specs.Prelude.{◌≡◌, ◌⊎◌, ℕ, List, [], ◌∷◌, ◌++◌, ⊤, Some};
ghost use Rattle.stream_type.specs.StreamType.{type_of};
ghost use Rattle.kept_state.specs.KeptBytes.{type_bytes};
ghost use Rattle.kept_state.specs.KeptForm.{type_kind, form, after_byte};
ghost use Rattle.delta_keep.specs.Reads.{Reads};

use crate::halt::Halt;
use crate::read_numbers::boxed;
use std::alloc::Global;
use stream_type::Ty;

/// What has one part: this form, behind which the part was read.
#[inline(never)]
pub(crate) fn one_done(
    alloc: Global,
    inside: Result<(Box<Ty>, usize), Halt>,
) -> Result<(Box<Ty>, usize), Halt>
    ensures { (bytes : List ℕ) → (behind : ℕ → List ℕ) → Reads (form type_kind ∷ []) bytes (λ x. type_bytes (type_of x.0.value)) (λ x. behind x.1) (λ x. ⊤) inside → Reads (form type_kind ∷ []) (6 ∷ bytes) (λ x. type_bytes (type_of x.0.value)) (λ x. behind x.1) (λ x. ⊤) result }
{
    match inside {
        Ok((a, next)) => boxed(alloc, Ty::Star(a), next),
        Err(halt) => Err(halt),
    }
}

/// What has two parts: this form, behind which both were read.
#[inline(never)]
pub(crate) fn two_done(
    alloc: Global,
    n: u8,
    inside: Result<(Box<Ty>, Box<Ty>, usize), Halt>,
) -> Result<(Box<Ty>, usize), Halt>
    requires { (n ≡ 3) ⊎ ((n ≡ 4) ⊎ (n ≡ 5)) }
    ensures { (bytes : List ℕ) → (behind : ℕ → List ℕ) → after_byte (form type_kind ∷ []) n ≡ Some (form type_kind ∷ form type_kind ∷ []) → Reads (form type_kind ∷ form type_kind ∷ []) bytes (λ x. type_bytes (type_of x.0.value) ++ type_bytes (type_of x.1.value)) (λ x. behind x.2) (λ x. ⊤) inside → Reads (form type_kind ∷ []) (n ∷ bytes) (λ x. type_bytes (type_of x.0.value)) (λ x. behind x.1) (λ x. ⊤) result }
{
    match inside {
        Ok((a, b, next)) => boxed(alloc, two_of(n, a, b), next),
        Err(halt) => Err(halt),
    }
}

// The form with this number.
fn two_of(n: u8, a: Box<Ty>, b: Box<Ty>) -> Ty
    requires { (n ≡ 3) ⊎ ((n ≡ 4) ⊎ (n ≡ 5)) }
    ensures bytes { type_bytes (type_of result) ≡ n ∷ type_bytes (type_of a.value) ++ type_bytes (type_of b.value) }
{
    match n {
        3 => Ty::Cat(a, b),
        4 => Ty::Par(a, b),
        _ => Ty::Sum(a, b),
    }
}
