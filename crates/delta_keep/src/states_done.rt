//! States of what was read behind their forms: where a part stops, the whole does.
//!
//! Nothing here calls back, so the reader that goes through a state has little more than its calls.

ghost use Rattle.std.specs.Prelude.{◌≡◌, ◌⊎◌, ℕ, List, [], ◌∷◌, ◌++◌, Some, drop};
ghost use Rattle.kept_state.specs.KeptBytes.{short_bytes};
ghost use Rattle.kept_state.specs.KeptForm.{state_kind, any, form, after_byte};
ghost use Rattle.kept_state.specs.KeptSizes.{FitsShort, FitsState};
ghost use Rattle.delta_keep.specs.KeptView.{state_of};
ghost use Rattle.delta_keep.specs.Reads.{Reads};
ghost use Rattle.delta_keep.specs.Written.{written_state};

use crate::halt::Halt;
use crate::kept::KeptState;
use crate::read_numbers::{boxed, read_name};
use crate::read_types::read_type;
use bunch::Name;
use std::alloc::Global;

/// What is finished, behind its form.
#[inline(never)]
pub(crate) fn read_sink(
    alloc: Global,
    bytes: &[u8],
    start: usize,
    left: u32,
) -> Result<(Box<KeptState>, usize), Halt>
    ensures { Reads (form state_kind ∷ []) (0 ∷ drop start bytes.now) (λ x. written_state x.0.value) (λ x. drop x.1 bytes.now) (λ x. FitsState (state_of x.0.value)) result }
{
    match read_type(alloc, bytes, start, left) {
        Ok((t, next)) => boxed(alloc, KeptState::Sink(t), next),
        Err(halt) => Err(halt),
    }
}

/// A name, behind its form.
#[inline(never)]
pub(crate) fn read_variable(
    alloc: Global,
    bytes: &[u8],
    start: usize,
) -> Result<(Box<KeptState>, usize), Halt>
    ensures { Reads (form state_kind ∷ []) (1 ∷ drop start bytes.now) (λ x. written_state x.0.value) (λ x. drop x.1 bytes.now) (λ x. FitsState (state_of x.0.value)) result }
{
    match read_name(bytes, start) {
        Ok((x, next)) => boxed(alloc, KeptState::Var(x), next),
        Err(halt) => Err(halt),
    }
}

/// Both at once, which were read behind the form.
#[inline(never)]
pub(crate) fn par_done(
    alloc: Global,
    inside: Result<(Box<KeptState>, Box<KeptState>, usize), Halt>,
) -> Result<(Box<KeptState>, usize), Halt>
    ensures { (bytes : List ℕ) → (behind : ℕ → List ℕ) → Reads (form state_kind ∷ form state_kind ∷ []) bytes (λ x. written_state x.0.value ++ written_state x.1.value) (λ x. behind x.2) (λ x. FitsState (state_of x.0.value) × FitsState (state_of x.1.value)) inside → Reads (form state_kind ∷ []) (2 ∷ bytes) (λ x. written_state x.0.value) (λ x. behind x.1) (λ x. FitsState (state_of x.0.value)) result }
{
    match inside {
        Ok((a, b, next)) => boxed(alloc, KeptState::Par(a, b), next),
        Err(halt) => Err(halt),
    }
}

/// A destructuring: this form, behind which its names and what follows it were read.
#[inline(never)]
pub(crate) fn names_done(
    alloc: Global,
    n: u8,
    inside: Result<(Name, Name, Name, Box<KeptState>, usize), Halt>,
) -> Result<(Box<KeptState>, usize), Halt>
    requires { (n ≡ 5) ⊎ (n ≡ 6) }
    ensures { (bytes : List ℕ) → (behind : ℕ → List ℕ) → after_byte (form state_kind ∷ []) n ≡ Some (any 4 ∷ any 4 ∷ any 4 ∷ form state_kind ∷ []) → Reads (any 4 ∷ any 4 ∷ any 4 ∷ form state_kind ∷ []) bytes (λ x. short_bytes x.0.0 ++ (short_bytes x.1.0 ++ (short_bytes x.2.0 ++ written_state x.3.value))) (λ x. behind x.4) (λ x. (FitsShort x.0.0 × FitsShort x.1.0 × FitsShort x.2.0) × FitsState (state_of x.3.value)) inside → Reads (form state_kind ∷ []) (n ∷ bytes) (λ x. written_state x.0.value) (λ x. behind x.1) (λ x. FitsState (state_of x.0.value)) result }
{
    match inside {
        Ok((x, y, z, a, next)) => boxed(alloc, names_of(n, x, y, z, a), next),
        Err(halt) => Err(halt),
    }
}

// The form with this number.
fn names_of(n: u8, x: Name, y: Name, z: Name, a: Box<KeptState>) -> KeptState
    requires { (n ≡ 5) ⊎ (n ≡ 6) }
    ensures bytes { written_state result ≡ n ∷ short_bytes x.0 ++ (short_bytes y.0 ++ (short_bytes z.0 ++ written_state a.value)) }
    ensures sizes { (FitsShort x.0 × FitsShort y.0 × FitsShort z.0) × FitsState (state_of a.value) → FitsState (state_of result) }
{
    match n {
        5 => KeptState::LetPar(x, y, z, a),
        _ => KeptState::LetCat(x, y, z, a),
    }
}
