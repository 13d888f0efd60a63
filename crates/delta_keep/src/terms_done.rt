//! Terms of what was read behind their forms: where a part stops, the whole does.
//!
//! Nothing here calls back, so the reader that goes through a term has little more than its calls.

ghost use Rattle.std.specs.Prelude.{◌≡◌, ◌⊎◌, ℕ, List, [], ◌∷◌, ◌++◌, Some, drop};
ghost use Rattle.core_term.specs.CoreTerm.{term_in};
ghost use Rattle.kept_state.specs.KeptBytes.{short_bytes};
ghost use Rattle.kept_state.specs.KeptForm.{term_kind, any, form, node_parts, after_byte};
ghost use Rattle.kept_state.specs.KeptSizes.{FitsShort, FitsTerm};
ghost use Rattle.delta_keep.specs.Reads.{Reads, FitsNode};
ghost use Rattle.delta_keep.specs.Written.{written_node, written_term};

use crate::halt::Halt;
use crate::read_numbers::{boxed, read_name};
use bunch::Name;
use core_term::{Node, Term};
use std::alloc::Global;

/// A name, behind its form.
#[inline(never)]
pub(crate) fn read_variable(
    alloc: Global,
    at: u32,
    bytes: &[u8],
    start: usize,
) -> Result<(Box<Node>, usize), Halt>
    ensures { Reads node_parts (short_bytes at ++ (0 ∷ drop start bytes.now)) (λ x. written_node x.0.value) (λ x. drop x.1 bytes.now) (λ x. FitsNode x.0.value) result }
{
    match read_name(bytes, start) {
        Ok((x, next)) => {
            let term = Term::Var(x);
            boxed(alloc, Node { at, term }, next)
        }
        Err(halt) => Err(halt),
    }
}

/// What has one part: this form, behind which the part was read.
#[inline(never)]
pub(crate) fn one_done(
    alloc: Global,
    at: u32,
    n: u8,
    inside: Result<(Box<Node>, usize), Halt>,
) -> Result<(Box<Node>, usize), Halt>
    requires { (n ≡ 6) ⊎ (n ≡ 7) }
    ensures { (bytes : List ℕ) → (behind : ℕ → List ℕ) → after_byte (form term_kind ∷ []) n ≡ Some (node_parts) → Reads (node_parts) bytes (λ x. written_node x.0.value) (λ x. behind x.1) (λ x. FitsNode x.0.value) inside → Reads node_parts (short_bytes at ++ (n ∷ bytes)) (λ x. written_node x.0.value) (λ x. behind x.1) (λ x. FitsNode x.0.value) result }
{
    match inside {
        Ok((a, next)) => {
            let term = one_of(n, a);
            boxed(alloc, Node { at, term }, next)
        }
        Err(halt) => Err(halt),
    }
}

// The form with this number.
fn one_of(n: u8, a: Box<Node>) -> Term
    requires { (n ≡ 6) ⊎ (n ≡ 7) }
    ensures bytes { written_term result ≡ n ∷ written_node a.value }
    ensures sizes { FitsNode a.value → FitsTerm (term_in result) }
{
    match n {
        6 => Term::Inl(a),
        _ => Term::Inr(a),
    }
}

/// What has two parts: this form, behind which both were read.
#[inline(never)]
pub(crate) fn two_done(
    alloc: Global,
    at: u32,
    n: u8,
    inside: Result<(Box<Node>, Box<Node>, usize), Halt>,
) -> Result<(Box<Node>, usize), Halt>
    requires { (n ≡ 4) ⊎ ((n ≡ 5) ⊎ (n ≡ 9)) }
    ensures { (bytes : List ℕ) → (behind : ℕ → List ℕ) → after_byte (form term_kind ∷ []) n ≡ Some (node_parts ++ node_parts) → Reads (node_parts ++ node_parts) bytes (λ x. written_node x.0.value ++ written_node x.1.value) (λ x. behind x.2) (λ x. FitsNode x.0.value × FitsNode x.1.value) inside → Reads node_parts (short_bytes at ++ (n ∷ bytes)) (λ x. written_node x.0.value) (λ x. behind x.1) (λ x. FitsNode x.0.value) result }
{
    match inside {
        Ok((a, b, next)) => {
            let term = two_of(n, a, b);
            boxed(alloc, Node { at, term }, next)
        }
        Err(halt) => Err(halt),
    }
}

// The form with this number.
fn two_of(n: u8, a: Box<Node>, b: Box<Node>) -> Term
    requires { (n ≡ 4) ⊎ ((n ≡ 5) ⊎ (n ≡ 9)) }
    ensures bytes { written_term result ≡ n ∷ written_node a.value ++ written_node b.value }
    ensures sizes { FitsNode a.value × FitsNode b.value → FitsTerm (term_in result) }
{
    match n {
        4 => Term::Par(a, b),
        5 => Term::Cat(a, b),
        _ => Term::Cons(a, b),
    }
}

/// A destructuring: this form, behind which its names and what follows it were read.
#[inline(never)]
pub(crate) fn names_done(
    alloc: Global,
    at: u32,
    n: u8,
    inside: Result<(Name, Name, Name, Box<Node>, usize), Halt>,
) -> Result<(Box<Node>, usize), Halt>
    requires { (n ≡ 11) ⊎ (n ≡ 12) }
    ensures { (bytes : List ℕ) → (behind : ℕ → List ℕ) → after_byte (form term_kind ∷ []) n ≡ Some (any 4 ∷ any 4 ∷ any 4 ∷ node_parts) → Reads (any 4 ∷ any 4 ∷ any 4 ∷ node_parts) bytes (λ x. short_bytes x.0.0 ++ (short_bytes x.1.0 ++ (short_bytes x.2.0 ++ written_node x.3.value))) (λ x. behind x.4) (λ x. (FitsShort x.0.0 × FitsShort x.1.0 × FitsShort x.2.0) × FitsNode x.3.value) inside → Reads node_parts (short_bytes at ++ (n ∷ bytes)) (λ x. written_node x.0.value) (λ x. behind x.1) (λ x. FitsNode x.0.value) result }
{
    match inside {
        Ok((x, y, z, a, next)) => {
            let term = names_of(n, x, y, z, a);
            boxed(alloc, Node { at, term }, next)
        }
        Err(halt) => Err(halt),
    }
}

// The form with this number.
fn names_of(n: u8, x: Name, y: Name, z: Name, a: Box<Node>) -> Term
    requires { (n ≡ 11) ⊎ (n ≡ 12) }
    ensures bytes { written_term result ≡ n ∷ short_bytes x.0 ++ (short_bytes y.0 ++ (short_bytes z.0 ++ written_node a.value)) }
    ensures sizes { (FitsShort x.0 × FitsShort y.0 × FitsShort z.0) × FitsNode a.value → FitsTerm (term_in result) }
{
    match n {
        11 => Term::LetPar(x, y, z, a),
        _ => Term::LetCat(x, y, z, a),
    }
}
