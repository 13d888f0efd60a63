//! Terms read from bytes.

ghost use Rattle.std.specs.Prelude.{[], ◌∷◌, ◌++◌, drop};
ghost use Rattle.kept_state.specs.KeptBytes.{short_bytes, list_bytes};
ghost use Rattle.kept_state.specs.KeptForm.{node_item, any, list_part, node_parts};
ghost use Rattle.delta_keep.specs.Written.{written_node};
ghost use Rattle.kept_state.specs.KeptSizes.{FitsShort};
ghost use Rattle.delta_keep.specs.Reads.{Reads, FitsList, FitsNode};

use crate::halt::Halt;
use crate::pushing::pushed;
use crate::read_exprs::{read_expr, read_exprs};
use crate::read_numbers::{boxed, misplaced, read_form, read_name, read_names, read_short};
use crate::read_types::read_name_type;
use crate::terms_done::{names_done, one_done, read_variable, two_done};
use bunch::Name;
use core_term::{Node, Term};
use std::alloc::Global;

/// A node: its place and its term.
#[cycle(read_nodes)]
pub(crate) fn read_node(
    alloc: Global,
    bytes: &[u8],
    start: usize,
    left: u32,
) -> Result<(Box<Node>, usize), Halt>
    ensures reads { Reads node_parts (drop start bytes.now) (λ x. written_node x.0.value) (λ x. drop x.1 bytes.now) (λ x. FitsNode x.0.value) result }
{
    let (at, next) = read_short(bytes, start)?;
    read_term(alloc, at, bytes, next, left)
}

// The node here, whose term stands next.
#[cycle(read_nodes)]
fn read_term(
    alloc: Global,
    at: u32,
    bytes: &[u8],
    start: usize,
    left: u32,
) -> Result<(Box<Node>, usize), Halt>
    ensures reads { Reads node_parts (short_bytes at ++ drop start bytes.now) (λ x. written_node x.0.value) (λ x. drop x.1 bytes.now) (λ x. FitsNode x.0.value) result }
{
    let (form, next, left) = read_form(bytes, start, left)?;
    match form {
        0 => read_variable(alloc, at, bytes, next),
        1 => {
            let term = Term::Eps;
            boxed(alloc, Node { at, term }, next)
        }
        2 => {
            let term = Term::Unit;
            boxed(alloc, Node { at, term }, next)
        }
        3 => read_history(alloc, at, bytes, next, left),
        4 => two_done(alloc, at, 4, two_nodes(alloc, bytes, next, left)),
        5 => two_done(alloc, at, 5, two_nodes(alloc, bytes, next, left)),
        6 => one_done(alloc, at, 6, read_node(alloc, bytes, next, left)),
        7 => one_done(alloc, at, 7, read_node(alloc, bytes, next, left)),
        8 => {
            let term = Term::Nil;
            boxed(alloc, Node { at, term }, next)
        }
        9 => two_done(alloc, at, 9, two_nodes(alloc, bytes, next, left)),
        10 => read_let(alloc, at, bytes, next, left),
        11 => names_done(alloc, at, 11, names_and_node(alloc, bytes, next, left)),
        12 => names_done(alloc, at, 12, names_and_node(alloc, bytes, next, left)),
        13 => read_case_sum(alloc, at, bytes, next, left),
        14 => read_case_star(alloc, at, bytes, next, left),
        15 => read_wait(alloc, at, bytes, next, left),
        16 => read_call(alloc, at, bytes, next, left),
        _ => Err(misplaced(bytes, start)),
    }
}

#[cycle(read_nodes)]
fn two_nodes(
    alloc: Global,
    bytes: &[u8],
    start: usize,
    left: u32,
) -> Result<(Box<Node>, Box<Node>, usize), Halt>
    ensures reads { Reads (node_parts ++ node_parts) (drop start bytes.now) (λ x. written_node x.0.value ++ written_node x.1.value) (λ x. drop x.2 bytes.now) (λ x. FitsNode x.0.value × FitsNode x.1.value) result }
{
    let (first, next) = read_node(alloc, bytes, start, left)?;
    let (second, next) = read_node(alloc, bytes, next, left)?;
    Ok((first, second, next))
}

// A historical expression as a term, behind its form.
fn read_history(
    alloc: Global,
    at: u32,
    bytes: &[u8],
    start: usize,
    left: u32,
) -> Result<(Box<Node>, usize), Halt>
    ensures reads { Reads node_parts (short_bytes at ++ (3 ∷ drop start bytes.now)) (λ x. written_node x.0.value) (λ x. drop x.1 bytes.now) (λ x. FitsNode x.0.value) result }
{
    let (m, next) = read_expr(alloc, bytes, start, left)?;
    let term = Term::Past(Box::into_inner(m));
    boxed(alloc, Node { at, term }, next)
}

// A let, behind its form.
#[cycle(read_nodes)]
fn read_let(
    alloc: Global,
    at: u32,
    bytes: &[u8],
    start: usize,
    left: u32,
) -> Result<(Box<Node>, usize), Halt>
    ensures reads { Reads node_parts (short_bytes at ++ (10 ∷ drop start bytes.now)) (λ x. written_node x.0.value) (λ x. drop x.1 bytes.now) (λ x. FitsNode x.0.value) result }
{
    let (x, s, next) = read_name_type(alloc, bytes, start, left)?;
    let (a, b, next) = two_nodes(alloc, bytes, next, left)?;
    let term = Term::Let(x, Box::into_inner(s), a, b);
    boxed(alloc, Node { at, term }, next)
}

// The names of a destructuring, and what follows it.
#[cycle(read_nodes)]
fn names_and_node(
    alloc: Global,
    bytes: &[u8],
    start: usize,
    left: u32,
) -> Result<(Name, Name, Name, Box<Node>, usize), Halt>
    ensures reads { Reads (any 4 ∷ any 4 ∷ any 4 ∷ node_parts) (drop start bytes.now) (λ x. short_bytes x.0.0 ++ (short_bytes x.1.0 ++ (short_bytes x.2.0 ++ written_node x.3.value))) (λ x. drop x.4 bytes.now) (λ x. (FitsShort x.0.0 × FitsShort x.1.0 × FitsShort x.2.0) × FitsNode x.3.value) result }
{
    let (x, y, z, next) = read_names(bytes, start)?;
    let (a, next) = read_node(alloc, bytes, next, left)?;
    Ok((x, y, z, a, next))
}

// A case on a sum, behind its form.
#[cycle(read_nodes)]
fn read_case_sum(
    alloc: Global,
    at: u32,
    bytes: &[u8],
    start: usize,
    left: u32,
) -> Result<(Box<Node>, usize), Halt>
    ensures reads { Reads node_parts (short_bytes at ++ (13 ∷ drop start bytes.now)) (λ x. written_node x.0.value) (λ x. drop x.1 bytes.now) (λ x. FitsNode x.0.value) result }
{
    let (z, t, next) = read_name_type(alloc, bytes, start, left)?;
    let (x, next) = read_name(bytes, next)?;
    let (a, next) = read_node(alloc, bytes, next, left)?;
    let (y, next) = read_name(bytes, next)?;
    let (b, next) = read_node(alloc, bytes, next, left)?;
    let term = Term::CaseSum(z, Box::into_inner(t), x, a, y, b);
    boxed(alloc, Node { at, term }, next)
}

// A case on a star, behind its form.
#[cycle(read_nodes)]
fn read_case_star(
    alloc: Global,
    at: u32,
    bytes: &[u8],
    start: usize,
    left: u32,
) -> Result<(Box<Node>, usize), Halt>
    ensures reads { Reads node_parts (short_bytes at ++ (14 ∷ drop start bytes.now)) (λ x. written_node x.0.value) (λ x. drop x.1 bytes.now) (λ x. FitsNode x.0.value) result }
{
    let (z, t, next) = read_name_type(alloc, bytes, start, left)?;
    let (a, next) = read_node(alloc, bytes, next, left)?;
    let (y, next) = read_name(bytes, next)?;
    let (ys, next) = read_name(bytes, next)?;
    let (b, next) = read_node(alloc, bytes, next, left)?;
    let term = Term::CaseStar(z, Box::into_inner(t), a, y, ys, b);
    boxed(alloc, Node { at, term }, next)
}

// A wait, behind its form.
#[cycle(read_nodes)]
fn read_wait(
    alloc: Global,
    at: u32,
    bytes: &[u8],
    start: usize,
    left: u32,
) -> Result<(Box<Node>, usize), Halt>
    ensures reads { Reads node_parts (short_bytes at ++ (15 ∷ drop start bytes.now)) (λ x. written_node x.0.value) (λ x. drop x.1 bytes.now) (λ x. FitsNode x.0.value) result }
{
    let (x, t, next) = read_name_type(alloc, bytes, start, left)?;
    let (a, next) = read_node(alloc, bytes, next, left)?;
    let term = Term::Wait(x, Box::into_inner(t), a);
    boxed(alloc, Node { at, term }, next)
}

// A call, behind its form.
#[cycle(read_nodes)]
fn read_call(
    alloc: Global,
    at: u32,
    bytes: &[u8],
    start: usize,
    left: u32,
) -> Result<(Box<Node>, usize), Halt>
    ensures reads { Reads node_parts (short_bytes at ++ (16 ∷ drop start bytes.now)) (λ x. written_node x.0.value) (λ x. drop x.1 bytes.now) (λ x. FitsNode x.0.value) result }
{
    let (f, next) = read_short(bytes, start)?;
    let (ms, next) = read_exprs(alloc, bytes, next, left)?;
    let (es, next) = read_nodes(alloc, bytes, next, left)?;
    let term = Term::Call(f, ms, es);
    boxed(alloc, Node { at, term }, next)
}

// The arguments of a call.
#[cycle(read_nodes)]
fn read_nodes(
    alloc: Global,
    bytes: &[u8],
    start: usize,
    left: u32,
) -> Result<(Vec<Node>, usize), Halt>
    ensures reads { Reads (list_part node_item ∷ []) (drop start bytes.now) (λ x. list_bytes written_node x.0.items) (λ x. drop x.1 bytes.now) (λ x. FitsList FitsNode x.0.items) result }
{
    let (count, mut next) = read_short(bytes, start)?;
    let mut items = Vec::new(alloc);
    'items: for _ in 0..count {
        match pushed(&mut items, read_node(alloc, bytes, next, left)) {
            Ok(behind) => next = behind,
            Err(halt) => {
                drop(items);
                return Err(halt);
            }
        }
    }
    Ok((items, next))
}
