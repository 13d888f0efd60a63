//! Terms that are still to be derived.

ghost use Rattle.std.specs.Prelude.{◌≡◌, ◌++◌, ◌∷◌, [], IfOk, IsOkAnd, OnOk, Some};
ghost use Rattle.stream_type.specs.StreamType.{type_of};
ghost use Rattle.bunch.specs.BunchTree.{tree_of};
ghost use Rattle.hist_value.specs.Environment.{types_of, typed_entries_of};
ghost use Rattle.core_term.specs.CoreTerm.{term_of};
ghost use Rattle.bunch_rules.specs.Derivation.{hidden, learned};
ghost use Rattle.delta_derive.specs.Claims.{claim, two};
ghost use Rattle.delta_derive.specs.OpenTerms.{claim_of, Adds};

use crate::trees::copied;
use bunch::{Bunch, Name};
use core_term::Node;
use hist_value::{HTy, copy_type, past};
use std::alloc::Global;
use stream_type::{Memory, Ty};

/// A term that is still to be derived. Contracts see it as a `Claim` by `claim_of` (`specs/OpenTerms.antt`).
#[derive(Drop)]
pub struct OpenTerm<'a> {
    /// The historical names with their types; of two entries with one name the last counts.
    pub known: Vec<(Name, HTy)>,
    /// The bunch that is to derive it.
    pub bunch: Bunch,
    /// The term.
    pub node: &'a Node,
    /// The type at which it is to be derived.
    pub result: &'a Ty,
}

/// Puts a name behind others, with the type that was made for it. Its only error is want of memory.
pub fn put_entry(
    known: &mut Vec<(Name, HTy)>,
    x: Name,
    t: Result<HTy, Memory>,
) -> Result<(), Memory>
    ensures { OnOk result (IsOkAnd t (λ t. known.new.items ≡ known.old.items ++ (x, t) ∷ [])) }
{
    match t {
        Ok(t) => {
            known.push((x, t))?;
            Ok(())
        }
        Err(memory) => Err(memory),
    }
}

// The same, where it was tried to make the others.
fn with_entry(
    known: Result<Vec<(Name, HTy)>, Memory>,
    x: Name,
    t: Result<HTy, Memory>,
) -> Result<Vec<(Name, HTy)>, Memory>
    ensures { IfOk result (λ v. IsOkAnd known (λ k. IsOkAnd t (λ t. v.items ≡ k.items ++ (x, t) ∷ []))) }
{
    match known {
        Ok(mut known) => match put_entry(&mut known, x, t) {
            Ok(()) => Ok(known),
            Err(memory) => {
                drop(known);
                Err(memory)
            }
        },
        Err(memory) => {
            drop(t);
            Err(memory)
        }
    }
}

// The same historical names. Its only error is want of memory.
#[tactic(auto, using(crate::proofs::KnownNames::known_names))]
fn copy_known(alloc: Global, known: &[(Name, HTy)]) -> Result<Vec<(Name, HTy)>, Memory>
    ensures { IfOk result (λ v. typed_entries_of v.items ≡ typed_entries_of known.now) }
{
    let mut copies = Vec::new(alloc);
    for entry in known {
        match put_entry(&mut copies, entry.0, copy_type(alloc, &entry.1)) {
            Ok(()) => {}
            Err(memory) => {
                drop(copies);
                return Err(memory);
            }
        }
    }
    Ok(copies)
}

// The historical names where `x` hides what stood there. Its only error is want of memory.
#[tactic(auto, using(crate::proofs::KnownNames::known_names))]
fn hidden(alloc: Global, x: Name, known: &[(Name, HTy)]) -> Result<Vec<(Name, HTy)>, Memory>
    ensures { IfOk result (λ v. types_of v.items ≡ hidden x.0 (types_of known.now)) }
{
    let mut kept = Vec::new(alloc);
    for entry in known {
        if entry.0.0 != x.0 {
            match put_entry(&mut kept, entry.0, copy_type(alloc, &entry.1)) {
                Ok(()) => {}
                Err(memory) => {
                    drop(kept);
                    return Err(memory);
                }
            }
        }
    }
    Ok(kept)
}

// The same with two names.
fn hidden_two(
    alloc: Global,
    x: Name,
    y: Name,
    known: &[(Name, HTy)],
) -> Result<Vec<(Name, HTy)>, Memory>
    ensures { IfOk result (λ v. types_of v.items ≡ hidden y.0 (hidden x.0 (types_of known.now))) }
{
    match hidden(alloc, x, known) {
        Ok(kept) => {
            let both = hidden(alloc, y, &kept);
            drop(kept);
            both
        }
        Err(memory) => Err(memory),
    }
}

/// The historical names with `x`, whose stream is of type `t`. Its only error is want of memory.
#[tactic(auto, using(crate::proofs::KnownNames::known_names))]
pub fn learned(
    alloc: Global,
    x: Name,
    t: &Ty,
    known: &[(Name, HTy)],
) -> Result<Vec<(Name, HTy)>, Memory>
    ensures { IfOk result (λ v. types_of v.items ≡ learned x.0 (type_of t.now) (types_of known.now)) }
{
    with_entry(copy_known(alloc, known), x, past(alloc, t))
}

/// Puts a term behind those that are to be derived, and answers true. Its only error is want of memory.
pub fn push<'a>(term: OpenTerm<'a>, terms: &mut Vec<OpenTerm<'a>>) -> Result<bool, Memory>
    ensures term { OnOk result (terms.new.items ≡ terms.old.items ++ term.entry ∷ []) }
    ensures added { IfOk result (Adds (Some (claim_of term.entry ∷ [])) terms.old.items terms.new.items) }
{
    terms.push(term)?;
    Ok(true)
}

/// Adds a term to those that are to be derived, with the historical names and the bunch that were made for it, and
/// answers true. Its only error is want of memory.
pub fn add<'a>(
    known: Result<Vec<(Name, HTy)>, Memory>,
    bunch: Result<Box<Bunch>, Memory>,
    node: &'a Node,
    ty: &'a Ty,
    parts: &mut Vec<OpenTerm<'a>>,
) -> Result<bool, Memory>
    ensures { IfOk result (λ valid. IsOkAnd known (λ k. IsOkAnd bunch (λ g. Adds (Some (claim (types_of k.items) (tree_of g.value) (term_of node.now) (type_of ty.now) ∷ [])) parts.old.items parts.new.items valid))) }
{
    match known {
        Ok(known) => match bunch {
            Ok(bunch) => {
                let bunch = Box::into_inner(bunch);
                let term = OpenTerm {
                    known,
                    bunch,
                    node,
                    result: ty,
                };
                push(term, parts)
            }
            Err(memory) => {
                drop(known);
                Err(memory)
            }
        },
        Err(memory) => {
            drop(bunch);
            Err(memory)
        }
    }
}

/// The same with copies of the historical names and of the bunch.
pub fn add_in<'a>(
    alloc: Global,
    known: &[(Name, HTy)],
    bunch: &Bunch,
    node: &'a Node,
    ty: &'a Ty,
    parts: &mut Vec<OpenTerm<'a>>,
) -> Result<bool, Memory>
    ensures { IfOk result (Adds (Some (claim (types_of known.now) (tree_of bunch.now) (term_of node.now) (type_of ty.now) ∷ [])) parts.old.items parts.new.items) }
{
    let known = copy_known(alloc, known);
    let bunch = copied(alloc, bunch);
    add(known, bunch, node, ty, parts)
}

/// Adds a part of a term whose rule is valid, with the names and the bunch of the whole, and answers true. Its only
/// error is want of memory.
pub fn add_part<'a>(
    alloc: Global,
    aim: &OpenTerm<'a>,
    node: &'a Node,
    ty: &'a Ty,
    parts: &mut Vec<OpenTerm<'a>>,
) -> Result<bool, Memory>
    ensures { IfOk result (Adds (Some (claim (types_of aim.now.known.items) (tree_of aim.now.bunch) (term_of node.now) (type_of ty.now) ∷ [])) parts.old.items parts.new.items) }
{
    add_in(alloc, &aim.known, &aim.bunch, node, ty, parts)
}

/// The same of two parts, each with a bunch of its own.
pub fn add_two<'a>(
    alloc: Global,
    aim: &OpenTerm<'a>,
    g: &Bunch,
    a: &'a Node,
    s: &'a Ty,
    h: &Bunch,
    b: &'a Node,
    t: &'a Ty,
    parts: &mut Vec<OpenTerm<'a>>,
) -> Result<bool, Memory>
    ensures { IfOk result (Adds (Some (two (types_of aim.now.known.items) (tree_of g.now) (tree_of h.now) (term_of a.now) (term_of b.now) (type_of s.now) (type_of t.now))) parts.old.items parts.new.items) }
{
    match add_in(alloc, &aim.known, g, a, s, parts) {
        Ok(_) => add_in(alloc, &aim.known, h, b, t, parts),
        Err(memory) => Err(memory),
    }
}

/// Adds a part with the type of the whole, of whose names `x` is hidden, with the bunch that was made for it, and
/// answers true. Its only error is want of memory.
pub fn add_hidden<'a>(
    alloc: Global,
    aim: &OpenTerm<'a>,
    x: Name,
    bunch: Result<Box<Bunch>, Memory>,
    node: &'a Node,
    parts: &mut Vec<OpenTerm<'a>>,
) -> Result<bool, Memory>
    ensures { IfOk result (λ valid. IsOkAnd bunch (λ g. Adds (Some (claim (hidden x.0 (types_of aim.now.known.items)) (tree_of g.value) (term_of node.now) (type_of aim.now.result.now) ∷ [])) parts.old.items parts.new.items valid)) }
{
    let known = hidden(alloc, x, &aim.known);
    add(known, bunch, node, aim.result, parts)
}

/// The same of two names.
pub fn add_hidden_two<'a>(
    alloc: Global,
    aim: &OpenTerm<'a>,
    x: Name,
    y: Name,
    bunch: Result<Box<Bunch>, Memory>,
    node: &'a Node,
    parts: &mut Vec<OpenTerm<'a>>,
) -> Result<bool, Memory>
    ensures { IfOk result (λ valid. IsOkAnd bunch (λ g. Adds (Some (claim (hidden y.0 (hidden x.0 (types_of aim.now.known.items))) (tree_of g.value) (term_of node.now) (type_of aim.now.result.now) ∷ [])) parts.old.items parts.new.items valid)) }
{
    let known = hidden_two(alloc, x, y, &aim.known);
    add(known, bunch, node, aim.result, parts)
}
