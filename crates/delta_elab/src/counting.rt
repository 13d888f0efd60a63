//! How many nodes a core has.

ghost use Rattle.std.specs.Prelude.{◌≡◌, ◌+◌, ◌<◌, ◌^◌, ◌↔◌, map, IfSome, IfNone, IsTrue};
ghost use Rattle.core_term.specs.CoreTerm.{term_of, terms_from, core_body_of, node_count, node_counts};
ghost use Rattle.core_term.specs.FreeNames.{nodes_of_bodies};

use core_term::{Body, Node, Term};

/// How much room is left after the nodes of the term, or None where there isn't room for them.
#[cycle(count)]
#[tactic(auto, using(core_term::proofs::Rows::rows, crate::proofs::NodeCounts::positive))]
pub fn room_after_term(n: &Node, room: u32) -> Option<u32>
    ensures left { IfSome result (λ left. left + node_count (term_of n.now) ≡ room) }
    ensures none { IfNone result (room < node_count (term_of n.now)) }
{
    let room = room.checked_sub(1)?;
    match &n.term {
        Term::Var(_) | Term::Eps | Term::Unit | Term::Nil | Term::Past(_) => Some(room),
        Term::Par(a, b)
        | Term::Cat(a, b)
        | Term::Cons(a, b)
        | Term::Let(_, _, a, b)
        | Term::CaseSum(_, _, _, a, _, b)
        | Term::CaseStar(_, _, a, _, _, b) => room_after_term(b, room_after_term(a, room)?),
        Term::Inl(a)
        | Term::Inr(a)
        | Term::LetPar(_, _, _, a)
        | Term::LetCat(_, _, _, a)
        | Term::Wait(_, _, a) => room_after_term(a, room),
        Term::Call(_, _, es) => room_after_terms(es, room),
    }
}

// The same of terms, one after the other.
#[cycle(count)]
fn room_after_terms(terms: &[Node], room: u32) -> Option<u32>
    ensures left { IfSome result (λ left. left + node_counts (terms_from (map term_of terms.now)) ≡ room) }
    ensures none { IfNone result (room < node_counts (terms_from (map term_of terms.now))) }
{
    let mut left = room;
    for term in terms {
        left = room_after_term(term, left)?;
    }
    Some(left)
}

/// The same of the bodies of functions.
pub fn room_after_bodies(bodies: &[Body], room: u32) -> Option<u32>
    ensures left { IfSome result (λ left. left + nodes_of_bodies (map core_body_of bodies.now) ≡ room) }
    ensures none { IfNone result (room < nodes_of_bodies (map core_body_of bodies.now)) }
{
    let mut left = room;
    for body in bodies {
        left = room_after_term(&body.body, left)?;
    }
    Some(left)
}

/// Whether a program of these functions and this main program has fewer than 2^32 nodes.
pub fn has_few_nodes(funs: &[Body], main: &Body) -> bool
    ensures { IsTrue result ↔ (nodes_of_bodies (map core_body_of funs.now) + node_count (term_of main.now.body) < 2 ^ 32) }
{
    match room_after_bodies(funs, u32::MAX) {
        None => false,
        Some(room) => room_after_term(&main.body, room).is_some(),
    }
}
