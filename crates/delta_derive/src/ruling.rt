//! The rules: what is to be derived of a term's parts.

ghost use Rattle.std.specs.Prelude.{◌≡◌, ◌∷◌, [], map, false, IfOk, IsOkAnd, Some};
ghost use Rattle.stream_type.specs.StreamType.{type_of};
ghost use Rattle.bunch.specs.BunchTree.{tree_of, empty, comma, semi, leaf};
ghost use Rattle.hist_value.specs.Environment.{types_of};
ghost use Rattle.core_term.specs.CoreTerm.{term_of, core_of, par_term, cat_term, cons_term, inl_term, inr_term, let_par_term, let_cat_term, case_sum_term, case_star_term, wait_term};
ghost use Rattle.delta_check.specs.Counting.{counts_in};
ghost use Rattle.bunch_rules.specs.Derivation.{hidden, learned};
ghost use Rattle.delta_derive.specs.LineText.{turn_of};
ghost use Rattle.delta_derive.specs.Rearranged.{then_by, part_at, put_at, with_leaf};
ghost use Rattle.delta_derive.specs.Claims.{rule_parts, rule_parts_by, claim, of_semi, let_claims, below_one, below_two, apart_parts};
ghost use Rattle.delta_derive.specs.OpenTerms.{Adds};

use crate::calling::call_parts;
use crate::jumpy::may_stand;
use crate::leaves::{has_leaf, leaf_type, put_leaf};
use crate::line::Turn;
use crate::open::{OpenTerm, add, add_hidden, add_hidden_two, add_in, add_part, add_two, learned};
use crate::pasts::is_past;
use crate::path::{part_at, put_at};
use crate::trees::{beside, boxed, copied, leaf, pair, sequence, single_beside};
use crate::types::{is_same, is_star, may_wait};
use bunch::{Bunch, Name};
use core_term::{Core, Node, Term};
use std::alloc::Global;
use stream_type::{Memory, Ty};

/// Adds what a rule without a path leaves to derive, and says whether it is valid: `rule_parts` in `specs/Claims.antt`.
/// Its only error is want of memory.
pub fn add_parts<'a>(
    alloc: Global,
    c: &'a Core,
    marks: &[bool],
    aim: &OpenTerm<'a>,
    parts: &mut Vec<OpenTerm<'a>>,
) -> Result<bool, Memory>
    ensures { IfOk result (Adds (rule_parts (core_of c.now).funs (counts_in (core_of c.now).funs marks.now) (types_of aim.now.known.items) (tree_of aim.now.bunch) (term_of aim.now.node.now) (type_of aim.now.result.now)) parts.old.items parts.new.items) }
{
    let node: &'a Node = aim.node;
    match &node.term {
        Term::Var(x) => Ok(has_leaf(&aim.bunch, *x, aim.result)),
        Term::Eps => Ok(is_same(aim.result, &Ty::Eps)),
        Term::Unit => Ok(is_same(aim.result, &Ty::One)),
        Term::Nil => Ok(is_star(aim.result)),
        Term::Past(m) => is_past(alloc, &aim.known, m, aim.result),
        Term::Par(a, b) => add_sides(alloc, aim, a, b, parts),
        Term::Cat(a, b) => add_steps(alloc, aim, a, b, parts),
        Term::Cons(a, b) => add_items(alloc, aim, a, b, parts),
        Term::Inl(a) => add_left(alloc, aim, a, parts),
        Term::Inr(a) => add_right(alloc, aim, a, parts),
        Term::Let(_, _, _, _) => Ok(false),
        Term::LetPar(_, _, _, _)
        | Term::LetCat(_, _, _, _)
        | Term::CaseSum(_, _, _, _, _, _)
        | Term::CaseStar(_, _, _, _, _, _)
        | Term::Wait(_, _, _) => add_taken_apart(alloc, aim, parts),
        Term::Call(f, past, arguments) => {
            call_parts(alloc, c, marks, aim, *f, past, arguments, parts)
        }
    }
}

// Adds what is left to derive of a term that takes a stream of its bunch apart or waits for one, and says whether it is
// such a term and its rule is valid.
fn add_taken_apart<'a>(
    alloc: Global,
    aim: &OpenTerm<'a>,
    parts: &mut Vec<OpenTerm<'a>>,
) -> Result<bool, Memory>
    ensures { IfOk result (Adds (apart_parts (types_of aim.now.known.items) (tree_of aim.now.bunch) (term_of aim.now.node.now) (type_of aim.now.result.now)) parts.old.items parts.new.items) }
{
    let node: &'a Node = aim.node;
    match &node.term {
        Term::LetPar(x, y, z, a) => add_let_par(alloc, aim, *x, *y, *z, a, parts),
        Term::LetCat(x, y, z, a) => add_let_cat(alloc, aim, *x, *y, *z, a, parts),
        Term::CaseSum(z, t, x, a, y, b) => add_case_sum(alloc, aim, *z, t, *x, a, *y, b, parts),
        Term::CaseStar(z, t, a, y, ys, b) => add_case_star(alloc, aim, *z, t, a, *y, *ys, b, parts),
        Term::Wait(x, t, a) => add_wait(alloc, aim, *x, t, a, parts),
        _ => Ok(false),
    }
}

// Both parts of a pair share the bunch.
fn add_sides<'a>(
    alloc: Global,
    aim: &OpenTerm<'a>,
    a: &'a Node,
    b: &'a Node,
    parts: &mut Vec<OpenTerm<'a>>,
) -> Result<bool, Memory>
    ensures { IfOk result (Adds (rule_parts [] (λ _. false) (types_of aim.now.known.items) (tree_of aim.now.bunch) (par_term (term_of a.now) (term_of b.now)) (type_of aim.now.result.now)) parts.old.items parts.new.items) }
{
    match aim.result {
        Ty::Par(s, t) => {
            let g = &aim.bunch;
            add_two(alloc, aim, g, a, s, g, b, t, parts)
        }
        _ => Ok(false),
    }
}

// The parts of a pair in order each have a side of the semicolon.
fn add_steps<'a>(
    alloc: Global,
    aim: &OpenTerm<'a>,
    a: &'a Node,
    b: &'a Node,
    parts: &mut Vec<OpenTerm<'a>>,
) -> Result<bool, Memory>
    ensures { IfOk result (Adds (rule_parts [] (λ _. false) (types_of aim.now.known.items) (tree_of aim.now.bunch) (cat_term (term_of a.now) (term_of b.now)) (type_of aim.now.result.now)) parts.old.items parts.new.items) }
{
    match aim.result {
        Ty::Cat(s, t) => add_semi(alloc, aim, a, s, b, t, parts),
        _ => Ok(false),
    }
}

// So have the item and the rest of a star.
fn add_items<'a>(
    alloc: Global,
    aim: &OpenTerm<'a>,
    a: &'a Node,
    b: &'a Node,
    parts: &mut Vec<OpenTerm<'a>>,
) -> Result<bool, Memory>
    ensures { IfOk result (Adds (rule_parts [] (λ _. false) (types_of aim.now.known.items) (tree_of aim.now.bunch) (cons_term (term_of a.now) (term_of b.now)) (type_of aim.now.result.now)) parts.old.items parts.new.items) }
{
    match aim.result {
        Ty::Star(s) => add_semi(alloc, aim, a, s, b, aim.result, parts),
        _ => Ok(false),
    }
}

// Two parts, each with a side of the semicolon, if there is one.
fn add_semi<'a>(
    alloc: Global,
    aim: &OpenTerm<'a>,
    a: &'a Node,
    s: &'a Ty,
    b: &'a Node,
    t: &'a Ty,
    parts: &mut Vec<OpenTerm<'a>>,
) -> Result<bool, Memory>
    ensures { IfOk result (Adds (of_semi (tree_of aim.now.bunch) (λ h k. Some (claim (types_of aim.now.known.items) h (term_of a.now) (type_of s.now) ∷ claim (types_of aim.now.known.items) k (term_of b.now) (type_of t.now) ∷ []))) parts.old.items parts.new.items) }
{
    match &aim.bunch {
        Bunch::Semi(g, h) => add_two(alloc, aim, g, a, s, h, b, t, parts),
        _ => Ok(false),
    }
}

// The side of a sum has the whole bunch.
fn add_left<'a>(
    alloc: Global,
    aim: &OpenTerm<'a>,
    a: &'a Node,
    parts: &mut Vec<OpenTerm<'a>>,
) -> Result<bool, Memory>
    ensures { IfOk result (Adds (rule_parts [] (λ _. false) (types_of aim.now.known.items) (tree_of aim.now.bunch) (inl_term (term_of a.now)) (type_of aim.now.result.now)) parts.old.items parts.new.items) }
{
    match aim.result {
        Ty::Sum(s, _) => { add_part(alloc, aim, a, s, parts) }
        _ => Ok(false),
    }
}

fn add_right<'a>(
    alloc: Global,
    aim: &OpenTerm<'a>,
    a: &'a Node,
    parts: &mut Vec<OpenTerm<'a>>,
) -> Result<bool, Memory>
    ensures { IfOk result (Adds (rule_parts [] (λ _. false) (types_of aim.now.known.items) (tree_of aim.now.bunch) (inr_term (term_of a.now)) (type_of aim.now.result.now)) parts.old.items parts.new.items) }
{
    match aim.result {
        Ty::Sum(_, t) => { add_part(alloc, aim, a, t, parts) }
        _ => Ok(false),
    }
}

// What a let binds has the part of the bunch at the end of the path, and its body the bunch with the name beside
// that part.
fn add_let<'a>(
    alloc: Global,
    aim: &OpenTerm<'a>,
    path: &[Turn],
    x: Name,
    s: &'a Ty,
    a: &'a Node,
    b: &'a Node,
    parts: &mut Vec<OpenTerm<'a>>,
) -> Result<bool, Memory>
    ensures { IfOk result (Adds (then_by (part_at (map turn_of path.now) (tree_of aim.now.bunch)) (λ d. Some (claim (types_of aim.now.known.items) d (term_of a.now) (type_of s.now)
        ∷ claim (hidden x.0 (types_of aim.now.known.items)) (put_at (map turn_of path.now) (comma d (leaf x.0 (type_of s.now))) (tree_of aim.now.bunch)) (term_of b.now) (type_of aim.now.result.now) ∷ []))) parts.old.items parts.new.items) }
{
    match part_at(&aim.bunch, path) {
        None => Ok(false),
        Some(d) => add_bound(alloc, aim, path, d, x, s, a, b, parts),
    }
}

// Adds what a let binds and its body, where the part d stands at the end of the path, and answers true.
fn add_bound<'a>(
    alloc: Global,
    aim: &OpenTerm<'a>,
    path: &[Turn],
    d: &Bunch,
    x: Name,
    s: &'a Ty,
    a: &'a Node,
    b: &'a Node,
    parts: &mut Vec<OpenTerm<'a>>,
) -> Result<bool, Memory>
    ensures { IfOk result (Adds (Some (let_claims (types_of aim.now.known.items) (map turn_of path.now) (tree_of d.now) (tree_of aim.now.bunch) x.0 (type_of s.now) (term_of a.now) (term_of b.now) (type_of aim.now.result.now))) parts.old.items parts.new.items) }
{
    match add_in(alloc, &aim.known, d, a, s, parts) {
        Ok(_) => {
            let bunch = beside_part(alloc, &aim.bunch, path, d, x, s);
            add_hidden(alloc, aim, x, bunch, b, parts)
        }
        Err(memory) => Err(memory),
    }
}

// The bunch with x beside the part d at the end of the path.
fn beside_part(
    alloc: Global,
    g: &Bunch,
    path: &[Turn],
    d: &Bunch,
    x: Name,
    s: &Ty,
) -> Result<Box<Bunch>, Memory>
    ensures { IfOk result (λ h. tree_of h.value ≡ put_at (map turn_of path.now) (comma (tree_of d.now) (leaf x.0 (type_of s.now))) (tree_of g.now)) }
{
    let part = single_beside(alloc, d, x, s);
    match copied(alloc, g) {
        Ok(bunch) => with_part(bunch, path, part),
        Err(memory) => {
            drop(part);
            Err(memory)
        }
    }
}

// The bunch with what was made of a part put to the end of the path.
fn with_part(
    mut bunch: Box<Bunch>,
    path: &[Turn],
    part: Result<Box<Bunch>, Memory>,
) -> Result<Box<Bunch>, Memory>
    ensures { IfOk result (λ h. IsOkAnd part (λ w. tree_of h.value ≡ put_at (map turn_of path.now) (tree_of w.value) (tree_of bunch.value))) }
{
    match part {
        Ok(part) => {
            put_at(&mut bunch, path, part);
            Ok(bunch)
        }
        Err(memory) => {
            drop(bunch);
            Err(memory)
        }
    }
}

// The bunch with what was made of a part in the place of the leaf of z.
fn with_leaf(
    alloc: Global,
    g: &Bunch,
    z: Name,
    part: Result<Box<Bunch>, Memory>,
) -> Result<Box<Bunch>, Memory>
    ensures { IfOk result (λ h. IsOkAnd part (λ w. tree_of h.value ≡ with_leaf z.0 (tree_of w.value) (tree_of g.now))) }
{
    match part {
        Ok(part) => leaf_put(copied(alloc, g), z, part),
        Err(memory) => Err(memory),
    }
}

// What was made of a bunch, with a part in the place of the leaf of z.
fn leaf_put(
    bunch: Result<Box<Bunch>, Memory>,
    z: Name,
    part: Box<Bunch>,
) -> Result<Box<Bunch>, Memory>
    ensures { IfOk result (λ h. IsOkAnd bunch (λ g. tree_of h.value ≡ with_leaf z.0 (tree_of part.value) (tree_of g.value))) }
{
    match bunch {
        Ok(mut bunch) => {
            put_leaf(&mut bunch, z, part);
            Ok(bunch)
        }
        Err(memory) => {
            drop(part);
            Err(memory)
        }
    }
}

/// The same of a rule with a path, which only a let has: `rule_parts_by` in `specs/Claims.antt`. Its only error is want
/// of memory.
pub fn add_parts_by<'a>(
    alloc: Global,
    c: &'a Core,
    marks: &[bool],
    aim: &OpenTerm<'a>,
    path: &[Turn],
    parts: &mut Vec<OpenTerm<'a>>,
) -> Result<bool, Memory>
    ensures { IfOk result (Adds (rule_parts_by (core_of c.now).funs (counts_in (core_of c.now).funs marks.now) (map turn_of path.now) (types_of aim.now.known.items) (tree_of aim.now.bunch) (term_of aim.now.node.now) (type_of aim.now.result.now)) parts.old.items parts.new.items) }
{
    let node: &'a Node = aim.node;
    match &node.term {
        Term::Let(x, s, a, b) => {
            if may_stand(c, marks, a, s, &aim.bunch, path) {
                add_let(alloc, aim, path, *x, s, a, b, parts)
            } else {
                Ok(false)
            }
        }
        _ => Ok(false),
    }
}

// Adds a term under two new names, with what was made of a part beside the leaf of z, and answers true.
fn add_under_two<'a>(
    alloc: Global,
    aim: &OpenTerm<'a>,
    x: Name,
    y: Name,
    z: Name,
    part: Result<Box<Bunch>, Memory>,
    a: &'a Node,
    parts: &mut Vec<OpenTerm<'a>>,
) -> Result<bool, Memory>
    ensures { IfOk result (λ valid. IsOkAnd part (λ w. Adds (Some (claim (hidden y.0 (hidden x.0 (types_of aim.now.known.items))) (with_leaf z.0 (tree_of w.value) (tree_of aim.now.bunch)) (term_of a.now) (type_of aim.now.result.now) ∷ [])) parts.old.items parts.new.items valid)) }
{
    let bunch = with_leaf(alloc, &aim.bunch, z, part);
    add_hidden_two(alloc, aim, x, y, bunch, a, parts)
}

// Adds the branch of a case on a sum, with the name of its side beside the subject, and answers true.
fn add_branch<'a>(
    alloc: Global,
    aim: &OpenTerm<'a>,
    z: Name,
    whole: &Ty,
    x: Name,
    s: &Ty,
    a: &'a Node,
    parts: &mut Vec<OpenTerm<'a>>,
) -> Result<bool, Memory>
    ensures { IfOk result (Adds (Some (below_one (types_of aim.now.known.items) x.0 z.0 (type_of whole.now) (leaf x.0 (type_of s.now)) (tree_of aim.now.bunch) (term_of a.now) (type_of aim.now.result.now) ∷ [])) parts.old.items parts.new.items) }
{
    let part = beside(alloc, z, whole, leaf(alloc, x, s));
    let bunch = with_leaf(alloc, &aim.bunch, z, part);
    add_hidden(alloc, aim, x, bunch, a, parts)
}

// The names of both sides of a pair stand beside its name.
fn add_let_par<'a>(
    alloc: Global,
    aim: &OpenTerm<'a>,
    x: Name,
    y: Name,
    z: Name,
    a: &'a Node,
    parts: &mut Vec<OpenTerm<'a>>,
) -> Result<bool, Memory>
    ensures { IfOk result (Adds (rule_parts [] (λ _. false) (types_of aim.now.known.items) (tree_of aim.now.bunch) (let_par_term x.0 y.0 z.0 (term_of a.now)) (type_of aim.now.result.now)) parts.old.items parts.new.items) }
{
    match leaf_type(&aim.bunch, z) {
        Some(whole) => match whole {
            Ty::Par(s, t) => {
                let part = pair(alloc, z, whole, x, s, y, t);
                add_under_two(alloc, aim, x, y, z, part, a, parts)
            }
            _ => Ok(false),
        },
        None => Ok(false),
    }
}

// The names of both parts of a pair in order stand in order beside its name.
fn add_let_cat<'a>(
    alloc: Global,
    aim: &OpenTerm<'a>,
    x: Name,
    y: Name,
    z: Name,
    a: &'a Node,
    parts: &mut Vec<OpenTerm<'a>>,
) -> Result<bool, Memory>
    ensures { IfOk result (Adds (rule_parts [] (λ _. false) (types_of aim.now.known.items) (tree_of aim.now.bunch) (let_cat_term x.0 y.0 z.0 (term_of a.now)) (type_of aim.now.result.now)) parts.old.items parts.new.items) }
{
    match leaf_type(&aim.bunch, z) {
        Some(whole) => match whole {
            Ty::Cat(s, t) => {
                let part = sequence(alloc, z, whole, x, s, y, t);
                add_under_two(alloc, aim, x, y, z, part, a, parts)
            }
            _ => Ok(false),
        },
        None => Ok(false),
    }
}

// Each branch of a case on a sum has the name of its side beside the subject.
fn add_case_sum<'a>(
    alloc: Global,
    aim: &OpenTerm<'a>,
    z: Name,
    r: &Ty,
    x: Name,
    a: &'a Node,
    y: Name,
    b: &'a Node,
    parts: &mut Vec<OpenTerm<'a>>,
) -> Result<bool, Memory>
    ensures { IfOk result (Adds (rule_parts [] (λ _. false) (types_of aim.now.known.items) (tree_of aim.now.bunch) (case_sum_term z.0 (type_of r.now) x.0 (term_of a.now) y.0 (term_of b.now)) (type_of aim.now.result.now)) parts.old.items parts.new.items) }
{
    match leaf_type(&aim.bunch, z) {
        Some(whole) => match whole {
            Ty::Sum(s, t) => {
                if is_same(r, aim.result) {
                    add_sum_branches(alloc, aim, z, whole, x, s, a, y, t, b, parts)
                } else {
                    Ok(false)
                }
            }
            _ => Ok(false),
        },
        None => Ok(false),
    }
}

// Adds both branches of a case on a sum, and answers true.
fn add_sum_branches<'a>(
    alloc: Global,
    aim: &OpenTerm<'a>,
    z: Name,
    whole: &Ty,
    x: Name,
    s: &Ty,
    a: &'a Node,
    y: Name,
    t: &Ty,
    b: &'a Node,
    parts: &mut Vec<OpenTerm<'a>>,
) -> Result<bool, Memory>
    ensures { IfOk result (Adds (Some (below_one (types_of aim.now.known.items) x.0 z.0 (type_of whole.now) (leaf x.0 (type_of s.now)) (tree_of aim.now.bunch) (term_of a.now) (type_of aim.now.result.now)
        ∷ below_one (types_of aim.now.known.items) y.0 z.0 (type_of whole.now) (leaf y.0 (type_of t.now)) (tree_of aim.now.bunch) (term_of b.now) (type_of aim.now.result.now) ∷ [])) parts.old.items parts.new.items) }
{
    match add_branch(alloc, aim, z, whole, x, s, a, parts) {
        Ok(_) => add_branch(alloc, aim, z, whole, y, t, b, parts),
        Err(memory) => Err(memory),
    }
}

// The branch of an item has the names of the item and of the rest in order beside the subject; the other one has
// the bunch as it is.
fn add_case_star<'a>(
    alloc: Global,
    aim: &OpenTerm<'a>,
    z: Name,
    r: &Ty,
    a: &'a Node,
    y: Name,
    ys: Name,
    b: &'a Node,
    parts: &mut Vec<OpenTerm<'a>>,
) -> Result<bool, Memory>
    ensures { IfOk result (Adds (rule_parts [] (λ _. false) (types_of aim.now.known.items) (tree_of aim.now.bunch) (case_star_term z.0 (type_of r.now) (term_of a.now) y.0 ys.0 (term_of b.now)) (type_of aim.now.result.now)) parts.old.items parts.new.items) }
{
    match leaf_type(&aim.bunch, z) {
        Some(whole) => match whole {
            Ty::Star(s) => {
                if is_same(r, aim.result) {
                    add_star_branches(alloc, aim, z, whole, a, y, s, ys, b, parts)
                } else {
                    Ok(false)
                }
            }
            _ => Ok(false),
        },
        None => Ok(false),
    }
}

// Adds both branches of a case on a star, and answers true.
fn add_star_branches<'a>(
    alloc: Global,
    aim: &OpenTerm<'a>,
    z: Name,
    whole: &Ty,
    a: &'a Node,
    y: Name,
    s: &Ty,
    ys: Name,
    b: &'a Node,
    parts: &mut Vec<OpenTerm<'a>>,
) -> Result<bool, Memory>
    ensures { IfOk result (Adds (Some (claim (types_of aim.now.known.items) (tree_of aim.now.bunch) (term_of a.now) (type_of aim.now.result.now)
        ∷ below_two (types_of aim.now.known.items) y.0 ys.0 z.0 (type_of whole.now) (semi (leaf y.0 (type_of s.now)) (leaf ys.0 (type_of whole.now))) (tree_of aim.now.bunch) (term_of b.now) (type_of aim.now.result.now) ∷ [])) parts.old.items parts.new.items) }
{
    match add_in(alloc, &aim.known, &aim.bunch, a, aim.result, parts) {
        Ok(_) => add_item_branch(alloc, aim, z, whole, y, s, ys, b, parts),
        Err(memory) => Err(memory),
    }
}

// Adds the branch of an item, and answers true.
fn add_item_branch<'a>(
    alloc: Global,
    aim: &OpenTerm<'a>,
    z: Name,
    whole: &Ty,
    y: Name,
    s: &Ty,
    ys: Name,
    b: &'a Node,
    parts: &mut Vec<OpenTerm<'a>>,
) -> Result<bool, Memory>
    ensures { IfOk result (Adds (Some (below_two (types_of aim.now.known.items) y.0 ys.0 z.0 (type_of whole.now) (semi (leaf y.0 (type_of s.now)) (leaf ys.0 (type_of whole.now))) (tree_of aim.now.bunch) (term_of b.now) (type_of aim.now.result.now) ∷ [])) parts.old.items parts.new.items) }
{
    let part = sequence(alloc, z, whole, y, s, ys, whole);
    add_under_two(alloc, aim, y, ys, z, part, b, parts)
}

// A name that is waited for leaves the bunch and is known.
fn add_wait<'a>(
    alloc: Global,
    aim: &OpenTerm<'a>,
    x: Name,
    r: &Ty,
    a: &'a Node,
    parts: &mut Vec<OpenTerm<'a>>,
) -> Result<bool, Memory>
    ensures { IfOk result (Adds (rule_parts [] (λ _. false) (types_of aim.now.known.items) (tree_of aim.now.bunch) (wait_term x.0 (type_of r.now) (term_of a.now)) (type_of aim.now.result.now)) parts.old.items parts.new.items) }
{
    match leaf_type(&aim.bunch, x) {
        Some(t) => {
            if may_wait(t, r, aim.result) {
                add_known(alloc, aim, x, t, a, parts)
            } else {
                Ok(false)
            }
        }
        None => Ok(false),
    }
}

// The bunch with nothing in the place of the leaf of x.
fn without(alloc: Global, g: &Bunch, x: Name) -> Result<Box<Bunch>, Memory>
    ensures { IfOk result (λ h. tree_of h.value ≡ with_leaf x.0 empty (tree_of g.now)) }
{
    with_leaf(alloc, g, x, boxed(alloc, Bunch::Empty))
}

// Adds a term where x is known and has left the bunch, and answers true.
fn add_known<'a>(
    alloc: Global,
    aim: &OpenTerm<'a>,
    x: Name,
    t: &Ty,
    a: &'a Node,
    parts: &mut Vec<OpenTerm<'a>>,
) -> Result<bool, Memory>
    ensures { IfOk result (Adds (Some (claim (learned x.0 (type_of t.now) (types_of aim.now.known.items)) (with_leaf x.0 empty (tree_of aim.now.bunch)) (term_of a.now) (type_of aim.now.result.now) ∷ [])) parts.old.items parts.new.items) }
{
    let bunch = without(alloc, &aim.bunch, x);
    let known = learned(alloc, x, t, &aim.known);
    add(known, bunch, a, aim.result, parts)
}
