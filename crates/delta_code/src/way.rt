//! The way to a call that stands at the level of the whole, and so is made in a loop.
//!
//! A call at its caller's level stands behind whole items, and in lets, destructurings and frames that give
//! nothing more themselves. What they give is kept in a `Way`, and nothing waits for the call on the stack.

ghost use Rattle.std.specs.Prelude.{◌≡◌, ◌<◌, ◌+◌, ◌^◌, ◌||◌, true, false, max, map, IfOk, OnOk};
ghost use Rattle.stream_type.specs.StreamType.{type_of};
ghost use Rattle.stream_prefix.specs.StreamPrefix.{is_maximal, der};
ghost use Rattle.stream_prefix.specs.Tree.{prefix_of, star_of};
ghost use Rattle.core_term.specs.Parts.{as_star};
ghost use Rattle.core_term.specs.Run.{Run, deeper, relabel, cat_run_at, let_run, call_run, one_call};
ghost use Rattle.delta_state.specs.StateTree.{StateTree, sink, var_state, let_state, let_par_state, let_cat_state, frame_state};
ghost use Rattle.delta_state.specs.Rest.{cut_state};
ghost use Rattle.template_state.specs.Readers.{state_in};
ghost use Rattle.delta_code.specs.Begun.{run_of, rest_of, runs_of, rests_of};
ghost use Rattle.delta_code.specs.Eased.{Eased};
ghost use Rattle.delta_code.specs.Way.{within, after};

use crate::begun::{Begun, Passed, over};
use crate::framing::add_frame;
use bunch::Name;
use hist_value::Value;
use machine_parts::holding::left;
use machine_parts::levels::deeper;
use machine_parts::parts::{Cut, cat_types, cut_taken};
use std::alloc::Global;
use std::mem;
use stream_prefix::Prefix;
use stream_type::{Memory, Ty};
use template_state::{Arguments, Live};

/// What stands round a place in a state, from the inside out. Contracts see it by `within` (`specs/Way.antt`).
#[derive(Drop)]
pub enum Layers {
    /// Nothing.
    None,
    /// A let of this name, whose type left is the second field.
    Let(Name, Ty, Box<Live>, Box<Layers>),
    /// `let (x, y) = z`.
    Pair(Name, Name, Name, Box<Layers>),
    /// `let (x; y) = z`, before the mark between the parts.
    Row(Name, Name, Name, Box<Layers>),
    /// The arguments of a call that was made.
    Frame(Box<Arguments>, Box<Layers>),
}

/// What was gained on the way to a place, and what stands round it. Contracts see what it makes of a run there
/// by `after`, and of a state by `within` (`specs/Way.antt`).
#[derive(Drop)]
pub struct Way {
    /// The whole items that stand in front.
    pub items: Vec<Prefix>,
    /// The number of calls made.
    pub calls: u64,
    /// The level of these calls from below.
    pub level: u64,
    /// What stands round the place.
    pub layers: Layers,
}

/// What is at the end of a way. Contracts see it by `reached_run` and `reached_rest` (`specs/Way.antt`).
#[derive(Drop)]
pub enum Reached {
    /// What is given there, and the state left.
    Given(Begun),
    /// A call of the function with this number, with its values, and with what comes on its parameters.
    Call(u32, Vec<Value>, Vec<Prefix>),
}

/// The way to the place where one stands.
#[tactic(auto, using(crate::proofs::Gains::gained_nothing))]
pub fn no_way(alloc: Global) -> Way
    ensures run { (a : Run) → after result a ≡ a }
    ensures rest { (s : StateTree) → within result.layers s ≡ s }
    ensures none { result.calls ≡ 0 }
    ensures low { result.level ≡ 0 }
{
    Way {
        items: Vec::new(alloc),
        calls: 0,
        level: 0,
        layers: Layers::None,
    }
}

/// Goes on into a let of this name and type, whose head is a name or whole, and answers what the head gives.
/// Its only error is want of memory.
#[tactic(auto, using(crate::proofs::Gains::gained_let))]
#[inline(never)]
pub fn into_let(
    alloc: Global,
    way: &mut Way,
    is_name: bool,
    x: Name,
    t: &Ty,
    head: Begun,
) -> Result<Box<Prefix>, Memory>
    requires room { way.old.calls + head.calls < 2 ^ 64 }
    requires shut { (is_name || is_maximal (prefix_of head.output.value)) ≡ true }
    ensures run { OnOk result ((b : Run) → after way.new b ≡ after way.old (let_run is_name (run_of head) b)) }
    ensures rest { OnOk result ((s : StateTree) → within way.new.layers s ≡ within way.old.layers (let_state x.0 (der (prefix_of head.output.value) (type_of t.now)) (rest_of head) s)) }
    ensures calls { OnOk result (way.new.calls ≡ way.old.calls + head.calls) }
    ensures level { OnOk result (way.new.level ≡ max way.old.level (deeper false head.level)) }
    ensures output { IfOk result (λ p. p.value ≡ head.output.value) }
{
    let level = deeper(false, head.level)?;
    let ty = left(alloc, t, &head.output)?;
    add_let(alloc, &mut way.layers, x, ty, head.state)?;
    way.calls += head.calls;
    way.level = way.level.max(level);
    Ok(head.output)
}

/// Goes on behind an item that is whole. Its only error is want of memory.
#[tactic(auto, using(crate::proofs::Gains::gained_behind))]
#[inline(never)]
pub fn behind_item(way: &mut Way, head: Begun) -> Result<(), Memory>
    requires room { way.old.calls + head.calls < 2 ^ 64 }
    ensures run { OnOk result ((b : Run) → after way.new b ≡ after way.old (relabel as_star (cat_run_at true (run_of head) b))) }
    ensures rest { OnOk result (way.new.layers ≡ way.old.layers) }
    ensures calls { OnOk result (way.new.calls ≡ way.old.calls + head.calls) }
    ensures level { OnOk result (way.new.level ≡ max way.old.level head.level) }
{
    way.items.push(Box::into_inner(head.output))?;
    way.calls += head.calls;
    way.level = way.level.max(head.level);
    Ok(())
}

/// Goes on into a call whose arguments are names or whole, and answers what they give. Its only error is want
/// of memory.
#[tactic(auto, using(crate::proofs::Gains::gained_call))]
#[inline(never)]
pub fn into_call(alloc: Global, way: &mut Way, arguments: Passed) -> Result<Vec<Prefix>, Memory>
    requires room { way.old.calls + arguments.calls < 2 ^ 64 }
    requires shut { arguments.are_shut ≡ true }
    ensures run { OnOk result ((b : Run) → after way.new b ≡ after way.old (call_run (runs_of arguments) b)) }
    ensures rest { OnOk result ((s : StateTree) → Eased (within way.old.layers (frame_state (rests_of arguments) s)) (within way.new.layers s)) }
    ensures calls { OnOk result (way.new.calls ≡ way.old.calls + arguments.calls) }
    ensures level { OnOk result (way.new.level ≡ max way.old.level (max 1 (deeper false arguments.level))) }
    ensures outputs { IfOk result (λ v. v ≡ arguments.outputs) }
{
    let level = deeper(false, arguments.level)?;
    add_frame(alloc, &mut way.layers, arguments.states)?;
    way.calls += arguments.calls;
    way.level = way.level.max(level.max(1));
    Ok(arguments.outputs)
}

/// Goes on into a called body, which is counted.
#[tactic(auto, using(crate::proofs::Gains::gained_one))]
pub fn into_body(way: &mut Way)
    requires { way.old.calls + 1 < 2 ^ 64 }
    ensures run { (b : Run) → after way.new b ≡ after way.old (one_call b) }
    ensures rest { way.new.layers ≡ way.old.layers }
    ensures calls { way.new.calls ≡ way.old.calls + 1 }
    ensures level { way.new.level ≡ way.old.level }
{
    way.calls += 1;
}

/// What is given at the end of a way, as the whole gives it. Its only error is want of memory; it counts as that
/// where items stand in front of what is no star, which no typed program gives.
#[tactic(auto, using(crate::proofs::Gains::gained_is))]
#[inline(never)]
pub fn arrived(alloc: Global, way: Way, b: Begun) -> Result<Begun, Memory>
    requires { way.calls + b.calls < 2 ^ 64 }
    ensures run { IfOk result (λ r. run_of r ≡ after way (run_of b)) }
    ensures rest { IfOk result (λ r. rest_of r ≡ within way.layers (rest_of b)) }
    ensures calls { IfOk result (λ r. r.calls ≡ way.calls + b.calls) }
    ensures level { IfOk result (λ r. r.level ≡ max way.level b.level) }
{
    let output = behind_items(alloc, way.items, b.output)?;
    let state = around(alloc, way.layers, b.state)?;
    Ok(Begun {
        output,
        calls: way.calls + b.calls,
        level: way.level.max(b.level),
        state,
    })
}

// Whole items before the rest of a star.
#[tactic(auto, using(machine_parts::proofs::StarForms::star_forms, crate::proofs::Gains::star_more))]
fn behind_items(alloc: Global, items: Vec<Prefix>, rest: Box<Prefix>) -> Result<Box<Prefix>, Memory>
    ensures { IfOk result (λ r. prefix_of r.value ≡ star_of (map prefix_of items.items) (prefix_of rest.value)) }
{
    if items.is_empty() {
        return Ok(rest);
    }
    let mut items = items;
    match Box::into_inner(rest) {
        Prefix::Star(mut more, end) => {
            items.append(&mut more)?;
            Ok(Box::new(alloc, Prefix::Star(items, end))?)
        }
        _ => Err(Memory),
    }
}

// A state with what stands round it.
fn around(alloc: Global, layers: Layers, s: Box<Live>) -> Result<Box<Live>, Memory>
    ensures { IfOk result (λ r. state_in r.value ≡ within layers (state_in s.value)) }
{
    match layers {
        Layers::None => Ok(s),
        Layers::Let(x, t, a, outer) => {
            let inner = Box::new(alloc, Live::Let(x, t, a, s))?;
            around(alloc, Box::into_inner(outer), inner)
        }
        Layers::Pair(x, y, z, outer) => {
            let inner = Box::new(alloc, Live::LetPar(x, y, z, s))?;
            around(alloc, Box::into_inner(outer), inner)
        }
        Layers::Row(x, y, z, outer) => {
            let inner = Box::new(alloc, Live::LetCat(x, y, z, s))?;
            around(alloc, Box::into_inner(outer), inner)
        }
        Layers::Frame(args, outer) => {
            let inner = Box::new(alloc, Live::Frame(args, s))?;
            around(alloc, Box::into_inner(outer), inner)
        }
    }
}

// A let of a name with this type left.
fn add_let(alloc: Global, layers: &mut Layers, x: Name, ty: Ty, a: Box<Live>) -> Result<(), Memory>
    ensures { OnOk result ((s : StateTree) → within layers.new s ≡ within layers.old (let_state x.0 (type_of ty) (state_in a.value) s)) }
{
    let outer = Box::new(alloc, mem::replace(layers, Layers::None))?;
    *layers = Layers::Let(x, ty, a, outer);
    Ok(())
}

/// Goes on into `let (x, y) = z`. Its only error is want of memory.
#[inline(never)]
pub fn into_pair(
    alloc: Global,
    layers: &mut Layers,
    x: Name,
    y: Name,
    z: Name,
) -> Result<(), Memory>
    ensures { OnOk result ((s : StateTree) → within layers.new s ≡ within layers.old (let_par_state x.0 y.0 z.0 s)) }
{
    let outer = Box::new(alloc, mem::replace(layers, Layers::None))?;
    *layers = Layers::Pair(x, y, z, outer);
    Ok(())
}

/// Goes on into `let (x; y) = z`, before its mark. Its only error is want of memory.
#[inline(never)]
pub fn into_row(alloc: Global, layers: &mut Layers, x: Name, y: Name, z: Name) -> Result<(), Memory>
    ensures { OnOk result ((s : StateTree) → within layers.new s ≡ within layers.old (let_cat_state x.0 y.0 z.0 s)) }
{
    let outer = Box::new(alloc, mem::replace(layers, Layers::None))?;
    *layers = Layers::Row(x, y, z, outer);
    Ok(())
}

/// Goes on into a let of a name for z, of type t, after p on it. Its only error is want of memory.
#[inline(never)]
pub fn into_alias(
    alloc: Global,
    layers: &mut Layers,
    x: Name,
    t: &Ty,
    p: &Prefix,
    z: Name,
) -> Result<(), Memory>
    ensures { OnOk result ((s : StateTree) → within layers.new s ≡ within layers.old (let_state x.0 (der (prefix_of p.now) (type_of t.now)) (var_state z.0) s)) }
{
    let ty = left(alloc, t, p)?;
    let name = Box::new(alloc, Live::Var(z))?;
    add_let(alloc, layers, x, ty, name)
}

/// Goes on into two lets: of a name of type t on which nothing comes any more after p, and of one for z, of type
/// u, after q. Its only error is want of memory.
#[inline(never)]
pub fn into_two(
    alloc: Global,
    layers: &mut Layers,
    x: Name,
    t: &Ty,
    p: &Prefix,
    y: Name,
    u: &Ty,
    q: &Prefix,
    z: Name,
) -> Result<(), Memory>
    ensures { OnOk result ((s : StateTree) → within layers.new s ≡ within layers.old (let_state x.0 (der (prefix_of p.now) (type_of t.now)) (sink (der (prefix_of p.now) (type_of t.now))) (let_state y.0 (der (prefix_of q.now) (type_of u.now)) (var_state z.0) s))) }
{
    let ty = left(alloc, t, p)?;
    let none = over(alloc, t, p)?;
    add_let(alloc, layers, x, ty, none)?;
    into_alias(alloc, layers, y, u, q, z)
}

/// Goes on into `let (x; y) = z`, of this type, after this on z. Its only error is want of memory.
#[inline(never)]
pub fn into_cut(
    alloc: Global,
    layers: &mut Layers,
    x: Name,
    y: Name,
    z: Name,
    s: &Ty,
    p: &Prefix,
) -> Result<(), Memory>
    ensures { OnOk result ((a : StateTree) → within layers.new a ≡ within layers.old (cut_state x.0 y.0 z.0 (type_of s.now) (prefix_of p.now) a)) }
{
    let (t, u) = cat_types(s, &Ty::Eps);
    match cut_taken(p) {
        Cut::Before => into_row(alloc, layers, x, y, z),
        Cut::After(p, q) => into_two(alloc, layers, x, t, p, y, u, q, z),
    }
}
