//! What is awaited of the input where a run goes on from a kept state.

ghost use Rattle.std.specs.Prelude.{◌≡◌, ◌+◌, List, Bool, map, drop, IfOk, IfSome};
ghost use Rattle.stream_type.specs.StreamType.{StreamType, type_of, eps, par, cat};
ghost use Rattle.bunch.specs.Names.{value_at, numbers_of};
ghost use Rattle.bunch.specs.BunchTree.{tree_of};
ghost use Rattle.machine_parts.specs.AwaitedTree.{AwaitedTree, awaited_in, stream_awaited, both_awaited, turns_awaited};
ghost use Rattle.kept_state.specs.KeptPlace.{semi_count, types_left};
ghost use Rattle.machine_kept.specs.KeptAwaiting.{awaited_left, awaited_type};

use bunch::{Bunch, Name, names};
use machine_parts::awaited::Awaited;
use machine_parts::boxes::copy_boxed;
use std::alloc::Global;
use stream_type::{Memory, Ty};

/// What is awaited of a bunch where these types are left of its names, in turn, and these marks have come:
/// `awaited_left` in `specs/KeptAwaiting.antt`. A type or a mark that isn't there counts as want of memory.
pub fn awaited_at(
    alloc: Global,
    b: &Bunch,
    ins: &[Ty],
    cuts: &[bool],
) -> Result<Box<Awaited>, Memory>
    ensures { IfOk result (λ a. awaited_in a.value ≡ awaited_left (tree_of b.now) (types_left (tree_of b.now) (map type_of ins.now)) cuts.now) }
{
    let params = names(alloc, b)?;
    let (all, _) = awaited_part(alloc, b, &params, ins, cuts)?;
    Ok(all)
}

// What is awaited of a part of a bunch, of whose names in turn these types are left, and the marks of what follows
// that part.
#[cycle(awaited_part)]
fn awaited_part<'a>(
    alloc: Global,
    b: &Bunch,
    params: &[Name],
    ins: &[Ty],
    cuts: &'a [bool],
) -> Result<(Box<Awaited>, &'a [bool]), Memory>
    ensures { IfOk result (λ r. (awaited_in r.0.value ≡ awaited_left (tree_of b.now) (value_at eps (numbers_of params.now) (map type_of ins.now)) cuts.now) × (r.1.now ≡ drop (semi_count (tree_of b.now)) cuts.now)) }
{
    match b {
        Bunch::Empty => before(made(alloc, Awaited::Nothing), cuts),
        Bunch::Leaf(x, _) => before(stream(alloc, *x, params, ins), cuts),
        Bunch::Comma(a, b) => at_once(alloc, both_parts(alloc, a, b, params, ins, cuts)),
        Bunch::Semi(a, b) => match cuts.split_first() {
            Some((cut, rest)) => in_turn(alloc, *cut, both_parts(alloc, a, b, params, ins, rest)),
            None => Err(Memory),
        },
    }
}

// Two parts in a row, of which the second's marks stand behind the first's.
#[cycle(awaited_part)]
fn both_parts<'a>(
    alloc: Global,
    a: &Bunch,
    b: &Bunch,
    params: &[Name],
    ins: &[Ty],
    cuts: &'a [bool],
) -> Result<((Box<Awaited>, Box<Awaited>), &'a [bool]), Memory>
    ensures { IfOk result (λ r. (awaited_in r.0.0.value ≡ awaited_left (tree_of a.now) (value_at eps (numbers_of params.now) (map type_of ins.now)) cuts.now)
        × ((awaited_in r.0.1.value ≡ awaited_left (tree_of b.now) (value_at eps (numbers_of params.now) (map type_of ins.now)) (drop (semi_count (tree_of a.now)) cuts.now))
        × (r.1.now ≡ drop (semi_count (tree_of a.now) + semi_count (tree_of b.now)) cuts.now))) }
{
    match awaited_part(alloc, a, params, ins, cuts) {
        Ok((one, rest)) => beside(one, awaited_part(alloc, b, params, ins, rest)),
        Err(Memory) => Err(Memory),
    }
}

// A first part beside the second.
fn beside<'a>(
    one: Box<Awaited>,
    second: Result<(Box<Awaited>, &'a [bool]), Memory>,
) -> Result<((Box<Awaited>, Box<Awaited>), &'a [bool]), Memory>
    ensures { (y : AwaitedTree) (cuts : List Bool) → IfOk second.entry (λ r. (awaited_in r.0.value ≡ y) × (r.1.now ≡ cuts))
        → IfOk result (λ r. (awaited_in r.0.0.value ≡ awaited_in one.value) × ((awaited_in r.0.1.value ≡ y) × (r.1.now ≡ cuts))) }
{
    match second {
        Ok((two, rest)) => Ok(((one, two), rest)),
        Err(Memory) => {
            drop(one);
            Err(Memory)
        }
    }
}

// A part, and these marks behind it.
fn before<'a>(
    part: Result<Box<Awaited>, Memory>,
    cuts: &'a [bool],
) -> Result<(Box<Awaited>, &'a [bool]), Memory>
    ensures { (x : AwaitedTree) → IfOk part (λ a. awaited_in a.value ≡ x) → IfOk result (λ r. (awaited_in r.0.value ≡ x) × (r.1.now ≡ cuts.now)) }
{
    match part {
        Ok(part) => Ok((part, cuts)),
        Err(Memory) => Err(Memory),
    }
}

// Both parts at once.
fn at_once<'a>(
    alloc: Global,
    parts: Result<((Box<Awaited>, Box<Awaited>), &'a [bool]), Memory>,
) -> Result<(Box<Awaited>, &'a [bool]), Memory>
    ensures { (x y : AwaitedTree) (cuts : List Bool) → IfOk parts.entry (λ r. (awaited_in r.0.0.value ≡ x) × ((awaited_in r.0.1.value ≡ y) × (r.1.now ≡ cuts)))
        → IfOk result (λ r. (awaited_in r.0.value ≡ both_awaited x y) × (r.1.now ≡ cuts)) }
{
    match parts {
        Ok(((one, two), rest)) => before(made(alloc, Awaited::AtOnce(one, two)), rest),
        Err(Memory) => Err(Memory),
    }
}

// The parts in turn, with the mark between them.
fn in_turn<'a>(
    alloc: Global,
    cut: bool,
    parts: Result<((Box<Awaited>, Box<Awaited>), &'a [bool]), Memory>,
) -> Result<(Box<Awaited>, &'a [bool]), Memory>
    ensures { (x y : AwaitedTree) (cuts : List Bool) → IfOk parts.entry (λ r. (awaited_in r.0.0.value ≡ x) × ((awaited_in r.0.1.value ≡ y) × (r.1.now ≡ cuts)))
        → IfOk result (λ r. (awaited_in r.0.value ≡ turns_awaited cut x y) × (r.1.now ≡ cuts)) }
{
    match parts {
        Ok(((one, two), rest)) => before(made(alloc, Awaited::InTurn(cut, one, two)), rest),
        Err(Memory) => Err(Memory),
    }
}

fn made(alloc: Global, form: Awaited) -> Result<Box<Awaited>, Memory>
    ensures { IfOk result (λ a. awaited_in a.value ≡ awaited_in form) }
{
    Ok(Box::new(alloc, form)?)
}

// A name with the type that is left of it.
fn stream(alloc: Global, x: Name, params: &[Name], ins: &[Ty]) -> Result<Box<Awaited>, Memory>
    ensures { IfOk result (λ a. awaited_in a.value ≡ stream_awaited x.0 (value_at eps (numbers_of params.now) (map type_of ins.now) x.0)) }
{
    let Some(t) = type_left(params, ins, x) else {
        return Err(Memory);
    };
    let t = stream_type::copy(alloc, t)?;
    made(alloc, Awaited::Stream(x, t))
}

// The type that stands at the name's first place.
fn type_left<'a>(params: &[Name], ins: &'a [Ty], x: Name) -> Option<&'a Ty>
    ensures { IfSome result (λ t. type_of t.now ≡ value_at eps (numbers_of params.now) (map type_of ins.now) x.0) }
{
    let (param, others) = params.split_first()?;
    let (t, rest) = ins.split_first()?;
    if x.0 == param.0 {
        Some(t)
    } else {
        type_left(others, rest, x)
    }
}

/// The type of all that is awaited: `awaited_type` in `specs/KeptAwaiting.antt`. Its only error is want of memory.
#[cycle(type_awaited)]
pub fn type_awaited(alloc: Global, a: &Awaited) -> Result<Box<Ty>, Memory>
    ensures { IfOk result (λ t. type_of t.value ≡ awaited_type (awaited_in a.now)) }
{
    match a {
        Awaited::Nothing => Ok(Box::new(alloc, Ty::Eps)?),
        Awaited::Stream(_, t) => copy_boxed(alloc, t),
        Awaited::AtOnce(a, b) => par_of(alloc, both_types(alloc, a, b)),
        Awaited::InTurn(true, _, b) => type_awaited(alloc, b),
        Awaited::InTurn(false, a, b) => cat_of(alloc, both_types(alloc, a, b)),
    }
}

#[cycle(type_awaited)]
fn both_types(alloc: Global, a: &Awaited, b: &Awaited) -> Result<(Box<Ty>, Box<Ty>), Memory>
    ensures { IfOk result (λ r. (type_of r.0.value ≡ awaited_type (awaited_in a.now)) × (type_of r.1.value ≡ awaited_type (awaited_in b.now))) }
{
    match type_awaited(alloc, a) {
        Ok(one) => two_types(one, type_awaited(alloc, b)),
        Err(Memory) => Err(Memory),
    }
}

fn two_types(one: Box<Ty>, second: Result<Box<Ty>, Memory>) -> Result<(Box<Ty>, Box<Ty>), Memory>
    ensures { (t : StreamType) → IfOk second (λ r. type_of r.value ≡ t) → IfOk result (λ r. (type_of r.0.value ≡ type_of one.value) × (type_of r.1.value ≡ t)) }
{
    match second {
        Ok(two) => Ok((one, two)),
        Err(Memory) => {
            drop(one);
            Err(Memory)
        }
    }
}

fn par_of(alloc: Global, types: Result<(Box<Ty>, Box<Ty>), Memory>) -> Result<Box<Ty>, Memory>
    ensures { (s t : StreamType) → IfOk types (λ r. (type_of r.0.value ≡ s) × (type_of r.1.value ≡ t)) → IfOk result (λ r. type_of r.value ≡ par s t) }
{
    match types {
        Ok((one, two)) => Ok(Box::new(alloc, Ty::Par(one, two))?),
        Err(Memory) => Err(Memory),
    }
}

fn cat_of(alloc: Global, types: Result<(Box<Ty>, Box<Ty>), Memory>) -> Result<Box<Ty>, Memory>
    ensures { (s t : StreamType) → IfOk types (λ r. (type_of r.0.value ≡ s) × (type_of r.1.value ≡ t)) → IfOk result (λ r. type_of r.value ≡ cat s t) }
{
    match types {
        Ok((one, two)) => Ok(Box::new(alloc, Ty::Cat(one, two))?),
        Err(Memory) => Err(Memory),
    }
}
