//! What states ask on what comes, form by form, in the order of their run.
//!
//! What a part gives, where another part goes on from it, is had by a step of a copy of that part.

ghost use Rattle.std.specs.Prelude.{OnOk};
ghost use Rattle.stream_type.specs.StreamType.{type_of};
ghost use Rattle.delta_state.specs.StateTree.{par_state, cat_state, let_state, let_par_state, let_cat_state, frame_state};
ghost use Rattle.template_state.specs.Readers.{state_in, later_in, arguments_in};
ghost use Rattle.state_asks.specs.Asking.{Asks};
ghost use Rattle.state_asks.specs.Walks.{live_asks, lives_asks};

use crate::ask::Ask;
use crate::holding::{add_asks_of_later, add_star, add_sum, add_wait};
use crate::state_outputs::{is_whole, output_of, parameters_of};
use bunch::Name;
use machine_parts::parts::{cat_types, first_part, par_parts, par_types, second_part};
use machine_parts::scope::{Scope, stream_at, type_at};
use machine_parts::stop::Stop;
use std::alloc::Global;
use stream_prefix::Prefix;
use stream_type::Ty;
use template_state::{Arguments, Code, Later, Live};

/// Puts what a state asks in its scope on what comes, with what is left of its type, behind what was found:
/// `asked_of` of `other_numbers`. Its errors are those of steps of its parts, with so many calls left and so many
/// levels, and those of `add_asks_of_code` for code that is reached. After an error part of what is asked was put
/// there.
#[cycle(asks)]
pub fn add_asks_of_state<'a>(
    alloc: Global,
    code: &Code,
    scope: &'a Scope<'a>,
    s: &Live,
    r: &Ty,
    left: u64,
    levels: u64,
    found: &mut Vec<Ask>,
) -> Result<(), Stop>
    ensures { OnOk result (Asks found.old.items found.new.items (live_asks code.now scope.now (state_in s.now) (type_of r.now))) }
{
    match s {
        Live::Sink(_) | Live::Var(_) => Ok(()),
        Live::Par(a, b) => add_both(alloc, code, scope, a, b, r, left, levels, found),
        Live::Cat(a, l) => add_in_turn(alloc, code, scope, a, l, r, left, levels, found),
        Live::Let(x, t, a, b) => add_let(alloc, code, scope, *x, t, a, b, r, left, levels, found),
        Live::LetPar(x, y, z, a) => {
            add_pair(alloc, code, scope, *x, *y, *z, a, r, left, levels, found)
        }
        Live::LetCat(x, y, z, a) => {
            add_row(alloc, code, scope, *x, *y, *z, a, r, left, levels, found)
        }
        Live::CaseSum(z, _, held, x, l, y, m) => add_sum(
            alloc, code, scope, *z, held, *x, l, *y, m, r, left, levels, found,
        ),
        Live::CaseStar(z, _, held, l, y, ys, m) => add_star(
            alloc, code, scope, *z, held, l, *y, *ys, m, r, left, levels, found,
        ),
        Live::Wait(x, _, held, l) => {
            add_wait(alloc, code, scope, *x, held, l, r, left, levels, found)
        }
        Live::Frame(args, a) => add_frame(alloc, code, scope, args, a, r, left, levels, found),
    }
}

// Both at once.
#[cycle(asks)]
#[inline(never)]
fn add_both<'a>(
    alloc: Global,
    code: &Code,
    scope: &'a Scope<'a>,
    a: &Live,
    b: &Live,
    r: &Ty,
    left: u64,
    levels: u64,
    found: &mut Vec<Ask>,
) -> Result<(), Stop>
    ensures { OnOk result (Asks found.old.items found.new.items (live_asks code.now scope.now (par_state (state_in a.now) (state_in b.now)) (type_of r.now))) }
{
    let (t, u) = par_types(r, &Ty::Eps);
    add_asks_of_state(alloc, code, scope, a, t, left, levels, found)?;
    add_asks_of_state(alloc, code, scope, b, u, left, levels, found)
}

// The rest of the first, then the second once the first is whole.
#[cycle(asks)]
#[inline(never)]
fn add_in_turn<'a>(
    alloc: Global,
    code: &Code,
    scope: &'a Scope<'a>,
    a: &Live,
    l: &Later,
    r: &Ty,
    left: u64,
    levels: u64,
    found: &mut Vec<Ask>,
) -> Result<(), Stop>
    ensures { OnOk result (Asks found.old.items found.new.items (live_asks code.now scope.now (cat_state (state_in a.now) (later_in l.now)) (type_of r.now))) }
{
    let (t, u) = cat_types(r, &Ty::Eps);
    add_asks_of_state(alloc, code, scope, a, t, left, levels, found)?;
    if !is_whole(alloc, code, scope, a, t, left, levels)? {
        return Ok(());
    }
    add_asks_of_later(alloc, code, scope, l, u, left, levels, found)
}

// A let: its head, and then its body on what the head gives.
#[cycle(asks)]
#[inline(never)]
fn add_let<'a>(
    alloc: Global,
    code: &Code,
    scope: &'a Scope<'a>,
    x: Name,
    t: &Ty,
    a: &Live,
    b: &Live,
    r: &Ty,
    left: u64,
    levels: u64,
    found: &mut Vec<Ask>,
) -> Result<(), Stop>
    ensures { OnOk result (Asks found.old.items found.new.items (live_asks code.now scope.now (let_state x.0 (type_of t.now) (state_in a.now) (state_in b.now)) (type_of r.now))) }
{
    add_asks_of_state(alloc, code, scope, a, t, left, levels, found)?;
    let output = output_of(alloc, code, scope, a, t, left, levels)?;
    let inner = Scope::Stream(x, t, &output, &*scope);
    add_asks_of_state(alloc, code, &inner, b, r, left, levels, found)
}

// `let (x, y) = z`.
#[cycle(asks)]
#[inline(never)]
fn add_pair<'a>(
    alloc: Global,
    code: &Code,
    scope: &'a Scope<'a>,
    x: Name,
    y: Name,
    z: Name,
    a: &Live,
    r: &Ty,
    left: u64,
    levels: u64,
    found: &mut Vec<Ask>,
) -> Result<(), Stop>
    ensures { OnOk result (Asks found.old.items found.new.items (live_asks code.now scope.now (let_par_state x.0 y.0 z.0 (state_in a.now)) (type_of r.now))) }
{
    let (s, t) = par_types(type_at(&*scope, z, &Ty::Eps), &Ty::Eps);
    let (u, v) = par_parts(stream_at(&*scope, z, &Prefix::EpsEmp), &Prefix::EpsEmp);
    let outer = Scope::Stream(x, s, u, &*scope);
    let inner = Scope::Stream(y, t, v, &outer);
    add_asks_of_state(alloc, code, &inner, a, r, left, levels, found)
}

// `let (x; y) = z`.
#[cycle(asks)]
#[inline(never)]
fn add_row<'a>(
    alloc: Global,
    code: &Code,
    scope: &'a Scope<'a>,
    x: Name,
    y: Name,
    z: Name,
    a: &Live,
    r: &Ty,
    left: u64,
    levels: u64,
    found: &mut Vec<Ask>,
) -> Result<(), Stop>
    ensures { OnOk result (Asks found.old.items found.new.items (live_asks code.now scope.now (let_cat_state x.0 y.0 z.0 (state_in a.now)) (type_of r.now))) }
{
    let p = stream_at(&*scope, z, &Prefix::EpsEmp);
    let (s, t) = cat_types(type_at(&*scope, z, &Ty::Eps), &Ty::Eps);
    let v = second_part(alloc, t, p)?;
    let outer = Scope::Stream(x, s, first_part(p, &Prefix::EpsEmp), &*scope);
    let inner = Scope::Stream(y, t, &v, &outer);
    add_asks_of_state(alloc, code, &inner, a, r, left, levels, found)
}

// A frame: its arguments, and then its body on what they give.
#[cycle(asks)]
#[tactic(auto, using(machine_parts::proofs::HeldAndComing::frames))]
#[inline(never)]
fn add_frame<'a>(
    alloc: Global,
    code: &Code,
    scope: &'a Scope<'a>,
    args: &Arguments,
    a: &Live,
    r: &Ty,
    left: u64,
    levels: u64,
    found: &mut Vec<Ask>,
) -> Result<(), Stop>
    ensures { OnOk result (Asks found.old.items found.new.items (live_asks code.now scope.now (frame_state (arguments_in args.now) (state_in a.now)) (type_of r.now))) }
{
    add_arguments(alloc, code, scope, args, left, levels, found)?;
    let entries = parameters_of(alloc, code, scope, args, left, levels)?;
    let inner = Scope::Names(&entries);
    add_asks_of_state(alloc, code, &inner, a, r, left, levels, found)
}

// The arguments of a frame.
#[cycle(asks)]
#[inline(never)]
fn add_arguments<'a>(
    alloc: Global,
    code: &Code,
    scope: &'a Scope<'a>,
    args: &Arguments,
    left: u64,
    levels: u64,
    found: &mut Vec<Ask>,
) -> Result<(), Stop>
    ensures { OnOk result (Asks found.old.items found.new.items (lives_asks code.now scope.now (arguments_in args.now))) }
{
    match args {
        Arguments::None => Ok(()),
        Arguments::Before(_, t, a, others) => {
            add_asks_of_state(alloc, code, scope, a, t, left, levels, found)?;
            add_arguments(alloc, code, scope, others, left, levels, found)
        }
    }
}
