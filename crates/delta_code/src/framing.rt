//! A frame goes into what stands round it, and is put into a simpler form there.
//!
//! A loop of calls would leave a frame for each. So an argument of which nothing more comes is finished, a name
//! that stands for another one gives way to it, bindings that aren't used go, and a frame that stands right in
//! another one becomes one with it. What then is left round a place is no more than the names that are passed.

ghost use Rattle.std.specs.Prelude.{◌≡◌, ◌&&◌, ◌∷◌, [], IfOk, OnOk};
ghost use Rattle.stream_type.specs.StreamType.{StreamType, type_of};
ghost use Rattle.delta_state.specs.StateTree.{StateTree, let_state, let_par_state, let_cat_state, frame_state, argument_at};
ghost use Rattle.state_rewriting.specs.Rewriting.{ReplacedArgumentsBy, IsAlias, are_plain, passed_on, composed};
ghost use Rattle.template_state.specs.Readers.{state_in, arguments_in};
ghost use Rattle.delta_code.specs.Eased.{Eased, EasedArguments};
ghost use Rattle.delta_code.specs.Way.{within};

use crate::way::Layers;
use bunch::Name;
use std::alloc::Global;
use std::mem;
use stream_type::{Memory, Ty};
use template_state::{Arguments, Live, all_plain, arguments_use, rename, settle};

/// A frame with these arguments goes into what stands round it. Its only error is want of memory.
#[tactic(auto, using(crate::proofs::Easing::finished_frame))]
#[inline(never)]
pub fn add_frame(alloc: Global, layers: &mut Layers, args: Box<Arguments>) -> Result<(), Memory>
    ensures { OnOk result ((s : StateTree) → Eased (within layers.old (frame_state (arguments_in args.value) s)) (within layers.new s)) }
{
    let mut args = args;
    finish(alloc, &mut args)?;
    let outer = mem::replace(layers, Layers::None);
    *layers = framed(alloc, outer, args)?;
    Ok(())
}

// Each argument of which nothing more comes is finished.
#[tactic(auto, using(crate::proofs::Easing::finishing))]
fn finish(alloc: Global, args: &mut Arguments) -> Result<(), Memory>
    ensures { OnOk result (EasedArguments (arguments_in args.old) (arguments_in args.new)) }
{
    match args {
        Arguments::None => Ok(()),
        Arguments::Before(_, t, a, others) => {
            settle(alloc, a, t)?;
            finish(alloc, others)
        }
    }
}

// What stands round a place, with a frame in it.
#[cycle(framed)]
fn framed(alloc: Global, layers: Layers, args: Box<Arguments>) -> Result<Layers, Memory>
    ensures { IfOk result (λ l. (s : StateTree) → Eased (within layers (frame_state (arguments_in args.value) s)) (within l s)) }
{
    match layers {
        Layers::None => stays(alloc, Layers::None, args),
        Layers::Let(x, t, a, outer) => in_let(alloc, x, t, a, outer, args),
        Layers::Pair(x, y, z, outer) => in_pair(alloc, x, y, z, outer, args),
        Layers::Row(x, y, z, outer) => in_row(alloc, x, y, z, outer, args),
        Layers::Frame(around, outer) => in_frame(alloc, around, outer, args),
    }
}

// The frame stands where it is.
fn stays(alloc: Global, layers: Layers, args: Box<Arguments>) -> Result<Layers, Memory>
    ensures { IfOk result (λ l. (s : StateTree) → within layers (frame_state (arguments_in args.value) s) ≡ within l s) }
{
    let outer = Box::new(alloc, layers)?;
    Ok(Layers::Frame(args, outer))
}

// In a let, which goes if the frame doesn't use its name.
#[cycle(framed)]
fn in_let(
    alloc: Global,
    x: Name,
    t: Ty,
    a: Box<Live>,
    outer: Box<Layers>,
    args: Box<Arguments>,
) -> Result<Layers, Memory>
    ensures { IfOk result (λ l. (s : StateTree) → Eased (within outer.value (let_state x.0 (type_of t) (state_in a.value) (frame_state (arguments_in args.value) s))) (within l s)) }
{
    let mut args = args;
    put_alias(&mut args, x, &a);
    if arguments_use(&args, x) {
        return stays(alloc, Layers::Let(x, t, a, outer), args);
    }
    framed(alloc, Box::into_inner(outer), args)
}

// In a destructuring of a pair, which goes if the frame uses neither name.
#[cycle(framed)]
fn in_pair(
    alloc: Global,
    x: Name,
    y: Name,
    z: Name,
    outer: Box<Layers>,
    args: Box<Arguments>,
) -> Result<Layers, Memory>
    ensures { IfOk result (λ l. (s : StateTree) → Eased (within outer.value (let_par_state x.0 y.0 z.0 (frame_state (arguments_in args.value) s))) (within l s)) }
{
    if arguments_use(&args, x) || arguments_use(&args, y) {
        return stays(alloc, Layers::Pair(x, y, z, outer), args);
    }
    framed(alloc, Box::into_inner(outer), args)
}

// The same of a sequence.
#[cycle(framed)]
fn in_row(
    alloc: Global,
    x: Name,
    y: Name,
    z: Name,
    outer: Box<Layers>,
    args: Box<Arguments>,
) -> Result<Layers, Memory>
    ensures { IfOk result (λ l. (s : StateTree) → Eased (within outer.value (let_cat_state x.0 y.0 z.0 (frame_state (arguments_in args.value) s))) (within l s)) }
{
    if arguments_use(&args, x) || arguments_use(&args, y) {
        return stays(alloc, Layers::Row(x, y, z, outer), args);
    }
    framed(alloc, Box::into_inner(outer), args)
}

// In a frame: where the arguments of both are names or finished, they become one.
#[cycle(framed)]
fn in_frame(
    alloc: Global,
    around: Box<Arguments>,
    outer: Box<Layers>,
    args: Box<Arguments>,
) -> Result<Layers, Memory>
    ensures { IfOk result (λ l. (s : StateTree) → Eased (within outer.value (frame_state (arguments_in around.value) (frame_state (arguments_in args.value) s))) (within l s)) }
{
    if both_plain(&around, &args) {
        let mut args = args;
        compose(alloc, &around, &mut args)?;
        return framed(alloc, Box::into_inner(outer), args);
    }
    stays(alloc, Layers::Frame(around, outer), args)
}

// Where a let's name stands for another one, each argument that is the first becomes the second.
#[tactic(auto, using(crate::proofs::Easing::aliasing))]
fn put_alias(args: &mut Arguments, x: Name, a: &Live)
    ensures { (t : StreamType) (s : StateTree) → Eased (let_state x.0 t (state_in a.now) (frame_state (arguments_in args.old) s)) (let_state x.0 t (state_in a.now) (frame_state (arguments_in args.new) s)) }
{
    if let Live::Var(z) = a {
        rename_all(args, x, *z);
    }
}

// Each argument that is y becomes z.
#[tactic(auto, using(crate::proofs::Easing::putting))]
fn rename_all(args: &mut Arguments, y: Name, z: Name)
    ensures { ReplacedArgumentsBy (y.0 ∷ (z.0 ∷ [])) (IsAlias y.0 z.0) (arguments_in args.old) (arguments_in args.new) }
{
    match args {
        Arguments::None => {}
        Arguments::Before(_, _, a, others) => {
            rename(a, y, z);
            rename_all(others, y, z);
        }
    }
}

// The same of two frames.
fn both_plain(around: &Arguments, args: &Arguments) -> bool
    ensures { result ≡ (are_plain (arguments_in around.now) && are_plain (arguments_in args.now)) }
{
    all_plain(around) && all_plain(args)
}

// The arguments of a call inside a body, on those of that body. Its only error is want of memory; it counts as
// that where one that is passed on is neither a name nor finished.
fn compose(alloc: Global, around: &Arguments, args: &mut Arguments) -> Result<(), Memory>
    ensures { OnOk result (arguments_in args.new ≡ composed (arguments_in around.now) (arguments_in args.old)) }
{
    match args {
        Arguments::None => Ok(()),
        Arguments::Before(_, _, a, others) => {
            pass_on(alloc, around, a)?;
            compose(alloc, around, others)
        }
    }
}

// One of them.
fn pass_on(alloc: Global, around: &Arguments, a: &mut Live) -> Result<(), Memory>
    ensures { OnOk result (state_in a.new ≡ passed_on (arguments_in around.now) (state_in a.old)) }
{
    if let Live::Var(u) = a {
        let passed = argument_of(alloc, around, *u)?;
        *a = passed;
    }
    Ok(())
}

// The argument of a parameter. One that isn't there counts as finished.
fn argument_of(alloc: Global, args: &Arguments, u: Name) -> Result<Live, Memory>
    ensures { IfOk result (λ r. state_in r ≡ argument_at (arguments_in args.now) u.0) }
{
    match args {
        Arguments::None => Ok(Live::Sink(Ty::Eps)),
        Arguments::Before(x, _, a, others) => {
            if u.0 == x.0 {
                again(alloc, a)
            } else {
                argument_of(alloc, others, u)
            }
        }
    }
}

// A name or what is finished, once more.
fn again(alloc: Global, a: &Live) -> Result<Live, Memory>
    ensures { IfOk result (λ r. state_in r ≡ state_in a.now) }
{
    match a {
        Live::Sink(t) => Ok(Live::Sink(stream_type::copy(alloc, t)?)),
        Live::Var(x) => Ok(Live::Var(*x)),
        Live::Par(_, _)
        | Live::Cat(_, _)
        | Live::Let(_, _, _, _)
        | Live::LetPar(_, _, _, _)
        | Live::LetCat(_, _, _, _)
        | Live::CaseSum(_, _, _, _, _, _, _)
        | Live::CaseStar(_, _, _, _, _, _, _)
        | Live::Wait(_, _, _, _)
        | Live::Frame(_, _) => Err(Memory),
    }
}
