//! Frames that become one, arguments that go, and arguments that take the place of their frame.

ghost use Rattle.std.specs.Prelude.{◌≡◌, true, IfOk, OnOk};
ghost use Rattle.bunch.specs.Names.{holds};
ghost use Rattle.stream_type.specs.StreamType.{StreamType};
ghost use Rattle.delta_state.specs.StateTree.{argument_names, argument_at, free_in_state};
ghost use Rattle.state_rewriting.specs.Rewriting.{SimplerBy, is_plain, are_plain, names_passed, passed_on, composed};
ghost use Rattle.template_state.specs.Readers.{state_in, arguments_in};
ghost use Rattle.template_state.specs.Passing.{passes_once, IsTakenFrom, ServesAfter, only_used};

use crate::live::{Arguments, Live, put};
use crate::names_used::uses;
use bunch::Name;
use std::alloc::Global;
use std::mem;
use stream_type::{Memory, Ty};

// Whether a state is a name or finished.
fn plain_one(s: &Live) -> bool
    ensures { result ≡ is_plain (state_in s.now) }
{
    match s {
        Live::Sink(_) | Live::Var(_) => true,
        Live::Par(_, _)
        | Live::Cat(_, _)
        | Live::Let(_, _, _, _)
        | Live::LetPar(_, _, _, _)
        | Live::LetCat(_, _, _, _)
        | Live::CaseSum(_, _, _, _, _, _, _)
        | Live::CaseStar(_, _, _, _, _, _, _)
        | Live::Wait(_, _, _, _)
        | Live::Frame(_, _) => false,
    }
}

/// Whether all arguments are names or finished: `are_plain` in `specs/Rewriting.antt` of `state_rewriting`.
pub fn all_plain(args: &Arguments) -> bool
    ensures { result ≡ are_plain (arguments_in args.now) }
{
    match args {
        Arguments::None => true,
        Arguments::Before(_, _, a, others) => plain_one(a) && all_plain(others),
    }
}

// Whether the argument of a parameter is a name or finished. One that isn't there counts as finished.
fn plain_at(args: &Arguments, u: Name) -> bool
    ensures { result ≡ is_plain (argument_at (arguments_in args.now) u.0) }
{
    match args {
        Arguments::None => true,
        Arguments::Before(x, _, a, others) => {
            if u.0 == x.0 {
                plain_one(a)
            } else {
                plain_at(others, u)
            }
        }
    }
}

// Whether a name stands as one of the arguments.
fn passes(args: &Arguments, u: Name) -> bool
    ensures { result ≡ holds u.0 (names_passed (arguments_in args.now)) }
{
    match args {
        Arguments::None => false,
        Arguments::Before(_, _, a, others) => match &**a {
            Live::Var(v) => u.0 == v.0 || passes(others, u),
            Live::Sink(_)
            | Live::Par(_, _)
            | Live::Cat(_, _)
            | Live::Let(_, _, _, _)
            | Live::LetPar(_, _, _, _)
            | Live::LetCat(_, _, _, _)
            | Live::CaseSum(_, _, _, _, _, _, _)
            | Live::CaseStar(_, _, _, _, _, _, _)
            | Live::Wait(_, _, _, _)
            | Live::Frame(_, _) => passes(others, u),
        },
    }
}

// Whether each argument of a body that is neither a name nor finished is passed on at most once by those of a
// call inside it.
fn pass_once(args: &Arguments, inner: &Arguments) -> bool
    ensures { result ≡ passes_once (arguments_in args.now) (names_passed (arguments_in inner.now)) }
{
    match inner {
        Arguments::None => true,
        Arguments::Before(_, _, a, others) => match &**a {
            Live::Var(u) => (plain_at(args, *u) || !passes(others, *u)) && pass_once(args, others),
            Live::Sink(_)
            | Live::Par(_, _)
            | Live::Cat(_, _)
            | Live::Let(_, _, _, _)
            | Live::LetPar(_, _, _, _)
            | Live::LetCat(_, _, _, _)
            | Live::CaseSum(_, _, _, _, _, _, _)
            | Live::CaseStar(_, _, _, _, _, _, _)
            | Live::Wait(_, _, _, _)
            | Live::Frame(_, _) => pass_once(args, others),
        },
    }
}

// The argument of a parameter, which stays where it was if it is a name or finished, and is moved out if not.
fn take(alloc: Global, args: &mut Arguments, u: Name) -> Result<Live, Memory>
    ensures taken { IfOk result (λ r. state_in r ≡ argument_at (arguments_in args.old) u.0) }
    ensures left { OnOk result (IsTakenFrom (arguments_in args.old) u.0 (arguments_in args.new)) }
{
    match args {
        Arguments::None => Ok(Live::Sink(Ty::Eps)),
        Arguments::Before(x, _, a, others) => {
            if u.0 == x.0 {
                take_one(alloc, a)
            } else {
                take(alloc, others, u)
            }
        }
    }
}

// One argument, which stays if it is a name or finished.
fn take_one(alloc: Global, a: &mut Live) -> Result<Live, Memory>
    ensures taken { IfOk result (λ r. state_in r ≡ state_in a.old) }
    ensures left { OnOk result (is_plain (state_in a.old) ≡ true → state_in a.new ≡ state_in a.old) }
{
    match a {
        Live::Sink(t) => Ok(Live::Sink(stream_type::copy(alloc, t)?)),
        Live::Var(x) => Ok(Live::Var(*x)),
        Live::Par(_, _)
        | Live::Cat(_, _)
        | Live::Let(_, _, _, _)
        | Live::LetPar(_, _, _, _)
        | Live::LetCat(_, _, _, _)
        | Live::CaseSum(_, _, _, _, _, _, _)
        | Live::CaseStar(_, _, _, _, _, _, _)
        | Live::Wait(_, _, _, _)
        | Live::Frame(_, _) => Ok(mem::replace(a, Live::Sink(Ty::Eps))),
    }
}

// The arguments of a call inside a body, on those of that body, of which each that is moved stands once.
fn compose(alloc: Global, args: &mut Arguments, inner: &mut Arguments) -> Result<(), Memory>
    requires plain { are_plain (arguments_in inner.old) ≡ true }
    requires once { passes_once (arguments_in args.old) (names_passed (arguments_in inner.old)) ≡ true }
    ensures { OnOk result (arguments_in inner.new ≡ composed (arguments_in args.old) (arguments_in inner.old)) }
{
    match inner {
        Arguments::None => Ok(()),
        Arguments::Before(_, _, a, others) => {
            pass_on(alloc, args, a)?;
            compose(alloc, args, others)
        }
    }
}

// One of them.
fn pass_on(alloc: Global, args: &mut Arguments, a: &mut Live) -> Result<(), Memory>
    ensures passed { OnOk result (state_in a.new ≡ passed_on (arguments_in args.old) (state_in a.old)) }
    ensures left { OnOk result (ServesAfter (arguments_in args.old) (state_in a.old) (arguments_in args.new)) }
{
    if let Live::Var(u) = a {
        let passed = take(alloc, args, *u)?;
        put(a, passed);
    }
    Ok(())
}

// A frame whose body is a frame becomes one with it, where all arguments of the inner one are names or finished,
// and each other argument of the outer one is passed on at most once. Its only error is want of memory.
#[tactic(auto, using(crate::proofs::Joining::joining))]
fn join_frames(alloc: Global, s: &mut Live) -> Result<(), Memory>
    ensures { OnOk result ((q : StreamType) → SimplerBy q (state_in s.old) (state_in s.new)) }
{
    if let Live::Frame(args, b) = s {
        if let Live::Frame(inner, _) = &mut **b {
            if all_plain(inner) && pass_once(args, inner) {
                compose(alloc, args, inner)?;
                let joined = mem::replace(&mut **b, Live::Var(Name(0)));
                put(s, joined);
            }
        }
    }
    Ok(())
}

// The arguments of the parameters that are used in the body.
fn keep_used(args: &mut Arguments, body: &Live)
    ensures { arguments_in args.new ≡ only_used (free_in_state (state_in body.now)) (arguments_in args.old) }
{
    if let Arguments::Before(x, _, _, others) = args {
        keep_used(others, body);
        if !uses(body, *x) {
            let rest = mem::replace(&mut **others, Arguments::None);
            drop(mem::replace(args, rest));
        }
    }
}

// A frame loses the arguments of the parameters that aren't used.
#[tactic(auto, using(crate::proofs::Joining::joining))]
fn drop_arguments(s: &mut Live)
    ensures { (q : StreamType) → SimplerBy q (state_in s.old) (state_in s.new) }
{
    if let Live::Frame(args, b) = s {
        keep_used(args, b);
    }
}

// Whether a name is one of the parameters.
fn is_parameter(args: &Arguments, u: Name) -> bool
    ensures { result ≡ holds u.0 (argument_names (arguments_in args.now)) }
{
    match args {
        Arguments::None => false,
        Arguments::Before(x, _, _, others) => u.0 == x.0 || is_parameter(others, u),
    }
}

// The argument of a parameter, moved out.
fn move_out(args: &mut Arguments, u: Name) -> Live
    ensures { state_in result ≡ argument_at (arguments_in args.old) u.0 }
{
    match args {
        Arguments::None => Live::Sink(Ty::Eps),
        Arguments::Before(x, _, a, others) => {
            if u.0 == x.0 {
                mem::replace(&mut **a, Live::Sink(Ty::Eps))
            } else {
                move_out(others, u)
            }
        }
    }
}

// A frame whose body is the name of one of its parameters gives way to the argument of that.
#[tactic(auto, using(crate::proofs::Joining::joining))]
fn give_argument(s: &mut Live)
    ensures { (q : StreamType) → SimplerBy q (state_in s.old) (state_in s.new) }
{
    if let Live::Frame(args, b) = s {
        if let Live::Var(u) = &**b {
            if is_parameter(args, *u) {
                let argument = move_out(args, *u);
                put(s, argument);
            }
        }
    }
}

/// A frame whose parts are settled: where its body is the name of a parameter, the argument of that takes its place;
/// arguments of parameters that aren't used go, and it becomes one with the frame that is its body. Its only error is
/// want of memory.
#[tactic(auto, using(crate::proofs::Joining::joining))]
pub fn settle_frame(alloc: Global, s: &mut Live) -> Result<(), Memory>
    ensures { OnOk result ((q : StreamType) → SimplerBy q (state_in s.old) (state_in s.new)) }
{
    give_argument(s);
    drop_arguments(s);
    join_frames(alloc, s)
}
