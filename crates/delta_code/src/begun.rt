//! What steps give, and how those of the parts of a form make that of the whole: the run and the state left.

ghost use Rattle.std.specs.Prelude.{◌≡◌, ◌+◌, ◌<◌, ◌^◌, true, IfOk};
ghost use Rattle.stream_type.specs.StreamType.{type_of};
ghost use Rattle.stream_prefix.specs.Tree.{prefix_of};
ghost use Rattle.stream_prefix.specs.StreamPrefix.{cat_fst, in_left, in_right, der};
ghost use Rattle.core_term.specs.Parts.{as_star};
ghost use Rattle.core_term.specs.Run.{deeper, quiet, relabel, par_run, cat_run_at, let_run, no_runs, run_before, frame_run, call_run, one_call};
ghost use Rattle.delta_state.specs.StateTree.{sink, var_state, par_state, cat_state, let_state, let_cat_state, frame_state, no_arguments, argument_before};
ghost use Rattle.delta_state.specs.Rest.{cut_state};
ghost use Rattle.machine_parts.specs.Levels.{below};
ghost use Rattle.template_state.specs.Readers.{state_in, later_in};
ghost use Rattle.delta_code.specs.Begun.{run_of, rest_of, runs_of, rests_of};

use bunch::Name;
use machine_parts::holding::left;
use machine_parts::levels::deeper;
use machine_parts::parts::{Cut, cat_types, cut_taken};
use machine_parts::stars::as_star;
use std::alloc::Global;
use stream_prefix::Prefix;
use stream_type::{Memory, Ty};
use template_state::{Arguments, Later, Live};

/// What a step of a part gives. Contracts see it as a `Run` by `run_of`, and the state left by `rest_of`
/// (`specs/Begun.antt`).
#[derive(Drop)]
pub struct Begun {
    /// What is given on what comes.
    pub output: Box<Prefix>,
    /// The number of calls made.
    pub calls: u64,
    /// The level of its calls from below: 0 where none is made, and else one more than the greatest
    /// level at which one is made.
    pub level: u64,
    /// The state left.
    pub state: Box<Live>,
}

/// What steps of the arguments of a call give. Contracts see it as `Runs` by `runs_of`, and the states left
/// by `rests_of` (`specs/Begun.antt`).
#[derive(Drop)]
pub struct Passed {
    /// What each gives, in turn.
    pub outputs: Vec<Prefix>,
    /// The number of calls made.
    pub calls: u64,
    /// The level of their calls from below.
    pub level: u64,
    /// Whether each is a name or whole.
    pub are_shut: bool,
    /// The states left, in turn.
    pub states: Box<Arguments>,
}

/// What is given without a call.
pub fn quiet(output: Box<Prefix>, state: Box<Live>) -> Begun
    ensures run { run_of result ≡ quiet (prefix_of output.value) }
    ensures rest { rest_of result ≡ state_in state.value }
{
    Begun {
        output,
        calls: 0,
        level: 0,
        state,
    }
}

/// Both at once. Its only error is want of memory.
#[inline(never)]
pub fn both(alloc: Global, a: Begun, b: Begun) -> Result<Begun, Memory>
    requires { a.calls + b.calls < 2 ^ 64 }
    ensures run { IfOk result (λ r. run_of r ≡ par_run (run_of a) (run_of b)) }
    ensures rest { IfOk result (λ r. rest_of r ≡ par_state (rest_of a) (rest_of b)) }
{
    let calls = a.calls + b.calls;
    let level = a.level.max(b.level);
    let output = Box::new(alloc, Prefix::Par(a.output, b.output))?;
    let state = Box::new(alloc, Live::Par(a.state, b.state))?;
    Ok(Begun {
        output,
        calls,
        level,
        state,
    })
}

/// The first of two, of which the second waits for its end. Its only error is want of memory.
#[inline(never)]
pub fn first(alloc: Global, a: Begun, second: Later) -> Result<Begun, Memory>
    ensures run { IfOk result (λ r. run_of r ≡ relabel cat_fst (run_of a)) }
    ensures rest { IfOk result (λ r. rest_of r ≡ cat_state (rest_of a) (later_in second)) }
{
    let output = Box::new(alloc, Prefix::CatFst(a.output))?;
    let state = Box::new(alloc, Live::Cat(a.state, second))?;
    Ok(Begun {
        output,
        calls: a.calls,
        level: a.level,
        state,
    })
}

/// The first of two and, since it is whole, the second. Its only error is want of memory.
#[inline(never)]
pub fn second(alloc: Global, a: Begun, b: Begun) -> Result<Begun, Memory>
    requires { a.calls + b.calls < 2 ^ 64 }
    ensures run { IfOk result (λ r. run_of r ≡ cat_run_at true (run_of a) (run_of b)) }
    ensures rest { IfOk result (λ r. rest_of r ≡ rest_of b) }
{
    let calls = a.calls + b.calls;
    let level = a.level.max(b.level);
    let output = Box::new(alloc, Prefix::CatBoth(a.output, b.output))?;
    Ok(Begun {
        output,
        calls,
        level,
        state: b.state,
    })
}

/// An item and the rest of a star as one star. Its only error is want of memory; it counts as that where
/// the rest is no star, which no typed program gives.
#[inline(never)]
pub fn starred(alloc: Global, a: Begun) -> Result<Begun, Memory>
    ensures run { IfOk result (λ r. run_of r ≡ relabel as_star (run_of a)) }
    ensures rest { IfOk result (λ r. rest_of r ≡ rest_of a) }
{
    let output = as_star(alloc, Box::into_inner(a.output))?;
    Ok(Begun {
        output,
        calls: a.calls,
        level: a.level,
        state: a.state,
    })
}

/// The left side of a sum. Its only error is want of memory.
#[inline(never)]
pub fn left_side(alloc: Global, a: Begun) -> Result<Begun, Memory>
    ensures run { IfOk result (λ r. run_of r ≡ relabel in_left (run_of a)) }
    ensures rest { IfOk result (λ r. rest_of r ≡ rest_of a) }
{
    let output = Box::new(alloc, Prefix::Inl(a.output))?;
    Ok(Begun {
        output,
        calls: a.calls,
        level: a.level,
        state: a.state,
    })
}

/// The right side of a sum. Its only error is want of memory.
#[inline(never)]
pub fn right_side(alloc: Global, a: Begun) -> Result<Begun, Memory>
    ensures run { IfOk result (λ r. run_of r ≡ relabel in_right (run_of a)) }
    ensures rest { IfOk result (λ r. rest_of r ≡ rest_of a) }
{
    let output = Box::new(alloc, Prefix::Inr(a.output))?;
    Ok(Begun {
        output,
        calls: a.calls,
        level: a.level,
        state: a.state,
    })
}

/// A name of this type bound to what the first gives in the second. Its only error is want of memory.
#[inline(never)]
pub fn bound(
    alloc: Global,
    is_name: bool,
    x: Name,
    t: &Ty,
    a: Begun,
    b: Begun,
) -> Result<Begun, Memory>
    requires { a.calls + b.calls < 2 ^ 64 }
    ensures run { IfOk result (λ r. run_of r ≡ let_run is_name (run_of a) (run_of b)) }
    ensures rest { IfOk result (λ r. rest_of r ≡ let_state x.0 (der (prefix_of a.output.value) (type_of t.now)) (rest_of a) (rest_of b)) }
{
    let still = is_name || stream_prefix::maximal(&a.output);
    let calls = a.calls + b.calls;
    let level = deeper(false, a.level)?.max(deeper(still, b.level)?);
    let ty = left(alloc, t, &a.output)?;
    let state = Box::new(alloc, Live::Let(x, ty, a.state, b.state))?;
    Ok(Begun {
        output: b.output,
        calls,
        level,
        state,
    })
}

/// No arguments. Its only error is want of memory.
pub fn no_arguments(alloc: Global) -> Result<Passed, Memory>
    ensures runs { IfOk result (λ r. runs_of r ≡ no_runs) }
    ensures rests { IfOk result (λ r. rests_of r ≡ no_arguments) }
    ensures none { IfOk result (λ r. r.calls ≡ 0) }
{
    let states = Box::new(alloc, Arguments::None)?;
    Ok(Passed {
        outputs: Vec::new(alloc),
        calls: 0,
        level: 0,
        are_shut: true,
        states,
    })
}

/// An argument in front of others, without its state. Its only error is want of memory.
#[inline(never)]
pub fn run_before(alloc: Global, is_name: bool, a: &Begun, others: Passed) -> Result<Passed, Memory>
    requires { a.now.calls + others.calls < 2 ^ 64 }
    ensures runs { IfOk result (λ r. runs_of r ≡ run_before is_name (run_of a.now) (runs_of others)) }
    ensures rests { IfOk result (λ r. rests_of r ≡ rests_of others) }
{
    let are_shut = (is_name || stream_prefix::maximal(&a.output)) && others.are_shut;
    let mut rest = others.outputs;
    let mut outputs = Vec::new(alloc);
    outputs.push(stream_prefix::copy(alloc, &a.output)?)?;
    outputs.append(&mut rest)?;
    Ok(Passed {
        outputs,
        calls: a.calls + others.calls,
        level: a.level.max(others.level),
        are_shut,
        states: others.states,
    })
}

/// The state of an argument for a parameter of this type in front of those of others. Its only error is want
/// of memory.
#[inline(never)]
pub fn state_before(
    alloc: Global,
    name: Name,
    t: &Ty,
    a: Begun,
    others: Passed,
) -> Result<Passed, Memory>
    ensures runs { IfOk result (λ r. runs_of r ≡ runs_of others) }
    ensures rests { IfOk result (λ r. rests_of r ≡ argument_before name.0 (der (prefix_of a.output.value) (type_of t.now)) (rest_of a) (rests_of others)) }
{
    let ty = left(alloc, t, &a.output)?;
    let states = Box::new(alloc, Arguments::Before(name, ty, a.state, others.states))?;
    Ok(Passed {
        outputs: others.outputs,
        calls: others.calls,
        level: others.level,
        are_shut: others.are_shut,
        states,
    })
}

/// A body on its arguments. Its only error is want of memory.
#[inline(never)]
pub fn framed(alloc: Global, arguments: Passed, b: Begun) -> Result<Begun, Memory>
    requires { arguments.calls + b.calls < 2 ^ 64 }
    ensures run { IfOk result (λ r. run_of r ≡ frame_run (runs_of arguments) (run_of b)) }
    ensures rest { IfOk result (λ r. rest_of r ≡ frame_state (rests_of arguments) (rest_of b)) }
{
    let level = deeper(false, arguments.level)?.max(deeper(arguments.are_shut, b.level)?);
    let state = Box::new(alloc, Live::Frame(arguments.states, b.state))?;
    Ok(Begun {
        output: b.output,
        calls: arguments.calls + b.calls,
        level,
        state,
    })
}

/// A call of a body, which `b` counts, on its arguments. Its only error is want of memory.
#[inline(never)]
pub fn called(alloc: Global, arguments: Passed, b: Begun) -> Result<Begun, Memory>
    requires { arguments.calls + b.calls < 2 ^ 64 }
    ensures run { IfOk result (λ r. run_of r ≡ call_run (runs_of arguments) (run_of b)) }
    ensures rest { IfOk result (λ r. rest_of r ≡ frame_state (rests_of arguments) (rest_of b)) }
{
    let inside = framed(alloc, arguments, b)?;
    Ok(Begun {
        output: inside.output,
        calls: inside.calls,
        level: inside.level.max(1),
        state: inside.state,
    })
}

/// The same as a call.
pub fn one_call(a: Begun) -> Begun
    requires { 1 + a.calls < 2 ^ 64 }
    ensures run { run_of result ≡ one_call (run_of a) }
    ensures rest { rest_of result ≡ rest_of a }
{
    Begun {
        output: a.output,
        calls: 1 + a.calls,
        level: a.level,
        state: a.state,
    }
}

/// `let (x; y) = z`, of this type, after this on z, round what is left. Its only error is want of memory.
#[inline(never)]
pub fn cut(
    alloc: Global,
    x: Name,
    y: Name,
    z: Name,
    s: &Ty,
    p: &Prefix,
    a: Begun,
) -> Result<Begun, Memory>
    ensures run { IfOk result (λ r. run_of r ≡ run_of a) }
    ensures rest { IfOk result (λ r. rest_of r ≡ cut_state x.0 y.0 z.0 (type_of s.now) (prefix_of p.now) (rest_of a)) }
{
    let (t, u) = cat_types(s, &Ty::Eps);
    match cut_taken(p) {
        Cut::Before => rowed(alloc, x, y, z, a),
        Cut::After(p, q) => in_two(alloc, x, t, p, y, u, q, z, a),
    }
}

/// Two lets round what is left: of a name of type t on which nothing comes any more after p, and of one for
/// z, of type u, after q. Its only error is want of memory.
#[inline(never)]
pub fn in_two(
    alloc: Global,
    x: Name,
    t: &Ty,
    p: &Prefix,
    y: Name,
    u: &Ty,
    q: &Prefix,
    z: Name,
    a: Begun,
) -> Result<Begun, Memory>
    ensures run { IfOk result (λ r. run_of r ≡ run_of a) }
    ensures rest { IfOk result (λ r. rest_of r ≡ let_state x.0 (der (prefix_of p.now) (type_of t.now)) (sink (der (prefix_of p.now) (type_of t.now))) (let_state y.0 (der (prefix_of q.now) (type_of u.now)) (var_state z.0) (rest_of a))) }
{
    let inside = aliased(alloc, y, u, q, z, a)?;
    let over = over(alloc, t, p)?;
    let state = let_of(alloc, x, t, p, over, inside.state)?;
    Ok(Begun {
        output: inside.output,
        calls: inside.calls,
        level: inside.level,
        state,
    })
}

/// A let of a name for z, of type t, after p on it, round what is left. Its only error is want of memory.
#[inline(never)]
pub fn aliased(
    alloc: Global,
    x: Name,
    t: &Ty,
    p: &Prefix,
    z: Name,
    a: Begun,
) -> Result<Begun, Memory>
    ensures run { IfOk result (λ r. run_of r ≡ run_of a) }
    ensures rest { IfOk result (λ r. rest_of r ≡ let_state x.0 (der (prefix_of p.now) (type_of t.now)) (var_state z.0) (rest_of a)) }
{
    let name = Box::new(alloc, Live::Var(z))?;
    let state = let_of(alloc, x, t, p, name, a.state)?;
    Ok(Begun {
        output: a.output,
        calls: a.calls,
        level: a.level,
        state,
    })
}

/// `let (x; y) = z`, before its mark, round what is left. Its only error is want of memory.
#[inline(never)]
pub fn rowed(alloc: Global, x: Name, y: Name, z: Name, a: Begun) -> Result<Begun, Memory>
    ensures run { IfOk result (λ r. run_of r ≡ run_of a) }
    ensures rest { IfOk result (λ r. rest_of r ≡ let_cat_state x.0 y.0 z.0 (rest_of a)) }
{
    let state = Box::new(alloc, Live::LetCat(x, y, z, a.state))?;
    Ok(Begun {
        output: a.output,
        calls: a.calls,
        level: a.level,
        state,
    })
}

// A let of a name of type t, after p on it, for the first state in the second.
fn let_of(
    alloc: Global,
    x: Name,
    t: &Ty,
    p: &Prefix,
    a: Box<Live>,
    b: Box<Live>,
) -> Result<Box<Live>, Memory>
    ensures { IfOk result (λ s. state_in s.value ≡ let_state x.0 (der (prefix_of p.now) (type_of t.now)) (state_in a.value) (state_in b.value)) }
{
    let ty = left(alloc, t, p)?;
    Ok(Box::new(alloc, Live::Let(x, ty, a, b))?)
}

/// The state of a type on which nothing comes any more, after p. Its only error is want of memory.
#[inline(never)]
pub fn over(alloc: Global, t: &Ty, p: &Prefix) -> Result<Box<Live>, Memory>
    ensures { IfOk result (λ s. state_in s.value ≡ sink (der (prefix_of p.now) (type_of t.now))) }
{
    let ty = left(alloc, t, p)?;
    Ok(Box::new(alloc, Live::Sink(ty))?)
}
