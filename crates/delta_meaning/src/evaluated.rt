//! What evaluations give, and how those of the parts of a form make that of the whole, as `core_term`
//! defines runs.

ghost use Rattle.std.specs.Prelude.{◌≡◌, ◌+◌, ◌<◌, ◌^◌, true, IfOk};
ghost use Rattle.stream_prefix.specs.Tree.{prefix_of};
ghost use Rattle.stream_prefix.specs.StreamPrefix.{cat_fst, in_left, in_right};
ghost use Rattle.core_term.specs.Parts.{as_star};
ghost use Rattle.core_term.specs.Run.{deeper, quiet, relabel, par_run, cat_run_at, let_run, no_runs, call_run, one_call};
ghost use Rattle.delta_meaning.specs.SourceMeaning.{typed_run};
ghost use Rattle.delta_meaning.specs.Evaluated.{run_of, runs_of, runs_after};

use core_term::stars::as_star;
use std::alloc::Global;
use stream_prefix::Prefix;
use stream_type::Memory;

/// What an evaluation gives. Contracts see it as a `Run` by `run_of` (`specs/Evaluated.antt`).
#[derive(Drop)]
pub struct Evaluated {
    /// What is given on what has come.
    pub output: Prefix,
    /// The number of calls made.
    pub calls: u64,
    /// The level of its calls from below: 0 where none is made, and else one more than the greatest
    /// level at which one is made.
    pub level: u64,
}

/// What the arguments of a call give. Contracts see it as `Runs` by `runs_of` (`specs/Evaluated.antt`).
#[derive(Drop)]
pub struct Arguments {
    /// What each gives, in turn.
    pub outputs: Vec<Prefix>,
    /// The number of calls made.
    pub calls: u64,
    /// The level of their calls from below.
    pub level: u64,
    /// Whether each is a name or whole.
    pub are_shut: bool,
}

/// What is given without a call.
pub fn quiet(output: Prefix) -> Evaluated
    ensures { run_of result ≡ quiet (prefix_of output) }
{
    Evaluated {
        output,
        calls: 0,
        level: 0,
    }
}

// The level of a part that stands one deeper, unless it stands still. A level past 64 bits, which only
// an evaluation that deep would give, counts as want of memory.
fn deeper(still: bool, level: u64) -> Result<u64, Memory>
    ensures { IfOk result (λ n. n ≡ deeper still level) }
{
    if still || level == 0 {
        Ok(level)
    } else if level < u64::MAX {
        Ok(level + 1)
    } else {
        Err(Memory)
    }
}

/// Both at once. Its only error is want of memory.
pub fn par_run(alloc: Global, a: Evaluated, b: Evaluated) -> Result<Evaluated, Memory>
    requires { a.calls + b.calls < 2 ^ 64 }
    ensures { IfOk result (λ r. run_of r ≡ par_run (run_of a) (run_of b)) }
{
    let calls = a.calls + b.calls;
    let level = a.level.max(b.level);
    let output = Prefix::Par(Box::new(alloc, a.output)?, Box::new(alloc, b.output)?);
    Ok(Evaluated {
        output,
        calls,
        level,
    })
}

/// The first of two, of which the second waits for its end. Its only error is want of memory.
pub fn first_run(alloc: Global, a: Evaluated) -> Result<Evaluated, Memory>
    ensures { IfOk result (λ r. run_of r ≡ relabel cat_fst (run_of a)) }
{
    Ok(Evaluated {
        output: Prefix::CatFst(Box::new(alloc, a.output)?),
        calls: a.calls,
        level: a.level,
    })
}

/// The first of two and, since it is whole, the second. Its only error is want of memory.
pub fn cat_run(alloc: Global, a: Evaluated, b: Evaluated) -> Result<Evaluated, Memory>
    requires { a.calls + b.calls < 2 ^ 64 }
    ensures { IfOk result (λ r. run_of r ≡ cat_run_at true (run_of a) (run_of b)) }
{
    let calls = a.calls + b.calls;
    let level = a.level.max(b.level);
    let output = Prefix::CatBoth(Box::new(alloc, a.output)?, Box::new(alloc, b.output)?);
    Ok(Evaluated {
        output,
        calls,
        level,
    })
}

/// An item and the rest of a star as one star. Its only error is want of memory; it counts as that where
/// the rest is no star, which no typed program gives.
pub fn star_run(alloc: Global, a: Evaluated) -> Result<Evaluated, Memory>
    ensures { IfOk result (λ r. run_of r ≡ relabel as_star (run_of a)) }
{
    Ok(Evaluated {
        output: as_star(alloc, a.output)?,
        calls: a.calls,
        level: a.level,
    })
}

/// The left side of a sum. Its only error is want of memory.
pub fn left_run(alloc: Global, a: Evaluated) -> Result<Evaluated, Memory>
    ensures { IfOk result (λ r. run_of r ≡ relabel in_left (run_of a)) }
{
    Ok(Evaluated {
        output: Prefix::Inl(Box::new(alloc, a.output)?),
        calls: a.calls,
        level: a.level,
    })
}

/// The right side of a sum. Its only error is want of memory.
pub fn right_run(alloc: Global, a: Evaluated) -> Result<Evaluated, Memory>
    ensures { IfOk result (λ r. run_of r ≡ relabel in_right (run_of a)) }
{
    Ok(Evaluated {
        output: Prefix::Inr(Box::new(alloc, a.output)?),
        calls: a.calls,
        level: a.level,
    })
}

/// An expression with its type. Its only error is want of memory.
pub fn typed_run(a: Evaluated) -> Result<Evaluated, Memory>
    ensures { IfOk result (λ r. run_of r ≡ typed_run (run_of a)) }
{
    let level = deeper(false, a.level)?;
    Ok(Evaluated {
        output: a.output,
        calls: a.calls,
        level,
    })
}

/// What stands after a head, with the head's calls. Its only error is want of memory.
pub fn let_run(is_name: bool, a: &Evaluated, b: Evaluated) -> Result<Evaluated, Memory>
    requires { a.now.calls + b.calls < 2 ^ 64 }
    ensures { IfOk result (λ r. run_of r ≡ let_run is_name (run_of a.now) (run_of b)) }
{
    let still = is_name || stream_prefix::maximal(&a.output);
    let head = deeper(false, a.level)?;
    let body = deeper(still, b.level)?;
    Ok(Evaluated {
        output: b.output,
        calls: a.calls + b.calls,
        level: head.max(body),
    })
}

/// No arguments yet.
pub fn no_arguments(alloc: Global) -> Arguments
    ensures { runs_of result ≡ no_runs }
{
    Arguments {
        outputs: Vec::new(alloc),
        calls: 0,
        level: 0,
        are_shut: true,
    }
}

/// One more argument after the others. Its only error is want of memory.
pub fn one_more(arguments: Arguments, is_name: bool, a: Evaluated) -> Result<Arguments, Memory>
    requires { arguments.calls + a.calls < 2 ^ 64 }
    ensures { IfOk result (λ r. runs_of r ≡ runs_after (runs_of arguments) is_name (run_of a)) }
{
    let are_shut = arguments.are_shut && (is_name || stream_prefix::maximal(&a.output));
    let calls = arguments.calls + a.calls;
    let level = arguments.level.max(a.level);
    let mut outputs = arguments.outputs;
    outputs.push(a.output)?;
    Ok(Arguments {
        outputs,
        calls,
        level,
        are_shut,
    })
}

/// A call of a body, which `b` counts, on its arguments. Its only error is want of memory.
pub fn call_run(arguments: &Arguments, b: Evaluated) -> Result<Evaluated, Memory>
    requires { arguments.now.calls + b.calls < 2 ^ 64 }
    ensures { IfOk result (λ r. run_of r ≡ call_run (runs_of arguments.now) (run_of b)) }
{
    let before = deeper(false, arguments.level)?;
    let inside = deeper(arguments.are_shut, b.level)?;
    Ok(Evaluated {
        output: b.output,
        calls: arguments.calls + b.calls,
        level: before.max(inside).max(1),
    })
}

/// The same as a call.
pub fn one_call(a: Evaluated) -> Evaluated
    requires { 1 + a.calls < 2 ^ 64 }
    ensures { run_of result ≡ one_call (run_of a) }
{
    Evaluated {
        output: a.output,
        calls: 1 + a.calls,
        level: a.level,
    }
}
