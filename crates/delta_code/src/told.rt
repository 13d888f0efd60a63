//! What a step in place gives, and how what the parts of a form give makes that of the whole.

ghost use Rattle.std.specs.Prelude.{◌≡◌, ◌+◌, ◌<◌, ◌^◌, ◌&&◌, max, true, IfOk};
ghost use Rattle.stream_prefix.specs.Tree.{prefix_of};
ghost use Rattle.stream_prefix.specs.StreamPrefix.{cat_fst};
ghost use Rattle.core_term.specs.Run.{Runs, quiet, relabel, par_run, cat_run_at, let_run, frame_run};
ghost use Rattle.delta_state.specs.StateTree.{StateTree};
ghost use Rattle.delta_code.specs.Told.{told, left_after};
ghost use Rattle.delta_code.specs.Begun.{run_of, rest_of};

use crate::begun::Begun;
use machine_parts::levels::deeper;
use std::alloc::Global;
use stream_prefix::Prefix;
use stream_type::Memory;
use template_state::Live;

/// What a step gives. Contracts see it as a `Run` by `told` (`specs/Told.antt`).
#[derive(Drop)]
pub struct Told {
    /// What is given on what comes.
    pub output: Box<Prefix>,
    /// The number of calls made.
    pub calls: u64,
    /// The level of its calls from below.
    pub level: u64,
}

/// What a step gives, and the state that takes the place of the one that stood there, if one does.
#[derive(Drop)]
pub struct Gone {
    /// What is given.
    pub told: Told,
    /// The other state.
    pub state: Option<Box<Live>>,
}

/// What steps of the arguments of a frame give. It is `Runs` less what each
/// gives.
#[derive(Drop)]
pub struct AllTold {
    /// The number of calls made.
    pub calls: u64,
    /// The level of their calls from below.
    pub level: u64,
    /// Whether each is a name or whole.
    pub are_shut: bool,
}

/// What is given without a call.
pub fn quiet(output: Box<Prefix>) -> Told
    ensures { told result ≡ quiet (prefix_of output.value) }
{
    Told {
        output,
        calls: 0,
        level: 0,
    }
}

/// Both at once. Its only error is want of memory.
#[inline(never)]
pub fn both(alloc: Global, a: Told, b: Told) -> Result<Told, Memory>
    requires { a.calls + b.calls < 2 ^ 64 }
    ensures { IfOk result (λ r. told r ≡ par_run (told a) (told b)) }
{
    let calls = a.calls + b.calls;
    let level = a.level.max(b.level);
    let output = Box::new(alloc, Prefix::Par(a.output, b.output))?;
    Ok(Told {
        output,
        calls,
        level,
    })
}

/// The first of two, which isn't whole. Its only error is want of memory.
#[inline(never)]
pub fn first(alloc: Global, a: Told) -> Result<Told, Memory>
    ensures { IfOk result (λ r. told r ≡ relabel cat_fst (told a)) }
{
    let output = Box::new(alloc, Prefix::CatFst(a.output))?;
    Ok(Told {
        output,
        calls: a.calls,
        level: a.level,
    })
}

/// The first of two, which is whole, and the second. Its only error is want of memory.
#[inline(never)]
pub fn second(alloc: Global, a: Told, b: Begun) -> Result<Gone, Memory>
    requires { a.calls + b.calls < 2 ^ 64 }
    ensures run { IfOk result (λ r. told r.told ≡ cat_run_at true (told a) (run_of b)) }
    ensures rest { IfOk result (λ r. (s : StateTree) → left_after r.state s ≡ rest_of b) }
    ensures counted { IfOk result (λ r. r.told.calls ≡ a.calls + b.calls) }
{
    let calls = a.calls + b.calls;
    let level = a.level.max(b.level);
    let output = Box::new(alloc, Prefix::CatBoth(a.output, b.output))?;
    Ok(Gone {
        told: Told {
            output,
            calls,
            level,
        },
        state: Some(b.state),
    })
}

/// The second with the first bound to a name.
pub fn bound(is_name: bool, a: Told, b: Told) -> Result<Told, Memory>
    requires { a.calls + b.calls < 2 ^ 64 }
    ensures { IfOk result (λ r. told r ≡ let_run is_name (told a) (told b)) }
{
    let still = is_name || stream_prefix::maximal(&a.output);
    let calls = a.calls + b.calls;
    let level = deeper(false, a.level)?.max(deeper(still, b.level)?);
    Ok(Told {
        output: b.output,
        calls,
        level,
    })
}

/// No arguments.
pub fn none_told() -> AllTold
    ensures { (result.calls ≡ 0) × ((result.level ≡ 0) × (result.are_shut ≡ true)) }
{
    AllTold {
        calls: 0,
        level: 0,
        are_shut: true,
    }
}

/// An argument in front of others.
pub fn told_before(shut: bool, calls: u64, level: u64, others: AllTold) -> AllTold
    requires { calls + others.calls < 2 ^ 64 }
    ensures calls { result.calls ≡ calls + others.calls }
    ensures level { result.level ≡ max level others.level }
    ensures are_shut { result.are_shut ≡ (shut && others.are_shut) }
{
    AllTold {
        calls: calls + others.calls,
        level: level.max(others.level),
        are_shut: shut && others.are_shut,
    }
}

/// A body on its arguments. A level past 64 bits counts as want of memory.
pub fn framed(arguments: AllTold, b: Told) -> Result<Told, Memory>
    requires { arguments.calls + b.calls < 2 ^ 64 }
    ensures { IfOk result (λ r. (runs : Runs) → runs.calls ≡ arguments.calls → runs.level ≡ arguments.level → runs.are_shut ≡ arguments.are_shut → told r ≡ frame_run runs (told b)) }
{
    let level = deeper(false, arguments.level)?.max(deeper(arguments.are_shut, b.level)?);
    Ok(Told {
        output: b.output,
        calls: arguments.calls + b.calls,
        level,
    })
}
