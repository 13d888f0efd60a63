//! What parts of states give, by a step of a copy.

ghost use Rattle.std.specs.Prelude.{◌≡◌, ◌++◌, ◌∷◌, [], map, IfOk, OnOk};
ghost use Rattle.stream_type.specs.StreamType.{type_of};
ghost use Rattle.stream_prefix.specs.StreamPrefix.{is_maximal};
ghost use Rattle.stream_prefix.specs.Tree.{prefix_of};
ghost use Rattle.machine_parts.specs.Entry.{entry_in};
ghost use Rattle.machine_parts.specs.Parameters.{parameters};
ghost use Rattle.template_state.specs.Readers.{state_in, arguments_in};
ghost use Rattle.delta_code.specs.Steps.{live_run, lives_run};

use bunch::Name;
use delta_code::step;
use machine_parts::entry::Entry;
use machine_parts::scope::Scope;
use machine_parts::stop::Stop;
use state_shapes::copy;
use std::alloc::Global;
use stream_prefix::{Prefix, maximal};
use stream_type::{Memory, Ty};
use template_state::{Arguments, Code, Live};

/// What a state gives in its scope on what comes. Its errors are those of a step with so many calls left and so many
/// levels.
#[inline(never)]
pub fn output_of<'a>(
    alloc: Global,
    code: &Code,
    scope: &'a Scope<'a>,
    s: &Live,
    r: &Ty,
    left: u64,
    levels: u64,
) -> Result<Box<Prefix>, Stop>
    ensures { IfOk result (λ p. prefix_of p.value ≡ (live_run code.now scope.now (state_in s.now) (type_of r.now)).out) }
{
    let mut copy = copy(alloc, s)?;
    let told = step(alloc, code, scope, &mut copy, r, left, levels)?;
    Ok(told.output)
}

/// Whether what a state gives is whole. Its errors are those of a step.
#[inline(never)]
pub fn is_whole<'a>(
    alloc: Global,
    code: &Code,
    scope: &'a Scope<'a>,
    s: &Live,
    r: &Ty,
    left: u64,
    levels: u64,
) -> Result<bool, Stop>
    ensures { IfOk result (λ w. w ≡ is_maximal (live_run code.now scope.now (state_in s.now) (type_of r.now)).out) }
{
    let output = output_of(alloc, code, scope, s, r, left, levels)?;
    Ok(maximal(&output))
}

/// The parameters of a frame with what comes on each. Its errors are those of steps of the arguments.
#[inline(never)]
pub fn parameters_of<'a>(
    alloc: Global,
    code: &Code,
    scope: &'a Scope<'a>,
    args: &Arguments,
    left: u64,
    levels: u64,
) -> Result<Vec<Entry>, Stop>
    ensures { IfOk result (λ v. map entry_in v.items ≡ parameters (arguments_in args.now) (lives_run code.now scope.now (arguments_in args.now)).outs) }
{
    let mut found = Vec::new(alloc);
    add_parameters(alloc, code, scope, args, left, levels, &mut found)?;
    Ok(found)
}

// Puts the parameters behind what was found.
fn add_parameters<'a>(
    alloc: Global,
    code: &Code,
    scope: &'a Scope<'a>,
    args: &Arguments,
    left: u64,
    levels: u64,
    found: &mut Vec<Entry>,
) -> Result<(), Stop>
    ensures { OnOk result (map entry_in found.new.items ≡ map entry_in found.old.items ++ parameters (arguments_in args.now) (lives_run code.now scope.now (arguments_in args.now)).outs) }
{
    match args {
        Arguments::None => Ok(()),
        Arguments::Before(x, t, a, others) => {
            let output = output_of(alloc, code, scope, a, t, left, levels)?;
            add_parameter(alloc, *x, t, output, found)?;
            add_parameters(alloc, code, scope, others, left, levels, found)
        }
    }
}

// Puts a parameter, with its type and what comes on it, behind what was found.
fn add_parameter(
    alloc: Global,
    x: Name,
    t: &Ty,
    output: Box<Prefix>,
    found: &mut Vec<Entry>,
) -> Result<(), Memory>
    ensures { OnOk result (map entry_in found.new.items ≡ map entry_in found.old.items ++ record { name = x.0; type = type_of t.now; prefix = prefix_of output.value } ∷ []) }
{
    let ty = stream_type::copy(alloc, t)?;
    let prefix = Box::into_inner(output);
    found.push(Entry {
        name: x,
        ty,
        prefix,
    })?;
    Ok(())
}
