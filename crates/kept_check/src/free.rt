//! The free stream names of states.

ghost use Rattle.std.specs.Prelude.{◌≡◌, ◌==◌, ◌++◌, ◌∷◌, ◌||◌, ◌&&◌, not, ℕ, List, [], IfOk, OnOk};
ghost use Rattle.bunch.specs.Names.{numbers_of, holds};
ghost use Rattle.core_term.specs.FreeNames.{free_names};
ghost use Rattle.delta_state.specs.StateTree.{free_in_state, free_in_arguments};
ghost use Rattle.delta_keep.specs.KeptView.{state_of, later_of, arguments_from};
ghost use Rattle.kept_check.specs.Free.{HasNames, without_all};

use crate::names::is_there;
use bunch::Name;
use core_term::free;
use delta_keep::{Argument, KeptState, Waiting};
use std::alloc::Global;
use stream_type::Memory;

/// The free stream names of a state, each once or more often. Its only error is want of memory.
#[cycle(free)]
pub fn free_in(alloc: Global, s: &KeptState) -> Result<Vec<Name>, Memory>
    ensures { IfOk result (λ v. HasNames v.items (free_in_state (state_of s.now))) }
{
    match s {
        KeptState::Sink(_) => Ok(Vec::new(alloc)),
        KeptState::Var(x) => alone(alloc, *x),
        KeptState::Par(a, b) => joined(free_in(alloc, a), free_in(alloc, b), &[]),
        KeptState::Cat(a, l) => joined(free_in(alloc, a), free_in_code(alloc, l), &[]),
        KeptState::Let(x, _, a, b) => joined(free_in(alloc, a), free_in(alloc, b), &[*x]),
        KeptState::LetPar(x, y, z, a) | KeptState::LetCat(x, y, z, a) => {
            joined(alone(alloc, *z), free_in(alloc, a), &[*x, *y])
        }
        KeptState::CaseSum(z, _, _, x, l, y, m) => free_of_case(alloc, *z, l, &[*x], m, &[*y]),
        KeptState::CaseStar(z, _, _, l, y, ys, m) => {
            free_of_case(alloc, *z, l, &[], m, &[*y, *ys])
        }
        KeptState::Wait(x, _, _, l) => joined(alone(alloc, *x), free_in_code(alloc, l), &[]),
        KeptState::Frame(args, _) => free_of_all(alloc, args),
    }
}

// Names, and beside them others less some, where both are there.
fn joined(
    first: Result<Vec<Name>, Memory>,
    second: Result<Vec<Name>, Memory>,
    less: &[Name],
) -> Result<Vec<Name>, Memory>
    ensures { (xs zs : List ℕ) → IfOk first (λ v. HasNames v.items xs) → IfOk second (λ v. HasNames v.items zs) → IfOk result (λ v. HasNames v.items (xs ++ without_all (numbers_of less.now) zs)) }
{
    match second {
        Ok(more) => {
            let all = beside(first, &more, less);
            drop(more);
            all
        }
        Err(_) => {
            drop(first);
            Err(Memory)
        }
    }
}

// Names, and beside them these less some.
fn beside(
    first: Result<Vec<Name>, Memory>,
    more: &[Name],
    less: &[Name],
) -> Result<Vec<Name>, Memory>
    ensures { (xs : List ℕ) → IfOk first (λ v. HasNames v.items xs) → IfOk result (λ v. HasNames v.items (xs ++ without_all (numbers_of less.now) (numbers_of more.now))) }
{
    let mut names = first?;
    add_less(&mut names, more, less)?;
    Ok(names)
}

// A name alone.
fn alone(alloc: Global, x: Name) -> Result<Vec<Name>, Memory>
    ensures { IfOk result (λ v. HasNames v.items (x.0 ∷ [])) }
{
    Ok([x].to_vec(alloc)?)
}

// The free names of code.
fn free_in_code(alloc: Global, l: &Waiting) -> Result<Vec<Name>, Memory>
    ensures { IfOk result (λ v. HasNames v.items (free_names (later_of l.now).term)) }
{
    free(alloc, &l.code)
}

// Adds names less some.
fn add_less(names: &mut Vec<Name>, more: &[Name], less: &[Name]) -> Result<(), Memory>
    ensures { OnOk result ((x : ℕ) → holds x (numbers_of names.new.items) ≡ (holds x (numbers_of names.old.items) || (holds x (numbers_of more.now) && not (holds x (numbers_of less.now))))) }
{
    for name in more {
        add_unless(names, *name, less)?;
    }
    Ok(())
}

// Adds a name that isn't among these.
fn add_unless(names: &mut Vec<Name>, y: Name, less: &[Name]) -> Result<(), Memory>
    ensures { OnOk result ((x : ℕ) → holds x (numbers_of names.new.items) ≡ (holds x (numbers_of names.old.items) || ((x == y.0) && not (holds x (numbers_of less.now))))) }
{
    if is_there(less, y) {
        return Ok(());
    }
    names.push(y)?;
    Ok(())
}

// The free names of a case on `z`: those of its branches less the names that it binds for each.
fn free_of_case(
    alloc: Global,
    z: Name,
    l: &Waiting,
    less: &[Name],
    m: &Waiting,
    lesser: &[Name],
) -> Result<Vec<Name>, Memory>
    ensures { IfOk result (λ v. HasNames v.items (z.0 ∷ (without_all (numbers_of less.now) (free_names (later_of l.now).term) ++ without_all (numbers_of lesser.now) (free_names (later_of m.now).term)))) }
{
    let names = joined(alone(alloc, z), free_in_code(alloc, l), less);
    joined(names, free_in_code(alloc, m), lesser)
}

// The free names of the arguments of a frame.
#[cycle(free)]
fn free_of_all(alloc: Global, args: &[Argument]) -> Result<Vec<Name>, Memory>
    ensures { IfOk result (λ v. HasNames v.items (free_in_arguments (arguments_from args.now))) }
{
    let mut names = Vec::new(alloc);
    for arg in args {
        let inside = free_in(alloc, &arg.state)?;
        names.extend_from_slice(&inside)?;
    }
    Ok(names)
}
