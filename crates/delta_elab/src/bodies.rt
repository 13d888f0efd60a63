//! The cores of functions: numbers for their parameters, and the cores of what they give.

ghost use Rattle.std.specs.Prelude.{◌≡◌, ◌+◌, ◌++◌, length, map, Some, IfOk, OnOk};
ghost use Rattle.std.specs.List.{concat};
ghost use Rattle.bunch.specs.BunchTree.{tree_of, leaf_names};
ghost use Rattle.core_term.specs.CoreTerm.{typed_names_of, core_body_of, body_places};
ghost use Rattle.delta_meaning.specs.SourceBody.{function_named, number_named};
ghost use Rattle.delta_meaning.specs.NewNames.{new_in_body, new_in_bodies};
ghost use Rattle.delta_meaning.specs.NodePlaces.{node_places, body_places as places_of_bodies};
ghost use Rattle.delta_meaning.specs.Elaboration.{core_body, core_bodies, numbered_params, numbered_past};
ghost use Rattle.delta_elab.specs.Numbering.{origins_of, number_entries, entries_from};
ghost use Rattle.delta_elab.specs.Sources.{source_of, sources_of, names_of};

use crate::cores::core;
use crate::numbering::named;
use crate::scope::Scope;
use crate::source::{Setting, Source};
use bunch::{Bunch, Name};
use core_term::Body;
use std::alloc::Global;
use stream_type::{Memory, Ty, copy};

/// The cores of functions, in turn, where their variables are numbered from the next number on:
/// `core_bodies` in the specs of delta_meaning. Its only error is want of memory.
pub fn bodies(
    alloc: Global,
    functions: &[Source<'_>],
    origins: &mut Vec<Option<Name>>,
) -> Result<Vec<Body>, Memory>
    ensures bodies { let bs = sources_of functions.now in
        IfOk result (λ v. map core_body_of v.items ≡ core_bodies (function_named bs) (number_named bs) bs (length (origins_of origins.old.items))) }
    ensures places { IfOk result (λ v. concat (map body_places v.items) ≡ places_of_bodies (sources_of functions.now)) }
    ensures next { OnOk result (origins_of origins.new.items ≡ origins_of origins.old.items ++ new_in_bodies (sources_of functions.now)) }
{
    let mut cores = Vec::new(alloc);
    for function in functions {
        cores.push(body(alloc, functions, function, origins)?)?;
    }
    Ok(cores)
}

/// The core of a function, or of the main program, where its variables are numbered from the next
/// number on: `core_body` in the specs of delta_meaning. Its only error is want of memory.
#[tactic(auto, using(crate::proofs::Origins::origin_lists))]
pub fn body(
    alloc: Global,
    functions: &[Source<'_>],
    function: &Source<'_>,
    origins: &mut Vec<Option<Name>>,
) -> Result<Body, Memory>
    ensures body { let bs = sources_of functions.now in
        IfOk result (λ b. core_body_of b ≡ core_body (function_named bs) (number_named bs) (source_of function.now) (length (origins_of origins.old.items))) }
    ensures places { IfOk result (λ b. body_places b ≡ node_places (source_of function.now).body) }
    ensures next { OnOk result (origins_of origins.new.items ≡ origins_of origins.old.items ++ new_in_body (source_of function.now)) }
{
    let mut past_numbers = Vec::new(alloc);
    let past = number_past(alloc, &function.past, &mut past_numbers, origins)?;
    let mut numbers = Vec::new(alloc);
    let params = number_params(alloc, &function.params, &mut numbers, origins)?;
    numbers.append(&mut past_numbers)?;
    let setting = Setting {
        functions,
        known: function.known,
    };
    let scope = Scope::Params(&numbers, &function.params);
    let wanted = Some(&function.result);
    let term = core(alloc, &setting, function.body, &scope, wanted, origins)?;
    let result = copy(alloc, &function.result)?;
    Ok(Body {
        past,
        params: Box::into_inner(params),
        result,
        body: Box::into_inner(term),
    })
}

// The historical parameters with numbers in place of their names; each name and its number is put at
// the end of the numbers.
#[tactic(auto, using(crate::proofs::Origins::origin_lists))]
fn number_past(
    alloc: Global,
    past: &[(Name, Ty)],
    numbers: &mut Vec<(Name, Name)>,
    origins: &mut Vec<Option<Name>>,
) -> Result<Vec<(Name, Ty)>, Memory>
    ensures past { IfOk result (λ v. typed_names_of v.items ≡ numbered_past (typed_names_of past.now) (length (origins_of origins.old.items))) }
    ensures numbers { OnOk result (number_entries numbers.new.items ≡ number_entries numbers.old.items ++ entries_from (names_of (typed_names_of past.now)) (length (origins_of origins.old.items))) }
    ensures next { OnOk result (origins_of origins.new.items ≡ origins_of origins.old.items ++ map Some (names_of (typed_names_of past.now))) }
{
    let mut numbered = Vec::new(alloc);
    for (x, t) in past {
        let n = named(*x, origins)?;
        numbers.push((*x, n))?;
        numbered.push((n, copy(alloc, t)?))?;
    }
    Ok(numbered)
}

// The stream parameters with numbers in place of their names; each name and its number is put at the
// end of the numbers.
#[tactic(auto, using(crate::proofs::Origins::origin_lists))]
fn number_params(
    alloc: Global,
    params: &Bunch,
    numbers: &mut Vec<(Name, Name)>,
    origins: &mut Vec<Option<Name>>,
) -> Result<Box<Bunch>, Memory>
    ensures params { IfOk result (λ b. tree_of b.value ≡ numbered_params (tree_of params.now) (length (origins_of origins.old.items))) }
    ensures numbers { OnOk result (number_entries numbers.new.items ≡ number_entries numbers.old.items ++ entries_from (leaf_names (tree_of params.now)) (length (origins_of origins.old.items))) }
    ensures next { OnOk result (origins_of origins.new.items ≡ origins_of origins.old.items ++ map Some (leaf_names (tree_of params.now))) }
{
    match params {
        Bunch::Empty => boxed(alloc, Bunch::Empty),
        Bunch::Leaf(x, t) => {
            let n = named(*x, origins)?;
            numbers.push((*x, n))?;
            boxed(alloc, Bunch::Leaf(n, copy(alloc, t)?))
        }
        Bunch::Comma(a, b) => {
            let a = number_params(alloc, a, numbers, origins)?;
            let b = number_params(alloc, b, numbers, origins)?;
            boxed(alloc, Bunch::Comma(a, b))
        }
        Bunch::Semi(a, b) => {
            let a = number_params(alloc, a, numbers, origins)?;
            let b = number_params(alloc, b, numbers, origins)?;
            boxed(alloc, Bunch::Semi(a, b))
        }
    }
}

// The bunch in a box.
fn boxed(alloc: Global, b: Bunch) -> Result<Box<Bunch>, Memory>
    ensures { IfOk result (λ r. tree_of r.value ≡ tree_of b) }
{
    Ok(Box::new(alloc, b)?)
}
