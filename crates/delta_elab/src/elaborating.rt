//! From a program's syntax tree to its core.

ghost use Rattle.std.specs.Prelude.{◌≡◌, ◌++◌, length, Ok, Err, true, IfOk, OnOk, IfErr, IfSome};
ghost use Rattle.delta_tree.specs.Tree.{program_of};
ghost use Rattle.core_term.specs.CoreTerm.{typed_names_of, core_body_of, body_places, core_of, core_places, fits_of};
ghost use Rattle.core_term.specs.FreeNames.{IsCore, HasFewNodes};
ghost use Rattle.delta_meaning.specs.TypeNames.{no_type_names};
ghost use Rattle.delta_meaning.specs.SourceBody.{main_of, function_named, number_named};
ghost use Rattle.delta_meaning.specs.NewNames.{new_in_body};
ghost use Rattle.delta_meaning.specs.NodePlaces.{node_places, program_places};
ghost use Rattle.delta_meaning.specs.Elaboration.{core_body};
ghost use Rattle.delta_meaning.specs.Elaborated.{elaborate, core_of_tree};
ghost use Rattle.delta_elab.specs.Aliases.{aliases_among};
ghost use Rattle.delta_elab.specs.FirstFault.{fault_of};
ghost use Rattle.delta_elab.specs.Numbering.{origins_of};
ghost use Rattle.delta_elab.specs.Sources.{sources_of};

use crate::bodies::{bodies, body};
use crate::counting::has_few_nodes;
use crate::fault::ElabFault;
use crate::program_faults::check_program;
use crate::source::{Source, functions_meant, main_meant};
use crate::texts::texts;
use bunch::Name;
use core_term::{Body, Core};
use delta_tree::Program;
use std::alloc::Global;
use stream_type::{Memory, Ty};

/// The core of a program, where nothing is wrong with its names and types, and else the first thing that
/// is wrong: `elaborate` in the specs of delta_meaning, which reads the tree alone. Each node of the core
/// has the place of what it stands for. Its other error is want of memory, which it answers too where
/// the core has 2^32 nodes or more; that of a text's program never has.
pub fn elaborate(alloc: Global, p: &Program) -> Result<Core, ElabFault>
    ensures core { IfOk result (λ c. elaborate (program_of p.now) ≡ Ok (core_of c)) }
    ensures names { IfOk result (λ c. IsCore (core_of c)) }
    ensures nodes { IfOk result (λ c. HasFewNodes (core_of c)) }
    ensures places { IfOk result (λ c. core_places c ≡ program_places (program_of p.now)) }
    ensures fits { IfOk result (λ c. fits_of (core_of c) ≡ true) }
    ensures fault { IfErr result (λ e. IfSome (fault_of e) (λ x. elaborate (program_of p.now) ≡ Err x)) }
{
    let types = check_program(alloc, p)?;
    let core = core_of_program(alloc, p, &types)?;
    if has_few_nodes(&core.funs, &core.main) {
        Ok(Box::into_inner(core))
    } else {
        Err(ElabFault::Memory)
    }
}

// The core of a program with these declared types: `core_of_tree` in the specs of delta_meaning.
fn core_of_program(alloc: Global, p: &Program, types: &[(Name, Ty)]) -> Result<Box<Core>, Memory>
    requires { typed_names_of types.now ≡ aliases_among no_type_names (program_of p.now).declarations }
    ensures core { IfOk result (λ c. core_of c.value ≡ core_of_tree (program_of p.now)) }
    ensures places { IfOk result (λ c. core_places c.value ≡ program_places (program_of p.now)) }
{
    let functions = functions_meant(alloc, &p.decls, types)?;
    let mut origins = Vec::new(alloc);
    let funs = bodies(alloc, &functions, &mut origins)?;
    let main = main_body(alloc, p, types, &functions, &mut origins)?;
    let texts = texts(alloc, &p.names, &origins)?;
    let core = Core {
        funs,
        main: Box::into_inner(main),
        texts,
    };
    Ok(Box::new(alloc, core)?)
}

// The core of a program's main program, where these are the cores of its functions.
fn main_body(
    alloc: Global,
    p: &Program,
    types: &[(Name, Ty)],
    functions: &[Source<'_>],
    origins: &mut Vec<Option<Name>>,
) -> Result<Box<Body>, Memory>
    requires { typed_names_of types.now ≡ aliases_among no_type_names (program_of p.now).declarations }
    ensures body { let bs = sources_of functions.now in
        IfOk result (λ b. core_body_of b.value ≡ core_body (function_named bs) (number_named bs) (main_of (program_of p.now)) (length (origins_of origins.old.items))) }
    ensures places { IfOk result (λ b. body_places b.value ≡ node_places (main_of (program_of p.now)).body) }
    ensures next { OnOk result (origins_of origins.new.items ≡ origins_of origins.old.items ++ new_in_body (main_of (program_of p.now))) }
{
    let main = main_meant(alloc, types, &p.main)?;
    let core = body(alloc, functions, &main, origins)?;
    Ok(Box::new(alloc, core)?)
}
