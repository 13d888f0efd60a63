//! The first thing that is wrong with a program, and the types that it declares.

ghost use Rattle.std.specs.Prelude.{◌≡◌, [], map, IfOk, IfErr};
ghost use Rattle.delta_tree.specs.Tree.{function_of, declaration_of, program_of};
ghost use Rattle.core_term.specs.CoreTerm.{typed_names_of};
ghost use Rattle.delta_meaning.specs.TypeNames.{no_type_names};
ghost use Rattle.delta_meaning.specs.KnownTypes.{names_known};
ghost use Rattle.delta_meaning.specs.Faults.{function_faults, main_faults, declaration_faults, faults};
ghost use Rattle.delta_elab.specs.Aliases.{aliases_among};
ghost use Rattle.delta_elab.specs.Bounds.{is_declared};
ghost use Rattle.delta_elab.specs.FirstFault.{Says, IsFirst};

use crate::bound::Bound;
use crate::fault::ElabFault;
use crate::name_faults::{Known, check_expression};
use crate::type_faults::{check_input, check_params, check_past, check_type};
use bunch::Name;
use delta_meaning::type_meant;
use delta_tree::{Decl, Fun, Program};
use std::alloc::Global;
use stream_type::Ty;

/// The types that a program in which nothing is wrong declares, in turn, each with its name; its error is
/// want of memory, or the first thing that is wrong: `faults` in the specs of delta_meaning.
pub fn check_program(alloc: Global, p: &Program) -> Result<Vec<(Name, Ty)>, ElabFault>
    ensures fine { IfOk result (λ _. faults (program_of p.now) ≡ []) }
    ensures types { IfOk result (λ v. typed_names_of v.items ≡ aliases_among no_type_names (program_of p.now).declarations) }
    ensures fault { IfErr result (λ e. IsFirst e (faults (program_of p.now))) }
{
    let types = check_declarations(alloc, &p.decls)?;
    let known = Known {
        decls: &p.decls,
        types: &types,
    };
    check_main(&known, &p.main)?;
    Ok(types)
}

// The types that declarations in which nothing is wrong declare.
#[tactic(auto, using(crate::proofs::Firsts::first_in_two))]
fn check_declarations(alloc: Global, decls: &[Decl]) -> Result<Vec<(Name, Ty)>, ElabFault>
    ensures fine { let ds = map declaration_of decls.now in IfOk result (λ _. declaration_faults (is_declared ds) no_type_names ds ≡ []) }
    ensures types { IfOk result (λ v. typed_names_of v.items ≡ aliases_among no_type_names (map declaration_of decls.now)) }
    ensures fault { let ds = map declaration_of decls.now in IfErr result (λ e. IsFirst e (declaration_faults (is_declared ds) no_type_names ds)) }
{
    let mut types = Vec::new(alloc);
    for decl in decls {
        match decl {
            Decl::Alias(a) => {
                check_type(&types, &a.ty)?;
                let ty = type_meant(alloc, &types, &a.ty)?;
                types.push((a.name, ty))?;
            }
            Decl::Fun(f) => {
                let known = Known {
                    decls,
                    types: &types,
                };
                check_function(&known, f)?;
            }
        }
    }
    Ok(types)
}

// What is wrong with a function first.
#[tactic(auto, using(crate::proofs::Firsts::firsts))]
fn check_function(known: &Known<'_>, f: &Fun) -> Result<(), ElabFault>
    ensures { Says result (function_faults (is_declared (map declaration_of known.now.decls.now)) (names_known known.now.types.now) (function_of f.now)) }
{
    check_past(known.types, &f.past)?;
    check_params(known.types, &f.ctx)?;
    check_type(known.types, &f.result)?;
    check_expression(known, &f.body, &Bound::Params(&f.past, &f.ctx))
}

// What is wrong with the main program first; it has no historical parameters.
#[tactic(auto, using(crate::proofs::Firsts::firsts))]
fn check_main(known: &Known<'_>, f: &Fun) -> Result<(), ElabFault>
    ensures { Says result (main_faults (is_declared (map declaration_of known.now.decls.now)) (names_known known.now.types.now) (function_of f.now)) }
{
    check_input(known.types, f.at, &f.ctx)?;
    check_params(known.types, &f.ctx)?;
    check_type(known.types, &f.result)?;
    check_expression(known, &f.body, &Bound::Params(&[], &f.ctx))
}
