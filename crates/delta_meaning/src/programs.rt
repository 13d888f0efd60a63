//! The functions of a program, and what the whole program gives.

ghost use Rattle.std.specs.Prelude.{◌≡◌, ◌<◌, ◌≤◌, ◌^◌, ◌++◌, [], ◌∷◌, ℕ, map, IfOk, OnOk, IfErr};
ghost use Rattle.stream_type.specs.StreamType.{type_of};
ghost use Rattle.stream_prefix.specs.Tree.{prefix_of};
ghost use Rattle.bunch.specs.BunchTree.{tree_of};
ghost use Rattle.delta_tree.specs.Tree.{program_of, function_of, declaration_of, expression_of};
ghost use Rattle.delta_meaning.specs.TypeNames.{no_type_names, names_below};
ghost use Rattle.delta_meaning.specs.KnownTypes.{names_known};
ghost use Rattle.core_term.specs.CoreTerm.{typed_names_of};
ghost use Rattle.delta_meaning.specs.SourceBody.{body_meant, functions_among, names_below_all};
ghost use Rattle.delta_meaning.specs.SourceMeaning.{source_program_run, mean, calls_of};
ghost use Rattle.delta_meaning.specs.Evaluated.{run_of};
ghost use Rattle.delta_meaning.specs.Functions.{body_of, body_at};

use crate::evaluated::Evaluated;
use crate::functions::{Function, Place};
use crate::refusal::{EvalRefusal, Stop};
use crate::rounds::evaluate_in_rounds;
use crate::scope::Scope;
use crate::splitting::parts;
use crate::types::{boxed_params, boxed_type, params_meant, past_meant, type_meant};
use bunch::{Bunch, Name};
use core_term::params::leaves;
use delta_tree::{Decl, Exp, Fun, Program};
use std::alloc::Global;
use stream_prefix::Prefix;
use stream_type::{Memory, Ty};

/// The depth at which the main program begins.
const HORIZON: u64 = 1 << 62;

/// What a program gives on a prefix of its input's type, where it makes at most as many calls as the budget
/// allows: `mean` in `specs/SourceMeaning.antt`. It is `Budget` exactly where the program makes more, with
/// the budget. Its other error is want of memory. On a program that isn't typed it may also answer want of
/// memory where a list is wanted and something else stands, or where a level passes 64 bits.
pub fn eval(alloc: Global, p: &Program, input: &Prefix, budget: u64) -> Result<Prefix, EvalRefusal>
    requires { budget < 2 ^ 62 }
    ensures meaning { IfOk result (λ r. prefix_of r ≡ mean (program_of p.now) (prefix_of input.now)) }
    ensures counted { IfOk result (λ r. calls_of (program_of p.now) (prefix_of input.now) ≤ budget) }
    ensures budget { IfErr result (λ f. (n : ℕ) → f ≡ EvalRefusal.Budget n → (n ≡ budget) × (n < calls_of (program_of p.now) (prefix_of input.now))) }
{
    let evaluated = run(alloc, p, input, budget)?;
    Ok(evaluated.output)
}

/// The same with the number of calls and their level from below: `source_program_run` in
/// `specs/SourceMeaning.antt`.
pub fn run(
    alloc: Global,
    p: &Program,
    input: &Prefix,
    budget: u64,
) -> Result<Evaluated, EvalRefusal>
    requires { budget < 2 ^ 62 }
    ensures meaning { IfOk result (λ r. run_of r ≡ source_program_run (program_of p.now) (prefix_of input.now)) }
    ensures counted { IfOk result (λ r. r.calls ≤ budget) }
    ensures budget { IfErr result (λ f. (n : ℕ) → f ≡ EvalRefusal.Budget n → (n ≡ budget) × (n < calls_of (program_of p.now) (prefix_of input.now))) }
{
    match main_run(alloc, p, input, budget) {
        Ok(evaluated) => Ok(evaluated),
        Err(Stop::Memory) => Err(EvalRefusal::Memory),
        Err(Stop::Spent) => Err(EvalRefusal::Budget(budget)),
    }
}

// The run of the main program.
fn main_run(alloc: Global, p: &Program, input: &Prefix, left: u64) -> Result<Evaluated, Stop>
    requires { left < 2 ^ 62 }
    ensures run { IfOk result (λ r. run_of r ≡ source_program_run (program_of p.now) (prefix_of input.now)) }
    ensures counted { IfOk result (λ r. r.calls ≤ left) }
    ensures spent { IfErr result (λ s. s ≡ Stop.Spent → left < calls_of (program_of p.now) (prefix_of input.now)) }
{
    let (functions, known) = functions_of(alloc, &p.decls)?;
    run_among(alloc, p, &functions, &known, input, left)
}

// The same, by the program's functions and the names of types that are known below all its declarations.
fn run_among(
    alloc: Global,
    p: &Program,
    functions: &[Function<'_>],
    known: &[(Name, Ty)],
    input: &Prefix,
    left: u64,
) -> Result<Evaluated, Stop>
    requires room { left < 2 ^ 62 }
    requires functions { map body_of functions.now ≡ functions_among no_type_names (map declaration_of p.now.decls.items) }
    requires known { names_known known.now ≡ names_below_all no_type_names (map declaration_of p.now.decls.items) }
    ensures run { IfOk result (λ r. run_of r ≡ source_program_run (program_of p.now) (prefix_of input.now)) }
    ensures counted { IfOk result (λ r. r.calls ≤ left) }
    ensures spent { IfErr result (λ s. s ≡ Stop.Spent → left < calls_of (program_of p.now) (prefix_of input.now)) }
{
    let params = boxed_params(alloc, known, &p.main.ctx)?;
    let ty = boxed_type(alloc, known, &p.main.result)?;
    let place = Place {
        functions,
        known,
        depth: HORIZON,
        near: 0,
        answers: &[],
    };
    body_run(alloc, &place, &*params, &p.main.body, &*ty, input, left)
}

// The run of a body at its place, on a prefix of the type of its parameters.
fn body_run(
    alloc: Global,
    place: &Place<'_>,
    params: &Bunch,
    body: &Exp,
    ty: &Ty,
    input: &Prefix,
    left: u64,
) -> Result<Evaluated, Stop>
    requires { left < place.now.depth }
    ensures run { IfOk result (λ r. run_of r ≡ body_at place.now (tree_of params.now) (expression_of body.now) (type_of ty.now) (prefix_of input.now)) }
    ensures counted { IfOk result (λ r. r.calls ≤ left) }
    ensures spent { IfErr result (λ s. s ≡ Stop.Spent → left < (body_at place.now (tree_of params.now) (expression_of body.now) (type_of ty.now) (prefix_of input.now)).calls) }
{
    let names = leaves(alloc, params)?;
    let streams = parts(alloc, params, input)?;
    let scope = Scope::Params(&names, &streams, &[]);
    evaluate_in_rounds(alloc, place, &scope, body, ty, left)
}

// The functions among declarations as they are meant, and the names of types that are known below all.
#[tactic(auto, using(crate::proofs::Declarations::declared_so_far))]
fn functions_of<'a>(
    alloc: Global,
    decls: &'a [Decl],
) -> Result<(Vec<Function<'a>>, Vec<(Name, Ty)>), Memory>
    ensures functions { IfOk result (λ r. map body_of r.0.items ≡ functions_among no_type_names (map declaration_of decls.now)) }
    ensures known { IfOk result (λ r. names_known r.1.items ≡ names_below_all no_type_names (map declaration_of decls.now)) }
{
    let mut known = Vec::new(alloc);
    let mut functions = Vec::new(alloc);
    for decl in decls {
        add_declaration(alloc, decl, &mut known, &mut functions)?;
    }
    Ok((functions, known))
}

// Adds what a declaration declares.
#[tactic(auto, using(crate::proofs::Declarations::declared_so_far))]
fn add_declaration<'a>(
    alloc: Global,
    decl: &'a Decl,
    known: &mut Vec<(Name, Ty)>,
    functions: &mut Vec<Function<'a>>,
) -> Result<(), Memory>
    ensures functions { OnOk result (map body_of functions.new.items ≡ map body_of functions.old.items ++ functions_among (names_known known.old.items) (declaration_of decl.now ∷ [])) }
    ensures known { OnOk result (names_known known.new.items ≡ names_below (names_known known.old.items) (declaration_of decl.now)) }
{
    match decl {
        Decl::Alias(a) => {
            let ty = type_meant(alloc, known, &a.ty)?;
            known.push((a.name, ty))?;
            Ok(())
        }
        Decl::Fun(f) => {
            functions.push(function_meant(alloc, known, f)?)?;
            Ok(())
        }
    }
}

// A function as it is meant.
#[tactic(auto, using(crate::proofs::Declarations::declared_so_far))]
fn function_meant<'a>(
    alloc: Global,
    known: &[(Name, Ty)],
    f: &'a Fun,
) -> Result<Function<'a>, Memory>
    ensures { IfOk result (λ r. body_of r ≡ body_meant (names_known known.now) (function_of f.now)) }
{
    Ok(Function {
        name: f.name,
        known: copy_known(alloc, known)?,
        past: past_meant(alloc, known, &f.past)?,
        params: params_meant(alloc, known, &f.ctx)?,
        result: type_meant(alloc, known, &f.result)?,
        body: &f.body,
    })
}

// One more of each entry.
fn copy_known(alloc: Global, known: &[(Name, Ty)]) -> Result<Vec<(Name, Ty)>, Memory>
    ensures { IfOk result (λ v. typed_names_of v.items ≡ typed_names_of known.now) }
{
    let mut copies = Vec::new(alloc);
    for entry in known {
        copies.push((entry.0, stream_type::copy(alloc, &entry.1)?))?;
    }
    Ok(copies)
}
