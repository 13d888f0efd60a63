//! The functions of a program with their types, and where an expression is elaborated.

ghost use Rattle.std.specs.Prelude.{◌≡◌, ◌+◌, map, [], Some, IfOk, IfSome, IfNone};
ghost use Rattle.stream_type.specs.StreamType.{type_of};
ghost use Rattle.delta_tree.specs.Tree.{type_tree_of, function_of, declaration_of};
ghost use Rattle.core_term.specs.CoreTerm.{typed_names_of};
ghost use Rattle.delta_meaning.specs.TypeNames.{no_type_names, type_meant};
ghost use Rattle.delta_meaning.specs.KnownTypes.{names_known};
ghost use Rattle.delta_meaning.specs.SourceBody.{body_meant, functions_among, function_named, number_named, no_function};
ghost use Rattle.delta_elab.specs.Aliases.{aliases_among};
ghost use Rattle.delta_elab.specs.Sources.{source_of, sources_of};

use bunch::{Bunch, Name};
use delta_meaning::{params_meant, past_meant, type_meant};
use delta_tree::{Decl, Exp, Fun, TyExp};
use std::alloc::Global;
use stream_type::{Memory, Ty};

/// A function, or the main program, with its types. Contracts see it as a `SourceBody` of delta_meaning
/// by `source_of` (`specs/Sources.antt`).
#[derive(Drop)]
pub struct Source<'a> {
    /// Its name.
    pub name: Name,
    /// The types that are declared above it.
    pub known: &'a [(Name, Ty)],
    /// Its historical parameters, with the types of the streams whose values they are.
    pub past: Vec<(Name, Ty)>,
    /// Its stream parameters.
    pub params: Bunch,
    /// The type of what it gives.
    pub result: Ty,
    /// What it gives.
    pub body: &'a Exp,
}

/// Where an expression is elaborated: the functions of the program, and the types that are declared
/// above.
#[derive(Clone, Copy)]
pub struct Setting<'a> {
    /// The functions, in the order of the text.
    pub functions: &'a [Source<'a>],
    /// The types that are declared above.
    pub known: &'a [(Name, Ty)],
}

/// The type that a written type stands for, in a box. Its only error is want of memory.
pub fn meant(alloc: Global, known: &[(Name, Ty)], t: &TyExp) -> Result<Box<Ty>, Memory>
    ensures { IfOk result (λ r. type_of r.value ≡ type_meant (names_known known.now) (type_tree_of t.now)) }
{
    Ok(Box::new(alloc, type_meant(alloc, known, t)?)?)
}

/// A written function with its types: `body_meant` in the specs of delta_meaning. Its only error is want
/// of memory.
pub fn function_meant<'a>(
    alloc: Global,
    known: &'a [(Name, Ty)],
    f: &'a Fun,
) -> Result<Source<'a>, Memory>
    ensures { IfOk result (λ s. source_of s ≡ body_meant (names_known known.now) (function_of f.now)) }
{
    let past = past_meant(alloc, known, &f.past)?;
    let result = meant(alloc, known, &f.result)?;
    Ok(Source {
        name: f.name,
        known,
        past,
        params: params_meant(alloc, known, &f.ctx)?,
        result: Box::into_inner(result),
        body: &f.body,
    })
}

/// The main program with its types; it has no historical parameters. Its only error is want of memory.
pub fn main_meant<'a>(
    alloc: Global,
    known: &'a [(Name, Ty)],
    f: &'a Fun,
) -> Result<Box<Source<'a>>, Memory>
    ensures { IfOk result (λ s. source_of s.value ≡ record (body_meant (names_known known.now) (function_of f.now)) { past = [] }) }
{
    let result = meant(alloc, known, &f.result)?;
    let main = Source {
        name: f.name,
        known,
        past: Vec::new(alloc),
        params: params_meant(alloc, known, &f.ctx)?,
        result: Box::into_inner(result),
        body: &f.body,
    };
    Ok(Box::new(alloc, main)?)
}

/// The functions among declarations with their types, where the table has the types that these declare:
/// `functions_among` in the specs of delta_meaning. Its only error is want of memory.
pub fn functions_meant<'a>(
    alloc: Global,
    decls: &'a [Decl],
    known: &'a [(Name, Ty)],
) -> Result<Vec<Source<'a>>, Memory>
    requires { typed_names_of known.now ≡ aliases_among no_type_names (map declaration_of decls.now) }
    ensures { IfOk result (λ v. sources_of v.items ≡ functions_among no_type_names (map declaration_of decls.now)) }
{
    let mut functions = Vec::new(alloc);
    let mut above = 0;
    for decl in decls {
        match decl {
            Decl::Alias(_) => above += 1,
            Decl::Fun(f) => functions.push(function_meant(alloc, &known[..above], f)?)?,
        }
    }
    Ok(functions)
}

/// The first function with the name, or None where there is none.
pub fn function_of_name<'a>(functions: &'a [Source<'a>], f: Name) -> Option<&'a Source<'a>>
    ensures there { IfSome result (λ s. function_named (sources_of functions.now) f.0 ≡ source_of s.now) }
    ensures none { IfNone result (function_named (sources_of functions.now) f.0 ≡ no_function) }
{
    for function in functions {
        if f.0 == function.name.0 {
            return Some(function);
        }
    }
    None
}

/// The number of the first function with the name, or how many functions there are where there is none:
/// `number_named` in the specs of delta_meaning. Its only error is want of memory, which it answers too
/// where the number doesn't fit 32 bits.
pub fn number_of_function(functions: &[Source<'_>], f: Name) -> Result<u32, Memory>
    ensures { IfOk result (λ n. n ≡ number_named (sources_of functions.now) f.0) }
{
    u32::try_from(place_of(functions, f)).map_err(|_| Memory)
}

// How many functions stand above the first one with the name.
fn place_of(functions: &[Source<'_>], f: Name) -> usize
    ensures { result ≡ number_named (sources_of functions.now) f.0 }
{
    for (i, function) in functions.iter().enumerate() {
        if f.0 == function.name.0 {
            return i;
        }
    }
    functions.len()
}
