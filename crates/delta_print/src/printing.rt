//! The canonical text of a program and of a type.

ghost use Rattle.std.specs.Prelude.{◌≡◌, ◌++◌, OnOk, IfOk, map, string_bytes};
ghost use Rattle.stream_type.specs.StreamType.{type_of};
ghost use Rattle.delta_tree.specs.Tree.{declaration_of, function_of, program_of, type_tree_of};
ghost use Rattle.delta_print.specs.Canonical.{canonical_text, declaration_lines, line, type_text, written};
ghost use Rattle.delta_print.specs.Rows.{declaration_row, main_row};

use crate::chunk::Chunk;
use crate::function_rows::{put_declaration, put_main};
use crate::layout::lay_out;
use crate::type_rows::put_type;
use delta_tree::{Decl, Fun, Program, TyExp, TyForm, written_type};
use std::alloc::Global;
use stream_type::{Memory, Ty};

/// The canonical text of a program, `canonical_text` in `specs/Canonical.antt`: a line for each
/// declaration in the tree's order and one for `main`, each ended by a line feed. A name that has no
/// text is left out. Its only error is want of memory.
pub fn print(alloc: Global, p: &Program) -> Result<String, Memory>
    ensures { IfOk result (λ text. string_bytes text ≡ canonical_text (program_of p.now)) }
{
    let mut text = String::new(alloc);
    put_declarations(alloc, &mut text, &p.names, &p.decls)?;
    put_main_line(alloc, &mut text, &p.names, &p.main)?;
    Ok(text)
}

/// The canonical text of a type, by the rule of those in programs: `type_text` in
/// `specs/Canonical.antt`. Its only error is want of memory.
pub fn show(alloc: Global, t: &Ty) -> Result<String, Memory>
    ensures { IfOk result (λ text. string_bytes text ≡ type_text (type_of t.now)) }
{
    let mut row = Vec::new(alloc);
    put_type(&mut row, &written(alloc, t)?)?;
    let mut text = String::new(alloc);
    lay_out(&mut text, &[], &row)?;
    Ok(text)
}

// A type as it is written, at no place.
#[cycle(written)]
fn written(alloc: Global, t: &Ty) -> Result<TyExp, Memory>
    ensures { IfOk result (λ r. type_tree_of r ≡ written (type_of t.now)) }
{
    let form = match t {
        Ty::Eps => TyForm::Eps,
        Ty::One => TyForm::One,
        Ty::Int => TyForm::Int,
        Ty::Cat(a, b) => TyForm::Cat(written(alloc, a)?, written(alloc, b)?),
        Ty::Par(a, b) => TyForm::Par(written(alloc, a)?, written(alloc, b)?),
        Ty::Sum(a, b) => TyForm::Sum(written(alloc, a)?, written(alloc, b)?),
        Ty::Star(a) => TyForm::Star(written(alloc, a)?),
    };
    Ok(written_type(alloc, 0, form)?)
}

// A line for each declaration.
fn put_declarations(
    alloc: Global,
    text: &mut String,
    names: &[String],
    declarations: &[Decl],
) -> Result<(), Memory>
    ensures { OnOk result (string_bytes text.new ≡ string_bytes text.old ++ declaration_lines (map string_bytes names.now) (map declaration_of declarations.now)) }
{
    for declaration in declarations {
        put_declaration_line(alloc, text, names, declaration)?;
    }
    Ok(())
}

fn put_declaration_line(
    alloc: Global,
    text: &mut String,
    names: &[String],
    declaration: &Decl,
) -> Result<(), Memory>
    ensures { OnOk result (string_bytes text.new ≡ string_bytes text.old ++ line (map string_bytes names.now) (declaration_row (declaration_of declaration.now))) }
{
    let mut row = Vec::new(alloc);
    put_declaration(&mut row, declaration)?;
    put_line(text, names, &row)
}

fn put_main_line(
    alloc: Global,
    text: &mut String,
    names: &[String],
    main: &Fun,
) -> Result<(), Memory>
    ensures { OnOk result (string_bytes text.new ≡ string_bytes text.old ++ line (map string_bytes names.now) (main_row (function_of main.now))) }
{
    let mut row = Vec::new(alloc);
    put_main(&mut row, main)?;
    put_line(text, names, &row)
}

// Tokens in a line, and a line feed.
#[tactic(auto, using(crate::proofs::Appends::appends))]
fn put_line(text: &mut String, names: &[String], row: &[Chunk]) -> Result<(), Memory>
    ensures { OnOk result (string_bytes text.new ≡ string_bytes text.old ++ line (map string_bytes names.now) row.now) }
{
    lay_out(text, names, row)?;
    Ok(text.push_str("\n")?)
}
