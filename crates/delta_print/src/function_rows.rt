//! The tokens of declarations.

ghost use Rattle.std.specs.Prelude.{◌≡◌, ◌++◌, OnOk};
ghost use Rattle.delta_tree.specs.Tree.{alias_of, declaration_of, function_of};
ghost use Rattle.delta_print.specs.Rows.{alias_row, declaration_row, function_row, main_row, signature_row};

use crate::chunk::{Chunk, put_fixed, put_name, put_name_and};
use crate::context_rows::{put_parameters, put_past};
use crate::expression_rows::put_expression;
use crate::type_rows::put_type;
use delta_parse::Terminal;
use delta_tree::{Alias, Decl, Fun};
use stream_type::Memory;

/// Appends the tokens of a declaration: `declaration_row` in `specs/Rows.antt`.
pub(crate) fn put_declaration(row: &mut Vec<Chunk>, declaration: &Decl) -> Result<(), Memory>
    ensures { OnOk result (row.new.items ≡ row.old.items ++ declaration_row (declaration_of declaration.now)) }
{
    match declaration {
        Decl::Alias(alias) => put_alias(row, alias),
        Decl::Fun(function) => put_function(row, function),
    }
}

#[tactic(auto, using(crate::proofs::Appends::appends))]
fn put_alias(row: &mut Vec<Chunk>, alias: &Alias) -> Result<(), Memory>
    ensures { OnOk result (row.new.items ≡ row.old.items ++ alias_row (alias_of alias.now)) }
{
    put_fixed(row, Terminal::TypeWord)?;
    put_name_and(row, alias.name, Terminal::Equals)?;
    put_type(row, &alias.ty)
}

#[tactic(auto, using(crate::proofs::Appends::appends))]
fn put_function(row: &mut Vec<Chunk>, function: &Fun) -> Result<(), Memory>
    ensures { OnOk result (row.new.items ≡ row.old.items ++ function_row (function_of function.now)) }
{
    put_fixed(row, Terminal::FunWord)?;
    put_name(row, function.name)?;
    put_past(row, &function.past)?;
    put_signature(row, function)
}

/// Appends the tokens of `main`: `main_row` in `specs/Rows.antt`.
#[tactic(auto, using(crate::proofs::Appends::appends))]
pub(crate) fn put_main(row: &mut Vec<Chunk>, main: &Fun) -> Result<(), Memory>
    ensures { OnOk result (row.new.items ≡ row.old.items ++ main_row (function_of main.now)) }
{
    put_fixed(row, Terminal::MainWord)?;
    put_signature(row, main)
}

// Parameters, result and body.
#[tactic(auto, using(crate::proofs::Appends::appends))]
fn put_signature(row: &mut Vec<Chunk>, function: &Fun) -> Result<(), Memory>
    ensures { OnOk result (row.new.items ≡ row.old.items ++ signature_row (function_of function.now)) }
{
    put_parameters(row, &function.ctx)?;
    put_fixed(row, Terminal::Colon)?;
    put_type(row, &function.result)?;
    put_fixed(row, Terminal::Equals)?;
    put_expression(row, &function.body)
}
