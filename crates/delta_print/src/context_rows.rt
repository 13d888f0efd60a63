//! The tokens of parameters.

ghost use Rattle.std.specs.Prelude.{◌≡◌, ◌++◌, map, OnOk};
ghost use Rattle.delta_tree.specs.Tree.{context_of, past_of};
ghost use Rattle.delta_print.specs.Brackets.{context_bare};
ghost use Rattle.delta_print.specs.Rows.{context_row, context_row_at, parameters_row, entry_row, more_entries_row, past_row};

use crate::chunk::{Chunk, put_fixed, put_name_and};
use crate::place::ContextPlace;
use crate::type_rows::put_type;
use bunch::Name;
use delta_parse::Terminal;
use delta_tree::{Ctx, TyExp};
use stream_type::Memory;

/// Appends the stream parameters of a function in their brackets: `parameters_row` in
/// `specs/Rows.antt`.
#[tactic(auto, using(crate::proofs::Appends::appends))]
pub(crate) fn put_parameters(row: &mut Vec<Chunk>, context: &Ctx) -> Result<(), Memory>
    ensures { OnOk result (row.new.items ≡ row.old.items ++ parameters_row (context_of context.now)) }
{
    put_fixed(row, Terminal::Open)?;
    put_context(row, context)?;
    put_fixed(row, Terminal::Close)
}

#[cycle(contexts)]
#[tactic(auto, using(crate::proofs::Appends::appends))]
fn put_context(row: &mut Vec<Chunk>, context: &Ctx) -> Result<(), Memory>
    ensures { OnOk result (row.new.items ≡ row.old.items ++ context_row (context_of context.now)) }
{
    match context {
        Ctx::Empty => Ok(()),
        Ctx::Leaf(x, t) => {
            put_name_and(row, *x, Terminal::Colon)?;
            put_type(row, t)
        }
        Ctx::Comma(a, b) => {
            put_context_at(row, ContextPlace::Item, a)?;
            put_fixed(row, Terminal::Comma)?;
            put_context_at(row, ContextPlace::Commas, b)
        }
        Ctx::Semi(a, b) => {
            put_context_at(row, ContextPlace::Item, a)?;
            put_fixed(row, Terminal::Semicolon)?;
            put_context_at(row, ContextPlace::Semicolons, b)
        }
    }
}

// Parameters at a place, in brackets where they need them.
#[cycle(contexts)]
#[tactic(auto, using(crate::proofs::Appends::appends))]
fn put_context_at(row: &mut Vec<Chunk>, place: ContextPlace, context: &Ctx) -> Result<(), Memory>
    ensures { OnOk result (row.new.items ≡ row.old.items ++ context_row_at place (context_of context.now)) }
{
    if is_bare(place, context) {
        return put_context(row, context);
    }
    put_fixed(row, Terminal::Open)?;
    put_context(row, context)?;
    put_fixed(row, Terminal::Close)
}

fn is_bare(place: ContextPlace, context: &Ctx) -> bool
    ensures { result ≡ context_bare place (context_of context.now) }
{
    match context {
        Ctx::Empty => false,
        Ctx::Leaf(_, _) => true,
        Ctx::Comma(_, _) => match place {
            ContextPlace::Commas => true,
            ContextPlace::Item | ContextPlace::Semicolons => false,
        },
        Ctx::Semi(_, _) => match place {
            ContextPlace::Semicolons => true,
            ContextPlace::Item | ContextPlace::Commas => false,
        },
    }
}

/// Appends the historical parameters of a function in their braces, and nothing where there are none:
/// `past_row` in `specs/Rows.antt`.
#[tactic(auto, using(crate::proofs::Appends::appends))]
pub(crate) fn put_past(row: &mut Vec<Chunk>, past: &[(Name, TyExp)]) -> Result<(), Memory>
    ensures { OnOk result (row.new.items ≡ row.old.items ++ past_row (map past_of past.now)) }
{
    let Some((first, more)) = past.split_first() else {
        return Ok(());
    };
    put_fixed(row, Terminal::OpenBrace)?;
    put_entry(row, first)?;
    put_more_entries(row, more)?;
    put_fixed(row, Terminal::CloseBrace)
}

#[tactic(auto, using(crate::proofs::Appends::appends))]
fn put_entry(row: &mut Vec<Chunk>, entry: &(Name, TyExp)) -> Result<(), Memory>
    ensures { OnOk result (row.new.items ≡ row.old.items ++ entry_row (past_of entry.now)) }
{
    put_name_and(row, entry.0, Terminal::Colon)?;
    put_type(row, &entry.1)
}

// Each entry behind a comma.
#[tactic(auto, using(crate::proofs::Appends::appends))]
fn put_more_entries(row: &mut Vec<Chunk>, entries: &[(Name, TyExp)]) -> Result<(), Memory>
    ensures { OnOk result (row.new.items ≡ row.old.items ++ more_entries_row (map past_of entries.now)) }
{
    for entry in entries {
        put_fixed(row, Terminal::Comma)?;
        put_entry(row, entry)?;
    }
    Ok(())
}
