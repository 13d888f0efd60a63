//! The tokens of types.

ghost use Rattle.std.specs.Prelude.{◌≡◌, ℕ, ◌++◌, OnOk};
ghost use Rattle.delta_tree.specs.Tree.{type_form_of, type_tree_of};
ghost use Rattle.delta_print.specs.Brackets.{type_bare, type_level, type_room};
ghost use Rattle.delta_print.specs.Rows.{type_row, type_row_at};

use crate::chunk::{Chunk, put_fixed, put_name};
use crate::place::TypePlace;
use delta_parse::Terminal;
use delta_tree::{TyExp, TyForm};
use stream_type::Memory;

/// Appends the tokens of a type that stands bare: `type_row` in `specs/Rows.antt`.
#[cycle(types)]
pub(crate) fn put_type(row: &mut Vec<Chunk>, t: &TyExp) -> Result<(), Memory>
    ensures { OnOk result (row.new.items ≡ row.old.items ++ type_row (type_tree_of t.now)) }
{
    put_form(row, &t.form)
}

#[cycle(types)]
#[tactic(auto, using(crate::proofs::Appends::appends))]
fn put_form(row: &mut Vec<Chunk>, form: &TyForm) -> Result<(), Memory>
    ensures { OnOk result ((at : ℕ) → row.new.items ≡ row.old.items ++ type_row (type_form_of at form.now)) }
{
    match form {
        TyForm::Eps => put_fixed(row, Terminal::EpsWord),
        TyForm::One => put_fixed(row, Terminal::OneToken),
        TyForm::Int => put_fixed(row, Terminal::IntWord),
        TyForm::Named(x) => put_name(row, *x),
        TyForm::Sum(a, b) => {
            put_type_at(row, TypePlace::Par, a)?;
            put_fixed(row, Terminal::Plus)?;
            put_type(row, b)
        }
        TyForm::Par(a, b) => {
            put_type_at(row, TypePlace::Cat, a)?;
            put_fixed(row, Terminal::Bars)?;
            put_type_at(row, TypePlace::Par, b)
        }
        TyForm::Cat(a, b) => {
            put_type_at(row, TypePlace::Star, a)?;
            put_fixed(row, Terminal::Dot)?;
            put_type_at(row, TypePlace::Cat, b)
        }
        TyForm::Star(a) => {
            put_type_at(row, TypePlace::Star, a)?;
            Ok(row.push(Chunk::TypeStar)?)
        }
    }
}

// A type at a place, in brackets where it needs them.
#[cycle(types)]
#[tactic(auto, using(crate::proofs::Appends::appends))]
fn put_type_at(row: &mut Vec<Chunk>, place: TypePlace, t: &TyExp) -> Result<(), Memory>
    ensures { OnOk result (row.new.items ≡ row.old.items ++ type_row_at place (type_tree_of t.now)) }
{
    if is_bare(place, &t.form) {
        return put_type(row, t);
    }
    put_fixed(row, Terminal::Open)?;
    put_type(row, t)?;
    put_fixed(row, Terminal::Close)
}

fn is_bare(place: TypePlace, form: &TyForm) -> bool
    ensures { (at : ℕ) → result ≡ type_bare place (type_form_of at form.now) }
{
    level(form) <= room(place)
}

fn room(place: TypePlace) -> u8
    ensures { result ≡ type_room place }
{
    match place {
        TypePlace::Par => 2,
        TypePlace::Cat => 1,
        TypePlace::Star => 0,
    }
}

fn level(form: &TyForm) -> u8
    ensures { (at : ℕ) → result ≡ type_level (type_form_of at form.now) }
{
    match form {
        TyForm::Eps | TyForm::One | TyForm::Int | TyForm::Named(_) | TyForm::Star(_) => 0,
        TyForm::Cat(_, _) => 1,
        TyForm::Par(_, _) => 2,
        TyForm::Sum(_, _) => 3,
    }
}
