//! The free stream names of a template.

ghost use Rattle.std.specs.Prelude.{◌≡◌, [], ◌∷◌, IfOk, OnOk};
ghost use Rattle.bunch.specs.Names.{numbers_of, holds};
ghost use Rattle.core_term.specs.Around.{less};
ghost use Rattle.core_term.specs.FreeNames.{free_names, free_in_terms, add_new, once};
ghost use Rattle.template_state.specs.Readers.{op_term, operand_terms};
ghost use Rattle.delta_code.specs.Around.{names_around};

use crate::around::{Around, is_around};
use bunch::Name;
use std::alloc::Global;
use stream_type::Memory;
use template_state::{Op, Operands};

/// The stream names that occur free in the term, each once, in the order of first use: `once` of
/// `free_names` in `specs/FreeNames.antt` of `core_term`. Its only error is want of memory.
pub fn free(alloc: Global, n: &Op) -> Result<Vec<Name>, Memory>
    ensures { IfOk result (λ v. numbers_of v.items ≡ once (free_names (op_term n.now))) }
{
    let mut found = Vec::new(alloc);
    add_free(n, &Around::Nothing, &mut found)?;
    Ok(found)
}

// Adds the free names of the term that aren't bound around it and weren't found before.
#[cycle(free)]
#[tactic(auto, using(core_term::proofs::NameLists::new_names))]
fn add_free<'a>(n: &Op, around: &'a Around<'a>, found: &mut Vec<Name>) -> Result<(), Memory>
    ensures { OnOk result (numbers_of found.new.items
        ≡ add_new (numbers_of found.old.items) (less (names_around around.now) (free_names (op_term n.now)))) }
{
    match n {
        Op::Var(x) => add_name(*x, around, found),
        Op::Eps | Op::Unit | Op::Nil | Op::Past(_) => Ok(()),
        Op::Par(a, b) | Op::Cat(a, b) | Op::Cons(a, b) => {
            add_free_of_two(a, around, b, around, found)
        }
        Op::Inl(a) | Op::Inr(a) => add_free(a, around, found),
        Op::Let(x, _, a, b) => {
            add_free_of_two(a, &*around, b, &Around::Name(*x, &*around), found)
        }
        Op::LetPar(x, y, z, a) | Op::LetCat(x, y, z, a) => {
            let left = Around::Name(*x, &*around);
            add_name_and_free(*z, &*around, a, &Around::Name(*y, &left), found)
        }
        Op::CaseSum(z, _, x, a, y, b) => add_name_and_two(
            *z,
            &*around,
            a,
            &Around::Name(*x, &*around),
            b,
            &Around::Name(*y, &*around),
            found,
        ),
        Op::CaseStar(z, _, a, y, ys, b) => {
            let item = Around::Name(*y, &*around);
            add_name_and_two(
                *z,
                &*around,
                a,
                &*around,
                b,
                &Around::Name(*ys, &item),
                found,
            )
        }
        Op::Wait(x, _, a) => add_name_and_free(*x, around, a, around, found),
        Op::Call(_, _, arguments) => add_free_of_all(arguments, around, found),
    }
}

// The same of two terms in turn, each with the names that are bound around it.
#[cycle(free)]
fn add_free_of_two<'a>(
    a: &Op,
    first: &'a Around<'a>,
    b: &Op,
    second: &'a Around<'a>,
    found: &mut Vec<Name>,
) -> Result<(), Memory>
    ensures { OnOk result (numbers_of found.new.items
        ≡ add_new (add_new (numbers_of found.old.items) (less (names_around first.now) (free_names (op_term a.now))))
        (less (names_around second.now) (free_names (op_term b.now)))) }
{
    add_free(a, first, found)?;
    add_free(b, second, found)
}

// Adds a name, and after it the free names of a term.
#[cycle(free)]
fn add_name_and_free<'a>(
    x: Name,
    around: &'a Around<'a>,
    a: &Op,
    inner: &'a Around<'a>,
    found: &mut Vec<Name>,
) -> Result<(), Memory>
    ensures { OnOk result (numbers_of found.new.items
        ≡ add_new (add_new (numbers_of found.old.items) (less (names_around around.now) (x.0 ∷ [])))
        (less (names_around inner.now) (free_names (op_term a.now)))) }
{
    add_name(x, around, found)?;
    add_free(a, inner, found)
}

// Adds a name, and after it the free names of two terms.
#[cycle(free)]
fn add_name_and_two<'a>(
    x: Name,
    around: &'a Around<'a>,
    a: &Op,
    first: &'a Around<'a>,
    b: &Op,
    second: &'a Around<'a>,
    found: &mut Vec<Name>,
) -> Result<(), Memory>
    ensures { OnOk result (numbers_of found.new.items
        ≡ add_new (add_new (add_new (numbers_of found.old.items) (less (names_around around.now) (x.0 ∷ [])))
        (less (names_around first.now) (free_names (op_term a.now))))
        (less (names_around second.now) (free_names (op_term b.now)))) }
{
    add_name(x, around, found)?;
    add_free_of_two(a, first, b, second, found)
}

// The same of terms, in turn.
#[cycle(free)]
#[tactic(auto, using(core_term::proofs::NameLists::new_names))]
fn add_free_of_all<'a>(
    terms: &Operands,
    around: &'a Around<'a>,
    found: &mut Vec<Name>,
) -> Result<(), Memory>
    ensures { OnOk result (numbers_of found.new.items
        ≡ add_new (numbers_of found.old.items)
        (less (names_around around.now) (free_in_terms (operand_terms terms.now)))) }
{
    match terms {
        Operands::None => Ok(()),
        Operands::Before(term, others) => {
            add_free(term, around, found)?;
            add_free_of_all(others, around, found)
        }
    }
}

// Adds a name that isn't bound around and wasn't found before.
#[tactic(auto, using(core_term::proofs::NameLists::new_names))]
fn add_name(x: Name, around: &Around<'_>, found: &mut Vec<Name>) -> Result<(), Memory>
    ensures { OnOk result (numbers_of found.new.items
        ≡ add_new (numbers_of found.old.items) (less (names_around around.now) (x.0 ∷ []))) }
{
    if !is_around(around, x) && !is_there(found, x) {
        found.push(x)?;
    }
    Ok(())
}

// Whether the name is among these.
fn is_there(names: &[Name], x: Name) -> bool
    ensures { result ≡ holds x.0 (numbers_of names.now) }
{
    for name in names {
        if name.0 == x.0 {
            return true;
        }
    }
    false
}
