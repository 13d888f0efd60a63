//! The first thing that is wrong with written types.

ghost use Rattle.std.specs.Prelude.{map};
ghost use Rattle.bunch.specs.BunchTree.{as_type};
ghost use Rattle.delta_tree.specs.Tree.{type_tree_of, context_of, past_of};
ghost use Rattle.delta_meaning.specs.TypeNames.{params_meant};
ghost use Rattle.delta_meaning.specs.KnownTypes.{names_known};
ghost use Rattle.delta_meaning.specs.Faults.{unknown_types, unknown_in_params, type_faults, params_faults, past_faults, size_faults, where_none};
ghost use Rattle.delta_elab.specs.FirstFault.{Says};

use crate::fault::ElabFault;
use crate::limits::{is_low, is_low_context, room_after, room_after_context, type_known};
use bunch::Name;
use delta_tree::{Ctx, TyExp, TyForm};
use stream_type::Ty;

// The most nodes that stand on a way from a type's root to a leaf.
const HEIGHT: u32 = 64;

// The most nodes of a type.
const NODES: u32 = 4096;

// The first unknown name of a written type.
#[tactic(auto, using(crate::proofs::Firsts::firsts))]
fn check_names(known: &[(Name, Ty)], t: &TyExp) -> Result<(), ElabFault>
    ensures { Says result (unknown_types (names_known known.now) (type_tree_of t.now)) }
{
    match &*t.form {
        TyForm::Eps | TyForm::One | TyForm::Int => Ok(()),
        TyForm::Named(x) => match type_known(known, *x) {
            None => Err(ElabFault::NoType(*x, t.at)),
            Some(_) => Ok(()),
        },
        TyForm::Cat(a, b) | TyForm::Par(a, b) | TyForm::Sum(a, b) => {
            check_names(known, a)?;
            check_names(known, b)
        }
        TyForm::Star(a) => check_names(known, a),
    }
}

/// What is wrong with a written type first: `type_faults` in the specs of delta_meaning.
#[tactic(auto, using(crate::proofs::Firsts::firsts, crate::proofs::Sizes::sizes))]
pub fn check_type(known: &[(Name, Ty)], t: &TyExp) -> Result<(), ElabFault>
    ensures { Says result (type_faults (names_known known.now) (type_tree_of t.now)) }
{
    check_names(known, t)?;
    if !is_low(known, t, HEIGHT) {
        return Err(ElabFault::TooTall(t.at));
    }
    match room_after(known, t, NODES) {
        None => Err(ElabFault::TooWide(t.at)),
        Some(_) => Ok(()),
    }
}

/// What is wrong with the types of written parameters first: `params_faults` in the specs of
/// delta_meaning.
#[tactic(auto, using(crate::proofs::Firsts::firsts))]
pub fn check_params(known: &[(Name, Ty)], c: &Ctx) -> Result<(), ElabFault>
    ensures { Says result (params_faults (names_known known.now) (context_of c.now)) }
{
    match c {
        Ctx::Empty => Ok(()),
        Ctx::Leaf(_, t) => check_type(known, t),
        Ctx::Comma(a, b) | Ctx::Semi(a, b) => {
            check_params(known, a)?;
            check_params(known, b)
        }
    }
}

/// What is wrong with the types of historical parameters first: `past_faults` in the specs of
/// delta_meaning.
#[tactic(auto, using(crate::proofs::Firsts::firsts))]
pub fn check_past(known: &[(Name, Ty)], params: &[(Name, TyExp)]) -> Result<(), ElabFault>
    ensures { Says result (past_faults (names_known known.now) (map past_of params.now)) }
{
    for param in params {
        check_type(known, &param.1)?;
    }
    Ok(())
}

// Whether all names of the parameters' types are known.
#[tactic(auto, using(crate::proofs::Firsts::firsts))]
fn check_names_in_params(known: &[(Name, Ty)], c: &Ctx) -> Result<(), ElabFault>
    ensures { Says result (unknown_in_params (names_known known.now) (context_of c.now)) }
{
    match c {
        Ctx::Empty => Ok(()),
        Ctx::Leaf(_, t) => check_names(known, t),
        Ctx::Comma(a, b) | Ctx::Semi(a, b) => {
            check_names_in_params(known, a)?;
            check_names_in_params(known, b)
        }
    }
}

// The limits of the parameters as one type, which stands at the place.
#[tactic(auto, using(crate::proofs::Firsts::firsts, crate::proofs::Sizes::sizes))]
fn check_input_size(known: &[(Name, Ty)], at: u32, c: &Ctx) -> Result<(), ElabFault>
    ensures { Says result (size_faults at (as_type (params_meant (names_known known.now) (context_of c.now)))) }
{
    if !is_low_context(known, c, HEIGHT) {
        return Err(ElabFault::TooTall(at));
    }
    match room_after_context(known, c, NODES) {
        None => Err(ElabFault::TooWide(at)),
        Some(_) => Ok(()),
    }
}

/// Whether the input's type, which stands at the place, is within the limits. It isn't said where a
/// name of the parameters' types is unknown.
#[tactic(auto, using(crate::proofs::Firsts::firsts))]
pub fn check_input(known: &[(Name, Ty)], at: u32, c: &Ctx) -> Result<(), ElabFault>
    ensures { Says result (where_none (unknown_in_params (names_known known.now) (context_of c.now)) (size_faults at (as_type (params_meant (names_known known.now) (context_of c.now))))) }
{
    match check_names_in_params(known, c) {
        Err(_) => Ok(()),
        Ok(()) => check_input_size(known, at, c),
    }
}
