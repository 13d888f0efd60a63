//! What written types and parameters stand for, where the names of types that are known stand in a table.

ghost use Rattle.std.specs.Prelude.{◌≡◌, ℕ, IfOk, map, unwrap_or};
ghost use Rattle.stream_type.specs.StreamType.{type_of, eps};
ghost use Rattle.bunch.specs.BunchTree.{tree_of};
ghost use Rattle.hist_value.specs.Environment.{entry_at};
ghost use Rattle.delta_tree.specs.Tree.{type_form_of, type_tree_of, context_of, past_of};
ghost use Rattle.core_term.specs.CoreTerm.{typed_names_of};
ghost use Rattle.delta_meaning.specs.TypeNames.{type_meant, params_meant, past_meant};
ghost use Rattle.delta_meaning.specs.KnownTypes.{names_known};

use bunch::{Bunch, Name};
use delta_tree::{Ctx, TyExp, TyForm};
use std::alloc::Global;
use stream_type::{Memory, Ty};

/// The type that a written type stands for: `type_meant` in `specs/TypeNames.antt`. Of two entries with
/// one name the last counts, and a name that isn't known counts as `eps`. Its only error is want of
/// memory.
#[cycle(meant)]
pub fn type_meant(alloc: Global, known: &[(Name, Ty)], t: &TyExp) -> Result<Ty, Memory>
    ensures { IfOk result (λ r. type_of r ≡ type_meant (names_known known.now) (type_tree_of t.now)) }
{
    form_meant(alloc, known, &t.form)
}

#[cycle(meant)]
fn form_meant(alloc: Global, known: &[(Name, Ty)], form: &TyForm) -> Result<Ty, Memory>
    ensures { IfOk result (λ r. (at : ℕ) → type_of r ≡ type_meant (names_known known.now) (type_form_of at form.now)) }
{
    match form {
        TyForm::Eps => Ok(Ty::Eps),
        TyForm::One => Ok(Ty::One),
        TyForm::Int => Ok(Ty::Int),
        TyForm::Named(x) => named(alloc, known, *x),
        TyForm::Cat(a, b) => Ok(Ty::Cat(
            boxed_type(alloc, known, a)?,
            boxed_type(alloc, known, b)?,
        )),
        TyForm::Par(a, b) => Ok(Ty::Par(
            boxed_type(alloc, known, a)?,
            boxed_type(alloc, known, b)?,
        )),
        TyForm::Sum(a, b) => Ok(Ty::Sum(
            boxed_type(alloc, known, a)?,
            boxed_type(alloc, known, b)?,
        )),
        TyForm::Star(a) => Ok(Ty::Star(boxed_type(alloc, known, a)?)),
    }
}

/// The same type in a box. Its only error is want of memory.
#[cycle(meant)]
pub fn boxed_type(alloc: Global, known: &[(Name, Ty)], t: &TyExp) -> Result<Box<Ty>, Memory>
    ensures { IfOk result (λ r. type_of r.value ≡ type_meant (names_known known.now) (type_tree_of t.now)) }
{
    Ok(Box::new(alloc, type_meant(alloc, known, t)?)?)
}

// The type of a name, or `eps` where it isn't known.
#[tactic(auto, using(crate::proofs::KnownNames::type_at_known))]
fn named(alloc: Global, known: &[(Name, Ty)], x: Name) -> Result<Ty, Memory>
    ensures { IfOk result (λ r. type_of r ≡ unwrap_or (names_known known.now x.0) eps) }
{
    stream_type::copy(alloc, last_at(known, x, &Ty::Eps))
}

// The type of the last entry with the name, or else the other one.
fn last_at<'a>(known: &'a [(Name, Ty)], x: Name, otherwise: &'a Ty) -> &'a Ty
    ensures { type_of result.now ≡ entry_at (type_of otherwise.now) (typed_names_of known.now) x.0 }
{
    let mut found = otherwise;
    for entry in known {
        if x.0 == entry.0.0 {
            found = &entry.1;
        }
    }
    found
}

/// The bunch that written parameters stand for: `params_meant` in `specs/TypeNames.antt`. Its only error
/// is want of memory.
#[cycle(params)]
pub fn params_meant(alloc: Global, known: &[(Name, Ty)], params: &Ctx) -> Result<Bunch, Memory>
    ensures { IfOk result (λ b. tree_of b ≡ params_meant (names_known known.now) (context_of params.now)) }
{
    match params {
        Ctx::Empty => Ok(Bunch::Empty),
        Ctx::Leaf(x, t) => Ok(Bunch::Leaf(*x, type_meant(alloc, known, t)?)),
        Ctx::Comma(a, b) => Ok(Bunch::Comma(
            boxed_params(alloc, known, a)?,
            boxed_params(alloc, known, b)?,
        )),
        Ctx::Semi(a, b) => Ok(Bunch::Semi(
            boxed_params(alloc, known, a)?,
            boxed_params(alloc, known, b)?,
        )),
    }
}

/// The same bunch in a box. Its only error is want of memory.
#[cycle(params)]
pub fn boxed_params(alloc: Global, known: &[(Name, Ty)], params: &Ctx) -> Result<Box<Bunch>, Memory>
    ensures { IfOk result (λ b. tree_of b.value ≡ params_meant (names_known known.now) (context_of params.now)) }
{
    Ok(Box::new(alloc, params_meant(alloc, known, params)?)?)
}

/// The historical parameters that written ones stand for, in turn, with the types of the streams whose
/// values they are: `past_meant` in `specs/TypeNames.antt`. Its only error is want of memory.
pub fn past_meant(
    alloc: Global,
    known: &[(Name, Ty)],
    params: &[(Name, TyExp)],
) -> Result<Vec<(Name, Ty)>, Memory>
    ensures { IfOk result (λ v. typed_names_of v.items ≡ past_meant (names_known known.now) (map past_of params.now)) }
{
    let mut meant = Vec::new(alloc);
    for param in params {
        let ty = type_meant(alloc, known, &param.1)?;
        meant.push((param.0, ty))?;
    }
    Ok(meant)
}
