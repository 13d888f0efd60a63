//! What written types and parameters stand for, with ample memory.
//!
//! The names are `number` 0, `pair` 1, `x` 2 and `y` 3; `number` is known twice, as `1` and below that
//! as `Int`.

use bunch::{Bunch, Name};
use delta_meaning::{params_meant, past_meant, type_meant};
use delta_tree::{Ctx, TyExp, TyForm, written_type};
use std::alloc::Global;
use std::test::Fail;
use stream_type::{Memory, Ty, cat, par, same, star, sum};

fn known(alloc: Global) -> Result<Vec<(Name, Ty)>, Memory> {
    let mut known = Vec::new(alloc);
    known.push((Name(0), Ty::One))?;
    known.push((Name(0), Ty::Int))?;
    Ok(known)
}

fn named(alloc: Global, at: u32, x: u32) -> Result<TyExp, Memory> {
    Ok(written_type(alloc, at, TyForm::Named(Name(x)))?)
}

// `(number . pair)* + (number || number)`
fn written(alloc: Global) -> Result<TyExp, Memory> {
    let form = TyForm::Cat(named(alloc, 1, 0)?, named(alloc, 10, 1)?);
    let many = TyForm::Star(written_type(alloc, 0, form)?);
    let many = written_type(alloc, 0, many)?;
    let form = TyForm::Par(named(alloc, 20, 0)?, named(alloc, 30, 0)?);
    let both = written_type(alloc, 19, form)?;
    Ok(written_type(alloc, 0, TyForm::Sum(many, both))?)
}

// What that type stands for.
fn meant(alloc: Global) -> Result<Ty, Memory> {
    let known = known(alloc)?;
    let written = written(alloc)?;
    type_meant(alloc, &known, &written)
}

// `(Int . eps)* + (Int || Int)`
fn wanted(alloc: Global) -> Result<Ty, Memory> {
    let both = par(alloc, Ty::Int, Ty::Int)?;
    let many = star(alloc, cat(alloc, Ty::Int, Ty::Eps)?)?;
    sum(alloc, many, both)
}

// Whether that is meant.
fn is_meant(alloc: Global) -> Result<bool, Memory> {
    let meant = meant(alloc)?;
    let wanted = wanted(alloc)?;
    Ok(same(&meant, &wanted))
}

#[test]
fn a_written_type_stands_for_a_type(rt: HostRuntime) -> Result<(), Fail> {
    assert!(rt; is_meant(rt.alloc())?);
    Ok(())
}

// `(x : number; y : ?), ()`, with a name that isn't known.
fn params(alloc: Global) -> Result<Ctx, Memory> {
    let x = Box::new(alloc, Ctx::Leaf(Name(2), named(alloc, 5, 0)?))?;
    let y = Box::new(alloc, Ctx::Leaf(Name(3), named(alloc, 15, 9)?))?;
    let nothing = Box::new(alloc, Ctx::Empty)?;
    let in_turn = Box::new(alloc, Ctx::Semi(x, y))?;
    Ok(Ctx::Comma(in_turn, nothing))
}

// What those parameters stand for.
fn meant_params(alloc: Global) -> Result<Bunch, Memory> {
    let known = known(alloc)?;
    let params = params(alloc)?;
    params_meant(alloc, &known, &params)
}

// Whether a bunch is `x : Int; y : eps`.
fn is_in_turn(b: &Bunch) -> bool {
    match b {
        Bunch::Semi(x, y) => is_leaf(x, 2, Ty::Int) && is_leaf(y, 3, Ty::Eps),
        _ => false,
    }
}

// Whether a bunch is this one name with this type.
fn is_leaf(b: &Bunch, name: u32, ty: Ty) -> bool {
    match b {
        Bunch::Leaf(x, t) => x.0 == name && same(t, &ty),
        _ => false,
    }
}

// Whether a bunch is that, beside nothing.
fn is_beside_nothing(b: &Bunch) -> bool {
    match b {
        Bunch::Comma(in_turn, nothing) => {
            matches!(**nothing, Bunch::Empty) && is_in_turn(in_turn)
        }
        _ => false,
    }
}

// Whether that is meant by those parameters.
fn are_meant(alloc: Global) -> Result<bool, Memory> {
    let meant = meant_params(alloc)?;
    Ok(is_beside_nothing(&meant))
}

#[test]
fn written_parameters_stand_for_a_bunch(rt: HostRuntime) -> Result<(), Fail> {
    assert!(rt; are_meant(rt.alloc())?);
    Ok(())
}

// What `{x : number, y : ..}` stand for, with that type.
fn meant_past(alloc: Global) -> Result<Vec<(Name, Ty)>, Memory> {
    let known = known(alloc)?;
    let mut past = Vec::new(alloc);
    past.push((Name(2), named(alloc, 5, 0)?))?;
    past.push((Name(3), written(alloc)?))?;
    past_meant(alloc, &known, &past)
}

// Whether these are x, a number, and y, a sum.
fn are_past(past: &[(Name, Ty)]) -> bool {
    match past {
        [(x, number), (y, sum)] => {
            x.0 == 2 && matches!(number, Ty::Int) && y.0 == 3 && matches!(sum, Ty::Sum(_, _))
        }
        _ => false,
    }
}

// Whether they stand for that.
fn past_is_meant(alloc: Global) -> Result<bool, Memory> {
    let meant = meant_past(alloc)?;
    Ok(are_past(&meant))
}

#[test]
fn historical_parameters_have_types(rt: HostRuntime) -> Result<(), Fail> {
    assert!(rt; past_is_meant(rt.alloc())?);
    Ok(())
}
