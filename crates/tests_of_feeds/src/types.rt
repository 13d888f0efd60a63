//! Types, made of their parts, copied and compared.

use std::alloc::Global;
use std::test::Fail;
use stream_type::{Memory, Ty, cat, copy, par, same, star, sum};

// `(Int . 1 + (1 || eps))*`
fn each_form(alloc: Global) -> Result<Ty, Memory> {
    let first = cat(alloc, Ty::Int, Ty::One)?;
    let both = par(alloc, Ty::One, Ty::Eps)?;
    star(alloc, sum(alloc, first, both)?)
}

// Whether a type is a sum of a sequence and of two sides.
fn is_either(t: &Ty) -> bool {
    match t {
        Ty::Sum(first, both) => {
            matches!(**first, Ty::Cat(_, _)) && matches!(**both, Ty::Par(_, _))
        }
        _ => false,
    }
}

// Whether the type of each form is made.
fn has_each_form(alloc: Global) -> Result<bool, Memory> {
    let many = each_form(alloc)?;
    match &many {
        Ty::Star(either) => Ok(is_either(either)),
        _ => Ok(false),
    }
}

#[test]
fn makes_each_form(rt: HostRuntime) -> Result<(), Fail> {
    assert!(rt; has_each_form(rt.alloc())?);
    Ok(())
}

// `Int . a*`
fn number_first(alloc: Global, a: Ty) -> Result<Ty, Memory> {
    cat(alloc, Ty::Int, star(alloc, a)?)
}

// Whether a type is the same as its copy.
fn is_same_copied(alloc: Global, t: &Ty) -> Result<bool, Memory> {
    let copied = copy(alloc, t)?;
    Ok(same(&copied, t))
}

// Whether two types are the same.
fn are_same(a: Ty, b: Ty) -> bool {
    let same = same(&a, &b);
    drop(a);
    drop(b);
    same
}

// Whether a type of marks is the same as its copy.
fn marks_are_copied(alloc: Global) -> Result<bool, Memory> {
    let t = number_first(alloc, Ty::One)?;
    is_same_copied(alloc, &t)
}

#[test]
fn copies_are_the_same(rt: HostRuntime) -> Result<(), Fail> {
    let alloc = rt.alloc();
    assert!(rt; marks_are_copied(alloc)?);
    let other = number_first(alloc, Ty::Eps)?;
    let same = are_same(number_first(alloc, Ty::One)?, other);
    assert!(rt; !same);
    Ok(())
}
