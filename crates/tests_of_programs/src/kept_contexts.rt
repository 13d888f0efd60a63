//! Terms checked in a context.

use crate::programs::checked;
use bunch::{Name, Order};
use core_term::Checked;
use delta_check::{TypeCause, TypeFault, check_in};
use std::alloc::Global;
use std::test::Fail;
use stream_type::{Memory, Ty};

// One stream variable, of type `Int`: the parameter of the program below.
fn one_int(alloc: Global) -> Result<Vec<(Name, Ty)>, Memory> {
    let mut vars = Vec::new(alloc);
    vars.push((Name(0), Ty::Int))?;
    Ok(vars)
}

// Whether that is that the first node has another type.
fn is_mismatch(fault: &TypeFault) -> bool {
    match fault {
        TypeFault::Refused { node, at: _, cause } => {
            *node == 0 && matches!(cause, TypeCause::Mismatch { .. })
        }
        TypeFault::Memory => false,
    }
}

// What a check told: nothing, or whether it told that.
fn mismatch(told: Result<(), TypeFault>) -> Option<bool> {
    match told {
        Ok(()) => None,
        Err(fault) => {
            let found = is_mismatch(&fault);
            drop(fault);
            Some(found)
        }
    }
}

// What is told of the body of a main program at a type, with these variables in this order.
fn told_with(
    alloc: Global,
    c: &Checked,
    vars: &[(Name, Ty)],
    order: &Order,
    r: &Ty,
) -> Option<bool> {
    let main = &c.core().main;
    mismatch(check_in(alloc, c, &[], vars, order, &main.body, r))
}

// The same with the variable above alone.
fn told_by(alloc: Global, c: &Checked, r: &Ty) -> Result<Option<bool>, Fail> {
    let vars = one_int(alloc)?;
    let order = Order::of_bunch(alloc, &c.core().main.params)?;
    Ok(told_with(alloc, c, &vars, &order, r))
}

// The same of a name.
fn told(alloc: Global, r: &Ty) -> Result<Option<bool>, Fail> {
    let checked = checked(alloc, b"main(x : Int) : Int = x")?;
    told_by(alloc, &checked, r)
}

#[test]
fn a_name_has_its_type_alone(rt: HostRuntime) -> Result<(), Fail> {
    let alloc = rt.alloc();
    assert!(rt; told(alloc, &Ty::Int)?.is_none());
    assert!(rt; told(alloc, &Ty::One)? == Some(true));
    Ok(())
}
