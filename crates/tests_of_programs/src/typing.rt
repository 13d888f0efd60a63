//! Which rule of typing a program breaks first, by its node, its place and what the rule names.

ghost use Rattle.std.specs.Prelude.{IfOk};
ghost use Rattle.core_term.specs.CoreTerm.{core_of};
ghost use Rattle.core_term.specs.FreeNames.{IsCore, HasFewNodes};

use crate::programs::{checked, fault, is_typed};
use bunch::{Bunch, Name};
use core_term::{Body, Checked, Core, Node, Term};
use delta_check::{TypeCause, TypeFault, check, inert, inert_funs};
use delta_elab::ProgramFault;
use std::alloc::Global;
use std::test::Fail;
use stream_type::{Memory, Ty};

// The name of a cause, and the numbers of the names that it tells.
fn told(cause: &TypeCause) -> (&'static str, u32, u32) {
    match cause {
        TypeCause::Unbound(x) => ("Unbound", x.0, 0),
        TypeCause::OutOfOrder(x, y) => ("OutOfOrder", x.0, y.0),
        TypeCause::WaitNull(x) => ("WaitNull", x.0, 0),
        TypeCause::Jumpy(x) => ("Jumpy", x.0, 0),
        _ => ("", 0, 0),
    }
}

// Whether that is the fault: the number of its node, its place, and its cause.
fn is_fault(fault: &TypeFault, row: (u32, u32, (&str, u32, u32))) -> bool {
    match fault {
        TypeFault::Refused { node, at, cause } => (*node, *at, told(cause)) == row,
        _ => false,
    }
}

// Whether that is wrong first with the types of a program.
fn is_type_fault(fault: &Option<ProgramFault>, row: (u32, u32, (&str, u32, u32))) -> bool {
    match fault {
        Some(ProgramFault::Type(fault)) => is_fault(fault, row),
        _ => false,
    }
}

// Whether it is wrong first with the types of a text's program. Names are numbered as they are bound.
fn is_wrong(alloc: Global, text: &[u8], row: (u32, u32, (&str, u32, u32))) -> Result<bool, Fail> {
    let found = fault(alloc, text)?;
    let is_so = is_type_fault(&found, row);
    drop(found);
    Ok(is_so)
}

#[test]
fn parallel_names_are_in_no_order(rt: HostRuntime) -> Result<(), Fail> {
    let text = b"main(x : Int, y : Int) : Int . Int = (x; y)";
    assert!(rt; is_wrong(rt.alloc(), text, (0, 37, ("OutOfOrder", 0, 1)))?);
    let text = b"main(x : Int; y : Int) : Int . Int = (x; y)";
    assert!(rt; is_typed(rt.alloc(), text)?);
    Ok(())
}

// A name that a wait made a value stands before no other, and an item in brackets stands at its bracket.
#[test]
fn values_are_in_no_order(rt: HostRuntime) -> Result<(), Fail> {
    let text = b"main(x : Int; y : Int) : Int . Int = wait x in (x; y)";
    assert!(rt; is_wrong(rt.alloc(), text, (1, 47, ("OutOfOrder", 0, 1)))?);
    let text = b"main(x : 1, y : 1*) : 1* = (x) :: y";
    assert!(rt; is_wrong(rt.alloc(), text, (0, 27, ("OutOfOrder", 0, 1)))?);
    Ok(())
}

#[test]
fn a_mark_stands_before_all(rt: HostRuntime) -> Result<(), Fail> {
    let text = b"main(x : 1; y : 1) : 1 . 1 = let z = (() : 1) in (x; z)";
    assert!(rt; is_wrong(rt.alloc(), text, (2, 49, ("OutOfOrder", 0, 2)))?);
    let text = b"main(x : 1; y : 1) : 1 . 1 = let z = (() : 1) in (z; x)";
    assert!(rt; is_typed(rt.alloc(), text)?);
    Ok(())
}

#[test]
fn no_wait_for_a_null_type(rt: HostRuntime) -> Result<(), Fail> {
    let text = b"main(x : eps, y : Int) : Int = wait x in y";
    assert!(rt; is_wrong(rt.alloc(), text, (0, 31, ("WaitNull", 0, 0)))?);
    Ok(())
}

#[test]
fn jumpy_argument_is_told_by_its_parameter(rt: HostRuntime) -> Result<(), Fail> {
    let text = b"fun f(a : 1; b : 1) : 1 = a\nmain(x : 1; y : 1) : 1 = f(x, ())";
    // The second variable, whose number is 1, is b.
    assert!(rt; is_wrong(rt.alloc(), text, (1, 53, ("Jumpy", 1, 0)))?);
    Ok(())
}

// Whether the one function of a program is inert, and whether its main body is where that function counts
// as inert and where it doesn't.
fn inert_in(alloc: Global, core: &Core) -> Result<(bool, bool, bool), Memory> {
    let (body, gives) = (&core.main.body, &core.main.result);
    let marks = inert_funs(alloc, core)?;
    let function = matches!(marks.as_slice(), [true]);
    Ok((
        function,
        inert(core, body, gives, &marks),
        inert(core, body, gives, &[false]),
    ))
}

// The same of a text's program.
fn inert_in_text(alloc: Global, text: &[u8]) -> Result<(bool, bool, bool), Fail> {
    let checked = checked(alloc, text)?;
    Ok(inert_in(alloc, checked.core())?)
}

#[test]
fn a_copy_of_a_stream_is_inert(rt: HostRuntime) -> Result<(), Fail> {
    let text = b"fun copy(xs : Int*) : Int* = case xs of { nil => nil | y :: ys => y :: copy(ys) }
main(xs : Int*) : Int* = copy(xs)";
    assert!(rt; inert_in_text(rt.alloc(), text)? == (true, true, false));
    Ok(())
}

// `main(x : Int) : Int = x`, or with another name for its body. The number of x is 0.
fn named(alloc: Global, body: u32) -> Result<Box<Core>, Memory>
    ensures core { IfOk result (λ c. IsCore (core_of c.value)) }
    ensures nodes { IfOk result (λ c. HasFewNodes (core_of c.value)) }
{
    let mut texts = Vec::new(alloc);
    texts.push(String::from_str(alloc, "x")?)?;
    let main = Body {
        past: Vec::new(alloc),
        params: Bunch::Leaf(Name(0), Ty::Int),
        result: Ty::Int,
        body: Node {
            at: 22,
            term: Term::Var(Name(body)),
        },
    };
    let funs = Vec::new(alloc);
    Ok(Box::new(alloc, Core { funs, main, texts })?)
}

// That program, checked, or what is wrong with it.
fn check_named(alloc: Global, body: u32) -> Result<Result<Box<Checked>, TypeFault>, Fail> {
    let core = named(alloc, body)?;
    match check(alloc, Box::into_inner(core)) {
        Ok(checked) => Ok(Ok(Box::new(alloc, checked)?)),
        Err(fault) => Ok(Err(fault)),
    }
}

// Whether a checked program takes and gives numbers, and its body stands at its place.
fn is_of_numbers(checked: &Checked) -> bool {
    let input = matches!(checked.input(), Ty::Int);
    let output = matches!(checked.output(), Ty::Int);
    input && output && checked.core().main.body.at == 22
}

#[test]
fn a_typed_program_is_checked(rt: HostRuntime) -> Result<(), Fail> {
    let checked = check_named(rt.alloc(), 0)??;
    assert!(rt; is_of_numbers(&checked));
    Ok(())
}

// Whether the fault is that nothing binds the name in the first node.
fn is_unbound(found: &Result<Box<Checked>, TypeFault>) -> bool {
    match found {
        Err(fault) => is_fault(fault, (0, 22, ("Unbound", 2, 0))),
        Ok(_) => false,
    }
}

// No text comes so far: elaboration refuses it before.
#[test]
fn a_name_that_nothing_binds(rt: HostRuntime) -> Result<(), Fail> {
    let found = check_named(rt.alloc(), 2)?;
    let is_so = is_unbound(&found);
    drop(found);
    assert!(rt; is_so);
    Ok(())
}
