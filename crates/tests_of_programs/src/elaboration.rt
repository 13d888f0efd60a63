//! Programs with their cores, or with what is wrong first. Places are bytes of a text, and names are
//! numbered as they first stand in it.

use crate::programs::{core, fault, is_typed};
use core_term::{Core, Node, Term};
use delta_check::{TypeCause, TypeFault};
use delta_elab::{ElabFault, ProgramFault};
use hist_value::{Expr, Op};
use std::alloc::Global;
use std::test::Fail;
use stream_type::Ty;

// A fault by its name, the number of the name that it tells, and its place.
fn told(fault: &ElabFault) -> (&'static str, u32, u32) {
    match fault {
        ElabFault::Unbound(x, at) => ("Unbound", x.0, *at),
        ElabFault::NoFunction(x, at) => ("NoFunction", x.0, *at),
        ElabFault::NoType(x, at) => ("NoType", x.0, *at),
        ElabFault::TooWide(at) => ("TooWide", 0, *at),
        ElabFault::TooTall(at) => ("TooTall", 0, *at),
        _ => ("", 0, 0),
    }
}

// What is wrong first with the names and types of a program, or "none".
fn told_first(fault: &Option<ProgramFault>) -> (&'static str, u32, u32) {
    match fault {
        Some(ProgramFault::Elab(fault)) => told(fault),
        Some(_) => ("", 0, 0),
        None => ("none", 0, 0),
    }
}

// The same of a text's program.
fn fault_of(alloc: Global, text: &[u8]) -> Result<(&'static str, u32, u32), Fail> {
    let found = fault(alloc, text)?;
    let told = told_first(&found);
    drop(found);
    Ok(told)
}

fn texts_are(core: &Core, texts: &[&str]) -> bool {
    if core.texts.len() != texts.len() {
        return false;
    }
    for (text, expected) in core.texts.iter().zip(texts) {
        if text.as_str() != *expected {
            return false;
        }
    }
    true
}

fn is_name(n: &Node, at: u32, x: u32) -> bool {
    n.at == at && matches!(&n.term, Term::Var(y) if y.0 == x)
}

fn is_number(n: &Node, at: u32, number: i64) -> bool {
    n.at == at && matches!(&n.term, Term::Past(Expr::Lit(m)) if *m == number)
}

const PARTED: &[u8] = b"main(z : Int || Int) : Int = let (x, y) = (z : Int || Int) in x";

// Whether a term takes the name 3 apart into 1 and 2, and gives 1.
fn is_taken_apart(n: &Node) -> bool {
    match &n.term {
        Term::LetPar(x, y, z, body) => { x.0 == 1 && y.0 == 2 && z.0 == 3 && is_name(body, 62, 1) }
        _ => false,
    }
}

// Whether a term is the core of that text's body: the head has a name of its own.
fn is_parted(n: &Node) -> bool {
    match &n.term {
        Term::Let(z, Ty::Par(_, _), a, b) => {
            n.at == 42 && z.0 == 3 && is_name(a, 43, 0) && b.at == 29 && is_taken_apart(b)
        }
        _ => false,
    }
}

// Whether that text's core is so, with a text for each name.
fn gets_a_name(alloc: Global) -> Result<bool, Fail> {
    let core = core(alloc, PARTED)?;
    Ok(texts_are(&core, &["z", "x", "y", "#3"]) && is_parted(&core.main.body))
}

#[test]
fn a_head_with_its_type_gets_a_name(rt: HostRuntime) -> Result<(), Fail> {
    assert!(rt; gets_a_name(rt.alloc())?);
    Ok(())
}

// Whether a term binds the name 1 to 0 and gives it.
fn is_bound_anew(n: &Node) -> bool {
    match &n.term {
        Term::Let(x, Ty::Int, a, b) => x.0 == 1 && is_name(a, 40, 0) && is_name(b, 50, 1),
        _ => false,
    }
}

// Whether a text's core is so, gives a number, and has two names with one text.
fn binds_anew(alloc: Global, text: &[u8]) -> Result<bool, Fail> {
    let core = core(alloc, text)?;
    let gives = matches!(&core.main.result, Ty::Int);
    Ok(gives && texts_are(&core, &["x", "x"]) && is_bound_anew(&core.main.body))
}

#[test]
fn a_name_bound_anew_has_a_number_of_its_own(rt: HostRuntime) -> Result<(), Fail> {
    let text = b"type N = Int main(x : N) : N = let x = (x : N) in x";
    assert!(rt; binds_anew(rt.alloc(), text)?);
    Ok(())
}

// Whether a term is a case on 0 with the numbers 7 and 8.
fn is_choice(n: &Node) -> bool {
    match &n.term {
        Term::CaseSum(z, Ty::Int, x, a, y, b) => {
            let names = z.0 == 0 && x.0 == 1 && y.0 == 2;
            n.at == 15 && names && is_number(a, 29, 7) && is_number(b, 38, 8)
        }
        _ => false,
    }
}

// Whether a term binds 0 to a comparison, for such a case.
fn is_compared(n: &Node) -> bool {
    match &n.term {
        Term::Let(z, Ty::Sum(_, _), test, case) => {
            let less = matches!(&test.term, Term::Past(Expr::Bin(Op::Less, _, _)));
            z.0 == 0 && test.at == 15 && less && is_choice(case)
        }
        _ => false,
    }
}

// Whether a text's core is so, with three names of its own.
fn compares(alloc: Global, text: &[u8]) -> Result<bool, Fail> {
    let core = core(alloc, text)?;
    Ok(texts_are(&core, &["#0", "#1", "#2"]) && is_compared(&core.main.body))
}

#[test]
fn an_if_is_a_case_on_its_test(rt: HostRuntime) -> Result<(), Fail> {
    assert!(rt; compares(rt.alloc(), b"main() : Int = if 1 < 2 then {7} else {8}")?);
    Ok(())
}

// Texts with names that aren't known, and the place of each.
const UNKNOWN: &[(&[u8], &str, u32)] = &[
    (b"main(x : Int) : Int = y", "Unbound", 22),
    (b"main(x : Int) : Int = y(x)", "NoFunction", 22),
    (b"main(x : y) : Int = x", "NoType", 9),
    (b"main(x : Int) : Int = wait y in x", "Unbound", 22),
    (b"main(x : Int) : Int = {y}", "Unbound", 23),
    // An expression in brackets stands inside them.
    (b"main(x : Int) : Int = {(y)}", "Unbound", 24),
];

#[test]
fn unknown_names_are_told_with_their_places(rt: HostRuntime) -> Result<(), Fail> {
    for (text, name, at) in UNKNOWN {
        assert!(rt; fault_of(rt.alloc(), text)? == (*name, 1, *at));
    }
    Ok(())
}

// Each type has twice the nodes of the one before it, and one more: eleven have 4,095.
const ELEVEN: &str = "type a = Int || Int
type b = a || a
type c = b || b
type d = c || c
type e = d || d
type f = e || e
type g = f || f
type h = g || g
type i = h || h
type j = i || i
type k = j || j
";

// What is wrong first with a text behind those types.
fn fault_behind(alloc: Global, rest: &str) -> Result<(&'static str, u32, u32), Fail> {
    let mut text = String::from_str(alloc, ELEVEN)?;
    text.push_str(rest)?;
    fault_of(alloc, text.as_bytes())
}

#[test]
fn a_type_with_too_many_nodes_is_too_wide(rt: HostRuntime) -> Result<(), Fail> {
    let fits = fault_behind(rt.alloc(), "main() : Int = {7}")?;
    assert!(rt; fits == ("none", 0, 0));
    let wide = fault_behind(rt.alloc(), "type l = k || k main() : Int = {7}")?;
    assert!(rt; wide == ("TooWide", 0, 189));
    Ok(())
}

// `type A = Int*..` with 40 stars, and `main() : A*..` with so many more, and then the rest.
fn starred(alloc: Global, count: u32, rest: &str) -> Result<String, Fail> {
    let mut text = String::from_str(alloc, "type A = Int")?;
    for _ in 0..40 {
        text.push('*')?;
    }
    text.push_str("\nmain() : A")?;
    for _ in 0..count {
        text.push('*')?;
    }
    text.push_str(rest)?;
    Ok(text)
}

// What is wrong first with that text.
fn fault_of_starred(
    alloc: Global,
    count: u32,
    rest: &str,
) -> Result<(&'static str, u32, u32), Fail> {
    let text = starred(alloc, count, rest)?;
    fault_of(alloc, text.as_bytes())
}

#[test]
fn a_type_above_the_limit_is_too_tall(rt: HostRuntime) -> Result<(), Fail> {
    assert!(rt; fault_of_starred(rt.alloc(), 23, " = nil")? == ("none", 0, 0));
    assert!(rt; fault_of_starred(rt.alloc(), 24, " = nil")? == ("TooTall", 0, 62));
    // A type of which a part isn't known has no height.
    let part = fault_of_starred(rt.alloc(), 24, " || y = nil")?;
    assert!(rt; part == ("NoType", 1, 91));
    Ok(())
}

#[test]
fn a_typed_program_is_accepted(rt: HostRuntime) -> Result<(), Fail> {
    assert!(rt; is_typed(rt.alloc(), PARTED)?);
    Ok(())
}

// Whether it is a mismatch in the first node, at the place 29.
fn is_mismatch(fault: &Option<ProgramFault>) -> bool {
    match fault {
        Some(ProgramFault::Type(TypeFault::Refused { node, at, cause })) => {
            *node == 0 && *at == 29 && matches!(cause, TypeCause::Mismatch { .. })
        }
        _ => false,
    }
}

// Whether a text's program is refused for that.
fn is_refused_for_a_type(alloc: Global, text: &[u8]) -> Result<bool, Fail> {
    let found = fault(alloc, text)?;
    let is_so = is_mismatch(&found);
    drop(found);
    Ok(is_so)
}

#[test]
fn a_program_is_refused_for_a_type(rt: HostRuntime) -> Result<(), Fail> {
    assert!(rt; is_refused_for_a_type(rt.alloc(), b"main(x : Int || Int) : Int = x")?);
    Ok(())
}
