//! The canonical texts of programs and of some types.

use delta_lex::tokens;
use delta_parse::parse;
use delta_print::{print, show};
use std::alloc::Global;
use std::test::Fail;
use stream_type::{Memory, Ty, cat, par, star, sum};

// Whether that is the canonical text of a text's program.
fn is_printed(alloc: Global, text: &str, canonical: &str) -> Result<bool, Fail> {
    let found = tokens(alloc, text.as_bytes())?;
    let program = parse(alloc, &found)?;
    let printed = print(alloc, &program)?;
    Ok(printed.as_str() == canonical)
}

#[test]
fn prints_one_line(rt: HostRuntime) -> Result<(), Fail> {
    let canonical = "main (x : Int) : Int = x\n";
    assert!(rt; is_printed(rt.alloc(), "main(x:Int):Int=((x))", canonical)?);
    Ok(())
}

const TWICE: &str = "type N = (Int)
fun twice(xs : N*) : N* =
  case xs of { nil => nil | y :: ys => wait y in ({y * 2} :: twice(ys)) }
main(xs : N*) : N* = twice(xs)";

#[test]
fn prints_a_line_for_each_declaration(rt: HostRuntime) -> Result<(), Fail> {
    let canonical =
        "type N = Int\nfun twice (xs : N*) : N* = case xs of { nil => nil | y :: ys => wait y in { y * 2 } :: twice (ys) }\nmain (xs : N*) : N* = twice (xs)\n";
    assert!(rt; is_printed(rt.alloc(), TWICE, canonical)?);
    Ok(())
}

// Whether a type is shown so.
fn is_shown(alloc: Global, t: Ty, text: &str) -> Result<bool, Fail> {
    let shown = show(alloc, &t)?;
    Ok(shown.as_str() == text)
}

fn first_in_brackets(alloc: Global) -> Result<Ty, Memory> {
    cat(alloc, sum(alloc, Ty::One, Ty::Int)?, Ty::Int)
}

fn sums(alloc: Global) -> Result<Ty, Memory> {
    let left = cat(alloc, Ty::One, Ty::Int)?;
    sum(alloc, left, sum(alloc, Ty::Eps, Ty::Int)?)
}

fn sides(alloc: Global) -> Result<Ty, Memory> {
    let left = par(alloc, Ty::Int, Ty::One)?;
    par(alloc, left, par(alloc, Ty::Int, Ty::Eps)?)
}

fn stars(alloc: Global) -> Result<Ty, Memory> {
    star(alloc, star(alloc, cat(alloc, Ty::Int, Ty::Int)?)?)
}

// A number and then marks.
fn number_first(alloc: Global) -> Result<Ty, Memory> {
    cat(alloc, Ty::Int, star(alloc, Ty::One)?)
}

// A mark or two numbers beside each other.
fn mark_or_numbers(alloc: Global) -> Result<Ty, Memory> {
    sum(alloc, Ty::One, par(alloc, Ty::Int, Ty::Int)?)
}

#[test]
fn shows_no_brackets_where_none_are_needed(rt: HostRuntime) -> Result<(), Fail> {
    let alloc = rt.alloc();
    assert!(rt; is_shown(alloc, number_first(alloc)?, "Int . 1*")?);
    assert!(rt; is_shown(alloc, mark_or_numbers(alloc)?, "1 + Int || Int")?);
    Ok(())
}

#[test]
fn shows_brackets_where_they_are_needed(rt: HostRuntime) -> Result<(), Fail> {
    let alloc = rt.alloc();
    assert!(rt; is_shown(alloc, first_in_brackets(alloc)?, "(1 + Int) . Int")?);
    assert!(rt; is_shown(alloc, sums(alloc)?, "1 . Int + eps + Int")?);
    assert!(rt; is_shown(alloc, sides(alloc)?, "(Int || 1) || Int || eps")?);
    assert!(rt; is_shown(alloc, stars(alloc)?, "(Int . Int)**")?);
    Ok(())
}
