//! A text that is read and one that is not for each production of the grammar, and the rules on names, marks and numbers.

use delta_lex::{number, tokens};
use delta_parse::{ParseFault, parse};
use std::alloc::Global;
use std::test::Fail;

// What is wrong with a text, if it is no program.
fn fault_of(alloc: Global, text: &str) -> Result<Option<ParseFault>, Fail> {
    let found = tokens(alloc, text.as_bytes())?;
    Ok(parse(alloc, &found).err())
}

// Whether a row holds. It has a production of the grammar, a text that is read, one that is not, and the
// place of the first token of the second with which no program begins.
fn holds(alloc: Global, row: &str) -> Result<bool, Fail> {
    let mut cells = row.split('~').skip(1);
    let read = cells.next().unwrap_or("");
    let refused = cells.next().unwrap_or("");
    let at = number(cells.next().unwrap_or("")).and_then(|at| u32::try_from(at).ok());
    let is_read = fault_of(alloc, read)? == None;
    Ok(is_read && fault_of(alloc, refused)? == at.map(ParseFault::Expected))
}

// The first row of a table that does not hold.
fn first_wrong<'a>(alloc: Global, table: &'a str) -> Result<Option<&'a str>, Fail> {
    for row in table.split('\n') {
        if !holds(alloc, row)? {
            return Ok(Some(row));
        }
    }
    Ok(None)
}

const DECLARATIONS: &str = "program~fun f() : 1 = x main() : 1 = x~main() : 1 = x fun f() : 1 = x~15
decl: type~type t = Int main() : t = x~type t : Int main() : t = x~7
decl: fun~fun f(a : 1) : 1 = a main() : 1 = x~fun main() : 1 = x~4
main~main(x : Int) : Int = x~main {n : Int} () : 1 = x~5
past~fun f {n : Int, m : 1} () : 1 = x main() : 1 = x~fun f {} () : 1 = x main() : 1 = x~7
params~main() : 1 = x~main(, a : 1) : 1 = x~5
ctx: commas~main(a : 1, b : 1, c : 1) : 1 = a~main(a : 1, b : 1; c : 1) : 1 = a~17
ctx: semicolons~main(a : 1; b : 1; c : 1) : 1 = a~main(a : 1; b : 1, c : 1) : 1 = a~17
item: name~main(a : 1) : 1 = a~main(a 1) : 1 = a~7
item: brackets~main((a : 1, b : 1); (c : 1)) : 1 = a~main(()) : 1 = x~6";

#[test]
fn declarations_are_read(rt: HostRuntime) -> Result<(), Fail> {
    assert_eq!(rt; first_wrong(rt.alloc(), DECLARATIONS)?, None);
    Ok(())
}

const TYPES: &str = "type~main() : 1 + Int + 1 = x~main() : 1 + + Int = x~13
par~main() : 1 || Int || 1 = x~main() : 1 || = x~14
cat~main() : 1 . Int . 1 = x~main() : . Int = x~9
star~main() : 1** = x~main() : 1* Int = x~12
base: eps~main() : eps = x~main() : eps eps = x~13
base: 1~main() : 1 = x~main() : 01 = x~9
base: Int~main() : Int = x~main() : Int(1) = x~12
base: name~main() : t = x~main() : t t = x~11
base: brackets~main() : (1 + Int)* = x~main() : () = x~10";

#[test]
fn types_are_read(rt: HostRuntime) -> Result<(), Fail> {
    assert_eq!(rt; first_wrong(rt.alloc(), TYPES)?, None);
    Ok(())
}

const EXPRESSIONS: &str = "exp: let~main() : 1 = let a = b in a~main() : 1 = let a = b then a~23
exp: wait~main() : 1 = wait x in x~main() : 1 = wait (x) in x~18
exp: if~main() : 1 = if 1 < 2 then x else y~main() : 1 = if 1 then x in y~25
exp: ::~main() : 1 = x :: y :: z~main() : 1 = x :: :: y~18
pat: name~main() : 1 = let a = b in a~main() : 1 = let eps = b in a~17
pat: comma~main() : 1 = let (a, b) = c in a~main() : 1 = let (a) = c in a~19
pat: semicolon~main() : 1 = let (a; b) = c in a~main() : 1 = let (a; (b; c)) = d in a~21
head: name~main() : 1 = let a = b in a~main() : 1 = let a = b :: c in a~23
head: call~main() : 1 = let a = f(b) in a~main() : 1 = let a = f(b in a~25
head: type~main() : 1 = let a = (b : 1) in a~main() : 1 = let a = (b) in a~23
app: inl~main() : 1 = inl inl x~main() : 1 = inl let a = b in a~17
app: inr~main() : 1 = inr (x, y)~main() : 1 = inr if 1 then x else y~17
app: atom~main() : 1 = (x) :: y~main() : 1 = x y~15
atom: name~main() : 1 = x~main() : 1 = 1~13
atom: call~main() : 1 = f(x)~main() : 1 = f f(x)~15
atom: eps~main() : 1 = eps~main() : 1 = eps()~16
atom: nil~main() : 1 = nil~main() : 1 = nil {1}~17
atom: unit~main() : 1 = ()~main() : 1 = (,)~14
atom: brackets~main() : 1 = ((x))~main() : 1 = (x y)~16
atom: comma~main() : 1 = (x, y)~main() : 1 = (x, y, z)~18
atom: semicolon~main() : 1 = (x; y)~main() : 1 = (x; y, z)~18
atom: type~main() : 1 = (x : 1 + Int)~main() : 1 = (x : 1, y)~19
atom: hist~main() : 1 = {n}~main() : 1 = {}~14
atom: case~main() : 1 = case f(x) of {nil => x | y :: ys => y}~main() : 1 = case x of nil => x | y :: ys => y~23
arms: sum~main() : 1 = case x of {inl a => a | inr b => b}~main() : 1 = case x of {inl a => a | inl b => b}~37
arms: star~main() : 1 = case x of {nil => x | y :: ys => y}~main() : 1 = case x of {nil => x | y => y}~37
call: past~main() : 1 = f {1, n} (x, y)~main() : 1 = f {1} x~19
call: none~main() : 1 = f()~main() : 1 = f(x,)~17";

#[test]
fn expressions_are_read(rt: HostRuntime) -> Result<(), Fail> {
    assert_eq!(rt; first_wrong(rt.alloc(), EXPRESSIONS)?, None);
    Ok(())
}

const HISTORIES: &str =
    "hist: fold~main() : 1 = {fold n from 0 with a, b. a + b}~main() : 1 = {fold n from 0 with a. a}~34
hist: case~main() : 1 = {case n of {inl a => a | inr b => b}}~main() : 1 = {case n of {nil => 1}}~25
hist: ::~main() : 1 = {1 :: 2 :: nil}~main() : 1 = {1 ::}~18
comp: <~main() : 1 = {1 < 2}~main() : 1 = {1 < 2 < 3}~20
comp: =~main() : 1 = {1 = 2}~main() : 1 = {1 = 2 < 3}~20
sum: +~main() : 1 = {1 + 2 + 3}~main() : 1 = {1 + + 2}~18
sum: -~main() : 1 = {1 - 2 - 3}~main() : 1 = {1 - = 2}~18
prod: *~main() : 1 = {1 * 2 * 3}~main() : 1 = {* 2}~14
prod: /~main() : 1 = {1 / 2 / 3}~main() : 1 = {1 / / 2}~18
un: fst~main() : 1 = {fst fst n}~main() : 1 = {fst fold n from 0 with a, b. a}~18
un: snd~main() : 1 = {snd n}~main() : 1 = {snd < n}~18
un: inl~main() : 1 = {inl n}~main() : 1 = {inl :: n}~18
un: inr~main() : 1 = {inr (n, m)}~main() : 1 = {inr case n of {inl a => a | inr b => b}}~18
hatom: name~main() : 1 = {n}~main() : 1 = {n m}~16
hatom: number~main() : 1 = {01}~main() : 1 = {7 8}~16
hatom: minus~main() : 1 = {-3}~main() : 1 = {-n}~15
hatom: unit~main() : 1 = {()}~main() : 1 = {(,)}~15
hatom: nil~main() : 1 = {nil}~main() : 1 = {nil nil}~18
hatom: brackets~main() : 1 = {((n))}~main() : 1 = {(n m)}~17
hatom: pair~main() : 1 = {(n, m)}~main() : 1 = {(n, m, k)}~19";

#[test]
fn histories_are_read(rt: HostRuntime) -> Result<(), Fail> {
    assert_eq!(rt; first_wrong(rt.alloc(), HISTORIES)?, None);
    Ok(())
}

// Whether that is wrong with a text, or nothing.
fn has_fault(alloc: Global, text: &str, fault: Option<ParseFault>) -> Result<bool, Fail> {
    Ok(fault_of(alloc, text)? == fault)
}

#[test]
fn names_of_each_kind_stand_apart(rt: HostRuntime) -> Result<(), Fail> {
    let text = "type f = 1 fun f(f : f) : f = let f = f in let f = f in f main() : f = x";
    assert!(rt; has_fault(rt.alloc(), text, None)?);
    Ok(())
}

#[test]
fn comments_are_no_tokens(rt: HostRuntime) -> Result<(), Fail> {
    let fault = Some(ParseFault::Expected(21));
    assert!(rt; has_fault(rt.alloc(), "main(x : Int) : Int = // x", fault)?);
    Ok(())
}

#[test]
fn no_token_is_no_main(rt: HostRuntime) -> Result<(), Fail> {
    for (text, at) in [("", 0), ("type t = 1 ", 10)] {
        assert!(rt; has_fault(rt.alloc(), text, Some(ParseFault::NoMain(at)))?);
    }
    Ok(())
}

#[test]
fn names_bound_together_are_distinct(rt: HostRuntime) -> Result<(), Fail> {
    let rows = [
        ("fun f {n : Int} (n : Int) : Int = n main() : 1 = x", 17),
        ("main(a : 1, (b : 1; a : 1)) : 1 = a", 20),
        ("main() : 1 = let (x; x) = y in x", 21),
        ("main() : 1 = let (x, x) = y in x", 21),
        ("main() : 1 = case x of {nil => x | y :: y => y}", 40),
        ("main() : 1 = {fold n from 0 with x, x. x}", 36),
        ("type t = 1 type t = Int main() : t = x", 16),
        ("fun f() : 1 = x fun f() : 1 = x main() : 1 = x", 20),
    ];
    for (text, at) in rows {
        assert!(rt; has_fault(rt.alloc(), text, Some(ParseFault::Twice(at)))?);
    }
    Ok(())
}

// A program whose result has its type in so many brackets.
fn bracketed(alloc: Global, count: usize) -> Result<String, Fail> {
    let mut text = String::from_str(alloc, "main() : ")?;
    for _ in 0..count {
        text.push('(')?;
    }
    text.push('1')?;
    for _ in 0..count {
        text.push(')')?;
    }
    text.push_str(" = x")?;
    Ok(text)
}

#[test]
fn marks_are_counted(rt: HostRuntime) -> Result<(), Fail> {
    for (count, fault) in [(64, None), (65, Some(ParseFault::Deep(74)))] {
        let text = bracketed(rt.alloc(), count)?;
        assert!(rt; has_fault(rt.alloc(), &text, fault)?);
    }
    Ok(())
}

// A program of so many functions.
fn functions(alloc: Global, count: usize) -> Result<String, Fail> {
    let mut text = String::new(alloc);
    for i in 0..count {
        text.push_str(&format!(in alloc; "fun f{i:04}() : 1 = x\n")?)?;
    }
    text.push_str("main() : 1 = x")?;
    Ok(text)
}

#[test]
fn functions_are_counted(rt: HostRuntime) -> Result<(), Fail> {
    for (count, fault) in [(1000, None), (1001, Some(ParseFault::Many(20_004)))] {
        let text = functions(rt.alloc(), count)?;
        assert!(rt; has_fault(rt.alloc(), &text, fault)?);
    }
    Ok(())
}

// A program with so many historical parameters.
fn parameters(alloc: Global, count: usize) -> Result<String, Fail> {
    let mut text = String::from_str(alloc, "fun f {n : 1")?;
    for i in 1..count {
        text.push_str(&format!(in alloc; ", n{i:04} : 1")?)?;
    }
    text.push_str("} () : 1 = x main() : 1 = x")?;
    Ok(text)
}

#[test]
fn bound_names_are_counted(rt: HostRuntime) -> Result<(), Fail> {
    for (count, fault) in [(1024, None), (1025, Some(ParseFault::Many(11_267)))] {
        let text = parameters(rt.alloc(), count)?;
        assert!(rt; has_fault(rt.alloc(), &text, fault)?);
    }
    Ok(())
}
