//! What small states ask on a number: the values of the expressions that they list.

use bunch::{Bunch, Name};
use delta_code::{nothing_known, value_in};
use hist_value::{Expr, Op as Reckon, Value};
use machine_parts::awaited::Awaited;
use machine_parts::entry::Entry;
use machine_parts::stop::{HORIZON, Stop};
use state_asks::{Ask, asks};
use std::alloc::Global;
use std::rc::Rc;
use std::test::Fail;
use stream_prefix::Prefix;
use stream_type::{Memory, Ty};
use template_state::{Arguments, Code, Later, Live, Op, Operands, Template};

// the name of the input, on which the numbers come
const INPUT: Name = Name(0);

const AMPLE: u64 = 100;

// `{x + n}`
fn more(alloc: Global, x: Name, n: i64) -> Result<Rc<Op>, Memory> {
    let name = Box::new(alloc, Expr::Var(x))?;
    let number = Box::new(alloc, Expr::Lit(n))?;
    Ok(Rc::new(alloc, Op::Past(Expr::Bin(Reckon::Add, name, number)))?)
}

// This code, which isn't reached.
fn later(alloc: Global, code: Rc<Op>) -> Result<Later, Memory> {
    let past = nothing_known(alloc)?;
    Ok(Later {
        code,
        past,
        depth: HORIZON,
    })
}

// `wait x in` this code, before anything came on x.
fn waits(alloc: Global, x: Name, code: Rc<Op>) -> Result<Box<Live>, Memory> {
    let mut held = Vec::new(alloc);
    held.push(Entry {
        name: x,
        ty: Ty::Int,
        prefix: Prefix::IntEmp,
    })?;
    let then = later(alloc, code)?;
    Ok(Box::new(alloc, Live::Wait(x, Ty::Int, held, then))?)
}

// `let y = wait input in {input + 1} in wait y in {y + 2}`
fn in_let(alloc: Global) -> Result<Box<Live>, Memory> {
    let one = more(alloc, INPUT, 1)?;
    let head = waits(alloc, INPUT, one)?;
    let two = more(alloc, Name(1), 2)?;
    let body = waits(alloc, Name(1), two)?;
    Ok(Box::new(alloc, Live::Let(Name(1), Ty::Int, head, body))?)
}

// `(wait input in {input + 1}; {7 + 0})`, as the body of a frame
fn in_frame(alloc: Global) -> Result<Box<Live>, Memory> {
    let one = more(alloc, INPUT, 1)?;
    let argument = waits(alloc, INPUT, one)?;
    let rest = Box::new(alloc, Arguments::None)?;
    let args = Box::new(alloc, Arguments::Before(Name(1), Ty::Int, argument, rest))?;
    let first = Box::new(alloc, Live::Var(Name(1)))?;
    let last = Rc::new(alloc, Op::Past(Expr::Lit(7)))?;
    let after = later(alloc, last)?;
    let body = Box::new(alloc, Live::Cat(first, after))?;
    Ok(Box::new(alloc, Live::Frame(args, body))?)
}

// `wait input in f{input}({input + 1})`
fn in_call(alloc: Global) -> Result<Box<Live>, Memory> {
    let argument = more(alloc, INPUT, 1)?;
    let none = Box::new(alloc, Operands::None)?;
    let es = Box::new(alloc, Operands::Before(argument, none))?;
    let mut ms = Vec::new(alloc);
    ms.push(Expr::Var(INPUT))?;
    let call = Rc::new(alloc, Op::Call(0, ms, es))?;
    waits(alloc, INPUT, call)
}

// `fun f{n : int}(a : int) = wait a in {n + a}`, with a main program that gives nothing
fn code(alloc: Global) -> Result<Code, Memory> {
    let (n, a) = (Name(2), Name(3));
    let left = Box::new(alloc, Expr::Var(n))?;
    let right = Box::new(alloc, Expr::Var(a))?;
    let sum = Rc::new(alloc, Op::Past(Expr::Bin(Reckon::Add, left, right)))?;
    let body = Rc::new(alloc, Op::Wait(a, Ty::Int, sum))?;
    let mut past = Vec::new(alloc);
    past.push((n, Ty::Int))?;
    let params = Bunch::Leaf(a, Ty::Int);
    let result = Ty::Int;
    let mut funs = Vec::new(alloc);
    funs.push(Template {
        past,
        params,
        result,
        body,
    })?;
    let main = Template {
        past: Vec::new(alloc),
        params: Bunch::Empty,
        result: Ty::Eps,
        body: Rc::new(alloc, Op::Eps)?,
    };
    Ok(Code { funs, main })
}

// The numbers that these are.
fn numbers(alloc: Global, found: &[Ask]) -> Result<Vec<i64>, Memory> {
    let mut numbers = Vec::new(alloc);
    for ask in found {
        match value_in(alloc, &ask.past, &ask.expr)? {
            Value::Int(n) => numbers.push(n)?,
            other => drop(other),
        }
    }
    Ok(numbers)
}

// The values of what a state asks, with so many levels, where this comes.
fn asked(
    alloc: Global,
    state: &Live,
    output: &Ty,
    next: &Prefix,
    levels: u64,
) -> Result<Vec<i64>, Stop> {
    let code = code(alloc)?;
    let awaited = Awaited::Stream(INPUT, Ty::Int);
    let found = asks(alloc, &code, &awaited, next, state, output, AMPLE, levels)?;
    Ok(numbers(alloc, &found)?)
}

#[test]
fn a_head_is_asked_before_its_body(rt: HostRuntime) -> Result<(), Fail> {
    let state = in_let(rt.alloc())?;
    let all = asked(rt.alloc(), &state, &Ty::Int, &Prefix::IntFull(5), AMPLE)?;
    assert!(rt; all.as_slice() == [6, 8].as_slice());
    Ok(())
}

#[test]
fn nothing_is_asked_before_a_wait_is_over(rt: HostRuntime) -> Result<(), Fail> {
    let state = in_let(rt.alloc())?;
    let none = asked(rt.alloc(), &state, &Ty::Int, &Prefix::IntEmp, AMPLE)?;
    assert!(rt; none.is_empty());
    Ok(())
}

#[test]
fn arguments_are_asked_before_their_frame(rt: HostRuntime) -> Result<(), Fail> {
    let state = in_frame(rt.alloc())?;
    let output = stream_type::cat(rt.alloc(), Ty::Int, Ty::Int)?;
    let all = asked(rt.alloc(), &state, &output, &Prefix::IntFull(5), AMPLE)?;
    assert!(rt; all.as_slice() == [6, 7].as_slice());
    Ok(())
}

#[test]
fn a_call_asks_its_arguments_and_then_its_body(rt: HostRuntime) -> Result<(), Fail> {
    let state = in_call(rt.alloc())?;
    let all = asked(rt.alloc(), &state, &Ty::Int, &Prefix::IntFull(5), AMPLE)?;
    assert!(rt; all.as_slice() == [5, 6, 11].as_slice());
    Ok(())
}

#[test]
fn a_call_too_deep_is_not_asked(rt: HostRuntime) -> Result<(), Fail> {
    let state = in_call(rt.alloc())?;
    let none = asked(rt.alloc(), &state, &Ty::Int, &Prefix::IntFull(5), 0);
    assert!(rt; matches!(none, Err(Stop::Deep)));
    Ok(())
}
