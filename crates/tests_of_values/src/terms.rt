//! Each call once, on small programs.

use bunch::{Bunch, Name};
use core_term::{Body, Core, Node, Term, body_of, copy, copy_core, fits, free};
use hist_value::{Expr, Op};
use std::alloc::Global;
use stream_type::{Memory, Ty, cat};

fn boxed(alloc: Global, at: u32, term: Term) -> Result<Box<Node>, Memory> {
    Ok(Box::new(alloc, Node { at, term })?)
}

// `(x; y)` at the place 38, with the names 0 and 1.
fn pair(alloc: Global) -> Result<Box<Node>, Memory> {
    let first = boxed(alloc, 39, Term::Var(Name(0)))?;
    let second = boxed(alloc, 42, Term::Var(Name(1)))?;
    boxed(alloc, 38, Term::Cat(first, second))
}

// `x : Int; y : Int`
fn params(alloc: Global) -> Result<Box<Bunch>, Memory> {
    let first = Box::new(alloc, Bunch::Leaf(Name(0), Ty::Int))?;
    let second = Box::new(alloc, Bunch::Leaf(Name(1), Ty::Int))?;
    Ok(Box::new(alloc, Bunch::Semi(first, second))?)
}

// A body of such parameters.
fn body(
    alloc: Global,
    params: Box<Bunch>,
    gives: Box<Ty>,
    body: Box<Node>,
) -> Result<Box<Body>, Memory> {
    let made = Body {
        past: Vec::new(alloc),
        params: Box::into_inner(params),
        result: Box::into_inner(gives),
        body: Box::into_inner(body),
    };
    Ok(Box::new(alloc, made)?)
}

// `Int . Int`
fn numbers(alloc: Global) -> Result<Box<Ty>, Memory> {
    Ok(Box::new(alloc, cat(alloc, Ty::Int, Ty::Int)?)?)
}

// `main(x : Int; y : Int) : Int . Int = (x; y)`
fn main_in_turn(alloc: Global) -> Result<Box<Body>, Memory> {
    let params = params(alloc)?;
    let numbers = numbers(alloc)?;
    body(alloc, params, numbers, pair(alloc)?)
}

// A program of these functions, of that main body and of these texts.
fn program(
    alloc: Global,
    funs: Vec<Body>,
    main: Box<Body>,
    texts: Vec<String>,
) -> Result<Box<Core>, Memory> {
    let main = Box::into_inner(main);
    Ok(Box::new(alloc, Core { funs, main, texts })?)
}

// The texts of x and y.
fn texts(alloc: Global) -> Result<Vec<String>, Memory> {
    let mut texts = Vec::new(alloc);
    texts.push(String::from_str(alloc, "x")?)?;
    texts.push(String::from_str(alloc, "y")?)?;
    Ok(texts)
}

// The program of these functions and of that main body.
fn in_turn(alloc: Global, funs: Vec<Body>) -> Result<Box<Core>, Memory> {
    let texts = texts(alloc)?;
    let main = main_in_turn(alloc)?;
    program(alloc, funs, main, texts)
}

// A body without parameters, with this result and `()`.
fn mark(alloc: Global, gives: Box<Ty>) -> Result<Box<Body>, Memory> {
    let params = Box::new(alloc, Bunch::Empty)?;
    let unit = boxed(alloc, 0, Term::Unit)?;
    body(alloc, params, gives, unit)
}

// A type of this height.
fn tall(alloc: Global, height: u32) -> Result<Box<Ty>, Memory> {
    let mut t = Box::new(alloc, Ty::Int)?;
    for _ in 1..height {
        t = Box::new(alloc, Ty::Star(t))?;
    }
    Ok(t)
}

// Whether these are the free names of a term.
fn are_names(alloc: Global, node: &Node, expected: &[Name]) -> bool {
    match free(alloc, node) {
        Ok(names) => names.as_slice() == expected,
        Err(_) => false,
    }
}

// The same of a term that was made.
fn are_names_of(alloc: Global, node: Result<Box<Node>, Memory>, expected: &[Name]) -> bool {
    match node {
        Ok(node) => are_names(alloc, &node, expected),
        Err(_) => false,
    }
}

#[test]
fn names_in_order_of_use(rt: HostRuntime) {
    let alloc = rt.alloc();
    assert!(rt; are_names_of(alloc, pair(alloc), &[Name(0), Name(1)]));
}

// `let (3, 4) = 2 in (3, (2, 5))`
fn parts(alloc: Global) -> Result<Box<Node>, Memory> {
    let subject = boxed(alloc, 3, Term::Var(Name(2)))?;
    let other = boxed(alloc, 4, Term::Var(Name(5)))?;
    let right = boxed(alloc, 2, Term::Par(subject, other))?;
    let left = boxed(alloc, 1, Term::Var(Name(3)))?;
    let inside = boxed(alloc, 0, Term::Par(left, right))?;
    boxed(alloc, 0, Term::LetPar(Name(3), Name(4), Name(2), inside))
}

#[test]
fn bound_names_are_hidden(rt: HostRuntime) {
    let alloc = rt.alloc();
    assert!(rt; are_names_of(alloc, parts(alloc), &[Name(2), Name(5)]));
}

// `wait 1 in {1}`
fn wait_for_value(alloc: Global) -> Result<Box<Node>, Memory> {
    let value = boxed(alloc, 1, Term::Past(Expr::Var(Name(1))))?;
    boxed(alloc, 0, Term::Wait(Name(1), Ty::Int, value))
}

// `wait 1 in (0; 1)`
fn wait_for_pair(alloc: Global) -> Result<Box<Node>, Memory> {
    boxed(alloc, 0, Term::Wait(Name(1), Ty::Int, pair(alloc)?))
}

#[test]
fn the_subject_of_a_wait_stays_free(rt: HostRuntime) {
    let alloc = rt.alloc();
    assert!(rt; are_names_of(alloc, wait_for_value(alloc), &[Name(1)]));
    assert!(rt; are_names_of(alloc, wait_for_pair(alloc), &[Name(1), Name(0)]));
}

// A copy of a term.
fn copied(alloc: Global, node: &Node) -> Result<Box<Node>, Memory> {
    Ok(Box::new(alloc, copy(alloc, node)?)?)
}

// Whether a term is this name, at this place.
fn is_name(node: &Node, place: u32, name: u32) -> bool {
    node.at == place && matches!(node.term, Term::Var(Name(x)) if x == name)
}

// Whether a term is `(x; y)` of the names 0 and 1, with its places.
fn is_pair(node: &Node) -> bool {
    match &node.term {
        Term::Cat(first, second) => {
            node.at == 38 && is_name(first, 39, 0) && is_name(second, 42, 1)
        }
        _ => false,
    }
}

// Whether the copy of the pair is the pair.
fn is_pair_copied(alloc: Global) -> Result<bool, Memory> {
    let pair = pair(alloc)?;
    let copied = copied(alloc, &pair)?;
    Ok(is_pair(&copied))
}

#[test]
fn a_copy_is_equal(rt: HostRuntime) {
    assert!(rt; matches!(is_pair_copied(rt.alloc()), Ok(true)));
}

// `{7 / 0}`
fn values(alloc: Global) -> Result<Vec<Expr>, Memory> {
    let seven = Box::new(alloc, Expr::Lit(7))?;
    let zero = Box::new(alloc, Expr::Lit(0))?;
    let mut values = Vec::new(alloc);
    values.push(Expr::Bin(Op::Div, seven, zero))?;
    Ok(values)
}

fn put(arguments: &mut Vec<Node>, argument: Box<Node>) -> Result<(), Memory> {
    Ok(arguments.push(Box::into_inner(argument))?)
}

// The arguments `(x; y)` and `nil`.
fn arguments(alloc: Global) -> Result<Vec<Node>, Memory> {
    let mut arguments = Vec::new(alloc);
    put(&mut arguments, pair(alloc)?)?;
    put(&mut arguments, boxed(alloc, 50, Term::Nil)?)?;
    Ok(arguments)
}

// A call of the function 3 with these.
fn call(alloc: Global) -> Result<Box<Node>, Memory> {
    let values = values(alloc)?;
    boxed(alloc, 30, Term::Call(3, values, arguments(alloc)?))
}

// Whether arguments are `(x; y)` and `nil`, with their places.
fn are_arguments(arguments: &[Node]) -> bool {
    match arguments {
        [first, second] => { is_pair(first) && second.at == 50 && matches!(second.term, Term::Nil) }
        _ => false,
    }
}

// Whether a term is that call.
fn is_call(node: &Node) -> bool {
    match &node.term {
        Term::Call(f, values, arguments) => {
            *f == 3
                && matches!(values.as_slice(), [Expr::Bin(Op::Div, _, _)])
                && are_arguments(arguments)
        }
        _ => false,
    }
}

// Whether the copy of the call is the call, and has its free names.
fn is_call_copied(alloc: Global) -> Result<bool, Memory> {
    let call = call(alloc)?;
    let copied = copied(alloc, &call)?;
    Ok(is_call(&copied) && are_names(alloc, &copied, &[Name(0), Name(1)]))
}

#[test]
fn a_copied_call_has_its_arguments(rt: HostRuntime) {
    assert!(rt; matches!(is_call_copied(rt.alloc()), Ok(true)));
}

// Puts a function of that kind to the others.
fn put_mark(alloc: Global, funs: &mut Vec<Body>, gives: Ty) -> Result<(), Memory> {
    let fun = mark(alloc, Box::new(alloc, gives)?)?;
    Ok(funs.push(Box::into_inner(fun))?)
}

// A function that gives a mark, and one that gives a number.
fn marks(alloc: Global) -> Result<Vec<Body>, Memory> {
    let mut funs = Vec::new(alloc);
    put_mark(alloc, &mut funs, Ty::One)?;
    put_mark(alloc, &mut funs, Ty::Int)?;
    Ok(funs)
}

// The program in turn with those functions.
fn in_turn_with_marks(alloc: Global) -> Result<Box<Core>, Memory> {
    let funs = marks(alloc)?;
    in_turn(alloc, funs)
}

// Whether a body is that of the program in turn.
fn is_in_turn(main: &Body) -> bool {
    main.past.is_empty()
        && matches!(main.params, Bunch::Semi(_, _))
        && matches!(main.result, Ty::Cat(_, _))
        && is_pair(&main.body)
}

// Whether a program has two functions, two texts and the body of the program in turn.
fn is_with_marks(program: &Core) -> bool {
    let counts = program.funs.len() == 2 && program.texts.len() == 2;
    counts && is_in_turn(&program.main)
}

// Whether the copy of a program is so.
fn is_copied(alloc: Global, program: &Core) -> bool {
    let copied = copy_core(alloc, program);
    let is = match &copied {
        Ok(copied) => is_with_marks(copied),
        Err(_) => false,
    };
    drop(copied);
    is
}

// Whether the copy of that program is.
fn is_program_copied(alloc: Global) -> Result<bool, Memory> {
    let program = in_turn_with_marks(alloc)?;
    Ok(is_copied(alloc, &program))
}

#[test]
fn a_copied_program_is_equal(rt: HostRuntime) {
    assert!(rt; matches!(is_program_copied(rt.alloc()), Ok(true)));
}

// Which of the functions of these numbers a program has.
fn there(program: &Core) -> [bool; 4] {
    [
        body_of(program, 0).is_some(),
        body_of(program, 1).is_some(),
        body_of(program, 2).is_some(),
        body_of(program, u32::MAX).is_some(),
    ]
}

// Whether the second function of a program gives numbers.
fn second_gives_numbers(program: &Core) -> bool {
    match body_of(program, 1) {
        Some(body) => matches!(body.result, Ty::Int),
        None => false,
    }
}

// Whether just these functions are there, and the second gives numbers where it is.
fn has(program: &Core, expected: [bool; 4]) -> bool {
    there(program) == expected && second_gives_numbers(program) == expected[1]
}

// Whether a program without functions has none.
fn has_none(alloc: Global) -> Result<bool, Memory> {
    let program = in_turn(alloc, Vec::new(alloc))?;
    Ok(has(&program, [false, false, false, false]))
}

// Whether a program of two functions has these.
fn has_two(alloc: Global) -> Result<bool, Memory> {
    let program = in_turn_with_marks(alloc)?;
    Ok(has(&program, [true, true, false, false]))
}

#[test]
fn functions_by_number(rt: HostRuntime) {
    assert!(rt; matches!(has_none(rt.alloc()), Ok(true)));
    assert!(rt; matches!(has_two(rt.alloc()), Ok(true)));
}

// Whether a program with these parameters and this result fits.
fn fits_with(alloc: Global, params: Box<Bunch>, gives: Box<Ty>) -> Result<bool, Memory> {
    let nil = boxed(alloc, 0, Term::Nil)?;
    let main = body(alloc, params, gives, nil)?;
    let program = program(alloc, Vec::new(alloc), main, Vec::new(alloc))?;
    Ok(fits(&program))
}

// Whether a program with a result of this height fits.
fn result_fits(alloc: Global, height: u32) -> Result<bool, Memory> {
    let params = Box::new(alloc, Bunch::Empty)?;
    fits_with(alloc, params, tall(alloc, height)?)
}

// `0 : t`, where t has this height.
fn parameter(alloc: Global, height: u32) -> Result<Box<Bunch>, Memory> {
    let t = tall(alloc, height)?;
    Ok(Box::new(alloc, Bunch::Leaf(Name(0), Box::into_inner(t)))?)
}

// Whether a program with this parameter fits.
fn parameter_fits(alloc: Global, height: u32) -> Result<bool, Memory> {
    let params = parameter(alloc, height)?;
    fits_with(alloc, params, Box::new(alloc, Ty::Int)?)
}

// `0 : t, 1 : Int`, where t has this height.
fn beside(alloc: Global, height: u32) -> Result<Box<Bunch>, Memory> {
    let tallest = parameter(alloc, height)?;
    let beside = Box::new(alloc, Bunch::Leaf(Name(1), Ty::Int))?;
    Ok(Box::new(alloc, Bunch::Comma(tallest, beside))?)
}

// The same with such parameters.
fn both_fit(alloc: Global, height: u32) -> Result<bool, Memory> {
    let params = beside(alloc, height)?;
    fits_with(alloc, params, Box::new(alloc, Ty::Int)?)
}

// The parameters of a program.
#[derive(Clone, Copy)]
enum Parameters {
    Nothing,
    One,
    Both,
}

// What has a height, which height, and whether such a program fits: the result where there is no parameter, and
// else the first parameter.
const HEIGHTS: &[(Parameters, u32, bool)] = &[
    (Parameters::Nothing, 64, true),
    (Parameters::Nothing, 65, false),
    (Parameters::One, 64, true),
    (Parameters::Both, 63, true),
    (Parameters::Both, 64, false),
];

fn height_fits(alloc: Global, params: Parameters, height: u32) -> Result<bool, Memory> {
    match params {
        Parameters::Nothing => result_fits(alloc, height),
        Parameters::One => parameter_fits(alloc, height),
        Parameters::Both => both_fit(alloc, height),
    }
}

// Whether each row holds.
fn heights_hold(alloc: Global) -> Result<bool, Memory> {
    let mut all = true;
    for (params, height, fits) in HEIGHTS {
        all = all && height_fits(alloc, *params, *height)? == *fits;
    }
    Ok(all)
}

#[test]
fn low_programs_fit(rt: HostRuntime) {
    assert!(rt; matches!(heights_hold(rt.alloc()), Ok(true)));
}
