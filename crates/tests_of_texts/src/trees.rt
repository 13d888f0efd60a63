//! A small program as a tree, and each call once.
//!
//! The program is `type nums = Int* fun add{n : Int}(x : Int, y : nums) : Int = {n + 1} main(z : Int)
//! : Int = add{2}(z, nil)`, in one line. Its names are `nums`, `add`, `n`, `x`, `y` and `z`.

use bunch::Name;
use delta_tree::{
    Alias, Ctx, Decl, Exp, Form, Fun, Hist, Program, TyExp, TyForm, copy_hist, copy_type_exp,
    expression, historical, written_type,
};
use hist_value::{Expr, Op};
use std::alloc::{AllocError, Global};
use std::test::Fail;
use stream_type::Memory;

fn int(alloc: Global, at: u32) -> Result<TyExp, AllocError> {
    written_type(alloc, at, TyForm::Int)
}

fn one_more(alloc: Global) -> Result<Hist, Memory> {
    let n = Box::new(alloc, Expr::Var(Name(2)))?;
    let one = Box::new(alloc, Expr::Lit(1))?;
    Ok(historical(alloc, 62, Expr::Bin(Op::Add, n, one))?)
}

fn alias(alloc: Global) -> Result<Alias, Memory> {
    let ty = written_type(alloc, 12, TyForm::Star(int(alloc, 12)?))?;
    Ok(Alias {
        name: Name(0),
        ty,
        at: 0,
    })
}

fn add(alloc: Global) -> Result<Fun, Memory> {
    let mut past = Vec::new(alloc);
    past.push((Name(2), int(alloc, 29)?))?;
    let x = Box::new(alloc, Ctx::Leaf(Name(3), int(alloc, 38)?))?;
    let nums = written_type(alloc, 47, TyForm::Named(Name(0)))?;
    let y = Box::new(alloc, Ctx::Leaf(Name(4), nums))?;
    let body = expression(alloc, 61, Form::Past(one_more(alloc)?))?;
    Ok(Fun {
        name: Name(1),
        past,
        ctx: Ctx::Comma(x, y),
        result: int(alloc, 55)?,
        body,
        at: 17,
    })
}

fn call(alloc: Global) -> Result<Exp, Memory> {
    let mut numbers = Vec::new(alloc);
    numbers.push(historical(alloc, 95, Expr::Lit(2))?)?;
    let mut streams = Vec::new(alloc);
    streams.push(expression(alloc, 98, Form::Var(Name(5)))?)?;
    streams.push(expression(alloc, 101, Form::Nil)?)?;
    Ok(expression(alloc, 91, Form::Call(Name(1), numbers, streams))?)
}

fn main(alloc: Global) -> Result<Fun, Memory> {
    let ctx = Ctx::Leaf(Name(5), int(alloc, 78)?);
    let result = int(alloc, 85)?;
    Ok(Fun {
        name: Name(6),
        past: Vec::new(alloc),
        ctx,
        result,
        body: call(alloc)?,
        at: 69,
    })
}

fn names(alloc: Global) -> Result<Vec<String>, Memory> {
    let mut names = Vec::new(alloc);
    for name in ["nums", "add", "n", "x", "y", "z"] {
        names.push(String::from_str(alloc, name)?)?;
    }
    Ok(names)
}

fn decls(alloc: Global) -> Result<Vec<Decl>, Memory> {
    let mut decls = Vec::new(alloc);
    decls.push(Decl::Alias(alias(alloc)?))?;
    decls.push(Decl::Fun(add(alloc)?))?;
    Ok(decls)
}

fn program(alloc: Global) -> Result<Program, Memory> {
    let names = names(alloc)?;
    let decls = decls(alloc)?;
    let main = main(alloc)?;
    Ok(Program { names, decls, main })
}

// Whether a declaration is that of `nums`.
fn is_alias(decl: Option<&Decl>) -> bool {
    match decl {
        Some(Decl::Alias(a)) => a.name.0 == 0 && matches!(&*a.ty.form, TyForm::Star(_)),
        _ => false,
    }
}

// Whether a declaration is that of `add`.
fn is_add(decl: Option<&Decl>) -> bool {
    match decl {
        Some(Decl::Fun(f)) => f.past.len() == 1 && matches!(&f.ctx, Ctx::Comma(_, _)),
        _ => false,
    }
}

fn is_nil(e: Option<&Exp>) -> bool {
    match e {
        Some(e) => e.at == 101 && matches!(&*e.form, Form::Nil),
        None => false,
    }
}

// Whether an expression is the call.
fn is_call(e: &Exp) -> bool {
    match &*e.form {
        Form::Call(f, numbers, streams) => {
            f.0 == 1 && numbers.len() == 1 && streams.len() == 2 && is_nil(streams.last())
        }
        _ => false,
    }
}

// Whether the program has its names, its declarations and its call.
fn has_parts(alloc: Global) -> Result<bool, Memory> {
    let program = program(alloc)?;
    let named = program.names.len() == 6 && program.main.name.0 == 6;
    let declared = is_alias(program.decls.first()) && is_add(program.decls.last());
    Ok(named && declared && is_call(&program.main.body))
}

#[test]
fn a_program_has_its_parts(rt: HostRuntime) -> Result<(), Fail> {
    assert!(rt; has_parts(rt.alloc())?);
    Ok(())
}

// `t . Int`, where t is the name 7.
fn both(alloc: Global) -> Result<TyExp, Memory> {
    let a = written_type(alloc, 6, TyForm::Named(Name(7)))?;
    let b = int(alloc, 10)?;
    Ok(written_type(alloc, 6, TyForm::Cat(a, b))?)
}

// Whether a type is that one, with its places.
fn is_both(t: &TyExp) -> bool {
    match &*t.form {
        TyForm::Cat(a, b) => {
            let first = a.at == 6 && matches!(&*a.form, TyForm::Named(x) if x.0 == 7);
            t.at == 6 && first && b.at == 10 && matches!(&*b.form, TyForm::Int)
        }
        _ => false,
    }
}

// Whether its copy is.
fn is_type_copied(alloc: Global) -> Result<bool, Memory> {
    let both = both(alloc)?;
    let copied = copy_type_exp(alloc, &both)?;
    Ok(is_both(&copied))
}

#[test]
fn a_copy_of_a_type_is_equal(rt: HostRuntime) -> Result<(), Fail> {
    assert!(rt; is_type_copied(rt.alloc())?, "one after the other");
    Ok(())
}

// Whether a historical expression is `n + 1`, at its place.
fn is_one_more(m: &Hist) -> bool {
    match &*m.expr {
        Expr::Bin(Op::Add, n, one) => {
            let parts = matches!(&**n, Expr::Var(x) if x.0 == 2) && matches!(&**one, Expr::Lit(1));
            m.at == 62 && parts
        }
        _ => false,
    }
}

// Whether its copy is.
fn is_history_copied(alloc: Global) -> Result<bool, Memory> {
    let m = one_more(alloc)?;
    let copied = copy_hist(alloc, &m)?;
    Ok(is_one_more(&copied))
}

#[test]
fn a_copy_of_a_historical_expression_is_equal(rt: HostRuntime) -> Result<(), Fail> {
    assert!(rt; is_history_copied(rt.alloc())?, "a sum");
    Ok(())
}
