//! Expressions of texts in which each sign stands behind its parts.

use bunch::Name;
use hist_value::{Expr, Op};
use std::alloc::Global;
use stream_type::Memory;

/// The expression of a text, a byte a sign. A digit is a number, `u` is the unit, `n` the empty list;
/// `x` and `y` are the names 4 and 5, which a choice `c` and a fold `g` bind in this order. `f` and `s`
/// are the parts of a pair, `l` and `r` the sides of a sum; `,` makes a pair, `:` puts an item before a
/// list, and `+`, `-` and `<` reckon. A part that is missing is the unit.
pub fn expression(alloc: Global, text: &str) -> Result<Box<Expr>, Memory> {
    let mut parts = Vec::new(alloc);
    for sign in text.bytes() {
        let made = made(alloc, sign, &mut parts)?;
        parts.push(made)?;
    }
    part(alloc, &mut parts)
}

// The last part.
fn part(alloc: Global, parts: &mut Vec<Box<Expr>>) -> Result<Box<Expr>, Memory> {
    match parts.pop() {
        Some(part) => Ok(part),
        None => Ok(Box::new(alloc, Expr::Unit)?),
    }
}

// What a sign makes of the parts before it.
fn made(alloc: Global, sign: u8, parts: &mut Vec<Box<Expr>>) -> Result<Box<Expr>, Memory> {
    match sign {
        b'c' | b'g' => binding(alloc, sign, parts),
        b'f' | b's' | b'l' | b'r' => sided(alloc, sign, parts),
        b',' | b':' | b'+' | b'-' | b'<' => both(alloc, sign, parts),
        _ => Ok(Box::new(alloc, alone(sign))?),
    }
}

// What a sign alone is.
fn alone(sign: u8) -> Expr {
    match sign {
        b'x' => Expr::Var(Name(4)),
        b'y' => Expr::Var(Name(5)),
        b'n' => Expr::Nil,
        b'0'..=b'9' => Expr::Lit((sign - b'0') as i64),
        _ => Expr::Unit,
    }
}

// Of one part.
fn sided(alloc: Global, sign: u8, parts: &mut Vec<Box<Expr>>) -> Result<Box<Expr>, Memory> {
    let e = part(alloc, parts)?;
    let made = match sign {
        b'f' => Expr::Fst(e),
        b's' => Expr::Snd(e),
        b'l' => Expr::Inl(e),
        _ => Expr::Inr(e),
    };
    Ok(Box::new(alloc, made)?)
}

// Of two parts.
fn both(alloc: Global, sign: u8, parts: &mut Vec<Box<Expr>>) -> Result<Box<Expr>, Memory> {
    let second = part(alloc, parts)?;
    let first = part(alloc, parts)?;
    let made = match sign {
        b',' => Expr::Pair(first, second),
        b':' => Expr::Cons(first, second),
        b'+' => Expr::Bin(Op::Add, first, second),
        b'-' => Expr::Bin(Op::Sub, first, second),
        _ => Expr::Bin(Op::Less, first, second),
    };
    Ok(Box::new(alloc, made)?)
}

// A choice or a fold.
fn binding(alloc: Global, sign: u8, parts: &mut Vec<Box<Expr>>) -> Result<Box<Expr>, Memory> {
    let third = part(alloc, parts)?;
    let second = part(alloc, parts)?;
    let first = part(alloc, parts)?;
    let made = match sign {
        b'c' => Expr::Choose(first, Name(4), second, Name(5), third),
        _ => Expr::Fold(first, second, Name(4), Name(5), third),
    };
    Ok(Box::new(alloc, made)?)
}
