//! Templates: core terms whose parts may be shared, and the code of a program.

use bunch::{Bunch, Name};
use hist_value::Expr;
use std::rc::Rc;
use stream_type::Ty;

/// A template. Contracts see it as a `CoreTerm` by `op_term` (`specs/Readers.antt`); the forms are those of
/// `core_term::Term`.
#[cycle(op)]
#[derive(Drop)]
pub enum Op {
    /// The stream of a name.
    Var(Name),
    /// The stream of `eps`.
    Eps,
    /// The stream `()`.
    Unit,
    /// The whole stream with the value of a historical expression.
    Past(Expr),
    /// Both at once.
    Par(Rc<Op>, Rc<Op>),
    /// The whole of the first, then the second.
    Cat(Rc<Op>, Rc<Op>),
    /// The left side of a sum.
    Inl(Rc<Op>),
    /// The right side of a sum.
    Inr(Rc<Op>),
    /// The end of a star.
    Nil,
    /// One item, then the rest of a star.
    Cons(Rc<Op>, Rc<Op>),
    /// A let, with the type of its name.
    Let(Name, Ty, Rc<Op>, Rc<Op>),
    /// `let (x, y) = z`.
    LetPar(Name, Name, Name, Rc<Op>),
    /// `let (x; y) = z`.
    LetCat(Name, Name, Name, Rc<Op>),
    /// A case on a sum.
    CaseSum(Name, Ty, Name, Rc<Op>, Name, Rc<Op>),
    /// A case on a star.
    CaseStar(Name, Ty, Rc<Op>, Name, Name, Rc<Op>),
    /// A wait.
    Wait(Name, Ty, Rc<Op>),
    /// A call.
    Call(u32, Vec<Expr>, Box<Operands>),
}

/// The arguments of a call in a template.
#[cycle(op)]
#[derive(Drop)]
pub enum Operands {
    /// No more.
    None,
    /// One before others.
    Before(Rc<Op>, Box<Operands>),
}

/// The template of a function, or of the main program. Contracts see it as a `CoreBody` by `body_in`
/// (`specs/Templates.antt`).
#[derive(Drop)]
pub struct Template {
    /// The historical parameters, with the types of the streams whose values they are.
    pub past: Vec<(Name, Ty)>,
    /// The stream parameters.
    pub params: Bunch,
    /// The result's type.
    pub result: Ty,
    /// What it gives.
    pub body: Rc<Op>,
}

/// The code of a program: the templates of its functions by number, and that of its main program. Contracts
/// see its functions by `bodies_in` (`specs/Templates.antt`).
#[derive(Drop)]
pub struct Code {
    /// The functions.
    pub funs: Vec<Template>,
    /// The main program.
    pub main: Template,
}
