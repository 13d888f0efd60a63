//! The tree of an expression as it is written.

use crate::types::TyExp;
use bunch::Name;
use hist_value::Expr;

/// A historical expression and its place. Contracts see it as a `WrittenHist` by `hist_of`
/// (`specs/Tree.antt`).
#[derive(Drop)]
pub struct Hist {
    /// The byte place of its first token.
    pub at: u32,
    /// The expression, which keeps no places.
    pub expr: Box<Expr>,
}

/// An expression as it is written. Contracts see it as an `Expression` by `expression_of`
/// (`specs/Tree.antt`).
#[cycle(expression)]
#[derive(Drop)]
pub struct Exp {
    /// The byte place of its first token; an opening bracket of its own form counts, a plain bracket
    /// round it does not.
    pub at: u32,
    /// What is written there.
    pub form: Box<Form>,
}

/// What an expression is.
#[cycle(expression)]
#[derive(Drop)]
pub enum Form {
    /// `x`: what comes on a name.
    Var(Name),
    /// `eps`: nothing.
    Eps,
    /// `()`: one mark.
    Unit,
    /// `{m}`: the value of a historical expression.
    Past(Hist),
    /// `(e, f)`: both at once.
    Par(Exp, Exp),
    /// `(e; f)`: the first, then the second.
    Cat(Exp, Exp),
    /// `inl(e)`: the first of two types.
    Inl(Exp),
    /// `inr(e)`: the second of two types.
    Inr(Exp),
    /// `nil`: the star that is over.
    Nil,
    /// `e :: f`: one item, then the rest of a star.
    Cons(Exp, Exp),
    /// `(e : s)`: an expression and its type.
    Asc(Exp, TyExp),
    /// `let x = h in e`.
    Let(Name, Head, Exp),
    /// `let (x, y) = h in e`: the two that come at once.
    LetPar(Name, Name, Head, Exp),
    /// `let (x; y) = h in e`: the two that come one after the other.
    LetCat(Name, Name, Head, Exp),
    /// `case h of { inl x => e | inr y => f }`: by the side of a sum, the first side's name and
    /// expression, then the second's.
    CaseSum(Head, Name, Exp, Name, Exp),
    /// `case h of { nil => e | y :: ys => f }`: the expression where a star is over, then the names of
    /// the item and of the rest, and the expression where it is not.
    CaseStar(Head, Exp, Name, Name, Exp),
    /// `wait x in e`: the name is historical in the expression.
    Wait(Name, Exp),
    /// `if m then e else f`: the first where the value of the historical expression is of the first
    /// type of a sum, and else the second.
    If(Hist, Exp, Exp),
    /// `f{m, n}(e, g)`: a call of a function, its name, its historical arguments and its stream
    /// arguments.
    Call(Name, Vec<Hist>, Vec<Exp>),
}

/// What a `let` or a case looks at. Contracts see it as a `Head` by `head_of` (`specs/Tree.antt`).
#[cycle(expression)]
#[derive(Drop)]
pub struct Head {
    /// The byte place of its first token.
    pub at: u32,
    /// What is written there.
    pub form: Box<HeadForm>,
}

/// What a head is.
#[cycle(expression)]
#[derive(Drop)]
pub enum HeadForm {
    /// `x`: what comes on a name.
    Var(Name),
    /// `f{m, n}(e, g)`: a call of a function, its name, its historical arguments and its stream
    /// arguments.
    Call(Name, Vec<Hist>, Vec<Exp>),
    /// `(e : s)`: an expression and its type.
    Asc(Exp, TyExp),
}
