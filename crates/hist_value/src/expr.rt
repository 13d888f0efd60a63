//! The tree of a historical expression.

use bunch::Name;

/// What is reckoned with two numbers.
#[derive(Clone, Copy, PartialEq, Eq, Debug)]
pub enum Op {
    /// Their sum.
    Add,
    /// Their difference.
    Sub,
    /// Their product.
    Mul,
    /// Their quotient.
    Div,
    /// Whether the first is less.
    Less,
    /// Whether they are equal.
    Same,
}

/// A historical expression. Contracts see it as a `HistExpr` by `expr_of` (`specs/HistExpr.antt`).
#[derive(Drop)]
pub enum Expr {
    /// What stands at a name.
    Var(Name),
    /// A number.
    Lit(i64),
    /// The value that carries nothing.
    Unit,
    /// What is reckoned with two numbers.
    Bin(Op, Box<Expr>, Box<Expr>),
    /// Two values as one.
    Pair(Box<Expr>, Box<Expr>),
    /// The first value of a pair.
    Fst(Box<Expr>),
    /// The second value of a pair.
    Snd(Box<Expr>),
    /// A value of the first type of a sum.
    Inl(Box<Expr>),
    /// A value of the second type of a sum.
    Inr(Box<Expr>),
    /// By the side of a sum's value, what stands on it at the name: the left side's name and
    /// expression, then the right side's.
    Choose(Box<Expr>, Name, Box<Expr>, Name, Box<Expr>),
    /// The list with no item.
    Nil,
    /// An item in front of a list.
    Cons(Box<Expr>, Box<Expr>),
    /// A list, a start, and what is gathered from each item in turn: the name of what was gathered
    /// before, the name of the item, and the expression.
    Fold(Box<Expr>, Box<Expr>, Name, Name, Box<Expr>),
}
