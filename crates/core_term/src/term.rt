//! The trees of core terms.

use bunch::Name;
use hist_value::Expr;
use stream_type::Ty;

/// A core term with its place: the number of bytes of the program's text that stand before it.
/// Contracts see the term as a `CoreTerm` by `term_of` (`specs/CoreTerm.antt`), and the places of
/// all its nodes as a list by `places_of`.
#[cycle(node)]
#[derive(Drop)]
pub struct Node {
    /// The number of bytes of the program's text before the term.
    pub at: u32,
    /// The form of the term, with its parts.
    pub term: Term,
}

/// The form of a core term. A name that a form binds stands before the part in which it is bound.
#[cycle(node)]
#[derive(Drop)]
pub enum Term {
    /// The stream of a name.
    Var(Name),
    /// The stream of `eps`, on which nothing comes.
    Eps,
    /// The stream `()`: the mark of `1`.
    Unit,
    /// The whole stream with the value of a historical expression.
    Past(Expr),
    /// `(e, f)`: both at once.
    Par(Box<Node>, Box<Node>),
    /// `(e; f)`: the whole of the first, then the second.
    Cat(Box<Node>, Box<Node>),
    /// The left side of a sum.
    Inl(Box<Node>),
    /// The right side of a sum.
    Inr(Box<Node>),
    /// The end of a star.
    Nil,
    /// `e :: f`: one item, then the rest of a star.
    Cons(Box<Node>, Box<Node>),
    /// `let x = e in f`, with the type of `x`.
    Let(Name, Ty, Box<Node>, Box<Node>),
    /// `let (x, y) = z in e`: the names of both sides, then the subject.
    LetPar(Name, Name, Name, Box<Node>),
    /// `let (x; y) = z in e`: the names of both parts, then the subject.
    LetCat(Name, Name, Name, Box<Node>),
    /// A case on a sum: the subject, the result's type, and each branch after its name.
    CaseSum(Name, Ty, Name, Box<Node>, Name, Box<Node>),
    /// A case on a star: the subject, the result's type, the branch at the end, and the branch of an
    /// item after the names of the item and of the rest.
    CaseStar(Name, Ty, Box<Node>, Name, Name, Box<Node>),
    /// `wait x in e`: the subject, the result's type, and what follows once the subject is whole.
    Wait(Name, Ty, Box<Node>),
    /// A call of the function with this number, its historical arguments and its arguments.
    Call(u32, Vec<Expr>, Vec<Node>),
}
