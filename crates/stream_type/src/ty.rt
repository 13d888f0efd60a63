//! The tree of a type.

/// The type of a stream: which things come on it, and in which order. Contracts see it as a
/// `StreamType` by `type_of` (`specs/StreamType.antt`).
#[derive(Drop)]
pub enum Ty {
    /// `eps`: nothing comes.
    Eps,
    /// `1`: one mark that carries nothing.
    One,
    /// `Int`: one number of 64 bits with its sign.
    Int,
    /// `s . t`: the whole of the first, then the second.
    Cat(Box<Ty>, Box<Ty>),
    /// `s || t`: both at once, in any order between the two.
    Par(Box<Ty>, Box<Ty>),
    /// `s + t`: first a mark that says which of the two comes, then that one.
    Sum(Box<Ty>, Box<Ty>),
    /// `s*`: any number of them, one whole after another, then a mark that it ends.
    Star(Box<Ty>),
}
