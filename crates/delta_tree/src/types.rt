//! The tree of a type as it is written.

use bunch::Name;

/// A type as it is written. Contracts see it as a `WrittenType` by `type_tree_of` (`specs/Tree.antt`).
#[cycle(written_type)]
#[derive(Drop)]
pub struct TyExp {
    /// The byte place of its first token.
    pub at: u32,
    /// What is written there.
    pub form: Box<TyForm>,
}

/// What a written type is.
#[cycle(written_type)]
#[derive(Drop)]
pub enum TyForm {
    /// `eps`: nothing comes.
    Eps,
    /// `1`: one mark that carries nothing.
    One,
    /// `Int`: one number.
    Int,
    /// The type that was declared with this name.
    Named(Name),
    /// `s . t`: the whole of the first, then the second.
    Cat(TyExp, TyExp),
    /// `s || t`: both at once.
    Par(TyExp, TyExp),
    /// `s + t`: one of the two.
    Sum(TyExp, TyExp),
    /// `s*`: any number of them.
    Star(TyExp),
}
