//! The trees of declarations and of a whole program.

use crate::contexts::Ctx;
use crate::expressions::Exp;
use crate::types::TyExp;
use bunch::Name;

/// A whole program. Contracts see it as a `ProgramTree` by `program_of` (`specs/Tree.antt`).
#[derive(Drop)]
pub struct Program {
    /// The texts of the names, each once: a name's number is its place here. Names are numbered in
    /// the order in which they first stand in the text.
    pub names: Vec<String>,
    /// The declarations before `main`, in the order of the text.
    pub decls: Vec<Decl>,
    /// The function `main`, whose name is the number after the last of `names`.
    pub main: Fun,
}

/// A declaration. Contracts see it as a `Declaration` by `declaration_of` (`specs/Tree.antt`).
#[derive(Drop)]
pub enum Decl {
    /// A name for a type.
    Alias(Alias),
    /// A function.
    Fun(Fun),
}

/// A name for a type. Contracts see it as a `WrittenAlias` by `alias_of` (`specs/Tree.antt`).
#[derive(Drop)]
pub struct Alias {
    /// The name.
    pub name: Name,
    /// The type that it stands for.
    pub ty: TyExp,
    /// The byte place of its first token.
    pub at: u32,
}

/// A function. Contracts see it as a `WrittenFunction` by `function_of` (`specs/Tree.antt`).
#[derive(Drop)]
pub struct Fun {
    /// Its name.
    pub name: Name,
    /// Its historical parameters and their types, in the order of the text.
    pub past: Vec<(Name, TyExp)>,
    /// Its stream parameters.
    pub ctx: Ctx,
    /// The type of what it gives.
    pub result: TyExp,
    /// What it gives.
    pub body: Exp,
    /// The byte place of its first token.
    pub at: u32,
}
