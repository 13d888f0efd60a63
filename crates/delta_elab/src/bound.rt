//! Which names are bound around an expression, and which functions are declared.

ghost use Rattle.std.specs.Prelude.{◌≡◌, map};
ghost use Rattle.bunch.specs.Names.{holds};
ghost use Rattle.delta_tree.specs.Tree.{context_of, past_of, declaration_of};
ghost use Rattle.delta_elab.specs.Bounds.{bound_in, is_declared, written_names, written_past_names};

use bunch::Name;
use delta_tree::{Ctx, Decl, TyExp};

/// The names that are bound around an expression. Contracts see them as a test of names by `bound_in`
/// (`specs/Bounds.antt`).
#[derive(Clone, Copy)]
pub enum Bound<'a> {
    /// The parameters of a function, the historical ones first.
    Params(&'a [(Name, TyExp)], &'a Ctx),
    /// One more name.
    Name(Name, &'a Bound<'a>),
}

/// Whether the name is bound.
pub fn is_bound(bound: &Bound<'_>, x: Name) -> bool
    ensures { result ≡ bound_in bound.now x.0 }
{
    match bound {
        Bound::Params(past, params) => is_param(params, x) || is_past_param(past, x),
        Bound::Name(y, outer) => x.0 == y.0 || is_bound(outer, x),
    }
}

// Whether a stream parameter has the name.
#[tactic(auto, using(bunch::proofs::NameLists::name_lists))]
fn is_param(params: &Ctx, x: Name) -> bool
    ensures { result ≡ holds x.0 (written_names (context_of params.now)) }
{
    match params {
        Ctx::Empty => false,
        Ctx::Leaf(y, _) => x.0 == y.0,
        Ctx::Comma(a, b) | Ctx::Semi(a, b) => is_param(a, x) || is_param(b, x),
    }
}

// Whether a historical parameter has the name.
fn is_past_param(past: &[(Name, TyExp)], x: Name) -> bool
    ensures { result ≡ holds x.0 (written_past_names (map past_of past.now)) }
{
    for param in past {
        if x.0 == param.0.0 {
            return true;
        }
    }
    false
}

/// Whether a function is declared with the name, anywhere in the program.
pub fn is_function(decls: &[Decl], f: Name) -> bool
    ensures { result ≡ is_declared (map declaration_of decls.now) f.0 }
{
    for decl in decls {
        if let Decl::Fun(declared) = decl {
            if f.0 == declared.name.0 {
                return true;
            }
        }
    }
    false
}
