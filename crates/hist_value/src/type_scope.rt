//! Scopes of types: an environment of types, and the names that are bound inside.

ghost use Rattle.std.specs.Prelude.{◌≡◌, IfOk, IfErr, IfSome, option_map};
ghost use Rattle.hist_value.specs.Environment.{types_of};
ghost use Rattle.hist_value.specs.HistType.{hist_type_of};
ghost use Rattle.hist_value.specs.Judge.{at_name, good, bad};
ghost use Rattle.hist_value.specs.Refusal.{refusal_of};
ghost use Rattle.hist_value.specs.Scope.{types_in};

use crate::copying::copy_type;
use crate::fault::HistFault;
use crate::hist_type::HTy;
use bunch::Name;
use std::alloc::Global;

/// Which type each name has. Contracts see it by `types_in` (`specs/Scope.antt`).
#[derive(Clone, Copy)]
pub enum TypeScope<'a> {
    /// The entries of an environment.
    Entries(&'a [(Name, HTy)]),
    /// A name and its type, before a scope that it hides the name of.
    Bound(Name, &'a HTy, &'a TypeScope<'a>),
}

/// One more of the type of the name `x`. Its only errors are want of memory and a name without a
/// type.
pub fn type_at(alloc: Global, scope: &TypeScope<'_>, x: Name) -> Result<HTy, HistFault>
    ensures ok { IfOk result (λ t. at_name x.0 (types_in scope.now x.0) ≡ good (hist_type_of t)) }
    ensures refused { IfErr result (λ f. IfSome (refusal_of f) (λ r. at_name x.0 (types_in scope.now x.0) ≡ bad r)) }
{
    match scope {
        TypeScope::Entries(entries) => match last_type(entries, x) {
            None => Err(HistFault::Unbound(x)),
            Some(t) => Ok(copy_type(alloc, t)?),
        },
        TypeScope::Bound(y, t, outer) => {
            if x.0 == y.0 {
                Ok(copy_type(alloc, t)?)
            } else {
                type_at(alloc, outer, x)
            }
        }
    }
}

// The type in the last entry at the name.
fn last_type<'a>(entries: &'a [(Name, HTy)], x: Name) -> Option<&'a HTy>
    ensures { option_map (λ t. hist_type_of t.now) result ≡ types_of entries.now x.0 }
{
    let mut found = None;
    for entry in entries {
        if x.0 == entry.0.0 {
            found = Some(&entry.1);
        }
    }
    found
}
