//! Scopes: an environment of values, and the names that are bound inside.

ghost use Rattle.std.specs.Prelude.{◌≡◌, IfOk};
ghost use Rattle.hist_value.specs.Environment.{entry_at, entries_of};
ghost use Rattle.hist_value.specs.HistValue.{hist_value_of};
ghost use Rattle.hist_value.specs.Scope.{past_of};

use crate::copying::copy_value;
use crate::history::Value;
use bunch::Name;
use std::alloc::Global;
use stream_type::Memory;

/// Which value stands at each name. Contracts see it as an environment by `past_of`
/// (`specs/Scope.antt`).
#[derive(Clone, Copy)]
pub enum Scope<'a> {
    /// The entries of an environment.
    Entries(&'a [(Name, Value)]),
    /// A name and its value, before a scope that it hides the name of.
    Bound(Name, &'a Value, &'a Scope<'a>),
}

/// One more of the value at the name `x`. Its only error is want of memory.
pub fn value_at(alloc: Global, scope: &Scope<'_>, x: Name) -> Result<Value, Memory>
    ensures { IfOk result (λ v. hist_value_of v ≡ past_of scope.now x.0) }
{
    match scope {
        Scope::Entries(entries) => {
            let nothing = Value::Unit;
            copy_value(alloc, last_at(entries, x, &nothing))
        }
        Scope::Bound(y, v, outer) => {
            if x.0 == y.0 {
                copy_value(alloc, v)
            } else {
                value_at(alloc, outer, x)
            }
        }
    }
}

// The value of the last entry at the name, or else the other one.
fn last_at<'a>(entries: &'a [(Name, Value)], x: Name, otherwise: &'a Value) -> &'a Value
    ensures { hist_value_of result.now ≡ entry_at (hist_value_of otherwise.now) (entries_of entries.now) x.0 }
{
    let mut found = otherwise;
    for entry in entries {
        if x.0 == entry.0.0 {
            found = &entry.1;
        }
    }
    found
}
