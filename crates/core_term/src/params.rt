//! The stream parameters of a body: in turn, and by name.

ghost use Rattle.std.specs.Prelude.{◌≡◌, ◌++◌, option_map, IfOk, OnOk};
ghost use Rattle.stream_type.specs.StreamType.{type_of};
ghost use Rattle.bunch.specs.BunchTree.{tree_of, leaf_names};
ghost use Rattle.core_term.specs.CoreTerm.{leaf_types};
ghost use Rattle.core_term.specs.Params.{names_in, types_listed, param_type};

use bunch::{Bunch, Name};
use std::alloc::Global;
use stream_type::{Memory, Ty};

/// The stream parameters with their types, from left to right. Its only error is want of memory.
pub fn leaves(alloc: Global, b: &Bunch) -> Result<Vec<(Name, Ty)>, Memory>
    ensures names { IfOk result (λ v. names_in v.items ≡ leaf_names (tree_of b.now)) }
    ensures types { IfOk result (λ v. types_listed v.items ≡ leaf_types (tree_of b.now)) }
{
    let mut found = Vec::new(alloc);
    add_leaves(alloc, b, &mut found)?;
    Ok(found)
}

// Adds the parameters of a bunch.
fn add_leaves(alloc: Global, b: &Bunch, found: &mut Vec<(Name, Ty)>) -> Result<(), Memory>
    ensures names { OnOk result (names_in found.new.items ≡ names_in found.old.items ++ leaf_names (tree_of b.now)) }
    ensures types { OnOk result (types_listed found.new.items ≡ types_listed found.old.items ++ leaf_types (tree_of b.now)) }
{
    match b {
        Bunch::Empty => Ok(()),
        Bunch::Leaf(x, t) => {
            let t = stream_type::copy(alloc, t)?;
            found.push((*x, t))?;
            Ok(())
        }
        Bunch::Comma(a, b) | Bunch::Semi(a, b) => {
            add_leaves(alloc, a, found)?;
            add_leaves(alloc, b, found)
        }
    }
}

/// The type of the parameter with the name `x`, or None where there is none: `param_type` in
/// `specs/Params.antt`.
#[tactic(auto, using(crate::proofs::ParamTypes::param_types))]
pub fn type_of_name(params: &Bunch, x: Name) -> Option<&Ty>
    ensures { option_map (λ t. type_of t.now) result ≡ param_type (tree_of params.now) x.0 }
{
    match params {
        Bunch::Empty => None,
        Bunch::Leaf(y, t) => { if x.0 == y.0 { Some(t) } else { None } }
        Bunch::Comma(a, b) | Bunch::Semi(a, b) => match type_of_name(a, x) {
            Some(t) => Some(t),
            None => type_of_name(b, x),
        },
    }
}
