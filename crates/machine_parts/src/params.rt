//! The stream parameters of a body, with what comes on them.

ghost use Rattle.std.specs.Prelude.{◌≡◌, ◌++◌, map, IfOk, OnOk};
ghost use Rattle.stream_prefix.specs.Tree.{prefix_of};
ghost use Rattle.core_term.specs.CoreTerm.{typed_names_of};
ghost use Rattle.machine_parts.specs.Entry.{entry_in};
ghost use Rattle.machine_parts.specs.Parameters.{bound_to};

use crate::entry::Entry;
use bunch::Name;
pub use core_term::params::leaves;
use std::alloc::Global;
use stream_prefix::Prefix;
use stream_type::{Memory, Ty};

/// Parameters with what comes on each: `bound_to` in `specs/Parameters.antt`. Its only error is want of memory.
pub fn bound(alloc: Global, params: &[(Name, Ty)], outputs: &[Prefix]) -> Result<Vec<Entry>, Memory>
    ensures { IfOk result (λ v. map entry_in v.items ≡ bound_to (typed_names_of params.now) (map prefix_of outputs.now)) }
{
    let mut found = Vec::new(alloc);
    add_bound(alloc, params, outputs, &mut found)?;
    Ok(found)
}

// Adds parameters with what comes on each.
fn add_bound(
    alloc: Global,
    params: &[(Name, Ty)],
    outputs: &[Prefix],
    found: &mut Vec<Entry>,
) -> Result<(), Memory>
    ensures { OnOk result (map entry_in found.new.items ≡ map entry_in found.old.items ++ bound_to (typed_names_of params.now) (map prefix_of outputs.now)) }
{
    let Some((param, rest)) = params.split_first() else {
        return Ok(());
    };
    let ty = stream_type::copy(alloc, &param.1)?;
    match outputs.split_first() {
        None => {
            let prefix = Prefix::EpsEmp;
            found.push(Entry {
                name: param.0,
                ty,
                prefix,
            })?;
            add_bound(alloc, rest, outputs, found)
        }
        Some((output, others)) => {
            let prefix = stream_prefix::copy(alloc, output)?;
            found.push(Entry {
                name: param.0,
                ty,
                prefix,
            })?;
            add_bound(alloc, rest, others, found)
        }
    }
}
