//! From a program's syntax tree to its core, checked.

ghost use Rattle.std.specs.Prelude.{◌≡◌, true, IfOk, IfErr};
ghost use Rattle.delta_tree.specs.Tree.{program_of};
ghost use Rattle.core_term.specs.CoreTerm.{core_of, core_places, fits_of};
ghost use Rattle.delta_meaning.specs.NodePlaces.{program_places};
ghost use Rattle.delta_elab.specs.Accepted.{IsAccepted, SaysWhy};

use crate::elaborating::elaborate;
use crate::fault::ProgramFault;
use core_term::Checked;
use delta_check::check;
use delta_tree::Program;
use std::alloc::Global;

/// A program's core, checked: that to which it elaborates, where it does and the core is typed
/// (`IsAccepted` in `specs/Accepted.antt`). Else it answers the first thing that is wrong with names and
/// types, or where nothing is, the first node of the core that breaks a rule, with its place in the
/// text (`SaysWhy` there). Its other error is want of memory.
pub fn typed(alloc: Global, p: &Program) -> Result<Checked, ProgramFault>
    ensures accepted { IfOk result (λ k. IsAccepted (program_of p.now) (core_of k)) }
    ensures places { IfOk result (λ k. core_places k ≡ program_places (program_of p.now)) }
    ensures fits { IfOk result (λ k. fits_of (core_of k) ≡ true) }
    ensures refused { IfErr result (λ f. SaysWhy (program_of p.now) f) }
{
    let core = elaborate(alloc, p)?;
    Ok(check(alloc, core)?)
}
