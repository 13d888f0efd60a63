//! The load's program run on the load.

ghost use Rattle.std.specs.Prelude.{◌≡◌, ◌≤◌, IfOk, string_bytes};
ghost use Rattle.core_term.specs.CoreTerm.{core_of};
ghost use Rattle.delta_output.specs.Spoken.{spoken};
ghost use Rattle.delta_session.specs.Programs.{one_shot};
ghost use Rattle.delta_load.specs.Load.{load};
ghost use Rattle.delta_load.specs.Counting.{totals_of};
ghost use Rattle.delta_load.specs.Summary.{summary_of};
ghost use Rattle.delta_load.specs.LoadCore.{load_core};

use crate::running::{LoadFault, run_load};
use crate::summary::summary_line;
use crate::totals::Totals;
use checked_program::{accept, dismiss};
use core_term::Checked;
use delta_state::Machine;
use program_text::TextFault;
use std::alloc::Global;
use stream_type::Memory;

/// The text of the load's program, which is its canonical one.
pub const LOAD_TEXT: &[u8] =
    b"fun over (xs : (Int . Int)*) : Int* = case xs of { nil => nil | y :: ys => let (k; v) = y in wait k in wait v in if 500 < v then { k } :: over (ys) else over (ys) }\nmain (xs : (Int . Int)*) : Int* = over (xs)\n";

// What the program, of which this is the checked core, puts out on the load, counted.
fn count_checked<M: Machine>(
    alloc: Global,
    checked: &Checked,
    start: u64,
    items: u64,
) -> Result<Totals, Memory>
    requires start { start ≤ 999999 }
    requires items { items ≤ 10000000 }
    requires core { core_of checked.now ≡ load_core }
    ensures { IfOk result (λ t. t ≡ totals_of (spoken (one_shot load_core) (load start items))) }
{
    match run_load::<M>(alloc, checked, start, items) {
        Ok(totals) => Ok(totals),
        Err(LoadFault::Memory) => Err(Memory),
        Err(LoadFault::Budget) => unreachable!(),
        Err(LoadFault::Deep) => unreachable!(),
        Err(LoadFault::Long) => unreachable!(),
    }
}

/// Runs the load's program on the load of so many items, with a million calls before any event and again at
/// each event, and counts what it puts out. Its only error is want of memory.
pub fn count_output<M: Machine>(alloc: Global, start: u64, items: u64) -> Result<Totals, Memory>
    requires start { start ≤ 999999 }
    requires items { items ≤ 10000000 }
    ensures { IfOk result (λ t. t ≡ totals_of (spoken (one_shot load_core) (load start items))) }
{
    match accept(alloc, LOAD_TEXT) {
        Ok(accepted) => {
            let counted = count_checked::<M>(alloc, &accepted.checked, start, items);
            dismiss(accepted);
            counted
        }
        Err(TextFault::Memory) => Err(Memory),
        Err(TextFault::Refused(_)) => unreachable!(),
    }
}

/// Runs the load's program on the load of so many items, and answers the line that tells of it. Its only error
/// is want of memory.
pub fn generate<M: Machine>(alloc: Global, start: u64, items: u64) -> Result<String, Memory>
    requires start { start ≤ 999999 }
    requires items { items ≤ 10000000 }
    ensures { IfOk result (λ line. string_bytes line ≡ summary_of start items (totals_of (spoken (one_shot load_core) (load start items)))) }
{
    let totals = count_output::<M>(alloc, start, items)?;
    Ok(summary_line(alloc, items, totals)?)
}
