//! The line that tells of a program's output on the load.

ghost use Rattle.std.specs.Prelude.{◌≡◌, ◌≤◌, ℕ, IfOk, string_bytes};
ghost use Rattle.delta_load.specs.Summary.{counts_told, last_told, summary_of};

use crate::totals::Totals;
use std::alloc::{AllocError, Global};

// So many events and so many bytes.
fn counts_text(alloc: Global, events: u64, bytes: u64) -> Result<String, AllocError>
    ensures { IfOk result (λ text. string_bytes text ≡ counts_told events bytes) }
{
    format!(in alloc; "{events} {bytes}")
}

// The last number, or `none`.
fn last_text(alloc: Global, last: Option<i64>) -> Result<String, AllocError>
    ensures { IfOk result (λ text. string_bytes text ≡ last_told last) }
{
    match last {
        Some(number) => format!(in alloc; "{number}"),
        None => String::from_str(alloc, "none"),
    }
}

/// The line of a load of so many items and of what is counted of an output on it: the items, the events and
/// bytes of the load, those of the output, and the last key put out or `none`. Its only error is want of memory.
pub fn summary_line(alloc: Global, items: u64, output: Totals) -> Result<String, AllocError>
    requires { items ≤ 10000000 }
    ensures { IfOk result (λ line. (start : ℕ) → string_bytes line ≡ summary_of start items output) }
{
    let came = counts_text(alloc, 5 * items + 1, 4 + 30 * items + 2)?;
    let said = counts_text(alloc, output.events, output.bytes)?;
    let last = last_text(alloc, output.last)?;
    format!(in alloc; "items {items} in {came} out {said} last {last}\n")
}
