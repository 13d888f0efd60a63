//! Tells the bound of a text's program.

ghost use Rattle.std.specs.Prelude.{◌≡◌, List, ℕ, [], string_bytes, IfOk, IfErr};
ghost use Rattle.core_term.specs.declared.program.Core.{Core};
ghost use Rattle.core_term.specs.CoreTerm.{core_of, core_places};
ghost use Rattle.delta_tree.specs.SyntaxTree.{ProgramTree};
ghost use Rattle.delta_meaning.specs.NodePlaces.{program_places};
ghost use Rattle.delta_end.specs.declared.end.End.{End};
ghost use Rattle.delta_end.specs.End.{WriteCause};
ghost use Rattle.checked_program.specs.Acceptance.{IsAcceptedAs};
ghost use Rattle.delta_bound.specs.Refusals.{Refuses};
ghost use Rattle.delta_loop.specs.History.{Writes};
ghost use Rattle.commands.specs.Bounding.{bound_line, Tells, TellsAll};
ghost use Rattle.commands.specs.Running.{IsUnrun};

use checked_program::{accept, dismiss};
use core_term::Checked;
use delta_bound::{BoundRefusal, bound};
use delta_end::{BoundName, End, Objection};
use delta_loop::send;
use port::{IoFault, Link};
use program_text::TextFault;
use std::alloc::Global;

// The line that tells this bound.
fn line(alloc: Global, n: u64) -> Result<String, End>
    ensures told { IfOk result (λ told. string_bytes told ≡ bound_line n) }
    ensures ended { IfErr result (λ end. end ≡ End.Memory) }
{
    match format!(in alloc; "bound {n}\n") {
        Ok(told) => Ok(told),
        Err(_) => Err(End::Memory),
    }
}

// How the command ends where the bound is refused.
fn end_of(refusal: &BoundRefusal) -> End
    ensures ended { (text : List ℕ) (p : ProgramTree) (c : Core) → IsAcceptedAs text p (core_of c) → core_places c ≡ program_places p → Refuses refusal.now c → Tells text [] result }
    ensures written { (count : ℕ) → WriteCause result count count }
{
    match refusal {
        BoundRefusal::Memory => End::Memory,
        BoundRefusal::Unbounded { x: _, at } => {
            End::Objected(Objection::Bound(BoundName::Unbounded, *at))
        }
        BoundRefusal::Cycle { f: _, at } => End::Objected(Objection::Bound(BoundName::Cycle, *at)),
        BoundRefusal::Large => End::Objected(Objection::Bound(BoundName::Large, 0)),
    }
}

// The line that tells the bound of a program, or how the command ends without one.
fn line_of_program(alloc: Global, c: &Checked) -> Result<String, End>
    ensures told { (text : List ℕ) (p : ProgramTree) → IsAcceptedAs text p (core_of c.now) → core_places c.now ≡ program_places p → IfOk result (λ told. TellsAll text (string_bytes told)) }
    ensures ended { (text : List ℕ) (p : ProgramTree) → IsAcceptedAs text p (core_of c.now) → core_places c.now ≡ program_places p → IfErr result (λ end. Tells text [] end) }
    ensures written { IfErr result (λ end. (count : ℕ) → WriteCause end count count) }
{
    match bound(alloc, c) {
        Ok(n) => line(alloc, n),
        Err(refusal) => Err(end_of(&refusal)),
    }
}

// The same for the program that a text is. Nothing was written before.
fn line_of_text(alloc: Global, text: &[u8]) -> Result<String, End>
    ensures told { IfOk result (λ told. TellsAll text.now (string_bytes told)) }
    ensures ended { IfErr result (λ end. Tells text.now [] end) }
    ensures written { IfErr result (λ end. (count : ℕ) → WriteCause end count count) }
{
    match accept(alloc, text) {
        Ok(accepted) => {
            let told = line_of_program(alloc, &accepted.checked);
            dismiss(accepted);
            told
        }
        Err(TextFault::Memory) => Err(End::Memory),
        Err(TextFault::Refused(why)) => Err(End::Refused(Some(why))),
    }
}

/// Writes the bound of the program that a text is to the link, which isn't read: how many events the program
/// can ever hold back. `Tells` of `specs/Bounding.antt` says what was written at each end, and for what a text
/// is refused, or a bound. Where it is refused the link isn't touched.
pub fn bound_source<L: Link>(alloc: Global, text: &[u8], link: &mut L) -> End
    ensures told { (sent : List ℕ) × Writes (L.log link.old) (L.log link.new) sent × Tells text.now sent result }
    ensures unread { L.left link.new ≡ L.left link.old }
    ensures unrun { IsUnrun result → L.log link.new ≡ L.log link.old }
    ensures read { L.read_faults link.new ≡ L.read_faults link.old }
    ensures write { WriteCause result (L.write_faults link.old) (L.write_faults link.new) }
{
    let told = match line_of_text(alloc, text) {
        Ok(told) => told,
        Err(end) => return end,
    };
    send_line(link, told.as_bytes())
}

// Writes the line of a bound. What was told of a text in it is told of what was written.
fn send_line<L: Link>(link: &mut L, line: &[u8]) -> End
    ensures told { (text : List ℕ) → TellsAll text line.now → (sent : List ℕ) × Writes (L.log link.old) (L.log link.new) sent × Tells text sent result }
    ensures unread { L.left link.new ≡ L.left link.old }
    ensures told_of { IsUnrun result → ⊥ }
    ensures read { L.read_faults link.new ≡ L.read_faults link.old }
    ensures write { WriteCause result (L.write_faults link.old) (L.write_faults link.new) }
{
    match send(link, line) {
        Ok(()) => End::Done,
        Err(IoFault::Memory) => End::Memory,
        Err(IoFault::Failed) => End::WriteFailed,
    }
}
