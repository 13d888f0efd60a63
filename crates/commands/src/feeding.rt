//! Tables fed to the program of a text.

ghost use Rattle.std.specs.Prelude.{◌≡◌, ◌≤◌, List, ℕ, [], IfOk, IfErr, MatchResult, map, string_bytes};
ghost use Rattle.delta_end.specs.End.{FileCause, WriteCause};
ghost use Rattle.delta_loop.specs.History.{Writes};
ghost use Rattle.commands.specs.Tables.{OfTables};
ghost use Rattle.commands.specs.Feeding.{Tells, IsFed, IsOfFeed};
ghost use Rattle.commands.specs.Given.{AreHeld, IsUnwritten};
ghost use Rattle.commands.specs.Running.{IsUnrun};

use crate::tables_run::text_given;
use checked_program::{accept, dismiss};
use delta_end::End;
use delta_loop::send;
use delta_state::Machine;
use port::{IoFault, Link, Shelf};
use program_text::TextFault;
use std::alloc::Global;

// What is to be written for a text and for the tables in files, or how the command ends without it.
fn text_fed<M: Machine, S: Shelf>(
    alloc: Global,
    text: &[u8],
    schedule: &[u32],
    names: &[String],
    budget: u64,
    shelf: &mut S,
) -> Result<String, End>
    requires { budget ≤ 1000000 }
    ensures fed { IfOk result (λ out. (tables : List (List ℕ)) × AreHeld (S.holds shelf.old) (map string_bytes names.now) tables × IsFed text.now tables (string_bytes out)) }
    ensures ended { IfErr result (λ end. OfTables (S.holds shelf.old) (map string_bytes names.now) (λ tables. Tells text.now schedule.now tables budget [] end)) }
    ensures unwritten { IfErr result IsUnwritten }
    ensures held { S.holds shelf.new ≡ S.holds shelf.old }
    ensures file { MatchResult result (λ _. S.faults shelf.new ≡ S.faults shelf.old) (λ end. FileCause end (S.faults shelf.old) (S.faults shelf.new)) }
{
    match accept(alloc, text) {
        Ok(accepted) => {
            let given = text_given::<M, S>(
                alloc,
                &accepted.checked,
                schedule,
                names,
                budget,
                shelf,
            );
            dismiss(accepted);
            given
        }
        Err(TextFault::Memory) => Err(End::Memory),
        Err(TextFault::Refused(why)) => Err(End::Refused(Some(why))),
    }
}

/// Feeds the tables in files to the program of a text, their events in the order of the schedule and with so many
/// calls at the start and at each event, and writes the table that it gives to the link, which isn't read. `Tells` of
/// `specs/Feeding.antt` says what was written at each end, and what stands behind it. Nothing is written before the
/// program took the last event; where the text is refused, or a file isn't read, the link isn't touched, whatever the shelf tells.
pub fn feed_source<M: Machine, S: Shelf, L: Link>(
    alloc: Global,
    text: &[u8],
    schedule: &[u32],
    names: &[String],
    budget: u64,
    shelf: &mut S,
    link: &mut L,
) -> End
    requires { budget ≤ 1000000 }
    ensures fed { (sent : List ℕ) × Writes (L.log link.old) (L.log link.new) sent
        × OfTables (S.holds shelf.old) (map string_bytes names.now) (λ tables. Tells text.now schedule.now tables budget sent result) }
    ensures ends { IsOfFeed result }
    ensures unread { L.left link.new ≡ L.left link.old }
    ensures unrun { IsUnrun result → L.log link.new ≡ L.log link.old }
    ensures held { S.holds shelf.new ≡ S.holds shelf.old }
    ensures file { FileCause result (S.faults shelf.old) (S.faults shelf.new) }
    ensures read { L.read_faults link.new ≡ L.read_faults link.old }
    ensures write { WriteCause result (L.write_faults link.old) (L.write_faults link.new) }
{
    let out = match text_fed::<M, S>(alloc, text, schedule, names, budget, shelf) {
        Ok(out) => out,
        Err(end) => return end,
    };
    match send(link, out.as_bytes()) {
        Ok(()) => End::Done,
        Err(IoFault::Memory) => End::Memory,
        Err(IoFault::Failed) => End::WriteFailed,
    }
}
