//! Prints the program of a text.

ghost use Rattle.std.specs.Prelude.{◌≡◌, List, ℕ, [], string_bytes, IfOk, IfErr};
ghost use Rattle.delta_end.specs.End.{WriteCause};
ghost use Rattle.delta_loop.specs.History.{Writes};
ghost use Rattle.commands.specs.Printing.{Prints, PrintsAll};
ghost use Rattle.commands.specs.Running.{IsUnrun};

use delta_end::End;
use delta_loop::send;
use delta_print::print;
use port::{IoFault, Link};
use program_text::{TextFault, program_of};
use std::alloc::Global;

// The canonical text of the program that a text is, or how the printing ends before anything is written.
fn canonical_text_of(alloc: Global, text: &[u8]) -> Result<String, End>
    ensures printed { IfOk result (λ printed. PrintsAll text.now (string_bytes printed)) }
    ensures ended { IfErr result (λ end. Prints text.now [] end) }
    ensures written { IfErr result (λ end. (count : ℕ) → WriteCause end count count) }
{
    match program_of(alloc, text) {
        Ok(program) => {
            let printed = print(alloc, &program);
            drop(program);
            match printed {
                Ok(printed) => Ok(printed),
                Err(_) => Err(End::Memory),
            }
        }
        Err(TextFault::Memory) => Err(End::Memory),
        Err(TextFault::Refused(why)) => Err(End::Refused(Some(why))),
    }
}

/// Writes the canonical text of the program that a text is to the link, which isn't read. `Prints` of
/// `specs/Printing.antt` says what was written at each end, and for what a text is refused. Where it is, the link isn't touched.
pub fn print_source<L: Link>(alloc: Global, text: &[u8], link: &mut L) -> End
    ensures printed { (sent : List ℕ) × Writes (L.log link.old) (L.log link.new) sent × Prints text.now sent result }
    ensures unread { L.left link.new ≡ L.left link.old }
    ensures unrun { IsUnrun result → L.log link.new ≡ L.log link.old }
    ensures read { L.read_faults link.new ≡ L.read_faults link.old }
    ensures write { WriteCause result (L.write_faults link.old) (L.write_faults link.new) }
{
    let printed = match canonical_text_of(alloc, text) {
        Ok(printed) => printed,
        Err(end) => return end,
    };
    match send(link, printed.as_bytes()) {
        Ok(()) => End::Done,
        Err(IoFault::Memory) => End::Memory,
        Err(IoFault::Failed) => End::WriteFailed,
    }
}
