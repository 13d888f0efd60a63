//! Runs the load's program on the load, and writes the line that tells of it.

ghost use Rattle.std.specs.Prelude.{◌≡◌, ◌≤◌, List, ℕ};
ghost use Rattle.delta_end.specs.declared.end.End.{End};
ghost use Rattle.delta_end.specs.End.{WriteCause};
ghost use Rattle.delta_loop.specs.History.{Writes};
ghost use Rattle.commands.specs.Generating.{Generates};

use delta_end::End;
use delta_load::generate;
use delta_loop::send;
use delta_state::Machine;
use port::{IoFault, Link};
use std::alloc::Global;

/// Runs the load's program on the load of so many items, event by event, on the machine M, and writes one line
/// to the link that tells what came of it; the link isn't read, and nothing is kept but the machine and counts.
/// `Generates` of `specs/Generating.antt` says what was written at each end.
pub fn gen_load<M: Machine, L: Link>(alloc: Global, start: u64, items: u64, link: &mut L) -> End
    requires start { start ≤ 999999 }
    requires items { items ≤ 10000000 }
    ensures told { (sent : List ℕ) × Writes (L.log link.old) (L.log link.new) sent × Generates start items sent result }
    ensures unread { L.left link.new ≡ L.left link.old }
    ensures read { L.read_faults link.new ≡ L.read_faults link.old }
    ensures write { WriteCause result (L.write_faults link.old) (L.write_faults link.new) }
{
    let line = match generate::<M>(alloc, start, items) {
        Ok(line) => line,
        Err(_) => return End::Memory,
    };
    match send(link, line.as_bytes()) {
        Ok(()) => End::Done,
        Err(IoFault::Memory) => End::Memory,
        Err(IoFault::Failed) => End::WriteFailed,
    }
}
