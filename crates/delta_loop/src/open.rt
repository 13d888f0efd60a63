//! Writes what stands before the first read.

ghost use Rattle.std.specs.Prelude.{◌≡◌, ◌++◌, [], List, ℕ, IsOk};
ghost use Rattle.port.specs.Faults.{HasCause};
ghost use Rattle.delta_loop.specs.History.{Writes};
ghost use Rattle.delta_loop.specs.Output.{opening};

use crate::sending::send;
use event_frame::Version;
use port::{IoFault, Link};

/// The bytes of a header, or none.
fn opening_of(version: Option<Version>) -> &'static [u8]
    ensures { result.now ≡ opening version }
{
    match version {
        None => b"",
        Some(version) => version.header(),
    }
}

/// Writes the header of a version, if there is one, and then the bytes that come first as one piece. At an error a part of them was written.
pub fn open<L: Link>(link: &mut L, version: Option<Version>, first: &[u8]) -> Result<(), IoFault>
    ensures sent { (sent rest : List ℕ) × (opening version ++ first.now ≡ sent ++ rest) × (IsOk result → rest ≡ []) × Writes (L.log link.old) (L.log link.new) sent }
    ensures left { L.left link.new ≡ L.left link.old }
    ensures cause { HasCause result (L.write_faults link.old) (L.write_faults link.new) }
    ensures other { L.read_faults link.new ≡ L.read_faults link.old }
{
    match send(link, opening_of(version)) {
        Ok(()) => send(link, first),
        Err(fault) => Err(fault),
    }
}
