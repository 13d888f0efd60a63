//! Writes a piece to its end.

ghost use Rattle.std.specs.Prelude.{◌≡◌, ◌++◌, [], List, ℕ, IsOk};
ghost use Rattle.port.specs.Faults.{HasCause};
ghost use Rattle.delta_loop.specs.History.{Writes};

use port::{IoFault, Link};

/// Writes all of a piece, however few bytes each write takes. At an error a part of it was written.
pub fn send<L: Link>(link: &mut L, piece: &[u8]) -> Result<(), IoFault>
    ensures sent { (sent rest : List ℕ) × (piece.now ≡ sent ++ rest) × (IsOk result → rest ≡ []) × Writes (L.log link.old) (L.log link.new) sent }
    ensures left { L.left link.new ≡ L.left link.old }
    ensures cause { HasCause result (L.write_faults link.old) (L.write_faults link.new) }
    ensures other { L.read_faults link.new ≡ L.read_faults link.old }
{
    let mut rest = piece;
    while !rest.is_empty() {
        match link.write(rest) {
            Ok(count) => rest = &rest[count..],
            Err(fault) => return Err(fault),
        }
    }
    Ok(())
}
