//! Why a run doesn't go on from a state.

ghost use Rattle.std.specs.Prelude.{◌≡◌};
ghost use Rattle.commands.specs.Resuming.{IsSmallFault, end_of};

use delta_end::{End, Objection, StateName};
use kept_check::KeepFault;

// The end where a state is refused for this, at this place.
fn refused(name: StateName, at: u32) -> End
    ensures { result ≡ End.Objected (Objection.State name at) }
{
    End::Objected(Objection::State(name, at))
}

/// How the command ends where bytes aren't taken as a state of the program for this fault, whose place is no more than
/// the most bytes that a state may have: `end_of` in `specs/Resuming.antt`.
pub fn fault_end(fault: KeepFault) -> End
    requires { IsSmallFault fault }
    ensures { result ≡ end_of fault }
{
    match fault {
        KeepFault::Memory => End::Memory,
        KeepFault::Form(at) => refused(StateName::Form, at as u32),
        KeepFault::Untyped(number) => refused(StateName::Untyped, number),
        KeepFault::Version(version) => refused(StateName::Version, u32::from(version)),
    }
}
