//! The names and places of what elaboration and checking refuse.

ghost use Rattle.std.specs.Prelude.{◌≡◌, Some, option_map, IfSome};
ghost use Rattle.delta_check.specs.Faults.{cause_of};
ghost use Rattle.delta_elab.specs.FirstFault.{fault_of};
ghost use Rattle.checked_program.specs.Naming.{refusal_of as name_of_fault, name_of_rule as name_of_cause};

use delta_check::TypeCause;
use delta_elab::ElabFault;
use program_refusal::{Refusal, RefusalName};

// This name, at this place.
fn refusal(name: RefusalName, at: u32) -> Option<Refusal>
    ensures { result ≡ Some (record { name = name; at = at }) }
{
    Some(Refusal { name, at })
}

/// The refusal for a fault of names and types; want of memory has none.
pub fn refusal_of(fault: &ElabFault) -> Option<Refusal>
    ensures { result ≡ option_map name_of_fault (fault_of fault.now) }
{
    match fault {
        ElabFault::Memory => None,
        ElabFault::Unbound(_, at) => refusal(RefusalName::Unbound, *at),
        ElabFault::NoFunction(_, at) => refusal(RefusalName::NoFunction, *at),
        ElabFault::NoType(_, at) => refusal(RefusalName::NoType, *at),
        ElabFault::TooTall(at) => refusal(RefusalName::TooTall, *at),
        ElabFault::TooWide(at) => refusal(RefusalName::TooWide, *at),
    }
}

/// The name of a broken rule.
pub fn name_of_rule(cause: &TypeCause) -> RefusalName
    ensures { IfSome (cause_of cause.now) (λ rule. result ≡ name_of_cause rule) }
{
    match cause {
        TypeCause::Unbound(_) => RefusalName::Unbound,
        TypeCause::Mismatch { .. } => RefusalName::Mismatch,
        TypeCause::OutOfOrder(_, _) => RefusalName::OutOfOrder,
        TypeCause::Jumpy(_) => RefusalName::Jumpy,
        TypeCause::WaitNull(_) => RefusalName::WaitNull,
        TypeCause::Arity(_) => RefusalName::Arity,
        TypeCause::History(_) => RefusalName::History,
        TypeCause::NotStream(_) => RefusalName::NotStream,
    }
}
