//! The type of the input of a program that is typed.

ghost use Rattle.std.specs.Prelude.{◌≡◌, IfOk, IfErr};
ghost use Rattle.stream_type.specs.StreamType.{type_of};
ghost use Rattle.bunch.specs.BunchTree.{as_type};
ghost use Rattle.core_term.specs.CoreTerm.{core_of, core_places};
ghost use Rattle.core_term.specs.FreeNames.{HasFewNodes};
ghost use Rattle.core_term.specs.Typing.{IsTypedCore};
ghost use Rattle.core_term.specs.TypeFaults.{first_fault};
ghost use Rattle.delta_check.specs.Checking.{Denies};
ghost use Rattle.delta_check.specs.Faults.{TellsFirst, TellsPlace};

use crate::checking::check_core;
use crate::fault::TypeFault;
use bunch::as_type;
use core_term::Core;
use std::alloc::Global;
use stream_type::Ty;

/// The type of the input of a program, where it is typed, and else the first broken rule, as `check` tells
/// it. It looks at the program by reference: each way out on which a whole program is dropped is dear to
/// prove, and `check` gives it to `drop` on its only one.
pub(crate) fn input_of(alloc: Global, c: &Core) -> Result<Ty, TypeFault>
    requires { HasFewNodes (core_of c.now) }
    ensures input { IfOk result (λ t. type_of t ≡ as_type (core_of c.now).main.params) }
    ensures typed { IfOk result (λ _. IsTypedCore (core_of c.now)) }
    ensures untyped { IfErr result (λ f. Denies f (IsTypedCore (core_of c.now))) }
    ensures first { IfErr result (λ f. TellsFirst f (first_fault (core_of c.now))) }
    ensures place { IfErr result (λ f. TellsPlace f 0 (core_places c.now)) }
{
    check_core(alloc, c)?;
    Ok(as_type(alloc, &c.main.params)?)
}
