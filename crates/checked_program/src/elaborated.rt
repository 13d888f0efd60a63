//! The way from a text to its core, which isn't checked.

ghost use Rattle.std.specs.Prelude.{◌≡◌, ℕ, List, Err, IfOk, IfErr, IfSome};
ghost use Rattle.delta_tree.specs.SyntaxTree.{ProgramTree};
ghost use Rattle.core_term.specs.CoreTerm.{core_of};
ghost use Rattle.core_term.specs.FreeNames.{IsCore, HasFewNodes};
ghost use Rattle.delta_meaning.specs.Elaborated.{elaborate};
ghost use Rattle.delta_elab.specs.FirstFault.{fault_of};
ghost use Rattle.program_text.specs.ProgramText.{IsTextOf};
ghost use Rattle.checked_program.specs.Acceptance.{IsElaboratedAs, IsUnelaborated, IsFaultOf};

use crate::naming::refusal_of;
use core_term::Core;
use delta_elab::{ElabFault, elaborate};
use program_text::{TextFault, program_of};
use std::alloc::Global;

// What a text is refused for with whose names and types this is wrong.
fn refusal_for_names(fault: &ElabFault) -> TextFault
    ensures { (text : List ℕ) (p : ProgramTree) → IsTextOf text p → IfSome (fault_of fault.now) (λ x. elaborate p ≡ Err x) → IsFaultOf (IsUnelaborated text) result }
{
    match refusal_of(fault) {
        None => TextFault::Memory,
        Some(why) => TextFault::Refused(why),
    }
}

/// The core to which the program of a text elaborates. It isn't checked, so that whoever takes it may find out
/// in another way whether it is typed. `IsElaboratedAs` of `specs/Acceptance.antt` says which text has which
/// core, and `IsUnelaborated` for what each other text is refused.
pub fn elaborate_text(alloc: Global, text: &[u8]) -> Result<Core, TextFault>
    ensures elaborated { IfOk result (λ c. IsElaboratedAs text.now (core_of c)) }
    ensures core { IfOk result (λ c. IsCore (core_of c)) }
    ensures nodes { IfOk result (λ c. HasFewNodes (core_of c)) }
    ensures refused { IfErr result (λ fault. IsFaultOf (IsUnelaborated text.now) fault) }
{
    match program_of(alloc, text) {
        Ok(program) => {
            let core = elaborate(alloc, &program);
            drop(program);
            match core {
                Ok(core) => Ok(core),
                Err(fault) => Err(refusal_for_names(&fault)),
            }
        }
        Err(fault) => Err(fault),
    }
}
