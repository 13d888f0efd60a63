//! The way from a text to its checked core.

ghost use Rattle.std.specs.Prelude.{◌≡◌, ◌≤◌, ℕ, List, IfOk, IfErr};
ghost use Rattle.stream_type.specs.StreamType.{size_of};
ghost use Rattle.delta_tree.specs.SyntaxTree.{ProgramTree};
ghost use Rattle.delta_tree.specs.Tree.{program_of as tree_of};
ghost use Rattle.core_term.specs.CoreTerm.{core_of, core_places};
ghost use Rattle.delta_meaning.specs.NodePlaces.{program_places};
ghost use Rattle.event_frame.specs.Frames.{longest};
ghost use Rattle.program_text.specs.ProgramText.{IsTextOf};
ghost use Rattle.delta_elab.specs.Accepted.{SaysUntyped, SaysWhy};
ghost use Rattle.checked_program.specs.Acceptance.{IsAcceptedAs, IsRefusedAs, IsWritable, IsRefusedToWrite, IsFaultOf};

use crate::naming::{name_of_rule, refusal_of};
use core_term::Checked;
use delta_check::TypeFault;
use delta_elab::{ProgramFault, typed};
use delta_tree::Program;
use event_frame::Version;
use program_refusal::{Refusal, RefusalName};
use program_text::{TextFault, program_of};
use std::alloc::Global;
use stream_type::reach;

/// A text that is accepted: its program, and the checked core of that.
#[derive(Drop)]
pub struct Accepted {
    /// The program of the text.
    pub program: Program,
    /// Its core.
    pub checked: Checked,
}

// What a text is refused for whose program breaks a rule.
fn refusal_for_rule(fault: &TypeFault) -> TextFault
    ensures { (text : List ℕ) (p : ProgramTree) → IsTextOf text p → SaysUntyped p fault.now → IsFaultOf (IsRefusedAs text) result }
{
    match fault {
        TypeFault::Memory => TextFault::Memory,
        TypeFault::Refused { node: _, at, cause } => TextFault::Refused(Refusal {
            name: name_of_rule(cause),
            at: *at,
        }),
    }
}

// What a text is refused for whose program has this fault.
fn refusal_for(fault: &ProgramFault) -> TextFault
    ensures { (text : List ℕ) (p : ProgramTree) → IsTextOf text p → SaysWhy p fault.now → IsFaultOf (IsRefusedAs text) result }
{
    match fault {
        ProgramFault::Memory => TextFault::Memory,
        ProgramFault::Elab(fault) => match refusal_of(fault) {
            None => TextFault::Memory,
            Some(why) => TextFault::Refused(why),
        },
        ProgramFault::Type(fault) => refusal_for_rule(fault),
    }
}

/// The program of a text that is accepted, with its checked core, each node of which has the place of what it
/// stands for. `IsAcceptedAs` of `specs/Acceptance.antt` says which texts are accepted, and `IsRefusedAs` for
/// what each other text is refused. The laws say that but for want of memory each text has one answer.
pub fn accept(alloc: Global, text: &[u8]) -> Result<Accepted, TextFault>
    ensures accepted { IfOk result (λ a. IsAcceptedAs text.now (tree_of a.program) (core_of a.checked)) }
    ensures places { IfOk result (λ a. core_places a.checked ≡ program_places (tree_of a.program)) }
    ensures refused { IfErr result (λ fault. IsFaultOf (IsRefusedAs text.now) fault) }
{
    match program_of(alloc, text) {
        Ok(program) => with_core(alloc, program),
        Err(fault) => Err(fault),
    }
}

// A program that is typed, with its checked core, or what its text is refused for.
fn with_core(alloc: Global, program: Program) -> Result<Accepted, TextFault>
    ensures accepted { (text : List ℕ) → IsTextOf text (tree_of program) → IfOk result (λ a. IsAcceptedAs text (tree_of a.program) (core_of a.checked)) }
    ensures places { IfOk result (λ a. core_places a.checked ≡ program_places (tree_of a.program)) }
    ensures refused { (text : List ℕ) → IsTextOf text (tree_of program) → IfErr result (λ fault. IsFaultOf (IsRefusedAs text) fault) }
{
    match typed(alloc, &program) {
        Ok(checked) => Ok(Accepted { program, checked }),
        Err(fault) => {
            drop(program);
            Err(refusal_for(&fault))
        }
    }
}

/// The same for a text whose output is to be written as frames of the version: it is also refused, at the
/// word `main`, where a path of the output can have more steps than such frames have.
pub fn accept_to_write(alloc: Global, text: &[u8], version: Version) -> Result<Accepted, TextFault>
    ensures accepted { IfOk result (λ a. IsWritable text.now version (tree_of a.program) (core_of a.checked)) }
    ensures refused { IfErr result (λ fault. IsFaultOf (IsRefusedToWrite text.now version) fault) }
{
    match accept(alloc, text) {
        Ok(accepted) => written_by(accepted, version),
        Err(fault) => Err(fault),
    }
}

// What was accepted, where frames of the version can have each path of its output.
fn written_by(accepted: Accepted, version: Version) -> Result<Accepted, TextFault>
    requires { size_of (core_of accepted.checked).main.result ≤ 4096 }
    ensures accepted { (text : List ℕ) → IsAcceptedAs text (tree_of accepted.program) (core_of accepted.checked) → IfOk result (λ a. IsWritable text version (tree_of a.program) (core_of a.checked)) }
    ensures refused { (text : List ℕ) → IsAcceptedAs text (tree_of accepted.program) (core_of accepted.checked) → IfErr result (λ fault. IsFaultOf (IsRefusedToWrite text version) fault) }
{
    if reach(accepted.checked.output()) > u32::from(version.longest()) {
        let at = accepted.program.main.at;
        dismiss(accepted);
        return Err(TextFault::Refused(Refusal {
            name: RefusalName::WideOutput,
            at,
        }));
    }
    Ok(accepted)
}

/// Drops what was accepted. The crates above call this: one that drops a program by itself has the drop of
/// each form of its trees proved once more.
pub fn dismiss(accepted: Accepted) {
    drop(accepted)
}
