//! Checks a derivation of a text's program.

ghost use Rattle.std.specs.Prelude.{◌≡◌, ◌≢◌, ◌≤◌, List, ℕ, Some, length, take, IfOk, IfErr};
ghost use Rattle.core_term.specs.CoreTerm.{CoreProgram, core_of};
ghost use Rattle.core_term.specs.FreeNames.{IsCore, HasFewNodes};
ghost use Rattle.checked_program.specs.Acceptance.{IsElaboratedAs};
ghost use Rattle.delta_derive.specs.FirstFault.{first_fault, IsValidText, TellsFirst, Denies};
ghost use Rattle.delta_end.specs.declared.end.End.{End};
ghost use Rattle.delta_end.specs.End.{FileCause, ReadCause, WriteCause};
ghost use Rattle.commands.specs.Deriving.{longest, Derives, DerivesText, Refutes};

use checked_program::elaborate_text;
use core_term::Core;
use delta_derive::{DeriveFault, check, dismiss};
use delta_end::{DerivationName, End, Objection};
use port::{IoFault, Shelf};
use program_text::TextFault;
use std::alloc::Global;

// The core of the program that a text is, of which a derivation is to be checked; it isn't asked whether it is
// typed. Or how the command ends, whatever the derivation is.
fn core_of_text(alloc: Global, text: &[u8]) -> Result<Core, End>
    ensures elaborated { IfOk result (λ c. IsElaboratedAs text.now (core_of c)) }
    ensures core { IfOk result (λ c. IsCore (core_of c)) }
    ensures nodes { IfOk result (λ c. HasFewNodes (core_of c)) }
    ensures ended { IfErr result (λ end. (proof : List ℕ) → Derives text.now proof end) }
{
    match elaborate_text(alloc, text) {
        Ok(core) => Ok(core),
        Err(TextFault::Memory) => Err(End::Memory),
        Err(TextFault::Refused(why)) => Err(End::Refused(Some(why))),
    }
}

// The end for a derivation that is refused for this, at this place.
fn refused(name: DerivationName, at: u32) -> End
    ensures { (c : CoreProgram) (proof : List ℕ) → Refutes c proof name at → (text : List ℕ) → IsElaboratedAs text c → Derives text proof result }
{
    End::Objected(Objection::Derivation(name, at))
}

// The end for a derivation with this fault.
fn end_of(fault: &DeriveFault) -> End
    ensures { (c : CoreProgram) (proof : List ℕ) → length proof ≤ longest → Denies fault.now (IsValidText c proof) → TellsFirst fault.now (first_fault c proof)
        → (text : List ℕ) → IsElaboratedAs text c → Derives text proof result }
{
    match fault {
        DeriveFault::Memory => End::Memory,
        DeriveFault::BadLine(line) => refused(DerivationName::BadLine, *line),
        DeriveFault::BadStep(line) => refused(DerivationName::BadStep, *line),
        DeriveFault::BadRule(line) => refused(DerivationName::BadRule, *line),
        DeriveFault::Short(lines) => refused(DerivationName::Short, *lines),
        DeriveFault::Long(line) => refused(DerivationName::Long, *line),
    }
}

// The same for one that is too long.
fn too_long() -> End
    ensures { (c : CoreProgram) (proof : List ℕ) → Refutes c proof DerivationName.LongText longest → (text : List ℕ) → IsElaboratedAs text c → Derives text proof result }
{
    refused(DerivationName::LongText, 1_048_576)
}

// Checks the text of a derivation against a core, for each text that has this core.
fn derive_core(alloc: Global, core: Core, proof: &[u8]) -> End
    requires core { IsCore (core_of core) }
    requires nodes { HasFewNodes (core_of core) }
    ensures { (text : List ℕ) → IsElaboratedAs text (core_of core) → Derives text proof.now result }
{
    let is_long = proof.len() > 1_048_576;
    if is_long {
        dismiss(core);
        return too_long();
    }
    match check(alloc, core, proof) {
        Ok(()) => End::Done,
        Err(fault) => end_of(&fault),
    }
}

/// Checks that a file is a derivation of the program that a text is: done exactly where it is one of the text's core,
/// so that the core is typed, and else the derivation is refused for its first fault. A text without a core is refused
/// whatever the derivation is, and the file isn't read then. `Derives` of `specs/Deriving.antt` says so.
pub fn derive_source<S: Shelf>(alloc: Global, text: &[u8], proof: &str, shelf: &mut S) -> End
    ensures derived { (files : List ℕ → List ℕ) → S.holds shelf.old ≡ Some files → DerivesText text.now (take 1048577 (files proof.now)) result }
    ensures derives { result ≢ End.Usage }
    ensures held { S.holds shelf.new ≡ S.holds shelf.old }
    ensures file { FileCause result (S.faults shelf.old) (S.faults shelf.new) }
    ensures read { (count : ℕ) → ReadCause result count count }
    ensures write { (count : ℕ) → WriteCause result count count }
{
    match core_of_text(alloc, text) {
        Ok(core) => match shelf.read(proof) {
            Ok(steps) => derive_core(alloc, core, &steps),
            Err(IoFault::Memory) => {
                dismiss(core);
                End::Memory
            }
            Err(IoFault::Failed) => {
                dismiss(core);
                End::FileFailed
            }
        },
        Err(end) => end,
    }
}
