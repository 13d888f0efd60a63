//! Evaluates the program of a text.

ghost use Rattle.std.specs.Prelude.{◌≡◌, ◌≤◌, ◌<◌, ◌^◌, ◌++◌, ◌⊎◌, [], List, ℕ, IfOk, IfErr};
ghost use Rattle.stream_type.specs.StreamType.{type_of, reach_of};
ghost use Rattle.stream_prefix.specs.StreamPrefix.{IsPrefix};
ghost use Rattle.stream_prefix.specs.Tree.{prefix_of};
ghost use Rattle.event_word.specs.Word.{IsWord};
ghost use Rattle.event_word.specs.Canon.{canon};
ghost use Rattle.event_frame.specs.Frames.{header, frames, longest};
ghost use Rattle.core_term.specs.CoreTerm.{core_of};
ghost use Rattle.delta_tree.specs.Tree.{program_of as tree_of};
ghost use Rattle.delta_elab.specs.Accepted.{IsAccepted};
ghost use Rattle.delta_end.specs.End.{ReadCause, WriteCause};
ghost use Rattle.delta_loop.specs.History.{Writes};
ghost use Rattle.commands.specs.Evaluating.{input_of, meaning, evaluation, calls_on, ends_well, end_of, Evaluates, EvaluatesText};

use crate::gathering::Gathering;
use checked_program::{Accepted, accept_to_write, dismiss};
use delta_end::End;
use delta_loop::{canonical_frames, run_machine, send};
use delta_meaning::{EvalRefusal, eval};
use event_frame::Version;
use event_word::Event;
use port::{IoFault, Link};
use program_text::TextFault;
use std::alloc::Global;
use stream_prefix::Prefix;
use stream_type::{Memory, Ty};

// The bytes of a header and of what stands behind it.
fn headed(alloc: Global, version: Version, rest: &[u8]) -> Result<Vec<u8>, Memory>
    ensures { IfOk result (λ bytes. bytes.items ≡ header version ++ rest.now) }
{
    let mut bytes = Vec::new(alloc);
    bytes.extend_from_slice(version.header())?;
    bytes.extend_from_slice(rest)?;
    Ok(bytes)
}

// What the program says of a word of its input's type.
fn meaning_on(
    alloc: Global,
    accepted: &Accepted,
    word: &[Event],
    budget: u64,
) -> Result<Prefix, EvalRefusal>
    requires accepted { IsAccepted (tree_of accepted.now.program) (core_of accepted.now.checked) }
    requires word { IsWord (input_of (tree_of accepted.now.program)) word.now }
    requires budget { budget < 2 ^ 62 }
    ensures means { IfOk result (λ q. prefix_of q ≡ meaning (tree_of accepted.now.program) word.now) }
    ensures within { IfOk result (λ _. calls_on (tree_of accepted.now.program) word.now ≤ budget) }
    ensures spent { IfErr result (λ f. (n : ℕ) → f ≡ EvalRefusal.Budget n → budget < calls_on (tree_of accepted.now.program) word.now) }
{
    match event_word::prefix_of(alloc, accepted.checked.input(), word) {
        Ok(input) => eval(alloc, &accepted.program, &input, budget),
        Err(_) => Err(EvalRefusal::Memory),
    }
}

// The header, and the frames of what is said.
fn written(alloc: Global, version: Version, output: &Ty, said: &Prefix) -> Result<Vec<u8>, Memory>
    requires typed { IsPrefix (type_of output.now) (prefix_of said.now) }
    requires short { reach_of (type_of output.now) ≤ longest version }
    ensures { IfOk result (λ bytes. bytes.items ≡ header version ++ frames version (canon (prefix_of said.now))) }
{
    let frames = canonical_frames(alloc, version, output, said)?;
    headed(alloc, version, &frames)
}

// What is written for a word of the input's type, or why there is nothing.
fn written_for(
    alloc: Global,
    accepted: &Accepted,
    word: &[Event],
    budget: u64,
    version: Version,
) -> Result<Vec<u8>, EvalRefusal>
    requires accepted { IsAccepted (tree_of accepted.now.program) (core_of accepted.now.checked) }
    requires short { reach_of (core_of accepted.now.checked).main.result ≤ longest version }
    requires word { IsWord (input_of (tree_of accepted.now.program)) word.now }
    requires budget { budget < 2 ^ 62 }
    ensures bytes { IfOk result (λ bytes. bytes.items ≡ evaluation (tree_of accepted.now.program) version word.now) }
    ensures within { IfOk result (λ _. calls_on (tree_of accepted.now.program) word.now ≤ budget) }
    ensures spent { IfErr result (λ f. (n : ℕ) → f ≡ EvalRefusal.Budget n → budget < calls_on (tree_of accepted.now.program) word.now) }
{
    match meaning_on(alloc, accepted, word, budget) {
        Ok(said) => {
            let bytes = written(alloc, version, accepted.checked.output(), &said);
            drop(said);
            match bytes {
                Ok(bytes) => Ok(bytes),
                Err(_) => Err(EvalRefusal::Memory),
            }
        }
        Err(refusal) => Err(refusal),
    }
}

// Whether the input ended, with nothing wrong with it.
fn is_well(end: End) -> bool
    ensures { result ≡ ends_well end }
{
    matches!(end, End::Done | End::Open)
}

// Writes bytes to their end, and ends so where that is done.
fn say<L: Link>(bytes: &[u8], end: End, link: &mut L) -> End
    ensures sent { (sent rest : List ℕ) × (bytes.now ≡ sent ++ rest) × Writes (L.log link.old) (L.log link.new) sent
        × (((result ≡ end) × (rest ≡ [])) ⊎ ((result ≡ End.Memory) ⊎ (result ≡ End.WriteFailed))) }
    ensures left { L.left link.new ≡ L.left link.old }
    ensures read { L.read_faults link.new ≡ L.read_faults link.old }
    ensures write { (WriteCause end (L.write_faults link.old) (L.write_faults link.old)) → WriteCause result (L.write_faults link.old) (L.write_faults link.new) }
{
    match send(link, bytes) {
        Ok(()) => end,
        Err(IoFault::Memory) => End::Memory,
        Err(IoFault::Failed) => End::WriteFailed,
    }
}

// How an evaluation ends that is refused.
fn end_of(refusal: EvalRefusal) -> End
    ensures { result ≡ end_of refusal }
{
    match refusal {
        EvalRefusal::Memory => End::Memory,
        EvalRefusal::Budget(_) => End::Budget(0),
    }
}

// Reads the whole input, and writes what the program says of it.
fn eval_program<L: Link>(
    alloc: Global,
    accepted: &Accepted,
    budget: u64,
    version: Version,
    link: &mut L,
) -> End
    requires accepted { IsAccepted (tree_of accepted.now.program) (core_of accepted.now.checked) }
    requires short { reach_of (core_of accepted.now.checked).main.result ≤ longest version }
    requires budget { budget < 2 ^ 62 }
    ensures evaluated { Evaluates (tree_of accepted.now.program) budget version (L.log link.old) (L.log link.new) (L.left link.old) (L.left link.new) result }
    ensures read { ReadCause result (L.read_faults link.old) (L.read_faults link.new) }
    ensures write { WriteCause result (L.write_faults link.old) (L.write_faults link.new) }
{
    let mut gathering = match Gathering::of(alloc, accepted.checked.input()) {
        Ok(gathering) => gathering,
        Err(_) => return End::Memory,
    };
    let end = run_machine(alloc, &mut gathering, None, b"", link);
    if !is_well(end) {
        drop(gathering);
        return end;
    }
    let bytes = written_for(alloc, accepted, &gathering.word, budget, version);
    drop(gathering);
    match bytes {
        Ok(bytes) => say(&bytes, end, link),
        Err(refusal) => end_of(refusal),
    }
}

/// Reads the link to the end of its input, and then writes a header and the frames of the canonical word
/// of what the program of a text says of the whole, in one look. Nothing is written where the input has a
/// fault or where the meaning makes more calls than the budget allows. `EvaluatesText` of
/// `specs/Evaluating.antt` says what stands behind each end.
pub fn eval_source<L: Link>(
    alloc: Global,
    text: &[u8],
    budget: u64,
    version: Version,
    link: &mut L,
) -> End
    requires { budget < 2 ^ 62 }
    ensures evaluated { EvaluatesText text.now budget version (L.log link.old) (L.log link.new) (L.left link.old) (L.left link.new) result }
    ensures read { ReadCause result (L.read_faults link.old) (L.read_faults link.new) }
    ensures write { WriteCause result (L.write_faults link.old) (L.write_faults link.new) }
{
    match accept_to_write(alloc, text, version) {
        Ok(accepted) => {
            let end = eval_program(alloc, &accepted, budget, version, link);
            dismiss(accepted);
            end
        }
        Err(TextFault::Memory) => End::Memory,
        Err(TextFault::Refused(why)) => End::Refused(Some(why)),
    }
}
