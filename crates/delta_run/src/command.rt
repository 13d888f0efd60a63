//! Does what a command line asks for.

ghost use Rattle.std.specs.Prelude.{◌≡◌, ◌≢◌, ◌⊎◌, ◌<◌, ◌≤◌, ◌^◌, ℕ, map, string_bytes};
ghost use Rattle.delta_end.specs.declared.end.End.{End};
ghost use Rattle.delta_words.specs.CommandTask.{CommandTask};
ghost use Rattle.delta_run.specs.Printed.{PrintedText};
ghost use Rattle.delta_run.specs.Checked.{ChecksText};
ghost use Rattle.delta_run.specs.Bounded.{BoundedText};
ghost use Rattle.commands.specs.Deriving.{DerivesText};
ghost use Rattle.delta_run.specs.Fed.{FedText};
ghost use Rattle.delta_run.specs.Evaluated.{EvaluatedText};
ghost use Rattle.delta_run.specs.Does.{Does};
ghost use Rattle.delta_run.specs.CommandLine.{Asks, AskNothing, AskForNoState, frames_of};
ghost use Rattle.delta_end.specs.End.{FileCause, ReadCause, WriteCause};
ghost use Rattle.delta_loop.specs.Answer.{Adds, ReadsWell};
ghost use Rattle.delta_loop.specs.History.{IsUntouched};
ghost use Rattle.commands.specs.Running.{Takes, IsUnrun};
ghost use Rattle.delta_run.specs.Text.{OfFile, RanText};

use crate::kept::{resume_file, save_file, save_file_from};
use command_text::{write_frames, write_lines};
use commands::{
    bound_source, check_source, derive_source, eval_source, feed_source, gen_load, print_source,
    run_source,
};
use delta_end::End;
use delta_runner::Begins;
use delta_state::Machine;
use delta_words::{Task, WordsFault, read_words};
use event_frame::Version;
use machine_kept::Keeping;
use port::{IoFault, Link, Shelf};
use std::alloc::Global;

// Runs the program of a file over a link. What runs it is a B.
fn run_file<B: Begins, S: Shelf, L: Link>(
    alloc: Global,
    file: &str,
    budget: u64,
    version: Version,
    shelf: &mut S,
    link: &mut L,
) -> End
    requires { budget ≤ 1000000 }
    ensures ran { OfFile (S.holds shelf.old) file.now (λ text. RanText text budget version (L.log link.old) (L.log link.new) (L.left link.old) (L.left link.new) result) }
    ensures reads { Adds (L.log link.old) (L.log link.new) (ReadsWell result) }
    ensures taken { Adds (L.log link.old) (L.log link.new) (Takes (L.left link.old) (L.left link.new)) }
    ensures unrun { IsUnrun result → IsUntouched (L.log link.old) (L.log link.new) (L.left link.old) (L.left link.new) }
    ensures runs { result ≢ End.Usage }
    ensures held { S.holds shelf.new ≡ S.holds shelf.old }
    ensures file { FileCause result (S.faults shelf.old) (S.faults shelf.new) }
    ensures read { ReadCause result (L.read_faults link.old) (L.read_faults link.new) }
    ensures write { WriteCause result (L.write_faults link.old) (L.write_faults link.new) }
{
    match shelf.read(file) {
        Ok(text) => run_source::<B, L>(alloc, &text, budget, version, link),
        Err(IoFault::Memory) => End::Memory,
        Err(IoFault::Failed) => End::FileFailed,
    }
}

// Prints the program of a file.
fn print_file<S: Shelf, L: Link>(alloc: Global, file: &str, shelf: &mut S, link: &mut L) -> End
    ensures printed { OfFile (S.holds shelf.old) file.now (λ text. PrintedText text (L.log link.old) (L.log link.new) result) }
    ensures reads { Adds (L.log link.old) (L.log link.new) (ReadsWell result) }
    ensures prints { result ≢ End.Usage }
    ensures unread { L.left link.new ≡ L.left link.old }
    ensures unrun { IsUnrun result → L.log link.new ≡ L.log link.old }
    ensures held { S.holds shelf.new ≡ S.holds shelf.old }
    ensures file { FileCause result (S.faults shelf.old) (S.faults shelf.new) }
    ensures read { ReadCause result (L.read_faults link.old) (L.read_faults link.new) }
    ensures write { WriteCause result (L.write_faults link.old) (L.write_faults link.new) }
{
    match shelf.read(file) {
        Ok(text) => print_source(alloc, &text, link),
        Err(IoFault::Memory) => End::Memory,
        Err(IoFault::Failed) => End::FileFailed,
    }
}

// Checks the program of a file.
fn check_file<S: Shelf>(alloc: Global, file: &str, shelf: &mut S) -> End
    ensures checked { OfFile (S.holds shelf.old) file.now (λ text. ChecksText text result) }
    ensures checks { result ≢ End.Usage }
    ensures held { S.holds shelf.new ≡ S.holds shelf.old }
    ensures file { FileCause result (S.faults shelf.old) (S.faults shelf.new) }
    ensures read { (count : ℕ) → ReadCause result count count }
    ensures write { (count : ℕ) → WriteCause result count count }
{
    match shelf.read(file) {
        Ok(text) => check_source(alloc, &text),
        Err(IoFault::Memory) => End::Memory,
        Err(IoFault::Failed) => End::FileFailed,
    }
}

// Tells the bound of the program of a file.
fn bound_file<S: Shelf, L: Link>(alloc: Global, file: &str, shelf: &mut S, link: &mut L) -> End
    ensures bounded { OfFile (S.holds shelf.old) file.now (λ text. BoundedText text (L.log link.old) (L.log link.new) result) }
    ensures reads { Adds (L.log link.old) (L.log link.new) (ReadsWell result) }
    ensures bounds { result ≢ End.Usage }
    ensures unread { L.left link.new ≡ L.left link.old }
    ensures unrun { IsUnrun result → L.log link.new ≡ L.log link.old }
    ensures held { S.holds shelf.new ≡ S.holds shelf.old }
    ensures file { FileCause result (S.faults shelf.old) (S.faults shelf.new) }
    ensures read { ReadCause result (L.read_faults link.old) (L.read_faults link.new) }
    ensures write { WriteCause result (L.write_faults link.old) (L.write_faults link.new) }
{
    match shelf.read(file) {
        Ok(text) => bound_source(alloc, &text, link),
        Err(IoFault::Memory) => End::Memory,
        Err(IoFault::Failed) => End::FileFailed,
    }
}

// Checks the derivation of a file's program that another file is.
fn derive_file<S: Shelf>(alloc: Global, file: &str, proof: &str, shelf: &mut S) -> End
    ensures derived { OfFile (S.holds shelf.old) file.now (λ text. OfFile (S.holds shelf.old) proof.now (λ steps. DerivesText text steps result)) }
    ensures derives { result ≢ End.Usage }
    ensures held { S.holds shelf.new ≡ S.holds shelf.old }
    ensures file { FileCause result (S.faults shelf.old) (S.faults shelf.new) }
    ensures read { (count : ℕ) → ReadCause result count count }
    ensures write { (count : ℕ) → WriteCause result count count }
{
    match shelf.read(file) {
        Ok(text) => derive_source(alloc, &text, proof, shelf),
        Err(IoFault::Memory) => End::Memory,
        Err(IoFault::Failed) => End::FileFailed,
    }
}

// Feeds the tables in files to the program of a file.
fn feed_file<M: Machine, S: Shelf, L: Link>(
    alloc: Global,
    file: &str,
    schedule: &[u32],
    tables: &[String],
    budget: u64,
    shelf: &mut S,
    link: &mut L,
) -> End
    requires { budget ≤ 1000000 }
    ensures fed { OfFile (S.holds shelf.old) file.now (λ text. FedText (S.holds shelf.old) text schedule.now (map string_bytes tables.now) budget (L.log link.old) (L.log link.new) result) }
    ensures reads { Adds (L.log link.old) (L.log link.new) (ReadsWell result) }
    ensures feeds { result ≢ End.Usage }
    ensures unread { L.left link.new ≡ L.left link.old }
    ensures unrun { IsUnrun result → L.log link.new ≡ L.log link.old }
    ensures held { S.holds shelf.new ≡ S.holds shelf.old }
    ensures file { FileCause result (S.faults shelf.old) (S.faults shelf.new) }
    ensures read { ReadCause result (L.read_faults link.old) (L.read_faults link.new) }
    ensures write { WriteCause result (L.write_faults link.old) (L.write_faults link.new) }
{
    match shelf.read(file) {
        Ok(text) => feed_source::<M, S, L>(alloc, &text, schedule, tables, budget, shelf, link),
        Err(IoFault::Memory) => End::Memory,
        Err(IoFault::Failed) => End::FileFailed,
    }
}

// Evaluates the program of a file over a link.
fn eval_file<S: Shelf, L: Link>(
    alloc: Global,
    file: &str,
    budget: u64,
    version: Version,
    shelf: &mut S,
    link: &mut L,
) -> End
    requires { budget < 2 ^ 62 }
    ensures evaluated { OfFile (S.holds shelf.old) file.now (λ text. EvaluatedText text budget version (L.log link.old) (L.log link.new) (L.left link.old) (L.left link.new) result) }
    ensures reads { Adds (L.log link.old) (L.log link.new) (ReadsWell result) }
    ensures taken { Adds (L.log link.old) (L.log link.new) (Takes (L.left link.old) (L.left link.new)) }
    ensures unrun { IsUnrun result → IsUntouched (L.log link.old) (L.log link.new) (L.left link.old) (L.left link.new) }
    ensures evaluates { result ≢ End.Usage }
    ensures held { S.holds shelf.new ≡ S.holds shelf.old }
    ensures file { FileCause result (S.faults shelf.old) (S.faults shelf.new) }
    ensures read { ReadCause result (L.read_faults link.old) (L.read_faults link.new) }
    ensures write { WriteCause result (L.write_faults link.old) (L.write_faults link.new) }
{
    match shelf.read(file) {
        Ok(text) => eval_source(alloc, &text, budget, version, link),
        Err(IoFault::Memory) => End::Memory,
        Err(IoFault::Failed) => End::FileFailed,
    }
}

// The version of frames that a command line asks for.
fn frame_version(version: delta_words::Version) -> Version
    ensures { result ≡ frames_of version }
{
    match version {
        delta_words::Version::V1 => Version::V1,
        delta_words::Version::V2 => Version::V2,
    }
}

/// Does what the words ask for, up to its end. A program that `run` runs is run by a B; the load and programs that
/// tables are fed to run on the machine M, and those whose states are left or gone on from on K.
pub fn run_command<B: Begins, M: Machine, K: Keeping, S: Shelf, L: Link>(
    alloc: Global,
    words: &[String],
    shelf: &mut S,
    link: &mut L,
) -> End
    ensures usage { result ≡ End.Usage → AskNothing words.now }
    ensures command { AskNothing words.now → ((result ≡ End.Usage) ⊎ (result ≡ End.Memory)) × IsUntouched (L.log link.old) (L.log link.new) (L.left link.old) (L.left link.new) }
    ensures reads { Adds (L.log link.old) (L.log link.new) (ReadsWell result) }
    ensures does { (task : CommandTask) → Asks words.now task
        → Does (S.holds shelf.old) (S.holds shelf.new) (L.log link.old) (L.log link.new) (L.left link.old) (L.left link.new) result task }
    ensures held { AskForNoState words.now → S.holds shelf.new ≡ S.holds shelf.old }
    ensures file { FileCause result (S.faults shelf.old) (S.faults shelf.new) }
    ensures read { ReadCause result (L.read_faults link.old) (L.read_faults link.new) }
    ensures write { WriteCause result (L.write_faults link.old) (L.write_faults link.new) }
{
    match read_words(alloc, words) {
        Ok(Task::Run(file, budget, version)) => {
            run_file::<B, S, L>(alloc, &file, budget, frame_version(version), shelf, link)
        }
        Ok(Task::Frames(version)) => write_frames(alloc, frame_version(version), link),
        Ok(Task::Text) => write_lines(alloc, link),
        Ok(Task::Print(file)) => print_file(alloc, &file, shelf, link),
        Ok(Task::Check(file)) => check_file(alloc, &file, shelf),
        Ok(Task::Eval(file, budget, version)) => {
            eval_file(alloc, &file, budget, frame_version(version), shelf, link)
        }
        Ok(Task::Bound(file)) => bound_file(alloc, &file, shelf, link),
        Ok(Task::Derive(file, proof)) => derive_file(alloc, &file, &proof, shelf),
        Ok(Task::Feed(file, schedule, tables, budget)) => {
            feed_file::<M, S, L>(alloc, &file, &schedule, &tables, budget, shelf, link)
        }
        Ok(Task::Gen(start, items)) => gen_load::<M, L>(alloc, start, items, link),
        Ok(Task::Save(file, state, budget, version)) => {
            let version = frame_version(version);
            save_file::<K, S, L>(alloc, &file, &state, budget, version, shelf, link)
        }
        Ok(Task::SaveAgain(file, state, old, budget, version)) => {
            let version = frame_version(version);
            save_file_from::<K, S, L>(alloc, &file, &state, &old, budget, version, shelf, link)
        }
        Ok(Task::Resume(file, state, budget, version)) => {
            let version = frame_version(version);
            resume_file::<K, S, L>(alloc, &file, &state, budget, version, shelf, link)
        }
        Err(WordsFault::Usage) => End::Usage,
        Err(WordsFault::Memory) => End::Memory,
    }
}
