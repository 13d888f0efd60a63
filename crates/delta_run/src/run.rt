//! The top call: from the words to the exit status.

ghost use Rattle.std.specs.Prelude.{◌≡◌, ◌⊎◌, ℕ, List};
ghost use Rattle.port.specs.Faults.{Rose};
ghost use Rattle.port.specs.Files.{ChangesOnly};
ghost use Rattle.delta_words.specs.CommandTask.{CommandTask};
ghost use Rattle.delta_end.specs.declared.end.End.{End};
ghost use Rattle.delta_loop.specs.History.{IsUntouched};
ghost use Rattle.delta_run.specs.CommandLine.{Asks, AskNothing, AskToLeave, AskForNoState};
ghost use Rattle.delta_run.specs.Outside.{seen};
ghost use Rattle.delta_run.specs.Ends.{Ends};
ghost use Rattle.delta_run.specs.Owes.{Owes};

use crate::command::run_command;
use delta_end::{answer, note};
use delta_runner::Begins;
use delta_state::Machine;
use machine_kept::Keeping;
use port::{Link, Shelf, Sink};
use std::alloc::Global;

/// Runs the command line that the words are, over what is outside, and answers the exit status: 0 where
/// the input ended and its type is finished, 2 where the words are no command line, 3 where the
/// program is refused, 4 where the input is, 5 where the program makes more calls than its budget allows or
/// one at too great a level, 6 where the input's type awaits more at its end, 7 at a fault outside, 8 for
/// want of memory, 9 for more than 2^40 input bytes, 10 where a state is refused, 11 where a derivation is,
/// 12 where the program has no bound, and 13 where it doesn't take the tables. The words are those after the program's name. The
/// last thing that is written is the note, a line to the sink that says how the run ended (`note_of` in
/// `specs/Note.antt` of `delta_end`). A program that `run` runs is run by a B; the load and programs that tables are fed to run on the
/// machine M, and those whose states are left or gone on from on K.
pub fn delta<B: Begins, M: Machine, K: Keeping, S: Shelf, L: Link, N: Sink>(
    alloc: Global,
    words: &[String],
    shelf: &mut S,
    link: &mut L,
    notes: &mut N,
) -> u8
    // Status 2 comes exactly where the words are no command line, but for want of memory, and nothing is read or written then.
    ensures usage { result ≡ 2 → AskNothing words.now }
    ensures command { AskNothing words.now → (result ≡ 2) ⊎ (result ≡ 8) }
    ensures untouched { AskNothing words.now → IsUntouched (L.log link.old) (L.log link.new) (L.left link.old) (L.left link.new) }
    // One end stands behind the status, and shows in the counts and the note (`Ends`). To a command line that asks for a
    // task all is owed that `Owes` says of it: `Runs`, `Evals`, `Checks`, `Prints`, `Gens`, `Bounds`, `Derivations`, `Feeds`,
    // `Saves`, `SavesAgain`, `Resumes`, `WritesFrames` and `WritesLines`, each a record of promises.
    ensures owed { (end : End)
        × Ends (seen S.holds S.faults L.log L.left L.read_faults L.write_faults N.told N.faults shelf.old link.old notes.old)
        (seen S.holds S.faults L.log L.left L.read_faults L.write_faults N.told N.faults shelf.new link.new notes.new) end result
        × ((task : CommandTask) → Asks words.now task
        → Owes task (seen S.holds S.faults L.log L.left L.read_faults L.write_faults N.told N.faults shelf.old link.old notes.old)
        (seen S.holds S.faults L.log L.left L.read_faults L.write_faults N.told N.faults shelf.new link.new notes.new) end result) }
    // Status 7 comes only where the count of failed calls of the shelf, of the link's reads or writes, or of the sink rose.
    ensures outside { result ≡ 7 → Rose (S.faults shelf.old) (S.faults shelf.new) ⊎ Rose (L.read_faults link.old) (L.read_faults link.new)
        ⊎ Rose (L.write_faults link.old) (L.write_faults link.new) ⊎ Rose (N.faults notes.old) (N.faults notes.new) }
    // Where the count of the shelf, or of the link's reads or writes, rose, the status is 7 or 8.
    ensures still { (result ≡ 7) ⊎ (result ≡ 8) ⊎ ((S.faults shelf.new ≡ S.faults shelf.old)
        × (L.read_faults link.new ≡ L.read_faults link.old) × (L.write_faults link.new ≡ L.write_faults link.old)) }
    // What the shelf holds stays, unless a state is to be left; and then no name but that of the state changes.
    ensures held { AskForNoState words.now → S.holds shelf.new ≡ S.holds shelf.old }
    ensures changes { (state : List ℕ) → AskToLeave words.now state → ChangesOnly (S.holds shelf.old) (S.holds shelf.new) state }
{
    let end = run_command::<B, M, K, S, L>(alloc, words, shelf, link);
    let said = note(notes, end);
    answer(end, said)
}
