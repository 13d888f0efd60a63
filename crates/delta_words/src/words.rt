//! The words after the program's name, read.

ghost use Rattle.std.specs.Prelude.{◌≡◌, Some, None, Err, map, string_bytes, IfOk};
ghost use Rattle.delta_words.specs.CommandTask.{asked, task_of};

use crate::fault::WordsFault;
use crate::parser::find_matches;
use crate::task::{Task, task_asked};
use std::alloc::Global;

/// What the words after the program's name ask for. `task_of` of `specs/CommandTask.antt` says which words
/// ask for what. `Usage` comes where they ask for nothing, and clap, which reads them too, refuses none that
/// ask for something.
pub fn read_words(alloc: Global, words: &[String]) -> Result<Task, WordsFault>
    ensures ok { IfOk result (λ task. task_of (map string_bytes words.now) ≡ Some (asked task)) }
    ensures usage { result ≡ Err WordsFault.Usage → task_of (map string_bytes words.now) ≡ None }
{
    let task = task_asked(alloc, words)?;
    match find_matches(alloc, words) {
        Ok(_) => Ok(task),
        Err(WordsFault::Usage) => unreachable!(),
        Err(WordsFault::Memory) => Err(WordsFault::Memory),
    }
}
