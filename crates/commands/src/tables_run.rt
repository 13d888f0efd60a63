//! Programs run on the words of tables.

ghost use Rattle.std.specs.Prelude.{◌≡◌, ◌≤◌, ◌^◌, List, ℕ, IsTrue, IfOk, IfErr, MatchResult, length, map, string_bytes};
ghost use Rattle.stream_prefix.specs.StreamPrefix.{is_maximal};
ghost use Rattle.event_word.specs.Word.{IsWord};
ghost use Rattle.core_term.specs.CoreTerm.{core_of, fits_of};
ghost use Rattle.core_term.specs.Meaning.{mean};
ghost use Rattle.delta_state.specs.MachineView.{input_of};
ghost use Rattle.delta_state.specs.Stands.{input_type};
ghost use Rattle.table_feed.specs.RowType.{IsRowType};
ghost use Rattle.table_feed.specs.Rows.{text_of};
ghost use Rattle.delta_end.specs.End.{FileCause};
ghost use Rattle.commands.specs.Tables.{OfTables};
ghost use Rattle.commands.specs.Given.{AreHeld, EndsRunning, EndsUnwritten, GivesText, IsUnwritten};

use crate::fault::WordFault;
use crate::reading::read_words;
use crate::telling::end_of;
use crate::word_run::run_word;
use core_term::Checked;
use delta_end::End;
use delta_state::Machine;
use event_word::Event;
use port::Shelf;
use std::alloc::Global;
use table_feed::{FeedFault, has_shape, mixed, rows_text};

// The text of the table that a program gives on a whole word of its input's type, event by event.
fn text_of_word<M: Machine>(
    alloc: Global,
    checked: &Checked,
    budget: u64,
    word: &[Event],
) -> Result<String, End>
    requires fits { IsTrue (fits_of (core_of checked.now)) }
    requires budget { budget ≤ 1000000 }
    requires word { IsWord (input_type (core_of checked.now)) word.now }
    requires room { length word.now ≤ 2 ^ 42 }
    requires whole { IsTrue (is_maximal (input_of (core_of checked.now) word.now)) }
    requires table { IsRowType (core_of checked.now).main.result }
    ensures text { IfOk result (λ text. string_bytes text ≡ text_of (mean (core_of checked.now) (input_of (core_of checked.now) word.now))) }
    ensures ended { IfErr result (λ end. EndsRunning (core_of checked.now) budget word.now end) }
{
    match run_word::<M>(alloc, checked, budget, word) {
        Ok(given) => match rows_text(alloc, &given) {
            Ok(text) => Ok(text),
            Err(_) => Err(End::Memory),
        },
        Err(WordFault::Memory) => Err(End::Memory),
        Err(WordFault::Budget(at)) => Err(End::Budget(at)),
        Err(WordFault::Deep(at)) => Err(End::Deep(at)),
    }
}

/// The text of the table that a program gives on the tables in files, whose events it gets in the order of the
/// schedule, or how the command ends without it. The shape of its types is judged before any file is read.
pub fn text_given<M: Machine, S: Shelf>(
    alloc: Global,
    checked: &Checked,
    schedule: &[u32],
    names: &[String],
    budget: u64,
    shelf: &mut S,
) -> Result<String, End>
    requires fits { IsTrue (fits_of (core_of checked.now)) }
    requires budget { budget ≤ 1000000 }
    ensures text { IfOk result (λ text. (tables : List (List ℕ)) × AreHeld (S.holds shelf.old) (map string_bytes names.now) tables × GivesText (core_of checked.now) tables (string_bytes text)) }
    ensures ended { IfErr result (λ end. OfTables (S.holds shelf.old) (map string_bytes names.now) (λ tables. EndsUnwritten (core_of checked.now) schedule.now tables budget end)) }
    ensures unwritten { IfErr result IsUnwritten }
    ensures held { S.holds shelf.new ≡ S.holds shelf.old }
    ensures file { MatchResult result (λ _. S.faults shelf.new ≡ S.faults shelf.old) (λ end. FileCause end (S.faults shelf.old) (S.faults shelf.new)) }
{
    if !has_shape(checked.input(), checked.output(), names.len()) {
        return Err(end_of(FeedFault::Shape));
    }
    let mut words = Vec::new(alloc);
    read_words(alloc, checked.input(), 0, names, shelf, &mut words)?;
    match mixed(alloc, checked.input(), &words, schedule) {
        Ok(word) => text_of_word::<M>(alloc, checked, budget, &word),
        Err(_) => Err(End::Memory),
    }
}
