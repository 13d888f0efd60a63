//! Files read as the words of tables.

ghost use Rattle.std.specs.Prelude.{◌≡◌, ◌⊎◌, ◌≤◌, ◌<◌, ◌+◌, ◌^◌, ◌++◌, ◌∷◌, [], List, Some, None, IfOk, IfErr, OnOk, MatchResult, length, map, string_bytes};
ghost use Rattle.stream_type.specs.StreamType.{type_of, reach_of};
ghost use Rattle.event_word.specs.StreamEvent.{StreamEvent};
ghost use Rattle.event_word.specs.Canon.{canon};
ghost use Rattle.table_feed.specs.declared.fault.FeedFault.{FeedFault as Fault};
ghost use Rattle.table_feed.specs.RowType.{IsRowType, AreTables, columns_of};
ghost use Rattle.table_feed.specs.Tables.{table_fault};
ghost use Rattle.delta_end.specs.declared.end.End.{End};
ghost use Rattle.delta_end.specs.End.{FileCause};
ghost use Rattle.commands.specs.Tables.{whole_table, tables_fault, told_as};
ghost use Rattle.commands.specs.Given.{AreRead, EndsReading};

use crate::telling::end_of;
use delta_end::End;
use event_word::{Event, canon};
use port::{IoFault, Shelf};
use std::alloc::Global;
use stream_type::Ty;
use table_feed::table;

// The word of the table in the bytes of a file.
fn word_of(alloc: Global, s: &Ty, file: u32, bytes: &[u8]) -> Result<Vec<Event>, End>
    requires row { IsRowType (type_of s.now) }
    requires reach { reach_of (type_of s.now) ≤ 63 }
    ensures good { OnOk result (table_fault (columns_of (type_of s.now)) file bytes.now ≡ None) }
    ensures word { IfOk result (λ word. word.items ≡ canon (whole_table (type_of s.now) bytes.now)) }
    ensures ended { IfErr result (λ end. (end ≡ End.Memory) ⊎ ((why : Fault) × (table_fault (columns_of (type_of s.now)) file bytes.now ≡ Some why) × (end ≡ told_as why))) }
{
    match table(alloc, s, file, bytes) {
        Ok(whole) => match canon(alloc, s, &whole) {
            Ok(word) => Ok(word),
            Err(_) => Err(End::Memory),
        },
        Err(fault) => Err(end_of(fault)),
    }
}

// The word of the table in a file.
fn read_word<S: Shelf>(
    alloc: Global,
    s: &Ty,
    file: u32,
    name: &str,
    shelf: &mut S,
) -> Result<Vec<Event>, End>
    requires row { IsRowType (type_of s.now) }
    requires reach { reach_of (type_of s.now) ≤ 63 }
    ensures word { IfOk result (λ word. AreRead (S.holds shelf.old) (name.now ∷ []) (type_of s.now) file (word.items ∷ [])) }
    ensures ended { IfErr result (λ end. EndsReading (S.holds shelf.old) (name.now ∷ []) (tables_fault file (type_of s.now)) end) }
    ensures held { S.holds shelf.new ≡ S.holds shelf.old }
    ensures file { MatchResult result (λ _. S.faults shelf.new ≡ S.faults shelf.old) (λ end. FileCause end (S.faults shelf.old) (S.faults shelf.new)) }
{
    match shelf.read(name) {
        Ok(bytes) => word_of(alloc, s, file, &bytes),
        Err(IoFault::Memory) => Err(End::Memory),
        Err(IoFault::Failed) => Err(End::FileFailed),
    }
}

// The same behind other words.
fn read_behind<S: Shelf>(
    alloc: Global,
    s: &Ty,
    file: u32,
    name: &str,
    shelf: &mut S,
    words: &mut Vec<Vec<Event>>,
) -> Result<(), End>
    requires row { IsRowType (type_of s.now) }
    requires reach { reach_of (type_of s.now) ≤ 63 }
    ensures word { OnOk result ((later : List (List StreamEvent)) × AreRead (S.holds shelf.old) (name.now ∷ []) (type_of s.now) file later
        × (map (λ w. w.items) words.new.items ≡ map (λ w. w.items) words.old.items ++ later)) }
    ensures ended { IfErr result (λ end. EndsReading (S.holds shelf.old) (name.now ∷ []) (tables_fault file (type_of s.now)) end) }
    ensures held { S.holds shelf.new ≡ S.holds shelf.old }
    ensures file { MatchResult result (λ _. S.faults shelf.new ≡ S.faults shelf.old) (λ end. FileCause end (S.faults shelf.old) (S.faults shelf.new)) }
{
    let word = read_word(alloc, s, file, name, shelf)?;
    match words.push(word) {
        Ok(()) => Ok(()),
        Err(_) => Err(End::Memory),
    }
}

/// The words of the tables in files, from the one of a number on, behind other words. The type is that of so many
/// tables. What is wrong with the lowest table that isn't good is told before a later file is read.
pub fn read_words<S: Shelf>(
    alloc: Global,
    s: &Ty,
    file: u32,
    names: &[String],
    shelf: &mut S,
    words: &mut Vec<Vec<Event>>,
) -> Result<(), End>
    requires tables { AreTables (length names.now) (type_of s.now) }
    requires few { file + length names.now < 2 ^ 32 }
    requires reach { reach_of (type_of s.now) ≤ 63 }
    ensures words { OnOk result ((later : List (List StreamEvent)) × AreRead (S.holds shelf.old) (map string_bytes names.now) (type_of s.now) file later
        × (map (λ w. w.items) words.new.items ≡ map (λ w. w.items) words.old.items ++ later)) }
    ensures ended { IfErr result (λ end. EndsReading (S.holds shelf.old) (map string_bytes names.now) (tables_fault file (type_of s.now)) end) }
    ensures held { S.holds shelf.new ≡ S.holds shelf.old }
    ensures file { MatchResult result (λ _. S.faults shelf.new ≡ S.faults shelf.old) (λ end. FileCause end (S.faults shelf.old) (S.faults shelf.new)) }
{
    let Some((name, rest)) = names.split_first() else {
        unreachable!();
    };
    if rest.is_empty() {
        return read_behind(alloc, s, file, name.as_str(), shelf, words);
    }
    match s {
        Ty::Par(first, others) => {
            read_behind(alloc, first, file, name.as_str(), shelf, words)?;
            read_words(alloc, others, file + 1, rest, shelf, words)
        }
        _ => unreachable!(),
    }
}
