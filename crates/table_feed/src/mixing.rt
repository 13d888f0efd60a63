//! Words mixed into one.

ghost use Rattle.std.specs.Prelude.{ℕ, List, ◌∷◌, ◌≡◌, ◌+◌, ◌<◌, ◌≤◌, ◌^◌, ◌++◌, IfOk, OnOk, IfSome, IsNone, Some, None, All, length, map, if◌then◌else◌};
ghost use Rattle.stream_type.specs.StreamType.{type_of, reach_of};
ghost use Rattle.event_word.specs.StreamEvent.{under};
ghost use Rattle.event_word.specs.Word.{IsWord, pre};
ghost use Rattle.table_feed.specs.Mixing.{AreWords, pre_beside, next_of, take_at, in_order, rounds, longest, mixed_word};
ghost use Rattle.table_feed.specs.Room.{right_by, placed, HasRoom, rest_of};

use event_word::{Event, Step};
use std::alloc::Global;
use stream_type::{Memory, Ty};

/// Words of the parts of a type, which stand side by side and are grouped to the right, as one word of it, whose
/// events come in the order that the schedule says: `mixed_word` of `specs/Mixing.antt`. A number of the schedule is
/// that of a word, from 0; one that no word has is passed over. The type serves the conditions alone. Its one error
/// is want of memory.
pub fn mixed(
    alloc: Global,
    s: &Ty,
    words: &[Vec<Event>],
    schedule: &[u32],
) -> Result<Vec<Event>, Memory>
    requires words { AreWords (type_of s.now) (map (λ w. w.items) words.now) }
    requires reach { reach_of (type_of s.now) ≤ 63 }
    ensures mixed { IfOk result (λ w. w.items ≡ mixed_word schedule.now (map (λ w. w.items) words.now)) }
    ensures word { IfOk result (λ w. IsWord (type_of s.now) w.items) }
    ensures means { IfOk result (λ w. pre (type_of s.now) w.items ≡ pre_beside (type_of s.now) (map (λ w. w.items) words.now)) }
{
    let mut left = Vec::new(alloc);
    for word in words {
        left.push(word.as_slice())?;
    }
    let mut mixed = Vec::new(alloc);
    take_rounds(&mut left, schedule, &mut mixed, most_events(words))?;
    append_in_order(&mut mixed, &left, 0)?;
    Ok(mixed)
}

// How many events the longest word has.
fn most_events(words: &[Vec<Event>]) -> usize
    ensures { result ≡ longest (map (λ w. w.items) words.now) }
{
    match words.split_first() {
        None => 0,
        Some((word, rest)) => word.len().max(most_events(rest)),
    }
}

// So many rounds of the schedule, or as many as take something.
fn take_rounds(
    left: &mut Vec<&[Event]>,
    schedule: &[u32],
    mixed: &mut Vec<Event>,
    most: usize,
) -> Result<(), Memory>
    requires room { HasRoom 0 (map (λ w. w.now) left.old.items) }
    ensures events { OnOk result (mixed.new.items ++ in_order (map (λ w. w.now) left.new.items) ≡ mixed.old.items ++ rest_of most schedule.now (map (λ w. w.now) left.old.items)) }
    ensures room { OnOk result (HasRoom 0 (map (λ w. w.now) left.new.items)) }
    ensures len { OnOk result (length left.new.items ≡ length left.old.items) }
{
    for round in 0..most {
        let before = mixed.len();
        take_round(left, schedule, mixed)?;
        if mixed.len() == before {
            return Ok(());
        }
    }
    Ok(())
}

// The events at the numbers of the schedule, in turn.
fn take_round(
    left: &mut Vec<&[Event]>,
    schedule: &[u32],
    mixed: &mut Vec<Event>,
) -> Result<(), Memory>
    requires room { HasRoom 0 (map (λ w. w.now) left.old.items) }
    ensures events { OnOk result (mixed.new.items ≡ mixed.old.items ++ (take_at schedule.now (map (λ w. w.now) left.old.items)).events) }
    ensures left { OnOk result (map (λ w. w.now) left.new.items ≡ (take_at schedule.now (map (λ w. w.now) left.old.items)).left) }
    ensures room { OnOk result (HasRoom 0 (map (λ w. w.now) left.new.items)) }
    ensures len { OnOk result (length left.new.items ≡ length left.old.items) }
{
    for number in schedule {
        take_into(left, *number as usize, mixed)?;
    }
    Ok(())
}

// The next event of a word behind those that came, if the word isn't used up.
fn take_into(left: &mut Vec<&[Event]>, number: usize, mixed: &mut Vec<Event>) -> Result<(), Memory>
    requires room { HasRoom 0 (map (λ w. w.now) left.old.items) }
    ensures events { OnOk result ((later : List ℕ) → mixed.new.items ++ (take_at later (map (λ w. w.now) left.new.items)).events ≡ mixed.old.items ++ (take_at (number ∷ later) (map (λ w. w.now) left.old.items)).events) }
    ensures left { OnOk result ((later : List ℕ) → (take_at later (map (λ w. w.now) left.new.items)).left ≡ (take_at (number ∷ later) (map (λ w. w.now) left.old.items)).left) }
    ensures room { OnOk result (HasRoom 0 (map (λ w. w.now) left.new.items)) }
    ensures len { OnOk result (length left.new.items ≡ length left.old.items) }
{
    match take(left, number) {
        None => Ok(()),
        Some(event) => Ok(mixed.push(event)?),
    }
}

// The next event of a word, if it isn't used up.
fn take(left: &mut Vec<&[Event]>, number: usize) -> Option<Event>
    requires room { HasRoom 0 (map (λ w. w.now) left.old.items) }
    ensures event { IfSome result (λ x. next_of number (map (λ w. w.now) left.old.items) ≡ Some (x, map (λ w. w.now) left.new.items)) }
    ensures none { IsNone result → (next_of number (map (λ w. w.now) left.old.items) ≡ None) × (left.new ≡ left.old) }
    ensures room { HasRoom 0 (map (λ w. w.now) left.new.items) }
    ensures len { length left.new.items ≡ length left.old.items }
{
    let words = left.len();
    if number >= words {
        return None;
    }
    let is_last = number + 1 == words;
    match left[number].split_first() {
        None => None,
        Some((event, rest)) => {
            left[number] = rest;
            Some(place(*event, number, is_last))
        }
    }
}

// An event under the steps that lead to its word.
fn place(event: Event, depth: usize, is_last: bool) -> Event
    requires { (if is_last then depth else depth + 1) + length event.path ≤ 63 }
    ensures { result ≡ placed depth is_last event }
{
    let mut placed = if is_last {
        event
    } else {
        under(event, Step::Left)
    };
    for step in 0..depth {
        placed = under(placed, Step::Right);
    }
    placed
}

// An event with a step in front.
fn under(event: Event, step: Step) -> Event
    requires { length event.path < 63 }
    ensures { result ≡ under step event }
{
    match event.under(step) {
        Some(event) => event,
        None => unreachable!(),
    }
}

// What is left of the words from a depth on, one word after another.
fn append_in_order(mixed: &mut Vec<Event>, left: &[&[Event]], depth: usize) -> Result<(), Memory>
    requires room { HasRoom depth (map (λ w. w.now) left.now) }
    requires depth { depth + length left.now < 2 ^ 64 }
    ensures { OnOk result (mixed.new.items ≡ mixed.old.items ++ map (right_by depth) (in_order (map (λ w. w.now) left.now))) }
{
    let Some((word, rest)) = left.split_first() else {
        return Ok(());
    };
    append_word(mixed, word, depth, rest.is_empty())?;
    append_in_order(mixed, rest, depth + 1)
}

// A word at a depth.
fn append_word(
    mixed: &mut Vec<Event>,
    word: &[Event],
    depth: usize,
    is_last: bool,
) -> Result<(), Memory>
    requires { All (λ x. (if is_last then depth else depth + 1) + length x.path ≤ 63) word.now }
    ensures { OnOk result (mixed.new.items ≡ mixed.old.items ++ map (placed depth is_last) word.now) }
{
    for event in word {
        mixed.push(place(*event, depth, is_last))?;
    }
    Ok(())
}
