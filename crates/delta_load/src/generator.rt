//! One event of the load, by its number.

ghost use Rattle.std.specs.Prelude.{◌≡◌, ◌<◌, ◌≤◌, ◌*◌, ◌^◌, ◌↔◌, Some, IsNone, length, slice_get};
ghost use Rattle.event_word.specs.declared.event.Step.TheVariants.{First as IntoFirst};
ghost use Rattle.event_word.specs.StreamEvent.{leaf_of, under};
ghost use Rattle.delta_load.specs.Load.{value_of, item_events, load};

use event_word::{Event, Leaf, Step};

// The event with no step.
fn plain(leaf: Leaf) -> Event
    ensures { result ≡ leaf_of leaf }
{
    Event::new(leaf)
}

// The event in the first part of a sequence.
fn in_first(event: Event) -> Option<Event>
    requires { length event.path < 63 }
    ensures { result ≡ Some (under IntoFirst event) }
{
    event.under(Step::First)
}

// A key, in the first part of the item that begins.
fn key_event(key: u64) -> Option<Event>
    requires { key < 2 ^ 63 }
    ensures { result ≡ slice_get (item_events key 0) 1 }
{
    in_first(in_first(plain(Leaf::Int(key as i64)))?)
}

// The value of the item of a key.
fn value(start: u64, key: u64) -> u64
    requires start { start ≤ 999999 }
    requires key { key < 10000000 }
    ensures value { result ≡ value_of start key }
    ensures below { result < 1000 }
{
    (7 * key + start) % 1000
}

// The event of an item at a place in it; there are five.
fn item_event(key: u64, value: u64, place: u64) -> Option<Event>
    requires key { key < 2 ^ 63 }
    requires value { value < 2 ^ 63 }
    ensures { result ≡ slice_get (item_events key value) place }
{
    match place {
        0 => Some(plain(Leaf::Item)),
        1 => key_event(key),
        2 => in_first(plain(Leaf::Cut)),
        3 => in_first(plain(Leaf::Int(value as i64))),
        4 => Some(plain(Leaf::Cut)),
        _ => None,
    }
}

/// The event of a number in the load of so many items, whose values begin at the start. There is none exactly
/// past the load's end.
pub fn gen_event(start: u64, items: u64, i: u64) -> Option<Event>
    requires start { start ≤ 999999 }
    requires items { items ≤ 10000000 }
    ensures event { result ≡ slice_get (load start items) i }
    ensures past { IsNone result ↔ (5 * items < i) }
{
    let key = i / 5;
    if key < items {
        return item_event(key, value(start, key), i % 5);
    }
    if i == 5 * items {
        Some(plain(Leaf::End))
    } else {
        None
    }
}
