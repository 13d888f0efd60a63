//! A field as a number.

ghost use Rattle.std.specs.Prelude.{◌≡◌, ◌==◌, get_or};
ghost use Rattle.table_feed.specs.Tables.{number_of};

use std::str;

// The number that a field is, if it is one: `number_of` of `specs/Tables.antt`.
pub(crate) fn number(field: &[u8]) -> Option<i64>
    ensures { result ≡ number_of field.now }
{
    // A plus may stand before a number in Rust, and may not in a field.
    if begins_with_plus(field) {
        return None;
    }
    let Ok(text) = str::from_utf8(field) else {
        return None;
    };
    match text.parse() {
        Ok(number) => Some(number),
        Err(_) => None,
    }
}

fn begins_with_plus(field: &[u8]) -> bool
    ensures { result ≡ (get_or field.now 0 0 == 43) }
{
    match field.split_first() {
        None => false,
        Some((byte, _)) => *byte == b'+',
    }
}
