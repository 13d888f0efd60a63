//! Words of two tables mixed by schedules.

ghost use Rattle.std.specs.Prelude.{◌≡◌, IfOk};
ghost use Rattle.stream_type.specs.StreamType.{type_of, int, star};
ghost use Rattle.event_word.specs.Word.{IsWord};

use event_text::write_line;
use event_word::{Event, canon, prefix_of};
use std::alloc::Global;
use std::test::Fail;
use stream_type::{Memory, Ty, copy, par, star};
use table_feed::{FeedFault, mixed, table};

// The lines of a word.
fn lines(alloc: Global, word: &[Event]) -> Result<String, Memory> {
    let mut text = String::new(alloc);
    for event in word {
        write_line(event, &mut text)?;
    }
    Ok(text)
}

// The canonical word of a table of one column.
fn word_of(alloc: Global, column: &Ty, bytes: &[u8]) -> Result<Vec<Event>, FeedFault>
    requires { type_of column.now ≡ star int }
    ensures { IfOk result (λ w. IsWord (star int) w.items) }
{
    let p = table(alloc, column, 0, bytes)?;
    Ok(canon(alloc, column, &p)?)
}

// The words of two tables of one column mixed by a schedule, as lines; and the lines of the canonical word of what
// it stands for.
fn mixed_lines(
    alloc: Global,
    schedule: &[u32],
    first: &[u8],
    second: &[u8],
) -> Result<(String, String), FeedFault> {
    let column = star(alloc, Ty::Int)?;
    let both = par(alloc, copy(alloc, &column)?, star(alloc, Ty::Int)?)?;
    let words = [
        word_of(alloc, &column, first)?,
        word_of(alloc, &column, second)?,
    ];
    let word = mixed(alloc, &both, &words, schedule)?;
    let whole = prefix_of(alloc, &both, &word)?;
    let same = canon(alloc, &both, &whole)?;
    Ok((lines(alloc, &word)?, lines(alloc, &same)?))
}

/// One word after the other.
const IN_ORDER: &str =
    "L item\nL F int 1\nL cut\nL item\nL F int 2\nL cut\nL end\nR item\nR F int 10\nR cut\nR item\nR F int 20\nR cut\nR end\n";

// Whether a schedule mixes the words of two tables of two rows to these lines, which stand for what the words stand
// for one after the other.
fn is_mixed(alloc: Global, schedule: &[u32], text: &str) -> bool {
    match mixed_lines(alloc, schedule, b"1\n2\n", b"10\n20\n") {
        Ok((word, whole)) => word.as_str() == text && whole.as_str() == IN_ORDER,
        Err(_) => false,
    }
}

#[test]
fn schedules_mix(rt: HostRuntime) -> Result<(), Fail> {
    let rows: [(&[u32], &str); 7] = [
        (&[0], IN_ORDER),
        (&[], IN_ORDER),
        (
            &[1],
            "R item\nR F int 10\nR cut\nR item\nR F int 20\nR cut\nR end\nL item\nL F int 1\nL cut\nL item\nL F int 2\nL cut\nL end\n",
        ),
        (
            &[5, 1],
            "R item\nR F int 10\nR cut\nR item\nR F int 20\nR cut\nR end\nL item\nL F int 1\nL cut\nL item\nL F int 2\nL cut\nL end\n",
        ),
        (
            &[0, 1],
            "L item\nR item\nL F int 1\nR F int 10\nL cut\nR cut\nL item\nR item\nL F int 2\nR F int 20\nL cut\nR cut\nL end\nR end\n",
        ),
        (
            &[0, 0, 1, 1],
            "L item\nL F int 1\nR item\nR F int 10\nL cut\nL item\nR cut\nR item\nL F int 2\nL cut\nR F int 20\nR cut\nL end\nR end\n",
        ),
        (
            &[1, 0, 1, 1],
            "R item\nL item\nR F int 10\nR cut\nR item\nL F int 1\nR F int 20\nR cut\nR end\nL cut\nL item\nL F int 2\nL cut\nL end\n",
        ),
    ];
    for (schedule, text) in rows {
        assert!(rt; is_mixed(rt.alloc(), schedule, text), "{text}");
    }
    Ok(())
}
