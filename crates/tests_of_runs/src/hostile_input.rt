//! The feed cut off behind each byte, and with each byte changed.

use crate::outside::{Given, changed, holds};
use crate::tables::{Command, commands};
use std::alloc::Global;
use std::test::Fail;

// Whether a command answers as it must where so many bytes come, for each number of them.
fn answers_cuts(alloc: Global, command: &Command) -> Result<bool, Fail> {
    let mut all = true;
    for (count, answer) in command.cuts.iter().enumerate() {
        let input = command.given.input;
        let given = Given {
            input: &input[..count.min(input.len())],
            ..command.given
        };
        all = all && holds(alloc, &given, *answer)?;
    }
    Ok(all)
}

#[test]
fn feed_is_cut_off(rt: HostRuntime) -> Result<(), Fail> {
    for command in commands() {
        assert!(rt;
            answers_cuts(rt.alloc(), command)?,
            "{}",
            command.given.words
        );
    }
    Ok(())
}

// Whether a command answers as it must where a byte is set to FF, for each of them.
fn answers_changes(alloc: Global, command: &Command) -> Result<bool, Fail> {
    let mut all = true;
    for (place, answer) in command.changes.iter().enumerate() {
        let input = changed(alloc, command.given.input, place)?;
        let given = Given {
            input: &input,
            ..command.given
        };
        all = all && holds(alloc, &given, *answer)?;
    }
    Ok(all)
}

#[test]
fn byte_of_the_feed_is_changed(rt: HostRuntime) -> Result<(), Fail> {
    for command in commands() {
        assert!(rt;
            answers_changes(rt.alloc(), command)?,
            "{}",
            command.given.words
        );
    }
    Ok(())
}
