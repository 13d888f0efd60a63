//! A book of learned steps.

ghost use Rattle.std.specs.Prelude.{◌≡◌, [], IfOk, IfSome};
ghost use Rattle.learned_runner.specs.Book.{stations_of, steps_of};
ghost use Rattle.learned_runner.specs.Finding.{Finds};

use event_word::Event;
use learned_table::{LearnedStep, lay};
use state_shapes::Found;
use stations::Station;
use std::alloc::Global;
use stream_type::Memory;

/// A learned step between two stations of a book, told by their numbers.
#[derive(Drop)]
pub struct Known {
    /// The station at which it was learned.
    pub from: usize,
    /// The station at which it ends.
    pub to: usize,
    /// The step.
    pub step: LearnedStep,
}

/// Stations, and what was learned between them. Contracts see it by `stations_of` and `steps_of` (`specs/Book.antt`).
#[derive(Drop)]
pub struct Book {
    /// The stations.
    pub stations: Vec<Station>,
    /// The steps.
    pub steps: Vec<Known>,
    /// For each station, the numbers of the steps that were learned at it.
    pub of_station: Vec<Vec<usize>>,
}

/// Nothing learned yet.
pub fn nothing_learned(alloc: Global) -> Book
    ensures stations { stations_of result ≡ [] }
    ensures steps { steps_of result ≡ [] }
{
    Book {
        stations: Vec::new(alloc),
        steps: Vec::new(alloc),
        of_station: Vec::new(alloc),
    }
}

/// The first step of this station that can be made again with these numbers on this event, with what was found for its
/// numbers. Its only error is want of memory.
pub fn find<'a>(
    alloc: Global,
    book: &'a Book,
    at: usize,
    numbers: &[i64],
    x: &Event,
    found: &mut Found,
) -> Result<Option<&'a Known>, Memory>
    ensures { IfOk result (λ k. IfSome k (λ k. Finds book.now at numbers.now x.now found.new k.now)) }
{
    let Some(list) = book.of_station.get(at) else {
        return Ok(None);
    };
    for place in list {
        if let Some(known) = book.steps.get(*place) {
            if known.from == at && lay(alloc, &known.step, numbers, x, found)? {
                return Ok(Some(known));
            }
        }
    }
    Ok(None)
}
