//! A station at which a run is found, and a step that is made again with other numbers.

use crate::learned::{learned, station};
use event_word::{Event, Leaf};
use learned_table::{LearnedStep, depths_left, lay, numbers_left};
use machine_parts::stop::Stop;
use state_shapes::{Found, nothing, number_at};
use stations::{Standing, Values, found_at, station_of, unfold};
use std::alloc::Global;
use std::test::Fail;
use step_learning::finish;
use stream_type::Memory;

// Registers with this number and this depth.
fn registers(alloc: Global, number: i64, depth: u64) -> Result<Values, Memory> {
    let mut numbers = Vec::new(alloc);
    numbers.push(number)?;
    let mut depths = Vec::new(alloc);
    depths.push(depth)?;
    Ok(Values { numbers, depths })
}

// Whether these are registers with this depth alone.
fn has_depth(values: &Option<Values>, depth: u64) -> bool {
    match values {
        Some(values) => matches!(values.depths.as_slice(), [found] if *found == depth),
        None => false,
    }
}

// Whether the run is found at the station that is made of it, with this depth.
fn is_found_where_made(alloc: Global, standing: &Standing, depth: u64) -> Result<bool, Memory> {
    match station_of(alloc, &standing.lent())? {
        Some((station, _values)) => {
            Ok(has_depth(&found_at(alloc, &station, &standing.lent())?, depth))
        }
        None => Ok(false),
    }
}

// Whether a run that stands at the station with a depth is found there, and at the one that is made of it.
fn is_found(alloc: Global) -> Result<bool, Memory> {
    let station = station(alloc)?;
    let standing = unfold(alloc, &station, &registers(alloc, 5, 20)?)?;
    let found = found_at(alloc, &station, &standing.lent())?;
    Ok(has_depth(&found, 20) && is_found_where_made(alloc, &standing, 20)?)
}

// The step of the number 3 from the register 5, which ends at the station that is made of what it left.
fn step(alloc: Global) -> Result<Option<LearnedStep>, Stop> {
    let Some(learning) = learned(alloc, &Event::new(Leaf::Int(3)))? else {
        return Ok(None);
    };
    match station_of(alloc, &learning.left.lent())? {
        Some((_station, values)) => Ok(Some(finish(learning, values))),
        None => Ok(None),
    }
}

// Whether registers can be left with what was found.
fn leaves(alloc: Global, step: &LearnedStep, found: &Found) -> Result<bool, Memory> {
    let mut left = Values {
        numbers: Vec::new(alloc),
        depths: Vec::new(alloc),
    };
    numbers_left(step, found, &mut left.numbers)?;
    depths_left(step, &[19], &mut left.depths)?;
    let same_numbers = left.numbers.len() == step.numbers_left.len();
    Ok(same_numbers && left.depths.len() == step.depths_left.len())
}

// The sum that is found where the step is made again on this event with the register 6, if it can be.
fn sum(alloc: Global, x: &Event) -> Result<Option<i64>, Stop> {
    let Some(step) = step(alloc)? else {
        return Ok(None);
    };
    let mut found = nothing(alloc);
    if !lay(alloc, &step, &[6], x, &mut found)? || !leaves(alloc, &step, &found)? {
        return Ok(None);
    }
    Ok(Some(number_at(&found.keys, &found.numbers, 4)))
}

#[test]
fn a_run_is_found_at_its_station(rt: HostRuntime) -> Result<(), Fail> {
    assert!(rt; is_found(rt.alloc())?);
    Ok(())
}

#[test]
fn a_sum_is_made_again(rt: HostRuntime) -> Result<(), Fail> {
    let sum = sum(rt.alloc(), &Event::new(Leaf::Int(10)))?;
    assert!(rt; sum == Some(11));
    Ok(())
}

#[test]
fn another_event_is_not_made_again(rt: HostRuntime) -> Result<(), Fail> {
    let sum = sum(rt.alloc(), &Event::new(Leaf::One))?;
    assert!(rt; sum.is_none());
    Ok(())
}
