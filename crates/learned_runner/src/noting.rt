//! What is noted of an event that wasn't known: the step, and the station at which the run stands then.

ghost use Rattle.std.specs.Prelude.{◌≡◌, ◌≤◌, ℕ, map, true, IfOk, IfSome};
ghost use Rattle.stream_type.specs.StreamType.{type_of};
ghost use Rattle.machine_parts.specs.AwaitedTree.{awaited_in};
ghost use Rattle.core_term.specs.CoreTerm.{CoreProgram};
ghost use Rattle.template_state.specs.Readers.{state_in};
ghost use Rattle.delta_code.specs.CodedView.{program_of};
ghost use Rattle.stations.specs.StationTree.{station_in, AreRegisters};
ghost use Rattle.learned_table.specs.StepTree.{step_of};
ghost use Rattle.step_learning.specs.IsLearned.{IsLearned};
ghost use Rattle.learned_runner.specs.Book.{At, IsTrue, stations_of};
ghost use Rattle.learned_runner.specs.Noting.{Grown, StandsThere};

use crate::book::{Book, Known};
use delta_code::Coded;
use event_word::Event;
use machine_parts::stop::Stop;
use stations::{Run, Station, Values, found_at, station_of};
use std::alloc::Global;
use step_learning::{finish, learn};
use stream_type::Memory;
use template_state::held_events;

/// The most stations of a book, the most steps, and the most steps of one station.
const STATIONS: usize = 256;

const STEPS: usize = 2_048;

const STEPS_OF_ONE: usize = 16;

/// The most events that a state may hold for it to be noted.
const HELD: u64 = 16;

/// Learns the step that the machine made of this event from a station with these registers, and answers the station at
/// which the machine stands now, with its registers, if there is one. What is told by an error, as want of memory, is
/// only that less was noted.
pub fn note(
    alloc: Global,
    machine: &Coded,
    book: &mut Book,
    from: Option<usize>,
    values: &Values,
    event: &Event,
) -> Result<Option<(usize, Values)>, Memory>
    requires { machine.now.budget ≤ 1000000 }
    ensures book { IsTrue (program_of machine.now) machine.now.budget book.old → IsTrue (program_of machine.now) machine.now.budget book.new }
    ensures stands { IfOk result (λ r. IfSome r (λ r. StandsThere (stations_of book.new) r.0 r.1 (state_in machine.now.state.value)
        (awaited_in machine.now.awaited.value) (type_of machine.now.input.value) (type_of machine.now.output.value))) }
{
    if held_events(&machine.state) > HELD {
        return Ok(None);
    }
    if let Some(from) = from {
        match note_step(alloc, machine, book, from, values, event) {
            Ok(()) => {}
            Err(_) => {}
        }
    }
    let run = Run {
        state: &machine.state,
        awaited: &machine.awaited,
        input: &machine.input,
        output: &machine.output,
    };
    place(alloc, book, &run)
}

// Learns the step from this station on the event, with these registers, and puts it into the book.
fn note_step(
    alloc: Global,
    machine: &Coded,
    book: &mut Book,
    from: usize,
    values: &Values,
    event: &Event,
) -> Result<(), Stop>
    requires { machine.now.budget ≤ 1000000 }
    ensures { IsTrue (program_of machine.now) machine.now.budget book.old → IsTrue (program_of machine.now) machine.now.budget book.new }
{
    if !has_room(book, from) {
        return Ok(());
    }
    let Some(station) = book.stations.get(from) else {
        return Ok(());
    };
    if !are_registers(station, values) {
        return Ok(());
    }
    let learned = learn(
        alloc,
        &machine.code,
        station,
        &values.numbers,
        &values.depths,
        event,
        machine.budget,
    )?;
    let Some(learning) = learned else {
        return Ok(());
    };
    let Some((to, left)) = place(alloc, book, &learning.left.lent())? else {
        return Ok(());
    };
    let step = finish(learning, left);
    Ok(put(book, Known { from, to, step })?)
}

// Whether these are registers of the station.
fn are_registers(station: &Station, values: &Values) -> bool
    ensures { result ≡ true → AreRegisters (station_in station.now) values.now.numbers.items values.now.depths.items }
{
    station.keys.len() == values.numbers.len()
        && station.depth_keys.len() == values.depths.len()
        && !values.numbers.is_empty()
        && !values.depths.is_empty()
}

// Whether another step of the station may be kept.
fn has_room(book: &Book, from: usize) -> bool {
    match book.of_station.get(from) {
        Some(steps) => steps.len() < STEPS_OF_ONE && book.steps.len() < STEPS,
        None => false,
    }
}

// Puts a step into the book.
fn put(book: &mut Book, known: Known) -> Result<(), Memory>
    ensures { (c : CoreProgram) (budget : ℕ) → IsTrue c budget book.old
        → At (stations_of book.old) known.from (λ a. At (stations_of book.old) known.to (λ b. IsLearned c budget a b (step_of known.step)))
        → IsTrue c budget book.new }
{
    let from = known.from;
    let place = book.steps.len();
    book.steps.push(known)?;
    if let Some(steps) = book.of_station.get_mut(from) {
        steps.push(place)?;
    }
    Ok(())
}

// The station at which a run stands, which is made where there is none and not too many are there.
fn place(alloc: Global, book: &mut Book, run: &Run<'_>) -> Result<Option<(usize, Values)>, Memory>
    ensures grown { Grown book.old book.new }
    ensures stands { IfOk result (λ r. IfSome r (λ r. StandsThere (stations_of book.new) r.0 r.1 (state_in run.now.state.now) (awaited_in run.now.awaited.now) (type_of run.now.input.now) (type_of run.now.output.now))) }
{
    if let Some(found) = search(alloc, &book.stations, run)? {
        return Ok(Some(found));
    }
    let number = book.stations.len();
    if number >= STATIONS {
        return Ok(None);
    }
    let Some((station, values)) = station_of(alloc, run)? else {
        return Ok(None);
    };
    book.stations.push(station)?;
    book.of_station.push(Vec::new(alloc))?;
    Ok(Some((number, values)))
}

// The first of these stations at which a run stands, with its registers.
fn search(
    alloc: Global,
    stations: &[Station],
    run: &Run<'_>,
) -> Result<Option<(usize, Values)>, Memory>
    ensures { IfOk result (λ r. IfSome r (λ r. StandsThere (map station_in stations.now) r.0 r.1 (state_in run.now.state.now) (awaited_in run.now.awaited.now) (type_of run.now.input.now) (type_of run.now.output.now))) }
{
    for number in 0..stations.len() {
        if let Some(values) = found_at(alloc, &stations[number], run)? {
            return Ok(Some((number, values)));
        }
    }
    Ok(None)
}
