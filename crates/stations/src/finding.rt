//! Whether a run stands at a station.

ghost use Rattle.std.specs.Prelude.{◌≡◌, ◌↔◌, IfOk, IfSome, IsTrue};
ghost use Rattle.delta_state.specs.StateTree.{StateTree};
ghost use Rattle.template_state.specs.Readers.{state_in};
ghost use Rattle.state_shapes.specs.RegisterLists.{lists_in};
ghost use Rattle.stations.specs.StationTree.{station_in};
ghost use Rattle.stations.specs.Lies.{Lies};
ghost use Rattle.stations.specs.Stands.{IsAlike, Fills, StandsOn};

use crate::awaiting::same_awaited;
use crate::laying::laid_on;
use crate::station::{Run, Station, Values};
use state_shapes::Found;
use std::alloc::Global;
use stream_type::{Memory, same};

/// The registers with which the run stands at the station, where it is found there. Its only error is want of memory.
pub fn found_at(alloc: Global, station: &Station, run: &Run<'_>) -> Result<Option<Values>, Memory>
    ensures { IfOk result (λ r. IfSome r (StandsOn (station_in station.now) run.now)) }
{
    if !is_alike(station, run) {
        return Ok(None);
    }
    match laid_on(alloc, &station.shape, run.state) {
        Ok(Some(found)) => Ok(values_at(station, found)),
        Ok(None) => Ok(None),
        Err(Memory) => Err(Memory),
    }
}

// Whether all is alike but the state.
fn is_alike(station: &Station, run: &Run<'_>) -> bool
    ensures { IsTrue result ↔ IsAlike (station_in station.now) run.now }
{
    same(run.input, &station.input)
        && same(run.output, &station.output)
        && same_awaited(run.awaited, &station.awaited)
}

// What was found, where its keys are the station's.
fn values_at(station: &Station, found: Found) -> Option<Values>
    ensures { (state : StateTree) → Lies (state_in station.now.shape.value) state (lists_in found) → IfSome result (Fills (station_in station.now) state) }
{
    if found.keys == station.keys && found.depth_keys == station.depth_keys {
        Some(values_of(found))
    } else {
        drop(found);
        None
    }
}

// The values alone.
fn values_of(found: Found) -> Values
    ensures numbers { result.numbers ≡ found.numbers }
    ensures depths { result.depths ≡ found.depths }
{
    let Found {
        keys,
        numbers,
        depth_keys,
        depths,
    } = found;
    drop(keys);
    drop(depth_keys);
    Values { numbers, depths }
}
