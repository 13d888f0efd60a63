//! A station made of where a run stands.

ghost use Rattle.std.specs.Prelude.{◌≡◌, IfOk, IfSome};
ghost use Rattle.template_state.specs.Readers.{state_in};
ghost use Rattle.state_shapes.specs.RegisterLists.{lists_in};
ghost use Rattle.stations.specs.StationTree.{station_in};
ghost use Rattle.stations.specs.Lies.{Lies};
ghost use Rattle.stations.specs.Stands.{StandsOn};

use crate::awaiting::copy_awaited;
use crate::laying::laid_on;
use crate::station::{Run, Standing, Station, Values};
use crate::unfolding::standing;
use machine_parts::boxes::copy_boxed;
use state_shapes::{Found, copy};
use std::alloc::Global;
use stream_type::Memory;

/// A station at which the run stands, and its registers: each number and each depth of its state is its own key. None
/// where the state doesn't lie on itself. Its only error is want of memory.
pub fn station_of(alloc: Global, run: &Run<'_>) -> Result<Option<(Station, Values)>, Memory>
    ensures { IfOk result (λ r. IfSome r (λ p. StandsOn (station_in p.0) run.now p.1)) }
{
    match laid_on(alloc, run.state, run.state) {
        Ok(Some(found)) => made_of(alloc, run, found),
        Ok(None) => Ok(None),
        Err(Memory) => Err(Memory),
    }
}

// The station with these keys.
fn made_of(alloc: Global, run: &Run<'_>, found: Found) -> Result<Option<(Station, Values)>, Memory>
    ensures { Lies (state_in run.now.state.now) (state_in run.now.state.now) (lists_in found) → IfOk result (λ r. IfSome r (λ p. StandsOn (station_in p.0) run.now p.1)) }
{
    let copies = standing(
        copy(alloc, run.state),
        copy_awaited(alloc, run.awaited),
        copy_boxed(alloc, run.input),
        copy_boxed(alloc, run.output),
    );
    match copies {
        Ok(copies) => Ok(Some(keyed(copies, found))),
        Err(Memory) => {
            drop(found);
            Err(Memory)
        }
    }
}

// What the run has in hand as a station with these keys, and what stands beside them.
fn keyed(run: Standing, found: Found) -> (Station, Values)
    ensures station { result.0 ≡ record { shape = run.state; keys = found.keys; depth_keys = found.depth_keys; awaited = run.awaited; input = run.input; output = run.output } }
    ensures values { result.1 ≡ record { numbers = found.numbers; depths = found.depths } }
{
    let Found {
        keys,
        numbers,
        depth_keys,
        depths,
    } = found;
    let Standing {
        state,
        awaited,
        input,
        output,
    } = run;
    let station = Station {
        shape: state,
        keys,
        depth_keys,
        awaited,
        input,
        output,
    };
    (station, Values { numbers, depths })
}
