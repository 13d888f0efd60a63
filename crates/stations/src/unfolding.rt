//! What a run has in hand at a station.

ghost use Rattle.std.specs.Prelude.{◌≡◌, IfOk};
ghost use Rattle.stream_type.specs.StreamType.{StreamType, type_of};
ghost use Rattle.delta_state.specs.StateTree.{StateTree};
ghost use Rattle.machine_parts.specs.AwaitedTree.{AwaitedTree, awaited_in};
ghost use Rattle.template_state.specs.Readers.{state_in};
ghost use Rattle.filled_states.specs.Shape.{filled};
ghost use Rattle.stations.specs.StationTree.{station_in};
ghost use Rattle.stations.specs.Stands.{HasInHand, InHand};

use crate::awaiting::copy_awaited;
use crate::station::{Standing, Station, Values};
use machine_parts::awaited::Awaited;
use machine_parts::boxes::copy_boxed;
use machine_parts::results::pair;
use state_shapes::{Registers, fill};
use std::alloc::Global;
use stream_type::{Memory, Ty};
use template_state::Live;

/// What a run has in hand that stands at the station with these registers: the shape filled from them, and the rest as
/// it stands there. Its code is shared with the station. Its only error is want of memory.
pub fn unfold(alloc: Global, station: &Station, values: &Values) -> Result<Standing, Memory>
    ensures { IfOk result (InHand (station_in station.now) values.now) }
{
    let registers = Registers {
        keys: &station.keys,
        numbers: &values.numbers,
        depth_keys: &station.depth_keys,
        depths: &values.depths,
    };
    standing(
        fill(alloc, &station.shape, &registers),
        copy_awaited(alloc, &station.awaited),
        copy_boxed(alloc, &station.input),
        copy_boxed(alloc, &station.output),
    )
}

/// All that a run has in hand, where each part is there.
pub fn standing(
    state: Result<Box<Live>, Memory>,
    awaited: Result<Box<Awaited>, Memory>,
    input: Result<Box<Ty>, Memory>,
    output: Result<Box<Ty>, Memory>,
) -> Result<Standing, Memory>
    ensures { (s : StateTree) (a : AwaitedTree) (t r : StreamType)
        → IfOk state (λ b. state_in b.value ≡ s) → IfOk awaited (λ b. awaited_in b.value ≡ a) → IfOk input (λ b. type_of b.value ≡ t) → IfOk output (λ b. type_of b.value ≡ r)
        → IfOk result (HasInHand s a t r) }
{
    match pair(pair(state, awaited), pair(input, output)) {
        Ok(((state, awaited), (input, output))) => Ok(Standing {
            state,
            awaited,
            input,
            output,
        }),
        Err(Memory) => Err(Memory),
    }
}
