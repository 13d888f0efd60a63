//! What a runner owes that can be begun for any checked program.

ghost use Rattle.std.specs.Prelude.{◌≤◌, Some, IsTrue, IfOk, IsErrOf};
ghost use Rattle.stream_type.specs.StreamType.{reach_of};
ghost use Rattle.core_term.specs.CoreTerm.{core_of, fits_of};
ghost use Rattle.event_frame.specs.Frames.{longest};
ghost use Rattle.delta_loop.specs.declared.stopping.Stop.{Stop};
ghost use Rattle.delta_loop.specs.Stopping.{StopsFor};
ghost use Rattle.delta_loop.specs.Meaning.{HasBegun};
ghost use Rattle.delta_output.specs.LoopMeaning.{meaning_of};
ghost use Rattle.delta_session.specs.Programs.{one_shot};

use crate::runner::{self, BeginFault, Runner};
use core_term::Checked;
use delta_loop::Stepper;
use delta_state::Machine;
use event_frame::Version;
use std::alloc::Global;

/// A program of the loop that can be begun for any checked program. It stands for that program before any event, and
/// how it runs it is its own.
pub trait Begins: Stepper {
    /// Starts a program: its runner before any event, and the frames that come first. The program may make so many
    /// calls before any event, and again at each event. Its only errors are want of memory, and that the program is
    /// stopped before any event.
    fn begin(
        alloc: Global,
        c: &Checked,
        budget: u64,
        version: Version,
    ) -> Result<(Self, Vec<u8>), BeginFault>
        requires fits { IsTrue (fits_of (core_of c.now)) }
        requires budget { budget ≤ 1000000 }
        requires short { reach_of (core_of c.now).main.result ≤ longest version }
        ensures begun { IfOk result (λ r. HasBegun Self.stands (meaning_of version budget (one_shot (core_of c.now))) r.0 (Some version) r.1.items) }
        ensures stopped { (why : Stop) → IsErrOf result (BeginFault.Stopped why) → StopsFor (meaning_of version budget (one_shot (core_of c.now))) why };
}

impl<M: Machine> Begins for Runner<M> {
    fn begin(
        alloc: Global,
        c: &Checked,
        budget: u64,
        version: Version,
    ) -> Result<(Runner<M>, Vec<u8>), BeginFault> {
        runner::begin::<M>(alloc, c, budget, version)
    }
}
