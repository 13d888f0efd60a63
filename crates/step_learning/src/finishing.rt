//! A learned step, once it is known at which station it ends.

ghost use Rattle.std.specs.Prelude.{ℕ};
ghost use Rattle.core_term.specs.CoreTerm.{CoreProgram};
ghost use Rattle.learned_table.specs.StepTree.{step_of};
ghost use Rattle.stations.specs.StationTree.{StationTree};
ghost use Rattle.stations.specs.Stands.{Stands};
ghost use Rattle.step_learning.specs.IsLearned.{IsLearned};
ghost use Rattle.step_learning.specs.Learns.{Learns};

use crate::learning::Learning;
use learned_table::LearnedStep;
use stations::Values;

/// The step, which ends at a station where what it left stands with these numbers and depths. Where it was learned at
/// a station, in a program, it is a step from there to that station.
pub fn finish(learning: Learning, values: Values) -> LearnedStep
    ensures { (c : CoreProgram) (budget : ℕ) (from to : StationTree) → Learns c budget from (step_of learning.step) learning.left → Stands to learning.left values
        → IsLearned c budget from to (step_of result) }
{
    let Learning { step, left } = learning;
    drop(left);
    let LearnedStep {
        numbers,
        depths,
        event,
        asks,
        said,
        calls,
        numbers_left,
        depths_left,
    } = step;
    drop(numbers_left);
    drop(depths_left);
    LearnedStep {
        numbers,
        depths,
        event,
        asks,
        said,
        calls,
        numbers_left: values.numbers,
        depths_left: values.depths,
    }
}
