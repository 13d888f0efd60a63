//! What both machines say first, and what they tell of their state and their place.

ghost use Rattle.std.specs.Prelude.{IsTrue};
ghost use Rattle.core_term.specs.CoreTerm.{core_of, fits_of};

use checked_program::{accept, dismiss};
use core_term::{Checked, fits};
use delta_code::Coded;
use delta_state::{Machine, Place, State};
use delta_step::Tree;
use std::alloc::Global;
use std::test::Fail;
use stream_prefix::Prefix;
use stream_type::Ty;

const IN_TURN: &[u8] = b"main(x : Int; y : Int) : Int . Int = (x; y)";

// Whether a first number is awaited.
fn is_awaited(p: &Prefix) -> bool {
    match p {
        Prefix::CatFst(p) => matches!(**p, Prefix::IntEmp),
        _ => false,
    }
}

// Whether a machine says so of a program before any event.
fn says_awaited<M: Machine>(alloc: Global, checked: &Checked) -> Result<bool, Fail>
    requires { IsTrue (fits_of (core_of checked.now)) }
{
    let (machine, first) = M::start(alloc, checked, 0)?;
    drop(machine);
    Ok(is_awaited(&first))
}

// Whether both machines say so.
fn both_say_awaited(alloc: Global, checked: &Checked) -> Result<bool, Fail>
    requires { IsTrue (fits_of (core_of checked.now)) }
{
    Ok(says_awaited::<Coded>(alloc, checked)? && says_awaited::<Tree>(alloc, checked)?)
}

// The state and the place of a program before any event, by the compiled machine.
fn first_of_coded(alloc: Global, checked: &Checked) -> Result<(State, Place), Fail>
    requires { IsTrue (fits_of (core_of checked.now)) }
{
    let (machine, _first) = Coded::start(alloc, checked, 0)?;
    Ok(machine.to_state(alloc)?)
}

// The same by the plain one.
fn first_of_tree(alloc: Global, checked: &Checked) -> Result<(State, Place), Fail>
    requires { IsTrue (fits_of (core_of checked.now)) }
{
    let (machine, _first) = Tree::start(alloc, checked, 0)?;
    Ok(machine.to_state(alloc)?)
}

// Whether the first of two numbers is awaited at the top of the state, and no mark has come.
fn awaits_two(state: &State, place: &Place) -> bool {
    let in_turn = matches!(state, State::Cat(_, _));
    let numbers = matches!(place.ins.as_slice(), [Ty::Int, Ty::Int]);
    in_turn && numbers && place.cuts.as_slice() == [false].as_slice()
}

// Whether it is so where a machine told them.
fn told_awaits_two(told: Result<(State, Place), Fail>) -> Result<bool, Fail> {
    match told {
        Ok((state, place)) => Ok(awaits_two(&state, &place)),
        Err(fail) => Err(fail),
    }
}

// Whether the state and the place of the program with this core are so on both machines, and both say that the first is
// awaited.
fn begins_with_its_first(alloc: Global, checked: &Checked) -> Result<bool, Fail> {
    if !fits(checked.core()) {
        return Ok(false);
    }
    let coded = told_awaits_two(first_of_coded(alloc, checked))?;
    let tree = told_awaits_two(first_of_tree(alloc, checked))?;
    Ok(coded && tree && both_say_awaited(alloc, checked)?)
}

// Whether it is so for a pair in turn.
fn pair_begins_with_its_first(alloc: Global) -> Result<bool, Fail> {
    match accept(alloc, IN_TURN) {
        Ok(accepted) => {
            let found = begins_with_its_first(alloc, &accepted.checked);
            dismiss(accepted);
            found
        }
        Err(fault) => Err(fault.into()),
    }
}

#[test]
fn a_pair_in_turn_begins_with_its_first(rt: HostRuntime) -> Result<(), Fail> {
    assert!(rt; pair_begins_with_its_first(rt.alloc())?);
    Ok(())
}
