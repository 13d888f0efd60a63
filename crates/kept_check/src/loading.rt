//! Kept states read from bytes, typed ones alone.

ghost use Rattle.std.specs.Prelude.{◌≡◌, ◌↔◌, ◌-◌, ◌*◌, ◌≤◌, ◌<◌, ◌^◌, length, map, IsTrue, IfOk, IfErr};
ghost use Rattle.stream_type.specs.StreamType.{type_of, size_of, reach_of};
ghost use Rattle.bunch.specs.BunchTree.{leaf_names};
ghost use Rattle.bunch.specs.Names.{numbers_of};
ghost use Rattle.core_term.specs.CoreTerm.{core_of};
ghost use Rattle.core_term.specs.FreeNames.{IsCore};
ghost use Rattle.core_term.specs.Params.{names_in, types_listed};
ghost use Rattle.delta_state.specs.Stands.{depth_after};
ghost use Rattle.kept_state.specs.KeptBytes.{kept_bytes};
ghost use Rattle.kept_state.specs.KeptSizes.{HasSizes};
ghost use Rattle.kept_state.specs.KeptPlace.{semi_count, IsPlace};
ghost use Rattle.kept_state.specs.KeptTyping.{IsTypedKept, IsPlaced, types_kept};
ghost use Rattle.delta_keep.specs.KeptView.{kept_of, places_kept};
ghost use Rattle.kept_check.specs.Judging.{IsJudge};
ghost use Rattle.kept_check.specs.Loading.{TellsKeepFault, RefusesNone, TellsForm, TellsTyped};
ghost use Rattle.kept_check.specs.Sizes.{IsSmall};

use crate::checking::check_state;
use crate::fault::KeepFault;
use crate::judge::Judge;
use crate::placing::{has_cuts, is_place, reaches};
use crate::stop::Stop;
use bunch::{Name, Order, names};
use core_term::{Checked, Core};
use delta_check::{Scope, inert_funs};
use delta_keep::{Kept, ReadFault, dismiss, read_kept};
use std::alloc::Global;
use stream_type::{Memory, Ty, copy, reach};

/// The typed kept state of the program with these bytes. They are refused exactly where they are those of
/// none: what is wrong with their form comes first, then the first state that isn't typed. Its other error
/// is want of memory.
pub fn load(alloc: Global, c: &Checked, bytes: &[u8]) -> Result<Kept, KeepFault>
    ensures bytes { IfOk result (λ k. bytes.now ≡ kept_bytes (kept_of k) (places_kept k)) }
    ensures typed { IfOk result (λ k. IsTypedKept (core_of c.now) (kept_of k)) }
    ensures sizes { IfOk result (λ k. HasSizes (kept_of k)) }
    ensures fault { TellsKeepFault (core_of c.now) bytes.now result }
    ensures untyped { IfErr result (λ e. RefusesNone (core_of c.now) bytes.now e) }
{
    let k = read(alloc, bytes)?;
    match first_untyped(alloc, c.core(), &k) {
        Ok(_) => Ok(k),
        Err(Stop::Memory) => {
            dismiss(k);
            Err(KeepFault::Memory)
        }
        Err(Stop::At(number)) => {
            dismiss(k);
            Err(KeepFault::Untyped(number))
        }
    }
}

// The kept state with these bytes, typed or not.
fn read(alloc: Global, bytes: &[u8]) -> Result<Kept, KeepFault>
    ensures bytes { IfOk result (λ k. bytes.now ≡ kept_bytes (kept_of k) (places_kept k)) }
    ensures sizes { IfOk result (λ k. HasSizes (kept_of k)) }
    ensures form { TellsForm bytes.now result }
    ensures small { IfOk result (λ k. IsSmall (kept_of k)) }
{
    match read_kept(alloc, bytes) {
        Ok(k) => Ok(k),
        Err(ReadFault::Memory) => Err(KeepFault::Memory),
        Err(ReadFault::Form(at)) => Err(KeepFault::Form(at)),
        Err(ReadFault::Version(n)) => Err(KeepFault::Version(n)),
    }
}

// Finds the first state of a kept state that isn't typed for the program, and else how many it has. Its other
// error is want of memory.
fn first_untyped(alloc: Global, c: &Core, k: &Kept) -> Result<u32, Stop>
    requires core { IsCore (core_of c.now) }
    requires small { IsSmall (kept_of k.now) }
    ensures { TellsTyped (core_of c.now) k.now result }
{
    match names(alloc, &c.main.params) {
        Ok(params) => {
            let mut params = params;
            let told = first_among(alloc, c, k, &mut params);
            drop(params);
            told
        }
        Err(_) => Err(Stop::Memory),
    }
}

// The same, where these are the names of main's parameters.
fn first_among(alloc: Global, c: &Core, k: &Kept, params: &mut Vec<Name>) -> Result<u32, Stop>
    requires core { IsCore (core_of c.now) }
    requires small { IsSmall (kept_of k.now) }
    requires params { numbers_of params.old.items ≡ leaf_names (core_of c.now).main.params }
    ensures { TellsTyped (core_of c.now) k.now result }
{
    if params.len() != k.ins.len() {
        return Err(Stop::At(0));
    }
    match types_left(alloc, params, &k.ins) {
        Ok(left) => {
            let told = first_in_place(alloc, c, k, &left, params);
            drop(left);
            told
        }
        Err(_) => Err(Stop::Memory),
    }
}

// The same, where these are the types that are left of them.
fn first_in_place(
    alloc: Global,
    c: &Core,
    k: &Kept,
    left: &[(Name, Ty)],
    params: &mut Vec<Name>,
) -> Result<u32, Stop>
    requires core { IsCore (core_of c.now) }
    requires small { IsSmall (kept_of k.now) }
    requires names { names_in left.now ≡ leaf_names (core_of c.now).main.params }
    requires types { types_listed left.now ≡ map type_of k.now.ins.items }
    requires params { numbers_of params.old.items ≡ leaf_names (core_of c.now).main.params }
    ensures { TellsTyped (core_of c.now) k.now result }
{
    if !is_placed(c, k, left) {
        return Err(Stop::At(0));
    }
    match inert_funs(alloc, c) {
        Ok(marks) => {
            let judge = Judge {
                alloc,
                program: c,
                marks: &marks,
                depth: depth_after(k.events),
            };
            let told = first_judged(&judge, k, left, params);
            drop(marks);
            told
        }
        Err(_) => Err(Stop::Memory),
    }
}

// The names with the types that are left of them, in turn.
fn types_left(alloc: Global, names: &[Name], ins: &[Ty]) -> Result<Vec<(Name, Ty)>, Memory>
    requires { length ins.now ≡ length names.now }
    ensures names { IfOk result (λ v. names_in v.items ≡ numbers_of names.now) }
    ensures types { IfOk result (λ v. types_listed v.items ≡ map type_of ins.now) }
{
    let mut types = Vec::new(alloc);
    for (i, t) in ins.iter().enumerate() {
        types.push((names[i], copy(alloc, t)?))?;
    }
    Ok(types)
}

// Whether some input may have led to the kept state, as far as its numbers, types and marks tell.
fn is_placed(c: &Core, k: &Kept, left: &[(Name, Ty)]) -> bool
    requires small { size_of (type_of k.now.out.value) < 2 ^ 32 }
    requires names { names_in left.now ≡ leaf_names (core_of c.now).main.params }
    requires types { types_listed left.now ≡ map type_of k.now.ins.items }
    ensures { IsTrue result ↔ IsPlaced (core_of c.now) (kept_of k.now) }
{
    is_within(c, k) && fits_input(c, k, left)
}

// How many events may have been taken: 2^41.
const MOST_EVENTS: u64 = 2_199_023_255_552;

// Whether there were few events enough, and what is left of the output reaches no farther than the result.
fn is_within(c: &Core, k: &Kept) -> bool
    requires { size_of (type_of k.now.out.value) < 2 ^ 32 }
    ensures { IsTrue result ↔ ((k.now.events ≤ 2 ^ 41) × (reach_of (type_of k.now.out.value) ≤ reach_of (core_of c.now).main.result)) }
{
    k.events <= MOST_EVENTS && reaches(&c.main.result, reach(&k.out))
}

// Whether there is a mark for each semicolon, and these fit to the types that are left.
fn fits_input(c: &Core, k: &Kept, left: &[(Name, Ty)]) -> bool
    requires names { names_in left.now ≡ leaf_names (core_of c.now).main.params }
    requires types { types_listed left.now ≡ map type_of k.now.ins.items }
    ensures { IsTrue result ↔ ((length k.now.cuts.items ≡ semi_count (core_of c.now).main.params)
        × IsPlace (core_of c.now).main.params (types_kept (core_of c.now) (kept_of k.now)) k.now.cuts.items) }
{
    let cuts: &[bool] = &k.cuts;
    has_cuts(&c.main.params, cuts) && is_place(&c.main.params, left, cuts)
}

// The same, where it stands in some place of the input.
fn first_judged(
    judge: &Judge<'_>,
    k: &Kept,
    left: &[(Name, Ty)],
    params: &mut Vec<Name>,
) -> Result<u32, Stop>
    requires core { IsCore (core_of judge.now.program.now) }
    requires judge { IsJudge judge.now }
    requires depth { judge.now.depth ≡ depth_after k.now.events }
    requires small { IsSmall (kept_of k.now) }
    requires placed { IsPlaced (core_of judge.now.program.now) (kept_of k.now) }
    requires names { names_in left.now ≡ leaf_names (core_of judge.now.program.now).main.params }
    requires types { types_listed left.now ≡ map type_of k.now.ins.items }
    requires params { numbers_of params.old.items ≡ leaf_names (core_of judge.now.program.now).main.params }
    ensures { TellsTyped (core_of judge.now.program.now) k.now result }
{
    match Order::of_bunch(judge.alloc, &judge.program.main.params) {
        Ok(order) => {
            let scope = Scope::Given(left, &order);
            let told = check_state(judge, &k.state, &k.out, &scope, params, 0);
            drop(order);
            told
        }
        Err(_) => Err(Stop::Memory),
    }
}

// The depth that is left after so many events.
fn depth_after(events: u64) -> u64
    requires { events ≤ 2 ^ 41 }
    ensures { result ≡ depth_after events }
{
    ((1 << 42) - events) * 1_000_000
}
