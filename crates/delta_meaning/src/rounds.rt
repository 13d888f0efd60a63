//! The run of an expression in rounds, so that few calls stand inside one another on the stack.
//!
//! A call that too many stand round is put off: what met it stops, and it is made in a round of its own.
//! Then what stopped is begun once more, and finds there what the call gave. Of what is begun once more
//! each call is made in a round of its own, so that none is made again for a later one that is put off.

ghost use Rattle.std.specs.Prelude.{◌≡◌, ◌<◌, ◌≤◌, ℕ, All, IfOk, OnOk, IfErr, IfSome};
ghost use Rattle.stream_type.specs.StreamType.{type_of};
ghost use Rattle.delta_tree.specs.Tree.{expression_of};
ghost use Rattle.delta_meaning.specs.SourceBody.{SourceBody};
ghost use Rattle.delta_meaning.specs.Evaluated.{run_of};
ghost use Rattle.delta_meaning.specs.Functions.{functions_at, run_at};
ghost use Rattle.delta_meaning.specs.CallRuns.{given, IsRight, IsAmong, StopsAmong, IsUnderWay};

use crate::calls::{Answer, Call};
use crate::evaluated::Evaluated;
use crate::evaluation::{evaluate, evaluate_body};
use crate::functions::Place;
use crate::pause::Pause;
use crate::refusal::Stop;
use crate::scope::Scope;
use delta_tree::Exp;
use std::alloc::Global;
use stream_type::Ty;

/// How many calls stand inside one another on the stack at most.
const NEAR: u64 = 32;

/// A call that was put off.
#[derive(Drop)]
pub struct Waiting {
    /// The call.
    pub call: Call,
    /// How many calls may stand inside one another on the stack where it is begun, itself counted.
    pub near: u64,
    /// Whether it was begun before.
    pub is_begun: bool,
}

/// What rounds hand on.
#[derive(Drop)]
pub struct Rounds {
    /// Whether the whole was begun before.
    pub is_begun: bool,
    /// The calls that were put off, of which each but the first was met by the one before it.
    pub waiting: Vec<Waiting>,
    /// The calls that were made in rounds of their own.
    pub answers: Vec<Answer>,
}

/// The run of an expression at its place, in its scope, with its expected type, where it makes at most as
/// many calls as are left: `source_run` in `specs/SourceMeaning.antt`. It is `Spent` only where it makes
/// more. Its other error is want of memory. Each round makes a call or puts one off; more rounds than 64
/// bits can count would be want of memory.
pub fn evaluate_in_rounds<'a>(
    alloc: Global,
    place: &Place<'_>,
    scope: &'a Scope<'a>,
    e: &Exp,
    ty: &Ty,
    left: u64,
) -> Result<Evaluated, Stop>
    requires { left < place.now.depth }
    ensures run { IfOk result (λ a. run_of a ≡ run_at place.now scope.now (expression_of e.now) (type_of ty.now)) }
    ensures counted { IfOk result (λ a. a.calls ≤ left) }
    ensures spent { IfErr result (λ s. s ≡ Stop.Spent → left < (run_at place.now scope.now (expression_of e.now) (type_of ty.now)).calls) }
{
    let mut rounds = Rounds {
        is_begun: false,
        waiting: Vec::new(alloc),
        answers: Vec::new(alloc),
    };
    for _ in 0..u64::MAX {
        if let Some(run) = one_round(alloc, place, scope, e, ty, left, &mut rounds)? {
            return Ok(run);
        }
    }
    Err(Stop::Memory)
}

// A round for the call that was put off last, or else for the whole, whose run it then may give.
fn one_round<'a>(
    alloc: Global,
    place: &Place<'_>,
    scope: &'a Scope<'a>,
    e: &Exp,
    ty: &Ty,
    left: u64,
    rounds: &mut Rounds,
) -> Result<Option<Evaluated>, Stop>
    requires room { left < place.now.depth }
    requires before { IsUnderWay (functions_at place.now) left (run_at place.now scope.now (expression_of e.now) (type_of ty.now)).calls rounds.old }
    ensures after { OnOk result (IsUnderWay (functions_at place.now) left (run_at place.now scope.now (expression_of e.now) (type_of ty.now)).calls rounds.new) }
    ensures run { IfOk result (λ o. IfSome o (λ a. run_of a ≡ run_at place.now scope.now (expression_of e.now) (type_of ty.now))) }
    ensures counted { IfOk result (λ o. IfSome o (λ a. a.calls ≤ left)) }
    ensures spent { IfErr result (λ s. s ≡ Stop.Spent → left < (run_at place.now scope.now (expression_of e.now) (type_of ty.now)).calls) }
{
    match rounds.waiting.pop() {
        Some(waiting) => {
            make(alloc, place, waiting, rounds)?;
            Ok(None)
        }
        None => whole(alloc, place, scope, e, ty, left, rounds),
    }
}

// A round for the whole.
fn whole<'a>(
    alloc: Global,
    place: &Place<'_>,
    scope: &'a Scope<'a>,
    e: &Exp,
    ty: &Ty,
    left: u64,
    rounds: &mut Rounds,
) -> Result<Option<Evaluated>, Stop>
    requires room { left < place.now.depth }
    requires before { IsUnderWay (functions_at place.now) left (run_at place.now scope.now (expression_of e.now) (type_of ty.now)).calls rounds.old }
    ensures after { OnOk result (IsUnderWay (functions_at place.now) left (run_at place.now scope.now (expression_of e.now) (type_of ty.now)).calls rounds.new) }
    ensures run { IfOk result (λ o. IfSome o (λ a. run_of a ≡ run_at place.now scope.now (expression_of e.now) (type_of ty.now))) }
    ensures counted { IfOk result (λ o. IfSome o (λ a. a.calls ≤ left)) }
    ensures spent { IfErr result (λ s. s ≡ Stop.Spent → left < (run_at place.now scope.now (expression_of e.now) (type_of ty.now)).calls) }
{
    let near = if rounds.is_begun { 0 } else { NEAR };
    match begin(alloc, place, scope, e, ty, left, near, &rounds.answers) {
        Ok(run) => Ok(Some(run)),
        Err(Pause::Memory) => Err(Stop::Memory),
        Err(Pause::PutOff(call)) => {
            rounds.is_begun = true;
            put_off(Box::into_inner(call), NEAR, rounds)?;
            Ok(None)
        }
    }
}

// The run of the whole, where so many calls may stand inside one another on the stack.
fn begin<'a>(
    alloc: Global,
    place: &Place<'_>,
    scope: &'a Scope<'a>,
    e: &Exp,
    ty: &Ty,
    left: u64,
    near: u64,
    answers: &[Answer],
) -> Result<Evaluated, Pause>
    requires room { left < place.now.depth }
    requires answers { All (IsRight (functions_at place.now)) answers.now }
    ensures run { IfOk result (λ a. run_of a ≡ run_at place.now scope.now (expression_of e.now) (type_of ty.now)) }
    ensures counted { IfOk result (λ a. a.calls ≤ left) }
    ensures spent { IfErr result (λ s. StopsAmong (functions_at place.now) left (run_at place.now scope.now (expression_of e.now) (type_of ty.now)).calls s) }
{
    let inside = Place {
        functions: place.functions,
        known: place.known,
        depth: place.depth,
        near,
        answers,
    };
    evaluate(alloc, &inside, scope, e, ty, left)
}

// A round for a call.
fn make(alloc: Global, place: &Place<'_>, waiting: Waiting, rounds: &mut Rounds) -> Result<(), Stop>
    requires { All (IsRight (functions_at place.now)) rounds.old.answers.items }
    ensures after { (left calls : ℕ) → IsAmong (functions_at place.now) left calls waiting.call → IsUnderWay (functions_at place.now) left calls rounds.old → OnOk result (IsUnderWay (functions_at place.now) left calls rounds.new) }
    ensures spent { (left calls : ℕ) → IsAmong (functions_at place.now) left calls waiting.call → IfErr result (λ s. s ≡ Stop.Spent → left < calls) }
{
    let Waiting {
        call,
        near,
        is_begun,
    } = waiting;
    let on_stack = if is_begun { 1 } else { near };
    match begin_call(alloc, place, &call, on_stack, &rounds.answers) {
        Ok(run) => {
            rounds.answers.push(Answer { call, run })?;
            Ok(())
        }
        Err(Pause::Memory) => Err(Stop::Memory),
        Err(Pause::PutOff(inner)) => {
            let again = Waiting {
                call,
                near,
                is_begun: true,
            };
            rounds.waiting.push(again)?;
            put_off(Box::into_inner(inner), near_inside(near, is_begun), rounds)
        }
    }
}

// How many calls may stand inside one another where a call is begun that another one put off: where the
// other had been begun before, it is one of its own, else one that too many stood round.
fn near_inside(near: u64, is_begun: bool) -> u64 {
    if is_begun && near > 1 { near - 1 } else { NEAR }
}

// What a call gives, where so many calls may stand inside one another on the stack, itself counted.
fn begin_call(
    alloc: Global,
    place: &Place<'_>,
    call: &Call,
    near: u64,
    answers: &[Answer],
) -> Result<Evaluated, Pause>
    requires { All (IsRight (functions_at place.now)) answers.now }
    ensures run { IfOk result (λ a. run_of a ≡ given (functions_at place.now) call.now) }
    ensures spent { IfErr result (λ s. StopsAmong (functions_at place.now) call.now.left (given (functions_at place.now) call.now).calls s) }
{
    let inside = Place {
        functions: place.functions,
        known: place.known,
        depth: call.depth,
        near,
        answers,
    };
    evaluate_body(
        alloc,
        &inside,
        call.function,
        &call.values,
        &call.streams,
        call.left,
    )
}

// A call that the next round is for, or `Spent` where none is left for it.
fn put_off(call: Call, near: u64, rounds: &mut Rounds) -> Result<(), Stop>
    ensures after { (functions : ℕ → SourceBody) (left calls : ℕ) → IsAmong functions left calls call → IsUnderWay functions left calls rounds.old → OnOk result (IsUnderWay functions left calls rounds.new) }
    ensures spent { (functions : ℕ → SourceBody) (left calls : ℕ) → IsAmong functions left calls call → IfErr result (λ s. s ≡ Stop.Spent → left < calls) }
{
    if call.left == 0 {
        return Err(Stop::Spent);
    }
    let waiting = Waiting {
        call,
        near,
        is_begun: false,
    };
    rounds.waiting.push(waiting)?;
    Ok(())
}
