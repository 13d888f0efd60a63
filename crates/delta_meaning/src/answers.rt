//! Calls that aren't made where they are met: found among the answers, or put off.

ghost use Rattle.std.specs.Prelude.{◌≡◌, ◌<◌, ◌≤◌, ℕ, true, map, All, IfOk, IfErr, IfSome};
ghost use Rattle.stream_prefix.specs.Tree.{prefix_of};
ghost use Rattle.hist_value.specs.HistValue.{hist_value_of};
ghost use Rattle.delta_meaning.specs.SourceBody.{SourceBody};
ghost use Rattle.delta_meaning.specs.SourceMeaning.{source_call_at};
ghost use Rattle.delta_meaning.specs.Evaluated.{run_of};
ghost use Rattle.delta_meaning.specs.Functions.{functions_at, calls_at};
ghost use Rattle.delta_meaning.specs.CallRuns.{given, IsRight, StopsAmong};

use crate::calls::{Answer, Call};
use crate::evaluated::Evaluated;
use crate::functions::Place;
use crate::pause::Pause;
use crate::same::{are_same_prefixes, are_same_values};
use bunch::Name;
use hist_value::{Value, copy_value};
use std::alloc::Global;
use stream_prefix::Prefix;
use stream_type::Memory;

/// What a call gives, where it was made before; else it is put off. Its other error is want of memory.
pub fn answer_to(
    alloc: Global,
    place: &Place<'_>,
    f: Name,
    values: &[Value],
    streams: &[Prefix],
    left: u64,
) -> Result<Evaluated, Pause>
    requires room { left < place.now.depth }
    requires answers { All (IsRight (functions_at place.now)) place.now.answers.now }
    ensures run { IfOk result (λ r. run_of r ≡ calls_at place.now f.0 (map hist_value_of values.now) (map prefix_of streams.now)) }
    ensures counted { IfOk result (λ r. r.calls ≤ left) }
    ensures spent { IfErr result (λ s. StopsAmong (functions_at place.now) left (calls_at place.now f.0 (map hist_value_of values.now) (map prefix_of streams.now)).calls s) }
{
    match found(place.answers, place.depth, f, values, streams, left) {
        Some(run) => Ok(copy_run(alloc, run)?),
        None => Err(Pause::PutOff(boxed_call(alloc, place.depth, f, values, streams, left)?)),
    }
}

// What an answer says that a call gives, which makes no more calls than are left.
fn found<'a>(
    answers: &'a [Answer],
    depth: u64,
    f: Name,
    values: &[Value],
    streams: &[Prefix],
    left: u64,
) -> Option<&'a Evaluated>
    ensures right { (functions : ℕ → SourceBody) → All (IsRight functions) answers.now → IfSome result (λ r. run_of r.now ≡ source_call_at functions depth f.0 (map hist_value_of values.now) (map prefix_of streams.now)) }
    ensures counted { IfSome result (λ r. r.now.calls ≤ left) }
{
    for answer in answers {
        if answer.run.calls <= left && is_call(&answer.call, depth, f, values, streams, left) {
            return Some(&answer.run);
        }
    }
    None
}

// Whether a call is this one. Where other numbers of calls are left, it needn't be asked what else differs.
fn is_call(
    call: &Call,
    depth: u64,
    f: Name,
    values: &[Value],
    streams: &[Prefix],
    left: u64,
) -> bool
    ensures { result ≡ true → (functions : ℕ → SourceBody) → given functions call.now ≡ source_call_at functions depth f.0 (map hist_value_of values.now) (map prefix_of streams.now) }
{
    call.left == left
        && call.depth == depth
        && call.function.0 == f.0
        && are_same_values(&call.values, values)
        && are_same_prefixes(&call.streams, streams)
}

// The call in a box. Its only error is want of memory.
fn boxed_call(
    alloc: Global,
    depth: u64,
    f: Name,
    values: &[Value],
    streams: &[Prefix],
    left: u64,
) -> Result<Box<Call>, Memory>
    requires { left < depth }
    ensures call { IfOk result (λ c. (functions : ℕ → SourceBody) → given functions c.value ≡ source_call_at functions depth f.0 (map hist_value_of values.now) (map prefix_of streams.now)) }
    ensures left { IfOk result (λ c. c.value.left ≡ left) }
{
    let values = copy_values(alloc, values)?;
    let streams = copy_prefixes(alloc, streams)?;
    Ok(Box::new(
        alloc,
        Call {
            function: f,
            values,
            streams,
            depth,
            left,
        },
    )?)
}

// One more of each value.
fn copy_values(alloc: Global, values: &[Value]) -> Result<Vec<Value>, Memory>
    ensures { IfOk result (λ v. map hist_value_of v.items ≡ map hist_value_of values.now) }
{
    let mut copies = Vec::new(alloc);
    for v in values {
        copies.push(copy_value(alloc, v)?)?;
    }
    Ok(copies)
}

// One more of each prefix.
fn copy_prefixes(alloc: Global, prefixes: &[Prefix]) -> Result<Vec<Prefix>, Memory>
    ensures { IfOk result (λ v. map prefix_of v.items ≡ map prefix_of prefixes.now) }
{
    let mut copies = Vec::new(alloc);
    for p in prefixes {
        copies.push(stream_prefix::copy(alloc, p)?)?;
    }
    Ok(copies)
}

// One more of a run.
fn copy_run(alloc: Global, run: &Evaluated) -> Result<Evaluated, Memory>
    ensures run { IfOk result (λ r. run_of r ≡ run_of run.now) }
    ensures calls { IfOk result (λ r. r.calls ≡ run.now.calls) }
{
    Ok(Evaluated {
        output: stream_prefix::copy(alloc, &run.output)?,
        calls: run.calls,
        level: run.level,
    })
}
