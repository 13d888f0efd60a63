//! What is learned at a station that waits for a number, of which the code gives a sum.

ghost use Rattle.std.specs.Prelude.{◌≡◌, length, IfOk};

use bunch::{Bunch, Name};
use delta_code::nothing_known;
use event_word::{Event, Leaf};
use hist_value::{Expr, Op as Reckon, Value};
use learned_table::LearnedAsk;
use machine_parts::awaited::Awaited;
use machine_parts::entry::Entry;
use machine_parts::stop::Stop;
use stations::{Standing, Station};
use std::alloc::Global;
use std::rc::Rc;
use std::test::Fail;
use step_learning::{Learning, learn};
use stream_prefix::Prefix;
use stream_type::{Memory, Ty};
use template_state::{Code, Later, Live, Op, Template};

// the name of the input, on which the number comes
const INPUT: Name = Name(0);

const AMPLE: u64 = 100;

// A program without functions.
fn code(alloc: Global) -> Result<Code, Memory> {
    let funs = Vec::new(alloc);
    let main = Template {
        past: Vec::new(alloc),
        params: Bunch::Empty,
        result: Ty::Eps,
        body: Rc::new(alloc, Op::Eps)?,
    };
    Ok(Code { funs, main })
}

// `wait input in {input + 1}`, before anything came; the depth of its code is the key 7
fn waits(alloc: Global) -> Result<Box<Live>, Memory> {
    let name = Box::new(alloc, Expr::Var(INPUT))?;
    let one = Box::new(alloc, Expr::Lit(1))?;
    let code = Rc::new(alloc, Op::Past(Expr::Bin(Reckon::Add, name, one)))?;
    let past = nothing_known(alloc)?;
    let then = Later {
        code,
        past,
        depth: 7,
    };
    let mut held = Vec::new(alloc);
    held.push(Entry {
        name: INPUT,
        ty: Ty::Int,
        prefix: Prefix::IntEmp,
    })?;
    Ok(Box::new(alloc, Live::Wait(INPUT, Ty::Int, held, then))?)
}

/// The station, with one key for numbers, which nothing reads, and one for depths.
pub fn station(alloc: Global) -> Result<Station, Memory>
    ensures numbers { IfOk result (λ s. length s.keys.items ≡ 1) }
    ensures depths { IfOk result (λ s. length s.depth_keys.items ≡ 1) }
{
    let shape = waits(alloc)?;
    let awaited = Box::new(alloc, Awaited::Stream(INPUT, Ty::Int))?;
    let input = Box::new(alloc, Ty::Int)?;
    let output = Box::new(alloc, Ty::Int)?;
    let mut keys = Vec::new(alloc);
    keys.push(0)?;
    let mut depth_keys = Vec::new(alloc);
    depth_keys.push(7)?;
    Ok(Station {
        shape,
        keys,
        depth_keys,
        awaited,
        input,
        output,
    })
}

/// What is learned there of this event.
pub fn learned(alloc: Global, x: &Event) -> Result<Option<Learning>, Stop> {
    let station = station(alloc)?;
    let code = code(alloc)?;
    learn(alloc, &code, &station, &[5], &[20], x, AMPLE)
}

// Whether this alone is said.
fn says(said: &[Event], leaf: Leaf) -> bool {
    matches!(said, [x] if x.leaf() == leaf)
}

// Whether one expression is kept, with this value.
fn keeps(asks: &[LearnedAsk], n: i64) -> bool {
    matches!(asks, [LearnedAsk { value: Value::Int(m), .. }] if *m == n)
}

// Whether nothing comes any more, and nothing is said.
fn is_over(left: &Standing) -> bool {
    matches!(&*left.state, Live::Sink(_))
        && matches!(&*left.input, Ty::Eps)
        && matches!(&*left.output, Ty::Eps)
}

// Whether a step is learned that says this number, without a call, and is over then.
fn learns(alloc: Global, x: &Event, n: i64) -> Result<bool, Stop> {
    let Some(learning) = learned(alloc, x)? else {
        return Ok(false);
    };
    let step = &learning.step;
    let is_sum = says(&step.said, Leaf::Int(n)) && keeps(&step.asks, n) && step.calls == 0;
    Ok(is_sum && is_over(&learning.left))
}

// Whether none is learned.
fn learns_none(alloc: Global, x: &Event) -> Result<bool, Stop> {
    let learned = learned(alloc, x)?;
    Ok(learned.is_none())
}

#[test]
fn a_sum_is_learned(rt: HostRuntime) -> Result<(), Fail> {
    assert!(rt; learns(rt.alloc(), &Event::new(Leaf::Int(3)), 4)?);
    Ok(())
}

#[test]
fn an_event_that_is_not_admitted_is_not_learned(rt: HostRuntime) -> Result<(), Fail> {
    assert!(rt; learns_none(rt.alloc(), &Event::new(Leaf::One))?);
    Ok(())
}
