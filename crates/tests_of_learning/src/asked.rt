//! What a step asked, laid on other numbers: reckoned where it stands, or evaluated.

use bunch::Name;
use event_word::{Event, Leaf};
use hist_value::{Expr, Op, Value};
use learned_table::{LearnedAsk, LearnedStep, lay};
use state_shapes::{nothing, number_at};
use std::alloc::Global;
use std::test::Fail;
use stream_type::Memory;

// the register 5 and the event's number 3, as a pair
const BOTH: Name = Name(0);

// the register 5, alone in a list
const LIST: Name = Name(1);

// no entry has this name
const NONE: Name = Name(2);

// names that a fold binds
const SUM: Name = Name(3);

const ITEM: Name = Name(4);

// What was asked.
#[derive(Clone, Copy)]
enum Form {
    // something that is reckoned of both numbers
    OfBoth(Op),
    // both, the other way round
    Turned,
    // whether the sum of the list is less than 6
    SumIsSmall,
    // a name that stands for nothing
    Nothing,
}

// What was asked, the numbers that stand in the place of the register's and of the event's now, and the number that is
// found then for that which there was, or for the event's where that was none; none where the step isn't made again.
#[derive(Clone, Copy)]
struct Row {
    form: Form,
    register: i64,
    event: i64,
    found: Option<i64>,
}

const ROWS: &[Row] = &[
    Row {
        form: Form::OfBoth(Op::Less),
        register: 7,
        event: 2,
        found: Some(2),
    },
    Row {
        form: Form::OfBoth(Op::Less),
        register: 2,
        event: 7,
        found: None,
    },
    Row {
        form: Form::OfBoth(Op::Same),
        register: 1,
        event: 2,
        found: Some(2),
    },
    Row {
        form: Form::OfBoth(Op::Same),
        register: 2,
        event: 2,
        found: None,
    },
    Row {
        form: Form::OfBoth(Op::Add),
        register: 10,
        event: 20,
        found: Some(30),
    },
    Row {
        form: Form::OfBoth(Op::Sub),
        register: 10,
        event: 20,
        found: Some(-10),
    },
    Row {
        form: Form::OfBoth(Op::Mul),
        register: 10,
        event: 20,
        found: Some(200),
    },
    Row {
        form: Form::OfBoth(Op::Div),
        register: 10,
        event: 0,
        found: Some(0),
    },
    Row {
        form: Form::Turned,
        register: 10,
        event: 20,
        found: Some(20),
    },
    Row {
        form: Form::SumIsSmall,
        register: 4,
        event: 9,
        found: Some(9),
    },
    Row {
        form: Form::SumIsSmall,
        register: 9,
        event: 9,
        found: None,
    },
    Row {
        form: Form::Nothing,
        register: 1,
        event: 2,
        found: Some(2),
    },
];

// A name's expression.
fn named(alloc: Global, name: Name) -> Result<Box<Expr>, Memory> {
    Ok(Box::new(alloc, Expr::Var(name))?)
}

// The first of both numbers, and the second.
fn first(alloc: Global) -> Result<Box<Expr>, Memory> {
    Ok(Box::new(alloc, Expr::Fst(named(alloc, BOTH)?))?)
}

fn second(alloc: Global) -> Result<Box<Expr>, Memory> {
    Ok(Box::new(alloc, Expr::Snd(named(alloc, BOTH)?))?)
}

// Something of both.
fn of_both(alloc: Global, op: Op) -> Result<Expr, Memory> {
    let a = first(alloc)?;
    Ok(Expr::Bin(op, a, second(alloc)?))
}

fn turned(alloc: Global) -> Result<Expr, Memory> {
    let a = second(alloc)?;
    Ok(Expr::Pair(a, first(alloc)?))
}

// `fold list from 0 with sum, item . sum + item`
fn sum(alloc: Global) -> Result<Expr, Memory> {
    let so_far = named(alloc, SUM)?;
    let more = Box::new(alloc, Expr::Bin(Op::Add, so_far, named(alloc, ITEM)?))?;
    let zero = Box::new(alloc, Expr::Lit(0))?;
    Ok(Expr::Fold(named(alloc, LIST)?, zero, SUM, ITEM, more))
}

fn sum_is_small(alloc: Global) -> Result<Expr, Memory> {
    let six = Box::new(alloc, Expr::Lit(6))?;
    Ok(Expr::Bin(Op::Less, Box::new(alloc, sum(alloc)?)?, six))
}

fn expression(alloc: Global, form: Form) -> Result<Expr, Memory> {
    match form {
        Form::OfBoth(op) => of_both(alloc, op),
        Form::Turned => turned(alloc),
        Form::SumIsSmall => sum_is_small(alloc),
        Form::Nothing => Ok(Expr::Var(NONE)),
    }
}

// Two numbers as one value.
fn pair(alloc: Global, a: i64, b: i64) -> Result<Value, Memory> {
    let first = Box::new(alloc, Value::Int(a))?;
    Ok(Value::Pair(first, Box::new(alloc, Value::Int(b))?))
}

// The number that there was of 5 and 3, if it was one.
fn number(form: Form) -> Option<i64> {
    match form {
        Form::OfBoth(Op::Add) => Some(8),
        Form::OfBoth(Op::Sub) => Some(2),
        Form::OfBoth(Op::Mul) => Some(15),
        Form::OfBoth(Op::Div) => Some(1),
        _ => None,
    }
}

// The value that there was.
fn value(alloc: Global, form: Form) -> Result<Value, Memory> {
    match form {
        Form::OfBoth(Op::Less) => Ok(Value::Inr(Box::new(alloc, Value::Unit)?)),
        Form::OfBoth(Op::Same) => Ok(Value::Inr(Box::new(alloc, Value::Unit)?)),
        Form::OfBoth(_) => Ok(Value::Int(number(form).unwrap_or(0))),
        Form::Turned => pair(alloc, 3, 5),
        Form::SumIsSmall => Ok(Value::Inl(Box::new(alloc, Value::Unit)?)),
        Form::Nothing => Ok(Value::Unit),
    }
}

// What it saw.
fn past(alloc: Global) -> Result<Vec<(Name, Value)>, Memory> {
    let mut items = Vec::new(alloc);
    items.push(Value::Int(5))?;
    let mut past = Vec::new(alloc);
    past.push((BOTH, pair(alloc, 5, 3)?))?;
    past.push((LIST, Value::List(items)))?;
    Ok(past)
}

// A list of one thing.
fn one<T: Drop>(alloc: Global, x: T) -> Result<Vec<T>, Memory> {
    let mut list = Vec::new(alloc);
    list.push(x)?;
    Ok(list)
}

fn ask(alloc: Global, form: Form) -> Result<LearnedAsk, Memory> {
    let past = past(alloc)?;
    let value = value(alloc, form)?;
    Ok(LearnedAsk {
        expr: expression(alloc, form)?,
        past,
        value,
    })
}

// A step that asked this, and says and leaves nothing.
fn step(alloc: Global, form: Form) -> Result<LearnedStep, Memory> {
    let asks = one(alloc, ask(alloc, form)?)?;
    Ok(LearnedStep {
        numbers: one(alloc, 5)?,
        depths: Vec::new(alloc),
        event: Event::new(Leaf::Int(3)),
        asks,
        said: Vec::new(alloc),
        calls: 0,
        numbers_left: Vec::new(alloc),
        depths_left: Vec::new(alloc),
    })
}

// What is found, where the step is made again.
fn found(alloc: Global, row: &Row) -> Result<Option<i64>, Memory> {
    let step = step(alloc, row.form)?;
    let mut found = nothing(alloc);
    if !lay(
        alloc,
        &step,
        &[row.register],
        &Event::new(Leaf::Int(row.event)),
        &mut found,
    )? {
        return Ok(None);
    }
    let key = number(row.form).unwrap_or(3);
    Ok(Some(number_at(&found.keys, &found.numbers, key)))
}

// The first row that is wrong.
fn first_wrong(alloc: Global, rows: &[Row]) -> Result<Option<usize>, Memory> {
    for k in 0..rows.len() {
        if found(alloc, &rows[k])? != rows[k].found {
            return Ok(Some(k));
        }
    }
    Ok(None)
}

#[test]
fn asks_go_along_or_not(rt: HostRuntime) -> Result<(), Fail> {
    assert_eq!(rt; first_wrong(rt.alloc(), ROWS)?, None);
    Ok(())
}
