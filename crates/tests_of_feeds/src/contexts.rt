//! A bunch and its order from one call to the next.

use bunch::{Bunch, Name, Order, as_type, before, copy, names};
use std::alloc::Global;
use std::test::Fail;
use stream_type::{Memory, Ty, cat, par, same};

// `0 : Int, (1 : 1; 2 : Int)`
fn sample(alloc: Global) -> Result<Bunch, Memory> {
    let first = Box::new(alloc, Bunch::Leaf(Name(1), Ty::One))?;
    let second = Box::new(alloc, Bunch::Leaf(Name(2), Ty::Int))?;
    let in_turn = Box::new(alloc, Bunch::Semi(first, second))?;
    let beside = Box::new(alloc, Bunch::Leaf(Name(0), Ty::Int))?;
    Ok(Bunch::Comma(beside, in_turn))
}

// A copy of it.
fn copied(alloc: Global) -> Result<Bunch, Memory> {
    let sample = sample(alloc)?;
    copy(alloc, &sample)
}

// Whether the type of a bunch is `Int || 1 . Int`.
fn has_sample_type(alloc: Global, bunch: &Bunch) -> Result<bool, Memory> {
    let found = as_type(alloc, bunch)?;
    let wanted = par(alloc, Ty::Int, cat(alloc, Ty::One, Ty::Int)?)?;
    Ok(same(&found, &wanted))
}

// Whether the names of a bunch are 0, 1 and 2.
fn has_sample_names(alloc: Global, bunch: &Bunch) -> Result<bool, Memory> {
    let found = names(alloc, bunch)?;
    Ok(found.as_slice() == [Name(0), Name(1), Name(2)].as_slice())
}

// Whether a copy of the sample has its type, its names and its order.
fn is_sample_copied(alloc: Global) -> Result<bool, Memory> {
    let bunch = copied(alloc)?;
    let in_turn = before(&bunch, Name(1), Name(2)) && !before(&bunch, Name(0), Name(1));
    Ok(in_turn && has_sample_type(alloc, &bunch)? && has_sample_names(alloc, &bunch)?)
}

#[test]
fn a_bunch_has_a_type_and_names(rt: HostRuntime) -> Result<(), Fail> {
    let same = is_sample_copied(rt.alloc())?;
    assert!(rt; same);
    Ok(())
}

// The order of the sample.
fn sample_order(alloc: Global) -> Result<Order, Memory> {
    let sample = sample(alloc)?;
    Order::of_bunch(alloc, &sample)
}

// Whether of the names of the sample 1 stands before 2 in an order, and no other before another.
fn has_sample_facts(order: &Order) -> bool {
    let mut all = true;
    for (x, y) in [(0, 1), (0, 2), (1, 0), (2, 0), (2, 1)] {
        all = all && !order.before(Name(x), Name(y));
    }
    all && order.before(Name(1), Name(2))
}

// Whether the name 3 can be placed like 1, and then stands before 2.
fn takes_a_name(order: &mut Order) -> Result<bool, Memory> {
    if order.has(Name(3)) {
        return Ok(false);
    }
    order.place_like(Name(1), Name(3))?;
    Ok(order.before(Name(3), Name(2)))
}

// Whether the name 3, which is there, can be put before 1.
fn takes_a_fact(order: &mut Order) -> bool {
    if !order.has(Name(3)) || !order.has(Name(1)) {
        return false;
    }
    order.put_before(Name(3), Name(1));
    order.before(Name(3), Name(1))
}

// Whether the name 4 can be bound to something with the free name 1.
fn takes_a_let(order: &mut Order) -> Result<bool, Memory> {
    if order.has(Name(4)) {
        return Ok(false);
    }
    order.place_let(Name(4), &[Name(1)], false)?;
    Ok(true)
}

// Whether an order has these names, and none of them before 4.
fn has_all(order: &Order, names: &[Name]) -> bool {
    let mut all = true;
    for name in names {
        all = all && order.has(*name) && !order.before(*name, Name(4));
    }
    all
}

// Whether a copy of an order has what was added.
fn is_copied(order: &Order) -> Result<bool, Memory> {
    let copied = order.copy()?;
    let added = copied.before(Name(4), Name(2)) && copied.before(Name(3), Name(1));
    Ok(added && has_all(&copied, &[Name(0), Name(1), Name(2), Name(3), Name(4)]))
}

// Whether the order of the sample takes each of these, and has them when copied.
fn takes_names_and_facts(alloc: Global) -> Result<bool, Memory> {
    let mut order = sample_order(alloc)?;
    let begins = has_sample_facts(&order) && has_sample_facts(&order.copy()?);
    let takes = takes_a_name(&mut order)? && takes_a_fact(&mut order) && takes_a_let(&mut order)?;
    Ok(begins && takes && is_copied(&order)?)
}

#[test]
fn an_order_takes_names_and_facts(rt: HostRuntime) -> Result<(), Fail> {
    let takes = takes_names_and_facts(rt.alloc())?;
    assert!(rt; takes);
    Ok(())
}
