//! Orders of names.

ghost use Rattle.std.specs.Prelude.{◌≡◌, false, IsTrue, [], ◌∷◌, ◌++◌, IfOk, OnOk, OnErr};
ghost use Rattle.bunch.specs.Names.{numbers_of, holds};
ghost use Rattle.bunch.specs.BunchTree.{tree_of, leaf_names, stands_before};
ghost use Rattle.bunch.specs.Facts.{among, place_like, place_let, put_before};
ghost use Rattle.bunch.specs.NameOrder.{facts_of};

use crate::bunch::Bunch;
use crate::name::Name;
use crate::placing::{afters_let, afters_like, befores_let, befores_like};
use crate::reading::names;
use crate::table::{copy_rows, fact, grown, place_of, put_fact, rows_of, with_name};
use std::alloc::Global;
use std::marker::Model;
use stream_type::Memory;

/// A set of names and facts "x before y" of them. Contracts see it as a `NameOrder`, whose facts are
/// `facts_of` (`specs/NameOrder.antt`).
#[derive(Drop)]
pub struct Order {
    names: Vec<Name>,
    // Whether the name of the row stands before each of the names in turn.
    rows: Vec<Vec<bool>>,
}

impl Model for Order {
    ghost use Rattle.bunch.specs.NameOrder.{NameOrder};

    ghost Value = { NameOrder };

    ghost use Rattle.bunch.specs.Orders.{name_order_of, HasAllFacts};

    ghost view = { name_order_of };

    ghost invariant = { HasAllFacts };
}

impl Order {
    /// The order of a bunch: its names, and as facts `stands_before` of `specs/BunchTree.antt`. Its
    /// only error is want of memory.
    pub fn of_bunch(alloc: Global, b: &Bunch) -> Result<Order, Memory>
        ensures names { IfOk result (λ o. o.names ≡ leaf_names (tree_of b.now)) }
        ensures facts { IfOk result (λ o. facts_of o ≡ stands_before (tree_of b.now)) }
    {
        let names = names(alloc, b)?;
        let rows = rows_of(alloc, b, &names)?;
        Ok(Order { names, rows })
    }

    /// An equal order, by the allocator of this one. Its only error is want of memory.
    pub fn copy(&self) -> Result<Order, Memory>
        ensures { IfOk result (λ o. o ≡ self.now) }
    {
        let alloc = *self.names.allocator();
        let names = self.names.to_vec(alloc)?;
        let rows = copy_rows(alloc, &self.rows)?;
        Ok(Order { names, rows })
    }

    /// Whether the name is there.
    pub fn has(&self, x: Name) -> bool
        ensures { result ≡ holds x.0 self.now.names }
    {
        place_of(&self.names, x) < self.names.len()
    }

    /// Whether `x` stands before `y`. A name that isn't there stands before none, and none stands
    /// before it.
    pub fn before(&self, x: Name, y: Name) -> bool
        ensures { result ≡ facts_of self.now x.0 y.0 }
    {
        fact(&self.names, &self.rows, x, y)
    }

    /// Adds the name `x`, which isn't there yet, with the facts of `z` on each other name, and none
    /// between `x` and `z`: `place_like` in `specs/Facts.antt`. Its only error is want of memory,
    /// after which the order is as it was.
    pub fn place_like(&mut self, z: Name, x: Name) -> Result<(), Memory>
        requires { holds x.0 self.old.names ≡ false }
        ensures names { OnOk result (self.new.names ≡ self.old.names ++ x.0 ∷ []) }
        ensures facts { OnOk result (facts_of self.new ≡ place_like x.0 z.0 (facts_of self.old)) }
        ensures err { OnErr result (self.new ≡ self.old) }
    {
        *self = self.with_like(z, x)?;
        Ok(())
    }

    // One more order, with x placed like z.
    fn with_like(&self, z: Name, x: Name) -> Result<Order, Memory>
        requires { holds x.0 self.now.names ≡ false }
        ensures names { IfOk result (λ o. o.names ≡ self.now.names ++ x.0 ∷ []) }
        ensures facts { IfOk result (λ o. facts_of o ≡ place_like x.0 z.0 (facts_of self.now)) }
    {
        let alloc = *self.names.allocator();
        let befores = befores_like(alloc, &self.names, &self.rows, z)?;
        let afters = afters_like(alloc, &self.names, &self.rows, z)?;
        let names = with_name(alloc, &self.names, x)?;
        let rows = grown(alloc, &self.rows, &befores, &afters)?;
        Ok(Order { names, rows })
    }

    /// Adds the name `x`, which isn't there yet, bound to something with these free names: `place_let`
    /// in `specs/Facts.antt`, between the names of the order. Another name stands before `x` where
    /// `inert` is true and that name stands before each of `free`, and `x` before another name where
    /// each of `free` stands before that one. So with no free name `x` stands before every other
    /// name, and after every other where `inert` is true. Its only error is want of memory, after
    /// which the order is as it was.
    pub fn place_let(&mut self, x: Name, free: &[Name], inert: bool) -> Result<(), Memory>
        requires { holds x.0 self.old.names ≡ false }
        ensures names { OnOk result (self.new.names ≡ self.old.names ++ x.0 ∷ []) }
        ensures facts { OnOk result (facts_of self.new
            ≡ among self.new.names (place_let x.0 (numbers_of free.now) inert (facts_of self.old))) }
        ensures err { OnErr result (self.new ≡ self.old) }
    {
        *self = self.with_let(x, free, inert)?;
        Ok(())
    }

    // One more order, with x placed by the free names of what it is bound to.
    fn with_let(&self, x: Name, free: &[Name], inert: bool) -> Result<Order, Memory>
        requires { holds x.0 self.now.names ≡ false }
        ensures names { IfOk result (λ o. o.names ≡ self.now.names ++ x.0 ∷ []) }
        ensures facts { IfOk result (λ o. facts_of o
            ≡ among o.names (place_let x.0 (numbers_of free.now) inert (facts_of self.now))) }
    {
        let alloc = *self.names.allocator();
        let befores = befores_let(alloc, &self.names, &self.rows, free, inert)?;
        let afters = afters_let(alloc, &self.names, &self.rows, free)?;
        let names = with_name(alloc, &self.names, x)?;
        let rows = grown(alloc, &self.rows, &befores, &afters)?;
        Ok(Order { names, rows })
    }

    /// Adds one fact, `x` before `y`, of two names that are there: `put_before` in
    /// `specs/Facts.antt`. It takes no memory.
    pub fn put_before(&mut self, x: Name, y: Name)
        requires first { IsTrue (holds x.0 self.old.names) }
        requires second { IsTrue (holds y.0 self.old.names) }
        ensures names { self.new.names ≡ self.old.names }
        ensures facts { facts_of self.new ≡ put_before x.0 y.0 (facts_of self.old) }
    {
        put_fact(&self.names, &mut self.rows, x, y);
    }
}
