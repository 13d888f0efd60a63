//! Programs that were checked.

ghost use Rattle.std.specs.Prelude.{◌≡◌};
ghost use Rattle.stream_type.specs.StreamType.{type_of};
ghost use Rattle.bunch.specs.BunchTree.{as_type};
ghost use Rattle.core_term.specs.CoreTerm.{core_of};
ghost use Rattle.core_term.specs.FreeNames.{IsCore, HasFewNodes};
ghost use Rattle.core_term.specs.Typing.{IsTypedCore};

use crate::program::Core;
use std::marker::Model;
use stream_type::Ty;

/// A program that is typed, with the type of its input. Contracts see it as its program.
#[derive(Drop)]
pub struct Checked {
    core: Core,
    input: Ty,
}

impl Model for Checked {
    ghost use Rattle.std.specs.Coded.{codes};
    ghost use Rattle.stream_type.specs.contracts.ty.Ty as types;
    ghost use Rattle.bunch.specs.contracts.bunch.Bunch as bunches;
    ghost use Rattle.hist_value.specs.contracts.expr.Expr as exprs;
    ghost use Rattle.core_term.specs.contracts.term.Term as terms;
    ghost use Rattle.core_term.specs.declared.program.Core.{Core};

    ghost Value = { Core };

    ghost coded = { Prim.hlevel (codes, types.the_row.coded, bunches.the_row.coded, exprs.the_row.coded, terms.the_row.coded) };

    ghost use Rattle.core_term.specs.CheckedCores.{program_of, IsChecked};

    ghost view = { program_of };

    ghost invariant = { IsChecked };
}

impl Checked {
    /// A program that is typed (`IsTypedCore` in `specs/Typing.antt`), and the type of main's
    /// parameters. It takes no memory.
    pub fn of(c: Core, input: Ty) -> Checked
        requires core { IsCore (core_of c) }
        requires nodes { HasFewNodes (core_of c) }
        requires typed { IsTypedCore (core_of c) }
        requires input { type_of input ≡ as_type (core_of c).main.params }
        ensures { result ≡ c }
    {
        Checked { core: c, input }
    }

    /// The program.
    pub fn core(&self) -> &Core
        ensures program { result.now ≡ self.now }
        ensures core { IsCore (core_of result.now) }
        ensures nodes { HasFewNodes (core_of result.now) }
        ensures typed { IsTypedCore (core_of result.now) }
    {
        &self.core
    }

    /// The type of its input: that of main's parameters.
    pub fn input(&self) -> &Ty
        ensures { type_of result.now ≡ as_type (core_of self.now).main.params }
    {
        &self.input
    }

    /// The type of its output: main's result.
    pub fn output(&self) -> &Ty
        ensures { type_of result.now ≡ (core_of self.now).main.result }
    {
        &self.core.main.result
    }
}
