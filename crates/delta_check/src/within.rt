//! The check of a term in a context.

ghost use Rattle.std.specs.Prelude.{◌≡◌, ◌<◌, ◌^◌, ℕ, IfOk, IfErr};
ghost use Rattle.stream_type.specs.StreamType.{type_of};
ghost use Rattle.bunch.specs.NameOrder.{facts_of};
ghost use Rattle.core_term.specs.CoreTerm.{term_of, places_of, core_of, node_count};
ghost use Rattle.core_term.specs.Inert.{is_inert_fun};
ghost use Rattle.core_term.specs.Typing.{HasType};
ghost use Rattle.delta_check.specs.Checking.{Denies, fault_within};
ghost use Rattle.delta_check.specs.Counting.{counts_in};
ghost use Rattle.delta_check.specs.Faults.{TellsFirst, TellsPlace};
ghost use Rattle.delta_check.specs.Scopes.{context_in, context_given, with_values};

use crate::checking::check_node;
use crate::fault::TypeFault;
use crate::inertness::inert_funs;
use crate::scope::Scope;
use bunch::{Name, Order};
use core_term::{Checked, Core, Node};
use hist_value::HTy;
use std::alloc::Global;
use stream_type::Ty;

/// Checks that a term, which may call a program's functions, has a type in a context: `past` are the
/// historical variables with the types of their values, `vars` the stream variables, and `order` says
/// which of these stand before which. Of entries for one name the first counts. A term is refused
/// exactly where it hasn't the type (`HasType` in the specs of core_term), as `check` refuses, with
/// nodes numbered from the term's own. Its other error is want of memory.
pub fn check_in(
    alloc: Global,
    c: &Checked,
    past: &[(Name, HTy)],
    vars: &[(Name, Ty)],
    order: &Order,
    n: &Node,
    r: &Ty,
) -> Result<(), TypeFault>
    requires { node_count (term_of n.now) < 2 ^ 32 }
    ensures typed { IfOk result (λ _. HasType (core_of c.now).funs (is_inert_fun (core_of c.now).funs) (with_values past.now (context_given vars.now (facts_of order.now))) (term_of n.now) (type_of r.now)) }
    ensures untyped { IfErr result (λ f. Denies f (HasType (core_of c.now).funs (is_inert_fun (core_of c.now).funs) (with_values past.now (context_given vars.now (facts_of order.now))) (term_of n.now) (type_of r.now))) }
    ensures first { IfErr result (λ f. TellsFirst f (fault_within (core_of c.now).funs (with_values past.now (context_given vars.now (facts_of order.now))) (term_of n.now) (type_of r.now))) }
    ensures place { IfErr result (λ f. TellsPlace f 0 (places_of n.now)) }
{
    let core = c.core();
    let marks = inert_funs(alloc, core)?;
    let streams = Scope::Given(vars, order);
    let scope = Scope::Valued(past, &streams);
    check_under(alloc, core, &marks, &scope, n, r)
}

/// The same in a scope, where `marks` are the functions that are inert, as `inert_funs` answers them.
pub fn check_under<'a>(
    alloc: Global,
    c: &Core,
    marks: &[bool],
    scope: &'a Scope<'a>,
    n: &Node,
    r: &Ty,
) -> Result<(), TypeFault>
    requires size { node_count (term_of n.now) < 2 ^ 32 }
    requires marks { (f : ℕ) → counts_in (core_of c.now).funs marks.now f ≡ is_inert_fun (core_of c.now).funs f }
    ensures typed { IfOk result (λ _. HasType (core_of c.now).funs (is_inert_fun (core_of c.now).funs) (context_in scope.now) (term_of n.now) (type_of r.now)) }
    ensures untyped { IfErr result (λ f. Denies f (HasType (core_of c.now).funs (is_inert_fun (core_of c.now).funs) (context_in scope.now) (term_of n.now) (type_of r.now))) }
    ensures first { IfErr result (λ f. TellsFirst f (fault_within (core_of c.now).funs (context_in scope.now) (term_of n.now) (type_of r.now))) }
    ensures place { IfErr result (λ f. TellsPlace f 0 (places_of n.now)) }
{
    check_node(alloc, n, r, scope, c, marks, 0)?;
    Ok(())
}
