//! Whether a name is used.

ghost use Rattle.std.specs.Prelude.{◌≡◌, ◌++◌, ◌∷◌};
ghost use Rattle.bunch.specs.Names.{holds};
ghost use Rattle.core_term.specs.FreeNames.{free_names, free_in_terms, without};
ghost use Rattle.delta_state.specs.StateTree.{free_in_state, free_in_arguments, free_in_sum, free_in_star, free_in_wait};
ghost use Rattle.template_state.specs.Readers.{op_term, operand_terms, later_in, state_in, arguments_in};

use crate::code::{Op, Operands};
use crate::live::{Arguments, Later, Live};
use bunch::Name;

/// Whether the name is free in the template.
#[cycle(op_uses)]
#[tactic(auto, using(crate::proofs::NamesInLists::names_in_lists))]
pub fn op_uses(op: &Op, x: Name) -> bool
    ensures { result ≡ holds x.0 (free_names (op_term op.now)) }
{
    match op {
        Op::Var(y) => x.0 == y.0,
        Op::Eps | Op::Unit | Op::Nil | Op::Past(_) => false,
        Op::Par(a, b) | Op::Cat(a, b) | Op::Cons(a, b) => op_either(a, b, x),
        Op::Inl(a) | Op::Inr(a) => op_uses(a, x),
        Op::Let(y, _, a, b) => op_let(*y, a, b, x),
        Op::LetPar(y, u, z, a) | Op::LetCat(y, u, z, a) => op_parts(*y, *u, *z, a, x),
        Op::CaseSum(z, _, y, a, u, b) => op_sum(*z, *y, a, *u, b, x),
        Op::CaseStar(z, _, a, y, u, b) => op_star(*z, a, *y, *u, b, x),
        Op::Wait(y, _, a) => op_wait(*y, a, x),
        Op::Call(_, _, es) => operands_use(es, x),
    }
}

// In one of two.
#[cycle(op_uses)]
#[tactic(auto, using(crate::proofs::NamesInLists::names_in_lists))]
fn op_either(a: &Op, b: &Op, x: Name) -> bool
    ensures { result ≡ holds x.0 (free_names (op_term a.now) ++ free_names (op_term b.now)) }
{
    op_uses(a, x) || op_uses(b, x)
}

// In a let.
#[cycle(op_uses)]
#[tactic(auto, using(crate::proofs::NamesInLists::names_in_lists))]
fn op_let(y: Name, a: &Op, b: &Op, x: Name) -> bool
    ensures { result ≡ holds x.0 (free_names (op_term a.now) ++ without y.0 (free_names (op_term b.now))) }
{
    op_uses(a, x) || (x.0 != y.0 && op_uses(b, x))
}

// In a destructuring.
#[cycle(op_uses)]
#[tactic(auto, using(crate::proofs::NamesInLists::names_in_lists))]
fn op_parts(y: Name, u: Name, z: Name, a: &Op, x: Name) -> bool
    ensures { result ≡ holds x.0 (z.0 ∷ without y.0 (without u.0 (free_names (op_term a.now)))) }
{
    x.0 == z.0 || (x.0 != y.0 && (x.0 != u.0 && op_uses(a, x)))
}

// In a case on a sum.
#[cycle(op_uses)]
#[tactic(auto, using(crate::proofs::NamesInLists::names_in_lists))]
fn op_sum(z: Name, y: Name, a: &Op, u: Name, b: &Op, x: Name) -> bool
    ensures { result ≡ holds x.0 (z.0 ∷ (without y.0 (free_names (op_term a.now)) ++ without u.0 (free_names (op_term b.now)))) }
{
    x.0 == z.0 || ((x.0 != y.0 && op_uses(a, x)) || (x.0 != u.0 && op_uses(b, x)))
}

// In a case on a star.
#[cycle(op_uses)]
#[tactic(auto, using(crate::proofs::NamesInLists::names_in_lists))]
fn op_star(z: Name, a: &Op, y: Name, u: Name, b: &Op, x: Name) -> bool
    ensures { result ≡ holds x.0 (z.0 ∷ (free_names (op_term a.now) ++ without y.0 (without u.0 (free_names (op_term b.now))))) }
{
    x.0 == z.0 || (op_uses(a, x) || (x.0 != y.0 && (x.0 != u.0 && op_uses(b, x))))
}

// In a wait.
#[cycle(op_uses)]
fn op_wait(y: Name, a: &Op, x: Name) -> bool
    ensures { result ≡ holds x.0 (y.0 ∷ free_names (op_term a.now)) }
{
    x.0 == y.0 || op_uses(a, x)
}

// In one of the arguments of a call.
#[cycle(op_uses)]
#[tactic(auto, using(crate::proofs::NamesInLists::names_in_lists))]
fn operands_use(es: &Operands, x: Name) -> bool
    ensures { result ≡ holds x.0 (free_in_terms (operand_terms es.now)) }
{
    match es {
        Operands::None => false,
        Operands::Before(a, others) => op_uses(a, x) || operands_use(others, x),
    }
}

/// Whether the name is free in the state.
#[cycle(uses)]
#[tactic(auto, using(crate::proofs::NamesInLists::names_in_lists))]
pub fn uses(s: &Live, x: Name) -> bool
    ensures { result ≡ holds x.0 (free_in_state (state_in s.now)) }
{
    match s {
        Live::Sink(_) => false,
        Live::Var(y) => x.0 == y.0,
        Live::Par(a, b) => either(a, b, x),
        Live::Cat(a, l) => in_row(a, l, x),
        Live::Let(y, _, a, b) => in_let(*y, a, b, x),
        Live::LetPar(y, u, z, a) | Live::LetCat(y, u, z, a) => in_parts(*y, *u, *z, a, x),
        Live::CaseSum(z, _, _, y, l, u, m) => in_sum(*z, *y, l, *u, m, x),
        Live::CaseStar(z, _, _, l, y, u, m) => in_star(*z, l, *y, *u, m, x),
        Live::Wait(y, _, _, l) => in_wait(*y, l, x),
        Live::Frame(args, _) => arguments_use(args, x),
    }
}

// In one of two.
#[cycle(uses)]
#[tactic(auto, using(crate::proofs::NamesInLists::names_in_lists))]
fn either(a: &Live, b: &Live, x: Name) -> bool
    ensures { result ≡ holds x.0 (free_in_state (state_in a.now) ++ free_in_state (state_in b.now)) }
{
    uses(a, x) || uses(b, x)
}

// In the rest of the first part, or in the code of the second.
#[cycle(uses)]
#[tactic(auto, using(crate::proofs::NamesInLists::names_in_lists))]
fn in_row(a: &Live, l: &Later, x: Name) -> bool
    ensures { result ≡ holds x.0 (free_in_state (state_in a.now) ++ free_names (later_in l.now).term) }
{
    uses(a, x) || op_uses(&l.code, x)
}

// In a let.
#[cycle(uses)]
#[tactic(auto, using(crate::proofs::NamesInLists::names_in_lists))]
fn in_let(y: Name, a: &Live, b: &Live, x: Name) -> bool
    ensures { result ≡ holds x.0 (free_in_state (state_in a.now) ++ without y.0 (free_in_state (state_in b.now))) }
{
    uses(a, x) || (x.0 != y.0 && uses(b, x))
}

// In a destructuring.
#[cycle(uses)]
#[tactic(auto, using(crate::proofs::NamesInLists::names_in_lists))]
fn in_parts(y: Name, u: Name, z: Name, a: &Live, x: Name) -> bool
    ensures { result ≡ holds x.0 (z.0 ∷ without y.0 (without u.0 (free_in_state (state_in a.now)))) }
{
    x.0 == z.0 || (x.0 != y.0 && (x.0 != u.0 && uses(a, x)))
}

// In a case on a sum.
#[tactic(auto, using(crate::proofs::NamesInLists::names_in_lists))]
fn in_sum(z: Name, y: Name, l: &Later, u: Name, m: &Later, x: Name) -> bool
    ensures { result ≡ holds x.0 (free_in_sum z.0 y.0 (later_in l.now) u.0 (later_in m.now)) }
{
    op_sum(z, y, &l.code, u, &m.code, x)
}

// In a case on a star.
#[tactic(auto, using(crate::proofs::NamesInLists::names_in_lists))]
fn in_star(z: Name, l: &Later, y: Name, u: Name, m: &Later, x: Name) -> bool
    ensures { result ≡ holds x.0 (free_in_star z.0 (later_in l.now) y.0 u.0 (later_in m.now)) }
{
    op_star(z, &l.code, y, u, &m.code, x)
}

// In a wait.
fn in_wait(y: Name, l: &Later, x: Name) -> bool
    ensures { result ≡ holds x.0 (free_in_wait y.0 (later_in l.now)) }
{
    op_wait(y, &l.code, x)
}

/// Whether the name is free in one of the arguments.
#[cycle(uses)]
#[tactic(auto, using(crate::proofs::NamesInLists::names_in_lists))]
pub fn arguments_use(args: &Arguments, x: Name) -> bool
    ensures { result ≡ holds x.0 (free_in_arguments (arguments_in args.now)) }
{
    match args {
        Arguments::None => false,
        Arguments::Before(_, _, a, others) => uses(a, x) || arguments_use(others, x),
    }
}
