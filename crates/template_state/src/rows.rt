//! Sequences that are taken apart and put together again.

ghost use Rattle.std.specs.Prelude.{◌≡◌, not};
ghost use Rattle.stream_type.specs.StreamType.{StreamType, type_of, null_of};
ghost use Rattle.core_term.specs.Parts.{cat_first};
ghost use Rattle.state_rewriting.specs.Rewriting.{SimplerBy};
ghost use Rattle.template_state.specs.Readers.{op_term, state_in};
ghost use Rattle.template_state.specs.Rows.{is_term_name, is_row, repeats_row};

use crate::code::Op;
use crate::live::{Live, put};
use crate::marks::state_marks_at_once;
use crate::put_in::is_name;
use bunch::Name;
use machine_parts::parts::cat_types;
use std::mem;
use stream_type::Ty;

// Whether a template is the name.
fn is_op_name(op: &Op, x: Name) -> bool
    ensures { result ≡ is_term_name (op_term op.now) x.0 }
{
    match op {
        Op::Var(u) => u.0 == x.0,
        Op::Eps
        | Op::Unit
        | Op::Past(_)
        | Op::Par(_, _)
        | Op::Cat(_, _)
        | Op::Inl(_)
        | Op::Inr(_)
        | Op::Nil
        | Op::Cons(_, _)
        | Op::Let(_, _, _, _)
        | Op::LetPar(_, _, _, _)
        | Op::LetCat(_, _, _, _)
        | Op::CaseSum(_, _, _, _, _, _)
        | Op::CaseStar(_, _, _, _, _, _)
        | Op::Wait(_, _, _)
        | Op::Call(_, _, _) => false,
    }
}

// Whether a state is the first name and then the second.
fn is_live_row(s: &Live, x: Name, y: Name) -> bool
    ensures { result ≡ is_row (state_in s.now) x.0 y.0 }
{
    match s {
        Live::Cat(a, l) => is_name(a, x) && is_op_name(&l.code, y),
        Live::Sink(_)
        | Live::Var(_)
        | Live::Par(_, _)
        | Live::Let(_, _, _, _)
        | Live::LetPar(_, _, _, _)
        | Live::LetCat(_, _, _, _)
        | Live::CaseSum(_, _, _, _, _, _, _)
        | Live::CaseStar(_, _, _, _, _, _, _)
        | Live::Wait(_, _, _, _)
        | Live::Frame(_, _) => false,
    }
}

// Whether a state takes the name apart and puts both parts together again.
fn repeats(s: &Live, w: Name) -> bool
    ensures { result ≡ repeats_row (state_in s.now) w.0 }
{
    match s {
        Live::LetCat(x, y, z, a) => z.0 == w.0 && is_live_row(a, *x, *y),
        Live::Sink(_)
        | Live::Var(_)
        | Live::Par(_, _)
        | Live::Cat(_, _)
        | Live::Let(_, _, _, _)
        | Live::LetPar(_, _, _, _)
        | Live::CaseSum(_, _, _, _, _, _, _)
        | Live::CaseStar(_, _, _, _, _, _, _)
        | Live::Wait(_, _, _, _)
        | Live::Frame(_, _) => false,
    }
}

// Whether something has to come before the mark of a sequence of this type.
fn waits_first(t: &Ty) -> bool
    ensures { result ≡ not (null_of (cat_first (type_of t.now))) }
{
    let (first, _) = cat_types(t, &Ty::Eps);
    !stream_type::null(first)
}

/// A let of a sequence goes that is taken apart and put together again, where what is bound gives the mark at once.
#[tactic(auto, using(crate::proofs::Repeating::repeating))]
pub fn drop_repeated(s: &mut Live)
    ensures { (q : StreamType) → SimplerBy q (state_in s.old) (state_in s.new) }
{
    if let Live::Let(w, t, a, b) = s {
        if repeats(b, *w) && waits_first(t) && state_marks_at_once(a) {
            let inner = mem::replace(&mut **a, Live::Var(Name(0)));
            put(s, inner);
        }
    }
}
