//! Whether templates and states give the marks between the parts of what they give at once.

ghost use Rattle.std.specs.Prelude.{◌≡◌};
ghost use Rattle.state_rewriting.specs.MarksAtOnce.{term_marks_at_once, marks_at_once};
ghost use Rattle.template_state.specs.Readers.{op_term, state_in};

use crate::code::Op;
use crate::live::Live;

/// Whether the template gives its mark at once.
pub fn op_marks_at_once(op: &Op) -> bool
    ensures { result ≡ term_marks_at_once (op_term op.now) }
{
    match op {
        Op::Cat(_, _) => true,
        Op::Let(_, _, _, a) | Op::LetPar(_, _, _, a) | Op::LetCat(_, _, _, a) | Op::Wait(_, _, a) =>
            op_marks_at_once(a),
        Op::CaseSum(_, _, _, a, _, b) | Op::CaseStar(_, _, a, _, _, b) => {
            op_marks_at_once(a) && op_marks_at_once(b)
        }
        Op::Var(_)
        | Op::Eps
        | Op::Unit
        | Op::Past(_)
        | Op::Par(_, _)
        | Op::Inl(_)
        | Op::Inr(_)
        | Op::Nil
        | Op::Cons(_, _)
        | Op::Call(_, _, _) => false,
    }
}

/// Whether the state gives its mark at once.
pub fn state_marks_at_once(s: &Live) -> bool
    ensures { result ≡ marks_at_once (state_in s.now) }
{
    match s {
        Live::Cat(_, _) => true,
        Live::Let(_, _, _, a)
        | Live::LetPar(_, _, _, a)
        | Live::LetCat(_, _, _, a)
        | Live::Frame(_, a) => state_marks_at_once(a),
        Live::CaseSum(_, _, _, _, l, _, m) | Live::CaseStar(_, _, _, l, _, _, m) => {
            op_marks_at_once(&l.code) && op_marks_at_once(&m.code)
        }
        Live::Wait(_, _, _, l) => op_marks_at_once(&l.code),
        Live::Sink(_) | Live::Var(_) | Live::Par(_, _) => false,
    }
}
