//! States as bytes.

ghost use Rattle.std.specs.Prelude.{◌∷◌, ◌++◌, map};
ghost use Rattle.stream_type.specs.StreamType.{type_of};
ghost use Rattle.kept_state.specs.KeptBytes.{short_bytes, list_bytes, type_bytes, held_name_bytes};
ghost use Rattle.delta_keep.specs.KeptView.{held_of, later_of, state_of};
ghost use Rattle.kept_state.specs.KeptSizes.{FitsShort, FitsHeld, FitsLater, FitsState};
ghost use Rattle.delta_keep.specs.Putting.{Puts, IsCounted};
ghost use Rattle.delta_keep.specs.Reads.{FitsList, FitsArgument};
ghost use Rattle.delta_keep.specs.Written.{written_later, written_state, written_argument};

use crate::kept::{Argument, HeldName, KeptState, Waiting};
use crate::output::{Output, put_byte};
use crate::put_numbers::{put_count, put_form_names, put_long, put_name};
use crate::put_parts::{put_held, put_past, put_type};
use crate::put_terms::{put_form_name_type, put_node};
use bunch::Name;
use stream_type::Ty;

/// Appends code that isn't reached.
fn put_later(out: &mut Output, l: &Waiting)
    ensures puts { Puts out.old out.new (written_later l.now) }
    ensures sizes { IsCounted out.new → FitsLater (later_of l.now) }
{
    put_node(out, &l.code);
    put_past(out, &l.past);
    put_long(out, l.depth);
}

/// Appends a state.
#[cycle(put_states)]
pub(crate) fn put_state(out: &mut Output, s: &KeptState)
    ensures puts { Puts out.old out.new (written_state s.now) }
    ensures sizes { IsCounted out.new → FitsState (state_of s.now) }
{
    match s {
        KeptState::Sink(t) => {
            put_byte(out, 0);
            put_type(out, t);
        }
        KeptState::Var(x) => {
            put_byte(out, 1);
            put_name(out, *x);
        }
        KeptState::Par(a, b) => {
            put_byte(out, 2);
            put_state(out, a);
            put_state(out, b);
        }
        KeptState::Cat(a, l) => {
            put_byte(out, 3);
            put_state(out, a);
            put_later(out, l);
        }
        KeptState::Let(x, t, a, b) => {
            put_form_name_type(out, 4, *x, t);
            put_state(out, a);
            put_state(out, b);
        }
        KeptState::LetPar(x, y, z, a) => {
            put_form_names(out, 5, *x, *y, *z);
            put_state(out, a);
        }
        KeptState::LetCat(x, y, z, a) => {
            put_form_names(out, 6, *x, *y, *z);
            put_state(out, a);
        }
        KeptState::CaseSum(z, t, held, x, l, y, m) => {
            put_holding(out, 7, *z, t, held);
            put_branches(out, *x, l, *y, m);
        }
        KeptState::CaseStar(z, t, held, l, y, ys, m) => {
            put_case_star(out, *z, t, held, l, *y, *ys, m);
        }
        KeptState::Wait(x, t, held, l) => {
            put_holding(out, 9, *x, t, held);
            put_later(out, l);
        }
        KeptState::Frame(args, s) => {
            put_arguments(out, args);
            put_state(out, s);
        }
    }
}

// A form, its subject, its result's type and what it holds.
fn put_holding(out: &mut Output, form: u8, z: Name, t: &Ty, held: &[HeldName])
    ensures puts { Puts out.old out.new (form ∷ short_bytes z.0 ++ (type_bytes (type_of t.now) ++ list_bytes held_name_bytes (map held_of held.now))) }
    ensures sizes { IsCounted out.new → FitsShort z.0 × FitsHeld (map held_of held.now) }
{
    put_form_name_type(out, form, z, t);
    put_held(out, held);
}

// Both branches of a case on a sum, each after its name.
fn put_branches(out: &mut Output, x: Name, l: &Waiting, y: Name, m: &Waiting)
    ensures puts { Puts out.old out.new (short_bytes x.0 ++ (written_later l.now ++ (short_bytes y.0 ++ written_later m.now))) }
    ensures sizes { IsCounted out.new → FitsShort x.0 × FitsLater (later_of l.now) × FitsShort y.0 × FitsLater (later_of m.now) }
{
    put_name(out, x);
    put_later(out, l);
    put_name(out, y);
    put_later(out, m);
}

// A case on a star.
fn put_case_star(
    out: &mut Output,
    z: Name,
    t: &Ty,
    held: &[HeldName],
    l: &Waiting,
    y: Name,
    ys: Name,
    m: &Waiting,
)
    ensures puts { Puts out.old out.new (8 ∷ short_bytes z.0 ++ (type_bytes (type_of t.now) ++ (list_bytes held_name_bytes (map held_of held.now) ++ (written_later l.now ++ (short_bytes y.0 ++ (short_bytes ys.0 ++ written_later m.now)))))) }
    ensures sizes { IsCounted out.new → FitsShort z.0 × FitsHeld (map held_of held.now) × FitsLater (later_of l.now) × FitsShort y.0 × FitsShort ys.0 × FitsLater (later_of m.now) }
{
    put_form_name_type(out, 8, z, t);
    put_held(out, held);
    put_ends(out, l, y, ys, m);
}

// Both branches of a case on a star: that at the end, and that of an item after its two names.
fn put_ends(out: &mut Output, l: &Waiting, y: Name, ys: Name, m: &Waiting)
    ensures puts { Puts out.old out.new (written_later l.now ++ (short_bytes y.0 ++ (short_bytes ys.0 ++ written_later m.now))) }
    ensures sizes { IsCounted out.new → FitsLater (later_of l.now) × FitsShort y.0 × FitsShort ys.0 × FitsLater (later_of m.now) }
{
    put_later(out, l);
    put_name(out, y);
    put_name(out, ys);
    put_later(out, m);
}

// The form of a frame and its arguments.
#[cycle(put_states)]
fn put_arguments(out: &mut Output, args: &[Argument])
    ensures puts { Puts out.old out.new (10 ∷ list_bytes written_argument args.now) }
    ensures sizes { IsCounted out.new → FitsList FitsArgument args.now }
{
    put_byte(out, 10);
    put_count(out, args.len());
    for arg in args {
        put_argument(out, arg);
    }
}

#[cycle(put_states)]
fn put_argument(out: &mut Output, arg: &Argument)
    ensures puts { Puts out.old out.new (written_argument arg.now) }
    ensures sizes { IsCounted out.new → FitsArgument arg.now }
{
    put_name(out, arg.name);
    put_type(out, &arg.ty);
    put_state(out, &arg.state);
}
