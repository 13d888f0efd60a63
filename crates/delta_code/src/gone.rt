//! What takes the place of a state that stood there, if anything does.

ghost use Rattle.std.specs.Prelude.{◌≡◌, IfOk};
ghost use Rattle.stream_type.specs.StreamType.{type_of};
ghost use Rattle.stream_prefix.specs.Tree.{prefix_of};
ghost use Rattle.delta_state.specs.StateTree.{StateTree, let_cat_state};
ghost use Rattle.delta_state.specs.Rest.{cut_state};
ghost use Rattle.template_state.specs.Readers.{state_in};
ghost use Rattle.delta_code.specs.Begun.{run_of, rest_of};
ghost use Rattle.delta_code.specs.Told.{told, left_after};

use crate::begun::{Begun, in_two};
use crate::told::{Gone, Told};
use bunch::Name;
use machine_parts::parts::{Cut, cat_types, cut_taken};
use std::alloc::Global;
use std::mem;
use stream_prefix::Prefix;
use stream_type::{Memory, Ty};
use template_state::Live;

/// The state that takes the place of the one that stood there, if one does.
pub fn put(s: &mut Live, gone: Gone) -> Told
    ensures told { told result ≡ told gone.told }
    ensures state { state_in s.new ≡ left_after gone.state (state_in s.old) }
{
    let Gone { told, state } = gone;
    match state {
        Some(state) => {
            put_in(s, state);
            told
        }
        None => told,
    }
}

// Another state takes the place of this one, which goes.
#[inline(never)]
fn put_in(s: &mut Live, state: Box<Live>)
    ensures { state_in s.new ≡ state_in state.value }
{
    let mut old = state;
    mem::swap(s, &mut old);
    drop(old)
}

// The state that stood here, in a box. What is left here is no more than a name.
#[inline(never)]
fn taken_out(alloc: Global, s: &mut Live) -> Result<Box<Live>, Memory>
    ensures { IfOk result (λ b. state_in b.value ≡ state_in s.old) }
{
    let mut state = Box::new(alloc, Live::Var(Name(0)))?;
    mem::swap(s, &mut state);
    Ok(state)
}

/// What stands there stays.
pub fn stays(given: Told) -> Gone
    ensures told { told result.told ≡ told given }
    ensures state { (s : StateTree) → left_after result.state s ≡ s }
{
    Gone {
        told: given,
        state: None,
    }
}

/// Another state takes its place.
pub fn goes(begun: Begun) -> Gone
    ensures told { told result.told ≡ run_of begun }
    ensures state { (s : StateTree) → left_after result.state s ≡ rest_of begun }
{
    Gone {
        told: Told {
            output: begun.output,
            calls: begun.calls,
            level: begun.level,
        },
        state: Some(begun.state),
    }
}

/// `let (x; y) = z` round what is left, once what came of z, of this type, is known.
pub fn cut(
    alloc: Global,
    x: Name,
    y: Name,
    z: Name,
    s: &Ty,
    p: &Prefix,
    a: &mut Live,
    given: Told,
) -> Result<Gone, Memory>
    ensures run { IfOk result (λ g. told g.told ≡ told given) }
    ensures rest { IfOk result (λ g. left_after g.state (let_cat_state x.0 y.0 z.0 (state_in a.new)) ≡ cut_state x.0 y.0 z.0 (type_of s.now) (prefix_of p.now) (state_in a.old)) }
{
    let (t, u) = cat_types(s, &Ty::Eps);
    match cut_taken(p) {
        Cut::Before => Ok(stays(given)),
        Cut::After(p, q) => {
            let state = taken_out(alloc, a)?;
            let begun = Begun {
                output: given.output,
                calls: given.calls,
                level: given.level,
                state,
            };
            Ok(goes(in_two(alloc, x, t, p, y, u, q, z, begun)?))
        }
    }
}
