//! States put into a simpler form, in place.

ghost use Rattle.std.specs.Prelude.{◌≡◌, true, [], OnOk, IsOk};
ghost use Rattle.stream_type.specs.StreamType.{StreamType, type_of, null_of};
ghost use Rattle.state_rewriting.specs.Rewriting.{SimplerBy, ReplacedArgumentsBy, Rewritten};
ghost use Rattle.template_state.specs.Readers.{state_in, arguments_in};

use crate::join::settle_frame;
use crate::live::{Arguments, Live, put};
use crate::names_used::uses;
use crate::put_in::{put_name, put_pair};
use crate::rows::drop_repeated;
use bunch::Name;
use machine_parts::parts::{cat_types, par_types};
use std::alloc::Global;
use std::mem;
use stream_type::{Memory, Ty};

/// Puts the state, of which this type is left, into a simpler form: each rewriting once at each part, from the
/// leaves to the root. Its only error is want of memory.
#[cycle(settle)]
pub fn settle(alloc: Global, s: &mut Live, r: &Ty) -> Result<(), Memory>
    ensures { OnOk result (SimplerBy (type_of r.now) (state_in s.old) (state_in s.new)) }
{
    if stream_type::null(r) {
        return finish(alloc, s, r);
    }
    match s {
        Live::Sink(_)
        | Live::Var(_)
        | Live::CaseSum(_, _, _, _, _, _, _)
        | Live::CaseStar(_, _, _, _, _, _, _)
        | Live::Wait(_, _, _, _) => Ok(()),
        Live::Par(a, b) => {
            let (left, right) = par_types(r, &Ty::Eps);
            match settle(alloc, a, left) {
                Ok(()) => settle(alloc, b, right),
                Err(Memory) => Err(Memory),
            }
        }
        Live::Cat(a, _) => {
            let (first, _) = cat_types(r, &Ty::Eps);
            settle(alloc, a, first)
        }
        Live::Let(_, t, a, b) => match settle(alloc, a, t) {
            Ok(()) => {
                let body = settle(alloc, b, r);
                let_done(s, body)
            }
            Err(Memory) => Err(Memory),
        },
        Live::LetPar(_, _, _, a) => {
            let pair = settle(alloc, a, r);
            pair_done(s, pair)
        }
        Live::LetCat(_, _, _, a) => {
            let row = settle(alloc, a, r);
            row_done(s, row)
        }
        Live::Frame(args, a) => match settle_all(alloc, args) {
            Ok(()) => {
                let called = settle(alloc, a, r);
                frame_done(alloc, s, called)
            }
            Err(Memory) => Err(Memory),
        },
    }
}

// A state of which nothing more comes.
#[tactic(auto, using(crate::proofs::Settling::settling))]
fn finish(alloc: Global, s: &mut Live, r: &Ty) -> Result<(), Memory>
    requires { null_of (type_of r.now) ≡ true }
    ensures { OnOk result (SimplerBy (type_of r.now) (state_in s.old) (state_in s.new)) }
{
    if let Live::Sink(_) = s {
        return Ok(());
    }
    let left = stream_type::copy(alloc, r)?;
    put(s, Live::Sink(left));
    Ok(())
}

// Each of the arguments, put into a simpler form.
#[cycle(settle)]
fn settle_all(alloc: Global, args: &mut Arguments) -> Result<(), Memory>
    ensures { OnOk result (ReplacedArgumentsBy [] Rewritten (arguments_in args.old) (arguments_in args.new)) }
{
    match args {
        Arguments::None => Ok(()),
        Arguments::Before(_, t, a, others) => match settle(alloc, a, t) {
            Ok(()) => settle_all(alloc, others),
            Err(Memory) => Err(Memory),
        },
    }
}

// A let whose parts are settled.
fn let_done(s: &mut Live, done: Result<(), Memory>) -> Result<(), Memory>
    ensures { OnOk result (IsOk done × ((q : StreamType) → SimplerBy q (state_in s.old) (state_in s.new))) }
{
    match done {
        Ok(()) => {
            settle_let(s);
            Ok(())
        }
        Err(Memory) => Err(Memory),
    }
}

// A destructuring of a pair, whose part is settled.
fn pair_done(s: &mut Live, done: Result<(), Memory>) -> Result<(), Memory>
    ensures { OnOk result (IsOk done × ((q : StreamType) → SimplerBy q (state_in s.old) (state_in s.new))) }
{
    match done {
        Ok(()) => {
            settle_pair(s);
            Ok(())
        }
        Err(Memory) => Err(Memory),
    }
}

// The same of a sequence.
fn row_done(s: &mut Live, done: Result<(), Memory>) -> Result<(), Memory>
    ensures { OnOk result (IsOk done × ((q : StreamType) → SimplerBy q (state_in s.old) (state_in s.new))) }
{
    match done {
        Ok(()) => {
            drop_row(s);
            Ok(())
        }
        Err(Memory) => Err(Memory),
    }
}

// A frame whose parts are settled.
fn frame_done(alloc: Global, s: &mut Live, done: Result<(), Memory>) -> Result<(), Memory>
    ensures { OnOk result (IsOk done × ((q : StreamType) → SimplerBy q (state_in s.old) (state_in s.new))) }
{
    match done {
        Ok(()) => settle_frame(alloc, s),
        Err(Memory) => Err(Memory),
    }
}

// A let whose parts are settled: its alias is put in, and it goes if it isn't used or is all that follows, also
// where it is taken apart and put together again.
#[tactic(auto, using(crate::proofs::Settling::settling))]
fn settle_let(s: &mut Live)
    ensures { (q : StreamType) → SimplerBy q (state_in s.old) (state_in s.new) }
{
    put_alias(s);
    drop_unused(s);
    drop_renamed(s);
    drop_repeated(s);
}

// The name that a let's name stands for is put in.
#[tactic(auto, using(crate::proofs::Settling::settling))]
fn put_alias(s: &mut Live)
    ensures { (q : StreamType) → SimplerBy q (state_in s.old) (state_in s.new) }
{
    if let Live::Let(y, _, a, b) = s {
        if let Live::Var(z) = &**a {
            let z = *z;
            put_name(b, *y, z);
        }
    }
}

// A let whose name isn't used goes.
#[tactic(auto, using(crate::proofs::Settling::settling))]
fn drop_unused(s: &mut Live)
    ensures { (q : StreamType) → SimplerBy q (state_in s.old) (state_in s.new) }
{
    if let Live::Let(x, _, _, b) = s {
        if !uses(b, *x) {
            let inner = mem::replace(&mut **b, Live::Var(Name(0)));
            put(s, inner);
        }
    }
}

// A let whose name is all that follows goes.
#[tactic(auto, using(crate::proofs::Settling::settling))]
fn drop_renamed(s: &mut Live)
    ensures { (q : StreamType) → SimplerBy q (state_in s.old) (state_in s.new) }
{
    if let Live::Let(x, _, a, b) = s {
        if let Live::Var(y) = &**b {
            if y.0 == x.0 {
                let inner = mem::replace(&mut **a, Live::Var(Name(0)));
                put(s, inner);
            }
        }
    }
}

// A destructuring of a pair: its subject is put in for the pair of its names, and it goes if they aren't used.
#[tactic(auto, using(crate::proofs::Settling::settling))]
fn settle_pair(s: &mut Live)
    ensures { (q : StreamType) → SimplerBy q (state_in s.old) (state_in s.new) }
{
    put_subject(s);
    drop_pair(s);
}

// The subject is put in for the pair of the names of its parts.
#[tactic(auto, using(crate::proofs::Settling::settling))]
fn put_subject(s: &mut Live)
    ensures { (q : StreamType) → SimplerBy q (state_in s.old) (state_in s.new) }
{
    if let Live::LetPar(x, y, z, a) = s {
        if x.0 != y.0 && y.0 != z.0 {
            put_pair(a, *x, *y, *z);
        }
    }
}

// A destructuring whose names aren't used goes.
#[tactic(auto, using(crate::proofs::Settling::settling))]
fn drop_pair(s: &mut Live)
    ensures { (q : StreamType) → SimplerBy q (state_in s.old) (state_in s.new) }
{
    if let Live::LetPar(x, y, _, a) = s {
        if !uses(a, *x) && !uses(a, *y) {
            let inner = mem::replace(&mut **a, Live::Var(Name(0)));
            put(s, inner);
        }
    }
}

// The same of a sequence.
#[tactic(auto, using(crate::proofs::Settling::settling))]
fn drop_row(s: &mut Live)
    ensures { (q : StreamType) → SimplerBy q (state_in s.old) (state_in s.new) }
{
    if let Live::LetCat(x, y, _, a) = s {
        if !uses(a, *x) && !uses(a, *y) {
            let inner = mem::replace(&mut **a, Live::Var(Name(0)));
            put(s, inner);
        }
    }
}
