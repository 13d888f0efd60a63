//! Names that are put in.

ghost use Rattle.std.specs.Prelude.{◌≡◌, ◌&&◌, true, false, [], ◌∷◌};
ghost use Rattle.bunch.specs.Names.{holds};
ghost use Rattle.stream_type.specs.StreamType.{StreamType};
ghost use Rattle.state_rewriting.specs.Rewriting.{ReplacedBy, ReplacedArgumentsBy, IsAlias, IsPair};
ghost use Rattle.template_state.specs.Readers.{state_in, arguments_in};
ghost use Rattle.template_state.specs.Rows.{is_name};

use crate::live::{Arguments, Live, put};
use bunch::Name;

// Whether the name is another than both.
#[tactic(auto, using(crate::proofs::Putting::apart_names))]
fn apart(x: Name, y: Name, z: Name) -> bool
    ensures { result ≡ true → holds x.0 (y.0 ∷ (z.0 ∷ [])) ≡ false }
{
    x.0 != y.0 && x.0 != z.0
}

// Whether each of the names is another than both.
fn all_apart(u: Name, v: Name, w: Name, y: Name, z: Name) -> bool
    ensures { result ≡ true → (holds u.0 (y.0 ∷ (z.0 ∷ [])) ≡ false) × (holds v.0 (y.0 ∷ (z.0 ∷ [])) ≡ false) × (holds w.0 (y.0 ∷ (z.0 ∷ [])) ≡ false) }
{
    apart(u, y, z) && apart(v, y, z) && apart(w, y, z)
}

/// Puts z in the place of y where y is an argument of a call.
#[cycle(put_name)]
#[tactic(auto, using(crate::proofs::Putting::putting))]
pub fn put_name(s: &mut Live, y: Name, z: Name)
    ensures { (r : StreamType) → ReplacedBy (y.0 ∷ (z.0 ∷ [])) (IsAlias y.0 z.0) r (state_in s.old) (state_in s.new) }
{
    match s {
        Live::Sink(_)
        | Live::Var(_)
        | Live::CaseSum(_, _, _, _, _, _, _)
        | Live::CaseStar(_, _, _, _, _, _, _)
        | Live::Wait(_, _, _, _) => {}
        Live::Par(a, b) => {
            put_name(a, y, z);
            put_name(b, y, z);
        }
        Live::Cat(a, _) => put_name(a, y, z),
        Live::Let(x, _, a, b) => {
            put_name(a, y, z);
            if apart(*x, y, z) {
                put_name(b, y, z);
            }
        }
        Live::LetPar(u, v, w, a) => {
            if all_apart(*u, *v, *w, y, z) {
                put_name(a, y, z);
            }
        }
        Live::LetCat(u, v, w, a) => {
            if all_apart(*u, *v, *w, y, z) {
                put_name(a, y, z);
            }
        }
        Live::Frame(args, _) => put_in_arguments(args, y, z),
    }
}

// The same in arguments, and at each argument that is y.
#[cycle(put_name)]
#[tactic(auto, using(crate::proofs::Putting::putting))]
fn put_in_arguments(args: &mut Arguments, y: Name, z: Name)
    ensures { ReplacedArgumentsBy (y.0 ∷ (z.0 ∷ [])) (IsAlias y.0 z.0) (arguments_in args.old) (arguments_in args.new) }
{
    match args {
        Arguments::None => {}
        Arguments::Before(_, _, a, others) => {
            put_in_argument(a, y, z);
            put_in_arguments(others, y, z);
        }
    }
}

// The same in one argument, which itself may be y.
#[cycle(put_name)]
fn put_in_argument(a: &mut Live, y: Name, z: Name)
    ensures { (r : StreamType) → ReplacedBy (y.0 ∷ (z.0 ∷ [])) (IsAlias y.0 z.0) r (state_in a.old) (state_in a.new) }
{
    put_name(a, y, z);
    rename(a, y, z);
}

/// An argument that is y becomes z.
#[tactic(auto, using(crate::proofs::Putting::putting))]
pub fn rename(a: &mut Live, y: Name, z: Name)
    ensures { (r : StreamType) → ReplacedBy (y.0 ∷ (z.0 ∷ [])) (IsAlias y.0 z.0) r (state_in a.old) (state_in a.new) }
{
    if let Live::Var(x) = a {
        if x.0 == y.0 {
            *x = z;
        }
    }
}

// Whether the name is another than all three.
#[tactic(auto, using(crate::proofs::Putting::apart_names))]
fn apart_three(u: Name, x: Name, y: Name, z: Name) -> bool
    ensures { result ≡ true → holds u.0 (x.0 ∷ (y.0 ∷ (z.0 ∷ []))) ≡ false }
{
    u.0 != x.0 && (u.0 != y.0 && u.0 != z.0)
}

// Whether each of the names is another than all three.
fn all_apart_three(u: Name, v: Name, w: Name, x: Name, y: Name, z: Name) -> bool
    ensures { result ≡ true → (holds u.0 (x.0 ∷ (y.0 ∷ (z.0 ∷ []))) ≡ false) × (holds v.0 (x.0 ∷ (y.0 ∷ (z.0 ∷ []))) ≡ false) × (holds w.0 (x.0 ∷ (y.0 ∷ (z.0 ∷ []))) ≡ false) }
{
    apart_three(u, x, y, z) && apart_three(v, x, y, z) && apart_three(w, x, y, z)
}

/// Whether the state is this name.
pub fn is_name(s: &Live, x: Name) -> bool
    ensures { result ≡ is_name (state_in s.now) x.0 }
{
    match s {
        Live::Var(y) => y.0 == x.0,
        Live::Sink(_)
        | Live::Par(_, _)
        | Live::Cat(_, _)
        | Live::Let(_, _, _, _)
        | Live::LetPar(_, _, _, _)
        | Live::LetCat(_, _, _, _)
        | Live::CaseSum(_, _, _, _, _, _, _)
        | Live::CaseStar(_, _, _, _, _, _, _)
        | Live::Wait(_, _, _, _)
        | Live::Frame(_, _) => false,
    }
}

// Whether the states are these two names.
fn is_pair(a: &Live, b: &Live, x: Name, y: Name) -> bool
    ensures { result ≡ (is_name (state_in a.now) x.0 && is_name (state_in b.now) y.0) }
{
    is_name(a, x) && is_name(b, y)
}

/// Puts z in the place of the pair of x and y.
#[cycle(put_pair)]
#[tactic(auto, using(crate::proofs::Putting::putting))]
pub fn put_pair(s: &mut Live, x: Name, y: Name, z: Name)
    ensures { (r : StreamType) → ReplacedBy (x.0 ∷ (y.0 ∷ (z.0 ∷ []))) (IsPair x.0 y.0 z.0) r (state_in s.old) (state_in s.new) }
{
    match s {
        Live::Sink(_)
        | Live::Var(_)
        | Live::CaseSum(_, _, _, _, _, _, _)
        | Live::CaseStar(_, _, _, _, _, _, _)
        | Live::Wait(_, _, _, _) => {}
        Live::Par(a, b) => {
            if is_pair(a, b, x, y) {
                put(s, Live::Var(z));
            } else {
                put_pair(a, x, y, z);
                put_pair(b, x, y, z);
            }
        }
        Live::Cat(a, _) => put_pair(a, x, y, z),
        Live::Let(u, _, a, b) => {
            put_pair(a, x, y, z);
            if apart_three(*u, x, y, z) {
                put_pair(b, x, y, z);
            }
        }
        Live::LetPar(u, v, w, a) => {
            if all_apart_three(*u, *v, *w, x, y, z) {
                put_pair(a, x, y, z);
            }
        }
        Live::LetCat(u, v, w, a) => {
            if all_apart_three(*u, *v, *w, x, y, z) {
                put_pair(a, x, y, z);
            }
        }
        Live::Frame(args, _) => put_pair_in_arguments(args, x, y, z),
    }
}

// The same in arguments.
#[cycle(put_pair)]
#[tactic(auto, using(crate::proofs::Putting::putting))]
fn put_pair_in_arguments(args: &mut Arguments, x: Name, y: Name, z: Name)
    ensures { ReplacedArgumentsBy (x.0 ∷ (y.0 ∷ (z.0 ∷ []))) (IsPair x.0 y.0 z.0) (arguments_in args.old) (arguments_in args.new) }
{
    match args {
        Arguments::None => {}
        Arguments::Before(_, _, a, others) => {
            put_pair(a, x, y, z);
            put_pair_in_arguments(others, x, y, z);
        }
    }
}
