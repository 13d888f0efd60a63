//! What a form of a state gives once its parts have gone on: where a part stops, the form does.
//!
//! Nothing here calls back, so the functions that go through a state have little more than their calls.

ghost use Rattle.std.specs.Prelude.{◌≡◌, ◌+◌, ◌-◌, ◌<◌, ◌≤◌, ◌^◌, ◌||◌, ◌++◌, ◌∷◌, ℕ, Bool, true, false, [], List, map, if◌then◌else◌, IfOk, OnOk, Ok};
ghost use Rattle.stream_type.specs.StreamType.{StreamType, type_of, eps};
ghost use Rattle.stream_prefix.specs.Tree.{prefix_of};
ghost use Rattle.stream_prefix.specs.StreamPrefix.{StreamPrefix, is_maximal, der};
ghost use Rattle.core_term.specs.Run.{Run, Runs, quiet, par_run, cat_run, let_run, frame_run, run_before};
ghost use Rattle.delta_state.specs.StateTree.{HeldName, StateTree, ArgumentTrees, LaterTree, var_state, par_state, cat_state, let_state, let_cat_state, frame_state, no_arguments, argument_before};
ghost use Rattle.delta_state.specs.Rest.{cut_state};
ghost use Rattle.machine_parts.specs.Entry.{entry_in};
ghost use Rattle.machine_parts.specs.Levels.{below};
ghost use Rattle.template_state.specs.Readers.{state_in, arguments_in};
ghost use Rattle.delta_code.specs.Eased.{Eased};
ghost use Rattle.delta_code.specs.Gives.{Gives};
ghost use Rattle.delta_code.specs.GivenBack.{given_back};
ghost use Rattle.delta_code.specs.GoesOn.{GoesOn, GoesOnAs, AllGoOn};
ghost use Rattle.delta_code.specs.Told.{told, left_after};

use crate::begun::Begun;
use crate::gone::{cut, goes, put, stays};
use crate::lent::take_back;
use crate::told::{
    AllTold, Gone, Told, both, bound, first, framed, none_told, quiet, second, told_before,
};
use bunch::Name;
use in_place::go_behind;
use machine_parts::entry::Entry;
use machine_parts::stop::Stop;
use std::alloc::Global;
use stream_prefix::Prefix;
use stream_type::{Memory, Ty};
use template_state::{Arguments, Live};

/// What was made of parts that went on, or want of memory.
pub fn made(whole: Result<Told, Memory>) -> Result<Told, Stop>
    ensures { (x : Run) (s v : StateTree) (n l : ℕ) → IfOk whole (λ a. told a ≡ x) → OnOk whole (Eased s v) → IfOk whole (λ a. a.calls ≤ n) → IfOk whole (λ a. a.level ≤ l) → GoesOn result x s v n l }
{
    match whole {
        Ok(a) => Ok(a),
        Err(_) => Err(Stop::Memory),
    }
}

/// What is given without a call.
#[inline(never)]
pub fn quiet_done(output: Result<Box<Prefix>, Memory>) -> Result<Told, Stop>
    ensures { (p : StreamPrefix) (s v : StateTree) (n l : ℕ) → IfOk output (λ o. prefix_of o.value ≡ p) → Eased s v → GoesOn result (quiet p) s v n l }
{
    match output {
        Ok(p) => Ok(quiet(p)),
        Err(_) => Err(Stop::Memory),
    }
}

/// What is given without a call by what stays.
#[inline(never)]
pub fn stays_done(output: Result<Box<Prefix>, Memory>) -> Result<Gone, Stop>
    ensures { (p : StreamPrefix) (s v : StateTree) (n l : ℕ) → IfOk output (λ o. prefix_of o.value ≡ p) → Eased s v → GoesOnAs result (quiet p) s v n l }
{
    match output {
        Ok(p) => Ok(stays(quiet(p))),
        Err(_) => Err(Stop::Memory),
    }
}

/// What gives another state.
#[inline(never)]
pub fn goes_done(begun: Result<Begun, Stop>) -> Result<Gone, Stop>
    ensures { (x : Run) (s v : StateTree) (n l : ℕ) → Gives begun x s n l → GoesOnAs result x s v n l }
{
    match begun {
        Ok(a) => Ok(goes(a)),
        Err(stop) => Err(stop),
    }
}

/// The state that takes the place of the one that stood there, if one does.
#[inline(never)]
pub fn put_done(s: &mut Live, gone: Result<Gone, Stop>) -> Result<Told, Stop>
    ensures { (x : Run) (u : StateTree) (n l : ℕ) → GoesOnAs gone x u (state_in s.old) n l → GoesOn result x u (state_in s.new) n l }
{
    match gone {
        Ok(a) => Ok(put(s, a)),
        Err(stop) => Err(stop),
    }
}

/// Both at once.
#[inline(never)]
pub fn both_done(alloc: Global, one: Told, two: Result<Told, Stop>) -> Result<Told, Stop>
    requires { IfOk two (λ b. one.calls + b.calls < 2 ^ 64) }
    ensures { (x y : Run) (s v u w : StateTree) (n m l : ℕ) → GoesOn (Ok one) x s v n l → one.calls + m ≡ n → GoesOn two y u w m l → GoesOn result (par_run x y) (par_state s u) (par_state v w) n l }
{
    match two {
        Ok(b) => made(both(alloc, one, b)),
        Err(stop) => Err(stop),
    }
}

/// The first of two, which isn't whole, before code.
#[inline(never)]
pub fn waits_done(alloc: Global, one: Told) -> Result<Gone, Stop>
    ensures { (x y : Run) (s v u : StateTree) (later : LaterTree) (n l : ℕ) → GoesOn (Ok one) x s v n l → is_maximal x.out ≡ false → GoesOnAs result (cat_run x y) (if is_maximal x.out then u else cat_state s later) (cat_state v later) n l }
{
    match first(alloc, one) {
        Ok(a) => Ok(stays(a)),
        Err(_) => Err(Stop::Memory),
    }
}

/// The first of two, which is whole, and the second, whose state takes the place of both.
#[inline(never)]
pub fn turn_done(alloc: Global, one: Told, two: Result<Begun, Stop>) -> Result<Gone, Stop>
    requires { IfOk two (λ b. one.calls + b.calls < 2 ^ 64) }
    ensures { (x y : Run) (s v u w z : StateTree) (n m l : ℕ) → GoesOn (Ok one) x s v n l → is_maximal x.out ≡ true → one.calls + m ≡ n → Gives two y u m l → GoesOnAs result (cat_run x y) (if is_maximal x.out then u else w) z n l }
{
    match two {
        Ok(b) => followed(second(alloc, one, b)),
        Err(stop) => Err(stop),
    }
}

// What was made of two in turn, or want of memory.
fn followed(whole: Result<Gone, Memory>) -> Result<Gone, Stop>
    ensures { (x : Run) (s v : StateTree) (n l : ℕ) → IfOk whole (λ a. told a.told ≡ x) → IfOk whole (λ a. Eased s (left_after a.state v)) → IfOk whole (λ a. a.told.calls ≤ n) → IfOk whole (λ a. a.told.level ≤ l) → GoesOnAs result x s v n l }
{
    match whole {
        Ok(a) => Ok(a),
        Err(_) => Err(Stop::Memory),
    }
}

/// A name of this type, which moves on, bound to what the first gives in the second.
#[inline(never)]
pub fn let_done(
    alloc: Global,
    is_name: bool,
    t: &mut Ty,
    head: Told,
    body: Result<Told, Stop>,
) -> Result<Told, Stop>
    requires { IfOk body (λ b. head.calls + b.calls < 2 ^ 64) }
    ensures { (name : ℕ) (x y : Run) (s v u w : StateTree) (n m l j : ℕ) → GoesOn (Ok head) x s v n (l - 1) → head.calls + m ≡ n → j ≡ below (is_name || is_maximal (prefix_of head.output.value)) l → GoesOn body y u w m j → GoesOn result (let_run is_name x y) (let_state name (der x.out (type_of t.old)) s u) (let_state name (type_of t.new) v w) n l }
{
    match body {
        Ok(b) => made(bound_behind(alloc, is_name, t, head, b)),
        Err(stop) => Err(stop),
    }
}

// The second with the first bound to a name of this type, which moves on.
fn bound_behind(alloc: Global, is_name: bool, t: &mut Ty, a: Told, b: Told) -> Result<Told, Memory>
    requires { a.calls + b.calls < 2 ^ 64 }
    ensures run { IfOk result (λ r. told r ≡ let_run is_name (told a) (told b)) }
    ensures ty { OnOk result (type_of t.new ≡ der (prefix_of a.output.value) (type_of t.old)) }
{
    go_behind(alloc, t, &a.output)?;
    bound(is_name, a, b)
}

/// `let (x; y) = z` round what is left, once what came of z, of this type, is known.
#[inline(never)]
pub fn row_done(
    alloc: Global,
    x: Name,
    y: Name,
    z: Name,
    t: &Ty,
    p: &Prefix,
    a: &mut Live,
    inside: Result<Told, Stop>,
) -> Result<Gone, Stop>
    ensures { (e : Run) (s : StateTree) (n l : ℕ) → GoesOn inside e s (state_in a.old) n l → GoesOnAs result e (cut_state x.0 y.0 z.0 (type_of t.now) (prefix_of p.now) s) (let_cat_state x.0 y.0 z.0 (state_in a.new)) n l }
{
    match inside {
        Ok(given) => followed(cut(alloc, x, y, z, t, p, a, given)),
        Err(stop) => Err(stop),
    }
}

/// A body on its arguments, which get back the types that they lent.
#[inline(never)]
pub fn frame_done(
    alloc: Global,
    args: &mut Arguments,
    entries: Vec<Entry>,
    arguments: AllTold,
    body: Result<Told, Stop>,
) -> Result<Told, Stop>
    requires { IfOk body (λ b. arguments.calls + b.calls < 2 ^ 64) }
    ensures { (x : Runs) (y : Run) (s : ArgumentTrees) (u w : StateTree) (lent : List HeldName) (n m l j : ℕ) → AllGoOn (Ok arguments) x s (arguments_in args.old) lent [] (map entry_in entries.items) n (l - 1) → arguments.calls + m ≡ n → j ≡ below arguments.are_shut l → GoesOn body y u w m j → GoesOn result (frame_run x y) (frame_state s u) (frame_state (arguments_in args.new) w) n l }
{
    match body {
        Ok(b) => made(framed_behind(alloc, args, entries, arguments, b)),
        Err(stop) => {
            drop(entries);
            Err(stop)
        }
    }
}

// A body on its arguments, which get back the types that they lent.
fn framed_behind(
    alloc: Global,
    args: &mut Arguments,
    entries: Vec<Entry>,
    arguments: AllTold,
    b: Told,
) -> Result<Told, Memory>
    requires { arguments.calls + b.calls < 2 ^ 64 }
    ensures run { IfOk result (λ r. (runs : Runs) → runs.calls ≡ arguments.calls → runs.level ≡ arguments.level → runs.are_shut ≡ arguments.are_shut → told r ≡ frame_run runs (told b)) }
    ensures args { OnOk result (arguments_in args.new ≡ given_back (map entry_in entries.items) (arguments_in args.old)) }
{
    let mut lent = entries;
    let back = take_back(alloc, args, &mut lent);
    drop(lent);
    match back {
        Ok(()) => framed(arguments, b),
        Err(e) => Err(e),
    }
}

/// A body on one argument, which is a name of this type, which moves on over what came.
#[inline(never)]
pub fn named_done(
    alloc: Global,
    t: &mut Ty,
    p: &Prefix,
    body: Result<Told, Stop>,
) -> Result<Told, Stop>
    ensures { (x z : ℕ) (runs : Runs) (y : Run) (u w : StateTree) (n l : ℕ) → runs.calls ≡ 0 → runs.level ≡ 0 → runs.are_shut ≡ true → GoesOn body y u w n l → GoesOn result (frame_run runs y) (frame_state (argument_before x (der (prefix_of p.now) (type_of t.old)) (var_state z) no_arguments) u) (frame_state (argument_before x (type_of t.new) (var_state z) no_arguments) w) n l }
{
    match body {
        Ok(b) => made(named_behind(alloc, t, p, b)),
        Err(stop) => Err(stop),
    }
}

// A body on one argument, which is a name of this type, which moves on over what came.
fn named_behind(alloc: Global, t: &mut Ty, p: &Prefix, b: Told) -> Result<Told, Memory>
    ensures run { IfOk result (λ r. (runs : Runs) → runs.calls ≡ 0 → runs.level ≡ 0 → runs.are_shut ≡ true → told r ≡ frame_run runs (told b)) }
    ensures ty { OnOk result (type_of t.new ≡ der (prefix_of p.now) (type_of t.old)) }
{
    go_behind(alloc, t, p)?;
    framed(none_told(), b)
}

/// An argument, which gave this as the only one, in front of others.
#[inline(never)]
pub fn all_done(one: AllTold, others: Result<AllTold, Stop>) -> Result<AllTold, Stop>
    requires { IfOk others (λ b. one.calls + b.calls < 2 ^ 64) }
    ensures { (is_name : Bool) (name : ℕ) (t : StreamType) (x : Run) (y : Runs) (s v : StateTree) (u w : ArgumentTrees) (lent before found : List HeldName) (n m l : ℕ) → one.calls ≡ x.calls → one.level ≡ x.level → one.are_shut ≡ (is_name || is_maximal x.out) → x.calls ≤ n → x.level ≤ l → Eased s v → one.calls + m ≡ n → AllGoOn others y u w lent (before ++ record { name = name; type = t; prefix = x.out } ∷ []) found m l → AllGoOn result (run_before is_name x y) (argument_before name (der x.out t) s u) (argument_before name eps v w) (record { name = name; type = t; prefix = x.out } ∷ lent) before found n l }
{
    match others {
        Ok(b) => Ok(told_before(one.are_shut, one.calls, one.level, b)),
        Err(stop) => Err(stop),
    }
}
