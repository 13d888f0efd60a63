//! States changed in place by more of their input: what they give, form by form.

ghost use Rattle.std.specs.Prelude.{◌≡◌, ◌<◌, ◌≤◌, map, IfOk, OnOk, IfErr, IfSome};
ghost use Rattle.stream_type.specs.StreamType.{type_of};
ghost use Rattle.delta_state.specs.StateTree.{is_var_state, var_state, par_state, cat_state, let_state, let_par_state, let_cat_state, frame_state, no_arguments, argument_before};
ghost use Rattle.machine_parts.specs.Entry.{entry_in};
ghost use Rattle.machine_parts.specs.Parameters.{parameters};
ghost use Rattle.template_state.specs.Readers.{state_in, later_in, arguments_in};
ghost use Rattle.delta_code.specs.Eased.{Eased};
ghost use Rattle.delta_code.specs.GoesOn.{GoesOn, GoesOnAs, AllGoOn};
ghost use Rattle.delta_code.specs.Told.{told};
ghost use Rattle.delta_code.specs.Steps.{live_run, live_rest, lives_run, lives_rest};

use crate::lent::keep;
use crate::states_done::{
    all_done, both_done, frame_done, let_done, named_done, put_done, row_done, turn_done,
    waits_done,
};
use crate::states_held::{open, step_alone};
use crate::told::{AllTold, Gone, Told, none_told};
use bunch::Name;
use machine_parts::entry::Entry;
use machine_parts::levels::{after_head, inside, on_arguments};
use machine_parts::parts::{cat_types, first_part, par_parts, par_types, second_part};
use machine_parts::scope::{Scope, stream_at, type_at};
use machine_parts::stop::Stop;
use std::alloc::Global;
use stream_prefix::{Prefix, maximal};
use stream_type::Ty;
use template_state::{Arguments, Code, Later, Live};

/// What a state gives in its scope, with what is left of its type, where it makes at most as many calls as are
/// left, none of them at a greater level from below than `levels`; it then is what is left of it: `run_state`
/// and `rest_of` in `delta_state`. It is `Spent` only where it makes more, and `Deep` only where it makes one
/// at a greater level. Its other error is want of memory. After an error the state is partly changed.
pub fn step<'a>(
    alloc: Global,
    code: &Code,
    scope: &'a Scope<'a>,
    s: &mut Live,
    r: &Ty,
    left: u64,
    levels: u64,
) -> Result<Told, Stop>
    ensures run { IfOk result (λ g. told g ≡ live_run code.now scope.now (state_in s.old) (type_of r.now)) }
    ensures rest { OnOk result (Eased (live_rest code.now scope.now (state_in s.old) (type_of r.now)) (state_in s.new)) }
    ensures counted { IfOk result (λ g. g.calls ≤ left) }
    ensures shallow { IfOk result (λ g. g.level ≤ levels) }
    ensures spent { IfErr result (λ e. e ≡ Stop.Spent → left < (live_run code.now scope.now (state_in s.old) (type_of r.now)).calls) }
    ensures deep { IfErr result (λ e. e ≡ Stop.Deep → levels < (live_run code.now scope.now (state_in s.old) (type_of r.now)).level) }
{
    step_state(alloc, code, scope, s, r, left, levels)
}

/// The same as one fact, form by form.
#[cycle(step)]
pub(crate) fn step_state<'a>(
    alloc: Global,
    code: &Code,
    scope: &'a Scope<'a>,
    s: &mut Live,
    r: &Ty,
    left: u64,
    levels: u64,
) -> Result<Told, Stop>
    ensures { GoesOn result (live_run code.now scope.now (state_in s.old) (type_of r.now)) (live_rest code.now scope.now (state_in s.old) (type_of r.now)) (state_in s.new) left levels }
{
    match s {
        Live::Par(a, b) => step_both(alloc, code, scope, a, b, r, left, levels),
        Live::Cat(a, l) => {
            let gone = step_in_turn(alloc, code, scope, a, l, r, left, levels);
            put_done(s, gone)
        }
        Live::Let(x, t, a, b) => step_let(alloc, code, scope, *x, t, a, b, r, left, levels),
        Live::LetPar(x, y, z, a) => step_pair(alloc, code, scope, *x, *y, *z, a, r, left, levels),
        Live::LetCat(x, y, z, a) => {
            let gone = step_row(alloc, code, scope, *x, *y, *z, a, r, left, levels);
            put_done(s, gone)
        }
        Live::Frame(args, a) => step_frame(alloc, code, scope, args, a, r, left, levels),
        Live::Sink(_)
        | Live::Var(_)
        | Live::CaseSum(_, _, _, _, _, _, _)
        | Live::CaseStar(_, _, _, _, _, _, _)
        | Live::Wait(_, _, _, _) => step_alone(alloc, code, scope, s, r, left, levels),
    }
}

// Both at once.
#[cycle(step)]
#[inline(never)]
fn step_both<'a>(
    alloc: Global,
    code: &Code,
    scope: &'a Scope<'a>,
    a: &mut Live,
    b: &mut Live,
    r: &Ty,
    left: u64,
    levels: u64,
) -> Result<Told, Stop>
    ensures { GoesOn result (live_run code.now scope.now (par_state (state_in a.old) (state_in b.old)) (type_of r.now)) (live_rest code.now scope.now (par_state (state_in a.old) (state_in b.old)) (type_of r.now)) (par_state (state_in a.new) (state_in b.new)) left levels }
{
    let (t, u) = par_types(r, &Ty::Eps);
    match step_state(alloc, code, scope, a, t, left, levels) {
        Ok(one) => {
            let two = step_state(alloc, code, scope, b, u, left - one.calls, levels);
            both_done(alloc, one, two)
        }
        Err(stop) => Err(stop),
    }
}

// The rest of the first, then the second.
#[cycle(step)]
#[inline(never)]
fn step_in_turn<'a>(
    alloc: Global,
    code: &Code,
    scope: &'a Scope<'a>,
    a: &mut Live,
    l: &Later,
    r: &Ty,
    left: u64,
    levels: u64,
) -> Result<Gone, Stop>
    ensures { GoesOnAs result (live_run code.now scope.now (cat_state (state_in a.old) (later_in l.now)) (type_of r.now)) (live_rest code.now scope.now (cat_state (state_in a.old) (later_in l.now)) (type_of r.now)) (cat_state (state_in a.new) (later_in l.now)) left levels }
{
    let (t, u) = cat_types(r, &Ty::Eps);
    match step_state(alloc, code, scope, a, t, left, levels) {
        Ok(one) => {
            if !maximal(&one.output) {
                return waits_done(alloc, one);
            }
            let two = open(alloc, code, scope, l, u, left - one.calls, levels);
            turn_done(alloc, one, two)
        }
        Err(stop) => Err(stop),
    }
}

// A let.
#[cycle(step)]
#[inline(never)]
fn step_let<'a>(
    alloc: Global,
    code: &Code,
    scope: &'a Scope<'a>,
    x: Name,
    t: &mut Ty,
    a: &mut Live,
    b: &mut Live,
    r: &Ty,
    left: u64,
    levels: u64,
) -> Result<Told, Stop>
    ensures { GoesOn result (live_run code.now scope.now (let_state x.0 (type_of t.old) (state_in a.old) (state_in b.old)) (type_of r.now)) (live_rest code.now scope.now (let_state x.0 (type_of t.old) (state_in a.old) (state_in b.old)) (type_of r.now)) (let_state x.0 (type_of t.new) (state_in a.new) (state_in b.new)) left levels }
{
    let named = is_name(a);
    match step_state(alloc, code, scope, a, t, left, inside(levels)) {
        Ok(head) => {
            let after = after_head(named, &head.output, levels);
            let inner = Scope::Stream(x, &*t, &head.output, &*scope);
            let body = step_state(alloc, code, &inner, b, r, left - head.calls, after);
            let_done(alloc, named, t, head, body)
        }
        Err(stop) => Err(stop),
    }
}

// `let (x, y) = z`.
#[cycle(step)]
#[inline(never)]
fn step_pair<'a>(
    alloc: Global,
    code: &Code,
    scope: &'a Scope<'a>,
    x: Name,
    y: Name,
    z: Name,
    a: &mut Live,
    r: &Ty,
    left: u64,
    levels: u64,
) -> Result<Told, Stop>
    ensures { GoesOn result (live_run code.now scope.now (let_par_state x.0 y.0 z.0 (state_in a.old)) (type_of r.now)) (live_rest code.now scope.now (let_par_state x.0 y.0 z.0 (state_in a.old)) (type_of r.now)) (let_par_state x.0 y.0 z.0 (state_in a.new)) left levels }
{
    let (s, t) = par_types(type_at(&*scope, z, &Ty::Eps), &Ty::Eps);
    let (u, v) = par_parts(stream_at(&*scope, z, &Prefix::EpsEmp), &Prefix::EpsEmp);
    let outer = Scope::Stream(x, s, u, &*scope);
    let inner = Scope::Stream(y, t, v, &outer);
    step_state(alloc, code, &inner, a, r, left, levels)
}

// `let (x; y) = z`.
#[cycle(step)]
#[inline(never)]
fn step_row<'a>(
    alloc: Global,
    code: &Code,
    scope: &'a Scope<'a>,
    x: Name,
    y: Name,
    z: Name,
    a: &mut Live,
    r: &Ty,
    left: u64,
    levels: u64,
) -> Result<Gone, Stop>
    ensures { GoesOnAs result (live_run code.now scope.now (let_cat_state x.0 y.0 z.0 (state_in a.old)) (type_of r.now)) (live_rest code.now scope.now (let_cat_state x.0 y.0 z.0 (state_in a.old)) (type_of r.now)) (let_cat_state x.0 y.0 z.0 (state_in a.new)) left levels }
{
    let ty = type_at(&*scope, z, &Ty::Eps);
    let p = stream_at(&*scope, z, &Prefix::EpsEmp);
    let (s, t) = cat_types(ty, &Ty::Eps);
    let Ok(v) = second_part(alloc, t, p) else {
        return Err(Stop::Memory);
    };
    let outer = Scope::Stream(x, s, first_part(p, &Prefix::EpsEmp), &*scope);
    let inner = Scope::Stream(y, t, &v, &outer);
    let given = step_state(alloc, code, &inner, a, r, left, levels);
    row_done(alloc, x, y, z, ty, p, a, given)
}

// A body on its arguments.
#[cycle(step)]
#[inline(never)]
fn step_frame<'a>(
    alloc: Global,
    code: &Code,
    scope: &'a Scope<'a>,
    args: &mut Arguments,
    a: &mut Live,
    r: &Ty,
    left: u64,
    levels: u64,
) -> Result<Told, Stop>
    ensures { GoesOn result (live_run code.now scope.now (frame_state (arguments_in args.old) (state_in a.old)) (type_of r.now)) (live_rest code.now scope.now (frame_state (arguments_in args.old) (state_in a.old)) (type_of r.now)) (frame_state (arguments_in args.new) (state_in a.new)) left levels }
{
    match args {
        Arguments::Before(x, t, s, others) => match only_name(s, others) {
            Some(z) => step_on_name(alloc, code, scope, *x, t, z, a, r, left, levels),
            None => step_on_all(alloc, code, scope, args, a, r, left, levels),
        },
        Arguments::None => step_on_all(alloc, code, scope, args, a, r, left, levels),
    }
}

// A body on one argument, which is a name: its type, and what comes on it, are read where they stand.
#[cycle(step)]
#[inline(never)]
fn step_on_name<'a>(
    alloc: Global,
    code: &Code,
    scope: &'a Scope<'a>,
    x: Name,
    t: &mut Ty,
    z: Name,
    a: &mut Live,
    r: &Ty,
    left: u64,
    levels: u64,
) -> Result<Told, Stop>
    ensures { GoesOn result (live_run code.now scope.now (frame_state (argument_before x.0 (type_of t.old) (var_state z.0) no_arguments) (state_in a.old)) (type_of r.now)) (live_rest code.now scope.now (frame_state (argument_before x.0 (type_of t.old) (var_state z.0) no_arguments) (state_in a.old)) (type_of r.now)) (frame_state (argument_before x.0 (type_of t.new) (var_state z.0) no_arguments) (state_in a.new)) left levels }
{
    let p = stream_at(&*scope, z, &Prefix::EpsEmp);
    let outer = Scope::Names(&[]);
    let inner = Scope::Stream(x, &*t, p, &outer);
    let body = step_state(alloc, code, &inner, a, r, left, levels);
    named_done(alloc, t, p, body)
}

// A body on any number of arguments.
#[cycle(step)]
#[inline(never)]
fn step_on_all<'a>(
    alloc: Global,
    code: &Code,
    scope: &'a Scope<'a>,
    args: &mut Arguments,
    a: &mut Live,
    r: &Ty,
    left: u64,
    levels: u64,
) -> Result<Told, Stop>
    ensures { GoesOn result (live_run code.now scope.now (frame_state (arguments_in args.old) (state_in a.old)) (type_of r.now)) (live_rest code.now scope.now (frame_state (arguments_in args.old) (state_in a.old)) (type_of r.now)) (frame_state (arguments_in args.new) (state_in a.new)) left levels }
{
    let mut entries = Vec::new(alloc);
    match step_arguments(alloc, code, scope, args, left, inside(levels), &mut entries) {
        Ok(arguments) => {
            let rest = left - arguments.calls;
            let on_those = on_arguments(arguments.are_shut, levels);
            let names = Scope::Names(&entries);
            let body = step_state(alloc, code, &names, a, r, rest, on_those);
            frame_done(alloc, args, entries, arguments, body)
        }
        Err(stop) => {
            drop(entries);
            Err(stop)
        }
    }
}

// The arguments of a frame, each put with its type from before behind what was found, which the type is lent to.
#[cycle(step)]
#[inline(never)]
fn step_arguments<'a>(
    alloc: Global,
    code: &Code,
    scope: &'a Scope<'a>,
    args: &mut Arguments,
    left: u64,
    levels: u64,
    found: &mut Vec<Entry>,
) -> Result<AllTold, Stop>
    ensures { AllGoOn result (lives_run code.now scope.now (arguments_in args.old)) (lives_rest code.now scope.now (arguments_in args.old)) (arguments_in args.new) (parameters (arguments_in args.old) (lives_run code.now scope.now (arguments_in args.old)).outs) (map entry_in found.old.items) (map entry_in found.new.items) left levels }
{
    let Arguments::Before(x, t, a, others) = args else {
        return Ok(none_told());
    };
    let named = is_name(a);
    match step_state(alloc, code, scope, a, t, left, levels) {
        Ok(told) => {
            let Ok(one) = keep(named, *x, t, told, found) else {
                return Err(Stop::Memory);
            };
            let rest = left - one.calls;
            let after = step_arguments(alloc, code, scope, others, rest, levels, found);
            all_done(one, after)
        }
        Err(stop) => Err(stop),
    }
}

// The name that an argument is, if it is one and no other argument stands behind it.
fn only_name(s: &Live, others: &Arguments) -> Option<Name>
    ensures name { IfSome result (λ z. state_in s.now ≡ var_state z.0) }
    ensures only { IfSome result (λ z. arguments_in others.now ≡ no_arguments) }
{
    match (s, others) {
        (Live::Var(z), Arguments::None) => Some(*z),
        _ => None,
    }
}

// Whether a state is a name.
fn is_name(s: &Live) -> bool
    ensures { result ≡ is_var_state (state_in s.now) }
{
    matches!(s, Live::Var(_))
}
