//! What is still to be derived, and what one line makes of it.

ghost use Rattle.std.specs.Prelude.{◌≡◌, ◌++◌, ◌∷◌, [], suc, false, Ok, Some, map, IfOk, IfErr, OnOk};
ghost use Rattle.hist_value.specs.Environment.{types_of};
ghost use Rattle.core_term.specs.CoreTerm.{core_of, core_body_of, typed_names_of};
ghost use Rattle.core_term.specs.Typing.{past_params};
ghost use Rattle.bunch_rules.specs.Written.{step_at};
ghost use Rattle.delta_check.specs.Counting.{counts_in};
ghost use Rattle.delta_derive.specs.LineText.{turn_of, step_of, line_of};
ghost use Rattle.delta_derive.specs.Claims.{program_claims, body_claim};
ghost use Rattle.delta_derive.specs.OpenTerms.{claim_of, claims_in, Adds, Leaves};
ghost use Rattle.delta_derive.specs.FirstFault.{TextLines, after, fault_at, first_from, TellsFirst};

use crate::fault::DeriveFault;
use crate::line::{Line, Step, Turn};
use crate::open::{OpenTerm, add, push, put_entry};
use crate::ruling::{add_parts, add_parts_by};
use crate::stepping::rearrange;
use crate::trees::copied;
use bunch::Name;
use core_term::{Body, Core};
use hist_value::{HTy, past};
use std::alloc::Global;
use stream_type::{Memory, Ty};

/// The terms of a program that are to be derived at first, the next one last: the bodies of its functions in turn,
/// and main's after them. Its only error is want of memory.
#[tactic(auto, using(crate::proofs::Fronts::fronts))]
pub fn first_goals<'a>(alloc: Global, c: &'a Core) -> Result<Vec<OpenTerm<'a>>, Memory>
    ensures { IfOk result (λ v. claims_in v.items ≡ program_claims (core_of c.now)) }
{
    let mut goals = Vec::new(alloc);
    match add_bodies(alloc, c, &mut goals) {
        Ok(_) => {
            goals.reverse();
            Ok(goals)
        }
        Err(memory) => {
            drop(goals);
            Err(memory)
        }
    }
}

// Adds the bodies of a program in turn, and answers true.
#[tactic(auto, using(crate::proofs::Fronts::fronts))]
fn add_bodies<'a>(alloc: Global, c: &'a Core, goals: &mut Vec<OpenTerm<'a>>) -> Result<bool, Memory>
    ensures { OnOk result (map claim_of goals.new.items ≡ map claim_of goals.old.items ++ program_claims (core_of c.now)) }
{
    for body in &c.funs {
        match add_body(alloc, body, goals) {
            Ok(_) => {}
            Err(memory) => return Err(memory),
        }
    }
    add_body(alloc, &c.main, goals)
}

// Adds the body of a function, and answers true.
fn add_body<'a>(alloc: Global, b: &'a Body, goals: &mut Vec<OpenTerm<'a>>) -> Result<bool, Memory>
    ensures { IfOk result (Adds (Some (body_claim (core_body_of b.now) ∷ [])) goals.old.items goals.new.items) }
{
    let known = known_params(alloc, &b.past);
    let bunch = copied(alloc, &b.params);
    add(known, bunch, &b.body, &b.result, goals)
}

// The types of historical parameters; of two with one name the first counts.
#[tactic(auto, using(crate::proofs::Fronts::fronts))]
fn known_params(alloc: Global, params: &[(Name, Ty)]) -> Result<Vec<(Name, HTy)>, Memory>
    ensures { IfOk result (λ v. types_of v.items ≡ past_params (typed_names_of params.now)) }
{
    let mut known = Vec::new(alloc);
    for param in params {
        match put_entry(&mut known, param.0, past(alloc, &param.1)) {
            Ok(()) => {}
            Err(memory) => {
                drop(known);
                return Err(memory);
            }
        }
    }
    known.reverse();
    Ok(known)
}

/// Takes the line with this number: it goes on as `first_from` of `specs/FirstFault.antt` says. Its error other than
/// want of memory is the fault of the line.
#[tactic(auto, using(crate::proofs::InFront::in_front))]
pub fn take_line<'a>(
    alloc: Global,
    c: &'a Core,
    marks: &[bool],
    goals: &mut Vec<OpenTerm<'a>>,
    line: &Line,
    number: u32,
) -> Result<(), DeriveFault>
    ensures on { OnOk result ((ls : TextLines) → first_from (core_of c.now).funs (counts_in (core_of c.now).funs marks.now) number (claims_in goals.old.items) (Some (line_of line.now) ∷ ls) ≡ first_from (core_of c.now).funs (counts_in (core_of c.now).funs marks.now) (suc number) (claims_in goals.new.items) ls) }
    ensures first { IfErr result (λ f. (ls : TextLines) → TellsFirst f (first_from (core_of c.now).funs (counts_in (core_of c.now).funs marks.now) number (claims_in goals.old.items) (Some (line_of line.now) ∷ ls))) }
{
    match goals.pop() {
        None => Err(DeriveFault::Long(number)),
        Some(aim) => match take(alloc, c, marks, goals, aim, line) {
            Ok(true) => Ok(()),
            Ok(false) => Err(fault_at(number, line)),
            Err(Memory) => Err(DeriveFault::Memory),
        },
    }
}

// The fault of a line that isn't valid.
fn fault_at(number: u32, line: &Line) -> DeriveFault
    ensures { result ≡ fault_at number (line_of line.now) }
{
    match line {
        Line::Rule | Line::RuleAt(_) => DeriveFault::BadRule(number),
        Line::Step(_, _) => DeriveFault::BadStep(number),
    }
}

// Puts what a line leaves of a term in front of the others, and says whether the line is valid.
fn take<'a>(
    alloc: Global,
    c: &'a Core,
    marks: &[bool],
    goals: &mut Vec<OpenTerm<'a>>,
    aim: OpenTerm<'a>,
    line: &Line,
) -> Result<bool, Memory>
    ensures { IfOk result (Leaves (after (core_of c.now).funs (counts_in (core_of c.now).funs marks.now) (line_of line.now) (claim_of aim.entry)) goals.old.items goals.new.items) }
{
    match line {
        Line::Rule => {
            let mut parts = Vec::new(alloc);
            let added = add_parts(alloc, c, marks, &aim, &mut parts);
            drop(aim);
            put_in_front(goals, parts, added)
        }
        Line::RuleAt(path) => {
            let mut parts = Vec::new(alloc);
            let added = add_parts_by(alloc, c, marks, &aim, path, &mut parts);
            drop(aim);
            put_in_front(goals, parts, added)
        }
        Line::Step(step, path) => take_step(alloc, goals, aim, *step, path),
    }
}

// A step.
#[tactic(auto, using(crate::proofs::Fronts::fronts))]
fn take_step<'a>(
    alloc: Global,
    goals: &mut Vec<OpenTerm<'a>>,
    mut aim: OpenTerm<'a>,
    step: Step,
    path: &[Turn],
) -> Result<bool, Memory>
    ensures { IfOk result (Leaves (after [] (λ _. false) (step_at (step_of step) (map turn_of path.now)) (claim_of aim.entry)) goals.old.items goals.new.items) }
{
    match rearrange(alloc, &mut aim.bunch, path, step) {
        Ok(valid) => match push(aim, goals) {
            Ok(_) => Ok(valid),
            Err(memory) => Err(memory),
        },
        Err(memory) => {
            drop(aim);
            Err(memory)
        }
    }
}

// Puts the parts of a term in front of those that are to be derived, so that the first of them is next, and answers
// what is said of them.
fn put_in_front<'a>(
    goals: &mut Vec<OpenTerm<'a>>,
    parts: Vec<OpenTerm<'a>>,
    added: Result<bool, Memory>,
) -> Result<bool, Memory>
    ensures moved { OnOk result (claims_in goals.new.items ≡ map claim_of parts.entry.items ++ claims_in goals.old.items) }
    ensures said { IfOk result (λ valid. added ≡ Ok valid) }
{
    match added {
        Ok(valid) => match move_in_front(goals, parts) {
            Ok(()) => Ok(valid),
            Err(memory) => Err(memory),
        },
        Err(memory) => {
            drop(parts);
            Err(memory)
        }
    }
}

// Puts terms in front of those that are to be derived, so that the first of them is next.
#[tactic(auto, using(crate::proofs::Fronts::fronts))]
fn move_in_front<'a>(
    goals: &mut Vec<OpenTerm<'a>>,
    mut parts: Vec<OpenTerm<'a>>,
) -> Result<(), Memory>
    ensures { OnOk result (claims_in goals.new.items ≡ map claim_of parts.entry.items ++ claims_in goals.old.items) }
{
    'moving: while let Some(part) = parts.pop() {
        match push(part, goals) {
            Ok(_) => {}
            Err(memory) => {
                drop(parts);
                return Err(memory);
            }
        }
    }
    drop(parts);
    Ok(())
}
