//! The compiled machine.

ghost use Rattle.std.specs.Prelude.{◌≡◌, ◌<◌, ◌≤◌, ◌^◌, ◌+◌, ℕ, IfOk, OnOk, IsErrOf};
ghost use Rattle.stream_type.specs.StreamType.{type_of};
ghost use Rattle.stream_prefix.specs.StreamPrefix.{emp, der};
ghost use Rattle.stream_prefix.specs.Tree.{prefix_of};
ghost use Rattle.core_term.specs.CoreTerm.{core_of};
ghost use Rattle.delta_state.specs.PlainState.{state_of};
ghost use Rattle.delta_state.specs.PlaceTree.{place_of};
ghost use Rattle.delta_state.specs.Stands.{input_type};
ghost use Rattle.delta_state.specs.StateMeaning.{types_held};
ghost use Rattle.machine_parts.specs.AwaitedTree.{awaited_in, whole_of, entries_on, awaited_after};
ghost use Rattle.main_steps.specs.Laws.{first_run_on, first_state_on};
ghost use Rattle.state_rewriting.specs.Rewriting.{SimplerBy};
ghost use Rattle.template_state.specs.Readers.{state_in};
ghost use Rattle.delta_code.specs.Begun.{run_of, rest_of};
ghost use Rattle.delta_code.specs.Eased.{Eased};
ghost use Rattle.delta_code.specs.Told.{told};
ghost use Rattle.template_state.specs.Templates.{bodies_in, body_in};
ghost use Rattle.event_word.specs.Admits.{Admits};
ghost use Rattle.delta_code.specs.Beside.{IsReady};
ghost use Rattle.delta_code.specs.CodedView.{run_awaiting, rest_awaiting, program_of, view_of, run_by, TakesBy, IsReadyFor, CodedStands, coded_stands_after, coded_stays_below};

use crate::begun::Begun;
use crate::beside::step_next;
use crate::compiling::compile;
use crate::seeing::nothing_known;
use crate::starting::start;
use crate::told::Told;
use core_term::{Checked, Core, copy_texts};
use delta_state::{Machine, Place, State, StepRefusal};
use event_word::Event;
use in_place::go_behind;
use machine_bounds::Bounded;
use machine_parts::awaited::{Awaited, entries, go_on, whole};
use machine_parts::boxes::{copy_boxed, event_boxed, left_boxed};
use machine_parts::place::place;
use machine_parts::scope::Scope;
use machine_parts::stop::{HORIZON, LEVELS, refusal};
use std::alloc::Global;
use stream_prefix::{Prefix, empty};
use stream_type::{Memory, Ty};
use template_state::{Code, Live, count_states, held_events, plain, settle};

/// The compiled machine: it owns the templates of its program, and its state, which is changed in place. To the
/// contracts of machines it is its `view_of`, and it stands for its program as `CodedStands` says
/// (`specs/CodedView.antt`).
#[derive(Drop)]
pub struct Coded {
    /// The templates of its program.
    pub code: Box<Code>,
    /// The text of each name of the program.
    pub texts: Vec<String>,
    /// How many calls it may make at its start, and again at each event.
    pub budget: u64,
    /// Its state.
    pub state: Box<Live>,
    /// What is awaited of the input.
    pub awaited: Box<Awaited>,
    /// What is left of the type of the input.
    pub input: Box<Ty>,
    /// What is left of the type of the output.
    pub output: Box<Ty>,
    /// The number of events that it has taken.
    pub events: u64,
    /// The number of calls that it made at the last of them.
    pub spent: u64,
}

impl Coded {
    /// Its state without marks, and its place. Its only error is want of memory.
    pub fn to_state(&self, alloc: Global) -> Result<(State, Place), Memory>
        ensures state { IfOk result (λ r. state_of r.0 ≡ (view_of self.now).state) }
        ensures place { IfOk result (λ r. place_of r.1 ≡ (view_of self.now).place) }
    {
        let state = plain(alloc, &self.state)?;
        let place = place(alloc, &self.awaited)?;
        Ok((Box::into_inner(state), place))
    }
}

impl Machine for Coded {
    ghost seen = { view_of };

    ghost stands = { CodedStands };

    ghost stands_after = { coded_stands_after };

    fn start(alloc: Global, c: &Checked, budget: u64) -> Result<(Coded, Prefix), StepRefusal> {
        let core = c.core();
        let code = code_boxed(alloc, core)?;
        let awaited = whole(alloc, &core.main.params)?;
        let run = first_run(alloc, core, &code, c.input(), &awaited, budget)?;
        let output = left_boxed(alloc, &core.main.result, &run.output)?;
        let input = copy_boxed(alloc, c.input())?;
        let texts = copy_texts(alloc, &core.texts)?;
        let state = settled(alloc, run.state, &output)?;
        let machine = Coded {
            code,
            texts,
            budget,
            state,
            awaited,
            input,
            output,
            events: 0,
            spent: run.calls,
        };
        Ok((machine, Box::into_inner(run.output)))
    }

    fn step(&mut self, alloc: Global, x: &Event) -> Result<Prefix, StepRefusal> {
        take(alloc, self, x)
    }

    fn held(&self) -> u64 {
        held_events(&self.state)
    }

    fn nodes(&self) -> u64 {
        count_states(&self.state)
    }
}

impl Bounded for Coded {
    ghost stays_below = { coded_stays_below };
}

/// Takes an event that is admitted, where its state is typed and settled: the state goes on by its run on it. After an
/// error the machine is spent.
pub(crate) fn take(alloc: Global, machine: &mut Coded, x: &Event) -> Result<Prefix, StepRefusal>
    requires admitted { Admits (type_of machine.old.input.value) x.now }
    requires room { machine.old.events < 2 ^ 42 }
    requires ready { IsReadyFor machine.old x.now }
    ensures taken { IfOk result (λ p. TakesBy machine.old machine.new x.now (prefix_of p)) }
    ensures costly { (n : ℕ) → IsErrOf result (StepRefusal.Budget n) → (n ≡ machine.old.budget) × (n < (run_by machine.old x.now).calls) }
    ensures deep { (n : ℕ) → IsErrOf result (StepRefusal.Deep n) → (n ≡ 1001) × (1001 < (run_by machine.old x.now).level) }
{
    let next = event_boxed(alloc, &machine.input, x)?;
    let told = next_run(
        alloc,
        &machine.code,
        machine.budget,
        &machine.awaited,
        &mut machine.output,
        &mut machine.state,
        &next,
    )?;
    Ok(advance(alloc, machine, &next, told)?)
}

/// The code of a program, in a box of its own. Its only error is want of memory.
pub(crate) fn code_boxed(alloc: Global, c: &Core) -> Result<Box<Code>, Memory>
    ensures funs { IfOk result (λ r. bodies_in r.value ≡ (core_of c.now).funs) }
    ensures main { IfOk result (λ r. body_in r.value.main ≡ (core_of c.now).main) }
{
    let code = compile(alloc, c)?;
    Ok(Box::new(alloc, code)?)
}

// The run of a program, of which this is the code, before any event; its input has this type, and all of its
// context is awaited.
fn first_run(
    alloc: Global,
    core: &Core,
    code: &Code,
    input: &Ty,
    awaited: &Awaited,
    budget: u64,
) -> Result<Begun, StepRefusal>
    requires funs { bodies_in code.now ≡ (core_of core.now).funs }
    requires main { body_in code.now.main ≡ (core_of core.now).main }
    requires input { type_of input.now ≡ input_type (core_of core.now) }
    requires awaited { awaited_in awaited.now ≡ whole_of (core_of core.now).main.params }
    requires budget { budget ≤ 1000000 }
    ensures run { IfOk result (λ r. run_of r ≡ first_run_on (core_of core.now) (entries_on (whole_of (core_of core.now).main.params) (emp (input_type (core_of core.now))))) }
    ensures rest { IfOk result (λ r. Eased (first_state_on (core_of core.now) (entries_on (whole_of (core_of core.now).main.params) (emp (input_type (core_of core.now))))) (rest_of r)) }
    ensures counted { IfOk result (λ r. r.calls ≤ budget) }
    ensures shallow { IfOk result (λ r. r.level ≤ 1001) }
    ensures costly { (n : ℕ) → IsErrOf result (StepRefusal.Budget n) → (n ≡ budget) × (budget < (first_run_on (core_of core.now) (entries_on (whole_of (core_of core.now).main.params) (emp (input_type (core_of core.now))))).calls) }
    ensures deep { (n : ℕ) → IsErrOf result (StepRefusal.Deep n) → (n ≡ 1001) × (1001 < (first_run_on (core_of core.now) (entries_on (whole_of (core_of core.now).main.params) (emp (input_type (core_of core.now))))).level) }
{
    let nothing = empty(alloc, input)?;
    let entries = entries(alloc, awaited, &nothing)?;
    let scope = Scope::Names(&entries);
    let past = nothing_known(alloc)?;
    let body = &code.main.body;
    let result = &code.main.result;
    match start(
        alloc, code, HORIZON, &scope, &past, body, result, budget, LEVELS,
    ) {
        Ok(begun) => Ok(begun),
        Err(stop) => Err(refusal(stop, budget)),
    }
}

// A state of which this type is left in a simpler form.
fn settled(alloc: Global, state: Box<Live>, output: &Ty) -> Result<Box<Live>, Memory>
    ensures { IfOk result (λ r. SimplerBy (type_of output.now) (state_in state.value) (state_in r.value)) }
{
    let mut state = state;
    settle(alloc, &mut state, output)?;
    Ok(state)
}

// The run of a state on what comes next, where so much is awaited and this type is left of its output; the state
// is then what is left of it in a simpler form, and so is the type.
fn next_run(
    alloc: Global,
    code: &Code,
    budget: u64,
    awaited: &Awaited,
    output: &mut Ty,
    state: &mut Live,
    next: &Prefix,
) -> Result<Told, StepRefusal>
    requires { IsReady (bodies_in code.now) (types_held (entries_on (awaited_in awaited.now) (prefix_of next.now))) (state_in state.old) (type_of output.old) }
    ensures run { IfOk result (λ r. told r ≡ run_awaiting code.now (state_in state.old) (type_of output.old) (awaited_in awaited.now) (prefix_of next.now)) }
    ensures rest { OnOk result (SimplerBy (type_of output.new) (rest_awaiting code.now (state_in state.old) (type_of output.old) (awaited_in awaited.now) (prefix_of next.now)) (state_in state.new)) }
    ensures output { OnOk result (type_of output.new ≡ der (run_awaiting code.now (state_in state.old) (type_of output.old) (awaited_in awaited.now) (prefix_of next.now)).out (type_of output.old)) }
    ensures counted { IfOk result (λ r. r.calls ≤ budget) }
    ensures costly { (n : ℕ) → IsErrOf result (StepRefusal.Budget n) → (n ≡ budget) × (n < (run_awaiting code.now (state_in state.old) (type_of output.old) (awaited_in awaited.now) (prefix_of next.now)).calls) }
    ensures deep { (n : ℕ) → IsErrOf result (StepRefusal.Deep n) → (n ≡ 1001) × (1001 < (run_awaiting code.now (state_in state.old) (type_of output.old) (awaited_in awaited.now) (prefix_of next.now)).level) }
{
    match step_next(alloc, code, awaited, next, state, output, budget) {
        Ok(told) => Ok(told),
        Err(stop) => Err(refusal(stop, budget)),
    }
}

// Goes on once this came, and answers what the run gave. After an error the machine is spent.
fn advance(alloc: Global, machine: &mut Coded, next: &Prefix, run: Told) -> Result<Prefix, Memory>
    requires { machine.old.events < 2 ^ 42 }
    ensures program { OnOk result (program_of machine.new ≡ program_of machine.old) }
    ensures budget { OnOk result (machine.new.budget ≡ machine.old.budget) }
    ensures state { OnOk result (state_in machine.new.state.value ≡ state_in machine.old.state.value) }
    ensures awaited { OnOk result (awaited_in machine.new.awaited.value ≡ awaited_after (awaited_in machine.old.awaited.value) (prefix_of next.now)) }
    ensures input { OnOk result (type_of machine.new.input.value ≡ der (prefix_of next.now) (type_of machine.old.input.value)) }
    ensures output { OnOk result (type_of machine.new.output.value ≡ type_of machine.old.output.value) }
    ensures events { OnOk result (machine.new.events ≡ machine.old.events + 1) }
    ensures spent { OnOk result (machine.new.spent ≡ run.calls) }
    ensures answer { IfOk result (λ p. prefix_of p ≡ (told run).out) }
{
    go_behind(alloc, &mut machine.input, next)?;
    go_on(alloc, &mut machine.awaited, next)?;
    machine.events += 1;
    machine.spent = run.calls;
    Ok(Box::into_inner(run.output))
}
