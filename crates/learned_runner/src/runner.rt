//! A running program to the loop that learns its steps.

ghost use Rattle.std.specs.Prelude.{◌≡◌, ◌≤◌, [], List, Some, None, IsTrue, IfOk, IfSome, OnOk, OnErr, IsErrOf, Ok, Err, Result};
ghost use Rattle.stream_type.specs.StreamType.{reach_of};
ghost use Rattle.event_word.specs.StreamEvent.{StreamEvent};
ghost use Rattle.event_word.specs.declared.fault.EventFault.{EventFault};
ghost use Rattle.core_term.specs.CoreTerm.{core_of, fits_of};
ghost use Rattle.core_term.specs.Meaning.{mean};
ghost use Rattle.delta_state.specs.MachineView.{input_of};
ghost use Rattle.event_word.specs.Canon.{canon};
ghost use Rattle.event_frame.specs.Frames.{frames, longest};
ghost use Rattle.stream_prefix.specs.Tree.{prefix_of};
ghost use Rattle.delta_loop.specs.declared.stopping.Stop.{Stop};
ghost use Rattle.delta_loop.specs.Stopping.{StopsFor};
ghost use Rattle.delta_loop.specs.Meaning.{Meaning, Stands, HasBegun, IsCostly, IsDeep};
ghost use Rattle.delta_output.specs.LoopMeaning.{meaning_of};
ghost use Rattle.delta_session.specs.Programs.{one_shot};
ghost use Rattle.delta_code.specs.CodedView.{program_of};
ghost use Rattle.learned_runner.specs.Standing.{StandsFor, IsOfSame, StandsAsBefore, HasTaken};

use crate::again::{make, nothing_kept};
use crate::answering::answer;
use crate::book::{Book, find, nothing_learned};
use crate::noting::note;
use core_term::Checked;
use delta_code::Coded;
use delta_loop::{StepFault, Stepper, Stop};
use delta_runner::{BeginFault, Begins, word_frames};
use delta_state::{Machine, StepRefusal};
use event_frame::Version;
use event_word::{Event, canon};
use state_shapes::{Found, nothing};
use stations::{Standing, Values, unfold};
use std::alloc::Global;
use std::mem;
use stream_prefix::Prefix;
use stream_type::Memory;

/// A running program whose machine learns its steps. `StandsFor` of `specs/Standing.antt` says for which programs and
/// words it stands.
#[derive(Drop)]
pub struct Learner {
    /// The machine. At a station its state, what it awaits and its types are from before.
    pub machine: Coded,
    /// The version of the frames.
    pub version: Version,
    /// What was learned.
    pub book: Book,
    /// The number of the station at which the run stands, or none where it stands by itself.
    pub at: Option<usize>,
    /// The registers of that station.
    pub values: Values,
    /// What was found for the numbers of a step.
    pub found: Found,
    /// Room for the registers that a step leaves.
    pub spare: Values,
    /// For how many more events that aren't known it goes on to learn.
    pub patience: u64,
    /// Whether an answer was lost. The runner then stands for nothing.
    pub lost: bool,
}

/// For how many events that aren't known a run goes on to learn at most.
const PATIENCE: u64 = 1000;

/// The most calls that an event may make in a run that learns.
const MOST_CALLS: u64 = 1_000_000;

/// The most calls of an event that is learned: to learn one with many takes long.
const LEARNED_CALLS: u64 = 32;

impl Stepper for Learner {
    ghost stands = { StandsFor };

    ghost same_program = { IsOfSame };

    ghost same_at_first = { λ _ _ of. of };

    ghost same_throughout = { λ _ _ _ before after c of. after c (before c of) };

    fn step(&mut self, alloc: Global, event: Event) -> Result<Vec<u8>, StepFault> {
        match self.again(alloc, &event) {
            Ok(Some(bytes)) => Ok(bytes),
            Ok(None) => self.anew(alloc, &event),
            Err(Memory) => Err(StepFault::Memory),
        }
    }

    fn is_finished(&self) -> bool {
        if self.lost {
            return false;
        }
        match self.at {
            None => stream_type::null(&self.machine.input),
            Some(at) => match self.book.stations.get(at) {
                Some(station) => stream_type::null(&station.input),
                None => false,
            },
        }
    }
}

impl Learner {
    // Takes an event by a step that is known, if one is, and answers it. Its only error is want of memory.
    fn again(&mut self, alloc: Global, event: &Event) -> Result<Option<Vec<u8>>, Memory>
        requires { Stands StandsFor self.old }
        ensures taken { IfOk result (λ r. IfSome r (λ bytes. HasTaken self.old self.new event.now bytes.items)) }
        ensures same { (result ≡ Ok None → StandsAsBefore self.old self.new) × ((e : Memory) → result ≡ Err e → StandsAsBefore self.old self.new) }
        ensures program { IsOfSame self.old self.new }
    {
        let Some(at) = self.at else {
            return Ok(None);
        };
        let numbers = &self.values.numbers;
        match find(alloc, &self.book, at, numbers, event, &mut self.found) {
            Ok(Some(known)) => {
                let bytes = make(
                    alloc,
                    self.version,
                    &known.step,
                    &self.found,
                    &self.values,
                    &mut self.spare,
                )?;
                self.at = Some(known.to);
                self.machine.spent = known.step.calls;
                self.machine.events += 1;
                self.patience = PATIENCE.min(self.patience.saturating_add(1));
                mem::swap(&mut self.values, &mut self.spare);
                Ok(Some(bytes))
            }
            Ok(None) => Ok(None),
            Err(Memory) => Err(Memory),
        }
    }

    // Takes an event by the machine, and answers it.
    fn anew(&mut self, alloc: Global, event: &Event) -> Result<Vec<u8>, StepFault>
        requires { Stands StandsFor self.old }
        ensures taken { IfOk result (λ bytes. HasTaken self.old self.new event.now bytes.items) }
        ensures refused { (fault : EventFault) → IsErrOf result (StepFault.Refused fault) → (P : Meaning) (word : List StreamEvent) → StandsFor self.old P word
            → (P.fault word event.now ≡ Some fault) × StandsFor self.new P word }
        ensures untaken { OnErr result ((P : Meaning) (word : List StreamEvent) → StandsFor self.new P word → StandsFor self.old P word) }
        ensures costly { IsErrOf result StepFault.Budget → (P : Meaning) (word : List StreamEvent) → StandsFor self.old P word
            → (P.fault word event.now ≡ None) × IsCostly P word event.now }
        ensures deep { IsErrOf result StepFault.Deep → (P : Meaning) (word : List StreamEvent) → StandsFor self.old P word
            → (P.fault word event.now ≡ None) × IsDeep P word event.now }
        ensures program { IsOfSame self.old self.new }
    {
        let from = self.at;
        match self.leave(alloc) {
            Ok(()) => {}
            Err(Memory) => return Err(StepFault::Memory),
        }
        match answer(alloc, &mut self.machine, self.version, event) {
            Ok(bytes) => {
                self.note(alloc, from, event);
                Ok(bytes)
            }
            Err(StepFault::Refused(fault)) => Err(StepFault::Refused(fault)),
            Err(StepFault::Memory) => {
                self.lost = true;
                Err(StepFault::Memory)
            }
            Err(StepFault::Budget) => {
                self.lost = true;
                Err(StepFault::Budget)
            }
            Err(StepFault::Deep) => {
                self.lost = true;
                Err(StepFault::Deep)
            }
        }
    }

    // Leaves the station, so that the machine stands by itself. After an error all is as it was.
    fn leave(&mut self, alloc: Global) -> Result<(), Memory>
        requires { Stands StandsFor self.old }
        ensures left { OnOk result (self.new.at ≡ None) }
        ensures same { StandsAsBefore self.old self.new }
        ensures program { IsOfSame self.old self.new }
        ensures version { self.new.version ≡ self.old.version }
    {
        let Some(at) = self.at else {
            return Ok(());
        };
        let Some(station) = self.book.stations.get(at) else {
            return Err(Memory);
        };
        let Standing {
            state,
            awaited,
            input,
            output,
        } = unfold(alloc, station, &self.values)?;
        self.machine.state = state;
        self.machine.awaited = awaited;
        self.machine.input = input;
        self.machine.output = output;
        self.at = None;
        Ok(())
    }

    // Learns what it can of an event that was taken from this station, and goes to a station if it stands at one.
    fn note(&mut self, alloc: Global, from: Option<usize>, event: &Event)
        requires { self.old.at ≡ None }
        ensures stands { (P : Meaning) (word : List StreamEvent) → StandsFor self.old P word → StandsFor self.new P word }
        ensures program { IsOfSame self.old self.new }
    {
        if self.patience == 0
            || self.machine.budget > MOST_CALLS
            || self.machine.spent > LEARNED_CALLS
        {
            return;
        }
        self.patience -= 1;
        let noted = note(
            alloc,
            &self.machine,
            &mut self.book,
            from,
            &self.values,
            event,
        );
        match noted {
            Ok(Some((at, values))) => {
                self.at = Some(at);
                self.values = values;
            }
            Ok(None) => {}
            Err(_) => {}
        }
    }
}

/// Starts a program: its runner before any event, and the frames that come first.
pub fn begin(
    alloc: Global,
    c: &Checked,
    budget: u64,
    version: Version,
) -> Result<(Learner, Vec<u8>), BeginFault>
    requires fits { IsTrue (fits_of (core_of c.now)) }
    requires budget { budget ≤ 1000000 }
    requires short { reach_of (core_of c.now).main.result ≤ longest version }
    ensures begun { IfOk result (λ r. HasBegun StandsFor (meaning_of version budget (one_shot (core_of c.now))) r.0 (Some version) r.1.items) }
    ensures program { IfOk result (λ r. program_of r.0.machine ≡ core_of c.now) }
    ensures stopped { (why : Stop) → IsErrOf result (BeginFault.Stopped why) → StopsFor (meaning_of version budget (one_shot (core_of c.now))) why }
{
    let (machine, said) = match Coded::start(alloc, c, budget) {
        Ok(started) => started,
        Err(StepRefusal::Memory) => return Err(BeginFault::Memory),
        Err(StepRefusal::Budget(_)) => return Err(BeginFault::Stopped(Stop::Budget)),
        Err(StepRefusal::Deep(_)) => return Err(BeginFault::Stopped(Stop::Deep)),
    };
    let runner = Learner {
        machine,
        version,
        book: nothing_learned(alloc),
        at: None,
        values: nothing_kept(alloc),
        found: nothing(alloc),
        spare: nothing_kept(alloc),
        patience: PATIENCE,
        lost: false,
    };
    match first_frames(alloc, version, c, &said) {
        Ok(first) => Ok((runner, first)),
        Err(Memory) => Err(BeginFault::Memory),
    }
}

impl Begins for Learner {
    fn begin(
        alloc: Global,
        c: &Checked,
        budget: u64,
        version: Version,
    ) -> Result<(Learner, Vec<u8>), BeginFault> {
        begin(alloc, c, budget, version)
    }
}

// The frames of what a program says before any event.
fn first_frames(
    alloc: Global,
    version: Version,
    c: &Checked,
    said: &Prefix,
) -> Result<Vec<u8>, Memory>
    requires fits { IsTrue (fits_of (core_of c.now)) }
    requires short { reach_of (core_of c.now).main.result ≤ longest version }
    requires said { prefix_of said.now ≡ mean (core_of c.now) (input_of (core_of c.now) []) }
    ensures { IfOk result (λ bytes. bytes.items ≡ frames version (canon (prefix_of said.now))) }
{
    let word = canon(alloc, &c.core().main.result, said)?;
    word_frames(alloc, version, &word)
}
