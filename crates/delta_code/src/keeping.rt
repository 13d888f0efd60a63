//! The compiled machine kept, and going on from what was kept.

ghost use Rattle.delta_code.specs.CodedView.{CodedSince, coded_stands_since};

use crate::machine::{Coded, code_boxed, take};
use core_term::{Checked, copy_texts};
use delta_keep::Kept;
use delta_state::StepRefusal;
use event_word::Event;
use machine_kept::awaiting::{awaited_at, type_awaited};
use machine_kept::{Keeping, keep, wake};
use machine_parts::boxes::copy_boxed;
use machine_parts::place::place;
use std::alloc::Global;
use stream_prefix::Prefix;
use stream_type::Memory;

impl Keeping for Coded {
    ghost since = { CodedSince };

    ghost stands_since = { coded_stands_since };

    fn to_kept(&self, alloc: Global) -> Result<Kept, Memory> {
        let state = keep(alloc, &self.state)?;
        let place = place(alloc, &self.awaited)?;
        let out = copy_boxed(alloc, &self.output)?;
        Ok(Kept {
            events: self.events,
            ins: place.ins,
            cuts: place.cuts,
            out,
            state,
        })
    }

    fn from_kept(alloc: Global, c: &Checked, k: &Kept, budget: u64) -> Result<Coded, Memory> {
        let core = c.core();
        let code = code_boxed(alloc, core)?;
        let texts = copy_texts(alloc, &core.texts)?;
        let awaited = awaited_at(alloc, &core.main.params, &k.ins, &k.cuts)?;
        let input = type_awaited(alloc, &awaited)?;
        let output = copy_boxed(alloc, &k.out)?;
        let state = wake(alloc, &k.state)?;
        Ok(Coded {
            code,
            texts,
            budget,
            state,
            awaited,
            input,
            output,
            events: k.events,
            spent: 0,
        })
    }

    fn step_since(&mut self, alloc: Global, x: &Event) -> Result<Prefix, StepRefusal> {
        take(alloc, self, x)
    }
}
