//! Kept states that go over templates and back.

use crate::kept_bytes::states;
use delta_keep::{Kept, KeptState, dismiss, read_kept, save};
use machine_kept::{keep, wake};
use std::alloc::Global;
use std::test::Fail;
use stream_type::{Memory, Ty};

// How many bytes stand before the state where no event was taken, there is no input, and the output is null.
const HEAD: usize = 21;

// A state once it was woken and kept again.
fn woken(alloc: Global, s: &KeptState) -> Result<Box<KeptState>, Memory> {
    match wake(alloc, s) {
        Ok(live) => {
            let kept = keep(alloc, &live);
            drop(live);
            kept
        }
        Err(Memory) => Err(Memory),
    }
}

// A state behind that head.
fn kept_alone(alloc: Global, state: Box<KeptState>) -> Result<Kept, Memory> {
    let out = Box::new(alloc, Ty::Eps)?;
    Ok(Kept {
        events: 0,
        ins: Vec::new(alloc),
        cuts: Vec::new(alloc),
        out,
        state,
    })
}

// The bytes of a state behind that head.
fn bytes_alone(alloc: Global, state: Box<KeptState>) -> Result<Vec<u8>, Fail> {
    match kept_alone(alloc, state) {
        Ok(k) => {
            let bytes = save(alloc, &k);
            dismiss(k);
            Ok(bytes?)
        }
        Err(Memory) => Err(Memory.into()),
    }
}

// The bytes of the state of a kept state once it was woken and kept again.
fn again(alloc: Global, bytes: &[u8]) -> Result<Vec<u8>, Fail> {
    match read_kept(alloc, bytes) {
        Ok(k) => {
            let kept = woken(alloc, &k.state);
            dismiss(k);
            bytes_alone(alloc, kept?)
        }
        Err(fault) => Err(fault.into()),
    }
}

// Whether the bytes are the last of the others, but for the head and for places of nodes, which are 0.
fn are_alike(bytes: &[u8], others: &[u8]) -> bool {
    if bytes.len() <= HEAD || others.len() < bytes.len() - HEAD {
        return false;
    }
    let state = &bytes[HEAD..];
    for (byte, other) in state.iter().zip(&others[others.len() - state.len()..]) {
        if *byte != *other && *byte != 0 {
            return false;
        }
    }
    true
}

fn stays(alloc: Global, bytes: &[u8]) -> Result<bool, Fail> {
    let woken = again(alloc, bytes)?;
    let twice = again(alloc, &woken)?;
    Ok(are_alike(&woken, bytes) && woken.as_slice() == twice.as_slice())
}

#[test]
fn a_woken_state_is_kept_as_it_was(rt: HostRuntime) -> Result<(), Fail> {
    for bytes in states() {
        assert!(rt; stays(rt.alloc(), bytes)?);
    }
    Ok(())
}
