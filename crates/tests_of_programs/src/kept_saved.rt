//! A kept state and its bytes, which were put together by hand.

use crate::kept_bytes::saves_to;
use core_term::Term;
use delta_keep::{HeldName, Kept, KeptState, Known, ReadFault, Waiting, dismiss, read_kept};
use hist_value::Value;
use std::alloc::Global;
use stream_prefix::Prefix;
use stream_type::Ty;

// A wait for `1 . Int` of which nothing has come, and code that sees a list with the number -1, after seven events.
const WAIT: &[u8] = b"\
    DST\x01\0\0\0\0\0\0\0\x07\0\0\0\x01\x03\x01\x02\0\0\0\x02\0\x01\x02\x09\0\0\0\x03\x02\0\
    \0\0\x01\0\0\0\x03\x03\x01\x02\x06\x01\0\0\0\x0b\x08\0\0\0\x01\0\0\0\x07\x06\x02\x05\0\0\
    \0\x01\x01\xff\xff\xff\xff\xff\xff\xff\xff\x20\0\0\0\0\0\0\0";

fn is_int(ty: &Ty) -> bool {
    matches!(ty, Ty::Int)
}

// Whether the type is `1 . Int`.
fn is_one_then_int(ty: &Ty) -> bool {
    match ty {
        Ty::Cat(one, int) => matches!(&**one, Ty::One) && is_int(int),
        _ => false,
    }
}

// Whether it is `Int*`.
fn is_ints(ty: &Ty) -> bool {
    match ty {
        Ty::Star(item) => is_int(item),
        _ => false,
    }
}

// Whether the value is a list of the number -1.
fn is_list(value: &Value) -> bool {
    match value {
        Value::List(items) => items.len() == 1 && matches!(&items[0], Value::Int(-1)),
        _ => false,
    }
}

// Whether nothing has come of the first part.
fn is_empty(prefix: &Prefix) -> bool {
    match prefix {
        Prefix::CatFst(first) => matches!(&**first, Prefix::OneEmp),
        _ => false,
    }
}

// Whether that is what is held of the subject.
fn is_held(held: &HeldName) -> bool {
    held.name.0 == 3 && is_one_then_int(&held.ty) && is_empty(&held.prefix)
}

// Whether that is the value that the code sees.
fn is_known(known: &Known) -> bool {
    known.name.0 == 7 && is_ints(&known.ty) && is_list(&known.value)
}

// Whether that is the code: `nil`, with half of all depths.
fn is_waiting(later: &Waiting) -> bool {
    later.code.at == 11
        && matches!(&later.code.term, Term::Nil)
        && later.past.len() == 1
        && is_known(&later.past[0])
        && later.depth == 1 << 61
}

// Whether the state is that wait.
fn is_wait(state: &KeptState) -> bool {
    match state {
        KeptState::Wait(subject, ty, names, later) => {
            subject.0 == 3
                && is_int(ty)
                && names.len() == 1
                && is_held(&names[0])
                && is_waiting(later)
        }
        _ => false,
    }
}

// Whether it was kept after seven events, with one of two marks come.
fn is_wait_kept(k: &Kept) -> bool {
    k.events == 7
        && k.ins.len() == 1
        && is_one_then_int(&k.ins[0])
        && k.cuts.len() == 2
        && !k.cuts[0]
        && k.cuts[1]
        && is_int(&k.out)
        && is_wait(&k.state)
}

// Whether bytes are read as that, and it is saved as these bytes.
fn are_of_wait(alloc: Global, bytes: &[u8]) -> Result<bool, ReadFault> {
    match read_kept(alloc, bytes) {
        Ok(k) => {
            let same = is_wait_kept(&k) && saves_to(alloc, &k, bytes);
            dismiss(k);
            Ok(same)
        }
        Err(fault) => Err(fault),
    }
}

#[test]
fn a_wait_is_read_and_saved(rt: HostRuntime) {
    assert!(rt; matches!(are_of_wait(rt.alloc(), WAIT), Ok(true)));
}
