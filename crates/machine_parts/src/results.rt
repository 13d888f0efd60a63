//! What is made of parts, each of which may not be there for want of memory.

ghost use Rattle.std.specs.Prelude.{◌≡◌, ◌++◌, ◌∷◌, [], Ok, IfOk};

use std::alloc::Global;
use std::rc::Rc;
use stream_type::Memory;

/// Both parts, where both are there.
pub fn pair<A: Drop, B: Drop>(a: Result<A, Memory>, b: Result<B, Memory>) -> Result<(A, B), Memory>
    ensures { IfOk result (λ p. (a ≡ Ok p.0) × (b ≡ Ok p.1)) }
{
    match a {
        Ok(a) => match b {
            Ok(b) => Ok((a, b)),
            Err(Memory) => {
                drop(a);
                Err(Memory)
            }
        },
        Err(Memory) => {
            drop(b);
            Err(Memory)
        }
    }
}

/// A part in a box of its own.
pub fn boxed<T: Drop>(alloc: Global, part: Result<T, Memory>) -> Result<Box<T>, Memory>
    ensures { IfOk result (λ r. part ≡ Ok r.value) }
{
    match part {
        Ok(part) => Ok(Box::new(alloc, part)?),
        Err(Memory) => Err(Memory),
    }
}

/// A part that may be shared.
pub fn shared<T: Drop>(alloc: Global, part: Result<T, Memory>) -> Result<Rc<T>, Memory>
    ensures { IfOk result (λ r. part ≡ Ok r.value) }
{
    match part {
        Ok(part) => Ok(Rc::new(alloc, part)?),
        Err(Memory) => Err(Memory),
    }
}

/// One more that shares this part.
pub fn again<T: Drop>(part: &Rc<T>) -> Result<Rc<T>, Memory>
    ensures { IfOk result (λ r. r.value ≡ part.now.value) }
{
    match part.clone() {
        Ok(part) => Ok(part),
        Err(_) => Err(Memory),
    }
}

/// A part behind these.
pub fn added<T: Drop>(mut items: Vec<T>, part: Result<T, Memory>) -> Result<Vec<T>, Memory>
    ensures { IfOk result (λ v. (x : T) × (part ≡ Ok x) × (v.items ≡ items.items ++ x ∷ [])) }
{
    match part {
        Ok(part) => match items.push(part) {
            Ok(()) => Ok(items),
            Err(failed) => {
                drop(failed);
                drop(items);
                Err(Memory)
            }
        },
        Err(Memory) => {
            drop(items);
            Err(Memory)
        }
    }
}

/// A part in front of these.
pub fn in_front<T: Drop>(part: T, mut items: Vec<T>) -> Result<Vec<T>, Memory>
    ensures { IfOk result (λ v. v.items ≡ part ∷ items.items) }
{
    match items.insert(0, part) {
        Ok(()) => Ok(items),
        Err(failed) => {
            drop(failed);
            drop(items);
            Err(Memory)
        }
    }
}
