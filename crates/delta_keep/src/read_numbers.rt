//! Numbers read from bytes. A reader is told where it starts, and answers what it read and where what is behind
//! it starts, or how many bytes are left where it stopped.

ghost use Rattle.std.specs.Prelude.{◌≡◌, ◌<◌, ℕ, List, [], ◌∷◌, ◌++◌, ⊤, IfOk, IfErr, length, drop};
ghost use Rattle.kept_state.specs.KeptBytes.{short_bytes, long_bytes, int_bytes};
ghost use Rattle.kept_state.specs.KeptForm.{any, exactly};
ghost use Rattle.kept_state.specs.KeptSizes.{FitsShort, FitsLong, FitsInt};
ghost use Rattle.delta_keep.specs.declared.halt.Halt.TheVariants.{At};
ghost use Rattle.delta_keep.specs.Reads.{Reads, HasNoForm, Boxes};
ghost use Rattle.delta_keep.specs.Placing.{Places};

use crate::halt::Halt;
use bunch::Name;
use std::alloc::Global;

/// The bytes behind this one.
pub(crate) fn read_exactly(byte: u8, bytes: &[u8]) -> Result<&[u8], Halt>
    ensures reads { Reads (exactly byte ∷ []) bytes.now (λ rest. byte ∷ []) (λ rest. rest.now) (λ rest. ⊤) result }
{
    match bytes {
        [first, rest @ ..] if *first == byte => Ok(rest),
        _ => Err(Halt::At(bytes.len())),
    }
}

/// The bytes from here on.
pub(crate) fn unread(bytes: &[u8], start: usize) -> &[u8]
    ensures { result.now ≡ drop start bytes.now }
{
    match bytes.get(start..) {
        Some(rest) => rest,
        None => &[],
    }
}

/// What stands here can't: so many bytes are left.
pub(crate) fn misplaced(bytes: &[u8], start: usize) -> Halt
    ensures { result ≡ At (length (drop start bytes.now)) }
{
    Halt::At(unread(bytes, start).len())
}

// What was read, and where what is behind it starts.
fn placed<T: Drop>(bytes: &[u8], read: Result<(T, &[u8]), Halt>) -> Result<(T, usize), Halt>
    ensures { Places (λ rest. rest.now) bytes.now read.entry result }
{
    match read {
        Ok((value, rest)) => Ok((value, bytes.len().saturating_sub(rest.len()))),
        Err(halt) => Err(halt),
    }
}

/// The first byte, where it tells a form that holds nothing.
pub(crate) fn read_byte(bytes: &[u8], start: usize) -> Result<(u8, usize), Halt>
    ensures form { IfOk result (λ x. drop start bytes.now ≡ x.0 ∷ drop x.1 bytes.now) }
    ensures none { IfErr result (λ e. HasNoForm (drop start bytes.now) e) }
{
    match bytes.get(start) {
        Some(form) => Ok((*form, start + 1)),
        None => Err(Halt::At(0)),
    }
}

/// The first byte, that of a form, and how many levels are left for what the form holds. Where none is left
/// the same is told as for want of memory.
pub(crate) fn read_form(bytes: &[u8], start: usize, left: u32) -> Result<(u8, usize, u32), Halt>
    ensures form { IfOk result (λ x. drop start bytes.now ≡ x.0 ∷ drop x.1 bytes.now) }
    ensures none { IfErr result (λ e. HasNoForm (drop start bytes.now) e) }
    ensures less { IfOk result (λ x. x.2 < left) }
{
    match bytes.get(start) {
        None => Err(Halt::At(0)),
        Some(_) if left == 0 => Err(Halt::Memory),
        Some(form) => Ok((*form, start + 1, left - 1)),
    }
}

// Four bytes, and those behind them.
fn short_of(bytes: &[u8]) -> Result<(u32, &[u8]), Halt>
    ensures reads { Reads (any 4 ∷ []) bytes.now (λ x. short_bytes x.0) (λ x. x.1.now) (λ x. FitsShort x.0) result }
{
    match bytes {
        [a, b, c, d, rest @ ..] => Ok((u32::from_be_bytes([*a, *b, *c, *d]), rest)),
        _ => Err(Halt::At(0)),
    }
}

/// A place, the number of a function, or a count.
pub(crate) fn read_short(bytes: &[u8], start: usize) -> Result<(u32, usize), Halt>
    ensures reads { Reads (any 4 ∷ []) (drop start bytes.now) (λ x. short_bytes x.0) (λ x. drop x.1 bytes.now) (λ x. FitsShort x.0) result }
{
    placed(bytes, short_of(unread(bytes, start)))
}

/// A name.
pub(crate) fn read_name(bytes: &[u8], start: usize) -> Result<(Name, usize), Halt>
    ensures reads { Reads (any 4 ∷ []) (drop start bytes.now) (λ x. short_bytes x.0.0) (λ x. drop x.1 bytes.now) (λ x. FitsShort x.0.0) result }
{
    let (x, next) = read_short(bytes, start)?;
    Ok((Name(x), next))
}

/// Three names.
pub(crate) fn read_names(bytes: &[u8], start: usize) -> Result<(Name, Name, Name, usize), Halt>
    ensures reads { Reads (any 4 ∷ any 4 ∷ any 4 ∷ []) (drop start bytes.now) (λ x. short_bytes x.0.0 ++ (short_bytes x.1.0 ++ short_bytes x.2.0)) (λ x. drop x.3 bytes.now) (λ x. FitsShort x.0.0 × FitsShort x.1.0 × FitsShort x.2.0) result }
{
    let (x, next) = read_name(bytes, start)?;
    let (y, next) = read_name(bytes, next)?;
    let (z, next) = read_name(bytes, next)?;
    Ok((x, y, z, next))
}

// Eight bytes, and those behind them.
fn long_of(bytes: &[u8]) -> Result<(u64, &[u8]), Halt>
    ensures reads { Reads (any 8 ∷ []) bytes.now (λ x. long_bytes x.0) (λ x. x.1.now) (λ x. FitsLong x.0) result }
{
    match bytes {
        [a, b, c, d, e, f, g, h, rest @ ..] => Ok((
            u64::from_be_bytes([*a, *b, *c, *d, *e, *f, *g, *h]),
            rest,
        )),
        _ => Err(Halt::At(0)),
    }
}

/// A number of events, or a depth.
pub(crate) fn read_long(bytes: &[u8], start: usize) -> Result<(u64, usize), Halt>
    ensures reads { Reads (any 8 ∷ []) (drop start bytes.now) (λ x. long_bytes x.0) (λ x. drop x.1 bytes.now) (λ x. FitsLong x.0) result }
{
    placed(bytes, long_of(unread(bytes, start)))
}

// The same, of a number with its sign.
fn int_of(bytes: &[u8]) -> Result<(i64, &[u8]), Halt>
    ensures reads { Reads (any 8 ∷ []) bytes.now (λ x. int_bytes x.0) (λ x. x.1.now) (λ x. FitsInt x.0) result }
{
    match bytes {
        [a, b, c, d, e, f, g, h, rest @ ..] => Ok((
            i64::from_be_bytes([*a, *b, *c, *d, *e, *f, *g, *h]),
            rest,
        )),
        _ => Err(Halt::At(0)),
    }
}

/// A number with its sign.
pub(crate) fn read_int(bytes: &[u8], start: usize) -> Result<(i64, usize), Halt>
    ensures reads { Reads (any 8 ∷ []) (drop start bytes.now) (λ x. int_bytes x.0) (λ x. drop x.1 bytes.now) (λ x. FitsInt x.0) result }
{
    placed(bytes, int_of(unread(bytes, start)))
}

/// What was read, in a box.
pub(crate) fn boxed<T: Drop>(alloc: Global, value: T, next: usize) -> Result<(Box<T>, usize), Halt>
    ensures boxes { (behind : ℕ → List ℕ) → Boxes (λ x. x.0.value) (λ x. behind x.1) value (behind next) result }
{
    Ok((Box::new(alloc, value)?, next))
}
