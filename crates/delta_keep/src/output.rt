//! What is put out.

ghost use Rattle.std.specs.Prelude.{◌≡◌, ◌∷◌, [], false, IfOk};
ghost use Rattle.delta_keep.specs.Putting.{Puts};

use std::alloc::Global;
use stream_type::Memory;

/// Bytes that are put out. Once memory is refused nothing more is put out, so that whoever puts out parts in
/// turn asks once, at the end.
#[derive(Drop)]
pub struct Output {
    /// The bytes so far.
    pub bytes: Vec<u8>,
    /// Whether memory was refused.
    pub refused: bool,
}

impl Output {
    /// Nothing yet.
    pub(crate) fn new(alloc: Global) -> Output
        ensures { (result.bytes.items ≡ []) × (result.refused ≡ false) }
    {
        Output {
            bytes: Vec::new(alloc),
            refused: false,
        }
    }

    /// All that was put out.
    pub(crate) fn finish(self) -> Result<Vec<u8>, Memory>
        ensures { IfOk result (λ v. (v.items ≡ self.bytes.items) × (self.refused ≡ false)) }
    {
        let Output { bytes, refused } = self;
        if refused {
            drop(bytes);
            return Err(Memory);
        }
        Ok(bytes)
    }
}

/// Appends a byte.
pub(crate) fn put_byte(out: &mut Output, byte: u8)
    ensures { Puts out.old out.new (byte ∷ []) }
{
    put_bytes(out, &[byte]);
}

/// Appends these bytes.
pub(crate) fn put_bytes(out: &mut Output, bytes: &[u8])
    ensures { Puts out.old out.new bytes.now }
{
    if out.refused {
        return;
    }
    match out.bytes.extend_from_slice(bytes) {
        Ok(()) => {}
        Err(_) => out.refused = true,
    }
}
