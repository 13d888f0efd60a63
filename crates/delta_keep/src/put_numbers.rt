//! Numbers as bytes, the most significant first.

ghost use Rattle.std.specs.Prelude.{◌∷◌, ◌++◌};
ghost use Rattle.kept_state.specs.KeptBytes.{short_bytes, long_bytes, int_bytes};
ghost use Rattle.kept_state.specs.KeptSizes.{FitsShort, FitsLong, FitsInt};
ghost use Rattle.delta_keep.specs.Putting.{Puts};

use crate::output::{Output, put_byte, put_bytes};
use bunch::Name;

/// Appends four bytes: a place, or the number of a function.
pub(crate) fn put_short(out: &mut Output, n: u32)
    ensures puts { Puts out.old out.new (short_bytes n) }
    ensures sizes { FitsShort n }
{
    put_bytes(out, &n.to_be_bytes());
}

/// Appends a name.
pub(crate) fn put_name(out: &mut Output, x: Name)
    ensures puts { Puts out.old out.new (short_bytes x.0) }
    ensures sizes { FitsShort x.0 }
{
    put_short(out, x.0);
}

/// Appends a count of items, of which the last 32 bits are written: a list that is longer has too many bytes.
pub(crate) fn put_count(out: &mut Output, n: usize)
    ensures { Puts out.old out.new (short_bytes n) }
{
    put_short(out, (n % 4_294_967_296) as u32);
}

/// Appends eight bytes: a number of events, or a depth.
pub(crate) fn put_long(out: &mut Output, n: u64)
    ensures puts { Puts out.old out.new (long_bytes n) }
    ensures sizes { FitsLong n }
{
    put_bytes(out, &n.to_be_bytes());
}

/// Appends a number with its sign.
pub(crate) fn put_int(out: &mut Output, n: i64)
    ensures puts { Puts out.old out.new (int_bytes n) }
    ensures sizes { FitsInt n }
{
    put_bytes(out, &n.to_be_bytes());
}

/// Appends a form and its three names.
pub(crate) fn put_form_names(out: &mut Output, form: u8, x: Name, y: Name, z: Name)
    ensures puts { Puts out.old out.new (form ∷ short_bytes x.0 ++ (short_bytes y.0 ++ short_bytes z.0)) }
    ensures sizes { FitsShort x.0 × FitsShort y.0 × FitsShort z.0 }
{
    put_byte(out, form);
    put_name(out, x);
    put_name(out, y);
    put_name(out, z);
}
