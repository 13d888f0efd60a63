//! What came on a name.

use bunch::Name;
use stream_prefix::Prefix;
use stream_type::Ty;

/// What came on a name, with its type before. Contracts see it by `entry_in` (`specs/Entry.antt`).
#[derive(Drop)]
pub struct Entry {
    /// The name.
    pub name: Name,
    /// Its type before.
    pub ty: Ty,
    /// What came.
    pub prefix: Prefix,
}
