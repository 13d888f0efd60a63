//! The tree of a prefix.

/// What has come so far on a stream. Contracts see it as a `StreamPrefix` by `prefix_of`
/// (`specs/Tree.antt`), and say by `IsPrefix` of which types it is one (`specs/StreamPrefix.antt`).
#[cycle(prefix)]
#[derive(Drop)]
pub enum Prefix {
    /// Of `eps`, on which nothing comes.
    EpsEmp,
    /// Of `1`: its mark has not come.
    OneEmp,
    /// Of `1`: its mark has come.
    OneFull,
    /// Of `Int`: its number has not come.
    IntEmp,
    /// Of `Int`: this number has come.
    IntFull(i64),
    /// Of `s || t`: what has come on each side.
    Par(Box<Prefix>, Box<Prefix>),
    /// Of `s . t`, before the mark between the two: what has come of the first part.
    CatFst(Box<Prefix>),
    /// Of `s . t`, after the mark between the two: the whole first part, and what has come of the
    /// second.
    CatBoth(Box<Prefix>, Box<Prefix>),
    /// Of `s + t`: no side is chosen.
    SumEmp,
    /// Of `s + t`: the left side is chosen, and this has come on it.
    Inl(Box<Prefix>),
    /// Of `s + t`: the right side is chosen, and this has come on it.
    Inr(Box<Prefix>),
    /// Of `s*`: the whole items in the order in which they came, and what comes after them.
    Star(Vec<Prefix>, StarEnd),
}

/// How a star's prefix goes on after its whole items. Contracts see it by `end_of`
/// (`specs/Tree.antt`).
#[cycle(prefix)]
#[derive(Drop)]
pub enum StarEnd {
    /// Neither a further item nor the end has come.
    Emp,
    /// The end has come.
    Done,
    /// A further item has begun, and this has come of it. It is whole only if the mark after it
    /// has not come.
    First(Box<Prefix>),
}
