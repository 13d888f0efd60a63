//! Where a part of a tree stands, as far as that decides on its brackets.

/// Where a part of a type stands: a part of the grammar each. What may stand there without brackets is
/// `type_bare` in `specs/Brackets.antt`.
#[derive(Clone, Copy, PartialEq, Eq)]
pub(crate) enum TypePlace {
    /// Left of a `+`.
    Par,
    /// Left of a `||`.
    Cat,
    /// Left of a `.`, or under a star.
    Star,
}

/// Where a part of a list of parameters stands: `context_bare` in `specs/Brackets.antt`.
#[derive(Clone, Copy, PartialEq, Eq)]
pub(crate) enum ContextPlace {
    /// Left of a comma or a semicolon.
    Item,
    /// Right of a comma.
    Commas,
    /// Right of a semicolon.
    Semicolons,
}

/// Where a part of a historical expression stands: `hist_bare` in `specs/Brackets.antt`.
#[derive(Clone, Copy, PartialEq, Eq)]
pub(crate) enum HistPlace {
    /// Left of a `::`.
    Comparison,
    /// Beside a `<` or a `=`, or left of a `+` or a `-`.
    Sum,
    /// Right of a `+` or a `-`, or left of a `*` or a `/`.
    Product,
    /// Right of a `*` or a `/`, or behind `fst`, `snd`, `inl` or `inr`.
    Unary,
}
