//! The names that are bound around a part of a template.

ghost use Rattle.std.specs.Prelude.{◌≡◌};
ghost use Rattle.bunch.specs.Names.{holds};
ghost use Rattle.delta_code.specs.Around.{names_around};

use bunch::Name;

/// The names that are bound around a part of a template, the last bound in front. Contracts see them as
/// a list by `names_around` (`specs/Around.antt`).
#[derive(Clone, Copy)]
pub enum Around<'a> {
    /// No name.
    Nothing,
    /// One name, and those bound around it.
    Name(Name, &'a Around<'a>),
}

/// Whether the name is among them.
pub fn is_around(around: &Around<'_>, x: Name) -> bool
    ensures { result ≡ holds x.0 (names_around around.now) }
{
    match around {
        Around::Nothing => false,
        Around::Name(y, outer) => x.0 == y.0 || is_around(outer, x),
    }
}
