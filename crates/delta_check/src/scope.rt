//! Scopes: the parameters of a body, and the names that are bound around a term.

ghost use Rattle.std.specs.Prelude.{◌≡◌, option_map, IfOk};
ghost use Rattle.std.specs.List.{list_all};
ghost use Rattle.stream_type.specs.StreamType.{type_of};
ghost use Rattle.bunch.specs.Names.{numbers_of};
ghost use Rattle.bunch.specs.Facts.{before_let, after_let};
ghost use Rattle.delta_check.specs.Scopes.{context_in, known_at, before_by, after_by, IsKnown};

use crate::given::{given_type, has_fact};
use bunch::{Name, Order};
use core_term::Body;
use core_term::params::type_of_name;
use hist_value::HTy;
use std::alloc::Global;
use stream_type::{Memory, Ty};

/// What is known of a let's name and one other name.
#[derive(Clone, Copy)]
pub struct Known {
    /// The other name.
    pub name: Name,
    /// Whether it stands before the let's name.
    pub before: bool,
    /// Whether the let's name stands before it.
    pub after: bool,
}

/// Where a let's name is placed.
#[derive(Drop)]
pub struct Placed {
    /// The free names of what it is bound to.
    pub free: Vec<Name>,
    /// Whether that is inert.
    pub inert: bool,
    /// What follows from these of the names that may be asked for.
    pub known: Vec<Known>,
}

/// The names that a term may use, with their types, and which of the stream variables stand before
/// which. Contracts see a scope as a `Context` by `context_in` (`specs/Scopes.antt`). A name hides
/// what stood at it before, but for one that has a value. Of entries for one name the first counts.
#[derive(Clone, Copy)]
pub enum Scope<'a> {
    /// The parameters of a body.
    Params(&'a Body),
    /// Stream variables with their types, and which of them stand before which.
    Given(&'a [(Name, Ty)], &'a Order),
    /// The same, where the first name of each entry of a list stands before the second.
    Among(&'a [(Name, Ty)], &'a [(Name, Name)]),
    /// A stream variable and its type, placed like another one.
    Like(Name, &'a Ty, Name, &'a Scope<'a>),
    /// The name of a let, its type, and where it is placed.
    Let(Name, &'a Ty, &'a Placed, &'a Scope<'a>),
    /// The first name stands before the second.
    Fact(Name, Name, &'a Scope<'a>),
    /// The name is historical from here on.
    Waited(Name, &'a Scope<'a>),
    /// The names have values of these types too; a stream variable of such a name stays one.
    Valued(&'a [(Name, HTy)], &'a Scope<'a>),
}

/// The type of the stream variable `x`, or None where the name is no stream variable.
pub fn stream_type<'a>(scope: &Scope<'a>, x: Name) -> Option<&'a Ty>
    ensures { option_map (λ t. type_of t.now) result ≡ (context_in scope.now).types x.0 }
{
    match scope {
        Scope::Params(b) => type_of_name(&b.params, x),
        Scope::Given(vars, _) => given_type(vars, x),
        Scope::Among(vars, _) => given_type(vars, x),
        Scope::Like(y, t, _, outer) | Scope::Let(y, t, _, outer) => {
            if x.0 == y.0 {
                Some(*t)
            } else {
                stream_type(outer, x)
            }
        }
        Scope::Fact(_, _, outer) => stream_type(outer, x),
        Scope::Valued(_, outer) => stream_type(outer, x),
        Scope::Waited(y, outer) => {
            if x.0 == y.0 {
                None
            } else {
                stream_type(outer, x)
            }
        }
    }
}

/// Whether `x` stands before `y`, where both are stream variables.
#[cycle(before)]
pub fn before(scope: &Scope<'_>, x: Name, y: Name) -> bool
    ensures { result ≡ (context_in scope.now).order x.0 y.0 }
{
    match scope {
        Scope::Params(b) => bunch::before(&b.params, x, y),
        Scope::Given(_, order) => order.before(x, y),
        Scope::Among(_, facts) => has_fact(facts, x, y),
        Scope::Like(z, _, like, outer) => {
            if x.0 == z.0 {
                y.0 != z.0 && y.0 != like.0 && before(outer, *like, y)
            } else if y.0 == z.0 {
                x.0 != like.0 && before(outer, x, *like)
            } else {
                before(outer, x, y)
            }
        }
        Scope::Let(z, _, placed, outer) => {
            if x.0 == z.0 {
                y.0 != z.0 && is_after(outer, placed, y)
            } else if y.0 == z.0 {
                is_before(outer, placed, x)
            } else {
                before(outer, x, y)
            }
        }
        Scope::Fact(a, b, outer) => (x.0 == a.0 && y.0 == b.0) || before(outer, x, y),
        Scope::Waited(_, outer) => before(outer, x, y),
        Scope::Valued(_, outer) => before(outer, x, y),
    }
}

// Whether y stands before a let's name.
#[cycle(before)]
fn is_before(scope: &Scope<'_>, placed: &Placed, y: Name) -> bool
    ensures { result ≡ before_by (known_at placed.now.known.items y.0) (before_let (numbers_of placed.now.free.items) placed.now.inert (context_in scope.now).order y.0) }
{
    match known_at(&placed.known, y) {
        Some(known) => known.before,
        None => placed.inert && before_all(scope, y, &placed.free),
    }
}

// Whether a let's name stands before y.
#[cycle(before)]
fn is_after(scope: &Scope<'_>, placed: &Placed, y: Name) -> bool
    ensures { result ≡ after_by (known_at placed.now.known.items y.0) (after_let (numbers_of placed.now.free.items) (context_in scope.now).order y.0) }
{
    match known_at(&placed.known, y) {
        Some(known) => known.after,
        None => all_before(scope, &placed.free, y),
    }
}

// Whether each of the names stands before y.
#[cycle(before)]
fn all_before(scope: &Scope<'_>, names: &[Name], y: Name) -> bool
    ensures { result ≡ list_all (λ x. (context_in scope.now).order x y.0) (numbers_of names.now) }
{
    for name in names {
        if !before(scope, *name, y) {
            return false;
        }
    }
    true
}

// Whether x stands before each of the names.
#[cycle(before)]
fn before_all(scope: &Scope<'_>, x: Name, names: &[Name]) -> bool
    ensures { result ≡ list_all (λ y. (context_in scope.now).order x.0 y) (numbers_of names.now) }
{
    for name in names {
        if !before(scope, x, *name) {
            return false;
        }
    }
    true
}

// What is known of the name.
fn known_at(known: &[Known], x: Name) -> Option<Known>
    ensures { result ≡ known_at known.now x.0 }
{
    for fact in known {
        if x.0 == fact.name.0 {
            return Some(*fact);
        }
    }
    None
}

/// Where the name of a let is placed that is bound to something with these free names. What follows
/// of the other names is kept, so that they can be asked for without going through the free names
/// again. Its only error is want of memory.
pub fn place_of_let(
    alloc: Global,
    scope: &Scope<'_>,
    free: Vec<Name>,
    inert: bool,
    others: &[Name],
) -> Result<Placed, Memory>
    ensures free { IfOk result (λ p. p.free.items ≡ free.items) }
    ensures inert { IfOk result (λ p. p.inert ≡ inert) }
    ensures known { IfOk result (λ p. IsKnown p.known.items (numbers_of free.items) inert (context_in scope.now).order) }
{
    let known = known_of(alloc, scope, &free, inert, others)?;
    Ok(Placed { free, inert, known })
}

// What the free names say of the other names.
#[tactic(auto, using(crate::proofs::Known::knowns))]
fn known_of(
    alloc: Global,
    scope: &Scope<'_>,
    free: &[Name],
    inert: bool,
    others: &[Name],
) -> Result<Vec<Known>, Memory>
    ensures { IfOk result (λ v. IsKnown v.items (numbers_of free.now) inert (context_in scope.now).order) }
{
    let mut known = Vec::new(alloc);
    for name in others {
        known.push(Known {
            name: *name,
            before: inert && before_all(scope, *name, free),
            after: all_before(scope, free, *name),
        })?;
    }
    Ok(known)
}
