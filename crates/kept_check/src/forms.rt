//! The forms of types that rules ask for.

ghost use Rattle.std.specs.Prelude.{◌≡◌, ◌≢◌, ◌↔◌, IsTrue, IfNone, IfSome};
ghost use Rattle.stream_type.specs.StreamType.{type_of};
ghost use Rattle.core_term.specs.Typing.{HasForm, type_at};
ghost use Rattle.delta_check.specs.Scopes.{context_in};
ghost use Rattle.kept_check.specs.Forms.{AreParts, ArePartsAt, in_form};

use bunch::Name;
use delta_check::{Scope, stream_type};
use stream_type::Ty;

/// A form of types with parts.
#[derive(Clone, Copy)]
pub enum Form {
    /// `s || t`.
    Par,
    /// `s . t`.
    Cat,
    /// `s + t`.
    Sum,
    /// `s*`.
    Star,
}

/// Whether the type has the form.
pub fn has_form(form: Form, t: &Ty) -> bool
    ensures { IsTrue result ↔ (type_of t.now ≡ in_form form (type_of t.now)) }
{
    match form {
        Form::Par => matches!(t, Ty::Par(_, _)),
        Form::Cat => matches!(t, Ty::Cat(_, _)),
        Form::Sum => matches!(t, Ty::Sum(_, _)),
        Form::Star => matches!(t, Ty::Star(_)),
    }
}

/// Whether the name is a stream whose type has the form.
pub fn is_of_form(form: Form, scope: &Scope<'_>, z: Name) -> bool
    ensures { IsTrue result ↔ HasForm (context_in scope.now) z.0 (in_form form (type_at (context_in scope.now) z.0)) }
{
    match stream_type(scope, z) {
        Some(t) => has_form(form, t),
        None => false,
    }
}

/// The parts of a type of this form: of a star an item, and the star itself.
pub fn parts_in<'a>(form: Form, t: &'a Ty) -> Option<(&'a Ty, &'a Ty)>
    ensures some { IfSome result (λ p. AreParts form (type_of t.now) (type_of p.0.now) (type_of p.1.now)) }
    ensures none { IfNone result (type_of t.now ≢ in_form form (type_of t.now)) }
{
    match form {
        Form::Par => match t {
            Ty::Par(a, b) => Some((a, b)),
            _ => None,
        },
        Form::Cat => match t {
            Ty::Cat(a, b) => Some((a, b)),
            _ => None,
        },
        Form::Sum => match t {
            Ty::Sum(a, b) => Some((a, b)),
            _ => None,
        },
        Form::Star => match t {
            Ty::Star(a) => Some((a, t)),
            _ => None,
        },
    }
}

/// The parts of the type of a stream of this form.
pub fn parts_at<'a>(form: Form, scope: &Scope<'a>, z: Name) -> Option<(&'a Ty, &'a Ty)>
    ensures some { IfSome result (λ p. ArePartsAt form (context_in scope.now) z.0 (type_of p.0.now) (type_of p.1.now)) }
    ensures none { IfNone result (HasForm (context_in scope.now) z.0 (in_form form (type_at (context_in scope.now) z.0)) → ⊥) }
{
    match stream_type(scope, z) {
        Some(t) => parts_in(form, t),
        None => None,
    }
}
