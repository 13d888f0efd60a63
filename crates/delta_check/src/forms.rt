//! Types by their form.

ghost use Rattle.std.specs.Prelude.{◌≡◌};
ghost use Rattle.stream_type.specs.StreamType.{type_of};
ghost use Rattle.delta_check.specs.Forms.{form_test};

use stream_type::Ty;

/// A form of types.
#[derive(Clone, Copy)]
pub enum Form {
    /// `eps`.
    Eps,
    /// `1`.
    One,
    /// `s || t`.
    Par,
    /// `s . t`.
    Cat,
    /// `s + t`.
    Sum,
    /// `s*`.
    Star,
}

/// Whether the type has the form: `form_test` in `specs/Forms.antt`.
pub fn has_form(form: Form, t: &Ty) -> bool
    ensures { result ≡ form_test form (type_of t.now) }
{
    match form {
        Form::Eps => matches!(t, Ty::Eps),
        Form::One => matches!(t, Ty::One),
        Form::Par => matches!(t, Ty::Par(_, _)),
        Form::Cat => matches!(t, Ty::Cat(_, _)),
        Form::Sum => matches!(t, Ty::Sum(_, _)),
        Form::Star => matches!(t, Ty::Star(_)),
    }
}
