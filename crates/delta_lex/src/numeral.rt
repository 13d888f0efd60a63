//! The numbers that digits write.

ghost use Rattle.std.specs.Prelude.{◌≡◌};
ghost use Rattle.std.specs.Char.{is_ascii_digit};
ghost use Rattle.std.specs.List.{list_all};
ghost use Rattle.delta_lex.specs.Numbers.{number_of};

/// The number that the text writes in digits, or none where the text isn't digits or the number
/// passes 9223372036854775807. `number_of` of `specs/Numbers.antt` is the definition.
pub fn number(text: &str) -> Option<i64>
    ensures { result ≡ number_of text.now }
{
    if are_digits(text) {
        text.parse().ok()
    } else {
        None
    }
}

// Whether the text has nothing but digits.
fn are_digits(text: &str) -> bool
    ensures { result ≡ list_all is_ascii_digit text.now }
{
    text.bytes().all(|byte| byte.is_ascii_digit())
}
