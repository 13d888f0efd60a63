//! The lines of events.

ghost use Rattle.std.specs.Prelude.{◌≡◌, ◌+◌, ◌*◌, ◌<◌, ◌≤◌, ◌++◌, [], ◌∷◌, length, string_bytes, string_len, OnOk, OnErr};
ghost use Rattle.std.specs.String.{string_capacity};
ghost use Rattle.std.specs.Fmt.{decimal, signed_decimal};
ghost use Rattle.event_text.specs.Lines.{step_word, path_words, leaf_words, line_of};

use event_word::{Event, Leaf, Step};
use stream_type::Memory;

/// The most bytes that a leaf has, with its line feed.
const LEAF: usize = 25;

/// Appends the line of the event (`line_of` of `specs/Lines.antt`) and a line feed. After `Memory`
/// all is unchanged.
pub fn write_line(x: &Event, out: &mut String) -> Result<(), Memory>
    ensures ok { OnOk result (string_bytes out.new ≡ string_bytes out.old ++ line_of x.now ++ 10 ∷ []) }
    ensures err { OnErr result (string_bytes out.new ≡ string_bytes out.old) }
    ensures room { OnErr result (string_capacity out.new ≡ string_capacity out.old) }
{
    // The room is taken first, so that nothing after it can be refused.
    out.reserve(2 * x.path().len() + LEAF)?;
    append_path(x.path(), out);
    append_leaf(x.leaf(), out);
    append("\n", out);
    Ok(())
}

// Each step and a space.
fn append_path(path: &[Step], out: &mut String)
    requires { string_len out.old + 2 * length path.now ≤ string_capacity out.old }
    ensures bytes { string_bytes out.new ≡ string_bytes out.old ++ path_words path.now }
    ensures len { string_len out.new ≡ string_len out.old + 2 * length path.now }
    ensures room { string_capacity out.old ≤ string_capacity out.new }
{
    if let Some((step, rest)) = path.split_first() {
        append(word_of(*step), out);
        append(" ", out);
        append_path(rest, out);
    }
}

fn word_of(step: Step) -> &'static str
    ensures word { result.now ≡ step_word step }
    ensures len { length result.now ≡ 1 }
{
    match step {
        Step::Left => "L",
        Step::Right => "R",
        Step::First => "F",
    }
}

fn append_leaf(leaf: Leaf, out: &mut String)
    requires { string_len out.old + 24 ≤ string_capacity out.old }
    ensures bytes { string_bytes out.new ≡ string_bytes out.old ++ leaf_words leaf }
    ensures len { string_len out.new ≤ string_len out.old + 24 }
    ensures room { string_capacity out.old ≤ string_capacity out.new }
{
    match leaf {
        Leaf::One => append("one", out),
        Leaf::Int(n) => {
            append("int ", out);
            append_number(n, out);
        }
        Leaf::Inl => append("inl", out),
        Leaf::Inr => append("inr", out),
        Leaf::Cut => append("cut", out),
        Leaf::Item => append("item", out),
        Leaf::End => append("end", out),
    }
}

fn append_number(n: i64, out: &mut String)
    requires { string_len out.old + 20 ≤ string_capacity out.old }
    ensures bytes { string_bytes out.new ≡ string_bytes out.old ++ signed_decimal n }
    ensures len { string_len out.new ≤ string_len out.old + 20 }
    ensures room { string_capacity out.old ≤ string_capacity out.new }
{
    if n < 0 {
        append("-", out);
    }
    append_digits(n.unsigned_abs(), out);
}

// The digits of a number, with no needless zero.
fn append_digits(n: u64, out: &mut String)
    requires { string_len out.old + length (decimal n) ≤ string_capacity out.old }
    ensures bytes { string_bytes out.new ≡ string_bytes out.old ++ decimal n }
    ensures len { string_len out.new ≡ string_len out.old + length (decimal n) }
    ensures room { string_capacity out.old ≤ string_capacity out.new }
{
    if n >= 10 {
        append_digits(n / 10, out);
    }
    append_digit((n % 10) as u8, out);
}

fn append_digit(digit: u8, out: &mut String)
    requires small { digit < 10 }
    requires room { string_len out.old + 1 ≤ string_capacity out.old }
    ensures bytes { string_bytes out.new ≡ string_bytes out.old ++ (48 + digit) ∷ [] }
    ensures len { string_len out.new ≡ string_len out.old + 1 }
    ensures room { string_capacity out.old ≤ string_capacity out.new }
{
    out.push(char::from(b'0' + digit)).unwrap();
}

fn append(text: &str, out: &mut String)
    requires { string_len out.old + length text.now ≤ string_capacity out.old }
    ensures bytes { string_bytes out.new ≡ string_bytes out.old ++ text.now }
    ensures len { string_len out.new ≡ string_len out.old + length text.now }
    ensures room { string_capacity out.old ≤ string_capacity out.new }
{
    out.push_str(text).unwrap();
}
