//! Lists of names: whether a name is there, whether none stands twice, and which two lists share.

ghost use Rattle.std.specs.Prelude.{◌≡◌, ◌&&◌, not, take, IsTrue};
ghost use Rattle.std.specs.List.{list_all};
ghost use Rattle.bunch.specs.Names.{numbers_of, holds};
ghost use Rattle.core_term.specs.FreeNames.{is_distinct};

use bunch::Name;

/// Whether the name is among these.
pub fn is_there(names: &[Name], x: Name) -> bool
    ensures { result ≡ holds x.0 (numbers_of names.now) }
{
    for name in names {
        if x.0 == name.0 {
            return true;
        }
    }
    false
}

/// Whether no name stands twice in the list, where none does so before this place.
pub fn are_distinct(names: &[Name], from: usize) -> bool
    requires { IsTrue (is_distinct (numbers_of (take from names.now))) }
    ensures { result ≡ is_distinct (numbers_of names.now) }
{
    for i in from..names.len() {
        if is_there(&names[..i], names[i]) {
            return false;
        }
    }
    true
}

/// Whether no name of the first list is in the second.
pub fn are_apart(names: &[Name], others: &[Name]) -> bool
    ensures { result ≡ list_all (λ x. not (holds x (numbers_of others.now))) (numbers_of names.now) }
{
    for name in names {
        if is_there(others, *name) {
            return false;
        }
    }
    true
}

// Whether each name of the first list is in the second.
fn are_among(names: &[Name], others: &[Name]) -> bool
    ensures { result ≡ list_all (λ x. holds x (numbers_of others.now)) (numbers_of names.now) }
{
    for name in names {
        if !is_there(others, *name) {
            return false;
        }
    }
    true
}

/// Whether no name stands twice in the first list, and the second has the same names.
pub fn are_just(names: &[Name], others: &[Name]) -> bool
    ensures { result ≡ (is_distinct (numbers_of names.now) && (list_all (λ x. holds x (numbers_of others.now)) (numbers_of names.now) && list_all (λ x. holds x (numbers_of names.now)) (numbers_of others.now))) }
{
    are_distinct(names, 0) && are_among(names, others) && are_among(others, names)
}
