//! What is known of names that are given in lists.

ghost use Rattle.std.specs.Prelude.{◌≡◌, ℕ, true, option_map, is_some, OnOk};
ghost use Rattle.stream_type.specs.StreamType.{type_of};
ghost use Rattle.bunch.specs.Names.{numbers_of, holds};
ghost use Rattle.hist_value.specs.HistType.{hist_type_of};
ghost use Rattle.core_term.specs.CoreTerm.{typed_names_of};
ghost use Rattle.delta_check.specs.Scopes.{given_at, historical_of, facts_given};

use bunch::Name;
use hist_value::HTy;
use stream_type::{Memory, Ty};

/// The type of the first stream variable with the name, or None where there is none.
pub fn given_type<'a>(vars: &'a [(Name, Ty)], x: Name) -> Option<&'a Ty>
    ensures { option_map (λ t. type_of t.now) result ≡ given_at (typed_names_of vars.now) x.0 }
{
    for var in vars {
        if x.0 == var.0.0 {
            return Some(&var.1);
        }
    }
    None
}

/// The type of the first historical variable with the name, or None where there is none.
pub fn given_past<'a>(past: &'a [(Name, HTy)], x: Name) -> Option<&'a HTy>
    ensures { option_map (λ t. hist_type_of t.now) result ≡ given_at (historical_of past.now) x.0 }
{
    for entry in past {
        if x.0 == entry.0.0 {
            return Some(&entry.1);
        }
    }
    None
}

/// Whether the list says that `x` stands before `y`.
pub fn has_fact(facts: &[(Name, Name)], x: Name, y: Name) -> bool
    ensures { result ≡ facts_given facts.now x.0 y.0 }
{
    for fact in facts {
        if x.0 == fact.0.0 && y.0 == fact.1.0 {
            return true;
        }
    }
    false
}

/// Adds the names of the historical variables. Its only error is want of memory.
#[tactic(auto, using(bunch::proofs::NameLists::name_lists))]
pub fn add_given_names(past: &[(Name, HTy)], names: &mut Vec<Name>) -> Result<(), Memory>
    ensures kept { OnOk result ((x : ℕ) → holds x (numbers_of names.old.items) ≡ true → holds x (numbers_of names.new.items) ≡ true) }
    ensures added { OnOk result ((x : ℕ) → is_some (given_at (historical_of past.now) x) ≡ true → holds x (numbers_of names.new.items) ≡ true) }
{
    for entry in past {
        names.push(entry.0)?;
    }
    Ok(())
}
