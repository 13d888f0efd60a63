//! Numbers for variables, and what is known of each variable so far.

ghost use Rattle.std.specs.Prelude.{◌≡◌, ◌∷◌, [], ◌++◌, Some, None, length, IfOk, OnOk};
ghost use Rattle.delta_elab.specs.Numbering.{origins_of};

use bunch::Name;
use stream_type::Memory;

/// The next number, for a variable that has this name in the source. Its only error is want of memory,
/// which it answers too where the number doesn't fit 32 bits.
#[tactic(auto, using(crate::proofs::Origins::origin_lists))]
pub fn named(x: Name, origins: &mut Vec<Option<Name>>) -> Result<Name, Memory>
    ensures number { IfOk result (λ n. n.0 ≡ length (origins_of origins.old.items)) }
    ensures next { OnOk result (origins_of origins.new.items ≡ origins_of origins.old.items ++ Some x.0 ∷ []) }
{
    new_number(Some(x), origins)
}

/// The next number, for a variable that is added. Its only error is want of memory, as of `named`.
#[tactic(auto, using(crate::proofs::Origins::origin_lists))]
pub fn added(origins: &mut Vec<Option<Name>>) -> Result<Name, Memory>
    ensures number { IfOk result (λ n. n.0 ≡ length (origins_of origins.old.items)) }
    ensures next { OnOk result (origins_of origins.new.items ≡ origins_of origins.old.items ++ None ∷ []) }
{
    new_number(None, origins)
}

// The next number, for a variable of this origin.
#[tactic(auto, using(crate::proofs::Origins::origin_lists))]
fn new_number(origin: Option<Name>, origins: &mut Vec<Option<Name>>) -> Result<Name, Memory>
    ensures number { IfOk result (λ n. n.0 ≡ length (origins_of origins.old.items)) }
    ensures next { OnOk result (origins_of origins.new.items ≡ origins_of origins.old.items ++ origins_of (origin ∷ [])) }
{
    match u32::try_from(origins.len()) {
        Err(_) => Err(Memory),
        Ok(number) => {
            origins.push(origin)?;
            Ok(Name(number))
        }
    }
}
