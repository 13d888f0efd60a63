//! What has come on each parameter of the main program.

ghost use Rattle.std.specs.Prelude.{◌≡◌, ◌++◌, [], ◌∷◌, map, IfOk, OnOk};
ghost use Rattle.stream_prefix.specs.Tree.{prefix_of};
ghost use Rattle.bunch.specs.BunchTree.{tree_of};
ghost use Rattle.delta_meaning.specs.Splitting.{parts, empties, blanks};

use bunch::Bunch;
use std::alloc::Global;
use stream_prefix::Prefix;
use stream_type::Memory;

/// What has come on each name of a bunch, from left to right, where the prefix has come on the whole:
/// `parts` in `specs/Splitting.antt`. Its only error is want of memory.
pub fn parts(alloc: Global, b: &Bunch, p: &Prefix) -> Result<Vec<Prefix>, Memory>
    ensures { IfOk result (λ v. map prefix_of v.items ≡ parts (tree_of b.now) (prefix_of p.now)) }
{
    let mut found = Vec::new(alloc);
    add_parts(alloc, b, p, &mut found)?;
    Ok(found)
}

// Adds what has come on each name.
#[tactic(auto, using(crate::proofs::Splittings::part_forms))]
fn add_parts(alloc: Global, b: &Bunch, p: &Prefix, found: &mut Vec<Prefix>) -> Result<(), Memory>
    ensures { OnOk result (map prefix_of found.new.items ≡ map prefix_of found.old.items ++ parts (tree_of b.now) (prefix_of p.now)) }
{
    match b {
        Bunch::Empty => Ok(()),
        Bunch::Leaf(_, _) => add_copy(alloc, p, found),
        Bunch::Comma(a, c) => match p {
            Prefix::Par(p, q) => {
                add_parts(alloc, a, p, found)?;
                add_parts(alloc, c, q, found)
            }
            Prefix::EpsEmp
            | Prefix::OneEmp
            | Prefix::OneFull
            | Prefix::IntEmp
            | Prefix::IntFull(_)
            | Prefix::CatFst(_)
            | Prefix::CatBoth(_, _)
            | Prefix::SumEmp
            | Prefix::Inl(_)
            | Prefix::Inr(_)
            | Prefix::Star(_, _) => add_blanks(b, found),
        },
        Bunch::Semi(a, c) => match p {
            Prefix::CatFst(p) => {
                add_parts(alloc, a, p, found)?;
                add_empties(alloc, c, found)
            }
            Prefix::CatBoth(p, q) => {
                add_parts(alloc, a, p, found)?;
                add_parts(alloc, c, q, found)
            }
            Prefix::EpsEmp
            | Prefix::OneEmp
            | Prefix::OneFull
            | Prefix::IntEmp
            | Prefix::IntFull(_)
            | Prefix::Par(_, _)
            | Prefix::SumEmp
            | Prefix::Inl(_)
            | Prefix::Inr(_)
            | Prefix::Star(_, _) => add_blanks(b, found),
        },
    }
}

// Adds one more of a prefix.
fn add_copy(alloc: Global, p: &Prefix, found: &mut Vec<Prefix>) -> Result<(), Memory>
    ensures { OnOk result (map prefix_of found.new.items ≡ map prefix_of found.old.items ++ prefix_of p.now ∷ []) }
{
    found.push(stream_prefix::copy(alloc, p)?)?;
    Ok(())
}

// Adds for each name that nothing has come on it.
fn add_empties(alloc: Global, b: &Bunch, found: &mut Vec<Prefix>) -> Result<(), Memory>
    ensures { OnOk result (map prefix_of found.new.items ≡ map prefix_of found.old.items ++ empties (tree_of b.now)) }
{
    match b {
        Bunch::Empty => Ok(()),
        Bunch::Leaf(_, t) => {
            found.push(stream_prefix::empty(alloc, t)?)?;
            Ok(())
        }
        Bunch::Comma(a, b) | Bunch::Semi(a, b) => {
            add_empties(alloc, a, found)?;
            add_empties(alloc, b, found)
        }
    }
}

// Adds for each name the empty prefix of `eps`.
fn add_blanks(b: &Bunch, found: &mut Vec<Prefix>) -> Result<(), Memory>
    ensures { OnOk result (map prefix_of found.new.items ≡ map prefix_of found.old.items ++ blanks (tree_of b.now)) }
{
    match b {
        Bunch::Empty => Ok(()),
        Bunch::Leaf(_, _) => {
            found.push(Prefix::EpsEmp)?;
            Ok(())
        }
        Bunch::Comma(a, b) | Bunch::Semi(a, b) => {
            add_blanks(a, found)?;
            add_blanks(b, found)
        }
    }
}
