//! The types of arguments while they are lent to the entries of a frame's body.

ghost use Rattle.std.specs.Prelude.{◌≡◌, ◌++◌, ◌∷◌, ◌||◌, [], map, IfOk, OnOk};
ghost use Rattle.stream_type.specs.StreamType.{type_of, eps};
ghost use Rattle.stream_prefix.specs.StreamPrefix.{is_maximal, der};
ghost use Rattle.stream_prefix.specs.Tree.{prefix_of};
ghost use Rattle.machine_parts.specs.Entry.{entry_in};
ghost use Rattle.template_state.specs.Readers.{arguments_in};
ghost use Rattle.delta_code.specs.GivenBack.{given_back};

use crate::told::{AllTold, Told};
use bunch::Name;
use in_place::go_behind;
use machine_parts::entry::Entry;
use std::alloc::Global;
use std::mem;
use stream_prefix::maximal;
use stream_type::{Memory, Ty};
use template_state::Arguments;

/// What an argument gave stands behind what was found, with its type from before, which is lent for that. Answers
/// what the argument gave as the only one.
pub fn keep(
    is_name: bool,
    x: Name,
    t: &mut Ty,
    told: Told,
    found: &mut Vec<Entry>,
) -> Result<AllTold, Memory>
    ensures ty { type_of t.new ≡ eps }
    ensures found { OnOk result (map entry_in found.new.items ≡ map entry_in found.old.items ++ record { name = x.0; type = type_of t.old; prefix = prefix_of told.output.value } ∷ []) }
    ensures calls { IfOk result (λ a. a.calls ≡ told.calls) }
    ensures level { IfOk result (λ a. a.level ≡ told.level) }
    ensures are_shut { IfOk result (λ a. a.are_shut ≡ (is_name || is_maximal (prefix_of told.output.value))) }
{
    let one = AllTold {
        calls: told.calls,
        level: told.level,
        are_shut: is_name || maximal(&told.output),
    };
    let ty = mem::replace(t, Ty::Eps);
    let prefix = Box::into_inner(told.output);
    found.push(Entry {
        name: x,
        ty,
        prefix,
    })?;
    Ok(one)
}

/// The types that were lent are given back to the arguments, each moved on over what came.
pub fn take_back(alloc: Global, args: &mut Arguments, lent: &mut [Entry]) -> Result<(), Memory>
    ensures { OnOk result (arguments_in args.new ≡ given_back (map entry_in lent.old) (arguments_in args.old)) }
{
    match args {
        Arguments::None => Ok(()),
        Arguments::Before(_, t, _, others) => {
            let Some((first, rest)) = lent.split_first_mut() else {
                return Ok(());
            };
            give_back(alloc, t, first)?;
            take_back(alloc, others, rest)
        }
    }
}

// A type that was lent is given back, moved on over what came.
fn give_back(alloc: Global, t: &mut Ty, lent: &mut Entry) -> Result<(), Memory>
    ensures { OnOk result (type_of t.new ≡ der (prefix_of lent.old.prefix) (type_of lent.old.ty)) }
{
    *t = mem::replace(&mut lent.ty, Ty::Eps);
    go_behind(alloc, t, &lent.prefix)
}
