//! The rules on what isn't inert: on the arguments behind others, and on the place of a let.

ghost use Rattle.std.specs.Prelude.{◌≡◌, ◌||◌, map, IfOk, not, is_some};
ghost use Rattle.stream_type.specs.StreamType.{type_of};
ghost use Rattle.bunch.specs.BunchTree.{tree_of};
ghost use Rattle.core_term.specs.CoreTerm.{term_of, terms_from, core_body_of, core_of, fun_at};
ghost use Rattle.core_term.specs.Inert.{is_inert};
ghost use Rattle.core_term.specs.TypeFaults.{first_jumpy};
ghost use Rattle.delta_check.specs.Counting.{counts_in};
ghost use Rattle.bunch_rules.specs.Rearranging.{stays_first};
ghost use Rattle.delta_derive.specs.LineText.{turn_of};

use crate::line::Turn;
use crate::path::stays_first;
use bunch::Bunch;
use core_term::{Body, Core, Node};
use delta_check::{first_jumpy, inert};
use std::alloc::Global;
use stream_type::{Memory, Ty};

/// Whether no argument fails to be inert that another parameter stands before: `first_jumpy` in the specs of
/// core_term. Its only error is want of memory.
pub fn is_still(
    alloc: Global,
    c: &Core,
    marks: &[bool],
    b: &Body,
    arguments: &[Node],
) -> Result<bool, Memory>
    ensures { IfOk result (λ still. still ≡ not (is_some (first_jumpy (core_of c.now).funs (counts_in (core_of c.now).funs marks.now) (core_body_of b.now) (terms_from (map term_of arguments.now))))) }
{
    match first_jumpy(alloc, c, marks, b, arguments) {
        Ok(None) => Ok(true),
        Ok(Some(_)) => Ok(false),
        Err(memory) => Err(memory),
    }
}

/// Whether a let of the term at the type `s` may stand at the end of the path: the term is inert, or the path never
/// goes to the right at a semicolon.
pub fn may_stand(c: &Core, marks: &[bool], n: &Node, s: &Ty, g: &Bunch, path: &[Turn]) -> bool
    ensures { result ≡ (is_inert (fun_at (core_of c.now).funs) (counts_in (core_of c.now).funs marks.now) (term_of n.now) (type_of s.now) || stays_first (map turn_of path.now) (tree_of g.now)) }
{
    inert(c, n, s, marks) || stays_first(g, path)
}
