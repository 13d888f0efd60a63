//! The reader of a program whose marks and names are counted first, so that its recursions stay shallow.

ghost use Rattle.std.specs.Prelude.{◌≡◌, map, length, take, IfOk, IfErr, IfSome, IfNone};
ghost use Rattle.delta_tree.specs.Tree.{declaration_of, function_of};
ghost use Rattle.delta_parse.specs.Terminals.{plains};
ghost use Rattle.delta_parse.specs.Programs.{IsProgram, BeginsProgram, StopsAt};
ghost use Rattle.delta_parse.specs.Marks.{IsShallow};
ghost use Rattle.delta_parse.specs.Bindings.{AreNamed};
ghost use Rattle.delta_parse.specs.Causes.{IsComplaint, IsCut, IsFirstCut, name_complaint};
ghost use Rattle.delta_parse.specs.declared.checked_reader.Complaint.TheVariants.{Memory};

use crate::bindings::{NameFault, first_name_fault};
use crate::marks::first_deep;
use crate::plain::Plain;
use crate::whole_reader::{Stop, read_whole};
use delta_tree::{Decl, Fun};
use std::alloc::{AllocError, Global};

/// Why tokens are no program, by the number of a token.
#[derive(Clone, Copy)]
pub(crate) enum Complaint {
    Memory,
    Deep(usize),
    Unexpected(usize),
    Twice(usize),
    Many(usize),
    NoMain,
}

impl From<AllocError> for Complaint {
    ghost from_gives = { λ _ e. e ≡ Memory };

    fn from(_e: AllocError) -> Complaint {
        Complaint::Memory
    }
}

/// The declarations and `main` that the tokens are, or what is wrong first.
#[tactic(auto, using(crate::proofs::Firsts::whole_stops, crate::proofs::Firsts::whole_no_main))]
pub(crate) fn read_checked(alloc: Global, tokens: &[Plain]) -> Result<(Vec<Decl>, Fun), Complaint>
    ensures found { IfOk result (λ x. IsProgram (plains tokens.now) (map declaration_of x.0.items) (function_of x.1)) }
    ensures shallow { IfOk result (λ x. IsShallow (plains tokens.now) (length (plains tokens.now))) }
    ensures named { IfOk result (λ x. AreNamed (plains tokens.now) (length (plains tokens.now))) }
    ensures complaint { IfErr result (λ e. IsComplaint (plains tokens.now) e) }
{
    if let Some((cut, last)) = first_cut(alloc, tokens)? {
        return Err(read_front(alloc, tokens, cut, last));
    }
    match read_whole(alloc, tokens) {
        Ok(found) => Ok(found),
        Err(Stop::Memory) => Err(Complaint::Memory),
        Err(Stop::Misfit(left)) => Err(Complaint::Unexpected(tokens.len() - left)),
        Err(Stop::NoMain) => Err(Complaint::NoMain),
    }
}

// How many tokens have to be read where a mark or a name is wrong, and what is wrong first where a
// program begins with them. The token with a wrong name is one of them, since it may not fit.
#[tactic(auto, using(crate::proofs::Firsts::no_cut))]
fn first_cut(alloc: Global, tokens: &[Plain]) -> Result<Option<(usize, Complaint)>, AllocError>
    ensures { IfOk result (λ found. IsFirstCut (plains tokens.now) found) }
{
    let deep = first_deep(alloc, tokens)?;
    match first_name_fault(alloc, tokens)? {
        Some((n, fault)) => {
            if n < deep {
                Ok(Some((n + 1, name_complaint(n, fault))))
            } else {
                Ok(Some((deep, Complaint::Deep(deep))))
            }
        }
        None => {
            if deep < tokens.len() {
                Ok(Some((deep, Complaint::Deep(deep))))
            } else {
                Ok(None)
            }
        }
    }
}

fn name_complaint(n: usize, fault: NameFault) -> Complaint
    ensures { result ≡ name_complaint n fault }
{
    match fault {
        NameFault::Twice => Complaint::Twice(n),
        NameFault::Many => Complaint::Many(n),
    }
}

// What is wrong first in the first tokens, or `last` where a program begins with them.
#[tactic(auto, using(crate::proofs::Firsts::front_ends, crate::proofs::Firsts::front_stops))]
fn read_front(alloc: Global, tokens: &[Plain], cut: usize, last: Complaint) -> Complaint
    requires cut { IsCut (plains tokens.now) cut }
    requires last { BeginsProgram (take cut (plains tokens.now)) → IsComplaint (plains tokens.now) last }
    ensures { IsComplaint (plains tokens.now) result }
{
    match stop_of(alloc, &tokens[..cut]) {
        None => last,
        Some(Stop::Memory) => Complaint::Memory,
        Some(Stop::Misfit(0)) => last,
        Some(Stop::Misfit(left)) => Complaint::Unexpected(cut - left),
        Some(Stop::NoMain) => last,
    }
}

// Where the reader of the tokens stops, if they are no program.
fn stop_of(alloc: Global, tokens: &[Plain]) -> Option<Stop>
    ensures none { IfNone result (BeginsProgram (plains tokens.now)) }
    ensures some { IfSome result (λ e. StopsAt (plains tokens.now) e) }
{
    read_whole(alloc, tokens).err()
}
