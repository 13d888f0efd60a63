//! The names that a program's tokens declare and bind, and the first of them that is a fault.

ghost use Rattle.std.specs.Prelude.{◌≡◌, false, IfOk, OnOk, IfSome, IfNone};
ghost use Rattle.delta_parse.specs.Terminals.{plain_of, plains};
ghost use Rattle.delta_parse.specs.Bindings.{in_header, in_type, before_first, behind_first, stand_within, stand_after, rivals, has, is_full, is_repeated, is_excess, with_name, after_token, none_bound, bound_of, IsFaultOf, IsFirstFault};

use crate::plain::Plain;
use crate::terminal::{Terminal, same_kind};
use indexmap::IndexSet;
use std::alloc::{AllocError, Global};

const MOST_FUNCTIONS: usize = 1000;

const MOST_BOUND: usize = 1024;

/// Where a token stands, as far as names go.
#[derive(Clone, Copy)]
pub(crate) enum Stand {
    /// Where a name is neither declared nor bound.
    InBody,
    /// Behind `type`.
    NamesType,
    /// Behind `fun`.
    NamesFunction,
    /// In a header, outside the types: a name is a parameter's.
    Parameters,
    /// In a type of a header.
    InType,
    /// Behind a word or sign that binds a name.
    BindsFirst,
    /// Behind the name bound there.
    OneBound,
    /// Behind what joins a second name to it.
    BindsSecond,
}

/// What is wrong with a name.
#[derive(Clone, Copy, PartialEq, Eq, Debug)]
pub enum NameFault {
    /// It is declared or bound together with the same name before.
    Twice,
    /// So many functions are declared before it, or so many names bound in its declaration, as there may be.
    Many,
}

/// The names so far. Contracts see them as a `Bound` by `bound_of` (`specs/Bindings.antt`).
#[derive(Drop)]
pub(crate) struct Bindings {
    /// Where the next token stands.
    pub stand: Stand,
    /// The names that `type` declared.
    pub types: IndexSet<u32>,
    /// The names that `fun` declared.
    pub functions: Vec<u32>,
    /// How many names the declaration bound.
    pub count: usize,
    /// The parameters of the header, or the names of the pattern, the arm or the `with`.
    pub together: Vec<u32>,
}

fn in_header(kind: Terminal) -> Stand
    ensures { result ≡ in_header kind }
{
    match kind {
        Terminal::Colon => Stand::InType,
        _ => Stand::Parameters,
    }
}

fn in_type(kind: Terminal) -> Stand
    ensures { result ≡ in_type kind }
{
    match kind {
        Terminal::Comma | Terminal::Semicolon | Terminal::CloseBrace => Stand::Parameters,
        Terminal::Equals => Stand::InBody,
        _ => Stand::InType,
    }
}

fn before_first(kind: Terminal) -> Stand
    ensures { result ≡ before_first kind }
{
    match kind {
        Terminal::Open | Terminal::OpenBrace => Stand::BindsFirst,
        Terminal::InlWord | Terminal::InrWord => Stand::BindsFirst,
        Terminal::NameToken => Stand::OneBound,
        _ => Stand::InBody,
    }
}

fn behind_first(kind: Terminal) -> Stand
    ensures { result ≡ behind_first kind }
{
    match kind {
        Terminal::Comma | Terminal::Semicolon | Terminal::Colons => Stand::BindsSecond,
        _ => Stand::InBody,
    }
}

// Where the next token stands behind one that doesn't decide it alone.
fn stand_within(stand: Stand, kind: Terminal) -> Stand
    ensures { result ≡ stand_within stand kind }
{
    match stand {
        Stand::NamesFunction => Stand::Parameters,
        Stand::Parameters => in_header(kind),
        Stand::InType => in_type(kind),
        Stand::BindsFirst => before_first(kind),
        Stand::OneBound => behind_first(kind),
        Stand::NamesType | Stand::BindsSecond | Stand::InBody => Stand::InBody,
    }
}

fn stand_after(stand: Stand, kind: Terminal) -> Stand
    ensures { result ≡ stand_after stand kind }
{
    match kind {
        Terminal::TypeWord => Stand::NamesType,
        Terminal::FunWord => Stand::NamesFunction,
        Terminal::MainWord => Stand::Parameters,
        Terminal::LetWord | Terminal::WithWord => Stand::BindsFirst,
        Terminal::OfWord | Terminal::Bar => Stand::BindsFirst,
        _ => stand_within(stand, kind),
    }
}

impl Bindings {
    fn new(alloc: Global) -> Bindings
        ensures { bound_of result ≡ none_bound }
    {
        Bindings {
            stand: Stand::InBody,
            types: IndexSet::new(alloc),
            functions: Vec::new(alloc),
            count: 0,
            together: Vec::new(alloc),
        }
    }

    // What is wrong with the next token, if it is a name.
    fn fault(&self, token: &Plain) -> Option<NameFault>
        ensures none { IfNone result (is_repeated (bound_of self.now) (plain_of token.now) ≡ false) }
        ensures few { IfNone result (is_excess (bound_of self.now) (plain_of token.now) ≡ false) }
        ensures some { IfSome result (λ f. IsFaultOf f (is_repeated (bound_of self.now) (plain_of token.now)) (is_excess (bound_of self.now) (plain_of token.now))) }
    {
        if !same_kind(Terminal::NameToken, token.kind) {
            return None;
        }
        if self.is_held(token.name) {
            return Some(NameFault::Twice);
        }
        if self.is_full() {
            return Some(NameFault::Many);
        }
        None
    }

    // Whether the name is among those with which it would be declared or bound.
    fn is_held(&self, name: u32) -> bool
        ensures { result ≡ has (rivals self.now.stand (bound_of self.now)) name }
    {
        match self.stand {
            Stand::NamesType => self.types.contains(&name),
            Stand::NamesFunction => self.functions.contains(&name),
            Stand::Parameters | Stand::BindsSecond => self.together.contains(&name),
            Stand::InBody | Stand::InType | Stand::BindsFirst | Stand::OneBound => false,
        }
    }

    // Whether no further name may be declared or bound here.
    fn is_full(&self) -> bool
        ensures { result ≡ is_full self.now.stand (bound_of self.now) }
    {
        match self.stand {
            Stand::NamesFunction => self.functions.len() >= MOST_FUNCTIONS,
            Stand::Parameters | Stand::BindsFirst | Stand::BindsSecond => self.count >= MOST_BOUND,
            Stand::InBody | Stand::NamesType | Stand::InType | Stand::OneBound => false,
        }
    }

    // Puts the next token behind the names.
    fn take(&mut self, token: &Plain) -> Result<(), AllocError>
        requires once { is_repeated (bound_of self.old) (plain_of token.now) ≡ false }
        requires few { is_excess (bound_of self.old) (plain_of token.now) ≡ false }
        ensures { OnOk result (bound_of self.new ≡ after_token (bound_of self.old) (plain_of token.now)) }
    {
        let stand = self.stand;
        self.stand = stand_after(stand, token.kind);
        match token.kind {
            Terminal::NameToken => self.add(stand, token.name)?,
            Terminal::TypeWord | Terminal::FunWord | Terminal::MainWord => {
                self.count = 0;
                self.together.clear();
            }
            _ => {}
        }
        Ok(())
    }

    // Puts a name that stands so behind the names.
    fn add(&mut self, stand: Stand, name: u32) -> Result<(), AllocError>
        requires once { has (rivals stand (bound_of self.old)) name ≡ false }
        requires few { is_full stand (bound_of self.old) ≡ false }
        ensures { OnOk result (bound_of self.new ≡ with_name stand name (bound_of self.old)) }
    {
        match stand {
            Stand::NamesType => {
                self.types.insert(name)?;
            }
            Stand::NamesFunction => self.functions.push(name)?,
            Stand::BindsFirst => {
                self.together.clear();
                self.together.push(name)?;
                self.count += 1;
            }
            Stand::Parameters | Stand::BindsSecond => {
                self.together.push(name)?;
                self.count += 1;
            }
            Stand::InBody | Stand::InType | Stand::OneBound => {}
        }
        Ok(())
    }
}

/// The number of the first token that is a name twice or one too many, and which of the two it is: of a name that is both the
/// first. `IsFirstFault` of `specs/Bindings.antt` says when it is there.
pub fn first_name_fault(
    alloc: Global,
    tokens: &[Plain],
) -> Result<Option<(usize, NameFault)>, AllocError>
    ensures { IfOk result (λ found. IsFirstFault (plains tokens.now) found) }
{
    let mut bindings = Bindings::new(alloc);
    for (i, token) in tokens.iter().enumerate() {
        if let Some(fault) = bindings.fault(token) {
            return Ok(Some((i, fault)));
        }
        bindings.take(token)?;
    }
    Ok(None)
}
