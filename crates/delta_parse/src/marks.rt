//! How many marks are open before a token.

ghost use Rattle.std.specs.Prelude.{◌≡◌, ◌≤◌, reverse, IfOk, OnOk};
ghost use Rattle.delta_parse.specs.Terminals.{plains};
ghost use Rattle.delta_parse.specs.Marks.{effect_of, effect_behind, behind_after, after_token, opened_of, opened_with, none_open, up_to_bracket, IsFirstDeep};

use crate::plain::Plain;
use crate::terminal::Terminal;
use std::alloc::{AllocError, Global};

const MOST_MARKS: usize = 64;

/// What a token does to the marks.
#[derive(Clone, Copy)]
pub(crate) enum Effect {
    /// A bracket opens.
    Opens,
    /// A bracket closes, with the marks in it.
    Closes,
    /// The marks that stand directly in the bracket close.
    Separates,
    /// A declaration begins.
    Begins,
    /// One more mark is open.
    Adds,
    /// None of these.
    Nothing,
}

/// How near a `with` stands before a token.
#[derive(Clone, Copy)]
pub(crate) enum Behind {
    /// Not near enough.
    NoWith,
    /// It is the token before.
    AfterWith,
    /// Only a name stands between.
    AfterName,
}

/// The marks that are open, and for each open bracket how many were open when it had opened. Contracts see them
/// as an `Opened` by `opened_of` (`specs/Marks.antt`).
#[derive(Drop)]
pub(crate) struct Marks {
    /// How many are open.
    pub count: usize,
    /// For each open bracket, the outermost first, how many were open when it had opened.
    pub inside: Vec<usize>,
    /// How near a `with` stands.
    pub behind: Behind,
}

fn effect_of(kind: Terminal) -> Effect
    ensures { result ≡ effect_of kind }
{
    match kind {
        Terminal::Open | Terminal::OpenBrace => Effect::Opens,
        Terminal::Close | Terminal::CloseBrace => Effect::Closes,
        Terminal::Comma | Terminal::Semicolon | Terminal::Bar => Effect::Separates,
        Terminal::FunWord | Terminal::TypeWord | Terminal::MainWord => Effect::Begins,
        Terminal::InWord | Terminal::ThenWord | Terminal::ElseWord => Effect::Adds,
        Terminal::Arrow | Terminal::Colons | Terminal::Bars | Terminal::Plus => Effect::Adds,
        Terminal::Minus | Terminal::Times | Terminal::Slash | Terminal::Less => Effect::Adds,
        Terminal::Equals | Terminal::Dot | Terminal::InlWord | Terminal::InrWord => Effect::Adds,
        Terminal::FstWord | Terminal::SndWord | Terminal::OfWord => Effect::Adds,
        Terminal::FromWord | Terminal::WithWord | Terminal::FoldWord => Effect::Adds,
        Terminal::CaseWord => Effect::Adds,
        _ => Effect::Nothing,
    }
}

// What the token does where a `with` stands so near.
fn effect_behind(behind: Behind, kind: Terminal) -> Effect
    ensures { result ≡ effect_behind behind kind }
{
    match (behind, kind) {
        (Behind::AfterName, Terminal::Comma) => Effect::Nothing,
        _ => effect_of(kind),
    }
}

fn behind_after(behind: Behind, kind: Terminal) -> Behind
    ensures { result ≡ behind_after behind kind }
{
    match (behind, kind) {
        (_, Terminal::WithWord) => Behind::AfterWith,
        (Behind::AfterWith, Terminal::NameToken) => Behind::AfterName,
        _ => Behind::NoWith,
    }
}

impl Marks {
    fn new(alloc: Global) -> Marks
        ensures { opened_of result ≡ none_open }
    {
        Marks {
            count: 0,
            inside: Vec::new(alloc),
            behind: Behind::NoWith,
        }
    }

    // Puts the next token behind the marks.
    fn take(&mut self, kind: Terminal) -> Result<(), AllocError>
        requires { self.old.count ≤ 64 }
        ensures { OnOk result (opened_of self.new ≡ after_token (opened_of self.old) kind) }
    {
        let effect = effect_behind(self.behind, kind);
        self.behind = behind_after(self.behind, kind);
        self.change(effect)
    }

    // What the effect changes, but for what stands behind a `with`.
    fn change(&mut self, effect: Effect) -> Result<(), AllocError>
        requires { self.old.count ≤ 64 }
        ensures { OnOk result (opened_of self.new ≡ opened_with effect self.old.behind (opened_of self.old)) }
    {
        match effect {
            Effect::Opens => {
                self.inside.push(self.count + 1)?;
                self.count += 1;
            }
            Effect::Closes => {
                if let Some(inside) = self.inside.pop() {
                    self.count = inside.saturating_sub(1);
                }
            }
            Effect::Separates => self.count = up_to_bracket(&self.inside),
            Effect::Begins => {
                if self.inside.is_empty() {
                    self.count = 0;
                }
            }
            Effect::Adds => self.count += 1,
            Effect::Nothing => {}
        }
        Ok(())
    }
}

// How many stay open at a separator: the bracket round it and what was open before that.
fn up_to_bracket(inside: &[usize]) -> usize
    ensures { result ≡ up_to_bracket (reverse inside.now) }
{
    match inside {
        [.., last] => *last,
        [] => 0,
    }
}

/// The number of the first token with more than 64 marks open before it, or of tokens.
pub fn first_deep(alloc: Global, tokens: &[Plain]) -> Result<usize, AllocError>
    ensures { IfOk result (λ n. IsFirstDeep (plains tokens.now) n) }
{
    let mut marks = Marks::new(alloc);
    for (i, token) in tokens.iter().enumerate() {
        if marks.count > MOST_MARKS {
            return Ok(i);
        }
        marks.take(token.kind)?;
    }
    Ok(tokens.len())
}
