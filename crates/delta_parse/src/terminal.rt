//! The terminals of the grammar.

ghost use Rattle.std.specs.Prelude.{◌≡◌};
ghost use Rattle.delta_parse.specs.Terminals.{is_kind};

/// What a token is to the grammar: a word, a sign, a name or a number.
#[derive(Clone, Copy, PartialEq, Eq, Debug)]
pub enum Terminal {
    /// `fun`
    FunWord,
    /// `main`
    MainWord,
    /// `type`
    TypeWord,
    /// `let`
    LetWord,
    /// `in`
    InWord,
    /// `case`
    CaseWord,
    /// `of`
    OfWord,
    /// `inl`
    InlWord,
    /// `inr`
    InrWord,
    /// `nil`
    NilWord,
    /// `wait`
    WaitWord,
    /// `eps`
    EpsWord,
    /// `if`
    IfWord,
    /// `then`
    ThenWord,
    /// `else`
    ElseWord,
    /// `fold`
    FoldWord,
    /// `from`
    FromWord,
    /// `with`
    WithWord,
    /// `Int`
    IntWord,
    /// `fst`
    FstWord,
    /// `snd`
    SndWord,
    /// `(`
    Open,
    /// `)`
    Close,
    /// `{`
    OpenBrace,
    /// `}`
    CloseBrace,
    /// `,`
    Comma,
    /// `;`
    Semicolon,
    /// `:`
    Colon,
    /// `::`
    Colons,
    /// `=`
    Equals,
    /// `=>`
    Arrow,
    /// `|`
    Bar,
    /// `||`
    Bars,
    /// `+`
    Plus,
    /// `-`
    Minus,
    /// `*`
    Times,
    /// `/`
    Slash,
    /// `<`
    Less,
    /// `.`
    Dot,
    /// a name
    NameToken,
    /// a number whose text is `1`, which is a type too
    OneToken,
    /// any other number
    NumberToken,
    /// no token of a text: a word or sign that the language hasn't
    Other,
}

/// Whether the two are one terminal.
pub(crate) fn same_kind(a: Terminal, b: Terminal) -> bool
    ensures { result ≡ is_kind a b }
{
    a == b
}
