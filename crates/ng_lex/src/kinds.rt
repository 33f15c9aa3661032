//! The tokens of a template as data.

/// The kind of a token: a run of literal text, as long as can be; `{{` to `}}`; a whole start tag; an end tag; a comment; the head
/// of a block from its `@` to its `{`; a `}`; a whole `@let`.
#[derive(Clone, Copy, Debug, PartialEq, Eq)]
pub enum TokenKind {
    Literal,
    Interpolation,
    Start,
    End,
    Comment,
    Head,
    Close,
    Let,
}

/// A token of a template: its text goes from byte `from` to before byte `to`.
#[derive(Clone, Copy, Debug, PartialEq, Eq)]
pub struct Token {
    pub kind: TokenKind,
    pub from: u32,
    pub to: u32,
}
