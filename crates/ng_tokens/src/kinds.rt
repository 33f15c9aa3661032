//! Tokens as data.

use ng_ast::Place;
use ng_values::NgText;

/// A sign of expressions, statements or declarations.
#[derive(Clone, Copy, Debug, PartialEq, Eq)]
pub enum Sign {
    Same,
    NotSame,
    Eq,
    Ne,
    Le,
    Ge,
    Or,
    And,
    OrNull,
    SafeDot,
    Lt,
    Gt,
    Plus,
    Minus,
    Star,
    Slash,
    Percent,
    Not,
    Dot,
    Comma,
    Semicolon,
    Question,
    Colon,
    Bar,
    Assign,
    Hash,
    OpenRound,
    CloseRound,
    OpenSquare,
    CloseSquare,
    OpenBrace,
    CloseBrace,
}

/// How a token is written.
#[derive(Clone, Copy, Debug, PartialEq, Eq)]
pub enum Shape {
    Number,
    Name,
    Variable,
    Text,
    Sign(Sign),
}

/// What a token says: a number, a name, one of the variables `$index`, `$count`, `$first`, `$last`, `$even`, `$odd`
/// and `$event` with its dollar, the text of a literal with its escapes replaced, or a sign.
#[derive(Drop)]
pub enum Kind {
    Number(i64),
    Name(NgText),
    Variable(NgText),
    Text(NgText),
    Sign(Sign),
}

/// A token, with the place of its first byte.
#[derive(Drop)]
pub struct Token {
    pub kind: Kind,
    pub place: Place,
}
