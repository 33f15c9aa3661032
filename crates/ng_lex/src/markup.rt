//! The parts of a template as data, each with what stands in it.

use ng_ast::{Expr, ForHead, Place, TAttr};
use ng_values::NgText;
use sqlite_items::Items;

/// A byte of literal text whose entities are decoded; blank where it is white space that is written as itself.
#[derive(Clone, Copy, Debug, PartialEq, Eq)]
pub struct Letter {
    pub byte: u8,
    pub blank: bool,
}

/// The parts that hold expressions.
#[derive(Clone, Copy, Debug, PartialEq, Eq)]
pub enum Shape {
    Interpolation,
    Tag,
    If,
    ElseIf,
    For,
    Switch,
    Case,
    Let,
}

/// What a part of a template says: literal text; an interpolation; a comment; a void or self-closed element; the start tag and the
/// end tag of another element; the head of a block or of one of its branches, up to its brace; a `@let`; a closing brace.
/// Heavy is a part of this shape that is begun, and in which an expression passes a limit.
#[derive(Drop)]
pub enum Markup {
    Literal(Items<Letter>),
    Interpolation(Expr),
    Comment,
    Single(NgText, Items<TAttr>),
    Start(NgText, Items<TAttr>),
    End(NgText),
    /// With the name after `as`, where there is one.
    If(Expr, Option<NgText>),
    ElseIf(Expr, Option<NgText>),
    Else,
    For(ForHead),
    Empty,
    Switch(Expr),
    Case(Expr),
    Default,
    Let(NgText, Expr),
    Close,
    Heavy(Shape),
}

/// A part of a template, with the place of its first byte.
#[derive(Drop)]
pub struct Part {
    pub place: Place,
    pub markup: Markup,
}
