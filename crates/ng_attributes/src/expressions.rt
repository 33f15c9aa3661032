//! Expressions, listeners and names in values.

ghost use Rattle.std.specs.Prelude.{◌≡◌, ℕ, ◌≤◌, List, length, true, false, MatchOption};
ghost use Rattle.ng_exprs.specs.Reading.{IsNear, ReadsExpr, OverText};
ghost use Rattle.ng_exprs.specs.Listening.{ReadsLines, OverLines, NoLines};
ghost use Rattle.ng_lex.specs.Words.{IsOneName};
ghost use Rattle.ng_attributes.specs.Answers.{Answers};

use crate::classes::{Class, is_name};
use crate::stop::{Stop, stop_of};
use ng_ast::{Expr, Place, Stmt};
use ng_exprs::{read_expr, read_listener};
use sqlite_items::Items;
use std::alloc::Global;

/// The expression that the text is, whose first byte stands at the place. `Syntax` comes only where it is none, `Limit` only where it
/// passes a limit of expressions. Takes time linear in the length of the text.
pub fn expression(alloc: Global, text: &str, place: Place) -> Result<Expr, Stop>
    requires size { length text.now ≤ 1048576 }
    requires near { IsNear place }
    ensures { Answers (ReadsExpr false place text.now) (OverText false place text.now) result }
{
    match read_expr(alloc, text, place, false) {
        Ok(found) => Ok(found),
        Err(error) => Err(stop_of(error, place)),
    }
}

/// The listener that the text is, whose first byte stands at the place: statements without `if`. `Syntax` comes only where it is none,
/// `Limit` only where it passes a limit of expressions. Takes time linear in the length of the text.
pub fn listener(alloc: Global, text: &str, place: Place) -> Result<Items<Stmt>, Stop>
    requires size { length text.now ≤ 1048576 }
    requires near { IsNear place }
    ensures { Answers (ReadsLines false place text.now) (OverLines place text.now × NoLines true place text.now) result }
{
    match read_listener(alloc, text, place) {
        Ok(found) => Ok(found),
        Err(error) => Err(stop_of(error, place)),
    }
}

/// The name that the text is, with white space round it or without.
pub fn one_name(text: &str) -> Option<&str>
    ensures { MatchOption result ((n : List ℕ) → IsOneName text.now n → ⊥) (λ n. IsOneName text.now n.now) }
{
    let (_, text) = Class::Blank.split(text);
    let (name, rest) = Class::Word.split(text);
    let (_, rest) = Class::Blank.split(rest);
    if !rest.is_empty() {
        return None;
    }
    if is_name(name.as_bytes()) {
        Some(name)
    } else {
        None
    }
}
