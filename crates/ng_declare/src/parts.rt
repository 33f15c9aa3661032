//! The parts of a file that other readers read: expressions, bodies, selectors.

ghost use Rattle.std.specs.Prelude.{◌≡◌};
ghost use Rattle.ng_tokens.specs.Lexis.{Text};
ghost use Rattle.ng_declare.specs.Leaves as gram;
ghost use Rattle.ng_declare.specs.Gives.{Gives, read, Halts, Unwritten};

use crate::cursor::Cursor;
use crate::ends::end_of;
use crate::halt::{Halt, Part};
use ng_ast::{Expr, Place, ReadError, Selector, Stmt};
use ng_exprs::{read_body, read_expr};
use ng_selectors::read_selector;
use ng_tokens::Sign;
use ng_values::NgText;
use sqlite_items::Items;

fn refused(part: Part, error: ReadError) -> Halt
    ensures { Halts part error result }
{
    match error {
        ReadError::Memory => Halt::Memory,
        other => Halt::Refused(part, other),
    }
}

/// An expression, before its `;`.
pub fn expression(cursor: &mut Cursor<'_>) -> Result<Expr, Halt>
    ensures { Gives (read gram.expression_here cursor.old.place cursor.old.rest.now) result cursor.new.place cursor.new.rest.now }
{
    let Some(len) = end_of(cursor.alloc, Sign::Semicolon, cursor.rest)? else {
        return Err(Halt::Syntax(cursor.place));
    };
    match read_expr(cursor.alloc, &cursor.rest[..len], cursor.place, true) {
        Ok(found) => {
            cursor.skip(len);
            Ok(found)
        }
        Err(error) => Err(refused(Part::Expression, error)),
    }
}

/// A body, before its `}`.
pub fn body(cursor: &mut Cursor<'_>) -> Result<Items<Stmt>, Halt>
    ensures { Gives (read gram.body_here cursor.old.place cursor.old.rest.now) result cursor.new.place cursor.new.rest.now }
{
    let Some(len) = end_of(cursor.alloc, Sign::CloseBrace, cursor.rest)? else {
        return Err(Halt::Syntax(cursor.place));
    };
    match read_body(cursor.alloc, &cursor.rest[..len], cursor.place) {
        Ok(found) => {
            cursor.skip(len);
            Ok(found)
        }
        Err(error) => Err(refused(Part::Body, error)),
    }
}

/// The selector that a text is.
pub fn selector(cursor: &mut Cursor<'_>, text: &NgText) -> Result<Selector, Halt>
    ensures { Gives (read (gram.selector_here text.now) cursor.old.place cursor.old.rest.now) result cursor.new.place cursor.new.rest.now }
{
    match read_selector(cursor.alloc, text.as_str(), cursor.place) {
        Ok(found) => Ok(found),
        Err(error) => Err(unwritten(error, cursor.place)),
    }
}

fn unwritten(error: ReadError, place: Place) -> Halt
    ensures { Unwritten error result }
{
    match error {
        ReadError::Memory => Halt::Memory,
        _ => Halt::Syntax(place),
    }
}
