//! Expressions at the front of a text.

ghost use Rattle.std.specs.Prelude.{◌≡◌, ◌≤◌, length, MatchOption, IfSome, slice_get};
ghost use Rattle.std.specs.Str.{IsCharBoundary};
ghost use Rattle.ng_ast.specs.declared.Place.{Place};
ghost use Rattle.ng_heads.specs.Fits.{Fits};
ghost use Rattle.ng_heads.specs.Fronts.{is_end, AnswersExpr, Ended, NoFront, AnswersFront};

use crate::at::At;
use crate::halt::Stop;
use ng_ast::{Expr, Place, ReadError};
use ng_exprs::{end_of, read_expr};
use std::alloc::Global;

/// The expression that the whole text is; its first byte stands at the place.
pub(crate) fn read_whole(alloc: Global, text: &str, place: Place) -> Result<Expr, Stop>
    requires { Fits place text.now }
    ensures { AnswersExpr place text.now result }
{
    match read_expr(alloc, text, place, false) {
        Ok(found) => Ok(found),
        Err(ReadError::Syntax(refusal)) => Err(Stop::Syntax(refusal.place)),
        Err(ReadError::Limit(_)) => Err(Stop::Limit),
        Err(ReadError::Memory) => Err(Stop::Memory),
        Err(ReadError::Utf8) => unreachable!(),
    }
}

// Whether `)` or `;` stands there.
fn ends_at(z: &[u8], at: usize) -> bool
    ensures { result ≡ is_end (slice_get z.now at) }
{
    match z.get(at) {
        Some(b) => *b == b';' || *b == b')',
        None => false,
    }
}

// The bytes of the expression at the front, before the `)` or `;` that ends it.
fn expr_len(text: &str) -> Option<usize>
    ensures found { MatchOption result (NoFront text.now) (Ended text.now) }
    ensures boundary { IfSome result (IsCharBoundary text.now) }
{
    let len = end_of(text)?;
    if ends_at(text.as_bytes(), len) {
        Some(len)
    } else {
        None
    }
}

/// The expression at the front, up to the `)` or `;` that ends it, and what is left from that sign on.
pub(crate) fn expr_at(alloc: Global, at: At) -> Result<(Expr, At), Stop>
    ensures { AnswersFront at.entry result }
{
    let Some(len) = expr_len(at.text) else {
        return Err(Stop::Syntax(at.place));
    };
    let (inside, rest) = at.split(len);
    match read_whole(alloc, inside.text, inside.place) {
        Ok(found) => Ok((found, rest)),
        Err(stop) => Err(stop),
    }
}
