//! Where an expression ends before its `;`, and a body before its `}`.

ghost use Rattle.std.specs.Prelude.{◌≡◌, ◌+◌, ◌<◌, ◌≤◌, ◌^◌, IfOk};
ghost use Rattle.ng_exprs.specs.Limits.{after};
ghost use Rattle.ng_declare.specs.Ends as spec;

use ng_tokens::{Kind, Sign, piece};
use std::alloc::{AllocError, Global};

/// What stands next on the way to the end: nothing that can be read, the end, or so many bytes, after which so many brackets are open.
#[derive(Clone, Copy)]
pub enum Turn {
    Stuck,
    Ended,
    Past(usize, usize),
}

#[tactic(auto, unfolding(ng_phrases::specs::Words::same_sign))]
fn is_end(ending: Sign, kind: &Kind, depth: usize) -> bool
    ensures { result ≡ spec.ends_by ending kind.now depth }
{
    match kind {
        Kind::Sign(sign) => *sign == ending && depth == 0,
        _ => false,
    }
}

// How many brackets are open after the token.
fn opened(kind: &Kind, depth: usize) -> usize
    requires { depth < 2 ^ 63 }
    ensures value { result ≡ after kind.now depth }
    ensures bound { result ≤ depth + 1 }
{
    match kind {
        Kind::Sign(Sign::OpenRound | Sign::OpenSquare | Sign::OpenBrace) => depth + 1,
        Kind::Sign(Sign::CloseRound | Sign::CloseSquare | Sign::CloseBrace) => {
            depth.saturating_sub(1)
        }
        _ => depth,
    }
}

fn next_turn(alloc: Global, ending: Sign, depth: usize, rest: &str) -> Result<Turn, AllocError>
    requires { depth < 2 ^ 63 }
    ensures { IfOk result (spec.Turns ending depth rest.now) }
{
    let Some((kind, len)) = piece(alloc, true, rest.as_bytes())? else {
        return Ok(Turn::Stuck);
    };
    let Some(kind) = kind else {
        return Ok(Turn::Past(len, depth));
    };
    if is_end(ending, &kind, depth) {
        Ok(Turn::Ended)
    } else {
        Ok(Turn::Past(len, opened(&kind, depth)))
    }
}

/// The bytes before the first sign `ending` that stands in no bracket of the text, text literal or comment; None where there is none, or
/// something that is no token stands before it. Takes time linear in these bytes.
pub fn end_of(alloc: Global, ending: Sign, text: &str) -> Result<Option<usize>, AllocError>
    ensures { IfOk result (λ o. o ≡ spec.end_of ending text.now) }
{
    let mut rest = text;
    let mut depth = 0;
    let mut at = 0;
    while !rest.is_empty() {
        match next_turn(alloc, ending, depth, rest)? {
            Turn::Stuck => return Ok(None),
            Turn::Ended => return Ok(Some(at)),
            Turn::Past(len, now) => {
                at += len;
                depth = now;
                rest = &rest[len..];
            }
        }
    }
    Ok(None)
}
