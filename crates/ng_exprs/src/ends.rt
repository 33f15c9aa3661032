//! Where an expression ends, by its tokens alone.

ghost use Rattle.std.specs.Prelude.{◌≡◌, ℕ, ◌+◌, ◌<◌, ◌≤◌, ◌^◌, List, [], ◌∷◌, ◌++◌, length, false, Some};
ghost use Rattle.ng_ast.specs.declared.Expr.{Expr};
ghost use Rattle.ng_ast.specs.declared.Place.{Place};
ghost use Rattle.ng_tokens.specs.declared.kinds.Kind.TheVariants as kind;
ghost use Rattle.ng_tokens.specs.Lexis.{is_blank as blank};
ghost use Rattle.ng_exprs.specs.Limits.{after};
ghost use Rattle.ng_exprs.specs.Reading.{ReadsExpr};
ghost use Rattle.ng_exprs.specs.Ends.{IsEnd, stops, kind_by, end_from, Advances};

use ng_tokens::{Shape, Sign, shape};

fn is_blank(b: u8) -> bool
    ensures { result ≡ blank b }
{
    b == b' ' || (9 <= b && b <= 10) || (12 <= b && b <= 13)
}

fn is_stop(shape: Shape, depth: usize) -> bool
    ensures { result ≡ stops (kind_by shape) depth }
{
    matches!(shape, Shape::Sign(Sign::CloseRound | Sign::Semicolon)) && depth == 0
}

// How many brackets are open after the token.
fn opened(shape: Shape, depth: usize) -> usize
    requires { depth < 2 ^ 63 }
    ensures value { result ≡ after (kind_by shape) depth }
    ensures bound { result ≤ depth + 1 }
{
    match shape {
        Shape::Sign(Sign::OpenRound | Sign::OpenSquare | Sign::OpenBrace) => depth + 1,
        Shape::Sign(Sign::CloseRound | Sign::CloseSquare | Sign::CloseBrace) => {
            depth.saturating_sub(1)
        }
        _ => depth,
    }
}

// Some(None) where the expression ends here, and otherwise the bytes of what stands here and how many brackets are open after it.
#[tactic(auto, unfolding(crate::specs::Ends::end_from))]
fn advance(depth: usize, z: &[u8]) -> Option<Option<(usize, usize)>>
    requires { depth < 2 ^ 63 }
    ensures { Advances depth z.now result }
{
    let [first, ..] = z else {
        return None;
    };
    if is_blank(*first) {
        return Some(Some((1, depth)));
    }
    let (shape, len) = shape(z)?;
    if is_stop(shape, depth) {
        return Some(None);
    }
    Some(Some((len, opened(shape, depth))))
}

fn scan_end(text: &str) -> Option<usize>
    ensures { result ≡ end_from 0 0 text.now }
{
    let mut rest = text.as_bytes();
    let mut depth = 0;
    let mut at = 0;
    while !rest.is_empty() {
        match advance(depth, rest)? {
            None => return Some(at),
            Some((len, now)) => {
                at += len;
                depth = now;
                rest = &rest[len..];
            }
        }
    }
    None
}

/// Where an expression at the front of the text ends: the bytes before the first `)` or `;` that stands in none of its brackets
/// and text literals. None where none does, or where something stands before it that begins no token. An expression that stands
/// before a `)` or `;` ends exactly there. Takes time linear in the bytes before that place, and no memory.
pub fn end_of(text: &str) -> Option<usize>
    ensures value { result ≡ end_from 0 0 text.now }
    ensures ends { (base : Place) (x z : List ℕ) (a : Expr) (c : ℕ) → ReadsExpr false base x a → IsEnd c → text.now ≡ x ++ c ∷ z → result ≡ Some (length x) }
{
    scan_end(text)
}
