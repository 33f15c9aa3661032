//! Where the heads of blocks and `@let` end.

ghost use Rattle.std.specs.Prelude.{◌≡◌, ◌+◌, ◌^◌, ◌<◌, ◌≤◌, IfSome, length};
ghost use Rattle.ng_exprs.specs.Ends.{later};
ghost use Rattle.ng_lex.specs.Span as spec;

use crate::kinds::TokenKind;
use crate::words::{after, blank_len, byte_at, byte_of, name_len, strip};
use ng_exprs::end_of;

// White space and `{`.
#[tactic(auto, unfolding(crate::specs::Span::brace_len))]
fn brace_len(z: &[u8]) -> Option<usize>
    ensures value { result ≡ spec.brace_len z.now }
    ensures within { IfSome result (λ n. n ≤ length z.now) }
{
    let blank = blank_len(z);
    if byte_at(z, blank, b'{') {
        Some(blank + 1)
    } else {
        None
    }
}

// What stands in round brackets, with the bracket that closes them. An expression ends at `;` or at it.
fn round_len(text: &str) -> Option<usize>
    ensures value { result ≡ spec.round_len 0 text.now }
    ensures within { IfSome result (λ n. n ≤ length text.now) }
{
    let mut rest = text;
    let mut at = 0;
    while !rest.is_empty() {
        let len = end_of(rest)?;
        match byte_of(rest.as_bytes(), len) {
            Some(b')') => return Some(at + len + 1),
            Some(b';') => {
                rest = after(rest, len + 1);
                at += len + 1;
            }
            _ => return None,
        }
    }
    None
}

// White space, brackets with what stands inside, white space and `{`.
#[tactic(auto, unfolding(crate::specs::Span::bracket_len))]
fn bracket_len(text: &str) -> Option<usize>
    ensures value { result ≡ spec.bracket_len text.now }
    ensures within { IfSome result (λ n. n ≤ length text.now) }
{
    let blank = blank_len(text.as_bytes());
    if !byte_at(text.as_bytes(), blank, b'(') {
        return None;
    }
    let inside = after(text, blank + 1);
    let round = round_len(inside)?;
    let brace = brace_len(&inside.as_bytes()[round..])?;
    Some(blank + 1 + round + brace)
}

// What stands after `@else`: a brace, or `if` after white space.
#[tactic(auto, unfolding(crate::specs::Span::else_len))]
fn else_len(text: &str) -> Option<usize>
    ensures value { result ≡ spec.else_len text.now }
    ensures within { IfSome result (λ n. n ≤ length text.now) }
{
    let blank = blank_len(text.as_bytes());
    if byte_at(text.as_bytes(), blank, b'{') {
        return Some(blank + 1);
    }
    if blank == 0 {
        return None;
    }
    let rest = strip(b"if", after(text, blank))?;
    Some(blank + 2 + bracket_len(rest)?)
}

// White space and `=`.
fn equals_len(z: &[u8]) -> Option<usize>
    ensures value { result ≡ spec.equals_len z.now }
    ensures within { IfSome result (λ n. n ≤ length z.now) }
{
    let blank = blank_len(z);
    if byte_at(z, blank, b'=') {
        Some(blank + 1)
    } else {
        None
    }
}

fn named_len(z: &[u8]) -> Option<usize>
    ensures value { result ≡ spec.named_len z.now }
    ensures within { IfSome result (λ n. n ≤ length z.now) }
{
    let name = name_len(z);
    if name == 0 {
        return None;
    }
    Some(name + equals_len(&z[name..])?)
}

// White space, a name, white space and `=`.
#[tactic(auto, unfolding(crate::specs::Span::front_len))]
fn front_len(z: &[u8]) -> Option<usize>
    ensures value { result ≡ spec.front_len z.now }
    ensures within { IfSome result (λ n. n ≤ length z.now) }
{
    let blank = blank_len(z);
    if blank == 0 {
        return None;
    }
    Some(blank + named_len(&z[blank..])?)
}

// An expression and `;`.
#[tactic(auto, unfolding(crate::specs::Span::ended_len))]
fn ended_len(text: &str) -> Option<usize>
    ensures value { result ≡ spec.ended_len text.now }
    ensures within { IfSome result (λ n. n ≤ length text.now) }
{
    let len = end_of(text)?;
    match text.as_bytes().get(len) {
        Some(b';') => Some(len + 1),
        _ => None,
    }
}

// What stands after `@let`.
#[tactic(auto, unfolding(crate::specs::Span::let_len))]
fn let_len(text: &str) -> Option<usize>
    ensures value { result ≡ spec.let_len text.now }
    ensures within { IfSome result (λ n. n ≤ length text.now) }
{
    let front = front_len(text.as_bytes())?;
    let len = ended_len(after(text, front))?;
    Some(front + len)
}

/// A kind with a count of bytes, after so many.
pub(crate) fn sized(
    kind: TokenKind,
    before: usize,
    len: Option<usize>,
) -> Option<(TokenKind, usize)>
    requires { IfSome len (λ n. before + n < 2 ^ 64) }
    ensures { result ≡ spec.sized kind (later before len) }
{
    Some((kind, before + len?))
}

/// The head of a block, or a whole `@let`, at the front of the text.
#[tactic(auto, unfolding(crate::specs::Span::headed))]
pub(crate) fn headed(text: &str) -> Option<(TokenKind, usize)>
    ensures value { result ≡ spec.headed text.now }
    ensures within { IfSome result (λ q. q.1 ≤ length text.now) }
{
    if let Some(rest) = strip(b"@if", text) {
        sized(TokenKind::Head, 3, bracket_len(rest))
    } else if let Some(rest) = strip(b"@for", text) {
        sized(TokenKind::Head, 4, bracket_len(rest))
    } else if let Some(rest) = strip(b"@switch", text) {
        sized(TokenKind::Head, 7, bracket_len(rest))
    } else if let Some(rest) = strip(b"@case", text) {
        sized(TokenKind::Head, 5, bracket_len(rest))
    } else if let Some(rest) = strip(b"@else", text) {
        sized(TokenKind::Head, 5, else_len(rest))
    } else if let Some(rest) = strip(b"@empty", text) {
        sized(TokenKind::Head, 6, brace_len(rest.as_bytes()))
    } else if let Some(rest) = strip(b"@default", text) {
        sized(TokenKind::Head, 8, brace_len(rest.as_bytes()))
    } else if let Some(rest) = strip(b"@let", text) {
        sized(TokenKind::Let, 4, let_len(rest))
    } else {
        None
    }
}
