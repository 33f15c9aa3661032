//! Where the tokens of a template stand.

ghost use Rattle.std.specs.Prelude.{◌≡◌, ℕ, ◌^◌, ◌<◌, ◌≤◌, List, [], ◌∷◌, ◌++◌, length, take, drop, Some, IfSome, IfOk, IfErr};
ghost use Rattle.std.specs.Str.{IsCharBoundary};
ghost use Rattle.ng_ast.specs.declared.Place.{Place};
ghost use Rattle.ng_exprs.specs.Reading.{Refused};
ghost use Rattle.ng_lex.specs.declared.kinds.TokenKind.{TokenKind};
ghost use Rattle.ng_lex.specs.declared.markup.Part.{Part};
ghost use Rattle.ng_lex.specs.Lexis.{Lexes};
ghost use Rattle.ng_lex.specs.Span as spec;
ghost use Rattle.ng_lex.specs.Spans.{IsSpan, Cuts, AreOf, IsUncut};

use crate::heads::{headed, sized};
use crate::kinds::{Token, TokenKind};
use crate::quotes::{Quotes, seek};
use crate::words::{after, starts_lower};
use ng_ast::{Place, ReadError, Refusal, Rule};
use ng_tokens::{begins, steps};
use std::alloc::Global;

// Whether literal text stands at the front.
fn starts_plain(z: &[u8]) -> bool
    ensures { result ≡ spec.starts_plain z.now }
{
    match z {
        [b'<' | b'@' | b'}', ..] | [] => false,
        _ => !begins(b"{{", z),
    }
}

// The bytes of literal text at the front.
fn plain_len(z: &[u8]) -> usize
    ensures value { result ≡ spec.plain_len z.now }
    ensures within { result ≤ length z.now }
{
    let mut rest = z;
    let mut len = 0;
    while let [_, more @ ..] = rest {
        if !starts_plain(rest) {
            return len;
        }
        len += 1;
        rest = more;
    }
    len
}

// A comment or a tag, after its `<`.
#[tactic(auto, unfolding(crate::specs::Span::tagged))]
fn tagged(z: &[u8]) -> Option<(TokenKind, usize)>
    requires { length z.now < 2 ^ 63 }
    ensures { result ≡ spec.tagged z.now }
{
    if begins(b"!--", z) {
        sized(TokenKind::Comment, 7, seek(Quotes::None, b"-->", &z[3..]))
    } else if begins(b"/", z) {
        sized(TokenKind::End, 3, seek(Quotes::None, b">", &z[1..]))
    } else if starts_lower(z) {
        sized(TokenKind::Start, 2, seek(Quotes::Values, b">", z))
    } else {
        None
    }
}

// A token that is no literal text.
#[tactic(auto, unfolding(crate::specs::Span::marked))]
fn marked(first: u8, rest: &[u8], text: &str) -> Option<(TokenKind, usize)>
    requires whole { text.now ≡ first ∷ rest.now }
    requires size { length text.now < 2 ^ 63 }
    ensures { result ≡ spec.marked first rest.now }
{
    match first {
        b'}' => Some((TokenKind::Close, 1)),
        b'<' => tagged(rest),
        b'@' => headed(text),
        _ => match rest {
            [_, inside @ ..] => sized(
                TokenKind::Interpolation,
                4,
                seek(Quotes::Literals, b"}}", inside),
            ),
            [] => None,
        },
    }
}

#[tactic(auto, unfolding(crate::specs::Span::span))]
fn find(text: &str) -> Option<(TokenKind, usize)>
    requires { length text.now < 2 ^ 63 }
    ensures { result ≡ spec.span text.now }
{
    let [first, rest @ ..] = text.as_bytes() else {
        return None;
    };
    if starts_plain(text.as_bytes()) {
        Some((TokenKind::Literal, 1 + plain_len(rest)))
    } else {
        marked(*first, rest, text)
    }
}

/// The token at the front of the text: its kind, and its length in bytes. None where none stands there, or the text is empty.
/// Takes time linear in the length of the token, or of the text where the token doesn't end.
pub fn span(text: &str) -> Option<(TokenKind, usize)>
    requires { length text.now < 2 ^ 63 }
    ensures value { result ≡ spec.span text.now }
    ensures found { IfSome result (λ q. IsSpan q.0 (take q.1 text.now) (drop q.1 text.now)) }
    ensures exact { (kind : TokenKind) (a z : List ℕ) → IsSpan kind a z → text.now ≡ a ++ z → result ≡ Some (kind, length a) }
    ensures within { IfSome result (λ q. (0 < q.1) × (q.1 ≤ length text.now)) }
    ensures boundary { IfSome result (λ q. IsCharBoundary text.now q.1) }
{
    find(text)
}

// No token stands after so many bytes of the text.
fn refused(alloc: Global, text: &str, from: usize) -> ReadError
    requires size { length text.now ≤ 1048576 }
    requires within { from ≤ length text.now }
    ensures { Refused (Unit {0}) ⊥ result }
{
    let start = Place {
        line: 1,
        column: 1,
        byte: 0,
    };
    match Refusal::nameless(alloc, Rule::Syntax, steps(start, &text.as_bytes()[..from])) {
        Ok(refusal) => ReadError::Syntax(refusal),
        Err(_) => ReadError::Memory,
    }
}

fn cut(alloc: Global, text: &str) -> Result<Vec<Token>, ReadError>
    requires { length text.now ≤ 1048576 }
    ensures { spec.Gives (spec.cut 0 0 text.now) result }
{
    let mut found = Vec::new(alloc);
    let mut rest = text;
    let mut from = 0;
    while !rest.is_empty() {
        let Some((kind, len)) = span(rest) else {
            return Err(refused(alloc, text, from));
        };
        let to = from + len;
        found.push(Token {
            kind,
            from: from as u32,
            to: to as u32,
        })?;
        rest = after(rest, len);
        from = to;
    }
    Ok(found)
}

/// The tokens of a template: spans in order, with nothing between, that cover the text. Where the text has a template reading,
/// the tokens are those of that reading. Takes time linear in the length of the text: it stops at the first token that has no end.
///
/// `Syntax` comes only where the text falls into no tokens, and so has no template reading. The place of a refusal is where no
/// token stands; no clause fixes it.
pub fn tokens(alloc: Global, text: &str) -> Result<Vec<Token>, ReadError>
    requires { length text.now ≤ 1048576 }
    ensures cuts { IfOk result (λ v. Cuts 0 text.now v.items) }
    ensures reading { (p : Place) (ps : List Part) → Lexes p text.now ps [] → IfOk result (λ v. AreOf p.byte ps v.items) }
    ensures refused { IfErr result (Refused (IsUncut text.now) ⊥) }
{
    cut(alloc, text)
}
