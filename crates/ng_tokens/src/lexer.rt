//! From a text to its tokens.

ghost use Rattle.std.specs.Prelude.{◌≡◌, ℕ, ◌+◌, ◌^◌, ◌<◌, ◌≤◌, Bool, List, [], length, IfOk, IfSome, OnOk, false, min, Some};
ghost use Rattle.std.specs.List.{prefix_len};
ghost use Rattle.std.specs.Option.{option_map};
ghost use Rattle.std.specs.Str.{IsUtf8};
ghost use Rattle.ng_ast.specs.declared.Place.{Place};
ghost use Rattle.ng_tokens.specs.declared.kinds.Token.{Token};
ghost use Rattle.ng_tokens.specs.declared.kinds.Kind.TheVariants as kind;
ghost use Rattle.ng_tokens.specs.declared.kinds.Shape.TheVariants as shape;
ghost use Rattle.ng_tokens.specs.Lexis as text;
ghost use Rattle.ng_tokens.specs.Scan as spec;

use crate::kinds::{Kind, Shape, Token};
use crate::place::steps;
use crate::signs::{same_text, sign};
use ng_ast::Place;
use ng_values::NgText;
use std::alloc::{AllocError, AllocFailed, Global};

/// Why a text has no tokens.
#[derive(Debug, Drop)]
pub enum ScanError {
    /// No token begins at the place, or the one that does is none of those allowed.
    Syntax(Place),
    Memory,
}

impl From<AllocError> for ScanError {
    ghost use Rattle.ng_tokens.specs.declared.lexer.ScanError.TheVariants.{Memory};

    ghost from_gives = { λ _ e. e ≡ Memory };

    fn from(_: AllocError) -> Self {
        ScanError::Memory
    }
}

impl<T: Drop> From<AllocFailed<T>> for ScanError {
    ghost use Rattle.ng_tokens.specs.declared.lexer.ScanError.TheVariants.{Memory};

    ghost from_gives = { λ _ e. e ≡ Memory };

    fn from(_: AllocFailed<T>) -> Self {
        ScanError::Memory
    }
}

fn is_blank(b: u8) -> bool
    ensures { result ≡ text.is_blank b }
{
    b == b' ' || (9 <= b && b <= 10) || (12 <= b && b <= 13)
}

fn is_digit(b: u8) -> bool
    ensures { result ≡ text.is_digit b }
{
    48 <= b && b <= 57
}

fn is_letter(b: u8) -> bool
    ensures { result ≡ text.is_letter b }
{
    (97 <= b && b <= 122) || (65 <= b && b <= 90) || b == b'_'
}

fn is_word(b: u8) -> bool
    ensures { result ≡ text.is_word b }
{
    is_letter(b) || is_digit(b)
}

fn is_quote(b: u8) -> bool
    ensures { result ≡ text.is_quote b }
{
    b == b'\'' || b == b'"'
}

fn escape(b: u8) -> Option<u8>
    ensures { result ≡ text.escape b }
{
    match b {
        b'\\' | b'\'' | b'"' => Some(b),
        b'n' => Some(b'\n'),
        b't' => Some(b'\t'),
        _ => None,
    }
}

fn digits(z: &[u8]) -> usize
    ensures value { result ≡ prefix_len text.is_digit z.now }
    ensures within { result ≤ length z.now }
{
    z.iter().take_while(|b| is_digit(**b)).count()
}

fn words(z: &[u8]) -> usize
    ensures value { result ≡ prefix_len text.is_word z.now }
    ensures within { result ≤ length z.now }
{
    z.iter().take_while(|b| is_word(**b)).count()
}

fn line(z: &[u8]) -> usize
    ensures value { result ≡ prefix_len text.in_line z.now }
    ensures within { result ≤ length z.now }
{
    z.iter().take_while(|b| **b != b'\n').count()
}

// The bytes of a literal after its quote, up to and with the quote that ends it.
#[tactic(auto, unfolding(crate::specs::Lexis::unquote))]
fn quoted(quote: u8, z: &[u8]) -> Option<usize>
    ensures value { result ≡ option_map (λ q. q.1) (text.unquote quote false z.now) }
    ensures within { IfSome result (λ n. n ≤ length z.now) }
{
    let mut escaped = false;
    for (at, b) in z.iter().enumerate() {
        if escaped {
            escape(*b)?;
            escaped = false;
        } else if *b == quote {
            return Some(at + 1);
        } else {
            escaped = *b == b'\\';
        }
    }
    None
}

// What a literal says, by its bytes after its quote; empty where no quote ends it.
#[tactic(auto, unfolding(crate::specs::Lexis::unquote))]
fn unquoted(alloc: Global, quote: u8, z: &[u8]) -> Result<Vec<u8>, AllocError>
    ensures { IfOk result (λ v. v.items ≡ text.value_of (text.unquote quote false z.now)) }
{
    let mut found = Vec::new(alloc);
    let mut escaped = false;
    for b in z {
        if escaped {
            let Some(b) = escape(*b) else {
                return Ok(Vec::new(alloc));
            };
            found.push(b)?;
            escaped = false;
        } else if *b == quote {
            return Ok(found);
        } else if *b == b'\\' {
            escaped = true;
        } else {
            found.push(*b)?;
        }
    }
    Ok(Vec::new(alloc))
}

fn text_of(alloc: Global, z: &[u8]) -> Result<NgText, AllocError>
    requires { IsUtf8 z.now }
    ensures { IfOk result (λ t. t ≡ z.now) }
{
    match str::from_utf8(z) {
        Ok(text) => NgText::new(alloc, text),
        Err(_) => unreachable!(),
    }
}

fn literal(alloc: Global, z: &[u8]) -> Result<NgText, AllocError>
    requires written { text.Written z.now shape.Text }
    requires utf8 { IsUtf8 z.now }
    ensures { IfOk result (λ t. t ≡ text.text_of z.now) }
{
    let [quote, body @ ..] = z else {
        return NgText::new(alloc, "");
    };
    let value = unquoted(alloc, *quote, body)?;
    text_of(alloc, value.as_slice())
}

// The number that the digits say, cut at the first that is too large.
fn value(z: &[u8]) -> u64
    ensures value { result ≡ min (text.value_from 0 z.now) (2 ^ 63) }
{
    let mut n: u64 = 0;
    for b in z {
        let digit = u64::from(b.saturating_sub(48));
        n = n.saturating_mul(10).saturating_add(digit).min(1 << 63);
    }
    n
}

fn has_leading_zero(z: &[u8]) -> bool
    ensures { result ≡ text.has_leading_zero z.now }
{
    match z {
        [first, _, ..] => *first == b'0',
        _ => false,
    }
}

fn number(z: &[u8]) -> Option<i64>
    ensures { option_map kind.Number result ≡ spec.fitted shape.Number z.now }
{
    let n = value(z);
    if has_leading_zero(z) || n >= 1 << 63 {
        return None;
    }
    Some(n as i64)
}

#[tactic(auto, unfolding(crate::specs::Lexis::variables))]
fn is_variable(z: &[u8]) -> bool
    ensures { result ≡ text.is_variable z.now }
{
    same_text(b"$index", z)
        || same_text(b"$count", z)
        || same_text(b"$first", z)
        || same_text(b"$last", z)
        || same_text(b"$even", z)
        || same_text(b"$odd", z)
        || same_text(b"$event", z)
}

/// How the longest token at the front of `z` is written, with the number of its bytes.
#[tactic(auto, unfolding(crate::specs::Scan::shape))]
pub fn shape(z: &[u8]) -> Option<(Shape, usize)>
    ensures value { result ≡ spec.shape z.now }
    ensures within { IfSome result (λ q. (0 < q.1) × (q.1 ≤ length z.now)) }
{
    let [first, rest @ ..] = z else {
        return None;
    };
    if is_digit(*first) {
        Some((Shape::Number, digits(z)))
    } else if is_letter(*first) {
        Some((Shape::Name, words(z)))
    } else if *first == b'$' {
        Some((Shape::Variable, 1 + words(rest)))
    } else if is_quote(*first) {
        Some((Shape::Text, 1 + quoted(*first, rest)?))
    } else {
        let (sign, len) = sign(z)?;
        Some((Shape::Sign(sign), len))
    }
}

// The token that is written so, unless it is a number out of range or with a leading zero, or no variable.
fn kind(alloc: Global, shape: Shape, z: &[u8]) -> Result<Option<Kind>, AllocError>
    requires written { text.Written z.now shape }
    requires utf8 { IsUtf8 z.now }
    ensures { IfOk result (λ o. o ≡ spec.fitted shape z.now) }
{
    match shape {
        Shape::Number => Ok(number(z).map(Kind::Number)),
        Shape::Name => Ok(Some(Kind::Name(text_of(alloc, z)?))),
        Shape::Variable if !is_variable(z) => Ok(None),
        Shape::Variable => Ok(Some(Kind::Variable(text_of(alloc, z)?))),
        Shape::Text => Ok(Some(Kind::Text(literal(alloc, z)?))),
        Shape::Sign(sign) => Ok(Some(Kind::Sign(sign))),
    }
}

fn opens_comment(comments: bool, z: &[u8]) -> bool
    ensures { result ≡ text.opens_comment comments z.now }
{
    match z {
        [a, b, ..] => comments && *a == b'/' && (*b == b'/' || *b == b'*'),
        _ => false,
    }
}

fn closes(a: u8, b: u8) -> bool
    ensures { result ≡ text.closes a b }
{
    a == b'*' && b == b'/'
}

// The bytes up to and with the first `*/`.
fn closed(z: &[u8]) -> Option<usize>
    ensures value { result ≡ text.closed 0 z.now }
    ensures within { IfSome result (λ n. n ≤ length z.now) }
{
    let mut last = 0;
    for (at, b) in z.iter().enumerate() {
        if closes(last, *b) {
            return Some(at + 1);
        }
        last = *b;
    }
    None
}

fn comment(z: &[u8]) -> Option<usize>
    ensures value { result ≡ text.comment_len z.now }
    ensures within { IfSome result (λ n. (0 < n) × (n ≤ length z.now)) }
{
    match z {
        [_, b'/', rest @ ..] => Some(2 + line(rest)),
        [_, _, rest @ ..] => Some(2 + closed(rest)?),
        _ => None,
    }
}

/// What stands at the front of `z`, with the number of its bytes: a token, or white space or a comment, which is no token.
/// None where it begins with none of these, or is empty. Comments count only where `comments` is true.
#[tactic(auto, unfolding(crate::specs::Scan::piece))]
pub fn piece(
    alloc: Global,
    comments: bool,
    z: &[u8],
) -> Result<Option<(Option<Kind>, usize)>, AllocError>
    requires { IsUtf8 z.now }
    ensures value { IfOk result (λ o. o ≡ spec.piece comments z.now) }
    ensures within { IfOk result (λ o. IfSome o (λ q. (0 < q.1) × (q.1 ≤ length z.now))) }
{
    let [first, ..] = z else {
        return Ok(None);
    };
    if is_blank(*first) {
        return Ok(Some((None, 1)));
    }
    if opens_comment(comments, z) {
        return Ok(comment(z).map(|len| (None, len)));
    }
    let Some((shape, len)) = shape(z) else {
        return Ok(None);
    };
    match kind(alloc, shape, &z[..len])? {
        Some(kind) => Ok(Some((Some(kind), len))),
        None => Ok(None),
    }
}

fn keep(found: &mut Vec<Token>, place: Place, kind: Option<Kind>) -> Result<(), AllocError>
    ensures { OnOk result (found.new.items ≡ spec.grown found.old.items place kind) }
{
    if let Some(kind) = kind {
        found.push(Token { kind, place })?;
    }
    Ok(())
}

/// The tokens of the text, whose first byte stands at `base`. Takes time linear in the length of the text.
pub fn scan(alloc: Global, comments: bool, text: &str, base: Place) -> Result<Vec<Token>, ScanError>
    requires { (base.line + length text.now < 2 ^ 31) × (base.column + length text.now < 2 ^ 31) × (base.byte + length text.now < 2 ^ 31) }
    ensures { spec.Scans (spec.scan comments 0 base text.now) result }
{
    let mut found = Vec::new(alloc);
    let mut place = base;
    let mut rest = text.as_bytes();
    while !rest.is_empty() {
        let Some((kind, len)) = piece(alloc, comments, rest)? else {
            return Err(ScanError::Syntax(place));
        };
        keep(&mut found, place, kind)?;
        place = steps(place, &rest[..len]);
        rest = &rest[len..];
    }
    Ok(found)
}

/// `scan` by the relation `Lexes`, in which each token is the longest that stands there. What it finds are tokens of the whole text,
/// and tokens of the whole text are found; so a text has one list of tokens at most.
pub fn one_scan()
    ensures sound { (comments : Bool) (base : Place) (t : List ℕ) (ts : List Token) → spec.scan comments 0 base t ≡ Some ts → text.Lexes comments base t ts [] }
    ensures complete { (comments : Bool) (base : Place) (t : List ℕ) (ts : List Token) → text.Lexes comments base t ts [] → spec.scan comments 0 base t ≡ Some ts }
    ensures one { (comments : Bool) (base : Place) (t : List ℕ) (ts us : List Token) → text.Lexes comments base t ts [] → text.Lexes comments base t us [] → ts ≡ us }
{}
