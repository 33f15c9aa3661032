//! Entities, and the letters that a text says.

ghost use Rattle.std.specs.Prelude.{◌≡◌, ℕ, ◌<◌, ◌≤◌, ◌++◌, List, length, map, min, Some, None, MatchOption, IfOk, IfSome, IfNone, OnOk, encode_utf8};
ghost use Rattle.std.specs.Str.{IsUtf8};
ghost use Rattle.ng_ast.specs.declared.Place.{Place};
ghost use Rattle.ng_exprs.specs.Reading.{IsNear};
ghost use Rattle.ng_tokens.specs.Lexis as lexis;
ghost use Rattle.ng_lex.specs.Decode as spec;
ghost use Rattle.ng_lex.specs.Letters as letters;

use crate::letters::PlacedLetter;
use crate::markup::Letter;
use crate::words::{byte_at, is_blank, is_digit};
use ng_ast::Place;
use ng_tokens::{same_text, steps};
use std::alloc::{AllocError, Global};

// One more than the greatest number of a character.
const TOO_LARGE: u32 = 1114112;

fn is_hex(b: u8) -> bool
    ensures { result ≡ letters.is_hex b }
{
    is_digit(b) || (97 <= b && b <= 102) || (65 <= b && b <= 70)
}

fn is_alphanumeric(b: u8) -> bool
    ensures { result ≡ letters.is_alphanumeric b }
{
    (97 <= b && b <= 122) || (65 <= b && b <= 90) || is_digit(b)
}

fn are_digits(z: &[u8]) -> bool
    ensures { result ≡ lexis.all lexis.is_digit z.now }
{
    for b in z {
        if !is_digit(*b) {
            return false;
        }
    }
    true
}

fn are_hex(z: &[u8]) -> bool
    ensures { result ≡ lexis.all letters.is_hex z.now }
{
    for b in z {
        if !is_hex(*b) {
            return false;
        }
    }
    true
}

// The number that the digits say, cut at the first that is too large.
fn decimal_value(z: &[u8]) -> u32
    ensures { result ≡ min (lexis.value_from 0 z.now) 1114112 }
{
    let mut n: u32 = 0;
    for b in z {
        let digit = u32::from(b.saturating_sub(48));
        n = n.saturating_mul(10).saturating_add(digit).min(TOO_LARGE);
    }
    n
}

fn hex_digit(b: u8) -> u8
    ensures { result ≡ letters.hex_digit b }
{
    if is_digit(b) {
        b.saturating_sub(48)
    } else if b >= 97 {
        b.saturating_sub(87)
    } else {
        b.saturating_sub(55)
    }
}

fn hex_value(z: &[u8]) -> u32
    ensures { result ≡ min (letters.hex_from 0 z.now) 1114112 }
{
    let mut n: u32 = 0;
    for b in z {
        let digit = u32::from(hex_digit(*b));
        n = n.saturating_mul(16).saturating_add(digit).min(TOO_LARGE);
    }
    n
}

// The character of this number, unless it is 0 or no Unicode scalar value.
fn scalar(n: u32) -> Option<char>
    ensures { result ≡ letters.scalar n }
{
    if n == 0 { None } else { char::from_u32(n) }
}

fn decimal(z: &[u8]) -> Option<char>
    ensures { result ≡ letters.decimal z.now }
{
    match z {
        [_, ..] if are_digits(z) => scalar(decimal_value(z)),
        _ => None,
    }
}

fn hexadecimal(z: &[u8]) -> Option<char>
    ensures { result ≡ letters.hexadecimal z.now }
{
    match z {
        [_, ..] if are_hex(z) => scalar(hex_value(z)),
        _ => None,
    }
}

#[tactic(auto, unfolding(crate::specs::Letters::characters))]
fn named(z: &[u8]) -> Option<char>
    ensures { result ≡ letters.named letters.characters z.now }
{
    if same_text(b"amp", z) {
        Some('&')
    } else if same_text(b"lt", z) {
        Some('<')
    } else if same_text(b"gt", z) {
        Some('>')
    } else if same_text(b"quot", z) {
        Some('"')
    } else if same_text(b"apos", z) {
        Some('\'')
    } else if same_text(b"nbsp", z) {
        Some('\u{a0}')
    } else {
        None
    }
}

// The character of an entity that is written so between `&` and `;`.
fn entity_of(z: &[u8]) -> Option<char>
    ensures { result ≡ letters.entity_of z.now }
{
    match z {
        [] => None,
        [b'#', b'x', digits @ ..] => hexadecimal(digits),
        [b'#', digits @ ..] => decimal(digits),
        _ => named(z),
    }
}

// Whether letters or digits go on, and then `;` stands.
fn ends_name(z: &[u8]) -> bool
    ensures { result ≡ letters.ends_name z.now }
{
    for b in z {
        if *b == b';' {
            return true;
        }
        if !is_alphanumeric(*b) {
            return false;
        }
    }
    false
}

fn begins_entity(z: &[u8]) -> bool
    ensures { result ≡ letters.begins_entity z.now }
{
    match z {
        [b'#', ..] => true,
        [first, rest @ ..] if is_alphanumeric(*first) => ends_name(rest),
        _ => false,
    }
}

// The bytes before the first `;`.
fn name_len(z: &[u8]) -> usize
    ensures value { result ≡ spec.name_len z.now }
    ensures within { result ≤ length z.now }
{
    z.iter().take_while(|b| **b != b';').count()
}

// The entity after `&`: its character, and its bytes with the `;`.
#[tactic(auto, unfolding(crate::specs::Decode::entity_at))]
fn entity_at(z: &[u8]) -> Option<(char, usize)>
    ensures value { result ≡ spec.entity_at z.now }
    ensures within { IfSome result (λ q. q.1 ≤ length z.now) }
{
    let len = name_len(z);
    if !byte_at(z, len, b';') {
        return None;
    }
    Some((entity_of(&z[..len])?, len + 1))
}

fn itself(place: Place, byte: u8) -> PlacedLetter
    ensures { result ≡ letters.itself place byte }
{
    let letter = Letter {
        byte,
        blank: is_blank(byte),
    };
    PlacedLetter { letter, place }
}

// Puts the bytes of a character that is written as an entity at the place.
fn put(found: &mut Vec<PlacedLetter>, place: Place, c: char) -> Result<(), AllocError>
    ensures { OnOk result (found.new.items ≡ found.old.items ++ map (letters.decoded place) (encode_utf8 c)) }
{
    let mut buffer = [0u8; 4];
    let text: &[u8] = c.encode_utf8(&mut buffer).as_bytes();
    for b in text {
        let letter = Letter {
            byte: *b,
            blank: false,
        };
        found.push(PlacedLetter { letter, place })?;
    }
    Ok(())
}

// Puts the letters that are written at the front, and gives how many bytes there.
#[tactic(auto, unfolding(crate::specs::Decode::letters_at))]
fn front(found: &mut Vec<PlacedLetter>, place: Place, z: &[u8]) -> Result<Option<usize>, AllocError>
    ensures value { IfOk result (spec.Puts (spec.letters_at place z.now) found.old.items found.new.items) }
    ensures within { IfOk result (λ o. IfSome o (λ n. (0 < n) × (n ≤ length z.now))) }
{
    let [first, rest @ ..] = z else {
        return Ok(None);
    };
    if *first == b'&' && begins_entity(rest) {
        let Some((c, len)) = entity_at(rest) else {
            return Ok(None);
        };
        put(found, place, c)?;
        return Ok(Some(1 + len));
    }
    found.push(itself(place, *first))?;
    Ok(Some(1))
}

fn read(alloc: Global, z: &[u8], base: Place) -> Result<Option<Vec<PlacedLetter>>, AllocError>
    requires size { length z.now ≤ 1048576 }
    requires near { IsNear base }
    ensures { IfOk result (λ o. MatchOption o (spec.decode 0 base z.now ≡ None) (λ v. spec.decode 0 base z.now ≡ Some v.items)) }
{
    let mut found = Vec::new(alloc);
    let mut place = base;
    let mut rest = z;
    while !rest.is_empty() {
        let Some(len) = front(&mut found, place, rest)? else {
            return Ok(None);
        };
        place = steps(place, &rest[..len]);
        rest = &rest[len..];
    }
    Ok(Some(found))
}

/// The letters that the bytes `z` say, of which the first stands at `base`: each byte, and for each entity the bytes of its
/// character. None where what stands after a `&` begins an entity and is none. Takes time linear in the bytes.
///
/// The entities are `&amp;`, `&lt;`, `&gt;`, `&quot;`, `&apos;`, `&nbsp;`, and `&#D;` and `&#xH;` with the number of a Unicode scalar
/// value other than 0. One begins where `#` stands after `&`, or letters or digits and `;`; any other `&` is itself.
pub fn decode(alloc: Global, z: &[u8], base: Place) -> Result<Option<Vec<PlacedLetter>>, AllocError>
    requires size { length z.now ≤ 1048576 }
    requires near { IsNear base }
    ensures some { IfOk result (λ o. IfSome o (λ v. letters.Decodes base z.now v.items)) }
    ensures none { IfOk result (λ o. IfNone o ((ls : letters.Letters) → letters.Decodes base z.now ls → ⊥)) }
    ensures utf8 { IsUtf8 z.now → IfOk result (λ o. IfSome o (λ v. IsUtf8 (letters.bytes v.items))) }
{
    read(alloc, z, base)
}

/// A text says one list of letters at most.
pub fn one_decoding()
    ensures { (p : Place) (t : List ℕ) (a b : letters.Letters) → letters.Decodes p t a → letters.Decodes p t b → a ≡ b }
{}
