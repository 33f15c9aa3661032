//! Signs, the longest first.

ghost use Rattle.std.specs.Prelude.{◌≡◌, length};
ghost use Rattle.std.specs.Option.{option_map};
ghost use Rattle.ng_tokens.specs.declared.kinds.Shape.TheVariants as shape;
ghost use Rattle.ng_tokens.specs.Lexis as text;
ghost use Rattle.ng_tokens.specs.Scan as spec;

use crate::kinds::Sign;

/// Whether the bytes `z` begin with the bytes of `word`.
pub fn begins(mut word: &[u8], mut z: &[u8]) -> bool
    ensures { result ≡ text.begins word.entry.now z.entry.now }
{
    while let [a, word_rest @ ..] = word {
        let [b, rest @ ..] = z else {
            return false;
        };
        if *a != *b {
            return false;
        }
        word = word_rest;
        z = rest;
    }
    true
}

/// Whether the bytes `z` are those of `word`.
pub fn same_text(word: &[u8], z: &[u8]) -> bool
    ensures { result ≡ text.same_text word.now z.now }
{
    begins(word, z) && word.len() == z.len()
}

/// The longest sign at the front of `z`, with the number of its bytes.
#[tactic(auto, unfolding(crate::specs::Scan::signs))]
pub(crate) fn sign(z: &[u8]) -> Option<(Sign, usize)>
    ensures { option_map (λ p. (shape.Sign p.0, p.1)) result ≡ spec.find spec.signs z.now }
{
    if begins(b"===", z) {
        Some((Sign::Same, 3))
    } else if begins(b"!==", z) {
        Some((Sign::NotSame, 3))
    } else if begins(b"==", z) {
        Some((Sign::Eq, 2))
    } else if begins(b"!=", z) {
        Some((Sign::Ne, 2))
    } else if begins(b"<=", z) {
        Some((Sign::Le, 2))
    } else if begins(b">=", z) {
        Some((Sign::Ge, 2))
    } else if begins(b"||", z) {
        Some((Sign::Or, 2))
    } else if begins(b"&&", z) {
        Some((Sign::And, 2))
    } else if begins(b"??", z) {
        Some((Sign::OrNull, 2))
    } else if begins(b"?.", z) {
        Some((Sign::SafeDot, 2))
    } else if begins(b"<", z) {
        Some((Sign::Lt, 1))
    } else if begins(b">", z) {
        Some((Sign::Gt, 1))
    } else if begins(b"+", z) {
        Some((Sign::Plus, 1))
    } else if begins(b"-", z) {
        Some((Sign::Minus, 1))
    } else if begins(b"*", z) {
        Some((Sign::Star, 1))
    } else if begins(b"/", z) {
        Some((Sign::Slash, 1))
    } else if begins(b"%", z) {
        Some((Sign::Percent, 1))
    } else if begins(b"!", z) {
        Some((Sign::Not, 1))
    } else if begins(b".", z) {
        Some((Sign::Dot, 1))
    } else if begins(b",", z) {
        Some((Sign::Comma, 1))
    } else if begins(b";", z) {
        Some((Sign::Semicolon, 1))
    } else if begins(b"?", z) {
        Some((Sign::Question, 1))
    } else if begins(b":", z) {
        Some((Sign::Colon, 1))
    } else if begins(b"|", z) {
        Some((Sign::Bar, 1))
    } else if begins(b"=", z) {
        Some((Sign::Assign, 1))
    } else if begins(b"#", z) {
        Some((Sign::Hash, 1))
    } else if begins(b"(", z) {
        Some((Sign::OpenRound, 1))
    } else if begins(b")", z) {
        Some((Sign::CloseRound, 1))
    } else if begins(b"[", z) {
        Some((Sign::OpenSquare, 1))
    } else if begins(b"]", z) {
        Some((Sign::CloseSquare, 1))
    } else if begins(b"{", z) {
        Some((Sign::OpenBrace, 1))
    } else if begins(b"}", z) {
        Some((Sign::CloseBrace, 1))
    } else {
        None
    }
}
