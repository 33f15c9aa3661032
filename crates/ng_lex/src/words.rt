//! White space, names and words at the front of a text.

ghost use Rattle.std.specs.Prelude.{◌≡◌, ◌+◌, ◌<◌, ◌≤◌, MatchOption, IfSome, [], ◌∷◌, length, drop, true, false, slice_get};
ghost use Rattle.std.specs.List.{prefix_len};
ghost use Rattle.std.specs.Str.{IsCharBoundary};
ghost use Rattle.ng_tokens.specs.Lexis as lexis;
ghost use Rattle.ng_lex.specs.Attributes as tags;
ghost use Rattle.ng_lex.specs.Span as spec;
ghost use Rattle.ng_lex.specs.Words.{at_front};

use ng_tokens::begins;

pub(crate) fn is_blank(b: u8) -> bool
    ensures { result ≡ lexis.is_blank b }
{
    b == b' ' || (9 <= b && b <= 10) || (12 <= b && b <= 13)
}

pub(crate) fn is_digit(b: u8) -> bool
    ensures { result ≡ lexis.is_digit b }
{
    48 <= b && b <= 57
}

fn is_letter(b: u8) -> bool
    ensures { result ≡ lexis.is_letter b }
{
    (97 <= b && b <= 122) || (65 <= b && b <= 90) || b == b'_'
}

fn is_word(b: u8) -> bool
    ensures { result ≡ lexis.is_word b }
{
    is_letter(b) || is_digit(b)
}

fn is_lower(b: u8) -> bool
    ensures { result ≡ tags.is_lower b }
{
    97 <= b && b <= 122
}

/// Whether a lower-case letter stands at the front.
pub(crate) fn starts_lower(z: &[u8]) -> bool
    ensures { result ≡ at_front tags.is_lower z.now }
{
    match z {
        [first, ..] => is_lower(*first),
        [] => false,
    }
}

/// The bytes of white space at the front.
pub(crate) fn blank_len(z: &[u8]) -> usize
    ensures value { result ≡ spec.blank_len z.now }
    ensures within { result ≤ length z.now }
{
    z.iter().take_while(|b| is_blank(**b)).count()
}

fn word_len(z: &[u8]) -> usize
    ensures value { result ≡ prefix_len lexis.is_word z.now }
    ensures within { result ≤ length z.now }
{
    z.iter().take_while(|b| is_word(**b)).count()
}

/// The bytes of a name at the front; 0 where none stands there.
pub(crate) fn name_len(z: &[u8]) -> usize
    ensures value { result ≡ spec.name_len z.now }
    ensures within { result ≤ length z.now }
{
    match z {
        [first, ..] if is_letter(*first) => word_len(z),
        _ => 0,
    }
}

/// The byte that stands there.
pub(crate) fn byte_of(z: &[u8], at: usize) -> Option<u8>
    ensures value { result ≡ slice_get z.now at }
    ensures within { IfSome result (λ _. at < length z.now) }
{
    z.get(at).copied()
}

/// Whether this byte stands there.
pub(crate) fn byte_at(z: &[u8], at: usize, b: u8) -> bool
    requires { at ≤ length z.now }
    ensures value { result ≡ lexis.begins (b ∷ []) (drop at z.now) }
    ensures within { result ≡ true → at < length z.now }
{
    match z.get(at) {
        Some(found) => *found == b,
        None => false,
    }
}

/// What stands after so many bytes.
pub(crate) fn after(text: &str, at: usize) -> &str
    requires { IsCharBoundary text.now at }
    ensures value { result.now ≡ drop at text.now }
    ensures len { length result.now + at ≡ length text.now }
{
    &text[at..]
}

/// What stands after the word, where the text begins with it.
pub(crate) fn strip<'a>(word: &[u8], text: &'a str) -> Option<&'a str>
    requires ascii { lexis.all spec.is_ascii word.now ≡ true }
    ensures found { MatchOption result (lexis.begins word.now text.now ≡ false) (λ r. (lexis.begins word.now text.now ≡ true) × (r.now ≡ drop (length word.now) text.now) × (length r.now + length word.now ≡ length text.now)) }
{
    if begins(word, text.as_bytes()) {
        Some(after(text, word.len()))
    } else {
        None
    }
}
