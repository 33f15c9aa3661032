//! A text that is read from left to right.

ghost use Rattle.std.specs.Prelude.{◌≡◌, ◌≤◌, ◌<◌, ◌&&◌, [], ◌∷◌, ◌++◌, length, take, drop, true, false, MatchOption};
ghost use Rattle.std.specs.List.{prefix_len};
ghost use Rattle.ng_tokens.specs.Lexis as lexis;
ghost use Rattle.ng_lex.specs.Attributes.{differs};
ghost use Rattle.ng_lex.specs.Words.{at_front};
ghost use Rattle.ng_heads.specs.Fits.{Fits};
ghost use Rattle.ng_heads.specs.Runs.{in_piece, in_word};

use ng_ast::Place;
use ng_tokens::{begins, same_text, steps};

pub(crate) fn is_blank(b: u8) -> bool
    ensures { result ≡ lexis.is_blank b }
{
    b == b' ' || (9 <= b && b <= 10) || (12 <= b && b <= 13)
}

fn is_letter(b: u8) -> bool
    ensures { result ≡ lexis.is_letter b }
{
    (97 <= b && b <= 122) || (65 <= b && b <= 90) || b == b'_'
}

fn is_word(b: u8) -> bool
    ensures { result ≡ lexis.is_word b }
{
    is_letter(b) || (48 <= b && b <= 57)
}

fn starts_blank(z: &[u8]) -> bool
    ensures { result ≡ at_front lexis.is_blank z.now }
{
    match z {
        [first, ..] => is_blank(*first),
        [] => false,
    }
}

fn starts_letter(z: &[u8]) -> bool
    ensures { result ≡ at_front lexis.is_letter z.now }
{
    match z {
        [first, ..] => is_letter(*first),
        [] => false,
    }
}

fn starts_word(z: &[u8]) -> bool
    ensures { result ≡ at_front lexis.is_word z.now }
{
    match z {
        [first, ..] => is_word(*first),
        [] => false,
    }
}

fn blank_len(z: &[u8]) -> usize
    ensures value { result ≡ prefix_len lexis.is_blank z.now }
    ensures within { result ≤ length z.now }
{
    z.iter().take_while(|b| is_blank(**b)).count()
}

fn word_len(z: &[u8]) -> usize
    ensures value { result ≡ prefix_len lexis.is_word z.now }
    ensures within { result ≤ length z.now }
{
    z.iter().take_while(|b| is_word(**b)).count()
}

// The bytes before white space.
fn dark_len(z: &[u8]) -> usize
    ensures value { result ≡ prefix_len in_word z.now }
    ensures within { result ≤ length z.now }
{
    z.iter().take_while(|b| !is_blank(**b)).count()
}

// The bytes before the first such byte.
fn len_before(z: &[u8], byte: u8) -> usize
    ensures value { result ≡ prefix_len (differs byte) z.now }
    ensures within { result ≤ length z.now }
{
    z.iter().take_while(|b| **b != byte).count()
}

// The bytes before the first `;` or `)`.
fn piece_len(z: &[u8]) -> usize
    ensures value { result ≡ prefix_len in_piece z.now }
    ensures within { result ≤ length z.now }
{
    z.iter().take_while(|b| **b != b';' && **b != b')').count()
}

/// What is still to be read of a text, and the place of its first byte.
#[derive(Clone, Copy)]
pub(crate) struct At<'a> {
    pub text: &'a str,
    pub place: Place,
    ghost near: { Fits place text.now },
}

impl<'a> At<'a> {
    ghost use Rattle.std.specs.Str.{IsCharBoundary};
    ghost use Rattle.ng_lex.specs.Span.{is_ascii};
    ghost use Rattle.ng_lex.specs.Words.{IsName};
    ghost use Rattle.ng_heads.specs.Runs.{Run};
    ghost use Rattle.ng_heads.specs.Steps.{Past, Skips, Splits};

    /// What stands before so many bytes, and what stands after them.
    pub fn split(self, len: usize) -> (At<'a>, At<'a>)
        requires { IsCharBoundary self.text.now len }
        ensures front { (result.0.text.now ≡ take len self.entry.text.now) × (result.0.place ≡ self.entry.place) }
        ensures rest { Past self.entry (take len self.entry.text.now) result.1 }
    {
        let front = At {
            text: &self.text[..len],
            place: self.place,
        };
        let rest = At {
            text: &self.text[len..],
            place: steps(self.place, front.text.as_bytes()),
        };
        (front, rest)
    }

    /// What stands after white space.
    pub fn blank(self) -> At<'a>
        ensures { Skips lexis.is_blank self.entry result }
    {
        let (_, rest) = self.split(blank_len(self.text.as_bytes()));
        rest
    }

    /// What stands after white space, of which some stands here.
    pub fn gap(self) -> Option<At<'a>>
        ensures { MatchOption result (at_front lexis.is_blank self.entry.text.now ≡ false) (λ next. (at_front lexis.is_blank self.entry.text.now ≡ true) × Skips lexis.is_blank self.entry next) }
    {
        if starts_blank(self.text.as_bytes()) {
            Some(self.blank())
        } else {
            None
        }
    }

    /// What stands after the word, which stands here.
    pub fn word(self, word: &[u8]) -> Option<At<'a>>
        requires { lexis.all is_ascii word.now ≡ true }
        ensures { MatchOption result (lexis.begins word.now self.entry.text.now ≡ false) (λ next. Past self.entry word.now next) }
    {
        if begins(word, self.text.as_bytes()) {
            let (_, rest) = self.split(word.len());
            Some(rest)
        } else {
            None
        }
    }

    /// What stands after the word, which stands here, and after which no word goes on.
    pub fn keyword(self, word: &[u8]) -> Option<At<'a>>
        requires { lexis.all is_ascii word.now ≡ true }
        ensures { MatchOption result ((r : lexis.Text) → self.entry.text.now ≡ word.now ++ r → at_front lexis.is_word r ≡ false → ⊥) (λ next. Past self.entry word.now next × (at_front lexis.is_word next.text.now ≡ false)) }
    {
        let rest = self.word(word)?;
        if starts_word(rest.text.as_bytes()) {
            None
        } else {
            Some(rest)
        }
    }

    /// The name that stands here, and what stands after it.
    pub fn name(self) -> Option<(At<'a>, At<'a>)>
        ensures { MatchOption result (at_front lexis.is_letter self.entry.text.now ≡ false) (λ q. IsName q.0.text.now × Splits lexis.is_word self.entry q.0 q.1) }
    {
        let z = self.text.as_bytes();
        if starts_letter(z) {
            Some(self.split(word_len(z)))
        } else {
            None
        }
    }

    /// What stands before white space, and what stands from it on.
    pub fn dark(self) -> (At<'a>, At<'a>)
        ensures { Splits in_word self.entry result.0 result.1 }
    {
        self.split(dark_len(self.text.as_bytes()))
    }

    /// What stands before the first `;` or `)`, and what stands from it on.
    pub fn piece(self) -> (At<'a>, At<'a>)
        ensures { Splits in_piece self.entry result.0 result.1 }
    {
        self.split(piece_len(self.text.as_bytes()))
    }

    /// What stands before the first such byte, which is one of ASCII, and what stands from it on.
    pub fn until(self, byte: u8) -> (At<'a>, At<'a>)
        requires { byte < 128 }
        ensures { Splits (differs byte) self.entry result.0 result.1 }
    {
        self.split(len_before(self.text.as_bytes(), byte))
    }

    /// Whether white space stands here.
    pub fn is_blank(self) -> bool
        ensures { result ≡ at_front lexis.is_blank self.entry.text.now }
    {
        starts_blank(self.text.as_bytes())
    }

    /// Whether the word stands here.
    pub fn begins(self, word: &[u8]) -> bool
        ensures { result ≡ lexis.begins word.now self.entry.text.now }
    {
        begins(word, self.text.as_bytes())
    }

    /// Whether this word is all that is left.
    pub fn is(self, word: &[u8]) -> bool
        ensures { result ≡ lexis.same_text word.now self.entry.text.now }
    {
        same_text(word, self.text.as_bytes())
    }
}
