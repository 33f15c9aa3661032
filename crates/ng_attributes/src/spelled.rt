//! Letters, with the text that they say.

ghost use Rattle.std.specs.Prelude.{◌≡◌, ◌≤◌, ◌++◌, length, string_bytes, IfOk, MatchOption};
ghost use Rattle.std.specs.Str.{IsUtf8, IsCharBoundary};
ghost use Rattle.ng_lex.specs.Letters.{Letters, bytes, start, Decodes};
ghost use Rattle.ng_attributes.specs.Places.{Fits};
ghost use Rattle.ng_attributes.specs.Spelling.{Splits, IsSpelled, IsDecoded};

use ng_ast::Place;
use ng_lex::{PlacedLetter, decode};
use std::alloc::{AllocError, Global};

/// Letters, with the text that they say.
#[derive(Clone, Copy)]
pub(crate) struct Spelled<'a> {
    pub letters: &'a [PlacedLetter],
    pub text: &'a str,
}

impl<'a> Spelled<'a> {
    /// What stands before so many bytes, and what comes after.
    pub fn split(self, at: usize) -> (Spelled<'a>, Spelled<'a>)
        requires spelled { IsSpelled self }
        requires boundary { IsCharBoundary self.text.now at }
        ensures { Splits self.entry at result.0 result.1 }
    {
        let (letters, other_letters) = self.letters.split_at(at);
        let (text, other_text) = self.text.split_at(at);
        (
            Spelled { letters, text },
            Spelled {
                letters: other_letters,
                text: other_text,
            },
        )
    }
}

/// The place of the first letter.
pub(crate) fn start_of(letters: &[PlacedLetter]) -> Place
    ensures { result ≡ start letters.now }
{
    match letters {
        [first, ..] => first.place,
        [] => Place {
            line: 0,
            column: 0,
            byte: 0,
        },
    }
}

fn bytes_of(alloc: Global, letters: &[PlacedLetter]) -> Result<Vec<u8>, AllocError>
    ensures { IfOk result (λ v. v.items ≡ bytes letters.now) }
{
    let mut found = Vec::with_capacity(alloc, letters.len())?;
    for letter in letters {
        found.push(letter.letter.byte)?;
    }
    Ok(found)
}

// The text that the letters say.
fn text_of(alloc: Global, letters: &[PlacedLetter]) -> Result<String, AllocError>
    requires { IsUtf8 (bytes letters.now) }
    ensures { IfOk result (λ t. string_bytes t ≡ bytes letters.now) }
{
    let found = bytes_of(alloc, letters)?;
    match String::from_utf8(found) {
        Ok(text) => Ok(text),
        Err(_) => Ok(String::new(alloc)),
    }
}

/// A value whose entities are decoded: its letters, and the text that they say.
#[derive(Drop)]
pub struct Decoded {
    pub letters: Vec<PlacedLetter>,
    pub text: String,
}

impl Decoded {
    pub(crate) fn spelled(&self) -> Spelled<'_>
        requires { IsDecoded self.now }
        ensures spelled { IsSpelled result }
        ensures letters { result.letters.now ≡ self.now.letters.items }
    {
        Spelled {
            letters: self.letters.as_slice(),
            text: self.text.as_str(),
        }
    }
}

/// The value that is written so, and whose first byte stands at the place, with its entities decoded. None where something in it
/// begins an entity and is none. The error is want of memory. Takes time linear in the length of the text.
pub fn decode_value(alloc: Global, text: &str, place: Place) -> Result<Option<Decoded>, AllocError>
    requires { Fits place text.now }
    ensures { IfOk result (λ o. MatchOption o ((ls : Letters) → Decodes place text.now ls → ⊥) (λ d. Decodes place text.now d.letters.items × IsDecoded d × Fits place (string_bytes d.text))) }
{
    let Some(letters) = decode(alloc, text.as_bytes(), place)? else {
        return Ok(None);
    };
    let text = text_of(alloc, letters.as_slice())?;
    Ok(Some(Decoded { letters, text }))
}
