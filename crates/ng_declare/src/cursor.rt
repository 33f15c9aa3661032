//! What is still to be read of a file, and the tokens at its front.

ghost use Rattle.std.specs.Prelude.{◌≡◌, ◌+◌, ◌≤◌, length, true};
ghost use Rattle.ng_tokens.specs.Lexis as text;
ghost use Rattle.ng_phrases.specs.Words as words;
ghost use Rattle.ng_declare.specs.Quotes as quotes;

use crate::entries::Source;
use crate::halt::Halt;
use ng_ast::Place;
use ng_tokens::{Kind, Shape, Sign, Token, piece, same_text, shape, steps};
use ng_values::NgText;
use std::alloc::Global;

/// The rest of a file, and its place.
#[derive(Drop)]
pub struct Cursor<'a> {
    pub alloc: Global,
    pub place: Place,
    pub rest: &'a str,
    ghost near: { (place.line + length rest.now ≤ 1048577) × (place.column + length rest.now ≤ 1048577) × (place.byte + length rest.now ≤ 1048576) },
}

impl<'a> Cursor<'a> {
    ghost use Rattle.std.specs.Prelude.{take, drop};
    ghost use Rattle.std.specs.Option.{option_copied};
    ghost use Rattle.std.specs.Str.{IsCharBoundary};
    ghost use Rattle.ng_tokens.specs.Lexis.{steps};
    ghost use Rattle.ng_phrases.specs.Tokens as spec;
    ghost use Rattle.ng_declare.specs.Leaves as gram;
    ghost use Rattle.ng_declare.specs.Gives.{Gives, read};

    /// Goes past so many bytes.
    pub fn skip(&mut self, len: usize)
        requires { IsCharBoundary self.old.rest.now len }
        ensures rest { self.new.rest.now ≡ drop len self.old.rest.now }
        ensures place { self.new.place ≡ steps self.old.place (take len self.old.rest.now) }
    {
        let place = steps(self.place, self.rest[..len].as_bytes());
        self.place = place;
        self.rest = &self.rest[len..];
    }

    fn begins_gap(&self) -> bool
        ensures { result ≡ spec.begins_gap self.now.rest.now }
    {
        let bytes = self.rest.as_bytes();
        match bytes {
            [] => false,
            [first, ..] => is_blank(*first) || opens_comment(bytes),
        }
    }

    /// Goes past all the white space and comments that stand here.
    pub fn gap(&mut self) -> Result<(), Halt>
        ensures { Gives (spec.parse_gap self.old.place self.old.rest.now) result self.new.place self.new.rest.now }
    {
        while self.begins_gap() {
            let Some((_, len)) = piece(self.alloc, true, self.rest.as_bytes())? else {
                return Err(Halt::Syntax(self.place));
            };
            self.skip(len);
        }
        Ok(())
    }

    /// The token that stands here, and past the white space and comments after it.
    #[tactic(auto, unfolding(ng_phrases::specs::Tokens::parse_token))]
    pub fn token(&mut self) -> Result<Token, Halt>
        ensures { Gives (spec.parse_token self.old.place self.old.rest.now) result self.new.place self.new.rest.now }
    {
        let place = self.place;
        let Some((kind, len)) = piece(self.alloc, true, self.rest.as_bytes())? else {
            return Err(Halt::Syntax(place));
        };
        let Some(kind) = kind else {
            return Err(Halt::Syntax(place));
        };
        self.skip(len);
        self.gap()?;
        Ok(Token { kind, place })
    }

    // ---- what comes

    #[tactic(auto, unfolding(ng_phrases::specs::Words::sees_sign, ng_phrases::specs::Words::same_sign))]
    pub fn sees_sign(&self, sign: Sign) -> bool
        ensures { result ≡ words.sees_sign sign self.now.rest.now }
    {
        match shape(self.rest.as_bytes()) {
            Some((Shape::Sign(found), _)) => found == sign,
            _ => false,
        }
    }

    /// The name that comes, if one does.
    #[tactic(auto, unfolding(ng_phrases::specs::Words::name_at))]
    pub fn name_ahead(&self) -> Option<&'a [u8]>
        ensures { option_copied result ≡ words.name_at self.now.rest.now }
    {
        let bytes = self.rest.as_bytes();
        match shape(bytes) {
            Some((Shape::Name, len)) => Some(&bytes[..len]),
            _ => None,
        }
    }

    #[tactic(auto, unfolding(ng_phrases::specs::Words::sees_word))]
    pub fn sees_word(&self, word: &[u8]) -> bool
        ensures { result ≡ words.sees_word word.now self.now.rest.now }
    {
        match self.name_ahead() {
            Some(name) => same_text(word, name),
            None => false,
        }
    }

    // ---- tokens of a kind

    #[tactic(auto, unfolding(ng_phrases::specs::Parse::parse, ng_phrases::specs::Words::token, ng_phrases::specs::Words::sign, ng_phrases::specs::Words::same_sign))]
    pub fn sign(&mut self, sign: Sign) -> Result<(), Halt>
        ensures { Gives (read (words.sign sign) self.old.place self.old.rest.now) result self.new.place self.new.rest.now }
    {
        let token = self.token()?;
        match token.kind {
            Kind::Sign(found) if found == sign => Ok(()),
            _ => Err(Halt::Syntax(token.place)),
        }
    }

    #[tactic(auto, unfolding(ng_phrases::specs::Parse::parse, ng_phrases::specs::Words::token, ng_phrases::specs::Words::word))]
    pub fn word(&mut self, word: &[u8]) -> Result<(), Halt>
        ensures { Gives (read (words.word word.now) self.old.place self.old.rest.now) result self.new.place self.new.rest.now }
    {
        let token = self.token()?;
        if is_word(word, &token.kind) {
            Ok(())
        } else {
            Err(Halt::Syntax(token.place))
        }
    }

    #[tactic(auto, unfolding(ng_phrases::specs::Parse::parse, ng_phrases::specs::Words::token, ng_phrases::specs::Words::name))]
    pub fn name(&mut self) -> Result<NgText, Halt>
        ensures { Gives (read words.name self.old.place self.old.rest.now) result self.new.place self.new.rest.now }
    {
        let token = self.token()?;
        match token.kind {
            Kind::Name(name) => Ok(name),
            _ => Err(Halt::Syntax(token.place)),
        }
    }

    #[tactic(auto, unfolding(ng_phrases::specs::Parse::parse, ng_phrases::specs::Words::token, ng_phrases::specs::Words::text))]
    pub fn text(&mut self) -> Result<NgText, Halt>
        ensures { Gives (read words.text self.old.place self.old.rest.now) result self.new.place self.new.rest.now }
    {
        let token = self.token()?;
        match token.kind {
            Kind::Text(text) => Ok(text),
            _ => Err(Halt::Syntax(token.place)),
        }
    }

    /// The text between the backticks that stand here, and past them.
    #[tactic(auto, unfolding(ng_phrases::specs::Parse::parse, crate::specs::Leaves::quoted_here, crate::specs::Quotes::parse_quoted))]
    pub fn quoted(&mut self) -> Result<Source, Halt>
        ensures { Gives (read gram.quoted_here self.old.place self.old.rest.now) result self.new.place self.new.rest.now }
    {
        let Some(len) = quote_at(self.rest.as_bytes()) else {
            return Err(Halt::Syntax(self.place));
        };
        self.skip(1);
        let place = self.place;
        let text = NgText::new(self.alloc, &self.rest[..len])?;
        self.skip(len + 1);
        Ok(Source { place, text })
    }
}

// Where the first backtick stands.
fn tick_in(z: &[u8]) -> Option<usize>
    ensures { result ≡ quotes.tick_in z.now }
{
    z.iter().position(|b| *b == b'`')
}

// The length of the text between the backticks that stand here.
fn quote_at(z: &[u8]) -> Option<usize>
    ensures { result ≡ quotes.quote_at z.now }
{
    match z {
        [b'`', rest @ ..] => tick_in(rest),
        _ => None,
    }
}

fn is_word(word: &[u8], kind: &Kind) -> bool
    ensures { result ≡ words.is_word word.now kind.now }
{
    match kind {
        Kind::Name(name) => same_text(word, name.as_str().as_bytes()),
        _ => false,
    }
}

fn is_blank(b: u8) -> bool
    ensures { result ≡ text.is_blank b }
{
    b == b' ' || (9 <= b && b <= 10) || (12 <= b && b <= 13)
}

fn opens_comment(z: &[u8]) -> bool
    ensures { result ≡ text.opens_comment true z.now }
{
    match z {
        [a, b, ..] => *a == b'/' && (*b == b'/' || *b == b'*'),
        _ => false,
    }
}
