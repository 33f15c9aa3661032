//! A cursor over the tokens of a text.

ghost use Rattle.std.specs.Prelude.{◌≡◌, [], ◌∷◌, reverse, length, MatchOption};
ghost use Rattle.ng_exprs.specs.Grammar.{start};
ghost use Rattle.ng_exprs.specs.Parse as spec;
ghost use Rattle.ng_exprs.specs.Blocks as blocks;
ghost use Rattle.ng_exprs.specs.Gives.{Gives};

use crate::halt::Halt;
use ng_ast::Place;
use ng_tokens::{Kind, Sign, Token, same_text};
use ng_values::NgText;
use std::marker::Model;

fn is_word(word: &[u8], kind: &Kind) -> bool
    ensures { result ≡ blocks.is_word word.now kind.now }
{
    match kind {
        Kind::Name(name) => same_text(word, name.as_str().as_bytes()),
        _ => false,
    }
}

// The sign at the end, if one stands there.
fn last_sign(tokens: &[Token]) -> Option<Sign>
    ensures { result ≡ spec.peek (reverse tokens.now) }
{
    match tokens.last() {
        Some(token) => match token.kind {
            Kind::Sign(sign) => Some(sign),
            _ => None,
        },
        None => None,
    }
}

#[tactic(auto, unfolding(crate::specs::Parse::same))]
fn is_sign(sign: Sign, found: Option<Sign>) -> bool
    ensures { result ≡ spec.is_sign sign found }
{
    match found {
        Some(found) => found == sign,
        None => false,
    }
}

/// The tokens that are still to come, which contracts see as their list.
#[derive(Drop)]
pub struct Tokens {
    /// The last of them first.
    rest: Vec<Token>,
    /// The place after the text.
    end: Place,
}

impl Model for Tokens {
    ghost use Rattle.std.specs.Prelude.{List, reverse};
    ghost use Rattle.std.specs.Coded.{coded_list};
    ghost use Rattle.ng_tokens.specs.declared.kinds.Token.{Token};

    ghost Value = { List Token };

    ghost view = { λ t. reverse t.rest.items };
}

impl Tokens {
    pub fn new(mut all: Vec<Token>, end: Place) -> Tokens
        ensures { result ≡ all.items }
    {
        all.reverse();
        Tokens { rest: all, end }
    }

    pub fn len(&self) -> usize
        ensures { result ≡ length self.now }
    {
        self.rest.len()
    }

    pub fn next(&mut self) -> Option<Token>
        ensures { MatchOption result ((self.old ≡ []) × (self.new ≡ [])) (λ t. self.old ≡ t ∷ self.new) }
    {
        self.rest.pop()
    }

    /// The sign that comes next, if one does.
    pub fn peek(&self) -> Option<Sign>
        ensures { result ≡ spec.peek self.now }
    {
        last_sign(self.rest.as_slice())
    }

    /// The place of what comes next.
    pub fn place(&self) -> Place
        ensures { result ≡ start self.now }
    {
        match self.rest.last() {
            Some(token) => token.place,
            None => Place {
                line: 0,
                column: 0,
                byte: 0,
            },
        }
    }

    /// Where a refusal stands: at what comes next, or at the end of the text. No clause speaks of it.
    pub fn at(&self) -> Place {
        match self.rest.last() {
            Some(token) => token.place,
            None => self.end,
        }
    }

    pub fn skip(&mut self)
        ensures { self.new ≡ spec.rest self.old }
    {
        let _ = self.next();
    }

    pub fn sees(&self, sign: Sign) -> bool
        ensures { result ≡ spec.is_sign sign (spec.peek self.now) }
    {
        is_sign(sign, self.peek())
    }

    /// The next two tokens are this word and this sign.
    pub fn sees_word(&self, word: &[u8], sign: Sign) -> bool
        ensures { result ≡ blocks.sees_word word.now sign self.now }
    {
        match self.rest.as_slice().split_last() {
            Some((first, rest)) => is_word(word, &first.kind) && is_sign(sign, last_sign(rest)),
            None => false,
        }
    }

    pub fn expect(&mut self, sign: Sign) -> Result<(), Halt>
        ensures { Gives (spec.expect sign self.old) result self.new }
    {
        if self.sees(sign) {
            self.skip();
            Ok(())
        } else {
            Err(Halt::Syntax(self.at()))
        }
    }

    pub fn name(&mut self) -> Result<NgText, Halt>
        ensures { Gives (spec.name self.old) result self.new }
    {
        let place = self.at();
        match self.next() {
            Some(
                Token {
                    kind: Kind::Name(name),
                    place: _,
                },
            ) => Ok(name),
            _ => Err(Halt::Syntax(place)),
        }
    }

    /// The key of a pair: a name or a text.
    pub fn key(&mut self) -> Result<NgText, Halt>
        ensures { Gives (spec.key self.old) result self.new }
    {
        let place = self.at();
        match self.next() {
            Some(
                Token {
                    kind: Kind::Name(key) | Kind::Text(key),
                    place: _,
                },
            ) => Ok(key),
            _ => Err(Halt::Syntax(place)),
        }
    }
}
