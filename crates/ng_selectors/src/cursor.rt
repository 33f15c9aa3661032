//! What is still to be read of a selector, and the signs and words at its front.

use crate::classes::Class;
use crate::halt::Halt;
use ng_values::NgText;
use std::alloc::Global;

/// The rest of a text.
#[derive(Drop)]
pub struct Cursor<'a> {
    pub alloc: Global,
    pub rest: &'a str,
}

impl<'a> Cursor<'a> {
    ghost use Rattle.std.specs.Prelude.{◌≡◌, ◌<◌, Some};
    ghost use Rattle.ng_selectors.specs.Classes.{within, first};
    ghost use Rattle.ng_selectors.specs.Parse as spec;
    ghost use Rattle.ng_selectors.specs.Gives.{Gives, Eats};

    pub fn new(alloc: Global, text: &'a str) -> Cursor<'a>
        ensures { result.rest.now ≡ text.now }
    {
        Cursor { alloc, rest: text }
    }

    pub fn is_at_end(&self) -> bool
        ensures { result ≡ spec.is_empty self.now.rest.now }
    {
        self.rest.is_empty()
    }

    /// The byte that comes next, if one does.
    pub fn peek(&self) -> Option<u8>
        ensures { result ≡ spec.peek self.now.rest.now }
    {
        self.rest.as_bytes().first().copied()
    }

    /// Goes past the sign, where it comes next.
    pub fn eat(&mut self, sign: &str) -> bool
        ensures { Eats (spec.strip sign.now self.old.rest.now) result self.old.rest.now self.new.rest.now }
    {
        match self.rest.strip_prefix(sign) {
            Some(rest) => {
                self.rest = rest;
                true
            }
            None => false,
        }
    }

    pub fn expect(&mut self, sign: &str) -> Result<(), Halt>
        ensures { Gives (spec.expect sign.now self.old.rest.now) result self.new.rest.now }
    {
        if self.eat(sign) {
            Ok(())
        } else {
            Err(Halt::Syntax)
        }
    }

    /// The bytes of a class at the front, which may be none.
    fn span(&mut self, class: Class) -> &'a str
        ensures { spec.span (within class) self.old.rest.now ≡ Some (result.now, self.new.rest.now) }
    {
        let len = class.run(self.rest.as_bytes());
        let front = &self.rest[..len];
        self.rest = &self.rest[len..];
        front
    }

    /// Goes past white space, where some comes next.
    pub fn blanks(&mut self)
        ensures { self.new.rest.now ≡ spec.skip_blanks self.old.rest.now }
    {
        let _ = self.span(Class::Blank);
    }

    /// Whether a word of a class comes next.
    pub fn sees(&self, class: Class) -> bool
        ensures { result ≡ spec.sees (first class) self.now.rest.now }
    {
        match self.rest.as_bytes() {
            [byte, ..] => class.begins(*byte),
            [] => false,
        }
    }

    /// The longest word of a class.
    pub fn word(&mut self, class: Class) -> Result<NgText, Halt>
        ensures { Gives (spec.run (first class) (within class) self.old.rest.now) result self.new.rest.now }
    {
        if !self.sees(class) {
            return Err(Halt::Syntax);
        }
        let word = self.span(class);
        Ok(NgText::new(self.alloc, word)?)
    }

    /// What stands before the next such quote, which is gone past too.
    pub fn until(&mut self, quote: char) -> Result<NgText, Halt>
        requires { quote < 128 }
        ensures { Gives (spec.until quote self.old.rest.now) result self.new.rest.now }
    {
        let Some((text, rest)) = self.rest.split_once(quote) else {
            return Err(Halt::Syntax);
        };
        self.rest = rest;
        Ok(NgText::new(self.alloc, text)?)
    }
}
