//! Selectors: how they are read, which elements they match, and which slot content goes to.
#![tactic(auto)]

mod classes;
mod cursor;
mod fits;
mod halt;
mod parse;
mod slots;

ghost use Rattle.std.specs.Prelude.{◌≡◌, ◌↔◌, Some, IfOk, IfErr};
ghost use Rattle.ng_ast.specs.declared.Selector.{Selector};
ghost use Rattle.ng_tokens.specs.Lexis.{Text};
ghost use Rattle.ng_selectors.specs.Grammar.{ReadsSelector};
ghost use Rattle.ng_selectors.specs.Parse.{selector_of};
ghost use Rattle.ng_selectors.specs.Reading.{Refuses, IsUnlimited, IsOrMemory};

pub use fits::{matches, one_fits};
use halt::Halt;
use ng_ast::{Place, ReadError, Refusal, Rule, Selector};
use ng_values::NgText;
pub use slots::{default_slot, slot_of};
use std::alloc::Global;

/// An attribute of an element that counts for selectors, with its value.
#[derive(Drop)]
pub struct Attr {
    pub name: NgText,
    pub value: NgText,
}

/// Reads a selector, in time linear in the length of the text. `base` is the place of the text's first byte, at which a refusal
/// stands.
///
/// A selector is one alternative or more, with a comma between each two and white space round the commas. An alternative is `*`, or
/// a tag with any number of `[a]`, `[a=v]`, `.c` and `:not(..)` behind it; where one of these stands the tag may be missing. In
/// `:not` stands one alternative without another `:not`. A tag is a lower-case letter, then lower-case letters, digits and `-`;
/// `a` and `c` are letters, digits, `-`, `_` and `%`; `v` is a letter or `_`, then letters, digits and `_`, or anything in quotes.
/// Letters are those of ASCII. Angular's selectors of components (<https://angular.dev/guide/components/selectors>) are the model;
/// which characters may stand where is this project's own.
///
/// `Syntax` comes only where the text is no selector. Selectors have no limit, so `Limit` never comes, and neither does `Utf8`.
pub fn read_selector(alloc: Global, text: &str, base: Place) -> Result<Selector, ReadError>
    ensures reads { IfOk result (ReadsSelector text.now) }
    ensures refused { IfErr result (Refuses text.now base) }
    ensures unlimited { IfErr result IsUnlimited }
    ensures exact { (s : Selector) → ReadsSelector text.now s → IsOrMemory s result }
{
    match parse::selector(alloc, text) {
        Ok(selector) => Ok(selector),
        Err(Halt::Syntax) => {
            let refusal = Refusal::nameless(alloc, Rule::Syntax, base)?;
            Err(ReadError::Syntax(refusal))
        }
        Err(Halt::Memory) => Err(ReadError::Memory),
    }
}

/// A text is one selector at most.
pub fn one_selector()
    ensures { (t : Text) (a b : Selector) → ReadsSelector t a → ReadsSelector t b → a ≡ b }
{}

/// The definition `selector_of`, which computes, is the grammar.
pub fn computed_selector()
    ensures { (t : Text) (s : Selector) → (selector_of t ≡ Some s) ↔ ReadsSelector t s }
{}
