//! The nodes of a text, which is read one part after another.

ghost use Rattle.std.specs.Prelude.{◌≡◌, ℕ, ◌<◌, ◌≤◌, List, length, IfOk, IfErr};
ghost use Rattle.ng_ast.specs.declared.Place.{Place};
ghost use Rattle.std.specs.Str.{IsCharBoundary};
ghost use Rattle.ng_heads.specs.Fits.{Fits};
ghost use Rattle.ng_nodes.specs.Reading.{Halts};
ghost use Rattle.ng_templates.specs.Fronts.{halted, IsNowhere, Stands, SoFar, Leads};
ghost use Rattle.ng_templates.specs.Reading.{AnswersNodes};

use ng_ast::{Place, TNode};
use ng_lex::{Part, span};
use ng_markup::read_part;
use ng_nodes::{Builder, Halt};
use ng_tokens::steps;
use sqlite_items::Items;
use std::alloc::Global;

// Why no part is read, as why there are no nodes.
fn widen(halt: ng_heads::Halt) -> Halt
    ensures { result ≡ halted halt }
{
    match halt {
        ng_heads::Halt::Syntax(place) => Halt::Syntax(place),
        ng_heads::Halt::Memory => Halt::Memory,
    }
}

// The part at the front of the text, whose first byte stands at `place`, and the length of its token.
fn front(alloc: Global, text: &str, place: Place) -> Result<(Part, usize), Halt>
    requires { Fits place text.now }
    ensures reads { IfOk result (λ q. Stands place text.now q.0 q.1) }
    ensures boundary { IfOk result (λ q. IsCharBoundary text.now q.1) }
    ensures refused { IfErr result (Halts (IsNowhere place text.now) ⊥) }
{
    let Some((kind, len)) = span(text) else {
        return Err(Halt::Syntax(place));
    };
    match read_part(alloc, kind, &text[..len], place) {
        Ok(markup) => Ok((Part { place, markup }, len)),
        Err(halt) => Err(widen(halt)),
    }
}

// A reader of a template: the parts that it has read, and what is left of the text with the place of its first byte.
struct Reader<'a> {
    builder: Builder,
    place: Place,
    rest: &'a str,
}

// The reader after this part, whose token has so many bytes and stands at the front of the rest.
fn after<'a>(
    builder: Builder,
    part: Part,
    place: Place,
    rest: &'a str,
    len: usize,
) -> Result<Reader<'a>, Halt>
    requires fits { Fits place rest.now }
    requires part { Stands place rest.now part len }
    requires boundary { IsCharBoundary rest.now len }
    ensures { Leads builder place rest.entry.now result }
{
    match builder.push(part) {
        Ok(builder) => Ok(Reader {
            builder,
            place: steps(place, rest[..len].as_bytes()),
            rest: &rest[len..],
        }),
        Err(halt) => Err(halt),
    }
}

// The reader after one part more.
fn turn<'a>(alloc: Global, reader: Reader<'a>) -> Result<Reader<'a>, Halt>
    requires fits { Fits reader.place reader.rest.now }
    requires some { 0 < length reader.rest.now }
    ensures { Leads reader.entry.builder reader.entry.place reader.entry.rest.now result }
{
    let Reader {
        builder,
        place,
        rest,
    } = reader;
    match front(alloc, rest, place) {
        Ok((part, len)) => after(builder, part, place, rest, len),
        Err(halt) => {
            drop(builder);
            Err(halt)
        }
    }
}

// The nodes of all parts that were read.
fn finish(reader: Reader<'_>) -> Result<Items<TNode>, Halt>
    requires { length reader.rest.now ≤ 0 }
    ensures { (base : Place) (t : List ℕ) → SoFar base t reader.entry.builder reader.entry.place reader.entry.rest.now → AnswersNodes base t result }
{
    let Reader {
        builder,
        place: _,
        rest: _,
    } = reader;
    builder.finish()
}

/// The nodes of the text, whose first byte stands at `base`.
pub(crate) fn read_nodes(alloc: Global, text: &str, base: Place) -> Result<Items<TNode>, Halt>
    requires { Fits base text.now }
    ensures { AnswersNodes base text.now result }
{
    let mut reader = Reader {
        builder: Builder::new(alloc),
        place: base,
        rest: text,
    };
    while !reader.rest.is_empty() {
        match turn(alloc, reader) {
            Ok(next) => reader = next,
            Err(halt) => return Err(halt),
        }
    }
    finish(reader)
}
