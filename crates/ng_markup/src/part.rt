//! What the tokens of a template say.

ghost use Rattle.std.specs.Prelude.{◌≡◌, [], IfOk};
ghost use Rattle.ng_lex.specs.declared.kinds.TokenKind.TheVariants as kind;
ghost use Rattle.ng_lex.specs.declared.markup.Markup.TheVariants as m;
ghost use Rattle.ng_lex.specs.Letters.{letters};
ghost use Rattle.ng_lex.specs.Spans.{IsSpan};
ghost use Rattle.ng_heads.specs.declared.halt.Halt.TheVariants as h;
ghost use Rattle.ng_heads.specs.Fits.{Fits};
ghost use Rattle.ng_markup.specs.Parts.{AnswersPart};
ghost use Rattle.ng_markup.specs.Halts.{halt_of};

use ng_ast::Place;
use ng_heads::{Halt, read_head, read_interpolation, read_let};
use ng_lex::{Markup, PlacedLetter, TokenKind, decode};
use ng_tags::{read_end, read_start};
use sqlite_items::Items;
use std::alloc::{AllocError, Global};

// Literal text of these letters, whose places don't count any more.
#[tactic(auto, using(crate::proofs::Letters::letters_more, crate::proofs::Letters::letters_end))]
fn literal_of(alloc: Global, found: &[PlacedLetter]) -> Result<Markup, AllocError>
    ensures { IfOk result (λ c. c ≡ m.Literal (letters found.now)) }
{
    let mut kept = Items::new(alloc);
    for letter in found {
        kept.push(letter.letter)?;
    }
    Ok(Markup::Literal(kept))
}

fn out_of_memory(_: AllocError) -> Halt
    ensures { result ≡ h.Memory }
{
    Halt::Memory
}

// Literal text.
fn literal(alloc: Global, text: &str, place: Place) -> Result<Markup, Halt>
    requires { Fits place text.now }
    ensures { AnswersPart kind.Literal place text.now result }
{
    match decode(alloc, text.as_bytes(), place) {
        Ok(Some(found)) => literal_of(alloc, found.as_slice()).map_err(out_of_memory),
        Ok(None) => Err(Halt::Syntax(place)),
        Err(_) => Err(Halt::Memory),
    }
}

// Why a tag isn't read, as the readers of heads say it.
fn halted(halt: ng_tags::Halt) -> Halt
    ensures { result ≡ halt_of halt }
{
    match halt {
        ng_tags::Halt::Syntax(place) => Halt::Syntax(place),
        ng_tags::Halt::Memory => Halt::Memory,
    }
}

/// What a token says: `text` is the whole token, of this kind, and its first byte stands at `place`. Takes time linear in the length
/// of the text.
///
/// The markup says what is written there; it is `Heavy` where a part of that shape begins at the token and an expression in it
/// passes a limit. `Syntax` comes only where the token is no part of a template; its place is where the reader stopped, which no
/// clause fixes. `Memory` comes where memory is wanting. Parts are those of Angular's templates, as docs/LANGUAGE.md has them.
pub fn read_part(alloc: Global, kind: TokenKind, text: &str, place: Place) -> Result<Markup, Halt>
    requires fits { Fits place text.now }
    requires token { IsSpan kind text.now [] }
    ensures { AnswersPart kind place text.now result }
{
    match kind {
        TokenKind::Literal => literal(alloc, text, place),
        TokenKind::Interpolation => read_interpolation(alloc, text, place),
        TokenKind::Start => read_start(alloc, text, place).map_err(halted),
        TokenKind::End => read_end(alloc, text, place).map_err(halted),
        TokenKind::Comment => Ok(Markup::Comment),
        TokenKind::Head => read_head(alloc, text, place),
        TokenKind::Close => Ok(Markup::Close),
        TokenKind::Let => read_let(alloc, text, place),
    }
}
