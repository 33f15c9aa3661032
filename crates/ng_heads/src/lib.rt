//! What stands in the heads of blocks, in `@let` and in interpolations.
#![tactic(auto)]

mod at;
mod conditions;
mod ends;
mod exprs;
mod extras;
mod fors;
mod halt;
mod heads;
mod lets;
mod pairs;

ghost use Rattle.std.specs.Prelude.{◌≡◌, [], IfOk, IfErr};
ghost use Rattle.ng_lex.specs.declared.kinds.TokenKind.TheVariants as kind;
ghost use Rattle.ng_lex.specs.declared.markup.Markup.{Markup};
ghost use Rattle.ng_lex.specs.Lexis.{IsWritten};
ghost use Rattle.ng_lex.specs.Spans.{IsSpan, kind_of};
ghost use Rattle.ng_heads.specs.Fits.{Fits};
ghost use Rattle.ng_heads.specs.Answers.{IsCalm, Says, Refuses, IsOrMemory, Answers};

use at::At;
use exprs::read_whole;
pub use halt::Halt;
use ng_ast::Place;
use ng_lex::{Markup, Shape};
use std::alloc::Global;

// What an interpolation says, from its `{{` to its `}}`.
fn interpolation(alloc: Global, at: At) -> Result<Markup, Halt>
    requires { IsSpan kind.Interpolation at.text.now [] }
    ensures { Answers kind.Interpolation at.entry.place at.entry.text.now result }
{
    let z = at.text.as_bytes();
    let end = z.len() - 2;
    let (front, _) = at.split(end);
    let (_, inside) = front.split(2);
    match read_whole(alloc, inside.text, inside.place) {
        Ok(value) => Ok(Markup::Interpolation(value)),
        Err(stop) => stop.turned(Shape::Interpolation),
    }
}

/// Reads the head of a block, from its `@` to its `{`: `text` is a whole token of that kind, and its first byte stands at `place`.
/// Takes time linear in the length of the text.
///
/// The markup says what is written there, and is `Heavy` where an expression in it passes a limit; `Syntax` comes only where no
/// head is written so. Its place is where the reader stopped; no clause fixes it. The heads are those of Angular's control flow,
/// as docs/LANGUAGE.md has them.
pub fn read_head(alloc: Global, text: &str, place: Place) -> Result<Markup, Halt>
    requires { Fits place text.now }
    ensures reads { IfOk result (Says kind.Head place text.now) }
    ensures refused { IfErr result (Refuses kind.Head place text.now) }
    ensures exact { (c : Markup) → kind_of c ≡ kind.Head → IsWritten place text.now c → IsCalm place text.now → IsOrMemory c result }
{
    heads::head(alloc, At { text, place })
}

/// Reads a whole `@let`, from its `@` to its `;`: `text` is a whole token of that kind, and its first byte stands at `place`.
/// Takes time linear in the length of the text.
///
/// The answers are those of `read_head`.
pub fn read_let(alloc: Global, text: &str, place: Place) -> Result<Markup, Halt>
    requires { Fits place text.now }
    ensures reads { IfOk result (Says kind.Let place text.now) }
    ensures refused { IfErr result (Refuses kind.Let place text.now) }
    ensures exact { (c : Markup) → kind_of c ≡ kind.Let → IsWritten place text.now c → IsCalm place text.now → IsOrMemory c result }
{
    lets::whole_let(alloc, At { text, place })
}

/// Reads an interpolation, from its `{{` to its `}}`: `text` is a whole token of that kind, and its first byte stands at `place`.
/// Takes time linear in the length of the text.
///
/// The answers are those of `read_head`.
pub fn read_interpolation(alloc: Global, text: &str, place: Place) -> Result<Markup, Halt>
    requires fits { Fits place text.now }
    requires token { IsSpan kind.Interpolation text.now [] }
    ensures reads { IfOk result (Says kind.Interpolation place text.now) }
    ensures refused { IfErr result (Refuses kind.Interpolation place text.now) }
    ensures exact { (c : Markup) → kind_of c ≡ kind.Interpolation → IsWritten place text.now c → IsCalm place text.now → IsOrMemory c result }
{
    interpolation(alloc, At { text, place })
}
