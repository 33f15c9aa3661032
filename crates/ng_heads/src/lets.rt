//! `@let` and interpolations.

ghost use Rattle.std.specs.Prelude.{◌≡◌, [], MatchOption};
ghost use Rattle.ng_lex.specs.declared.kinds.TokenKind.TheVariants as kind;
ghost use Rattle.ng_lex.specs.Spans.{IsSpan};
ghost use Rattle.ng_heads.specs.Answers.{Answers};
ghost use Rattle.ng_heads.specs.Lets.{AtLetFront, NoLetFront};

use crate::at::At;
use crate::exprs::{expr_at, read_whole};
use crate::halt::Halt;
use ng_lex::{Markup, Shape};
use ng_values::NgText;
use std::alloc::Global;

// The name of a `@let`, and what stands after its `=`.
fn front(at: At) -> Option<(At, At)>
    ensures { MatchOption result (NoLetFront at.entry.text.now) (λ q. AtLetFront at.entry q.0 q.1) }
{
    let word = at.word(b"@let")?;
    let gap = word.gap()?;
    let (name, rest) = gap.name()?;
    let end = rest.blank();
    let value = end.word(b"=")?;
    Some((name, value))
}

/// The `@let` at the front, up to the end of the text.
pub(crate) fn whole_let(alloc: Global, at: At) -> Result<Markup, Halt>
    ensures { Answers kind.Let at.entry.place at.entry.text.now result }
{
    let Some((name, rest)) = front(at) else {
        return Err(Halt::Syntax(at.place));
    };
    match expr_at(alloc, rest) {
        Ok((value, end)) => {
            if !end.is(b";") {
                drop(value);
                return Err(Halt::Syntax(end.place));
            }
            match NgText::new(alloc, name.text) {
                Ok(name) => Ok(Markup::Let(name, value)),
                Err(_) => {
                    drop(value);
                    Err(Halt::Memory)
                }
            }
        }
        Err(stop) => stop.turned(Shape::Let),
    }
}
