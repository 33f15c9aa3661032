//! The head of a `@for`.

ghost use Rattle.std.specs.Prelude.{◌≡◌, MatchOption};
ghost use Rattle.ng_heads.specs.Fors.{AtRow, NoRow, WithRow, AnswersFor};

use crate::at::At;
use crate::exprs::expr_at;
use crate::extras::{Extras, read_extras};
use crate::halt::Stop;
use ng_ast::{Expr, ForHead};
use ng_values::NgText;
use std::alloc::Global;

// The name of the row, after which `of` stands, and what is left.
fn row(at: At) -> Option<(At, At)>
    ensures { MatchOption result (NoRow at.entry.text.now) (λ q. AtRow at.entry q.0 q.1) }
{
    let front = at.blank();
    let (name, rest) = front.name()?;
    let gap = rest.gap()?;
    let rest = gap.keyword(b"of")?;
    Some((name, rest))
}

// The head with this row, list and extras.
fn with_row(alloc: Global, name: &str, list: Expr, extras: Extras) -> Result<ForHead, Stop>
    ensures { WithRow name.now list extras result }
{
    match NgText::new(alloc, name) {
        Ok(row) => {
            let Extras { track, vars } = extras;
            Ok(ForHead {
                row,
                list,
                track,
                vars,
            })
        }
        Err(_) => {
            drop(list);
            drop(extras);
            Err(Stop::Memory)
        }
    }
}

/// What the brackets of a `@for` hold, up to the `)` at the end.
pub(crate) fn read_for(alloc: Global, at: At) -> Result<ForHead, Stop>
    ensures { AnswersFor at.entry result }
{
    let Some((name, rest)) = row(at) else {
        return Err(Stop::Syntax(at.place));
    };
    match expr_at(alloc, rest) {
        Ok((list, rest)) => match read_extras(alloc, rest) {
            Ok(extras) => with_row(alloc, name.text, list, extras),
            Err(stop) => {
                drop(list);
                Err(stop)
            }
        },
        Err(stop) => Err(stop),
    }
}
