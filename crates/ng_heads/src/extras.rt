//! What may stand behind the list of a `@for`.

ghost use Rattle.std.specs.Prelude.{◌≡◌, false, MatchOption};
ghost use Rattle.ng_heads.specs.Fors.{AtTrack, NoTrack, AnswersPart, AnswersExtras};

use crate::at::At;
use crate::exprs::expr_at;
use crate::halt::Stop;
use crate::pairs::let_part;
use ng_ast::Expr;
use ng_values::NgText;
use sqlite_items::Items;
use std::alloc::Global;
use std::mem;

/// What may stand behind the list: a track expression, and names for the row's variables.
#[derive(Drop)]
pub(crate) struct Extras {
    pub track: Option<Expr>,
    pub vars: Items<(NgText, NgText)>,
}

// What stands after the `;` and the `track` of a part.
fn after_track(at: At) -> Option<At>
    ensures { MatchOption result (NoTrack at.entry.text.now) (AtTrack at.entry) }
{
    let part = at.word(b";")?;
    let front = part.blank();
    front.keyword(b"track")
}

// What stands after the `;` and the `track` of a part, where no `track` came before.
fn next_track(at: At, tracked: bool) -> Option<At>
    ensures { MatchOption result (tracked ≡ false → NoTrack at.entry.text.now) (λ next. (tracked ≡ false) × AtTrack at.entry next) }
{
    if tracked { None } else { after_track(at) }
}

// A part with the `;` before it; a `track` only where none came before. What is left is given.
fn part<'a>(alloc: Global, at: At<'a>, extras: &mut Extras) -> Result<At<'a>, Stop>
    ensures { AnswersPart at.entry extras.old extras.new result }
{
    match next_track(at, extras.track.is_some()) {
        Some(inside) => match expr_at(alloc, inside) {
            Ok((track, rest)) => {
                drop(mem::replace(&mut extras.track, Some(track)));
                Ok(rest)
            }
            Err(stop) => Err(stop),
        },
        None => let_part(alloc, at, &mut extras.vars),
    }
}

/// The parts up to the `)` at the end.
pub(crate) fn read_extras(alloc: Global, at: At) -> Result<Extras, Stop>
    ensures { AnswersExtras at.entry result }
{
    let mut extras = Extras {
        track: None,
        vars: Items::new(alloc),
    };
    let mut rest = at;
    'parts: loop {
        if rest.is(b")") {
            return Ok(extras);
        }
        match part(alloc, rest, &mut extras) {
            Ok(next) => rest = next,
            Err(stop) => {
                drop(extras);
                return Err(stop);
            }
        }
    }
}
