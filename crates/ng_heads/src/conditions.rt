//! The tests of `@if`, and expressions alone in brackets.

ghost use Rattle.std.specs.Prelude.{◌≡◌, MatchOption};
ghost use Rattle.ng_heads.specs.Tests.{Named, NotNamed, AnswersName, AnswersTest, AnswersAlone};

use crate::at::At;
use crate::exprs::expr_at;
use crate::halt::Stop;
use ng_ast::Expr;
use ng_values::NgText;
use std::alloc::Global;

// The name after `; as`, up to the `)` at the end.
fn name_after(at: At) -> Option<&str>
    ensures { MatchOption result (NotNamed at.entry.text.now) (λ n. Named at.entry.text.now n.now) }
{
    let part = at.word(b";")?;
    let front = part.blank();
    let word = front.word(b"as")?;
    let gap = word.gap()?;
    let (name, rest) = gap.name()?;
    let end = rest.blank();
    if end.is(b")") { Some(name.text) } else { None }
}

// The name behind the test of an `@if`, where one stands there, up to the `)` at the end.
fn name_behind(alloc: Global, at: At) -> Result<Option<NgText>, Stop>
    ensures { AnswersName at.entry result }
{
    if at.is(b")") {
        return Ok(None);
    }
    let Some(name) = name_after(at) else {
        return Err(Stop::Syntax(at.place));
    };
    let name = NgText::new(alloc, name)?;
    Ok(Some(name))
}

/// The test of an `@if`, with the name after `as`, up to the `)` at the end.
pub(crate) fn read_test(alloc: Global, at: At) -> Result<(Expr, Option<NgText>), Stop>
    ensures { AnswersTest at.entry result }
{
    match expr_at(alloc, at) {
        Ok((test, rest)) => match name_behind(alloc, rest) {
            Ok(name) => Ok((test, name)),
            Err(stop) => {
                drop(test);
                Err(stop)
            }
        },
        Err(stop) => Err(stop),
    }
}

/// The expression that stands alone before the `)` at the end.
pub(crate) fn read_alone(alloc: Global, at: At) -> Result<Expr, Stop>
    ensures { AnswersAlone at.entry result }
{
    match expr_at(alloc, at) {
        Ok((value, rest)) => {
            if rest.is(b")") {
                Ok(value)
            } else {
                drop(value);
                Err(Stop::Syntax(rest.place))
            }
        }
        Err(stop) => Err(stop),
    }
}
